// Laws of the lines of an input, of the upper window and of text that is wrapped.

ghost use Rattle.zk_term.specs.Characters.{CharactersAreSpelled, CharactersAreDetermined};
ghost use Rattle.zk_term.specs.Lines.{AreLines, LinesAreGiven};
ghost use Rattle.zk_term.specs.guards.WindowLaws.{CharactersStandInARow, PrintsKeepTheSplit, PrintsKeepTheRowsBelow};
ghost use Rattle.zk_term.specs.guards.WindowLaws.{PrintsFollowOneAnother, SplitsEmptyThePast, KeepsTheTallest};
ghost use Rattle.zk_term.specs.guards.WindowLaws.{KeepsTheCursor, SpacesAtTheEndGo, ClearedRowsHaveNoText};
ghost use Rattle.zk_term.specs.guards.WrappingLaws.{CharactersTakeColumns, LinesAreFull, LinesAreWithin};
ghost use Rattle.zk_term.specs.guards.WrappingLaws.{LinesAreWrappedOneByOne, OnlySpacesBecomeNewLines, RowsStay};

use crate::source::Source;

/// The characters of bytes are those that the bytes spell.
pub fn characters_are_spelled()
    ensures { CharactersAreSpelled }
{}

/// Bytes spell one list of characters alone.
pub fn characters_are_determined()
    ensures { CharactersAreDetermined }
{}

/// What is heard of an input goes by how it begins: with a line and its new line, with a last line, with
/// too many bytes for one, or with nothing.
pub fn lines_come_one_by_one()
    ensures { AreLines }
{}

/// A source has given no lines at first, and one more after each line that is taken of it.
pub fn lines_are_given<S: Source>()
    ensures { LinesAreGiven S.gives }
{}

/// Characters that are printed in a row of the upper window stand in consecutive cells, and nothing else is
/// changed (Standard, section 8.7.2).
pub fn characters_stand_in_a_row()
    ensures { CharactersStandInARow }
{}

/// What is printed in the upper window changes neither its height nor the selected window, nor a row below the
/// height; and a text after another goes on where that one ends.
pub fn prints_keep_the_rest()
    ensures split { PrintsKeepTheSplit }
    ensures rows { PrintsKeepTheRowsBelow }
    ensures together { PrintsFollowOneAnother }
{}

/// A split keeps the rows of the upper window and empties those past it, and in version 3 it empties all
/// (Standard, section 8.6.1.1).
pub fn splits_empty_the_past()
    ensures { SplitsEmptyThePast }
{}

/// The tallest grid of the upper window is told as it was after the window has become lower, or has gone, until it
/// is forgotten.
pub fn the_tallest_is_kept()
    ensures { KeepsTheTallest }
{}

/// The cursor stands on the grid, or right past its last row or column.
pub fn cursors_stay_near_the_grid()
    ensures { KeepsTheCursor }
{}

/// The text of a row is what stands there, without the spaces at its end; a cleared row has none.
pub fn rows_have_texts()
    ensures spaces { SpacesAtTheEndGo }
    ensures cleared { ClearedRowsHaveNoText }
{}

/// Where a text is wrapped, spaces become new lines, and nothing else is changed.
pub fn only_spaces_become_new_lines()
    ensures { OnlySpacesBecomeNewLines }
{}

/// Each line of a text is wrapped by itself. A row of the upper window stays as it is. The lines that come of another
/// line are within the width, but for single words, and none has room for the word with which the next one begins.
pub fn lines_are_wrapped()
    ensures each { LinesAreWrappedOneByOne }
    ensures rows { RowsStay }
    ensures within { LinesAreWithin }
    ensures full { LinesAreFull }
{}

/// A character takes a column, however many bytes it has.
pub fn characters_take_columns()
    ensures { CharactersTakeColumns }
{}
