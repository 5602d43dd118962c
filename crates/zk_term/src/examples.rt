// Worked examples of the definitions, which refuse one that is turned together with its body.

ghost use Rattle.zk_term.specs.guards.Examples.{CharactersOfEachLength, StrayBytes, CodesOfALine, QuestionMarks};
ghost use Rattle.zk_term.specs.guards.Examples.{CodesByAnOwnTable, LongLines, NewLinesEndLines, ReturnsBeforeNewLines};
ghost use Rattle.zk_term.specs.guards.Examples.{TooManyBytes, WindowsAtTheStart, CharactersOfARow, NewLinesGoDown};
ghost use Rattle.zk_term.specs.guards.Examples.{TheLastColumn, BelowTheHeight, SplitsEmptyRows, HeightsOfSplits};
ghost use Rattle.zk_term.specs.guards.Examples.{SplitsAndTheCursor, SelectedWindows, CursorsOnTheGrid, RestsOfRows};
ghost use Rattle.zk_term.specs.guards.Examples.{ClearedWindows, UnsplitWindows, GridsThatAreGone, GridsThatStay};
ghost use Rattle.zk_term.specs.guards.Examples.{TheTallestIsKept, GridsThatAreForgotten, TextsOfRows};
ghost use Rattle.zk_term.specs.guards.Examples.{CharactersAreColumns, KindsAfterAFlush, LinesBeginAnew, LinesGoOn};
ghost use Rattle.zk_term.specs.guards.Examples.{LinesGoOnBehindASpace, LongWordsStandAlone, RowsAreNotWrapped};
ghost use Rattle.zk_term.specs.guards.Examples.{SignalsHaveTexts, SpacesInARow, StylesAddUp, WordsFillALine};
ghost use Rattle.zk_term.specs.guards.Examples.{WordsOfManyBytes, StylesTakeNoColumn, CellsHaveStyles};
ghost use Rattle.zk_term.specs.guards.Examples.{ScreensHaveAWidth};

/// The characters of bytes in UTF-8, and bytes that are none.
pub fn characters_by_example()
    ensures characters_of_each_length { CharactersOfEachLength }
    ensures stray_bytes { StrayBytes }
{}

/// Styles, and the texts in what a screen is given.
pub fn signals_by_example()
    ensures styles_add_up { StylesAddUp }
    ensures signals_have_texts { SignalsHaveTexts }
{}

/// The codes of a line (Standard, section 3.8).
pub fn codes_by_example()
    ensures codes_of_a_line { CodesOfALine }
    ensures question_marks { QuestionMarks }
    ensures codes_by_an_own_table { CodesByAnOwnTable }
    ensures long_lines { LongLines }
{}

/// The lines of an input.
#[tactic(auto, unfolding(crate::specs::Lines::while_short, crate::specs::Lines::heard))]
pub fn lines_by_example()
    ensures new_lines_end_lines { NewLinesEndLines }
    ensures returns_before_new_lines { ReturnsBeforeNewLines }
    ensures too_many_bytes { TooManyBytes }
{}

/// Characters in the upper window.
#[tactic(auto, unfolding(crate::proofs::guards::Opened::examples))]
pub fn prints_by_example()
    ensures windows_at_the_start { WindowsAtTheStart }
    ensures characters_of_a_row { CharactersOfARow }
    ensures new_lines_go_down { NewLinesGoDown }
    ensures the_last_column { TheLastColumn }
    ensures below_the_height { BelowTheHeight }
    ensures texts_of_rows { TextsOfRows }
{}

/// Cells with styles, and screens of other widths (Standard, sections 8.4 and 8.7.1).
#[tactic(auto, unfolding(crate::proofs::guards::Opened::examples))]
pub fn cells_by_example()
    ensures cells_have_styles { CellsHaveStyles }
    ensures screens_have_a_width { ScreensHaveAWidth }
{}

/// Splits of the screen (Standard, section 8.6.1).
#[tactic(auto, unfolding(crate::proofs::guards::Opened::examples))]
pub fn splits_by_example()
    ensures splits_empty_rows { SplitsEmptyRows }
    ensures heights_of_splits { HeightsOfSplits }
    ensures splits_and_the_cursor { SplitsAndTheCursor }
    ensures selected_windows { SelectedWindows }
    ensures cursors_on_the_grid { CursorsOnTheGrid }
{}

/// What erases the upper window (Standard, section 8.7.3).
#[tactic(auto, unfolding(crate::proofs::guards::Opened::examples))]
pub fn erasures_by_example()
    ensures rests_of_rows { RestsOfRows }
    ensures cleared_windows { ClearedWindows }
    ensures unsplit_windows { UnsplitWindows }
{}

/// The tallest grid since one was last forgotten.
#[tactic(auto, unfolding(crate::proofs::guards::Opened::examples))]
pub fn tallest_by_example()
    ensures grids_that_are_gone { GridsThatAreGone }
    ensures grids_that_stay { GridsThatStay }
    ensures the_tallest_is_kept { TheTallestIsKept }
    ensures grids_that_are_forgotten { GridsThatAreForgotten }
{}

/// Text that is wrapped at words.
#[tactic(auto, unfolding(crate::specs::Wrapping::further_words, crate::specs::Wrapping::wrapped))]
pub fn wrapped_by_example()
    ensures words_fill_a_line { WordsFillALine }
    ensures long_words_stand_alone { LongWordsStandAlone }
    ensures characters_are_columns { CharactersAreColumns }
    ensures spaces_in_a_row { SpacesInARow }
    ensures rows_are_not_wrapped { RowsAreNotWrapped }
    ensures lines_begin_anew { LinesBeginAnew }
    ensures lines_go_on { LinesGoOn }
    ensures lines_go_on_behind_a_space { LinesGoOnBehindASpace }
    ensures kinds_after_a_flush { KindsAfterAFlush }
    ensures words_of_many_bytes { WordsOfManyBytes }
    ensures styles_take_no_column { StylesTakeNoColumn }
{}
