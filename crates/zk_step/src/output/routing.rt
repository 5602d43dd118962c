// What an instruction prints finds its way.

ghost use Rattle.std.specs.Prelude.{◌≡◌, ◌<◌, List, [], ℕ, true, false, Some, None, Ok, Err, IsOk, IfOk, IfErr, OnErr};
ghost use Rattle.std.specs.Prelude.{MatchResult};
ghost use Rattle.zk_state.specs.Frames.{bounds_of};
ghost use Rattle.zk_text.specs.Extra.{own_characters};
ghost use Rattle.zk_tables.specs.Rectangles.{rows_of, row_at, row_units};
ghost use Rattle.zk_term.specs.Windows.{printed};
ghost use Rattle.zk_text.specs.Shown.{shown_all};
ghost use Rattle.zk_step.specs.Halves.{IsForScreen, IsForTable, IsForUpper, IsRest, IsUnderWay, ShowsSome, rest_on};
ghost use Rattle.zk_step.specs.Halves.{rest_text, rest_text_by, rest_units, streamed_text, whole_of};
ghost use Rattle.zk_step.specs.Limited.{limited_next};
ghost use Rattle.zk_step.specs.Printed.{Collected};
ghost use Rattle.zk_step.specs.Printing.{characters_of, units_of, rows_or_none, IsPlainEnd, IsPrintable, IsReady};
ghost use Rattle.zk_step.specs.Routes.{finished_after, IsRouted, IsRoutedBy};
ghost use Rattle.zk_step.specs.Routing.{routed, routed_by, routed_to, no_signals, streamed, stored_all, table_filled};
ghost use Rattle.zk_step.specs.Routing.{upper_printed, rectangle_printed, printed_if, script_is_on, status_shown};
ghost use Rattle.zk_step.specs.Routing.{text_routed, with_line_start, is_bit_1_set, selected_in, style_shown};
ghost use Rattle.zk_step.specs.Selecting.{flags_2};
ghost use Rattle.zk_mem.specs.Map.{byte_at};
ghost use Rattle.zk_step.specs.Status.{status_units};
ghost use Rattle.zk_step.specs.Streams.{newest_of};

use crate::instruction::{Begun, check};
use crate::output::codes::Codes;
use crate::output::giving::give_output;
use crate::output::parts::{Half, Rest, collect_part, print_upper_part, show_part};
use crate::output::printer::{Collector, Printer, Selected, WindowPrinter};
use crate::output::streams::OpenTable;
use crate::output::view::{show_status_line, start_line};
use crate::state::ending::Output;
use crate::state::game_state::GameState;
use zk_code::instr::Instr;
use zk_mem::fault::Fault;
use zk_mem::memory::Memory;
use zk_state::refusal::Refusal;
use zk_tables::arrays::rectangle::{Rectangle, give_row};
use zk_tables::arrays::runs::put_bytes;
use zk_term::screen::Screen;
use zk_term::style::Style;
use zk_term::windows::{Window, Windows};
use zk_text::extra::Extra;

/// Collects the codes that a table gets, as many as there is room for.
fn collect(memory: &Memory, output: Output, codes: &mut Codes)
    requires { IsReady memory.now output }
    ensures { Collected codes.new
        (stored_all (own_characters memory.now) (units_of memory.now output)) }
{
    codes.clear();
    let extra = Extra::of(memory);
    let mut collector = Collector {
        codes,
        extra: &extra,
    };
    match give_output(memory, output, &mut collector) {
        Ok(()) => {}
        Err(_) => {}
    }
}

/// Stores codes that were collected in the newest table of stream 3. The first that can't be stored decides.
fn store_codes(game: &mut GameState, table: OpenTable, codes: &Codes) -> Result<(), Fault>
    requires { newest_of game.old.streams.tables ≡ Some table }
    ensures value { (all : List ℕ) → Collected codes.now all → MatchResult result
        (λ _. table_filled game.old table all ≡ Ok game.new)
        (λ e. table_filled game.old table all ≡ Err e) }
    ensures bounds { bounds_of game.new.frames ≡ bounds_of game.old.frames }
{
    let end = table.address as u32 + 2 + table.count as u32;
    match put_bytes(&mut game.memory, end, codes.as_slice()) {
        Ok(()) => {
            game.streams.count(codes.as_slice().len() as u16);
            Ok(())
        }
        Err(fault) => Err(fault),
    }
}

/// Stores what is printed in the newest table of stream 3. All of it is collected before the first code is stored; the
/// first that can't be stored decides.
fn fill_table(
    game: &mut GameState,
    table: OpenTable,
    output: Output,
    codes: &mut Codes,
) -> Result<(), Fault>
    requires ready { IsReady game.old.memory output }
    requires newest { newest_of game.old.streams.tables ≡ Some table }
    ensures value { MatchResult result (λ _. table_filled game.old table
        (stored_all (own_characters game.old.memory) (units_of game.old.memory output))
        ≡ Ok game.new) (λ e. table_filled game.old table
        (stored_all (own_characters game.old.memory) (units_of game.old.memory output))
        ≡ Err e) }
    ensures bounds { bounds_of game.new.frames ≡ bounds_of game.old.frames }
{
    collect(&game.memory, output, codes);
    store_codes(game, table, codes)
}

/// Whether the transcript is on: it is a bit of Flags 2 (Standard, section 7.4).
#[tactic(auto, unfolding(crate::specs::Routing::script_is_on))]
pub fn is_script_on(memory: &Memory) -> bool
    ensures { result ≡ script_is_on memory.now }
{
    match memory.byte(0x11) {
        Ok(flags) => flags % 2 == 1,
        Err(_) => false,
    }
}

/// Whether all text is shown with a fixed pitch: it is a bit of Flags 2 (Standard, section 11.1.2).
fn is_fixed(memory: &Memory) -> bool
    ensures { result ≡ is_bit_1_set (byte_at memory.now flags_2) }
{
    match memory.byte(0x11) {
        Ok(flags) => flags / 2 % 2 == 1,
        Err(_) => false,
    }
}

/// The style that is set, with a fixed pitch where the font has one, or all text is shown so.
#[tactic(auto, unfolding(crate::specs::Routing::style_shown))]
fn style_shown(memory: &Memory, windows: &Windows) -> Style
    ensures { result ≡ style_shown memory.now windows.now }
{
    let style = windows.style();
    Style {
        fixed: style.fixed || windows.is_font_fixed() || is_fixed(memory),
        reverse: style.reverse,
        bold: style.bold,
        italic: style.italic,
    }
}

/// The streams that are on, and the style in which text is shown.
fn selected(game: &GameState) -> Selected
    ensures { result ≡ selected_in game.now.memory game.now }
{
    Selected {
        screen: game.streams.screen(),
        script: is_script_on(&game.memory),
        style: style_shown(&game.memory, &game.windows),
    }
}

/// Shows what is printed on the screen and in the transcript, while they are on.
fn show_text<S: Screen>(game: &mut GameState, output: Output, screen: &mut S)
    requires ready { IsReady game.old.memory output }
    ensures state { game.new
        ≡ (streamed game.old.memory game.old (characters_of game.old.memory output)).0 }
    ensures text { S.shows screen.old screen.new
        (streamed game.old.memory game.old (characters_of game.old.memory output)).1 }
{
    let on = selected(game);
    // where neither gets it, the text is not walked
    if !on.screen && !on.script {
        return;
    }
    let extra = Extra::of(&game.memory);
    let mut printer = Printer {
        screen,
        extra: &extra,
        selected: on,
        at_line_start: game.at_line_start,
    };
    match give_output(&game.memory, output, &mut printer) {
        Ok(()) => game.at_line_start = printer.at_line_start,
        Err(_) => unreachable!(),
    }
}

/// Shows the status line on a line of its own.
fn show_status<S: Screen>(game: &mut GameState, screen: &mut S)
    requires { IsOk (status_units game.old.memory) }
    ensures state { game.new ≡ with_line_start true game.old }
    ensures text { S.shows screen.old screen.new
        (text_routed (status_shown game.old.memory game.old (status_units game.old.memory))) }
{
    start_line(screen, game.at_line_start);
    show_status_line(&game.memory, screen);
    game.at_line_start = true;
}

/// Prints a row of a rectangle in the upper window.
fn print_row(windows: &mut Windows, memory: &Memory, rectangle: Rectangle, row: u16)
    requires stands { IsOk (rows_of memory.now rectangle) }
    requires within { row < rectangle.height }
    ensures { (codes : List ℕ) → row_at memory.now rectangle row ≡ Ok codes
        → windows.new
        ≡ printed (shown_all (own_characters memory.now) (row_units codes)) windows.old }
{
    let extra = Extra::of(memory);
    let mut printer = WindowPrinter {
        windows,
        extra: &extra,
    };
    match give_row(memory, rectangle, row, &mut printer) {
        Ok(()) => {}
        Err(_) => unreachable!(),
    }
}

/// Prints a row of a rectangle in the upper window, while stream 1 is on.
pub(crate) fn print_row_if(
    windows: &mut Windows,
    memory: &Memory,
    rectangle: Rectangle,
    row: u16,
    on: bool,
)
    requires stands { IsOk (rows_of memory.now rectangle) }
    requires within { row < rectangle.height }
    ensures { (codes : List ℕ) → row_at memory.now rectangle row ≡ Ok codes
        → windows.new
        ≡ printed_if on (shown_all (own_characters memory.now) (row_units codes)) windows.old }
{
    if on {
        print_row(windows, memory, rectangle, row);
        return;
    }
}

/// Prints a rectangle in the upper window, from the cursor on: further rows begin in its column. While stream 1 is off
/// the cursor alone moves, from row to row.
fn print_rows(windows: &mut Windows, memory: &Memory, rectangle: Rectangle, on: bool)
    requires { IsOk (rows_of memory.now rectangle) }
    ensures { windows.new ≡ rectangle_printed on (own_characters memory.now)
        (rows_or_none (rows_of memory.now rectangle)) windows.old }
{
    if rectangle.height == 0 {
        return;
    }
    let (_, column) = windows.cursor();
    print_row_if(windows, memory, rectangle, 0, on);
    for row in 1..rectangle.height {
        windows.start_row(column);
        print_row_if(windows, memory, rectangle, row, on);
    }
}

/// Prints units in the upper window.
fn print_units(windows: &mut Windows, memory: &Memory, output: Output)
    requires { IsReady memory.now output }
    ensures { windows.new ≡ printed (characters_of memory.now output) windows.old }
{
    let extra = Extra::of(memory);
    let mut printer = WindowPrinter {
        windows,
        extra: &extra,
    };
    match give_output(memory, output, &mut printer) {
        Ok(()) => {}
        Err(_) => unreachable!(),
    }
}

/// Prints in the upper window, while stream 1 is on.
#[tactic(auto, unfolding(crate::specs::Routing::upper_printed))]
fn print_upper(windows: &mut Windows, memory: &Memory, output: Output, on: bool)
    requires { IsReady memory.now output }
    ensures { windows.new ≡ upper_printed on memory.now output windows.old }
{
    match output {
        Output::Rows(rectangle) => print_rows(windows, memory, rectangle, on),
        output => {
            if on {
                print_units(windows, memory, output);
            }
        }
    }
}

/// A text finds its way: while a table of stream 3 is open to that alone; else by the window that is selected.
fn route_text<S: Screen>(
    game: &mut GameState,
    i: &Instr,
    begun: &Begun,
    output: Output,
    codes: &mut Codes,
    screen: &mut S,
) -> Result<(), Refusal>
    requires ready { IsReady game.old.memory output }
    requires plain { IsPlainEnd begun.now.effect.ending }
    ensures value { MatchResult result (λ _. IsRoutedBy
        (routed_by (newest_of game.old.streams.tables) game.old.memory game.old output) game.new
        i.now begun.now.values begun.now.effect.ending) (λ e. limited_next
        (finished_after
        (routed_by (newest_of game.old.streams.tables) game.old.memory game.old output)
        i.now begun.now.values begun.now.effect.ending) ≡ Err e) }
    ensures text { MatchResult result (λ _. S.shows screen.old screen.new
        (text_routed (routed_by (newest_of game.old.streams.tables) game.old.memory game.old
        output)))
        (λ _. S.shows screen.old screen.new []) }
    ensures bounds { bounds_of game.new.frames ≡ bounds_of game.old.frames }
{
    match game.streams.newest() {
        Some(table) => match fill_table(game, table, output, codes) {
            Ok(()) => Ok(()),
            Err(fault) => Err(Refusal::Fault(fault)),
        },
        None => match game.windows.selected() {
            Window::Lower => match check(game, i, begun) {
                Ok(()) => {
                    show_text(game, output, screen);
                    Ok(())
                }
                Err(refusal) => Err(refusal),
            },
            Window::Upper => {
                let on = game.streams.screen();
                print_upper(&mut game.windows, &game.memory, output, on);
                Ok(())
            }
        },
    }
}

/// What is printed finds its way, once nothing can refuse the instruction any more that shows it.
pub(crate) fn route<S: Screen>(
    game: &mut GameState,
    i: &Instr,
    begun: &Begun,
    codes: &mut Codes,
    screen: &mut S,
) -> Result<(), Refusal>
    requires { IsPrintable game.old.memory game.old.memory begun.now.effect.output
        begun.now.effect.ending }
    ensures value { MatchResult result
        (λ _. IsRouted game.old game.new i.now begun.now.values begun.now.effect)
        (λ e. limited_next (finished_after (routed game.old.memory game.old begun.now.effect.output)
        i.now begun.now.values begun.now.effect.ending) ≡ Err e) }
    ensures text { MatchResult result (λ _. S.shows screen.old screen.new
        (text_routed (routed game.old.memory game.old begun.now.effect.output)))
        (λ _. S.shows screen.old screen.new []) }
    ensures bounds { bounds_of game.new.frames ≡ bounds_of game.old.frames }
{
    match begun.effect.output {
        Output::Nothing => Ok(()),
        Output::Status => match check(game, i, begun) {
            Ok(()) => {
                show_status(game, screen);
                Ok(())
            }
            Err(refusal) => Err(refusal),
        },
        Output::Erasure => match check(game, i, begun) {
            Ok(()) => {
                screen.erase();
                Ok(())
            }
            Err(refusal) => Err(refusal),
        },
        Output::Bleep(bleep) => match check(game, i, begun) {
            Ok(()) => {
                screen.beep(bleep);
                Ok(())
            }
            Err(refusal) => Err(refusal),
        },
        output => route_text(game, i, begun, output, codes, screen),
    }
}

/// Collects what is still to come for the newest table of stream 3, a part of it; once all is there, it is stored. Says
/// whether more is to come.
fn fill_table_part(
    game: &mut GameState,
    table: OpenTable,
    half: &mut Half,
    codes: &mut Codes,
    words: Option<u32>,
) -> Result<bool, Fault>
    requires stands { IsRest game.old.memory half.old.rest }
    requires newest { newest_of game.old.streams.tables ≡ Some table }
    requires way { IsForTable game.old codes.old half.old }
    ensures on { IfOk result (λ on. on ≡ true → (game.new ≡ game.old) × IsRest game.old.memory half.new.rest
        × IsForTable game.old codes.new half.new) }
    ensures whole { words ≡ None → IfOk result (λ on. on ≡ false) }
    ensures off { IfOk result (λ on. on ≡ false → table_filled game.old table
        (stored_all (own_characters game.old.memory) (units_of game.old.memory half.old.effect.output))
        ≡ Ok game.new) }
    ensures err { IfErr result (λ e. table_filled game.old table
        (stored_all (own_characters game.old.memory) (units_of game.old.memory half.old.effect.output))
        ≡ Err e) }
    ensures same { half.new.effect ≡ half.old.effect }
    ensures bounds { bounds_of game.new.frames ≡ bounds_of game.old.frames }
{
    if collect_part(&game.memory, &mut half.rest, codes, words) {
        return Ok(true);
    }
    match store_codes(game, table, codes) {
        Ok(()) => Ok(false),
        Err(fault) => Err(fault),
    }
}

/// Shows a part of what is still to come on the screen and in the transcript. Says whether more is to come.
fn show_lower_part<S: Screen>(
    game: &mut GameState,
    half: &mut Half,
    screen: &mut S,
    words: Option<u32>,
) -> bool
    requires stands { IsRest game.old.memory half.old.rest }
    requires way { IsForScreen game.old half.old }
    ensures on { result ≡ true → (game.new ≡ game.old) × IsRest game.old.memory half.new.rest
        × IsForScreen game.old half.new }
    ensures whole { words ≡ None → result ≡ false }
    ensures off { result ≡ false → game.new ≡ (streamed game.old.memory game.old
        (characters_of game.old.memory half.old.effect.output)).0 }
    ensures text { ShowsSome S.shows screen.old screen.new
        (streamed_text game.old (shown_all (own_characters game.old.memory) (rest_units game.old.memory half.old.rest)))
        (streamed_text game.old (shown_all (own_characters game.old.memory)
        (rest_on game.old.memory result half.new.rest))) }
    ensures same { half.new.effect ≡ half.old.effect }
{
    let on = selected(game);
    let line = &mut half.at_line_start;
    let more = show_part(&game.memory, on, &mut half.rest, line, screen, words);
    if !more {
        game.at_line_start = half.at_line_start;
    }
    more
}

/// Prints a part of what is still to come in a draft of the upper window, which takes its place once all is there. Says
/// whether more is to come.
fn print_draft_part(
    game: &mut GameState,
    half: &mut Half,
    draft: &mut Windows,
    words: Option<u32>,
) -> bool
    requires stands { IsRest game.old.memory half.old.rest }
    requires way { IsForUpper game.old draft.old half.old }
    ensures on { result ≡ true → (game.new ≡ game.old) × IsRest game.old.memory half.new.rest
        × IsForUpper game.old draft.new half.new }
    ensures whole { words ≡ None → result ≡ false }
    ensures off { result ≡ false → game.new ≡ record game.old
        { windows = upper_printed game.old.streams.screen game.old.memory half.old.effect.output game.old.windows } }
    ensures same { half.new.effect ≡ half.old.effect }
{
    let (_, column) = game.windows.cursor();
    let on = game.streams.screen();
    let more = print_upper_part(&game.memory, draft, &mut half.rest, column, on, words);
    if !more {
        game.windows.copy_from(draft);
    }
    more
}

/// A part of what is still to come of what an instruction prints finds its way. Says whether more is to come.
pub(crate) fn route_part<S: Screen>(
    game: &mut GameState,
    i: &Instr,
    begun: &Begun,
    half: &mut Half,
    codes: &mut Codes,
    draft: &mut Windows,
    screen: &mut S,
    words: Option<u32>,
) -> Result<bool, Fault>
    requires { IsUnderWay game.old i.now begun.now.values codes.old draft.old half.old }
    ensures on { IfOk result (λ on. on ≡ true → (game.new ≡ game.old)
        × IsUnderWay game.old i.now begun.now.values codes.new draft.new half.new) }
    ensures whole { words ≡ None → IfOk result (λ on. on ≡ false) }
    ensures off { IfOk result (λ on. on ≡ false → IsRoutedBy
        (routed_by (newest_of game.old.streams.tables) game.old.memory game.old half.old.effect.output)
        game.new i.now begun.now.values half.old.effect.ending) }
    ensures err { IfErr result (λ e.
        routed_by (newest_of game.old.streams.tables) game.old.memory game.old half.old.effect.output
        ≡ Err e) }
    ensures text { IfOk result (λ on. ShowsSome S.shows screen.old screen.new
        (rest_text game.old half.old.rest)
        (rest_text_by (newest_of game.old.streams.tables) game.old.windows.selected game.old
        (rest_on game.old.memory on half.new.rest))) }
    ensures nothing { OnErr result (S.shows screen.old screen.new []) }
    ensures same { half.new.effect ≡ half.old.effect }
    ensures bounds { bounds_of game.new.frames ≡ bounds_of game.old.frames }
{
    let (_i, _values) = (i, &begun.values);
    match game.streams.newest() {
        Some(table) => fill_table_part(game, table, half, codes, words),
        None => match game.windows.selected() {
            Window::Lower => Ok(show_lower_part(game, half, screen, words)),
            Window::Upper => Ok(print_draft_part(game, half, draft, words)),
        },
    }
}

/// What an instruction prints is ready to be shown in parts, once nothing can refuse the instruction any more where the
/// screen gets it.
pub(crate) fn begin_half(
    game: &GameState,
    i: &Instr,
    begun: &Begun,
    rest: Rest,
    codes: &mut Codes,
    draft: &mut Windows,
) -> Result<Half, Refusal>
    requires ready { IsReady game.now.memory begun.now.effect.output }
    requires plain { IsPlainEnd begun.now.effect.ending }
    requires whole { whole_of begun.now.effect.output ≡ Some rest }
    ensures ok { IfOk result (λ h. IsUnderWay game.now i.now begun.now.values codes.new draft.new h) }
    ensures effect { IfOk result (λ h. h.effect ≡ begun.now.effect) }
    ensures rest { IfOk result (λ h. h.rest ≡ rest) }
    ensures err { IfErr result (λ e. limited_next (finished_after
        (routed_by (newest_of game.now.streams.tables) game.now.memory game.now begun.now.effect.output)
        i.now begun.now.values begun.now.effect.ending) ≡ Err e) }
{
    let half = Half {
        effect: begun.effect,
        rest,
        at_line_start: game.at_line_start,
    };
    match game.streams.newest() {
        Some(_) => {
            codes.clear();
            Ok(half)
        }
        None => match game.windows.selected() {
            Window::Lower => match check(game, i, begun) {
                Ok(()) => Ok(half),
                Err(refusal) => Err(refusal),
            },
            Window::Upper => {
                draft.copy_from(&game.windows);
                Ok(half)
            }
        },
    }
}
