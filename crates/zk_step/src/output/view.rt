// What is shown of the status line and the upper window on a screen of plain lines.

ghost use Rattle.std.specs.Prelude.{◌≡◌, ◌≤◌, ◌++◌, ◌∷◌, ◌==◌, [], ℕ, List, true, false, Ok, Err, IsOk, MatchResult};
ghost use Rattle.std.specs.Prelude.{map};
ghost use Rattle.zk_state.specs.Frames.{bounds_of};
ghost use Rattle.zk_text.specs.declared.unit.Unit.{Unit};
ghost use Rattle.zk_text.specs.Extra.{own_characters};
ghost use Rattle.zk_text.specs.Shown.{shown_all};
ghost use Rattle.zk_term.specs.Windows.{character_of, row_text};
ghost use Rattle.zk_step.specs.Routing.{fresh_line, on_screen, text_routed};
ghost use Rattle.zk_step.specs.Status.{status_units};
ghost use Rattle.zk_step.specs.View.{viewed, viewed_by, rows_shown};
ghost use Rattle.zk_step.specs.declared.state.game_state.View.TheVariants as view;

use crate::output::giving::give_status;
use crate::output::printer::{Printer, Selected};
use crate::output::status::status_line;
use crate::state::game_state::{GameState, View};
use zk_mem::fault::Fault;
use zk_mem::memory::Memory;
use zk_term::screen::Screen;
use zk_term::style::Style;
use zk_term::windows::{Cell, Windows};
use zk_text::extra::Extra;
use zk_text::sink::Sink;
use zk_text::unit::Unit;

/// Shows a new line, unless the last character was one.
pub(crate) fn start_line<S: Screen>(screen: &mut S, at_line_start: bool)
    ensures { S.shows screen.old screen.new (on_screen (fresh_line at_line_start)) }
{
    if !at_line_start {
        screen.text('\n', Style::roman());
    }
}

/// Shows the status line and a new line.
pub fn show_status_line<S: Screen>(memory: &Memory, screen: &mut S)
    requires { IsOk (status_units memory.now) }
    ensures { (units : List Unit) → status_units memory.now ≡ Ok units
        → S.shows screen.old screen.new
        (on_screen (shown_all (own_characters memory.now) units ++ 10 ∷ [])) }
{
    let Ok(line) = status_line(memory) else {
        unreachable!()
    };
    let extra = Extra::of(memory);
    let mut printer = Printer {
        screen,
        extra: &extra,
        selected: Selected {
            screen: true,
            script: false,
            style: Style::roman(),
        },
        at_line_start: true,
    };
    give_status(memory, line, &mut printer);
    match printer.put(Unit::Code(13)) {
        Ok(()) => {}
        Err(_) => unreachable!(),
    }
}

/// Shows the characters of cells on the screen, in no style.
fn show_characters<S: Screen>(screen: &mut S, cells: &[Cell])
    ensures { S.shows screen.old screen.new (on_screen (map character_of cells.now)) }
{
    for cell in cells {
        screen.text(cell.character, Style::roman());
    }
}

/// Shows a row of the upper window on a line, after a bar and a space.
fn show_row<S: Screen>(screen: &mut S, windows: &Windows, row: u8)
    requires { 1 ≤ row }
    ensures { S.shows screen.old screen.new (on_screen (124 ∷ 32 ∷ row_text windows.now row ++ 10 ∷ [])) }
{
    screen.text('|', Style::roman());
    screen.text(' ', Style::roman());
    show_characters(screen, windows.row(row));
    screen.text('\n', Style::roman());
}

/// Shows the rows of the upper window.
#[tactic(auto, using(crate::proofs::Viewing::no_rows))]
fn show_rows<S: Screen>(screen: &mut S, windows: &Windows)
    ensures { S.shows screen.old screen.new (on_screen (rows_shown windows.now 1 windows.now.height)) }
{
    for row in 0..windows.height() {
        show_row(screen, windows, row + 1);
    }
}

/// Whether the view of the status line and the upper window can be shown.
#[tactic(auto, unfolding(crate::specs::View::viewed))]
pub fn check_view(game: &GameState) -> Result<(), Fault>
    ensures { MatchResult result (λ _. IsOk (viewed game.now)) (λ e. viewed game.now ≡ Err e) }
{
    match game.view {
        View::Plain => Ok(()),
        View::Upper => {
            if game.memory.version() != 3 {
                return Ok(());
            }
            match status_line(&game.memory) {
                Ok(_) => Ok(()),
                Err(fault) => Err(fault),
            }
        }
    }
}

/// Shows the status line and the rows of the upper window before a read, on lines of their own.
#[tactic(auto, unfolding(crate::specs::View::viewed))]
pub fn show_view<S: Screen>(game: &mut GameState, screen: &mut S)
    requires { IsOk (viewed game.old) }
    ensures state { viewed game.old ≡ Ok (game.new, text_routed (viewed game.old)) }
    ensures text { S.shows screen.old screen.new (text_routed (viewed game.old)) }
    ensures bounds { bounds_of game.new.frames ≡ bounds_of game.old.frames }
{
    match game.view {
        View::Plain => {}
        View::Upper => show_lines(game, screen),
    }
}

/// Shows the status line and the rows of the upper window, in version 3.
fn show_status_and_rows<S: Screen>(game: &mut GameState, screen: &mut S)
    requires third { (game.old.memory.version == 3) ≡ true }
    requires ready { IsOk (status_units game.old.memory) }
    ensures state { viewed_by view.Upper game.old
        ≡ Ok (game.new, text_routed (viewed_by view.Upper game.old)) }
    ensures text { S.shows screen.old screen.new
        (text_routed (viewed_by view.Upper game.old)) }
    ensures bounds { bounds_of game.new.frames ≡ bounds_of game.old.frames }
{
    start_line(screen, game.at_line_start);
    show_status_line(&game.memory, screen);
    show_rows(screen, &game.windows);
    game.at_line_start = true;
}

/// Shows the rows of the upper window, in other versions.
fn show_rows_alone<S: Screen>(game: &mut GameState, screen: &mut S)
    requires { (game.old.memory.version == 3) ≡ false }
    ensures state { viewed_by view.Upper game.old
        ≡ Ok (game.new, text_routed (viewed_by view.Upper game.old)) }
    ensures text { S.shows screen.old screen.new
        (text_routed (viewed_by view.Upper game.old)) }
    ensures bounds { bounds_of game.new.frames ≡ bounds_of game.old.frames }
{
    if game.windows.height() == 0 {
        return;
    }
    start_line(screen, game.at_line_start);
    show_rows(screen, &game.windows);
    game.at_line_start = true;
}

/// Shows the status line in version 3, and the rows of the upper window.
fn show_lines<S: Screen>(game: &mut GameState, screen: &mut S)
    requires { IsOk (viewed_by view.Upper game.old) }
    ensures state { viewed_by view.Upper game.old
        ≡ Ok (game.new, text_routed (viewed_by view.Upper game.old)) }
    ensures text { S.shows screen.old screen.new
        (text_routed (viewed_by view.Upper game.old)) }
    ensures bounds { bounds_of game.new.frames ≡ bounds_of game.old.frames }
{
    if game.memory.version() == 3 {
        show_status_and_rows(game, screen);
        return;
    }
    show_rows_alone(game, screen);
}
