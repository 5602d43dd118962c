// The opcodes of windows, styles, fonts and bleeps.

ghost use Rattle.zk_state.specs.Frames.{bounds_of};
ghost use Rattle.std.specs.Prelude.{◌≡◌, IfOk, None, Ok, Err, MatchResult};
ghost use Rattle.zk_mem.specs.Map.{MemoryMap};
ghost use Rattle.zk_step.specs.declared.state.ending.Ending.TheVariants.{GoOn};
ghost use Rattle.zk_step.specs.Printing.{IsLong, IsPrintable};
ghost use Rattle.zk_step.specs.Screens.{selected_by, erased_by, erased_line, in_upper, or_first, windows_changed};
ghost use Rattle.zk_step.specs.Screens.{cursor_stored, status_by, window_effect, erasure_of, bleep_of, font_answer};
ghost use Rattle.zk_step.specs.Screens.{font_now, font_set, is_font};
ghost use Rattle.zk_term.specs.Windows.{cursor_set};

use crate::output::status::status_line;
use crate::state::ending::{Effect, Output};
use crate::state::game_state::{GameState, View};
use crate::state::values::Values;
use zk_code::opcode::Window as Operation;
use zk_mem::fault::Fault;
use zk_mem::memory::Memory;
use zk_term::style::Bleep;
use zk_term::windows::{Window, Windows};

/// Selects a window by its number; others than 0 and 1 do nothing.
fn select(windows: &mut Windows, number: u16)
    ensures { windows.new ≡ selected_by number windows.old }
{
    match number {
        0 => windows.select(Window::Lower),
        1 => windows.select(Window::Upper),
        _ => {}
    }
}

/// Erases the upper window, by its number or as a part of the screen.
fn erase(windows: &mut Windows, number: u16)
    ensures { windows.new ≡ erased_by number windows.old }
{
    match number {
        1 | 0xfffe => windows.clear(),
        0xffff => windows.unsplit(),
        _ => {}
    }
}

/// What is shown beside an erasure of a window: that of the lower window, by its number or as a part of the screen.
fn erasure(number: u16) -> Output
    ensures value { result ≡ erasure_of number }
    ensures ready { (m : MemoryMap) → IsPrintable m m result (GoOn None None) }
    ensures short { IsLong result → ⊥ }
{
    match number {
        0 | 0xfffe | 0xffff => Output::Erasure,
        _ => Output::Nothing,
    }
}

/// The bleep of a sound, where it is one.
fn bleep(number: u16) -> Output
    ensures value { result ≡ bleep_of number }
    ensures ready { (m : MemoryMap) → IsPrintable m m result (GoOn None None) }
    ensures short { IsLong result → ⊥ }
{
    match number {
        1 => Output::Bleep(Bleep::High),
        2 => Output::Bleep(Bleep::Low),
        _ => Output::Nothing,
    }
}

/// Whether a font can be set.
fn is_font(styles: bool, number: u16) -> bool
    ensures { result ≡ is_font styles number }
{
    number == 1 || (styles && number == 4)
}

/// The number of the selected window's font, as a story knows it.
fn font_now(windows: &Windows, styles: bool) -> u16
    ensures { result ≡ font_now styles windows.now }
{
    if !styles {
        return 1;
    }
    match windows.selected() {
        Window::Upper => 4,
        Window::Lower => { if windows.is_font_fixed() { 4 } else { 1 } }
    }
}

/// The number of the font that was set before, or 0 where the one that is asked for can't be set.
fn font(windows: &Windows, styles: bool, number: u16) -> u16
    ensures { result ≡ font_answer styles number windows.now }
{
    if number == 0 || is_font(styles, number) {
        font_now(windows, styles)
    } else {
        0
    }
}

/// Sets the font of the lower window, while it is selected, where that can be set.
fn set_font(windows: &mut Windows, styles: bool, number: u16)
    ensures { windows.new ≡ font_set styles number windows.old }
{
    if !is_font(styles, number) {
        return;
    }
    match windows.selected() {
        Window::Lower => windows.set_font(number == 4),
        Window::Upper => {}
    }
}

/// Erases the rest of the cursor's row, where the value is 1 and the upper window is selected.
fn erase_line(windows: &mut Windows, value: u16)
    ensures { windows.new ≡ in_upper windows.old.selected (erased_line value) windows.old }
{
    match windows.selected() {
        Window::Lower => {}
        Window::Upper => {
            if value == 1 {
                windows.erase_line();
            }
        }
    }
}

/// A number of a row or column; one that is negative is the first.
fn or_first(number: u16) -> u16
    ensures { result ≡ or_first number }
{
    if number < 0x8000 { number } else { 1 }
}

/// Moves the cursor, where the upper window is selected.
fn set_cursor(windows: &mut Windows, row: u16, column: u16)
    ensures { windows.new
        ≡ in_upper windows.old.selected (cursor_set (or_first row) (or_first column)) windows.old }
{
    match windows.selected() {
        Window::Lower => {}
        Window::Upper => windows.set_cursor(or_first(row), or_first(column)),
    }
}

/// Stores the row and the column of the cursor in two words.
fn store_cursor(memory: &mut Memory, address: u16, windows: &Windows) -> Result<(), Fault>
    ensures { MatchResult result (λ _. cursor_stored memory.old address windows.now ≡ Ok memory.new)
        (λ e. cursor_stored memory.old address windows.now ≡ Err e) }
{
    let (row, column) = windows.cursor();
    memory.set_word(address as u32, row)?;
    memory.set_word(address as u32 + 2, column)
}

/// Shows the status line in version 3, where the view has one.
fn show_status(game: &GameState) -> Result<Effect, Fault>
    ensures value { MatchResult result
        (λ e. status_by game.now.view game.now ≡ Ok (game.now, e))
        (λ f. status_by game.now.view game.now ≡ Err f) }
    ensures ready { IfOk result
        (λ e. IsPrintable game.now.memory game.now.memory e.output e.ending) }
{
    match game.view {
        View::Plain => Ok(Effect::goes_on()),
        View::Upper => {
            if game.memory.version() != 3 {
                return Ok(Effect::goes_on());
            }
            match status_line(&game.memory) {
                Ok(_) => Ok(Effect::prints(Output::Status)),
                Err(fault) => Err(fault),
            }
        }
    }
}

/// The effect of an opcode of windows, styles, fonts or bleeps.
#[tactic(auto, unfolding(crate::specs::Screens::window_effect))]
pub fn windows_effect(
    operation: Operation,
    game: &mut GameState,
    values: &Values,
) -> Result<Effect, Fault>
    ensures value { MatchResult result
        (λ e. window_effect operation game.old values.now ≡ Ok (game.new, e))
        (λ f. window_effect operation game.old values.now ≡ Err f) }
    ensures ready { IfOk result
        (λ e. IsPrintable game.old.memory game.new.memory e.output e.ending) }
    ensures same { IfOk result (λ e. IsLong e.output → game.new ≡ game.old) }
    ensures bounds { bounds_of game.new.frames ≡ bounds_of game.old.frames }
{
    let first = values.first();
    match operation {
        Operation::SplitWindow => game.windows.split(game.memory.version(), first),
        Operation::SetWindow => select(&mut game.windows, first),
        Operation::EraseWindow => {
            erase(&mut game.windows, first);
            return Ok(Effect::prints(erasure(first)));
        }
        Operation::EraseLine => erase_line(&mut game.windows, first),
        Operation::SetCursor => set_cursor(&mut game.windows, first, values.second()),
        Operation::GetCursor => {
            store_cursor(&mut game.memory, first, &game.windows)?;
        }
        Operation::ShowStatus => return show_status(game),
        Operation::SetTextStyle => game.windows.set_style(first),
        Operation::SetFont => {
            let styles = game.memory.setup().screen.styles;
            let before = font(&game.windows, styles, first);
            set_font(&mut game.windows, styles, first);
            return Ok(Effect::gives(before));
        }
        Operation::SoundEffect => return Ok(Effect::prints(bleep(first))),
    }
    Ok(Effect::goes_on())
}
