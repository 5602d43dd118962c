// Playing with the status line and the upper window above the prompt.

ghost use Rattle.std.specs.Prelude.{◌≡◌, ◌≤◌, true, false, None, Some, Err, OnOk};
ghost use Rattle.zk_term.specs.Devices.{device};
ghost use Rattle.zk_vm.specs.Bounds.{AreInRange};
ghost use Rattle.zk_vm.specs.Halts.{event_waited};
ghost use Rattle.zk_vm.specs.Step.{is_read};
ghost use Rattle.zk_program.specs.Plans.{menu_height, shown_rows};
ghost use Rattle.zk_program.specs.Playing.{IsReported, Work};

use crate::exit::Exit;
use crate::playing::{Devices, PlayRequest, note_stop, start};
use crate::report::report;
use std::alloc::{AllocError, Global};
use std::io::Read;
use zk_command::settings::Settings;
use zk_fast::places::Places;
use zk_mem::memory::Memory;
use zk_step::output::status::status_line;
use zk_step::output::view::show_status_line;
use zk_step::state::ending::Event;
use zk_step::state::game_state::View;
use zk_system::held_prompt::HeldPrompt;
use zk_system::style_marks::StyleMarks;
use zk_term::buffered_screen::BufferedScreen;
use zk_term::io_device::IoDevice;
use zk_term::lines::{Input, Lines};
use zk_term::nothing::Nothing;
use zk_term::screen::Screen;
use zk_term::source::Source;
use zk_term::style::Style;
use zk_term::target::{Failed, Target};
use zk_term::windows::{Cell, Windows};
use zk_vm::machine::{Machine, is_read};
use zk_vm::play::{answer, next_line, run_on, serve};
use zk_vm::slot::SaveSlot;
use zk_vm::stop::Stop;

/// How rows are shown.
#[derive(Clone, Copy, Drop)]
pub struct Look {
    /// The columns of the screen's lines, where they are wrapped.
    width: Option<u8>,
    /// Whether styles are shown.
    styles: bool,
    /// The height of the window in which a character was read last, or 0 where a line was.
    menu: u8,
}

impl Look {
    /// That of a play at its start.
    pub fn new(width: Option<u8>, styles: bool) -> Look {
        Look {
            width,
            styles,
            menu: 0,
        }
    }
}

/// The height of a window that a read makes a menu: one of a character does.
fn menu_of(event: Event, height: u8) -> u8
    ensures { result ≡ menu_height event height }
{
    match event {
        Event::Char => height,
        _ => 0,
    }
}

/// Shows the status line of version 3, where it can be read.
fn show_status<S: Screen>(screen: &mut S, memory: &Memory) {
    if memory.version() != 3 {
        return;
    }
    match status_line(memory) {
        Ok(_) => show_status_line(memory, screen),
        Err(_) => {}
    }
}

/// The cells of a row, as far as they fit beside its bar.
fn row_within(windows: &Windows, row: u8, width: Option<u8>) -> &[Cell]
    requires { 1 ≤ row }
{
    let cells = if row <= windows.height() {
        windows.row(row)
    } else {
        windows.tallest_row(row)
    };
    match width {
        Some(width) => {
            let most = (width as usize).saturating_sub(2);
            &cells[..cells.len().min(most)]
        }
        None => cells,
    }
}

/// Shows a row on a line, after a bar and a space.
fn show_row<S: Screen>(screen: &mut S, cells: &[Cell]) {
    screen.text('|', Style::roman());
    screen.text(' ', Style::roman());
    for cell in cells {
        screen.text(cell.character, cell.style);
    }
    screen.text('\n', Style::roman());
}

/// How many rows are shown: those of the window, and those that were taken away since the last read, unless that read a
/// character and they are of the window that it was read in, as a menu's are.
fn rows_shown(height: u8, tallest: u8, menu: u8) -> u8
    ensures { result ≡ shown_rows height tallest menu }
{
    if tallest <= menu { height } else { tallest }
}

/// Shows the rows of the upper window, and below them those that were taken away.
fn show_rows<S: Screen>(screen: &mut S, windows: &Windows, look: Look) {
    let rows = rows_shown(windows.height(), windows.tallest(), look.menu);
    for row in 0..rows {
        show_row(screen, row_within(windows, row + 1, look.width));
    }
}

/// The status line and the rows, as they stand above the prompt.
fn text_above(alloc: Global, machine: &Machine, look: Look) -> Result<Vec<u8>, AllocError> {
    let mut text = StyleMarks::new(IoDevice::new(Vec::new(alloc)), look.styles);
    let mut nothing = Nothing;
    let mut screen = BufferedScreen::new(&mut text, &mut nothing);
    show_status(&mut screen, machine.memory());
    show_rows(&mut screen, machine.windows(), look);
    screen.finish();
    if screen.has_failed() {
        return Err(AllocError);
    }
    Ok(text.into_inner().into_inner())
}

/// Ends a machine with a stop.
fn end<A>(machine: &mut Machine, stop: Stop) -> Result<A, Stop>
    ensures { result ≡ Err stop }
{
    machine.close(stop);
    Err(stop)
}

/// Shows the open line with lines above it. Where that fails, the machine is closed.
fn show_rest<S: Target>(
    screen: &mut HeldPrompt<S>,
    machine: &mut Machine,
    above: &[u8],
) -> Result<(), Stop>
    ensures waits { OnOk result (machine.new.waiting ≡ machine.old.waiting) }
    ensures works { OnOk result (S.failed screen.old.screen ≡ false → S.failed screen.new.screen ≡ false) }
    ensures whole { OnOk result (S.whole screen.new.screen) }
{
    match screen.show_with(above) {
        Ok(()) => Ok(()),
        Err(Failed) => end(machine, Stop::Write),
    }
}

/// Shows the prompt of a read, with the status line and the rows above it; what was taken away is then forgotten.
fn show_prompt<S: Target>(
    alloc: Global,
    screen: &mut HeldPrompt<S>,
    machine: &mut Machine,
    look: Look,
) -> Result<(), Stop>
    ensures waits { OnOk result (machine.new.waiting ≡ machine.old.waiting) }
    ensures works { OnOk result (S.failed screen.old.screen ≡ false → S.failed screen.new.screen ≡ false) }
    ensures whole { OnOk result (S.whole screen.new.screen) }
{
    let above = match text_above(alloc, machine, look) {
        Ok(above) => above,
        Err(AllocError) => return end(machine, Stop::Memory),
    };
    machine.forget_grid();
    show_rest(screen, machine, above.as_slice())
}

/// Answers a read by the next line of the input.
fn answer_read<I: Source, S: Target>(
    input: &mut I,
    screen: &mut HeldPrompt<S>,
    lines: &mut Lines,
    machine: &mut Machine,
    event: Event,
) -> Result<(), Stop>
    requires waits { event_waited machine.old.waiting ≡ Some event }
    requires reads { is_read event ≡ true }
    requires whole { S.whole screen.old.screen }
    ensures free { OnOk result (machine.new.waiting ≡ None) }
    ensures works { S.failed screen.new.screen ≡ S.failed screen.old.screen }
{
    match next_line(lines, input, machine) {
        Input::Line(codes) => {
            screen.begin_line();
            answer(machine, event, codes.as_slice());
            Ok(())
        }
        Input::End => end(machine, Stop::EndOfInput),
        Input::Failed => end(machine, Stop::Read),
    }
}

/// Runs a machine up to its next event, shows its text, and answers the event.
fn go_on<I: Source, S: Target, T: Target, K: SaveSlot, P: Places>(
    alloc: Global,
    devices: &mut Devices<I, StyleMarks<HeldPrompt<S>>, T, K>,
    lines: &mut Lines,
    machine: &mut Machine,
    places: &mut P,
    look: &mut Look,
) -> Result<(), Stop>
    requires free { machine.old.waiting ≡ None }
    requires screen_works { S.failed devices.old.screen.inner.screen ≡ false }
    requires script_works { T.failed devices.old.script ≡ false }
    ensures free { OnOk result (machine.new.waiting ≡ None) }
    ensures screen_works { OnOk result (S.failed devices.new.screen.inner.screen ≡ false) }
    ensures script_works { OnOk result (T.failed devices.new.script ≡ false) }
{
    let answer = run_on(&mut devices.screen, &mut devices.script, machine, places);
    let screen = &mut devices.screen.inner;
    match answer {
        Ok(event) if is_read(event) => {
            show_prompt(alloc, screen, machine, *look)?;
            look.menu = menu_of(event, machine.windows().height());
            answer_read(&mut devices.input, screen, lines, machine, event)
        }
        Ok(event) => {
            show_rest(screen, machine, &[])?;
            serve(alloc, &mut devices.slot, machine, event)
        }
        Err(Stop::Write) => Err(Stop::Write),
        Err(stop) => {
            show_rest(screen, machine, &[])?;
            Err(stop)
        }
    }
}

/// Plays a story up to its stop, as `zk_vm`'s `play` does, and shows before each read the status line and the rows of
/// the upper window above the prompt, also those that were taken away since the read before. The machine shows none of
/// them by itself.
pub fn play_with_boxes<I: Source, S: Target, T: Target, K: SaveSlot, P: Places>(
    alloc: Global,
    devices: &mut Devices<I, StyleMarks<HeldPrompt<S>>, T, K>,
    machine: &mut Machine,
    places: &mut P,
    look: Look,
) -> Stop
    requires free { machine.old.waiting ≡ None }
    requires screen_works { S.failed devices.old.screen.inner.screen ≡ false }
    requires script_works { T.failed devices.old.script ≡ false }
{
    let mut lines = Lines::new();
    let mut look = look;
    // a machine's limits end it long before
    for _k in 0..u64::MAX {
        match go_on(alloc, devices, &mut lines, machine, places, &mut look) {
            Ok(()) => {}
            Err(stop) => return stop,
        }
    }
    Stop::EndOfInput
}

/// Plays a story with the status line and the upper window above the prompt, reports how that ends, and answers the
/// program's status. The machine shows neither by itself.
pub fn play_with_boxes_and_report<
    R: Read + Drop,
    I: Source + Drop,
    S: Target + Drop,
    T: Target + Drop,
    K: SaveSlot + Drop,
    P: Places,
    E: Target,
>(
    alloc: Global,
    request: PlayRequest<R>,
    devices: Devices<I, S, T, K>,
    places: &mut P,
    look: Look,
    errors: &mut E,
) -> u8
    requires in_range { AreInRange request.settings.limits }
    requires works { Work I.failed S.failed T.failed devices }
    requires errors_work { E.failed errors.old ≡ false }
    ensures { IsReported (λ _. Unit {0}) (device E.taken E.failed errors.old)
        (device E.taken E.failed errors.new) result }
{
    let Devices {
        input,
        screen,
        script,
        slot,
    } = devices;
    let mut devices = Devices {
        input,
        screen: StyleMarks::new(HeldPrompt::new(alloc, screen), look.styles),
        script,
        slot,
    };
    let PlayRequest {
        story,
        about,
        settings: Settings { limits, seed, .. },
    } = request;
    let settings = Settings {
        limits,
        seed,
        view: View::Plain,
    };
    let request = PlayRequest {
        story,
        about,
        settings,
    };
    let mut machine = match start(alloc, request) {
        Ok(machine) => machine,
        Err(exit) => return report(alloc, &exit, &limits, about, errors),
    };
    // a write of no bytes makes the script's file before the run
    let stop = match devices.script.write(&[]) {
        Err(Failed) => Stop::Write,
        Ok(_) => play_with_boxes(alloc, &mut devices, &mut machine, places, look),
    };
    note_stop(alloc, about, &machine, &stop);
    report(alloc, &Exit::Stopped(stop), &limits, about, errors)
}
