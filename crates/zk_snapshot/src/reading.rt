// The parts of a machine, read from bytes. What is made of them counts only where it has these bytes as its
// snapshot, so what is read here is looked at once, when all is there.

ghost use Rattle.std.specs.Prelude.{◌≡◌, ◌<◌, ◌≤◌, true, length};
ghost use Rattle.zk_save.specs.States.{AreOf};
ghost use Rattle.zk_state.specs.Frames.{bounds_of};
ghost use Rattle.zk_snapshot.specs.Opening.{NothingGone};
ghost use Rattle.zk_step.specs.Laws.{fixed_parts};
ghost use Rattle.zk_term.specs.Windows.{first_windows};
ghost use Rattle.zk_vm.specs.Step.{is_read};

use crate::writing::style_byte;
use arrayvec::ArrayVec;
use std::alloc::AllocError;
use zk_mem::memory::{Memory, ScreenSetup};
use zk_save::packing::turn;
use zk_save::undo::Undo;
use zk_state::frames::Frames;
use zk_step::output::streams::{OpenTable, Streams};
use zk_step::state::ending::Event;
use zk_step::state::game_state::View;
use zk_step::state::random::Generators;
use zk_term::windows::{Window, Windows};
use zk_vm::limits::Limits;
use zk_vm::machine::parts::Place;

/// Bytes that are still to be read. Zeros come after the last one, and a number that is out of its range comes out as
/// another: a machine that is made of either has other bytes as its snapshot.
#[derive(Drop)]
pub(crate) struct Reader<'a> {
    rest: &'a [u8],
}

impl<'a> Reader<'a> {
    /// A reader at the first of some bytes.
    pub(crate) fn new(bytes: &'a [u8]) -> Reader<'a> {
        Reader { rest: bytes }
    }

    /// Another reader at the same place.
    pub(crate) fn again(&self) -> Reader<'a> {
        Reader { rest: self.rest }
    }

    /// The next bytes, so many of them, or as many as are left.
    pub(crate) fn take(&mut self, count: usize) -> &'a [u8]
        ensures { length result.now ≤ count }
    {
        let (taken, rest) = self.rest.split_at(count.min(self.rest.len()));
        self.rest = rest;
        taken
    }

    /// The next byte.
    pub(crate) fn byte(&mut self) -> u8 {
        self.take(1).first().copied().unwrap_or(0)
    }

    /// The next number of two bytes.
    pub(crate) fn word(&mut self) -> u16 {
        let high = self.byte();
        high as u16 * 256 + self.byte() as u16
    }

    /// The next number of four bytes.
    pub(crate) fn number(&mut self) -> u32 {
        let high = self.word();
        high as u32 * 65536 + self.word() as u32
    }

    /// The next number of eight bytes.
    fn long(&mut self) -> u64 {
        let high = self.number();
        high as u64 * 4_294_967_296 + self.number() as u64
    }

    /// The next byte as a truth.
    fn truth(&mut self) -> bool {
        self.byte() == 1
    }
}

/// What a snapshot says before the game state.
#[derive(Clone, Copy, Drop)]
pub(crate) struct Front {
    pub place: Place,
    pub event: Event,
}

/// What a snapshot says of the game state before the upper window.
#[derive(Drop)]
pub(crate) struct GameFront {
    pub view: View,
    pub at_line_start: bool,
    pub streams: Streams,
    pub generators: Generators,
}

/// Limits, which a snapshot has in 11 bytes after its first 23.
pub(crate) fn limits_in(reader: &mut Reader<'_>) -> Limits {
    Limits {
        frames: reader.word(),
        words: reader.word(),
        undo: reader.byte(),
        steps: reader.number(),
        screen: ScreenSetup {
            columns: reader.byte(),
            styles: reader.truth(),
        },
    }
}

/// Where a run stands.
fn place_in(reader: &mut Reader<'_>) -> Place {
    Place {
        pc: reader.number(),
        steps: reader.number(),
        reads: reader.number(),
    }
}

/// The line or the character that is waited for.
fn event_in(reader: &mut Reader<'_>) -> Event
    ensures { is_read result ≡ true }
{
    let kind = reader.byte();
    let text = reader.word();
    let parse = reader.word();
    if kind == 1 {
        return Event::Line(text, parse);
    }
    Event::Char
}

/// The variable that takes a result.
fn store_in(reader: &mut Reader<'_>) -> Option<u8> {
    let taken = reader.truth();
    let variable = reader.byte();
    if taken { Some(variable) } else { None }
}

/// The random numbers.
fn generators_in(reader: &mut Reader<'_>) -> Generators {
    let free = reader.long();
    let open = reader.truth();
    let state = reader.long();
    Generators {
        free,
        predictable: if open { Some(state) } else { None },
    }
}

/// An open table of stream 3.
fn table_in(reader: &mut Reader<'_>) -> OpenTable {
    OpenTable {
        address: reader.word(),
        count: reader.word(),
    }
}

/// The output streams.
fn streams_in(reader: &mut Reader<'_>) -> Streams {
    let screen = reader.truth();
    let count = reader.byte();
    let mut tables: ArrayVec<OpenTable, 16> = ArrayVec::new();
    for _i in 0..count {
        let _ = tables.try_push(table_in(reader));
    }
    Streams::with_tables(screen, tables.as_slice())
}

/// What comes before the game state, after the limits.
pub(crate) fn front_in(reader: &mut Reader<'_>) -> Front
    ensures { is_read result.event ≡ true }
{
    let place = place_in(reader);
    let event = event_in(reader);
    // the instruction that waits is the one at its address
    reader.number();
    store_in(reader);
    Front { place, event }
}

/// What comes before the upper window.
pub(crate) fn game_front_in(reader: &mut Reader<'_>) -> GameFront {
    let upper = reader.truth();
    GameFront {
        view: if upper { View::Upper } else { View::Plain },
        at_line_start: reader.truth(),
        streams: streams_in(reader),
        generators: generators_in(reader),
    }
}

/// Sets a text style by its number, in place of the one that is set.
fn set_style(windows: &mut Windows, number: u8)
    ensures { NothingGone windows.old → NothingGone windows.new }
{
    windows.set_style(0);
    windows.set_style(number as u16);
}

/// Puts a cell into the upper window, at the cursor.
#[tactic(auto, using(crate::proofs::Gone::put_gone))]
fn put_cell(reader: &mut Reader<'_>, windows: &mut Windows)
    ensures { NothingGone windows.old → NothingGone windows.new }
{
    set_style(windows, reader.byte());
    let high = reader.byte() as u32;
    let character = high * 65536 + reader.word() as u32;
    windows.put(char::from_u32(character).unwrap_or(' '));
}

/// Puts a row's cells into the upper window.
#[tactic(auto, using(crate::proofs::Gone::set_gone))]
fn fill_row(reader: &mut Reader<'_>, windows: &mut Windows, row: u16)
    ensures { NothingGone windows.old → NothingGone windows.new }
{
    let count = reader.byte();
    windows.set_cursor(row, 1);
    for _i in 0..count {
        put_cell(reader, windows);
    }
}

/// Puts the cursor where it stood, which may be past the last row or column.
#[tactic(auto, using(crate::proofs::Gone::set_gone, crate::proofs::Gone::put_gone, crate::proofs::Gone::row_gone))]
fn put_cursor(windows: &mut Windows, row: u16, column: u16)
    ensures { NothingGone windows.old → NothingGone windows.new }
{
    let width = windows.width();
    if row == 1 && column > width as u16 {
        put_last_again(windows, width);
    } else if row >= 2 && column >= 1 && column <= 256 {
        windows.set_cursor(row - 1, 1);
        windows.start_row(column);
    } else {
        windows.set_cursor(row, column);
    }
}

/// Puts the character of the first row's last cell there again, so that the cursor stands past it.
#[tactic(auto, using(crate::proofs::Gone::set_gone, crate::proofs::Gone::put_gone))]
fn put_last_again(windows: &mut Windows, width: u8)
    ensures { NothingGone windows.old → NothingGone windows.new }
{
    let last = width as usize;
    let cell = windows.row_cells(1).get(last.saturating_sub(1)).copied();
    windows.set_cursor(1, width as u16);
    match cell {
        Some(cell) => {
            set_style(windows, style_byte(cell.style));
            windows.put(cell.character);
        }
        None => {
            set_style(windows, 0);
            windows.put(' ');
        }
    }
}

/// Fills windows that are new, and have so many columns.
#[tactic(auto, using(crate::proofs::Gone::of_fill_windows))]
pub(crate) fn fill_windows(reader: &mut Reader<'_>, windows: &mut Windows, width: u8)
    requires { windows.old ≡ first_windows width }
    ensures { NothingGone windows.new }
{
    let height = reader.byte();
    // the width is that of the limits
    reader.byte();
    let row = reader.word();
    let column = reader.word();
    let upper = reader.truth();
    let style = reader.byte();
    let fixed = reader.truth();
    windows.split(4, height as u16);
    windows.set_font(fixed);
    if upper {
        windows.select(Window::Upper);
    }
    for number in 0..255u16 {
        fill_row(reader, windows, number + 1);
    }
    put_cursor(windows, row, column);
    set_style(windows, style);
}

/// Gives dynamic memory its bytes.
#[tactic(auto, using(crate::proofs::Filled::byte_fixed))]
pub(crate) fn put_bytes(memory: &mut Memory, bytes: &[u8])
    requires { length bytes.now < 65536 }
    ensures { fixed_parts memory.new ≡ fixed_parts memory.old }
{
    for k in 0..bytes.len() {
        let _ = memory.set_byte(k as u32, bytes[k]);
    }
}

/// Reads the words of the current frame: its local variables, and its evaluation stack.
#[tactic(auto, using(zk_state::proofs::BoundsKept::local_bounds, zk_state::proofs::BoundsKept::pushed_bounds))]
fn fill_frame(reader: &mut Reader<'_>, frames: &mut Frames, locals: u8, words: u16)
    ensures { bounds_of frames.new ≡ bounds_of frames.old }
{
    for k in 0..locals {
        let _ = frames.set_local_at(k, reader.word());
    }
    for _i in 0..words {
        let _ = frames.push(reader.word());
    }
}

/// Reads a frame; the first one is there before.
#[tactic(auto, using(zk_state::proofs::BoundsKept::called_bounds))]
fn next_frame(reader: &mut Reader<'_>, frames: &mut Frames, is_first: bool)
    ensures { bounds_of frames.new ≡ bounds_of frames.old }
{
    let pc = reader.number() % 16_777_216;
    let result = store_in(reader);
    let supplied = reader.byte() % 8;
    let locals = reader.byte() % 16;
    let words = reader.word();
    if !is_first {
        let _ = frames.call_with(locals, &[], pc, 0, result, supplied);
    }
    fill_frame(reader, frames, locals, words);
}

/// Reads all frames, in place of those that there are.
#[tactic(auto, using(crate::proofs::Filled::first_bounds))]
pub(crate) fn fill_frames(reader: &mut Reader<'_>, frames: &mut Frames)
    ensures { bounds_of frames.new ≡ bounds_of frames.old }
{
    frames.restart();
    let count = reader.word();
    for number in 0..count {
        next_frame(reader, frames, number == 0);
    }
}

/// Reads a state to go back to. `memory` and `frames` are room for it.
#[tactic(auto, using(zk_save::proofs::Wholes::same_of))]
fn next_state(
    reader: &mut Reader<'_>,
    memory: &mut Memory,
    frames: &mut Frames,
    undo: &mut Undo,
) -> Result<(), AllocError>
    requires { AreOf memory.old frames.old undo.old }
    ensures story { (memory.new.file ≡ memory.old.file)
        × (memory.new.setup ≡ memory.old.setup) }
    ensures bounds { bounds_of frames.new ≡ bounds_of frames.old }
    ensures most { undo.new.most ≡ undo.old.most }
    ensures are_of { AreOf memory.new frames.new undo.new }
{
    let size = reader.number() as usize;
    memory.reset();
    turn(reader.take(size), memory);
    fill_frames(reader, frames);
    let pc = reader.number();
    undo.put(memory, frames, pc)
}

/// Reads the states to go back to, the oldest of them first. `memory` and `frames` are room for each.
pub(crate) fn fill_states(
    reader: &mut Reader<'_>,
    memory: &mut Memory,
    frames: &mut Frames,
    undo: &mut Undo,
) -> Result<(), AllocError>
    requires { AreOf memory.old frames.old undo.old }
    ensures story { (memory.new.file ≡ memory.old.file)
        × (memory.new.setup ≡ memory.old.setup) }
    ensures bounds { bounds_of frames.new ≡ bounds_of frames.old }
    ensures most { undo.new.most ≡ undo.old.most }
    ensures are_of { AreOf memory.new frames.new undo.new }
{
    let count = reader.byte();
    for _i in 0..count {
        next_state(reader, memory, frames, undo)?;
    }
    Ok(())
}
