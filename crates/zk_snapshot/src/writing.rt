// The bytes of numbers, and of the parts of a machine.

ghost use Rattle.std.specs.Prelude.{◌≡◌, ◌++◌, ◌∷◌, [], ◌≤◌, length, reverse, OnOk};
ghost use Rattle.zk_mem.specs.Header.{header_of};
ghost use Rattle.zk_save.specs.Quetzal.{bytes_2, bytes_4, words_bytes};
ghost use Rattle.zk_state.specs.Frames.{frames_of};
ghost use Rattle.std.specs.List.{flat_map};
ghost use Rattle.zk_snapshot.specs.Snapshots.{bytes_8, truth_byte, store_bytes, state_bytes, story_bytes, limits_bytes};
ghost use Rattle.zk_snapshot.specs.Snapshots.{place_bytes, event_bytes, view_byte, window_byte, style_byte};
ghost use Rattle.zk_snapshot.specs.Snapshots.{cell_bytes, generators_bytes, screen_bytes};
ghost use Rattle.zk_snapshot.specs.Snapshots.{row_bytes, rows_bytes, windows_bytes, frame_bytes, frames_bytes};
ghost use Rattle.zk_snapshot.specs.Snapshots.{table_bytes, streams_bytes, game_bytes, head_bytes};

use crate::sums::sum_of;
use std::alloc::AllocError;
use zk_mem::memory::{Memory, ScreenSetup};
use zk_state::frames::{FrameView, Frames};
use zk_step::output::streams::{OpenTable, Streams};
use zk_step::state::ending::Event;
use zk_step::state::game_state::{GameState, View};
use zk_step::state::random::Generators;
use zk_term::style::Style;
use zk_term::windows::{Cell, Window, Windows};
use zk_vm::limits::Limits;
use zk_vm::machine::parts::Place;

/// Writes a number of two bytes, high byte first.
fn put_2(out: &mut Vec<u8>, number: u16) -> Result<(), AllocError>
    ensures { OnOk result (out.new.items ≡ out.old.items ++ bytes_2 number) }
{
    out.extend_from_slice(&[(number >> 8) as u8, (number & 0xff) as u8])?;
    Ok(())
}

/// Writes a number of four bytes, high byte first.
pub(crate) fn put_4(out: &mut Vec<u8>, number: u32) -> Result<(), AllocError>
    ensures { OnOk result (out.new.items ≡ out.old.items ++ bytes_4 number) }
{
    out.extend_from_slice(&[
        (number / 16_777_216) as u8,
        (number / 65536 % 256) as u8,
        (number / 256 % 256) as u8,
        (number % 256) as u8,
    ])?;
    Ok(())
}

/// Writes a number of eight bytes, high byte first.
fn put_8(out: &mut Vec<u8>, number: u64) -> Result<(), AllocError>
    ensures { OnOk result (out.new.items ≡ out.old.items ++ bytes_8 number) }
{
    put_4(out, (number / 4_294_967_296) as u32)?;
    put_4(out, (number % 4_294_967_296) as u32)?;
    Ok(())
}

/// Writes words, high byte first.
fn put_words(out: &mut Vec<u8>, words: &[u16]) -> Result<(), AllocError>
    ensures { OnOk result (out.new.items ≡ out.old.items ++ words_bytes words.now) }
{
    for word in words {
        put_2(out, *word)?;
    }
    Ok(())
}

/// 1 for a truth, 0 for a falsehood.
fn truth_byte(truth: bool) -> u8
    ensures value { result ≡ truth_byte truth }
    ensures small { result ≤ 1 }
{
    if truth { 1 } else { 0 }
}

/// The number of a view.
fn view_byte(view: View) -> u8
    ensures { result ≡ view_byte view }
{
    match view {
        View::Plain => 0,
        View::Upper => 1,
    }
}

/// The number of a window.
fn window_byte(window: Window) -> u8
    ensures { result ≡ window_byte window }
{
    match window {
        Window::Lower => 0,
        Window::Upper => 1,
    }
}

/// The number that sets a text style.
#[tactic(auto, unfolding(crate::specs::Snapshots::style_byte))]
pub(crate) fn style_byte(style: Style) -> u8
    ensures { result ≡ style_byte style }
{
    truth_byte(style.reverse)
        + 2 * truth_byte(style.bold)
        + 4 * truth_byte(style.italic)
        + 8 * truth_byte(style.fixed)
}

/// Writes the variable that takes a result.
#[tactic(auto, unfolding(crate::specs::Snapshots::store_bytes))]
pub(crate) fn put_store(out: &mut Vec<u8>, store: Option<u8>) -> Result<(), AllocError>
    ensures { OnOk result (out.new.items ≡ out.old.items ++ store_bytes store) }
{
    match store {
        None => out.extend_from_slice(&[0, 0])?,
        Some(variable) => out.extend_from_slice(&[1, variable])?,
    }
    Ok(())
}

/// Writes the state of a generator that may be closed.
#[tactic(auto, unfolding(crate::specs::Snapshots::state_bytes))]
fn put_state(out: &mut Vec<u8>, state: Option<u64>) -> Result<(), AllocError>
    ensures { OnOk result (out.new.items ≡ out.old.items ++ state_bytes state) }
{
    match state {
        None => {
            out.push(0)?;
            put_8(out, 0)?;
        }
        Some(state) => {
            out.push(1)?;
            put_8(out, state)?;
        }
    }
    Ok(())
}

/// Writes the states of the random numbers.
#[tactic(auto, unfolding(crate::specs::Snapshots::generators_bytes))]
fn put_generators(out: &mut Vec<u8>, generators: Generators) -> Result<(), AllocError>
    ensures { OnOk result (out.new.items ≡ out.old.items ++ generators_bytes generators) }
{
    put_8(out, generators.free)?;
    put_state(out, generators.predictable)?;
    Ok(())
}

/// Writes what a story's file is known by.
#[tactic(auto, unfolding(crate::specs::Snapshots::story_bytes))]
pub(crate) fn put_story(out: &mut Vec<u8>, memory: &Memory) -> Result<(), AllocError>
    ensures { OnOk result (out.new.items ≡ out.old.items ++ story_bytes memory.now.file) }
{
    let header = memory.header();
    let file = memory.original();
    put_4(out, memory.len())?;
    put_2(out, header.release)?;
    out.extend_from_slice(&header.serial)?;
    put_2(out, header.checksum)?;
    put_4(out, sum_of(file))?;
    Ok(())
}

/// Writes the name, the version of the format, and the story.
#[tactic(auto, unfolding(crate::specs::Snapshots::head_bytes))]
pub(crate) fn put_head(out: &mut Vec<u8>, memory: &Memory) -> Result<(), AllocError>
    ensures { OnOk result (out.new.items ≡ out.old.items ++ head_bytes memory.now.file) }
{
    out.extend_from_slice(&[90, 75, 83, 78])?;
    out.push(4)?;
    put_story(out, memory)?;
    Ok(())
}

/// Writes what a story is told of its screen.
fn put_screen(out: &mut Vec<u8>, screen: ScreenSetup) -> Result<(), AllocError>
    ensures { OnOk result (out.new.items ≡ out.old.items ++ screen_bytes screen) }
{
    out.push(screen.columns)?;
    out.push(truth_byte(screen.styles))?;
    Ok(())
}

/// Writes limits.
#[tactic(auto, unfolding(crate::specs::Snapshots::limits_bytes))]
pub(crate) fn put_limits(out: &mut Vec<u8>, limits: Limits) -> Result<(), AllocError>
    ensures { OnOk result (out.new.items ≡ out.old.items ++ limits_bytes limits) }
{
    put_2(out, limits.frames)?;
    put_2(out, limits.words)?;
    out.push(limits.undo)?;
    put_4(out, limits.steps)?;
    put_screen(out, limits.screen)
}

/// Writes where a run stands.
#[tactic(auto, unfolding(crate::specs::Snapshots::place_bytes))]
pub(crate) fn put_place(out: &mut Vec<u8>, place: Place) -> Result<(), AllocError>
    ensures { OnOk result (out.new.items ≡ out.old.items ++ place_bytes place) }
{
    put_4(out, place.pc)?;
    put_4(out, place.steps)?;
    put_4(out, place.reads)?;
    Ok(())
}

/// Writes the number of an event and two addresses.
fn put_numbered(out: &mut Vec<u8>, number: u8, text: u16, parse: u16) -> Result<(), AllocError>
    ensures { OnOk result
        (out.new.items ≡ out.old.items ++ (number ∷ [] ++ bytes_2 text ++ bytes_2 parse)) }
{
    out.push(number)?;
    put_2(out, text)?;
    put_2(out, parse)?;
    Ok(())
}

/// Writes what is waited for.
#[tactic(auto, unfolding(crate::specs::Snapshots::event_bytes))]
pub(crate) fn put_event(out: &mut Vec<u8>, event: Event) -> Result<(), AllocError>
    ensures { OnOk result (out.new.items ≡ out.old.items ++ event_bytes event) }
{
    match event {
        Event::Line(text, parse) => put_numbered(out, 1, text, parse),
        Event::Char => put_numbered(out, 2, 0, 0),
        Event::Save => put_numbered(out, 3, 0, 0),
        Event::Restore => put_numbered(out, 4, 0, 0),
    }
}

/// Writes a cell.
fn put_cell(out: &mut Vec<u8>, cell: Cell) -> Result<(), AllocError>
    ensures { OnOk result (out.new.items ≡ out.old.items ++ cell_bytes cell) }
{
    let character = cell.character as u32;
    out.push(style_byte(cell.style))?;
    out.push((character / 65536) as u8)?;
    put_2(out, (character % 65536) as u16)
}

/// Writes the cells of a row, after their number.
#[tactic(auto, unfolding(crate::specs::Snapshots::row_bytes))]
fn put_row(out: &mut Vec<u8>, cells: &[Cell]) -> Result<(), AllocError>
    requires { length cells.now ≤ 255 }
    ensures { OnOk result (out.new.items ≡ out.old.items ++ row_bytes cells.now) }
{
    out.push(cells.len() as u8)?;
    for cell in cells {
        put_cell(out, *cell)?;
    }
    Ok(())
}

/// Writes all rows of the upper window.
#[tactic(auto, using(crate::proofs::Written::rows_start, crate::proofs::Written::rows_more))]
fn put_rows(out: &mut Vec<u8>, windows: &Windows) -> Result<(), AllocError>
    ensures { OnOk result (out.new.items ≡ out.old.items ++ rows_bytes 255 windows.now) }
{
    for number in 0..255u8 {
        put_row(out, windows.row_cells(number + 1))?;
    }
    Ok(())
}

/// Writes the windows.
#[tactic(auto, unfolding(crate::specs::Snapshots::windows_bytes))]
fn put_windows(out: &mut Vec<u8>, windows: &Windows) -> Result<(), AllocError>
    ensures { OnOk result (out.new.items ≡ out.old.items ++ windows_bytes windows.now) }
{
    let (row, column) = windows.cursor();
    out.push(windows.height())?;
    out.push(windows.width())?;
    put_2(out, row)?;
    put_2(out, column)?;
    out.push(window_byte(windows.selected()))?;
    out.push(style_byte(windows.style()))?;
    out.push(truth_byte(windows.is_font_fixed()))?;
    put_rows(out, windows)?;
    Ok(())
}

/// Writes a frame.
#[tactic(auto, unfolding(crate::specs::Snapshots::frame_bytes))]
fn put_frame(out: &mut Vec<u8>, frame: &FrameView) -> Result<(), AllocError>
    requires locals { length frame.now.locals.now ≤ 15 }
    requires words { length frame.now.words.now ≤ 65535 }
    ensures { OnOk result (out.new.items ≡ out.old.items ++ frame_bytes
        (record {
          locals = frame.now.locals.now;
          words = frame.now.words.now;
          pc = frame.now.pc;
          result = frame.now.result;
          supplied = frame.now.supplied;
        })) }
{
    put_4(out, frame.pc)?;
    put_store(out, frame.result)?;
    out.push(frame.supplied)?;
    out.push(frame.locals.len() as u8)?;
    put_2(out, frame.words.len() as u16)?;
    put_words(out, frame.locals)?;
    put_words(out, frame.words)?;
    Ok(())
}

/// Writes all frames, the first before the others.
#[tactic(auto, using(crate::proofs::Written::of_put_all_frames))]
fn put_all_frames(out: &mut Vec<u8>, frames: &Frames) -> Result<(), AllocError>
    ensures { OnOk result
        (out.new.items ≡ out.old.items ++ flat_map frame_bytes (reverse (frames_of frames.now))) }
{
    let count = frames.depth() + 1;
    for number in 0..count {
        put_frame(out, &frames.frame(number))?;
    }
    Ok(())
}

/// Writes the frames, after how many they are.
#[tactic(auto, unfolding(crate::specs::Snapshots::frames_bytes))]
pub(crate) fn put_frames(out: &mut Vec<u8>, frames: &Frames) -> Result<(), AllocError>
    ensures { OnOk result
        (out.new.items ≡ out.old.items ++ frames_bytes (frames_of frames.now)) }
{
    put_2(out, frames.depth() + 1)?;
    put_all_frames(out, frames)?;
    Ok(())
}

/// Writes open tables of stream 3.
fn put_tables(out: &mut Vec<u8>, tables: &[OpenTable]) -> Result<(), AllocError>
    ensures { OnOk result (out.new.items ≡ out.old.items ++ flat_map table_bytes tables.now) }
{
    for table in tables {
        put_2(out, table.address)?;
        put_2(out, table.count)?;
    }
    Ok(())
}

/// Writes the output streams.
#[tactic(auto, unfolding(crate::specs::Snapshots::streams_bytes))]
fn put_streams(out: &mut Vec<u8>, streams: &Streams) -> Result<(), AllocError>
    ensures { OnOk result (out.new.items ≡ out.old.items ++ streams_bytes streams.now) }
{
    let tables = streams.tables();
    out.push(truth_byte(streams.screen()))?;
    out.push(tables.len() as u8)?;
    put_tables(out, tables.as_slice())?;
    Ok(())
}

/// Writes a game state.
#[tactic(auto, unfolding(crate::specs::Snapshots::game_bytes))]
pub(crate) fn put_game(out: &mut Vec<u8>, game: &GameState) -> Result<(), AllocError>
    ensures { OnOk result (out.new.items ≡ out.old.items ++ game_bytes game.now) }
{
    out.push(view_byte(game.view))?;
    out.push(truth_byte(game.at_line_start))?;
    put_streams(out, &game.streams)?;
    put_generators(out, game.generators)?;
    put_windows(out, &game.windows)?;
    out.extend_from_slice(game.memory.dynamic())?;
    put_frames(out, &game.frames)?;
    Ok(())
}
