// What a host draws beside the text: the upper window, and the status line of version 3.

ghost use Rattle.std.specs.Prelude.{◌≡◌, ◌≤◌, encode_utf8_all, length, map};
ghost use Rattle.zk_term.specs.Windows.{character_of};
ghost use Rattle.zk_host.specs.Drawing.{HasStatus, figures_of, figures_or_none, line_room, line_room_early};
ghost use Rattle.zk_host.specs.Drawing.{cell_mark, line_room_later, room_or_none, row_number, window_of};

use crate::marks::style_mark;
use arrayvec::ArrayVec;
use zk_mem::fault::Fault;
use zk_mem::memory::Memory;
use zk_step::output::status::{StatusLine, status_line};
use zk_term::windows::{Cell, Window, Windows};

/// How the upper window stands.
#[repr(C)]
#[derive(Drop)]
pub struct WindowFigures {
    pub height: u32,
    pub tallest: u32,
    pub row: u32,
    pub column: u32,
    pub selected: u32,
    pub width: u32,
}

/// The figures of a status line: none (0), a score and turns (1), or hours and minutes (2).
#[repr(C)]
#[derive(Drop)]
pub struct StatusFigures {
    pub kind: u32,
    pub first: i32,
    pub second: i32,
}

/// How the upper window stands.
pub(crate) fn window_of(windows: &Windows) -> WindowFigures
    ensures { result ≡ window_of windows.now }
{
    let (row, column) = windows.cursor();
    let selected = match windows.selected() {
        Window::Upper => 1,
        Window::Lower => 0,
    };
    WindowFigures {
        height: windows.height() as u32,
        tallest: windows.tallest() as u32,
        row: row as u32,
        column: column as u32,
        selected,
        width: windows.width() as u32,
    }
}

/// The row that a number says, from 1 on.
pub(crate) fn row_of(row: u32) -> Option<u8>
    ensures { result ≡ row_number row }
{
    if row >= 1 && row <= 255 {
        Some(row as u8)
    } else {
        None
    }
}

/// The UTF-8 of the characters of a row.
pub(crate) fn utf8_of(cells: &[Cell]) -> ArrayVec<u8, 1020>
    requires { length cells.now ≤ 255 }
    ensures { result.items ≡ encode_utf8_all (map character_of cells.now) }
{
    let mut bytes = ArrayVec::new();
    for cell in cells {
        let mut buffer = [0u8; 4];
        match bytes.try_extend_from_slice(cell.character.encode_utf8(&mut buffer).as_bytes()) {
            Ok(()) => {}
            Err(_) => unreachable!(),
        }
    }
    bytes
}

/// The text styles of the cells of a row, each as the sum of the numbers that set it.
pub(crate) fn styles_of(cells: &[Cell]) -> ArrayVec<u8, 255>
    requires { length cells.now ≤ 255 }
    ensures { result.items ≡ map cell_mark cells.now }
{
    let mut styles = ArrayVec::new();
    for cell in cells {
        match styles.try_push(style_mark(cell.style)) {
            Ok(()) => {}
            Err(_) => unreachable!(),
        }
    }
    styles
}

/// The figures of a status line.
fn figures_of(line: StatusLine) -> StatusFigures
    ensures { result ≡ figures_of line }
{
    if line.is_time {
        return StatusFigures {
            kind: 2,
            first: line.first as i32,
            second: line.second as i32,
        };
    }
    StatusFigures {
        kind: 1,
        first: line.first.cast_signed() as i32,
        second: line.second.cast_signed() as i32,
    }
}

/// The status line of a story of version 3, where it can be read.
pub(crate) fn status_of(memory: &Memory) -> Option<StatusLine>
    ensures { HasStatus memory.now result }
{
    if memory.version() != 3 {
        return None;
    }
    match status_line(memory) {
        Ok(line) => Some(line),
        Err(_) => None,
    }
}

/// The figures of the status line of a story of version 3.
pub(crate) fn figures(status: Option<StatusLine>) -> StatusFigures
    ensures { result ≡ figures_or_none status }
{
    match status {
        Some(line) => figures_of(line),
        None => StatusFigures {
            kind: 0,
            first: 0,
            second: 0,
        },
    }
}

/// So many letters there is room for in a text buffer up to version 4.
fn room_early(memory: &Memory, text: u16) -> Result<u8, Fault>
    ensures { result ≡ line_room_early memory.now text }
{
    let size = memory.byte(text as u32)?;
    Ok(size.saturating_sub(1))
}

/// And from version 5 on.
fn room_later(memory: &Memory, text: u16) -> Result<u8, Fault>
    ensures { result ≡ line_room_later memory.now text }
{
    let size = memory.byte(text as u32)?;
    let count = memory.byte(text as u32 + 1)?;
    if count > 0 && size <= count {
        return Ok(0);
    }
    Ok(size.saturating_sub(count))
}

/// The most letters of a line that goes to the text buffer at a byte address: none where that can't be read.
pub(crate) fn line_room(memory: &Memory, text: u16) -> u8
    ensures { result ≡ room_or_none (line_room memory.now text) }
{
    let room = if memory.version() < 5 {
        room_early(memory, text)
    } else {
        room_later(memory, text)
    };
    room.unwrap_or(0)
}
