// Rectangles of ZSCII codes in memory.

ghost use Rattle.std.specs.Prelude.{◌≡◌, ◌+◌, ◌*◌, ◌%◌, ◌<◌, ◌++◌, ◌∷◌, ℕ, List, Ok, Err, IsOk, OnOk, OnErr};
ghost use Rattle.std.specs.Prelude.{MatchResult};
ghost use Rattle.zk_text.specs.declared.unit.Unit.{Unit};
ghost use Rattle.zk_tables.specs.Runs.{places, bytes_read};
ghost use Rattle.zk_tables.specs.Rectangles.{row_at, rows_of, row_units, joined_rows};

use crate::arrays::runs::{check_bytes, place};
use zk_mem::fault::Fault;
use zk_mem::memory::Memory;
use zk_text::sink::{Sink, SinkFault};
use zk_text::unit::Unit;

/// Rows of bytes in memory: the first begins at a byte address, each has so many bytes, and so many are skipped between
/// two of them (Z-Machine Standards Document 1.1, section 15, `print_table`). Addresses are sums of 16 bits.
#[derive(Clone, Copy, PartialEq, Eq, Drop)]
pub struct Rectangle {
    /// The byte address of the first row.
    pub text: u16,
    /// How many bytes a row has.
    pub width: u16,
    /// How many rows there are.
    pub height: u16,
    /// How many bytes stand between two rows.
    pub skip: u16,
}

/// The byte address of a row: a sum of 16 bits.
#[tactic(auto, using(crate::proofs::Rows::row_place))]
fn row_address(rectangle: Rectangle, row: u16) -> u16
    ensures { result ≡ (rectangle.text + row * (rectangle.width + rectangle.skip)) % 65536 }
{
    let step = rectangle.width.wrapping_add(rectangle.skip);
    rectangle.text.wrapping_add(row.wrapping_mul(step))
}

/// Whether a row can be read.
#[tactic(auto, unfolding(crate::specs::Rectangles::row_at), using(crate::proofs::Rows::row_places))]
fn check_row(memory: &Memory, rectangle: Rectangle, row: u16) -> Result<(), Fault>
    ensures { MatchResult result (λ _. IsOk (row_at memory.now rectangle row))
        (λ e. row_at memory.now rectangle row ≡ Err e) }
{
    check_bytes(memory, row_address(rectangle, row), rectangle.width)
}

/// Whether all bytes of a rectangle can be read; else it is `BadAddress`. Skipped bytes do not count, and where there
/// is no row, or rows have no byte, nothing is read. It takes one test for each row.
#[tactic(auto, unfolding(crate::specs::Rectangles::rows_of), using(crate::proofs::Rows::rows_end))]
pub fn check_rectangle(memory: &Memory, rectangle: Rectangle) -> Result<(), Fault>
    ensures { MatchResult result (λ _. IsOk (rows_of memory.now rectangle))
        (λ e. rows_of memory.now rectangle ≡ Err e) }
{
    for row in 0..rectangle.height {
        check_row(memory, rectangle, row)?;
    }
    Ok(())
}

/// Gives a sink bytes of a table, which can be read.
#[tactic(auto, using(crate::proofs::Units::byte_readable))]
fn give_bytes<S: Sink>(
    memory: &Memory,
    table: u16,
    length: u16,
    sink: &mut S,
) -> Result<(), SinkFault>
    requires { IsOk (bytes_read memory.now (places table length)) }
    ensures ok { OnOk result ((codes : List ℕ)
        → bytes_read memory.now (places table length) ≡ Ok codes
        → S.gave sink.old sink.new (row_units codes)) }
    ensures err { OnErr result ((codes : List ℕ) (more : List Unit)
        → bytes_read memory.now (places table length) ≡ Ok codes
        → S.refused sink.old sink.new (row_units codes ++ more)) }
{
    for column in 0..length {
        let code = memory.byte(place(table, column)).unwrap();
        sink.put(Unit::Code(code as u16))?;
    }
    Ok(())
}

/// Gives a sink the codes of a row of a rectangle that can be read (see `check_rectangle`). Where the sink refuses, it
/// was given a first part of them, and takes no more of what begins with the row.
#[tactic(auto, unfolding(crate::specs::Rectangles::row_at), using(crate::proofs::Rows::of_give_row))]
pub fn give_row<S: Sink>(
    memory: &Memory,
    rectangle: Rectangle,
    row: u16,
    sink: &mut S,
) -> Result<(), SinkFault>
    requires stands { IsOk (rows_of memory.now rectangle) }
    requires within { row < rectangle.height }
    ensures ok { OnOk result ((codes : List ℕ) → row_at memory.now rectangle row ≡ Ok codes →
        S.gave sink.old sink.new (row_units codes)) }
    ensures err { OnErr result ((codes : List ℕ) → row_at memory.now rectangle row ≡ Ok codes →
        S.refused sink.old sink.new (row_units codes)) }
    ensures ends { OnErr result ((codes : List ℕ) (more : List Unit)
        → row_at memory.now rectangle row ≡ Ok codes
        → S.refused sink.old sink.new (row_units codes ++ more)) }
{
    give_bytes(memory, row_address(rectangle, row), rectangle.width, sink)
}

/// Gives a sink a new line, and then a row, as `give_row` does.
pub fn give_line<S: Sink>(
    memory: &Memory,
    rectangle: Rectangle,
    row: u16,
    sink: &mut S,
) -> Result<(), SinkFault>
    requires stands { IsOk (rows_of memory.now rectangle) }
    requires within { row < rectangle.height }
    ensures ok { OnOk result ((codes : List ℕ) → row_at memory.now rectangle row ≡ Ok codes →
        S.gave sink.old sink.new (Unit.Code 13 ∷ row_units codes)) }
    ensures err { OnErr result ((codes : List ℕ) (more : List Unit)
        → row_at memory.now rectangle row ≡ Ok codes
        → S.refused sink.old sink.new (Unit.Code 13 ∷ row_units codes ++ more)) }
{
    sink.put(Unit::Code(13))?;
    give_row(memory, rectangle, row, sink)
}

/// Gives a sink the codes of a rectangle that can be read (see `check_rectangle`), row by row, with a new line between
/// two rows. Where the sink refuses, it was given a first part of them, and is asked no more.
pub fn give_rectangle<S: Sink>(
    memory: &Memory,
    rectangle: Rectangle,
    sink: &mut S,
) -> Result<(), SinkFault>
    requires { IsOk (rows_of memory.now rectangle) }
    ensures ok { OnOk result ((rows : List (List ℕ)) → rows_of memory.now rectangle ≡ Ok rows →
        S.gave sink.old sink.new (joined_rows rows)) }
    ensures err { OnErr result ((rows : List (List ℕ)) → rows_of memory.now rectangle ≡ Ok rows →
        S.refused sink.old sink.new (joined_rows rows)) }
{
    if rectangle.height == 0 {
        return Ok(());
    }
    give_row(memory, rectangle, 0, sink)?;
    for row in 1..rectangle.height {
        give_line(memory, rectangle, row, sink)?;
    }
    Ok(())
}
