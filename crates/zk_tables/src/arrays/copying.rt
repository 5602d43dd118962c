// Tables are copied and cleared.

ghost use Rattle.std.specs.Prelude.{◌≡◌, ◌≤◌, ◌<◌, ◌+◌, ◌%◌, ◌-◌, ◌⊎◌, ℕ, List, Ok, Err, IsOk, OnOk, IfErr};
ghost use Rattle.std.specs.Prelude.{MatchResult, length, min, true};
ghost use Rattle.zk_mem.specs.Map.{readable_end};
ghost use Rattle.zk_tables.specs.Runs.{places, bytes_stored};
ghost use Rattle.zk_tables.specs.Copying.{byte_copied, copied_at_once, copied_forwards, cleared};
ghost use Rattle.zk_tables.specs.Copying.{table_copied};

use crate::arrays::runs::{check_bytes, place};
use crate::signed::magnitude;
use zk_mem::fault::Fault;
use zk_mem::memory::Memory;

/// Whether so many bytes can be stored in a table, one after the other: the refusal is that of the first that can't.
#[tactic(auto, using(crate::proofs::Puts::stores_none, crate::proofs::Puts::stores_inside))]
fn check_stores(memory: &Memory, table: u16, size: u16) -> Result<(), Fault>
    ensures ok { OnOk result ((bytes : List ℕ) → length bytes ≡ size
        → IsOk (bytes_stored memory.now (places table size) bytes)) }
    ensures err { IfErr result (λ e. (bytes : List ℕ) → length bytes ≡ size
        → bytes_stored memory.now (places table size) bytes ≡ Err e) }
{
    memory.is_of_file();
    let end = memory.data_end();
    let writable = (memory.header().static_base as u32).min(end);
    let first = table as u32;
    // the static base is below 65,536, so no sum of 16 bits wraps before a store is refused
    if size == 0 || first + size as u32 <= writable {
        return Ok(());
    }
    let refused = first.max(writable);
    if refused < end {
        Err(Fault::ReadOnly)
    } else {
        Err(Fault::BadAddress)
    }
}

/// Copies a byte of a table.
fn copy_byte(memory: &mut Memory, first: u16, second: u16, index: u16) -> Result<(), Fault>
    ensures { MatchResult result (λ _. byte_copied memory.old ((first + index) % 65536)
        ((second + index) % 65536) ≡ Ok memory.new)
        (λ e. byte_copied memory.old ((first + index) % 65536) ((second + index) % 65536) ≡ Err e) }
{
    let byte = memory.byte(place(first, index))?;
    memory.set_byte(place(second, index), byte)
}

/// Whether so many bytes of the first table can be read and of the second be stored, and no sum of 16 bits wraps.
fn lie_inside(memory: &Memory, first: u16, second: u16, size: u16) -> bool
    ensures readable { result ≡ true → first + size ≤ readable_end memory.now }
    ensures writable { result ≡ true
        → second + size ≤ min memory.now.static_base (readable_end memory.now) }
{
    memory.is_of_file();
    let end = memory.data_end();
    let writable = (memory.header().static_base as u32).min(end);
    let size = size as u32;
    first as u32 + size <= end && second as u32 + size <= writable
}

/// Copies a table from its first byte to its last.
#[tactic(auto, using(crate::proofs::Passes::forwards_on, crate::proofs::Passes::forwards_end))]
fn copy_forwards(memory: &mut Memory, first: u16, second: u16, size: u16) -> Result<(), Fault>
    ensures { MatchResult result
        (λ _. copied_forwards memory.old (places first size) (places second size) ≡ Ok memory.new)
        (λ e. copied_forwards memory.old (places first size) (places second size) ≡ Err e) }
{
    for i in 0..size {
        copy_byte(memory, first, second, i)?;
    }
    Ok(())
}

/// Whether each byte of the first table is read before another is stored over it, where it is copied forwards.
fn reads_before_stores(first: u16, second: u16, size: u16) -> bool
    ensures { result ≡ true → (second ≤ first) ⊎ (first + size ≤ second) }
{
    if second <= first {
        return true;
    }
    first as u32 + size as u32 <= second as u32
}

/// Copies a table as from its first byte to its last: at once, where no byte is stored over before it is read.
fn copy_in_order(memory: &mut Memory, first: u16, second: u16, size: u16) -> Result<(), Fault>
    ensures { MatchResult result
        (λ _. copied_forwards memory.old (places first size) (places second size) ≡ Ok memory.new)
        (λ e. copied_forwards memory.old (places first size) (places second size) ≡ Err e) }
{
    if reads_before_stores(first, second, size) && lie_inside(memory, first, second, size) {
        memory.move_bytes(first as u32, second as u32, size as u32);
        return Ok(());
    }
    copy_forwards(memory, first, second, size)
}

/// Copies a table that can be copied, from its last byte to its first, where that stores over no byte before it is
/// read.
fn copy_backwards(memory: &mut Memory, first: u16, second: u16, size: u16)
    requires can { IsOk (copied_at_once memory.old (places first size) (places second size)) }
    requires above { (second + (65536 - first)) % 65536 < size }
    requires small { size < 32768 }
    ensures { copied_at_once memory.old (places first size) (places second size) ≡ Ok memory.new }
{
    for i in (0..size).rev() {
        copy_byte(memory, first, second, i).unwrap();
    }
}

/// Copies a table as if at once: all bytes are tested first. Those of tables that lie inside are moved, and others are
/// copied in the direction that stores over no byte before it is read.
fn copy_at_once(memory: &mut Memory, first: u16, second: u16, size: u16) -> Result<(), Fault>
    requires { size < 32768 }
    ensures { MatchResult result
        (λ _. copied_at_once memory.old (places first size) (places second size) ≡ Ok memory.new)
        (λ e. copied_at_once memory.old (places first size) (places second size) ≡ Err e) }
{
    if lie_inside(memory, first, second, size) {
        memory.move_bytes(first as u32, second as u32, size as u32);
        return Ok(());
    }
    check_bytes(memory, first, size)?;
    check_stores(memory, second, size)?;
    if second.wrapping_sub(first) < size {
        copy_backwards(memory, first, second, size);
        return Ok(());
    }
    copy_forwards(memory, first, second, size)
}

/// Clears bytes of a table, from the first on.
#[tactic(auto, using(crate::proofs::Passes::cleared_on, crate::proofs::Passes::cleared_end))]
fn clear(memory: &mut Memory, table: u16, size: u16) -> Result<(), Fault>
    ensures { MatchResult result (λ _. cleared memory.old table size ≡ Ok memory.new)
        (λ e. cleared memory.old table size ≡ Err e) }
{
    for i in 0..size {
        memory.set_byte(place(table, i), 0)?;
    }
    Ok(())
}

/// Copies so many bytes of a table to another (Z-Machine Standards Document 1.1, section 15, `copy_table`): as if at
/// once where the size is positive, and byte by byte from the first on where it is negative. Where the address of the
/// second table is 0, bytes of the first become 0. Addresses are sums of 16 bits.
///
/// As if at once, it is `BadAddress` where a byte can't be read, before anything is stored; then the first byte that
/// can't be stored decides, `BadAddress` outside readable data, `ReadOnly` inside. Byte by byte, and where bytes become
/// 0, the first that can't be read or stored decides, and what was stored before it stands. It takes no memory.
#[tactic(auto, unfolding(crate::specs::Copying::table_copied))]
pub fn copy_table(memory: &mut Memory, first: u16, second: u16, size: u16) -> Result<(), Fault>
    ensures { MatchResult result (λ _. table_copied memory.old first second size ≡ Ok memory.new)
        (λ e. table_copied memory.old first second size ≡ Err e) }
{
    if second == 0 {
        clear(memory, first, magnitude(size))
    } else if size < 32768 {
        copy_at_once(memory, first, second, size)
    } else {
        copy_in_order(memory, first, second, magnitude(size))
    }
}
