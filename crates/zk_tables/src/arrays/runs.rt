// Runs of bytes in memory.

ghost use Rattle.std.specs.Prelude.{◌≡◌, ◌<◌, ◌+◌, ◌%◌, ◌^◌, Ok, Err, IsOk, MatchResult, length};
ghost use Rattle.zk_tables.specs.Runs.{bytes_put, places, bytes_read};

use zk_mem::fault::Fault;
use zk_mem::memory::Memory;

/// Stores bytes one after the other, from a byte address on. The first that can't be stored decides: `BadAddress`
/// outside readable data, `ReadOnly` inside; what was stored before it stands.
#[tactic(auto, using(crate::proofs::Stored::put_on, crate::proofs::Stored::put_end))]
pub fn put_bytes(memory: &mut Memory, address: u32, bytes: &[u8]) -> Result<(), Fault>
    requires { address + length bytes.now < 2 ^ 32 }
    ensures { MatchResult result (λ _. bytes_put memory.old address bytes.now ≡ Ok memory.new)
        (λ e. bytes_put memory.old address bytes.now ≡ Err e) }
{
    for i in 0..bytes.len() {
        memory.set_byte(address + i as u32, bytes[i])?;
    }
    Ok(())
}

/// The byte address of a byte of a table: a sum of 16 bits.
pub(crate) fn place(table: u16, index: u16) -> u32
    ensures { result ≡ (table + index) % 65536 }
{
    table.wrapping_add(index) as u32
}

/// Whether so many bytes of a table can be read; else it is `BadAddress`. No byte is looked at: they lie one after the
/// other, and where data ends at 65,536 all addresses can be read.
#[tactic(auto, using(crate::proofs::Places::of_check_bytes))]
pub(crate) fn check_bytes(memory: &Memory, table: u16, length: u16) -> Result<(), Fault>
    ensures { MatchResult result (λ _. IsOk (bytes_read memory.now (places table length)))
        (λ e. bytes_read memory.now (places table length) ≡ Err e) }
{
    let end = memory.data_end();
    if length == 0 || end == 65_536 || table as u32 + length as u32 <= end {
        Ok(())
    } else {
        Err(Fault::BadAddress)
    }
}
