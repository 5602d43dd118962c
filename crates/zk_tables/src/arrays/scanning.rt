// Tables are searched.

ghost use Rattle.std.specs.Prelude.{◌≡◌};
ghost use Rattle.zk_tables.specs.Scanning.{field_at, scanned};

use zk_mem::fault::Fault;
use zk_mem::memory::Memory;

/// The word or byte at a byte address.
fn field(memory: &Memory, form: u16, address: u16) -> Result<u16, Fault>
    ensures { result ≡ field_at memory.now form address }
{
    let address = address as u32;
    if form % 256 >= 128 {
        memory.word(address)
    } else {
        Ok(memory.byte(address)? as u16)
    }
}

/// The byte address of the first of `length` entries of a table that begins with a value (Z-Machine Standards Document
/// 1.1, section 15, `scan_table`). Bit 7 of the form says that words are compared, else bytes, and its low seven bits
/// how many bytes an entry has. Addresses are sums of 16 bits.
///
/// `BadAddress` where the beginning of an entry can't be read and no entry before it was found.
#[tactic(auto, using(crate::proofs::Scans::scan_on))]
pub fn scan_table(
    memory: &Memory,
    value: u16,
    table: u16,
    length: u16,
    form: u16,
) -> Result<Option<u16>, Fault>
    ensures { result ≡ scanned memory.now value table form length }
{
    let mut address = table;
    for _i in 0..length {
        if field(memory, form, address)? == value {
            return Ok(Some(address));
        }
        address = address.wrapping_add(form % 128);
    }
    Ok(None)
}
