// The objects that findings are about.

ghost use Rattle.std.specs.Prelude.{◌≡◌};
ghost use Rattle.zk_facts.specs.Objects.{object_at, object_of};

use zk_inspect::check::finding::{Finding, Number};
use zk_mem::memory::Memory;

/// The number of the object whose entry lies at a byte address, in the object table at another one: 31 words of default
/// properties stand before entries of 9 bytes in version 3, and 63 before entries of 14 bytes from version 4 on
/// (Standard, sections 12.2 and 12.3).
pub fn object_at(version: u8, table: u16, address: u32) -> Option<u32>
    ensures { result ≡ object_at version table address }
{
    let (first, size) = if version == 3 {
        (table as u32 + 62, 9)
    } else {
        (table as u32 + 126, 14)
    };
    if address < first {
        return None;
    }
    let distance = address - first;
    if distance % size == 0 {
        Some(distance / size + 1)
    } else {
        None
    }
}

/// The number of the object that a finding is about, where it is about one and its address is that of the object's
/// entry.
pub fn object_of(memory: &Memory, finding: Finding) -> Option<u32>
    ensures { result ≡ object_of memory.now finding }
{
    let header = memory.header();
    match finding.number {
        Number::ObjectLinks | Number::ChainWithARepeat | Number::PropertyList => {
            object_at(header.version, header.objects, finding.address)
        }
        _ => None,
    }
}
