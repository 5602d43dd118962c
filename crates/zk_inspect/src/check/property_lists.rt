// Where property lists lie in data.

ghost use Rattle.std.specs.Prelude.{◌≡◌, ◌<◌, ◌↔◌, ℕ, IfOk, IsTrue, length};
ghost use Rattle.zk_inspect.specs.Lists.{IsMarked};
ghost use Rattle.zk_inspect.specs.ListMarks.{AreListMarks, HasList};

use crate::reach::address_set::{AddressSet, unmarked};
use std::alloc::{AllocError, Global};
use zk_mem::memory::Memory;
use zk_tables::lists::read_property;

/// No list ends at or above this address.
const LISTS_END: u32 = 66_100;

/// Whether a property list begins at an address and lies in data, by those that begin after it.
fn begins_list(memory: &Memory, address: u32, marks: &AddressSet) -> bool
    requires size { length marks.now ≡ 66100 }
    requires known { (a : ℕ) → address < a → IsMarked marks.now a ↔ HasList memory.now a }
    ensures { IsTrue result ↔ HasList memory.now address }
{
    memory.has_bytes();
    match read_property(memory, address) {
        Ok(Some(property)) => marks.is_marked(property.end()),
        Ok(None) => true,
        Err(_) => false,
    }
}

/// Marks where a property list begins that lies in data. Each address is looked at once, from the last one on, so that
/// objects may share a list.
pub(crate) fn mark_lists(alloc: Global, memory: &Memory) -> Result<AddressSet, AllocError>
    ensures { IfOk result (λ marks. AreListMarks memory.now marks) }
{
    memory.has_bytes();
    let end = memory.data_end();
    let mut marks = unmarked(alloc, LISTS_END)?;
    for behind in 0..end {
        let address = end - 1 - behind;
        if begins_list(memory, address, &marks) {
            marks.mark(address);
        }
    }
    Ok(marks)
}
