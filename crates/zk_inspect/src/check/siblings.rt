// Where the siblings of objects lead.

ghost use Rattle.std.specs.Prelude.{◌≡◌, IfOk, get_or, map};
ghost use Rattle.zk_inspect.specs.Siblings.{IsAhead, next_sibling};

use std::alloc::{AllocError, Global};
use zk_mem::memory::Memory;
use zk_tables::properties::entry_count;
use zk_tables::tree::sibling;

/// The sibling of an object, or 0 where it has none or no entry in data.
#[tactic(auto, unfolding(crate::specs::Siblings::next_sibling))]
fn next_sibling(memory: &Memory, object: u16) -> u16
    ensures { result ≡ next_sibling memory.now object }
{
    match sibling(memory, object) {
        Ok(next) => next,
        Err(_) => 0,
    }
}

/// The sibling of each object that has an entry, at the object's number.
fn list_siblings(alloc: Global, memory: &Memory) -> Result<Vec<u16>, AllocError>
    ensures { IfOk result (λ list. IsAhead memory.now 1 list.items) }
{
    let mut list = Vec::new(alloc);
    list.push(0)?;
    for before in 0..entry_count(memory) {
        list.push(next_sibling(memory, before + 1))?;
    }
    Ok(list)
}

/// The same for twice as many siblings.
fn twice_as_far(alloc: Global, list: &[u16]) -> Result<Vec<u16>, AllocError>
    ensures { IfOk result (λ far. far.items ≡ map (λ o. get_or list.now o 0) list.now) }
{
    let mut far = Vec::new(alloc);
    for object in list {
        far.push(list.get(*object as usize).copied().unwrap_or(0))?;
    }
    Ok(far)
}

/// At each object's number, the one 65,536 siblings on. It is 0 where the siblings come to an end or to an object
/// without an entry, for there are fewer objects; else they repeat one.
pub(crate) fn list_far_siblings(alloc: Global, memory: &Memory) -> Result<Vec<u16>, AllocError>
    ensures { IfOk result (λ list. IsAhead memory.now 65536 list.items) }
{
    let mut list = list_siblings(alloc, memory)?;
    for _turn in 0..16_u32 {
        list = twice_as_far(alloc, list.as_slice())?;
    }
    Ok(list)
}
