// Walks along the children of an object.

ghost use Rattle.std.specs.Prelude.{◌≡◌, ◌≤◌, ◌+◌, IfOk};
ghost use Rattle.zk_tables.specs.Chain.{chain_from, how_many};
ghost use Rattle.zk_tables.specs.Layout.{entries};
ghost use Rattle.zk_tables.specs.Links.{CountsUpTo};
ghost use Rattle.zk_tables.specs.Tree.{naming_among};

use crate::layout::{count_entries, entry};
use crate::links::{LinkPlace, WalkCount, child_link, sibling_link};
use zk_mem::fault::Fault;
use zk_mem::memory::Memory;

/// How many siblings there are from an object on, with so many objects at most.
pub(crate) fn count_chain(
    memory: &Memory,
    first: u16,
    most: u16,
    links: &mut WalkCount,
) -> Result<u16, Fault>
    requires { links.old ≤ 4100000000 }
    ensures value { result ≡ how_many (chain_from memory.now most first) }
    ensures bound { IfOk result (λ n. n ≤ most) }
    ensures few { CountsUpTo links.old links.new most }
    ensures each { IfOk result (λ n. links.new ≡ links.old + n) }
{
    let mut at = first;
    for i in 0..most {
        if at == 0 {
            return Ok(i);
        }
        at = links.link(memory, at, false)?;
    }
    if at == 0 {
        return Ok(most);
    }
    entry(memory, at)?;
    Err(Fault::BadTree)
}

/// The link that names an object among the children of its parent. The whole chain decides: `BadObject`
/// where it meets an object without an entry, `BadTree` where it repeats an object or lacks this one.
pub(crate) fn find_naming(
    memory: &Memory,
    parent: u16,
    object: u16,
    links: &mut WalkCount,
) -> Result<LinkPlace, Fault>
    requires { links.old ≤ 4000000000 }
    ensures value { result ≡ naming_among memory.now parent object }
    ensures few { CountsUpTo links.old links.new (entries memory.now + 1) }
{
    let most = count_entries(memory);
    let mut place = child_link(parent);
    let mut named = links.link(memory, parent, true)?;
    for i in 0..most {
        if named == 0 {
            return Err(Fault::BadTree);
        }
        if named == object {
            count_chain(memory, named, most - i, links)?;
            return Ok(place);
        }
        place = sibling_link(named);
        named = links.link(memory, named, false)?;
    }
    if named != 0 {
        entry(memory, named)?;
    }
    Err(Fault::BadTree)
}
