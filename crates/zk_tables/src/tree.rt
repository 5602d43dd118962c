// The tree of objects.

ghost use Rattle.std.specs.Prelude.{◌≡◌, ◌≤◌, ◌+◌, Ok, Err, IfOk, IsOk, MatchResult};
ghost use Rattle.zk_tables.specs.Chain.{children_of, how_many};
ghost use Rattle.zk_tables.specs.Layout.{entries};
ghost use Rattle.zk_tables.specs.Links.{CountsUpTo, link_at, parent_of, sibling_of, child_of};
ghost use Rattle.zk_tables.specs.Tree.{naming_of, unlinked_where, removed, linked, inserted};

use crate::chain::{count_chain, find_naming};
use crate::layout::{count_entries, entry};
use crate::links::{
    LinkPlace, WalkCount, check_writes, child_link, parent_link, read_link, sibling_link,
    write_link,
};
use zk_mem::fault::Fault;
use zk_mem::memory::Memory;

/// The parent of an object, or 0 (Standard, section 12.3). Object 0 has none.
///
/// `BadObject` where the object has no entry in data.
pub fn parent(memory: &Memory, object: u16) -> Result<u16, Fault>
    ensures { result ≡ link_at memory.now (parent_of object) }
{
    read_link(memory, parent_link(object))
}

/// The sibling of an object, or 0 (Standard, section 12.3). Object 0 has none.
///
/// `BadObject` where the object has no entry in data.
pub fn sibling(memory: &Memory, object: u16) -> Result<u16, Fault>
    ensures { result ≡ link_at memory.now (sibling_of object) }
{
    read_link(memory, sibling_link(object))
}

/// The first child of an object, or 0 (Standard, section 12.3). Object 0 has none.
///
/// `BadObject` where the object has no entry in data.
pub fn child(memory: &Memory, object: u16) -> Result<u16, Fault>
    ensures { result ≡ link_at memory.now (child_of object) }
{
    read_link(memory, child_link(object))
}

/// How many children an object has, in a chain that comes to an end (Standard, section 12.5). Object 0 has none.
///
/// `BadObject` where the object, or one that the chain meets, has no entry in data, `BadTree` where the chain repeats
/// an object.
#[tactic(auto, unfolding(crate::specs::Chain::children_of))]
pub fn chain(memory: &Memory, object: u16, links: &mut WalkCount) -> Result<u16, Fault>
    requires { links.old ≤ 4000000000 }
    ensures value { result ≡ how_many (children_of memory.now object) }
    ensures bound { IfOk result (λ n. n ≤ entries memory.now) }
    ensures few { CountsUpTo links.old links.new (entries memory.now + 1) }
    ensures each { IfOk result (λ n. links.new ≡ links.old + n + 1) }
{
    let first = links.link(memory, object, true)?;
    count_chain(memory, first, count_entries(memory), links)
}

/// The link that names an object among its parent's children, if it has a parent.
#[tactic(auto, unfolding(crate::specs::Tree::naming_of))]
fn naming_link(
    memory: &Memory,
    object: u16,
    links: &mut WalkCount,
) -> Result<Option<LinkPlace>, Fault>
    requires { links.old ≤ 4000000000 }
    ensures value { result ≡ naming_of memory.now object }
    ensures few { CountsUpTo links.old links.new (entries memory.now + 1) }
{
    let parent = parent(memory, object)?;
    if parent == 0 {
        return Ok(None);
    }
    Ok(Some(find_naming(memory, parent, object, links)?))
}

/// Whether an object may be removed, and the link that names it then.
fn check_removal(
    memory: &Memory,
    object: u16,
    links: &mut WalkCount,
) -> Result<Option<LinkPlace>, Fault>
    requires { links.old ≤ 4000000000 }
    ensures value { MatchResult result
        (λ place. (naming_of memory.now object ≡ Ok place) × IsOk (removed memory.now object))
        (λ e. removed memory.now object ≡ Err e) }
    ensures few { CountsUpTo links.old links.new (entries memory.now + 1) }
{
    let Some(place) = naming_link(memory, object, links)? else {
        return Ok(None);
    };
    check_writes(memory, place, parent_link(object), sibling_link(object))?;
    Ok(Some(place))
}

/// Takes an object out of the chain where a link names it, if one does. The links were tested before.
#[tactic(auto, unfolding(crate::specs::Tree::unlinked, crate::specs::Tree::unlinked_where))]
fn unlink(
    memory: &mut Memory,
    object: u16,
    place: Option<LinkPlace>,
    links: &mut WalkCount,
) -> Result<(), Fault>
    requires { links.old ≤ 4100000000 }
    ensures value { MatchResult result (λ _. unlinked_where memory.old object place ≡ Ok memory.new)
        (λ e. unlinked_where memory.old object place ≡ Err e) }
    ensures few { CountsUpTo links.old links.new 1 }
{
    let Some(place) = place else {
        return Ok(());
    };
    let next = links.link(memory, object, false)?;
    write_link(memory, place, next)?;
    write_link(memory, parent_link(object), 0)?;
    write_link(memory, sibling_link(object), 0)
}

/// Makes an object the first child of another. The links were tested before.
#[tactic(auto, unfolding(crate::specs::Tree::linked))]
fn link_first(
    memory: &mut Memory,
    object: u16,
    destination: u16,
    links: &mut WalkCount,
) -> Result<(), Fault>
    requires { links.old ≤ 4100000000 }
    ensures value { MatchResult result (λ _. linked memory.old object destination ≡ Ok memory.new)
        (λ e. linked memory.old object destination ≡ Err e) }
    ensures few { CountsUpTo links.old links.new 1 }
{
    let next = links.link(memory, destination, true)?;
    write_link(memory, sibling_link(object), next)?;
    write_link(memory, parent_link(object), destination)?;
    write_link(memory, child_link(destination), object)
}

/// Takes an object out of its parent's children (Standard, section 15, `remove_obj`): the link that names
/// it gets its sibling, and its parent and sibling become 0. Where it has no parent, nothing happens.
///
/// `BadObject` where the object or its parent has no entry in data, or the parent's whole chain of
/// children meets such an object. `BadTree` where that chain repeats an object or lacks this one. Then
/// `ReadOnly` where one of the links lies outside dynamic memory. A refusal changes no memory; the links read before
/// it count.
pub fn remove(memory: &mut Memory, object: u16, links: &mut WalkCount) -> Result<(), Fault>
    requires { links.old ≤ 4000000000 }
    ensures value { MatchResult result (λ _. removed memory.old object ≡ Ok memory.new)
        (λ e. (removed memory.old object ≡ Err e) × (memory.new ≡ memory.old)) }
    ensures few { CountsUpTo links.old links.new (entries memory.old + 2) }
{
    let place = check_removal(memory, object, links)?;
    unlink(memory, object, place, links)
}

/// Puts an object into another, as its first child (Standard, section 15, `insert_obj`), after it was
/// removed from its parent. Where one of the two is 0, nothing happens.
///
/// `BadObject` where one of the two has no entry in data, then the refusals of `remove`, then `ReadOnly`
/// where one of the links lies outside dynamic memory. A refusal changes no memory; the links read before it count.
pub fn insert(
    memory: &mut Memory,
    object: u16,
    destination: u16,
    links: &mut WalkCount,
) -> Result<(), Fault>
    requires { links.old ≤ 4000000000 }
    ensures value { MatchResult result (λ _. inserted memory.old object destination ≡ Ok memory.new)
        (λ e. (inserted memory.old object destination ≡ Err e) × (memory.new ≡ memory.old)) }
    ensures few { CountsUpTo links.old links.new (entries memory.old + 3) }
{
    if object == 0 || destination == 0 {
        return Ok(());
    }
    entry(memory, object)?;
    entry(memory, destination)?;
    let place = check_removal(memory, object, links)?;
    check_writes(
        memory,
        sibling_link(object),
        parent_link(object),
        child_link(destination),
    )?;
    unlink(memory, object, place, links)?;
    link_first(memory, object, destination, links)
}
