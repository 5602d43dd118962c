// The objects of a story.

ghost use Rattle.std.specs.Prelude.{◌≡◌, ◌≤◌, ◌<◌, ◌↔◌, ◌+◌, ℕ, Ok, Err, IfOk, IsOk, OnOk};
ghost use Rattle.zk_tables.specs.Properties.{table_of};
ghost use Rattle.zk_tables.specs.Layout.{entry_of};
ghost use Rattle.zk_tables.specs.Chain.{children_of};
ghost use Rattle.zk_tables.specs.Properties.{properties_of};
ghost use Rattle.zk_inspect.specs.Lists.{IsListOf};
ghost use Rattle.zk_inspect.specs.ObjectTests.{AreObjects, IsAnswered, answer, is_bad_property, is_bad_tree, is_past};
ghost use Rattle.zk_inspect.specs.ObjectTests.{leads_past};
ghost use Rattle.zk_inspect.specs.Objects.{IsListed, lower_of};

use crate::check::property_lists::mark_lists;
use crate::check::siblings::list_far_siblings;
use crate::reach::address_set::AddressSet;
use crate::reach::code::Addresses;
use std::alloc::{AllocError, Global};
use zk_mem::fault::Fault;
use zk_mem::memory::Memory;
use zk_tables::properties::{entry_address, list_address, table_address};
use zk_tables::tree::{child, parent, sibling};

/// The lower one of an address and that of the property table of an object.
fn lower_table(memory: &Memory, object: u16, lowest: u32) -> u32
    ensures { result ≡ lower_of (table_of memory.now object) lowest }
{
    match table_address(memory, object) {
        Ok(table) => lowest.min(table as u32),
        Err(_) => lowest,
    }
}

/// How many objects a story has: they are counted from 1 on, up to the first whose entry does not lie in data, or does
/// not begin below the property table of each object before it. There are none where the header names no object table.
pub fn count_objects(memory: &Memory) -> u16
    ensures listed { (o entry : ℕ)
        → IsListed memory.now o entry ↔ ((o ≤ result) × (entry_of memory.now o ≡ Ok entry)) }
    ensures whole { (o : ℕ) → 0 < o → o ≤ result → IsOk (entry_of memory.now o) }
{
    if memory.header().objects == 0 {
        return 0;
    }
    let mut lowest = 65_536;
    for before in 0..65_535 {
        match entry_address(memory, before + 1) {
            Ok(entry) => {
                if entry >= lowest {
                    return before;
                }
            }
            Err(_) => return before,
        }
        lowest = lower_table(memory, before + 1, lowest);
    }
    65_535
}

/// The objects of a story.
#[derive(Drop)]
pub(crate) struct Objects {
    /// How many are listed.
    pub count: u16,
    /// At each object's number, the one 65,536 siblings on.
    far_siblings: Vec<u16>,
    /// Where property lists begin that lie in data.
    lists: AddressSet,
}

/// The objects of a story.
pub(crate) fn find_objects(alloc: Global, memory: &Memory) -> Result<Objects, AllocError>
    ensures { IfOk result (λ objects. AreObjects memory.now objects) }
{
    let count = count_objects(memory);
    let far_siblings = list_far_siblings(alloc, memory)?;
    let lists = mark_lists(alloc, memory)?;
    Ok(Objects {
        count,
        far_siblings,
        lists,
    })
}

/// What is asked of an object.
#[derive(Clone, Copy)]
pub(crate) enum Question {
    /// Whether a link names an object past the last.
    Links,
    /// Whether the chain of its children repeats one.
    Chain,
    /// Whether its property list does not lie in data.
    Properties,
}

/// Whether a link names an object past the last.
fn is_past(count: u16, link: Result<u16, Fault>) -> bool
    ensures { result ≡ is_past count link }
{
    match link {
        Ok(object) => object > count,
        Err(_) => false,
    }
}

/// Whether one of an object's links names an object past the last.
fn leads_past(memory: &Memory, count: u16, object: u16) -> bool
    ensures { result ≡ leads_past memory.now count object }
{
    is_past(count, parent(memory, object))
        || is_past(count, sibling(memory, object))
        || is_past(count, child(memory, object))
}

/// Whether the chain of an object's children repeats one: whether it goes on 65,536 siblings after the first.
fn has_bad_tree(memory: &Memory, objects: &Objects, object: u16) -> bool
    requires { AreObjects memory.now objects.now }
    ensures { result ≡ is_bad_tree (children_of memory.now object) }
{
    match child(memory, object) {
        Ok(first) => {
            let far = objects.far_siblings.get(first as usize);
            far.copied().unwrap_or(0) != 0
        }
        Err(_) => false,
    }
}

/// Whether the property list of an object does not lie in data.
#[tactic(auto, using(crate::proofs::LastLists::no_list))]
fn has_bad_properties(memory: &Memory, objects: &Objects, object: u16) -> bool
    requires { AreObjects memory.now objects.now }
    ensures { result ≡ is_bad_property (properties_of memory.now object) }
{
    memory.has_bytes();
    match list_address(memory, object) {
        Ok(list) => !objects.lists.is_marked(list),
        Err(fault) => matches!(fault, Fault::BadProperty),
    }
}

/// The answer to a question.
fn answer(memory: &Memory, objects: &Objects, question: Question, object: u16) -> bool
    requires { AreObjects memory.now objects.now }
    ensures { result ≡ answer memory.now objects.now.count question object }
{
    match question {
        Question::Links => leads_past(memory, objects.count, object),
        Question::Chain => has_bad_tree(memory, objects, object),
        Question::Properties => has_bad_properties(memory, objects, object),
    }
}

/// Adds the entry of an object, where a question is answered with yes.
fn add_object(
    memory: &Memory,
    objects: &Objects,
    question: Question,
    before: u16,
    list: &mut Addresses,
) -> Result<(), AllocError>
    requires few { before < 65535 }
    requires objects { AreObjects memory.now objects.now }
    requires before { IsListOf (IsAnswered memory.now objects.now.count question before) list.old }
    ensures { OnOk result
        (IsListOf (IsAnswered memory.now objects.now.count question (before + 1)) list.new) }
{
    match entry_address(memory, before + 1) {
        Ok(entry) => {
            if answer(memory, objects, question, before + 1) {
                list.push(entry)?;
                return Ok(());
            }
            Ok(())
        }
        Err(_) => Ok(()),
    }
}

/// The entries of the listed objects of which a question is answered with yes.
pub(crate) fn list_objects(
    alloc: Global,
    memory: &Memory,
    objects: &Objects,
    question: Question,
) -> Result<Addresses, AllocError>
    requires { AreObjects memory.now objects.now }
    ensures { IfOk result
        (IsListOf (IsAnswered memory.now objects.now.count question objects.now.count)) }
{
    let mut list = Addresses::new(alloc);
    for before in 0..objects.count {
        add_object(memory, objects, question, before, &mut list)?;
    }
    Ok(list)
}
