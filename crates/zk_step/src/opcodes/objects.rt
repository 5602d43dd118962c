// What is done to objects and properties, and asked of them.

ghost use Rattle.std.specs.Prelude.{◌≡◌, Ok, Err, MatchResult};
ghost use Rattle.zk_step.specs.Objects.{object_changed, object_answer};

use crate::state::ending::Yield;
use zk_code::opcode::{ObjectChange, ObjectQuestion};
use zk_mem::fault::Fault;
use zk_mem::memory::Memory;
use zk_tables::attributes::{attribute, set_attribute};
use zk_tables::links::WalkCount;
use zk_tables::properties::{
    next_property, property, property_address, property_length, put_property,
};
use zk_tables::tree::{child, insert, parent, remove, sibling};

/// Changes an object, its place in the tree or its properties, by one or two words.
#[inline(always)]
#[tactic(auto, unfolding(crate::specs::Objects::object_changed))]
pub fn change_object(
    operation: ObjectChange,
    memory: &mut Memory,
    object: u16,
    number: u16,
    value: u16,
) -> Result<(), Fault>
    ensures { MatchResult result
        (λ _. object_changed operation memory.old object number value ≡ Ok memory.new)
        (λ f. object_changed operation memory.old object number value ≡ Err f) }
{
    match operation {
        ObjectChange::SetAttr => set_attribute(memory, object, number, true)?,
        ObjectChange::ClearAttr => set_attribute(memory, object, number, false)?,
        ObjectChange::InsertObj => insert(memory, object, number, &mut WalkCount::new())?,
        ObjectChange::RemoveObj => remove(memory, object, &mut WalkCount::new())?,
        ObjectChange::PutProp => put_property(memory, object, number, value)?,
    }
    Ok(())
}

/// What an opcode asks of an object by a word, or of a property's byte address.
#[inline(always)]
#[tactic(auto, unfolding(crate::specs::Objects::object_answer))]
pub fn object_answer(
    operation: ObjectQuestion,
    memory: &Memory,
    object: u16,
    number: u16,
) -> Result<Yield, Fault>
    ensures { result ≡ object_answer operation memory.now object number }
{
    match operation {
        ObjectQuestion::Jin => Ok(Yield::truth(parent(memory, object)? == number)),
        ObjectQuestion::TestAttr => Ok(Yield::truth(attribute(memory, object, number)?)),
        ObjectQuestion::GetProp => Ok(Yield::word(property(memory, object, number)?)),
        ObjectQuestion::GetPropAddr => Ok(Yield::word(property_address(memory, object, number)?)),
        ObjectQuestion::GetNextProp => Ok(Yield::word(next_property(memory, object, number)?)),
        ObjectQuestion::GetPropLen => Ok(Yield::word(property_length(memory, object)?)),
        ObjectQuestion::GetParent => Ok(Yield::word(parent(memory, object)?)),
        ObjectQuestion::GetSibling => Ok(Yield::found(sibling(memory, object)?)),
        ObjectQuestion::GetChild => Ok(Yield::found(child(memory, object)?)),
    }
}
