// The attributes of objects.

ghost use Rattle.std.specs.Prelude.{◌≡◌, Ok, Err, MatchResult};
ghost use Rattle.zk_tables.specs.Attributes.{attribute_at, attribute_put, attribute_bit, with_bits};

use crate::layout::{entry, layout_for};
use zk_mem::fault::Fault;
use zk_mem::memory::Memory;

/// The bit of an attribute in its byte.
fn bit(number: u16) -> u8
    ensures { result ≡ attribute_bit number }
{
    1 << (7 - number % 8)
}

/// Whether an object has an attribute (Standard, section 12.3). Object 0 has none, and an attribute that
/// the version lacks is not there.
///
/// `BadObject` where the object has no entry in data.
#[tactic(auto, unfolding(crate::specs::Attributes::attribute_at))]
pub fn attribute(memory: &Memory, object: u16, number: u16) -> Result<bool, Fault>
    ensures { result ≡ attribute_at memory.now object number }
{
    if object == 0 {
        return Ok(false);
    }
    let entry = entry(memory, object)?;
    if number >= 8 * layout_for(memory).attribute_bytes as u16 {
        return Ok(false);
    }
    let byte = memory.byte(entry + (number / 8) as u32)?;
    Ok(byte & bit(number) != 0)
}

/// Gives an attribute to an object, or takes it (Standard, section 12.3). For object 0, and for an
/// attribute that the version lacks, nothing happens.
///
/// `BadObject` where the object has no entry in data, then `ReadOnly` where the attribute's byte lies
/// outside dynamic memory, also if the attribute is as wanted. A refusal changes nothing.
#[tactic(auto, unfolding(crate::specs::Attributes::attribute_put))]
pub fn set_attribute(memory: &mut Memory, object: u16, number: u16, on: bool) -> Result<(), Fault>
    ensures { MatchResult result (λ _. attribute_put memory.old object number on ≡ Ok memory.new)
        (λ e. (attribute_put memory.old object number on ≡ Err e) × (memory.new ≡ memory.old)) }
{
    if object == 0 {
        return Ok(());
    }
    let entry = entry(memory, object)?;
    if number >= 8 * layout_for(memory).attribute_bytes as u16 {
        return Ok(());
    }
    let address = entry + (number / 8) as u32;
    let byte = memory.byte(address)?;
    memory.set_byte(address, changed(byte, bit(number), on))
}

/// A byte with bits of it on or off.
fn changed(byte: u8, bits: u8, on: bool) -> u8
    ensures { result ≡ with_bits byte bits on }
{
    if on { byte | bits } else { byte & !bits }
}
