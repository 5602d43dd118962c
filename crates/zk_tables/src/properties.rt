// The properties and names of objects.

ghost use Rattle.std.specs.Prelude.{◌≡◌, ◌≢◌, ◌≤◌, ◌<◌, Ok, Err, IfOk, IfSome, IsOk, MatchResult, OnOk};
ghost use Rattle.zk_tables.specs.Layout.{entries, entry_of, layout_of};
ghost use Rattle.zk_tables.specs.Properties.{HasShortList, table_of, list_of, properties_of, property_of, default_of};
ghost use Rattle.zk_tables.specs.Properties.{value_in, value_put_in, property_value, property_address_of};
ghost use Rattle.zk_tables.specs.Properties.{next_property_of, property_put, length_by, property_length_of, name_of};

use crate::layout::{EARLY, LATE, Layout, count_entries, entry, entry_in, layout_for};
use crate::lists::{
    Property, check_list, find, find_first_number, find_number_after, length_in, read_list_byte,
};
use zk_mem::fault::Fault;
use zk_mem::memory::Memory;

/// The byte address of the entry of an object (Standard, section 12.3), or `BadObject` where it has none in data.
pub fn entry_address(memory: &Memory, object: u16) -> Result<u32, Fault>
    ensures value { result ≡ entry_of memory.now object }
    ensures bound { IfOk result (λ address. address < 65536) }
{
    entry(memory, object)
}

/// How many entries of objects fit into data (Standard, section 12.3): up to version 3 no more than 255 are counted.
pub fn entry_count(memory: &Memory) -> u16
    ensures { result ≡ entries memory.now }
{
    count_entries(memory)
}

/// The byte address of the property table of an object in a layout.
#[inline(always)]
#[tactic(auto, unfolding(crate::specs::Properties::table_of))]
fn table_in(memory: &Memory, layout: Layout, object: u16) -> Result<u16, Fault>
    requires layout { layout ≡ layout_of memory.now.version }
    requires entry { 9 ≤ layout.entry_bytes }
    ensures { result ≡ table_of memory.now object }
{
    let entry = entry_in(memory, layout, object)?;
    memory.word(entry + layout.attribute_bytes as u32 + 3 * layout.link_bytes as u32)
}

/// The byte address of the property table of an object (Standard, section 12.4), or `BadObject` where it has no entry
/// in data.
#[inline(always)]
#[tactic(auto, unfolding(crate::specs::Layout::layout_of))]
pub fn table_address(memory: &Memory, object: u16) -> Result<u16, Fault>
    ensures { result ≡ table_of memory.now object }
{
    // the sizes are known in each arm
    if memory.version() < 4 {
        table_in(memory, EARLY, object)
    } else {
        table_in(memory, LATE, object)
    }
}

/// The byte address of the property list of an object, which stands after its short name (Standard, section 12.4).
///
/// `BadObject` where the object has no entry in data, `BadProperty` where the first byte of its property table does not
/// lie in data.
#[inline(always)]
#[tactic(auto, unfolding(crate::specs::Properties::list_of))]
pub fn list_address(memory: &Memory, object: u16) -> Result<u32, Fault>
    ensures { result ≡ list_of memory.now object }
{
    let table = table_address(memory, object)? as u32;
    let words = read_list_byte(memory, table)?;
    Ok(table + 1 + 2 * words as u32)
}

/// Whether the property list of an object lies in data (Standard, section 12.4).
///
/// `BadObject` where the object has no entry in data, `BadProperty` where its property list, or the first byte of its
/// property table, does not lie in data.
#[tactic(auto, unfolding(crate::specs::Properties::properties_of))]
pub fn check_properties(memory: &Memory, object: u16) -> Result<(), Fault>
    ensures value { MatchResult result (λ _. IsOk (properties_of memory.now object))
        (λ e. properties_of memory.now object ≡ Err e) }
    ensures walked { OnOk result (HasShortList memory.now object) }
{
    memory.has_bytes();
    let list = list_address(memory, object)?;
    check_list(memory, list)
}

/// The first property of a number that an object has.
#[tactic(auto, unfolding(crate::specs::Properties::property_of), using(crate::proofs::ShortLists::found_short))]
fn find_property(memory: &Memory, object: u16, number: u16) -> Result<Option<Property>, Fault>
    ensures value { result ≡ property_of memory.now object number }
    ensures bound { IfOk result (λ r. IfSome r (λ p. p.address < 65536)) }
    ensures walked { OnOk result (HasShortList memory.now object) }
{
    memory.has_bytes();
    let list = list_address(memory, object)?;
    find(memory, list, number)
}

#[tactic(auto, unfolding(crate::specs::Properties::default_of))]
fn default_value(memory: &Memory, number: u16) -> Result<u16, Fault>
    ensures { result ≡ default_of memory.now number }
{
    if number == 0 || number > layout_for(memory).default_words as u16 {
        return Err(Fault::BadProperty);
    }
    memory.word(memory.header().objects as u32 + 2 * (number - 1) as u32)
}

#[inline(always)]
fn value(memory: &Memory, number: u16, property: Option<Property>) -> Result<u16, Fault>
    ensures { result ≡ value_in memory.now number property }
{
    match property {
        None => default_value(memory, number),
        Some(property) => {
            if property.length == 1 {
                Ok(memory.byte(property.address)? as u16)
            } else {
                memory.word(property.address)
            }
        }
    }
}

fn set_value(memory: &mut Memory, value: u16, property: Option<Property>) -> Result<(), Fault>
    ensures { MatchResult result (λ _. value_put_in memory.old value property ≡ Ok memory.new)
        (λ e. (value_put_in memory.old value property ≡ Err e) × (memory.new ≡ memory.old)) }
{
    match property {
        None => Err(Fault::BadProperty),
        Some(property) => {
            if property.length == 1 {
                memory.set_byte(property.address, (value % 256) as u8)
            } else {
                memory.set_word(property.address, value)
            }
        }
    }
}

/// The value of a property of an object: of length 1 its byte, else its first word. Where the object does
/// not have it, and for object 0, it is the default word of that number (Standard, section 12.2).
///
/// `BadObject` where the object has no entry in data. `BadProperty` where its property list, or the
/// first byte of its property table, does not lie in data, and where a default of that number is wanted
/// and there is none. `BadAddress` where the default lies outside data.
#[tactic(auto, unfolding(crate::specs::Properties::property_value), using(crate::proofs::ShortLists::walked_by))]
pub fn property(memory: &Memory, object: u16, number: u16) -> Result<u16, Fault>
    ensures value { result ≡ property_value memory.now object number }
    ensures walked { OnOk result (object ≢ 0 → HasShortList memory.now object) }
{
    if object == 0 {
        return default_value(memory, number);
    }
    let property = find_property(memory, object, number)?;
    value(memory, number, property)
}

/// The byte address of the data of a property of an object, or 0 where the object does not have it.
///
/// `BadObject` where the object has no entry in data, `BadProperty` where its property list, or the
/// first byte of its property table, does not lie in data.
#[tactic(auto, unfolding(crate::specs::Properties::property_address_of))]
pub fn property_address(memory: &Memory, object: u16, number: u16) -> Result<u16, Fault>
    ensures value { result ≡ property_address_of memory.now object number }
    ensures walked { OnOk result (object ≢ 0 → HasShortList memory.now object) }
{
    if object == 0 {
        return Ok(0);
    }
    match find_property(memory, object, number)? {
        Some(property) => Ok(property.address as u16),
        None => Ok(0),
    }
}

/// The number of the property after the one of a number, in the object's list, or 0 after the last. After
/// 0 it is the first.
///
/// `BadObject` where the object has no entry in data. `BadProperty` where its property list, or the
/// first byte of its property table, does not lie in data, and where it does not have the property.
#[tactic(auto, unfolding(crate::proofs::Opened::in_next_property), using(crate::proofs::ShortLists::of_next_property))]
pub fn next_property(memory: &Memory, object: u16, number: u16) -> Result<u16, Fault>
    ensures value { result ≡ next_property_of memory.now object number }
    ensures walked { OnOk result (object ≢ 0 → HasShortList memory.now object) }
{
    memory.has_bytes();
    if object == 0 {
        return if number == 0 {
            Ok(0)
        } else {
            Err(Fault::BadProperty)
        };
    }
    let list = list_address(memory, object)?;
    if number == 0 {
        find_first_number(memory, list)
    } else {
        find_number_after(memory, list, number)
    }
}

/// Changes the value of a property of an object: of length 1 its byte, to the low byte, else its first
/// word. For object 0 nothing happens.
///
/// `BadObject` where the object has no entry in data. `BadProperty` where its property list, or the
/// first byte of its property table, does not lie in data, and where it does not have the property.
/// `ReadOnly` where the value lies outside dynamic memory. A refusal changes nothing.
#[tactic(auto, unfolding(crate::specs::Properties::property_put), using(crate::proofs::ShortLists::walked_by))]
pub fn put_property(memory: &mut Memory, object: u16, number: u16, value: u16) -> Result<(), Fault>
    ensures value { MatchResult result
        (λ _. property_put memory.old object number value ≡ Ok memory.new)
        (λ e. (property_put memory.old object number value ≡ Err e) × (memory.new ≡ memory.old)) }
    ensures walked { OnOk result (object ≢ 0 → HasShortList memory.old object) }
{
    if object == 0 {
        return Ok(());
    }
    let property = find_property(memory, object, number)?;
    set_value(memory, value, property)
}

fn length_told(version: u8, size: u8) -> u8
    ensures { result ≡ length_by version size }
{
    if version < 4 {
        size / 32 + 1
    } else if size < 128 {
        size / 64 + 1
    } else {
        length_in(size)
    }
}

/// The length in bytes of the property whose data begins at a byte address, as the size byte before it
/// tells (Standard, section 12.4.2). At 0 it is 0.
///
/// `BadAddress` where that size byte lies outside data.
#[tactic(auto, unfolding(crate::specs::Properties::property_length_of))]
pub fn property_length(memory: &Memory, address: u16) -> Result<u16, Fault>
    ensures { result ≡ property_length_of memory.now address }
{
    if address == 0 {
        return Ok(0);
    }
    let size = memory.byte((address - 1) as u32)?;
    Ok(length_told(memory.version(), size) as u16)
}

/// The byte address of the text of an object's short name, if it has one (Standard, section 12.4). Object
/// 0 has none.
///
/// `BadObject` where the object has no entry in data, `BadAddress` where the first byte of its property
/// table lies outside data.
#[tactic(auto, unfolding(crate::specs::Properties::name_of))]
pub fn name(memory: &Memory, object: u16) -> Result<Option<u32>, Fault>
    ensures value { result ≡ name_of memory.now object }
    ensures bound { IfOk result (λ text. IfSome text (λ address. address ≤ 65536)) }
{
    if object == 0 {
        return Ok(None);
    }
    let table = table_address(memory, object)? as u32;
    let words = memory.byte(table)?;
    Ok(if words == 0 { None } else { Some(table + 1) })
}
