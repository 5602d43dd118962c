// The lines of properties with their data.

ghost use Rattle.std.specs.Prelude.{◌≡◌, ◌≤◌, ◌<◌, ◌+◌, ◌++◌, is_err, map, IsOk};
ghost use Rattle.std.specs.List.{flat_map, range_with_len};
ghost use Rattle.zk_tables.specs.Properties.{properties_of};
ghost use Rattle.zk_tables.specs.PropertyList.{properties_at, properties_from};
ghost use Rattle.zk_inspect.specs.ObjectLines.{properties_or_none};
ghost use Rattle.zk_inspect.specs.Facts.{AreNone, GaveBy};
ghost use Rattle.zk_inspect.specs.ListMarks.{AreListMarks};
ghost use Rattle.zk_inspect.specs.PropertyBytes.{ArePropertyFacts, byte_text, no_properties_line, object_properties};
ghost use Rattle.zk_inspect.specs.PropertyBytes.{properties_by, property_line};

use crate::check::property_lists::mark_lists;
use crate::fact::{Fact, FactWriter};
use crate::listing::reading::byte_after;
use crate::listing::writing::write_fault;
use crate::objects::count_objects;
use crate::reach::address_set::AddressSet;
use std::alloc::{AllocError, Global};
use zk_mem::fault::Fault;
use zk_mem::memory::Memory;
use zk_tables::lists::{Property, read_property};
use zk_tables::properties::list_address;
use zk_term::line_writer::LineWriter;
use zk_term::writing::{hex_digits_of, write_address, write_decimal};

/// Writes the byte of the story that stands so many bytes after an address.
#[tactic(auto, unfolding(crate::specs::PropertyBytes::byte_text, zk_term::specs::Numbers::byte_digits))]
fn write_byte_after<P: LineWriter>(writer: &mut P, memory: &Memory, address: u32, offset: u32)
    ensures { P.wrote writer.old writer.new (byte_text memory.now (address + offset)) }
{
    let digits = hex_digits_of(byte_after(memory, address, offset) as u32);
    writer.write(&digits[6..]);
}

/// Writes so many bytes of the story, from an address on.
fn write_bytes<P: LineWriter>(writer: &mut P, memory: &Memory, address: u32, count: u8)
    ensures { P.wrote writer.old writer.new
        (flat_map (byte_text memory.now) (range_with_len address count)) }
{
    for before in 0..count {
        write_byte_after(writer, memory, address, before as u32);
    }
}

/// Writes the line of a property of an object.
pub(crate) fn write_property<P: LineWriter>(
    writer: &mut P,
    memory: &Memory,
    object: u16,
    property: Property,
)
    ensures { P.wrote writer.old writer.new (property_line memory.now object property) }
{
    write_decimal(writer, b"", object as u32);
    write_decimal(writer, b" ", property.number as u32);
    write_address(writer, b" ", property.address);
    write_decimal(writer, b" ", property.length as u32);
    writer.write(b" ");
    write_bytes(writer, memory, property.address, property.length);
}

/// Writes why an object has no property list.
#[tactic(auto, unfolding(crate::specs::PropertyBytes::no_properties_line))]
pub(crate) fn write_no_properties<P: LineWriter>(writer: &mut P, object: u16, fault: Fault)
    ensures { P.wrote writer.old writer.new (no_properties_line object fault) }
{
    write_decimal(writer, b"", object as u32);
    writer.write(b" ");
    write_fault(writer, fault);
}

/// Gives the properties of an object from a byte address on, where there are so many at most.
fn list_properties_from<F: FactWriter>(
    memory: &Memory,
    facts: &mut F,
    object: u16,
    address: u32,
    most: u32,
)
    requires { IsOk (properties_from memory.now most address) }
    ensures { F.wrote facts.old facts.new (map (Fact.Property object)
        (properties_or_none (properties_from memory.now most address))) }
{
    let mut at = address;
    for _i in 0..most {
        match read_property(memory, at) {
            Ok(Some(property)) => {
                facts.write(Fact::Property(object, property));
                at = property.end();
            }
            Ok(None) => return,
            Err(_) => return,
        }
    }
}

/// Gives the property list of an object at a byte address.
#[tactic(auto, unfolding(zk_tables::specs::PropertyList::properties_at))]
fn list_properties_at<F: FactWriter>(memory: &Memory, facts: &mut F, object: u16, address: u32)
    requires { IsOk (properties_at memory.now address) }
    ensures { F.wrote facts.old facts.new (map (Fact.Property object)
        (properties_or_none (properties_at memory.now address))) }
{
    list_properties_from(memory, facts, object, address, memory.data_end());
}

/// Gives the properties of an object, or why its property list is none, by where such lists begin. Once nothing more is
/// taken no list is looked at.
fn list_object_properties<F: FactWriter>(
    memory: &Memory,
    lists: &AddressSet,
    facts: &mut F,
    object: u16,
)
    requires { AreListMarks memory.now lists.now }
    ensures { F.wrote facts.old facts.new (object_properties memory.now object) }
{
    memory.has_bytes();
    if facts.has_ended() {
        return;
    }
    match list_address(memory, object) {
        Ok(address) => {
            if lists.is_marked(address) {
                list_properties_at(memory, facts, object, address);
            } else {
                facts.write(Fact::NoProperties(object, Fault::BadProperty));
            }
        }
        Err(fault) => facts.write(Fact::NoProperties(object, fault)),
    }
}

/// Gives the properties of so many objects, from 1 on.
fn list_first_properties<F: FactWriter>(
    memory: &Memory,
    lists: &AddressSet,
    facts: &mut F,
    count: u16,
)
    requires { AreListMarks memory.now lists.now }
    ensures { F.wrote facts.old facts.new
        (flat_map (object_properties memory.now) (range_with_len 1 count)) }
{
    for before in 0..count {
        list_object_properties(memory, lists, facts, before + 1);
    }
}

/// Gives the properties of the objects. It gives nothing where it is refused, for lack of memory.
pub(crate) fn list_properties<F: FactWriter>(
    alloc: Global,
    memory: &Memory,
    facts: &mut F,
) -> Result<(), AllocError>
    ensures { GaveBy (is_err result) (ArePropertyFacts memory.now) AreNone F.wrote facts.old facts.new }
{
    let count = count_objects(memory);
    let lists = mark_lists(alloc, memory)?;
    list_first_properties(memory, &lists, facts, count);
    Ok(())
}
