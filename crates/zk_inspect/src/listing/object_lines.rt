// The lines of objects.

ghost use Rattle.std.specs.Prelude.{◌≡◌, ◌≤◌, ◌<◌, ◌+◌, ◌++◌, ◌∷◌, [], codes, decimal, length, map, IsOk};
ghost use Rattle.std.specs.Prelude.{if◌then◌else◌};
ghost use Rattle.std.specs.List.{flat_map, range_with_len};
ghost use Rattle.zk_tables.specs.Attributes.{attribute_at};
ghost use Rattle.zk_tables.specs.Links.{link_at, parent_of, sibling_of, child_of};
ghost use Rattle.zk_tables.specs.Properties.{name_of, properties_of};
ghost use Rattle.zk_tables.specs.PropertyList.{properties_at, properties_from};
ghost use Rattle.zk_inspect.specs.Facts.{GaveSome};
ghost use Rattle.zk_inspect.specs.ObjectLines.{AreObjectFacts, attributes_of, is_set, label_text, links_text};
ghost use Rattle.zk_inspect.specs.ObjectLines.{name_text, number_or_none, object_line, properties_or_none};
ghost use Rattle.zk_inspect.specs.ObjectLines.{properties_text, property_text, separated};

use crate::fact::{Fact, FactWriter};
use crate::listing::quoting::write_quoted;
use crate::objects::count_objects;
use arrayvec::ArrayVec;
use itoa::Buffer;
use zk_mem::fault::Fault;
use zk_mem::memory::Memory;
use zk_tables::attributes::attribute;
use zk_tables::lists::{Property, read_property};
use zk_tables::properties::{check_properties, list_address, name};
use zk_tables::tree::{child, parent, sibling};
use zk_term::line_writer::LineWriter;
use zk_term::writing::{write_decimal, write_texts};

/// Writes the name of an object: nothing between quotes where it has none.
#[tactic(auto, unfolding(crate::specs::ObjectLines::name_text))]
pub(crate) fn write_name<P: LineWriter>(writer: &mut P, memory: &Memory, object: u16)
    ensures { P.wrote writer.old writer.new (name_text memory.now (name_of memory.now object)) }
{
    match name(memory, object) {
        Ok(Some(address)) => write_quoted(writer, memory, address),
        Ok(None) => writer.write(b"\"\""),
        Err(_) => writer.write(b"\"\""),
    }
}

/// Writes the number and the name of an object.
pub(crate) fn write_label<P: LineWriter>(writer: &mut P, memory: &Memory, object: u16)
    ensures { P.wrote writer.old writer.new (label_text memory.now object) }
{
    write_decimal(writer, b"", object as u32);
    writer.write(b" ");
    write_name(writer, memory, object);
}

/// The object that a link names, or 0.
pub fn number_or_none(link: Result<u16, Fault>) -> u16
    ensures { result ≡ number_or_none link }
{
    match link {
        Ok(object) => object,
        Err(_) => 0,
    }
}

/// Writes the links of an object.
#[tactic(auto, unfolding(crate::specs::ObjectLines::links_text))]
fn write_links<P: LineWriter>(writer: &mut P, memory: &Memory, object: u16)
    ensures { P.wrote writer.old writer.new (links_text memory.now object) }
{
    let mut parents = Buffer::new();
    let mut siblings = Buffer::new();
    let mut children = Buffer::new();
    let parent = parents.format(number_or_none(parent(memory, object)));
    let sibling = siblings.format(number_or_none(sibling(memory, object)));
    let child = children.format(number_or_none(child(memory, object)));
    write_texts(
        writer,
        &[
            b" parent ",
            parent.as_bytes(),
            b" sibling ",
            sibling.as_bytes(),
            b" child ",
            child.as_bytes(),
        ],
    );
}

/// Whether an object has an attribute.
fn has_attribute(memory: &Memory, object: u16, number: u16) -> bool
    ensures { result ≡ is_set (attribute_at memory.now object number) }
{
    match attribute(memory, object, number) {
        Ok(set) => set,
        Err(_) => false,
    }
}

/// Adds a number to a list where it is to be kept.
fn keep(numbers: &mut ArrayVec<u16, 48>, number: u16, kept: bool)
    requires { length numbers.old.items < 48 }
    ensures items { numbers.new.items ≡ numbers.old.items ++ (if kept then number ∷ [] else []) }
    ensures few { length numbers.new.items ≤ length numbers.old.items + 1 }
{
    if kept {
        numbers.push(number);
    }
}

/// The attributes of an object that are set, by their numbers, of the 48 that there may be (Standard, section 12.3).
pub fn attributes_of(memory: &Memory, object: u16) -> ArrayVec<u16, 48>
    ensures { result.items ≡ attributes_of memory.now object }
{
    let mut attributes = ArrayVec::new();
    for number in 0..48 {
        let set = has_attribute(memory, object, number);
        keep(&mut attributes, number, set);
    }
    attributes
}

/// Writes numbers, each after a comma.
fn write_further_numbers<P: LineWriter>(writer: &mut P, numbers: &[u16])
    ensures { P.wrote writer.old writer.new (flat_map (λ n. codes "," ++ decimal n) numbers.now) }
{
    for number in numbers {
        write_decimal(writer, b",", *number as u32);
    }
}

/// Writes numbers with commas between them, or a hyphen where there are none.
fn write_numbers<P: LineWriter>(writer: &mut P, numbers: &[u16])
    ensures { P.wrote writer.old writer.new (separated decimal numbers.now) }
{
    let [first, rest @ ..] = numbers else {
        return writer.write(b"-");
    };
    write_decimal(writer, b"", *first as u32);
    write_further_numbers(writer, rest);
}

/// Writes the attributes of an object.
fn write_attributes<P: LineWriter>(writer: &mut P, memory: &Memory, object: u16)
    ensures { P.wrote writer.old writer.new (separated decimal (attributes_of memory.now object)) }
{
    let attributes = attributes_of(memory, object);
    write_numbers(writer, attributes.as_slice());
}

/// Writes a property after a text: its number, and the length of its data.
#[tactic(auto, unfolding(crate::specs::ObjectLines::property_text))]
fn write_property<P: LineWriter>(writer: &mut P, before: &[u8], property: Property)
    ensures { P.wrote writer.old writer.new (before.now ++ property_text property) }
{
    let mut numbers = Buffer::new();
    let mut lengths = Buffer::new();
    let number = numbers.format(property.number);
    let length = lengths.format(property.length);
    write_texts(
        writer,
        &[before, number.as_bytes(), b":", length.as_bytes()],
    );
}

/// Writes the properties from a byte address on, each after a comma, where there are so many at most.
fn write_further_properties<P: LineWriter>(writer: &mut P, memory: &Memory, address: u32, most: u32)
    requires { IsOk (properties_from memory.now most address) }
    ensures { P.wrote writer.old writer.new
        (flat_map (λ p. codes "," ++ property_text p)
        (properties_or_none (properties_from memory.now most address))) }
{
    let mut at = address;
    for _i in 0..most {
        match read_property(memory, at) {
            Ok(Some(property)) => {
                write_property(writer, b",", property);
                at = property.end();
            }
            Ok(None) => return,
            Err(_) => return,
        }
    }
}

/// Writes the property list at a byte address, with commas between properties, or a hyphen where there are none.
fn write_property_list<P: LineWriter>(writer: &mut P, memory: &Memory, address: u32)
    requires { IsOk (properties_at memory.now address) }
    ensures { P.wrote writer.old writer.new
        (separated property_text (properties_or_none (properties_at memory.now address))) }
{
    match read_property(memory, address) {
        Ok(Some(property)) => {
            write_property(writer, b"", property);
            write_further_properties(writer, memory, property.end(), memory.data_end() - 1);
        }
        Ok(None) => writer.write(b"-"),
        Err(_) => writer.write(b"-"),
    }
}

/// Writes the properties of an object, or why its property list is none.
fn write_properties<P: LineWriter>(writer: &mut P, memory: &Memory, object: u16)
    ensures { P.wrote writer.old writer.new (properties_text (properties_of memory.now object)) }
{
    match list_address(memory, object) {
        Ok(address) => match check_properties(memory, object) {
            Ok(()) => write_property_list(writer, memory, address),
            Err(fault) => write_decimal(writer, b"! F", fault.number() as u32),
        },
        Err(fault) => write_decimal(writer, b"! F", fault.number() as u32),
    }
}

/// Writes the line of an object.
pub(crate) fn write_object<P: LineWriter>(writer: &mut P, memory: &Memory, object: u16)
    ensures { P.wrote writer.old writer.new (object_line memory.now object) }
{
    write_label(writer, memory, object);
    write_links(writer, memory, object);
    writer.write(b" attributes ");
    write_attributes(writer, memory, object);
    writer.write(b" properties ");
    write_properties(writer, memory, object);
}

/// Gives so many objects, from 1 on.
fn list_first_objects<F: FactWriter>(facts: &mut F, count: u16)
    ensures { F.wrote facts.old facts.new (map Fact.Object (range_with_len 1 count)) }
{
    for before in 0..count {
        facts.write(Fact::Object(before + 1));
    }
}

/// Gives the objects.
pub(crate) fn list_objects<F: FactWriter>(memory: &Memory, facts: &mut F)
    ensures { GaveSome (AreObjectFacts memory.now) F.wrote facts.old facts.new }
{
    let count = count_objects(memory);
    list_first_objects(facts, count);
}
