// The names that a story has itself, in the form of Inform's debugging information.

ghost use Rattle.std.specs.Prelude.{◌≡◌, ◌≤◌, ◌+◌, ◌-◌, IfOk, string_bytes, take};
ghost use Rattle.std.specs.List.{flat_map, range_with_len};
ghost use Rattle.base64.specs.Engines.{standard};
ghost use Rattle.base64.specs.GeneralPurpose.{encode_of};
ghost use Rattle.zk_inform.specs.Documents.{IsNamesDocument, attribute_item, document_text, element, end_text};
ghost use Rattle.zk_inform.specs.Documents.{head_text};
ghost use Rattle.zk_inform.specs.Documents.{item, object_item, property_item, start_text, table_items};
ghost use Rattle.zk_inform.specs.Tables.{attribute_count, names_table};

use crate::bytes::Bytes;
use crate::last::count_objects;
use crate::markup::write_text;
use crate::naming::{Naming, object_naming};
use crate::table::{Table, attribute_count, names_table};
use base64::engine::general_purpose::STANDARD;
use std::alloc::{AllocError, Global};
use zk_mem::memory::Memory;
use zk_term::line_writer::LineWriter;
use zk_term::writing::{write_decimal, write_texts};

/// Writes what stands before the name of a thing of a kind.
fn write_start<P: LineWriter>(writer: &mut P, kind: &[u8])
    ensures { P.wrote writer.old writer.new (start_text kind.now) }
{
    write_texts(writer, &[b"<", kind, b"><identifier>\""]);
}

/// Writes what stands behind the number of a thing of a kind.
fn write_end<P: LineWriter>(writer: &mut P, kind: &[u8])
    ensures { P.wrote writer.old writer.new (end_text kind.now) }
{
    write_texts(writer, &[b"</value></", kind, b">"]);
}

/// Writes the name of a thing of a kind, by the byte address of its text, with quotation marks, and the number of the
/// thing.
fn write_element<P: LineWriter>(
    writer: &mut P,
    memory: &Memory,
    kind: &[u8],
    number: u32,
    address: u32,
)
    ensures { P.wrote writer.old writer.new (element memory.now kind.now number address) }
{
    write_start(writer, kind);
    write_text(writer, memory, address);
    write_decimal(writer, b"\"</identifier><value>", number);
    write_end(writer, kind);
}

/// Writes the name of a thing of a kind and a number, where there is one.
fn write_item<P: LineWriter>(
    writer: &mut P,
    memory: &Memory,
    kind: &[u8],
    number: u32,
    naming: Naming,
)
    ensures { P.wrote writer.old writer.new (item memory.now kind.now number naming) }
{
    match naming {
        Naming::Named(address) => write_element(writer, memory, kind, number, address),
        Naming::Unnamed => writer.write(b""),
        Naming::Wrong => writer.write(b""),
    }
}

/// Writes the short name of an object, where it has one.
fn write_object<P: LineWriter>(writer: &mut P, memory: &Memory, object: u16)
    ensures { P.wrote writer.old writer.new (object_item memory.now object) }
{
    let naming = object_naming(memory, object);
    write_item(writer, memory, b"object", object as u32, naming);
}

/// Writes the short names of so many objects, from 1 on.
fn write_objects<P: LineWriter>(writer: &mut P, memory: &Memory, objects: u16)
    ensures { P.wrote writer.old writer.new
        (flat_map (object_item memory.now) (range_with_len 1 objects)) }
{
    for before in 0..objects {
        write_object(writer, memory, before + 1);
    }
}

/// Writes the name of a property in a table, where it has one.
fn write_property<P: LineWriter>(writer: &mut P, memory: &Memory, table: Table, property: u16)
    requires { table.address ≤ 1000000 }
    ensures { P.wrote writer.old writer.new (property_item memory.now table property) }
{
    let naming = table.entry_at(memory, property);
    write_item(writer, memory, b"property", property as u32, naming);
}

/// Writes the names of the properties in a table.
fn write_properties<P: LineWriter>(writer: &mut P, memory: &Memory, table: Table)
    requires address { table.address ≤ 1000000 }
    requires count { 1 ≤ table.count }
    ensures { P.wrote writer.old writer.new
        (flat_map (property_item memory.now table) (range_with_len 1 (table.count - 1))) }
{
    for before in 0..table.count - 1 {
        write_property(writer, memory, table, before + 1);
    }
}

/// Writes the name of an attribute in a table, where it has one.
fn write_attribute<P: LineWriter>(writer: &mut P, memory: &Memory, table: Table, attribute: u16)
    requires address { table.address ≤ 1000000 }
    requires count { table.count + attribute ≤ 65535 }
    ensures { P.wrote writer.old writer.new (attribute_item memory.now table attribute) }
{
    let naming = table.entry_at(memory, table.count + attribute);
    write_item(writer, memory, b"attribute", attribute as u32, naming);
}

/// Writes the names of the attributes in a table.
fn write_attributes<P: LineWriter>(writer: &mut P, memory: &Memory, table: Table)
    requires address { table.address ≤ 1000000 }
    requires count { table.count ≤ 4096 }
    ensures { P.wrote writer.old writer.new
        (flat_map (attribute_item memory.now table) (range_with_len 0 (attribute_count memory.now))) }
{
    for attribute in 0..attribute_count(memory) {
        write_attribute(writer, memory, table, attribute);
    }
}

/// Writes the identifier names of a story of so many objects, where Inform left them.
fn write_table<P: LineWriter>(writer: &mut P, memory: &Memory, objects: u16)
    ensures { P.wrote writer.old writer.new (table_items memory.now (names_table memory.now objects)) }
{
    match names_table(memory, objects) {
        Some(table) => {
            write_properties(writer, memory, table);
            write_attributes(writer, memory, table);
        }
        None => writer.write(b""),
    }
}

/// Writes what a document has before its items, with the first bytes of the story in base 64.
fn write_head<P: LineWriter>(writer: &mut P, prefix: &[u8])
    ensures { P.wrote writer.old writer.new (head_text prefix.now) }
{
    write_texts(
        writer,
        &[
            b"<?xml version=\"1.0\" encoding=\"UTF-8\"?><inform-story-file version=\"1.0\" ",
            b"content-creator=\"Inform\" content-creator-version=\"zkit\"><story-file-prefix>",
            prefix,
            b"</story-file-prefix>",
        ],
    );
}

/// Writes the document.
fn write_document<P: LineWriter>(writer: &mut P, memory: &Memory, prefix: &[u8], objects: u16)
    ensures { P.wrote writer.old writer.new (document_text memory.now prefix.now objects) }
{
    write_head(writer, prefix);
    write_objects(writer, memory, objects);
    write_table(writer, memory, objects);
    writer.write(b"</inform-story-file>");
}

/// So many bytes of a file, or as many as there are.
fn first_bytes(file: &[u8], count: usize) -> &[u8]
    ensures { result.now ≡ take count file.now }
{
    &file[..count.min(file.len())]
}

/// The first 64 bytes of a story's file in base 64.
fn prefix_of(alloc: Global, memory: &Memory) -> Result<String, AllocError>
    ensures { IfOk result (λ t. string_bytes t ≡ encode_of standard (take 64 memory.now.file)) }
{
    STANDARD.encode(alloc, first_bytes(memory.original(), 64))
}

/// The names that a story has itself, in the form of Inform's debugging information (XML, version 1.0), in UTF-8, so
/// that what reads a debugging file reads them:
///
/// - of each object that is listed, its short name (Z-Machine Standards Document 1.1, section 12.4), where it is not
///   empty, its text has a meaning, and no more than 255 words are walked for it;
/// - of each property and attribute, the name that Inform 6 leaves in a story, where the header has the compiler's
///   version (appendix B) and all that stands in the table of these names is what Inform would leave there.
///
/// Each identifier stands in quotation marks, since it is none of the source. There are no places in the source, no
/// routines and no variables.
///
/// Refused for lack of memory alone.
pub fn names_document(alloc: Global, memory: &Memory) -> Result<Vec<u8>, AllocError>
    ensures { IfOk result (λ v. IsNamesDocument memory.now v.items) }
{
    let objects = count_objects(alloc, memory)?;
    let prefix = prefix_of(alloc, memory)?;
    let mut out = Bytes::new(alloc);
    write_document(&mut out, memory, prefix.as_bytes(), objects);
    out.finish()
}
