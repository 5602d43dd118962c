// JSON (RFC 8259): an object for each story.

use crate::members::{Group, MemberWriter, Shape, give};
use crate::outcome::Looked;
use crate::texts::characters_of;
use crate::values::{Member, Value, attributes, properties, text_of};
use json::Writer;
use std::alloc::{AllocError, Global};
use zk_inspect::section::Section;
use zk_mem::fault::Fault;
use zk_tables::lists::Property;

/// The version of the form, which rises where a name or a type changes.
const FORM: u64 = 1;

/// Writes an object with a fault.
fn put_fault(json: &mut Writer, alloc: Global, fault: Fault) -> Result<(), AllocError> {
    json.begin_object()?;
    json.key("fault")?;
    json.string(text_of(alloc, Value::Fault(fault))?.as_str())?;
    json.end_object()
}

/// Writes numbers as an array.
fn put_numbers(json: &mut Writer, numbers: &[u16]) -> Result<(), AllocError> {
    json.begin_array()?;
    for number in numbers {
        json.u64(*number as u64)?;
    }
    json.end_array()
}

/// Writes properties as an array of objects, each with its number and its length.
fn put_properties(json: &mut Writer, properties: &[Property]) -> Result<(), AllocError> {
    json.begin_array()?;
    for property in properties {
        json.begin_object()?;
        json.key("number")?;
        json.u64(property.number as u64)?;
        json.key("length")?;
        json.u64(property.length as u64)?;
        json.end_object()?;
    }
    json.end_array()
}

/// Writes what a member says.
fn put_value(json: &mut Writer, alloc: Global, value: Value<'_>) -> Result<(), AllocError> {
    match value {
        Value::Number(number) => json.u64(number),
        Value::Text(memory, text) => match characters_of(alloc, memory, text)? {
            Ok(characters) => json.string(characters.as_str()),
            Err(fault) => put_fault(json, alloc, fault),
        },
        Value::Attributes(memory, object) => {
            put_numbers(json, attributes(alloc, memory, object)?.as_slice())
        }
        Value::Properties(memory, object) => match properties(alloc, memory, object)? {
            Ok(list) => put_properties(json, list.as_slice()),
            Err(fault) => put_fault(json, alloc, fault),
        },
        Value::Verdict(right) => json.boolean(right),
        Value::Again => json.boolean(true),
        Value::Unknown => Ok(()),
        Value::Words(_)
        | Value::Address(_)
        | Value::Word(_)
        | Value::Byte(_)
        | Value::Serial(_)
        | Value::Ifid(_)
        | Value::Bytes(_, _)
        | Value::Finding(_)
        | Value::Fault(_) => json.string(text_of(alloc, value)?.as_str()),
    }
}

/// Writes members with their names, but for what is not known.
fn put_members(json: &mut Writer, alloc: Global, members: &[Member<'_>]) -> Result<(), AllocError> {
    for member in members {
        match member.value {
            Value::Unknown => {}
            value => {
                json.key(member.name)?;
                put_value(json, alloc, value)?;
            }
        }
    }
    Ok(())
}

/// An object that gets a member for each section.
#[derive(Drop)]
struct Document {
    json: Writer,
    alloc: Global,
    /// Whether an array of words is open.
    words: bool,
}

impl MemberWriter for Document {
    fn begin(&mut self, group: Group) -> Result<(), AllocError> {
        self.json.key(group.name())?;
        match group {
            Group::Section(Section::Header | Section::Dictionary) => self.json.begin_object(),
            Group::Section(Section::Ifid) => Ok(()),
            _ => self.json.begin_array(),
        }
    }

    fn fact(
        &mut self,
        _kind: &str,
        shape: Shape,
        members: &[Member<'_>],
    ) -> Result<(), AllocError> {
        let json = &mut self.json;
        match shape {
            Shape::Object => {
                json.begin_object()?;
                put_members(json, self.alloc, members)?;
                json.end_object()
            }
            Shape::Members | Shape::Field => put_members(json, self.alloc, members),
            Shape::BeforeWords => {
                self.words = true;
                put_members(json, self.alloc, members)?;
                json.key("words")?;
                json.begin_array()
            }
            Shape::Whole => match members.first() {
                Some(member) => put_value(json, self.alloc, member.value),
                None => Ok(()),
            },
        }
    }

    fn end(&mut self, group: Group) -> Result<(), AllocError> {
        if self.words {
            self.words = false;
            self.json.end_array()?;
        }
        match group {
            Group::Section(Section::Header | Section::Dictionary) => self.json.end_object(),
            Group::Section(Section::Ifid) => Ok(()),
            _ => self.json.end_array(),
        }
    }
}

/// The object of what was looked at, on a line: its form, the path, and a member for each section; or `refused` or
/// `unread`.
pub fn object_about(alloc: Global, looked: &Looked<'_>) -> Result<Vec<u8>, AllocError> {
    let mut json = Writer::new(Vec::new(alloc));
    json.begin_object()?;
    json.key("form")?;
    json.u64(FORM)?;
    json.key("path")?;
    json.string(looked.path)?;
    let mut document = Document {
        json,
        alloc,
        words: false,
    };
    give(&mut document, looked.outcome)?;
    document.json.end_object()?;
    let mut line = document.json.into_inner();
    line.extend_from_slice(b"\n")?;
    Ok(line)
}
