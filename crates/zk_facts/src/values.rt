// What the members of facts say.

use crate::texts::Text;
use std::alloc::{AllocError, Global};
use std::fmt::Write;
use zk_inspect::check::finding::Number;
use zk_inspect::listing::header_lines::shown_serial;
use zk_inspect::listing::ifid_line::write_ifid;
use zk_inspect::listing::object_lines::attributes_of;
use zk_mem::fault::Fault;
use zk_mem::memory::Memory;
use zk_tables::lists::{Property, read_property};
use zk_tables::properties::{check_properties, list_address};
use zk_term::io_device::IoDevice;
use zk_term::line_writer::TargetWriter;
use zk_term::target::Failed;

/// What a member of a fact says.
#[derive(Clone, Copy, Drop)]
pub(crate) enum Value<'a> {
    /// Words.
    Words(&'a str),
    /// A number.
    Number(u64),
    /// A byte address.
    Address(u32),
    /// A word of memory.
    Word(u16),
    /// A byte of memory.
    Byte(u8),
    /// The serial number.
    Serial([u8; 6]),
    /// What catalogues name a story by.
    Ifid(&'a Memory),
    /// The bytes of a property.
    Bytes(&'a Memory, Property),
    /// The kind of a finding.
    Finding(Number),
    Text(&'a Memory, Text),
    Fault(Fault),
    /// The attributes of an object.
    Attributes(&'a Memory, u16),
    /// The properties of an object.
    Properties(&'a Memory, u16),
    /// Whether the checksum is right.
    Verdict(bool),
    /// An object that was listed before.
    Again,
    /// Not known.
    Unknown,
}

/// A member of a fact.
#[derive(Clone, Copy, Drop)]
pub(crate) struct Member<'a> {
    pub name: &'static str,
    pub value: Value<'a>,
}

/// The bytes of a property, by two digits each.
fn bytes_of(alloc: Global, memory: &Memory, property: Property) -> Result<String, AllocError> {
    let mut text = String::new(alloc);
    for before in 0..property.length {
        let address = property.address.saturating_add(before as u32);
        let byte = memory.cell(address).unwrap_or(0);
        write!(text, "{byte:02x}")?;
    }
    Ok(text)
}

/// What catalogues name the story by.
fn ifid_of(alloc: Global, memory: &Memory) -> Result<String, AllocError> {
    let mut bytes = IoDevice::new(Vec::new(alloc));
    let mut writer = TargetWriter::new(&mut bytes);
    write_ifid(&mut writer, memory);
    match writer.finish() {
        Ok(()) => {}
        Err(Failed) => return Err(AllocError),
    }
    let mut text = String::new(alloc);
    for byte in &bytes.into_inner() {
        text.push(*byte as char)?;
    }
    Ok(text)
}

/// A serial number as it is shown.
fn serial_of(alloc: Global, serial: [u8; 6]) -> Result<String, AllocError> {
    let mut text = String::new(alloc);
    for byte in &shown_serial(serial) {
        text.push(*byte as char)?;
    }
    Ok(text)
}

/// The text of a value that is told as a text; nothing for another one.
pub(crate) fn text_of(alloc: Global, value: Value<'_>) -> Result<String, AllocError> {
    match value {
        Value::Words(words) => format!(in alloc; "{words}"),
        Value::Number(number) => format!(in alloc; "{number}"),
        Value::Address(address) => format!(in alloc; "{address:05x}"),
        Value::Word(word) => format!(in alloc; "{word:04x}"),
        Value::Byte(byte) => format!(in alloc; "{byte:02x}"),
        Value::Serial(serial) => serial_of(alloc, serial),
        Value::Ifid(memory) => ifid_of(alloc, memory),
        Value::Bytes(memory, property) => bytes_of(alloc, memory, property),
        Value::Finding(number) => format!(in alloc; "C{}", number.number()),
        Value::Fault(fault) => format!(in alloc; "F{}", fault.number()),
        Value::Text(_, _)
        | Value::Attributes(_, _)
        | Value::Properties(_, _)
        | Value::Verdict(_)
        | Value::Again
        | Value::Unknown => Ok(String::new(alloc)),
    }
}

/// The attributes of an object, by their numbers.
pub(crate) fn attributes(
    alloc: Global,
    memory: &Memory,
    object: u16,
) -> Result<Vec<u16>, AllocError> {
    let mut numbers = Vec::new(alloc);
    numbers.extend_from_slice(attributes_of(memory, object).as_slice())?;
    Ok(numbers)
}

/// The properties of an object, or why there is no list of them.
pub(crate) fn properties(
    alloc: Global,
    memory: &Memory,
    object: u16,
) -> Result<Result<Vec<Property>, Fault>, AllocError> {
    let mut list = Vec::new(alloc);
    let mut at = match list_address(memory, object) {
        Ok(address) => address,
        Err(fault) => return Ok(Err(fault)),
    };
    match check_properties(memory, object) {
        Ok(()) => {}
        Err(fault) => return Ok(Err(fault)),
    }
    // a list that ends has no more properties than bytes
    for _property in 0..memory.data_end() {
        match read_property(memory, at) {
            Ok(Some(property)) => {
                list.push(property)?;
                at = property.end();
            }
            Ok(None) | Err(_) => break,
        }
    }
    Ok(Ok(list))
}
