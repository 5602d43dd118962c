// Rows: a fact on a line, in fields with tabs between them.

ghost use Rattle.std.specs.Prelude.{◌≡◌, ◌++◌, OnOk};
ghost use Rattle.std.specs.List.{flat_map};
ghost use Rattle.zk_facts.specs.Rows.{escaped};

use crate::members::{Group, MemberWriter, Shape, give};
use crate::outcome::Looked;
use crate::texts::characters_of;
use crate::values::{Member, Value, attributes, properties, text_of};
use std::alloc::{AllocError, Global};
use zk_mem::fault::Fault;
use zk_tables::lists::Property;

/// Adds a byte of a field: a tab, a new line and a backslash as two signs.
fn add_byte(row: &mut Vec<u8>, byte: u8) -> Result<(), AllocError>
    ensures { OnOk result (row.new.items ≡ row.old.items ++ escaped byte) }
{
    match byte {
        b'\t' => row.extend_from_slice(b"\\t"),
        b'\n' => row.extend_from_slice(b"\\n"),
        b'\\' => row.extend_from_slice(b"\\\\"),
        byte => row.extend_from_slice(&[byte]),
    }
}

/// Adds what a field has.
fn add_escaped(row: &mut Vec<u8>, text: &str) -> Result<(), AllocError>
    ensures { OnOk result (row.new.items ≡ row.old.items ++ flat_map escaped text.now) }
{
    for byte in text.as_bytes() {
        add_byte(row, *byte)?;
    }
    Ok(())
}

/// Adds numbers with commas between them, or a hyphen where there are none.
fn add_numbers(row: &mut Vec<u8>, alloc: Global, numbers: &[u16]) -> Result<(), AllocError> {
    let mut before = "";
    for number in numbers {
        add_escaped(row, format!(in alloc; "{before}{number}")?.as_str())?;
        before = ",";
    }
    if numbers.is_empty() {
        add_escaped(row, "-")?;
    }
    Ok(())
}

/// Adds properties by number and length, as `18:4,17:2`, or a hyphen where there are none.
fn add_properties(
    row: &mut Vec<u8>,
    alloc: Global,
    properties: &[Property],
) -> Result<(), AllocError> {
    let mut before = "";
    for property in properties {
        let text = format!(in alloc; "{before}{}:{}", property.number, property.length)?;
        add_escaped(row, text.as_str())?;
        before = ",";
    }
    if properties.is_empty() {
        add_escaped(row, "-")?;
    }
    Ok(())
}

/// Adds a fault, which one backslash tells from a text: it is never alone in one.
fn add_fault(row: &mut Vec<u8>, alloc: Global, fault: Fault) -> Result<(), AllocError> {
    row.push(b'\\')?;
    add_escaped(row, text_of(alloc, Value::Fault(fault))?.as_str())
}

/// Adds a tab and a field. What is no text is told apart by one backslash before it.
fn add_field(row: &mut Vec<u8>, alloc: Global, value: Value<'_>) -> Result<(), AllocError> {
    row.push(b'\t')?;
    match value {
        Value::Text(memory, text) => match characters_of(alloc, memory, text)? {
            Ok(characters) => add_escaped(row, characters.as_str()),
            Err(fault) => add_fault(row, alloc, fault),
        },
        Value::Attributes(memory, object) => {
            add_numbers(row, alloc, attributes(alloc, memory, object)?.as_slice())
        }
        Value::Properties(memory, object) => match properties(alloc, memory, object)? {
            Ok(list) => add_properties(row, alloc, list.as_slice()),
            Err(fault) => add_fault(row, alloc, fault),
        },
        Value::Fault(fault) => add_fault(row, alloc, fault),
        Value::Verdict(right) => add_escaped(row, if right { "ok" } else { "wrong" }),
        Value::Again => row.extend_from_slice(b"\\*"),
        value => add_escaped(row, text_of(alloc, value)?.as_str()),
    }
}

/// Gets a row for each fact.
#[derive(Drop)]
struct Rows<'a> {
    rows: &'a mut Vec<u8>,
    alloc: Global,
    path: &'a str,
    /// Whether a row was added.
    is_begun: bool,
}

impl MemberWriter for Rows<'_> {
    fn begin(&mut self, _group: Group) -> Result<(), AllocError> {
        Ok(())
    }

    /// Adds a row: the path, what kind of fact it is, and its fields.
    fn fact(&mut self, kind: &str, shape: Shape, members: &[Member<'_>]) -> Result<(), AllocError> {
        self.is_begun = true;
        add_escaped(self.rows, self.path)?;
        add_field(self.rows, self.alloc, Value::Words(kind))?;
        if let (Shape::Field, Some(first)) = (shape, members.first()) {
            add_field(self.rows, self.alloc, Value::Words(first.name))?;
        }
        for member in members {
            add_field(self.rows, self.alloc, member.value)?;
        }
        self.rows.push(b'\n')?;
        Ok(())
    }

    /// A story without findings has a row too, of its own kind.
    fn end(&mut self, group: Group) -> Result<(), AllocError> {
        match group {
            Group::Findings if !self.is_begun => self.fact("clean", Shape::Members, &[]),
            _ => Ok(()),
        }
    }
}

/// Adds the rows of what was looked at: one for each fact of a listing, one with `clean` where a check has found
/// nothing, or one with `refused` or `unread`.
pub fn add_rows(rows: &mut Vec<u8>, alloc: Global, looked: &Looked<'_>) -> Result<(), AllocError> {
    let mut rows = Rows {
        rows,
        alloc,
        path: looked.path,
        is_begun: false,
    };
    give(&mut rows, looked.outcome)
}
