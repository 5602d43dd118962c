// Names and places of the source, as texts.

use std::alloc::{AllocError, Global};
use zk_names::names::{Names, Place};
use zk_names::text::plain_text;
use zk_notes::pieces::{Piece, TextBuilder};

/// How a character of the source is shown: a tab as a space, and another control character as `?`.
fn shown(c: char) -> char {
    match c {
        '\t' => ' ',
        c if c.is_control() => '?',
        c => c,
    }
}

/// Adds a text of the source as it is shown.
pub(crate) fn push_shown(out: &mut TextBuilder, text: &str) {
    for c in text.chars() {
        out.character(shown(c));
    }
}

/// Adds a name of the source as it is shown.
pub(crate) fn push_name(alloc: Global, out: &mut TextBuilder, name: &[u8]) {
    match plain_text(alloc, name) {
        Ok(text) => push_shown(out, text.as_str()),
        Err(_) => out.note(true),
    }
}

/// Adds a place in the source, as `cave.inf:14`.
pub(crate) fn push_place(alloc: Global, out: &mut TextBuilder, names: &Names<'_>, place: Place) {
    match names.source(place.file) {
        Some(source) => {
            push_name(alloc, out, source.given);
            out.text(":");
        }
        None => out.text("line "),
    }
    out.pieces(&[Piece::Number(place.line as u64)]);
}

/// Adds where an address of code stands in the source: its file and line, and its routine; or where one is not known,
/// the address.
pub(crate) fn push_source(alloc: Global, out: &mut TextBuilder, names: &Names<'_>, address: u32) {
    match names.place_at(address) {
        Some(place) => push_place(alloc, out, names, place),
        None => out.pieces(&[Piece::Address(address as u64)]),
    }
    if let Some(routine) = names.routine_at(address) {
        out.text(" in ");
        push_name(alloc, out, routine.name);
    }
}

/// A name of the source as it is shown.
pub fn name_text(alloc: Global, name: &[u8]) -> Result<String, AllocError> {
    let mut out = TextBuilder::new(alloc);
    push_name(alloc, &mut out, name);
    out.finish_text()
}

/// Where an address of code stands in the source: its file and line, and its routine; or where one is not known, the
/// address.
pub fn source_text(alloc: Global, names: &Names<'_>, address: u32) -> Result<String, AllocError> {
    let mut out = TextBuilder::new(alloc);
    push_source(alloc, &mut out, names, address);
    out.finish_text()
}

/// The value of a local variable by its number, from 1.
fn value_of(values: &[u16], number: u32) -> Option<u16> {
    let index = number.checked_sub(1)?;
    values.get(index as usize).copied()
}

/// Adds local variables of the routine at an address, by their names: `n=60000, x=0`. Those without names are left out.
fn push_locals(
    alloc: Global,
    out: &mut TextBuilder,
    names: &Names<'_>,
    address: u32,
    values: &[u16],
) {
    let Some(routine) = names.routine_at(address) else {
        return;
    };
    let mut before = " (";
    for local in names.locals_of(&routine) {
        if let Some(value) = value_of(values, local.number) {
            out.text(before);
            push_name(alloc, out, local.name);
            out.pieces(&[Piece::Text("="), Piece::Number(value as u64)]);
            before = ", ";
        }
    }
    if before != " (" {
        out.text(")");
    }
}

/// Local variables of the routine at an address, by their names: ` (n=60000, x=0)`. Those without names are left out.
pub fn locals_text(
    alloc: Global,
    names: &Names<'_>,
    address: u32,
    values: &[u16],
) -> Result<String, AllocError> {
    let mut out = TextBuilder::new(alloc);
    push_locals(alloc, &mut out, names, address, values);
    out.finish_text()
}
