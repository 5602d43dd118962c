// The texts that lie in a story.

ghost use Rattle.std.specs.Prelude.{◌≡◌, ◌≢◌, ◌⊎◌, ◌↔◌, ◌≤◌, ◌<◌, ◌+◌, ◌++◌, ◌/◌, ℕ, [], true, None, Some, IfOk};
ghost use Rattle.std.specs.Prelude.{IfSome, is_err, length, map};
ghost use Rattle.std.specs.List.{Contains};
ghost use Rattle.zk_mem.specs.Header.{unit_length};
ghost use Rattle.zk_mem.specs.Words.{text_end_at};
ghost use Rattle.zk_code.specs.Ends.{KnowsEnds};
ghost use Rattle.zk_inspect.specs.Facts.{AreNone, GaveBy};
ghost use Rattle.zk_inspect.specs.Lists.{IsAmong, IsListOf, IsMarked};
ghost use Rattle.zk_inspect.specs.LyingTexts.{AreTextFacts, IsAfterLast, IsNextText, IsPrintedBy, IsText, LiesText};
ghost use Rattle.zk_inspect.specs.LyingTexts.{PrintsText, packed_constant, packed_text, prints_packed, takes_packed};
ghost use Rattle.zk_inspect.specs.LyingTexts.{text_line};
ghost use Rattle.zk_term.specs.Numbers.{word_digits};

use crate::check::texts::constant_text;
use crate::fact::{Fact, FactWriter};
use crate::listing::quoting::write_quoted;
use crate::reach::address_set::{AddressSet, unmarked};
use crate::reach::code::{Addresses, Code};
use crate::whole::find_whole;
use std::alloc::{AllocError, Global};
use zk_code::decode::decode_by;
use zk_code::ends::TextEnds;
use zk_code::extent::{extent, next_packed};
use zk_code::instr::Instr;
use zk_code::opcode::{Opcode, Printing};
use zk_code::routines::code_start;
use zk_mem::header::unpack;
use zk_mem::memory::Memory;
use zk_term::line_writer::LineWriter;
use zk_term::writing::{hex_digits_of, write_address, write_texts};

/// The byte address of the text that an instruction prints by a packed address, where that is a constant.
#[tactic(auto, unfolding(crate::specs::LyingTexts::packed_text))]
fn packed_text(memory: &Memory, instr: &Instr) -> Option<u32>
    ensures { result ≡ packed_text memory.now instr.now }
{
    match instr.opcode {
        Opcode::Printing(Printing::PrintPaddr) => constant_text(memory, instr),
        _ => None,
    }
}

/// Marks an address where a text stands.
fn mark_text(marks: &mut AddressSet, memory: &Memory, ends: &TextEnds, address: u32)
    requires ends { KnowsEnds memory.now ends.now }
    requires size { length marks.old ≡ length memory.now.bytes }
    ensures size { length marks.new ≡ length marks.old }
    ensures exact { (t : ℕ) → IsMarked marks.new t
        ↔ (IsMarked marks.old t ⊎ ((t ≡ address) × IsText memory.now t)) }
{
    if let Some(_end) = ends.text_end(memory, address) {
        marks.mark(address);
    }
}

/// Marks the text that the instruction at an address prints by a packed address, where there is one.
fn mark_printed(marks: &mut AddressSet, memory: &Memory, ends: &TextEnds, address: u32)
    requires ends { KnowsEnds memory.now ends.now }
    requires size { length marks.old ≡ length memory.now.bytes }
    ensures size { length marks.new ≡ length marks.old }
    ensures exact { (t : ℕ) → IsMarked marks.new t
        ↔ (IsMarked marks.old t ⊎ (PrintsText memory.now address t × IsText memory.now t)) }
{
    let Ok(instr) = decode_by(memory, ends, address) else {
        return;
    };
    if let Some(text) = packed_text(memory, &instr) {
        mark_text(marks, memory, ends, text);
    }
}

/// Marks the texts that code prints by packed addresses.
fn mark_all_printed(marks: &mut AddressSet, memory: &Memory, ends: &TextEnds, code: &[u32])
    requires ends { KnowsEnds memory.now ends.now }
    requires size { length marks.old ≡ length memory.now.bytes }
    ensures size { length marks.new ≡ length marks.old }
    ensures exact { (t : ℕ) → IsMarked marks.new t
        ↔ (IsMarked marks.old t ⊎ (IsPrintedBy memory.now code.now t × IsText memory.now t)) }
{
    for address in code {
        mark_printed(marks, memory, ends, *address);
    }
}

/// The least packed address at or after the end of the last of some routines.
fn after_last(memory: &Memory, ends: &TextEnds, routines: &[u32]) -> Option<u32>
    requires { KnowsEnds memory.now ends.now }
    ensures found { IfSome result (IsAfterLast memory.now routines.now) }
    ensures only { (t : ℕ) → IsAfterLast memory.now routines.now t → result ≡ Some t }
{
    if routines.is_empty() {
        return None;
    }
    let Some(start) = code_start(memory, routines[routines.len() - 1]) else {
        return None;
    };
    match extent(memory, ends, start) {
        Some(end) => Some(next_packed(memory, end)),
        None => None,
    }
}

/// Marks the text at the least packed address at or after the end of the last of some routines.
fn mark_after_last(marks: &mut AddressSet, memory: &Memory, ends: &TextEnds, routines: &[u32])
    requires ends { KnowsEnds memory.now ends.now }
    requires size { length marks.old ≡ length memory.now.bytes }
    ensures size { length marks.new ≡ length marks.old }
    ensures exact { (t : ℕ) → IsMarked marks.new t
        ↔ (IsMarked marks.old t ⊎ (IsAfterLast memory.now routines.now t × IsText memory.now t)) }
{
    if let Some(address) = after_last(memory, ends, routines) {
        mark_text(marks, memory, ends, address);
    }
}

/// Marks the text that stands at the least packed address at or after the end of the one at an address.
fn mark_next_text(marks: &mut AddressSet, memory: &Memory, ends: &TextEnds, address: u32)
    requires ends { KnowsEnds memory.now ends.now }
    requires size { length marks.old ≡ length memory.now.bytes }
    ensures size { length marks.new ≡ length marks.old }
    ensures exact { (t : ℕ) → IsMarked marks.new t
        ↔ (IsMarked marks.old t ⊎ IsNextText memory.now address t) }
{
    // a text ends in the story
    memory.len();
    if let Some(end) = ends.text_end(memory, address) {
        mark_text(marks, memory, ends, next_packed(memory, end));
    }
}

/// Marks, with each text that is marked, the one after it.
fn mark_all_next_texts(marks: &mut AddressSet, memory: &Memory, ends: &TextEnds)
    requires ends { KnowsEnds memory.now ends.now }
    requires size { length marks.old ≡ length memory.now.bytes }
    ensures size { length marks.new ≡ length marks.old }
    ensures exact { (t : ℕ) → IsMarked marks.new t
        ↔ IsAmong (IsMarked marks.old) (IsNextText memory.now) t }
{
    for address in 0..memory.len() {
        if marks.has(address) {
            mark_next_text(marks, memory, ends, address);
        }
    }
}

/// The texts that lie in a story with some code, ascending: those that the code prints by packed addresses that are
/// constants, the one after its last routine, and with each text the one after it; a text after another begins at the
/// least packed address at or after its end (Z-Machine Standards Document 1.1, sections 1.2.3, 3.2 and 15). That a text
/// lies there says nothing about runs.
///
/// Refused for lack of memory alone.
pub fn find_texts(alloc: Global, memory: &Memory, code: &Code) -> Result<Addresses, AllocError>
    ensures { IfOk result (IsListOf (LiesText memory.now code.now)) }
{
    let ends = TextEnds::find(alloc, memory)?;
    let mut marks = unmarked(alloc, memory.len())?;
    mark_all_printed(&mut marks, memory, &ends, code.addresses.as_slice());
    mark_after_last(&mut marks, memory, &ends, code.routines.as_slice());
    mark_all_next_texts(&mut marks, memory, &ends);
    marks.list(alloc)
}

/// The packed address that stands for a byte address, or for the one below it that has one (Standard, section 1.2.3).
#[tactic(auto, unfolding(zk_mem::specs::Header::unit_length))]
pub fn packed(memory: &Memory, address: u32) -> u32
    ensures { result ≡ address / unit_length memory.now.version }
{
    address / unpack(memory.version(), 1)
}

/// Writes the packed address of a byte address.
#[tactic(auto, unfolding(crate::specs::LyingTexts::packed_constant, zk_term::specs::Numbers::word_digits))]
fn write_packed<P: LineWriter>(writer: &mut P, memory: &Memory, address: u32)
    ensures { P.wrote writer.old writer.new (packed_constant memory.now address) }
{
    let digits = hex_digits_of(packed(memory, address));
    let shown = &digits[4..];
    write_texts(writer, &[b"#", shown]);
}

/// Writes the line of a text: its byte address, its packed address as a constant, and what it prints, between quotes,
/// or `!` and the fault where it prints nothing.
pub(crate) fn write_text_line<P: LineWriter>(writer: &mut P, memory: &Memory, address: u32)
    ensures { P.wrote writer.old writer.new (text_line memory.now address) }
{
    write_address(writer, b"", address);
    writer.write(b" ");
    write_packed(writer, memory, address);
    writer.write(b" ");
    write_quoted(writer, memory, address);
}

/// Gives texts.
fn list_each_text<F: FactWriter>(facts: &mut F, addresses: &[u32])
    ensures { F.wrote facts.old facts.new (map Fact.Text addresses.now) }
{
    for address in addresses {
        facts.write(Fact::Text(*address));
    }
}

/// Gives the texts that lie in a story. It gives nothing where it is refused, for lack of memory.
pub(crate) fn list_texts<F: FactWriter>(
    alloc: Global,
    memory: &Memory,
    facts: &mut F,
) -> Result<(), AllocError>
    ensures { GaveBy (is_err result) (AreTextFacts memory.now) AreNone F.wrote facts.old facts.new }
{
    let whole = find_whole(alloc, memory, &[], &[])?;
    let texts = find_texts(alloc, memory, &whole.code)?;
    list_each_text(facts, texts.as_slice());
    Ok(())
}
