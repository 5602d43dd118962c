// The texts of a listing: those that instructions print themselves, and those that lie apart from code.

ghost use Rattle.std.specs.Prelude.{◌≡◌, ◌++◌, IfOk, OnOk, map, option_to_list};
ghost use Rattle.zk_code.specs.Reading.{instr_at};
ghost use Rattle.zk_notes.specs.ListedTexts.{text_at, text_of, texts_in};

use crate::lines::Lines;
use std::alloc::{AllocError, Global};
use zk_code::decode::decode;
use zk_facts::outcome::Facts;
use zk_inspect::fact::Fact;
use zk_inspect::plain_text::write_fact;
use zk_mem::memory::Memory;

/// A text of a listing.
#[derive(Drop)]
pub struct ListedText {
    /// The byte address of the instruction that prints it, or of the text, where it lies apart from code.
    pub address: u32,
    /// The text as it is listed, in quotation marks.
    pub shown: Vec<u8>,
}

/// The address of an instruction, where it has a text in it.
fn text_at(memory: &Memory, address: u32) -> Option<u32>
    ensures { result ≡ text_at address (instr_at memory.now address) }
{
    match decode(memory, address) {
        Ok(instr) if instr.text.is_some() => Some(address),
        _ => None,
    }
}

/// The address of what has a text.
fn text_of(memory: &Memory, fact: Fact) -> Option<u32>
    ensures { result ≡ text_of memory.now fact }
{
    match fact {
        Fact::Instruction(address) => text_at(memory, address),
        Fact::Text(address) => Some(address),
        _ => None,
    }
}

/// A text as its line has it: from the first quotation mark on.
fn shown(alloc: Global, memory: &Memory, fact: Fact) -> Result<Vec<u8>, AllocError> {
    let mut out = Lines::new(alloc);
    write_fact(&mut out, memory, false, fact);
    let line = out.finish()?;
    let start = line.iter().position(|byte| *byte == b'"').unwrap_or(0);
    Vec::from_slice(alloc, line.as_slice().get(start..).unwrap_or(&[]))
}

/// Adds the text of what is listed, where it has one.
fn push_text(
    alloc: Global,
    texts: &mut Vec<ListedText>,
    memory: &Memory,
    fact: Fact,
) -> Result<(), AllocError>
    ensures { OnOk result (map (λ t. t.address) texts.new.items
        ≡ map (λ t. t.address) texts.old.items ++ option_to_list (text_of memory.now fact)) }
{
    let Some(address) = text_of(memory, fact) else {
        return Ok(());
    };
    let shown = shown(alloc, memory, fact)?;
    texts.push(ListedText { address, shown })?;
    Ok(())
}

/// The texts of a listing, in its order: those in its instructions, and those that lie apart from code.
pub fn texts_in(alloc: Global, facts: &Facts<'_>) -> Result<Vec<ListedText>, AllocError>
    ensures { IfOk result (λ v. map (λ t. t.address) v.items
        ≡ texts_in facts.now.memory.now facts.now.list.now) }
{
    let mut texts = Vec::new(alloc);
    for fact in facts.list {
        push_text(alloc, &mut texts, facts.memory, *fact)?;
    }
    Ok(texts)
}
