// The texts of a story that are known to be texts.

ghost use Rattle.std.specs.Prelude.{◌≡◌, ◌≢◌, ◌≤◌, ◌<◌, ◌*◌, ◌+◌, ◌↔◌, ℕ, IfOk, IfSome, Some, length};
ghost use Rattle.zk_mem.specs.Header.{header_of};
ghost use Rattle.zk_code.specs.Ends.{KnowsEnds};
ghost use Rattle.zk_code.specs.Grammar.{IsInstruction};
ghost use Rattle.zk_code.specs.Reach.{IsReached};
ghost use Rattle.zk_inspect.specs.Codes.{IsCodeOf};
ghost use Rattle.zk_inspect.specs.ObjectTests.{IsCounted};
ghost use Rattle.zk_inspect.specs.Texts.{IsPrinted, addressed_by, constant_text, text_named};
ghost use Rattle.zk_inspect.specs.TextTests.{AreTableMarks, AreTextMarks, IsTableMarks, IsTextMarks, Keeps};
ghost use Rattle.zk_inspect.specs.TextTests.{NamesMarked, TextsMarked, is_marked};
ghost use Rattle.zk_inspect.specs.Lists.{IsMarked};

use crate::reach::address_set::{AddressSet, unmarked};
use crate::reach::code::Code;
use std::alloc::{AllocError, Global};
use zk_code::decode::decode_by;
use zk_code::ends::TextEnds;
use zk_code::instr::Instr;
use zk_code::opcode::{Opcode, Printing};
use zk_code::ways::first_constant;
use zk_mem::header::unpack;
use zk_mem::memory::Memory;
use zk_tables::properties::name;

/// No text is looked for at or above this address: the highest packed address is eight times 65,535, and no story has
/// more bytes.
pub(crate) const TEXTS_END: u32 = 524_289;

/// No abbreviation is looked for at or above this address: the highest word address is twice 65,535. Nor has the table
/// of abbreviations a word there.
const ABBREVIATIONS_END: u32 = 131_071;

/// The byte address of the text that an operation prints by a constant.
fn addressed_by(memory: &Memory, operation: Printing, operand: Option<u16>) -> Option<u32>
    ensures value { result ≡ addressed_by memory.now operation operand }
    ensures near { IfSome result (λ a. a ≤ 8 * 65535) }
{
    match operand {
        None => None,
        Some(value) => match operation {
            Printing::PrintAddr => Some(value as u32),
            Printing::PrintPaddr => Some(unpack(memory.version(), value)),
            _ => None,
        },
    }
}

/// The byte address of the text that an instruction prints by a constant.
#[tactic(auto, unfolding(crate::specs::Texts::constant_text))]
pub(crate) fn constant_text(memory: &Memory, instr: &Instr) -> Option<u32>
    ensures value { result ≡ constant_text memory.now instr.now }
    ensures near { IfSome result (λ a. a ≤ 8 * 65535) }
{
    match instr.opcode {
        Opcode::Printing(operation) => addressed_by(memory, operation, first_constant(instr)),
        _ => None,
    }
}

/// There should be a text at an address.
fn mark_text(memory: &Memory, marks: &mut AddressSet, address: u32)
    requires marks { IsTextMarks memory.now marks.old }
    requires printed { IsPrinted memory.now address }
    requires near { address < 524289 }
    ensures marks { IsTextMarks memory.now marks.new }
    ensures keeps { Keeps marks.old marks.new }
    ensures marked { IsMarked marks.new address }
{
    marks.mark(address);
}

/// Marks the name of an object, where it has one.
fn mark_name(memory: &Memory, count: u16, before: u16, marks: &mut AddressSet)
    requires few { before < count }
    requires counted { IsCounted memory.now count }
    requires marks { IsTextMarks memory.now marks.old }
    requires names { NamesMarked memory.now before marks.old }
    ensures marks { IsTextMarks memory.now marks.new }
    ensures names { NamesMarked memory.now (before + 1) marks.new }
{
    match name(memory, before + 1) {
        Ok(Some(address)) => mark_text(memory, marks, address),
        Ok(None) => {}
        Err(_) => {}
    }
}

/// Marks the text of an instruction, where it has one.
fn mark_inline(memory: &Memory, address: u32, instr: &Instr, marks: &mut AddressSet)
    requires reached { IsReached memory.now address }
    requires stands { IsInstruction memory.now address instr.now instr.now.next }
    requires marks { IsTextMarks memory.now marks.old }
    ensures marks { IsTextMarks memory.now marks.new }
    ensures keeps { Keeps marks.old marks.new }
    ensures marked { (t : ℕ) → instr.now.text ≡ Some t → IsMarked marks.new t }
{
    // a text lies in the story
    memory.len();
    match instr.text {
        Some(text) => mark_text(memory, marks, text),
        None => {}
    }
}

/// Marks the text that an instruction prints by a constant, where it does.
fn mark_addressed(memory: &Memory, address: u32, instr: &Instr, marks: &mut AddressSet)
    requires reached { IsReached memory.now address }
    requires stands { IsInstruction memory.now address instr.now instr.now.next }
    requires marks { IsTextMarks memory.now marks.old }
    ensures marks { IsTextMarks memory.now marks.new }
    ensures keeps { Keeps marks.old marks.new }
    ensures marked { (t : ℕ) → constant_text memory.now instr.now ≡ Some t → IsMarked marks.new t }
{
    match constant_text(memory, instr) {
        Some(text) => mark_text(memory, marks, text),
        None => {}
    }
}

/// Marks the texts of the instruction at an address, where there is one.
fn mark_texts(memory: &Memory, ends: &TextEnds, address: u32, marks: &mut AddressSet)
    requires ends { KnowsEnds memory.now ends.now }
    requires reached { IsReached memory.now address }
    requires marks { IsTextMarks memory.now marks.old }
    ensures marks { IsTextMarks memory.now marks.new }
    ensures keeps { Keeps marks.old marks.new }
    ensures texts { TextsMarked memory.now address marks.new }
{
    match decode_by(memory, ends, address) {
        Ok(instr) => {
            mark_inline(memory, address, &instr, marks);
            mark_addressed(memory, address, &instr, marks);
        }
        Err(_) => {}
    }
}

/// Marks the names of the listed objects.
fn mark_names(memory: &Memory, count: u16, marks: &mut AddressSet)
    requires counted { IsCounted memory.now count }
    requires marks { IsTextMarks memory.now marks.old }
    ensures marks { IsTextMarks memory.now marks.new }
    ensures names { NamesMarked memory.now count marks.new }
{
    for before in 0..count {
        mark_name(memory, count, before, marks);
    }
}

/// Marks the texts of the instructions that are reached.
fn mark_code(memory: &Memory, ends: &TextEnds, code: &Code, marks: &mut AddressSet)
    requires ends { KnowsEnds memory.now ends.now }
    requires code { IsCodeOf memory.now code.now }
    requires marks { IsTextMarks memory.now marks.old }
    ensures marks { IsTextMarks memory.now marks.new }
    ensures keeps { Keeps marks.old marks.new }
    ensures texts { (a : ℕ) → IsReached memory.now a → TextsMarked memory.now a marks.new }
{
    let addresses = code.addresses.as_slice();
    for address in addresses {
        mark_texts(memory, ends, *address, marks);
    }
}

/// Marks on all texts that are printed.
fn mark_printed(
    alloc: Global,
    memory: &Memory,
    ends: &TextEnds,
    count: u16,
    code: &Code,
) -> Result<AddressSet, AllocError>
    requires ends { KnowsEnds memory.now ends.now }
    requires counted { IsCounted memory.now count }
    requires code { IsCodeOf memory.now code.now }
    ensures size { IfOk result (λ marks. length marks ≡ 524289) }
    ensures exact { IfOk result (λ marks. (a : ℕ) → IsMarked marks a ↔ IsPrinted memory.now a) }
{
    let mut marks = unmarked(alloc, TEXTS_END)?;
    mark_names(memory, count, &mut marks);
    mark_code(memory, ends, code, &mut marks);
    Ok(marks)
}

/// Marks the text that a word of the table of abbreviations names, or the word where it can't be read.
fn mark_word(memory: &Memory, number: u8, texts: &mut AddressSet, unread: &mut AddressSet)
    requires few { number < 96 }
    requires tabled { (header_of memory.now.file).abbreviations ≢ 0 }
    requires marks { IsTableMarks memory.now number texts.old unread.old }
    ensures { IsTableMarks memory.now (number + 1) texts.new unread.new }
{
    let place = memory.header().abbreviations as u32 + 2 * number as u32;
    match memory.word(place) {
        Ok(word) => texts.mark(2 * word as u32),
        Err(_) => unread.mark(place),
    }
}

/// Marks the texts that the words of the table of abbreviations name, and those of these words that can't be read.
fn mark_table(memory: &Memory, texts: &mut AddressSet, unread: &mut AddressSet)
    requires { IsTableMarks memory.now 0 texts.old unread.old }
    ensures { AreTableMarks memory.now texts.new unread.new }
{
    if memory.header().abbreviations == 0 {
        return;
    }
    for number in 0..96 {
        mark_word(memory, number, texts, unread);
    }
}

/// Where the story has texts.
#[derive(Drop)]
pub(crate) struct TextAddresses {
    /// Those that are printed.
    pub printed: AddressSet,
    /// Those of abbreviations.
    pub abbreviations: AddressSet,
    /// The words of the table of abbreviations that can't be read.
    pub unread: AddressSet,
}

impl TextAddresses {
    /// Whether an address is any of these.
    #[inline(always)]
    pub fn has(&self, address: u32) -> bool
        requires { address < length self.now.printed }
        ensures { result ≡ is_marked self.now address }
    {
        self.printed.has(address)
            || self.abbreviations.is_marked(address)
            || self.unread.is_marked(address)
    }
}

/// Marks on all texts.
pub(crate) fn mark_all_texts(
    alloc: Global,
    memory: &Memory,
    ends: &TextEnds,
    count: u16,
    code: &Code,
) -> Result<TextAddresses, AllocError>
    requires ends { KnowsEnds memory.now ends.now }
    requires counted { IsCounted memory.now count }
    requires code { IsCodeOf memory.now code.now }
    ensures { IfOk result (λ marks. AreTextMarks memory.now marks) }
{
    let printed = mark_printed(alloc, memory, ends, count, code)?;
    let mut abbreviations = unmarked(alloc, ABBREVIATIONS_END)?;
    let mut unread = unmarked(alloc, ABBREVIATIONS_END)?;
    mark_table(memory, &mut abbreviations, &mut unread);
    Ok(TextAddresses {
        printed,
        abbreviations,
        unread,
    })
}
