// Instructions by names: their lines, with names in place of words.

ghost use Rattle.std.specs.Prelude.{◌≡◌};
ghost use Rattle.zk_named.specs.Words.{is_one_word, is_own, stands_as_word};

use crate::meanings::{OperandKind, kind_of, names_variable};
use crate::places::push_name;
use std::alloc::Global;
use zk_code::decode::decode;
use zk_code::instr::Instr;
use zk_code::operands::Operand;
use zk_inspect::listing::global_lines::global_place;
use zk_mem::header::unpack;
use zk_mem::memory::Memory;
use zk_names::named::Kind;
use zk_names::names::Names;
use zk_notes::pieces::TextBuilder;

/// A story, with the names of its source.
#[derive(Clone, Copy, Drop)]
pub(crate) struct NamedStory<'a, 'n> {
    pub alloc: Global,
    pub memory: &'a Memory,
    pub names: &'a Names<'n>,
}

/// What a word stands for.
#[derive(Clone, Copy, Drop)]
enum Meaning {
    /// Nothing that has a name.
    Nothing,
    /// A variable by its number.
    Variable(u8),
    /// A constant.
    Constant(OperandKind, u16),
}

/// What an operand of an instruction stands for.
fn operand_meaning(instr: &Instr, place: usize, operand: Operand) -> Meaning {
    let value = match operand {
        Operand::Variable(number) => return Meaning::Variable(number),
        Operand::Small(value) => value as u16,
        Operand::Large(value) => value,
    };
    if place == 0 && names_variable(instr.opcode) {
        return match u8::try_from(value) {
            Ok(number) => Meaning::Variable(number),
            Err(_) => Meaning::Nothing,
        };
    }
    Meaning::Constant(kind_of(instr.opcode, place), value)
}

/// What a word of an instruction's line stands for. The first two are its address and its name; then come its operands,
/// and behind an arrow the variable that takes its result.
fn word_meaning(instr: &Instr, index: usize) -> Meaning {
    let Some(place) = index.checked_sub(2) else {
        return Meaning::Nothing;
    };
    let operands = instr.operands.as_slice();
    if let Some(operand) = operands.get(place) {
        return operand_meaning(instr, place, *operand);
    }
    match instr.store {
        Some(number) if place == operands.len() + 1 => Meaning::Variable(number),
        _ => Meaning::Nothing,
    }
}

/// Whether a name is a single word.
fn is_one_word(name: &[u8]) -> bool
    ensures { result ≡ is_one_word name.now }
{
    !name.contains(&b' ')
}

/// Whether a name is one that the story has itself: then it stands in quotation marks.
pub(crate) fn is_own(name: &[u8]) -> bool
    ensures { result ≡ is_own name.now }
{
    match name.first() {
        Some(first) => *first == b'"',
        None => false,
    }
}

/// Whether a name can stand in place of a word.
pub(crate) fn stands_as_word(name: &[u8]) -> bool
    ensures { result ≡ stands_as_word name.now }
{
    is_own(name) || is_one_word(name)
}

impl<'n> NamedStory<'_, 'n> {
    /// The name of a variable in the code at an address.
    fn variable(&self, address: u32, number: u8) -> Option<&'n [u8]> {
        if let Some(global) = number.checked_sub(16) {
            let place = global_place(self.memory, global);
            return Some(self.names.named(Kind::Global, place)?.name);
        }
        let routine = self.names.routine_at(address)?;
        let local = self
            .names
            .locals_of(&routine)
            .iter()
            .find(|local| local.number == number as u32)?;
        Some(local.name)
    }

    /// The name of what a constant is.
    fn constant(&self, kind: OperandKind, value: u16) -> Option<&'n [u8]> {
        let number = value as u32;
        match kind {
            OperandKind::Number => None,
            OperandKind::Routine => {
                let address = unpack(self.memory.version(), value);
                Some(self.names.routine_from(address)?.name)
            }
            OperandKind::Object => Some(self.names.named(Kind::Object, number)?.name),
            OperandKind::Property => Some(self.names.named(Kind::Property, number)?.name),
            OperandKind::Attribute => Some(self.names.named(Kind::Attribute, number)?.name),
            OperandKind::Array => Some(self.names.array_from(number)?.name),
        }
    }

    /// The name that stands in place of a word of an instruction's line.
    fn word(&self, address: u32, instr: &Instr, index: usize) -> Option<&'n [u8]> {
        let name = match word_meaning(instr, index) {
            Meaning::Nothing => return None,
            Meaning::Variable(number) => self.variable(address, number)?,
            Meaning::Constant(kind, value) => self.constant(kind, value)?,
        };
        if stands_as_word(name) {
            Some(name)
        } else {
            None
        }
    }

    /// Adds a word of an instruction's line, or the name that stands in place of it. A variable that is named, and not
    /// read, has an ampersand before it.
    fn push_word(&self, out: &mut TextBuilder, word: &str, name: Option<&[u8]>) {
        match name {
            Some(name) => {
                if word.starts_with('&') {
                    out.text("&");
                }
                push_name(self.alloc, out, name);
            }
            None => out.text(word),
        }
    }

    /// Adds the line of the instruction at an address, with names in place of those of its words that have one.
    pub fn push_line(&self, out: &mut TextBuilder, address: u32, line: &str) {
        let Ok(instr) = decode(self.memory, address) else {
            out.text(line);
            return;
        };
        for (index, word) in line.split(' ').enumerate() {
            if index > 0 {
                out.text(" ");
            }
            self.push_word(out, word, self.word(address, &instr, index));
        }
    }
}
