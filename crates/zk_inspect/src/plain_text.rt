// Facts as lines of text.

ghost use Rattle.std.specs.Prelude.{◌≡◌};
ghost use Rattle.zk_inspect.specs.Lines.{fact_line, instruction_line, lines_of};

use crate::check::finding_lines::write_finding;
use crate::fact::{Fact, FactWriter};
use crate::listing::abbreviation_lines::write_abbreviation;
use crate::listing::alphabet_lines::{write_alphabet, write_extra_line};
use crate::listing::dictionary_lines::{
    write_fault_line, write_separators_line, write_size_line, write_word_line,
};
use crate::listing::extension_lines::write_extension_word;
use crate::listing::global_lines::write_global;
use crate::listing::header_lines::write_field;
use crate::listing::ifid_line::write_ifid;
use crate::listing::map_lines::write_place;
use crate::listing::object_lines::write_object;
use crate::listing::property_lines::{write_no_properties, write_property};
use crate::listing::tree_lines::write_row;
use crate::reach::disassembly::{
    write_address_line, write_noted_line, write_origin_line, write_routine_line,
};
use crate::section::Section;
use crate::texts::write_text_line;
use zk_mem::memory::Memory;
use zk_term::line_writer::LineWriter;
use zk_term::writing::write_texts;

/// Writes the title of a section.
#[tactic(auto, unfolding(crate::specs::Lines::fact_line))]
fn write_title<P: LineWriter>(writer: &mut P, _memory: &Memory, _notes: bool, section: Section)
    ensures { P.wrote writer.old writer.new (fact_line _notes _memory.now (Fact.Title section)) }
{
    write_texts(writer, &[b"[", section.name().as_bytes(), b"]"]);
}

/// Writes the line of an instruction, with its notes or without them.
fn write_instruction<P: LineWriter>(writer: &mut P, memory: &Memory, notes: bool, address: u32)
    ensures { P.wrote writer.old writer.new (instruction_line notes memory.now address) }
{
    if notes {
        write_noted_line(writer, memory, address);
    } else {
        write_address_line(writer, memory, address);
    }
}

/// Writes the line of a fact, up to its end, with notes after instructions or without them.
#[tactic(auto, unfolding(crate::specs::Lines::fact_line))]
pub fn write_fact<P: LineWriter>(writer: &mut P, memory: &Memory, notes: bool, fact: Fact)
    ensures { P.wrote writer.old writer.new (fact_line notes memory.now fact) }
{
    match fact {
        Fact::Title(section) => write_title(writer, memory, notes, section),
        Fact::Field(field) => write_field(writer, memory, field),
        Fact::Part(part) => write_place(writer, part),
        Fact::Abbreviation(number) => write_abbreviation(writer, memory, number),
        Fact::Separators(dictionary) => write_separators_line(writer, memory, &dictionary),
        Fact::Entries(dictionary) => write_size_line(writer, &dictionary),
        Fact::Word(word) => write_word_line(writer, memory, word),
        Fact::NoDictionary(fault) => write_fault_line(writer, fault),
        Fact::Object(object) => write_object(writer, memory, object),
        Fact::Node(node) => write_row(writer, memory, node),
        Fact::Ifid => write_ifid(writer, memory),
        Fact::Text(address) => write_text_line(writer, memory, address),
        Fact::Property(object, property) => write_property(writer, memory, object, property),
        Fact::NoProperties(object, fault) => write_no_properties(writer, object, fault),
        Fact::Global(number) => write_global(writer, memory, number),
        Fact::Alphabet(row) => write_alphabet(writer, memory, row),
        Fact::ExtraCharacters => write_extra_line(writer, memory),
        Fact::ExtensionWord(number) => write_extension_word(writer, memory, number),
        Fact::Instruction(address) => write_instruction(writer, memory, notes, address),
        Fact::Routine(routine) => write_routine_line(writer, memory, routine),
        Fact::LyingRoutine(routine, reached) => write_origin_line(writer, memory, routine, reached),
        Fact::Finding(finding) => write_finding(writer, finding),
    }
}

/// Writes facts about a story as lines.
#[derive(Drop)]
pub struct PlainText<'a, P> {
    memory: &'a Memory,
    /// Whether notes stand after instructions.
    notes: bool,
    writer: &'a mut P,
}

impl<'a, P> PlainText<'a, P> {
    pub fn new(memory: &'a Memory, notes: bool, writer: &'a mut P) -> PlainText<'a, P>
        ensures memory { result.memory.now ≡ memory.now }
        ensures notes { result.notes ≡ notes }
        ensures writer { result.writer ≡ writer.entry }
    {
        PlainText {
            memory,
            notes,
            writer,
        }
    }
}

impl<'a, P: LineWriter> FactWriter for PlainText<'a, P> {
    ghost use Rattle.std.specs.Prelude.{◌≡◌, refl};
    ghost use Rattle.std.proofs.Common.{◌∙◌};
    ghost use Rattle.zk_inspect.specs.Lines.{lines_none, lines_of, lines_then};

    ghost wrote = { λ a b fs. (b.memory.now ≡ a.memory.now) × (b.notes ≡ a.notes)
        × (b.writer.ghost_name ≡ a.writer.ghost_name)
        × P.wrote a.writer.now b.writer.now (lines_of a.notes a.memory.now fs) };

    ghost ended = { λ a. P.ended a.writer.now };

    fn has_ended(&self) -> bool {
        self.writer.has_ended()
    }

    fn write(&mut self, fact: Fact) {
        write_fact(self.writer, self.memory, self.notes, fact);
        self.writer.write(b"\n");
    }

    ghost nothing = { λ a. (
      refl,
      refl,
      refl,
      lines_none P.wrote a.writer.now a.notes a.memory.now (P.nothing a.writer.now),
    ) };

    ghost twice = { λ a b c fs gs h k. (
      k.0 ∙ h.0,
      k.1 ∙ h.1,
      k.2 ∙ h.2,
      lines_then P.wrote P.twice a.writer.now b.writer.now c.writer.now _ _ _ _ fs gs h.1 h.0 h.3 k.3,
    ) };

    ghost late = { λ a fs is. (
      refl,
      refl,
      refl,
      P.late a.writer.now (lines_of a.notes a.memory.now fs) is,
    ) };
}
