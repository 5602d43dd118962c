// The lines of abbreviations.

ghost use Rattle.std.specs.Prelude.{◌≡◌, ◌++◌, ◌<◌, codes, decimal, map, Err, IfErr, IfOk, IsOk};
ghost use Rattle.std.specs.List.{range_with_len};
ghost use Rattle.zk_text.specs.Meaning.{abbreviation, meaning_at, no_abbreviation, text_units};
ghost use Rattle.zk_inspect.specs.AbbreviationLines.{abbreviation_facts, abbreviation_line};
ghost use Rattle.zk_inspect.specs.Listing.{units_text};

use crate::fact::{Fact, FactWriter};
use crate::listing::quoting::write_meaning;
use crate::listing::writing::write_fault;
use zk_mem::fault::Fault;
use zk_mem::memory::Memory;
use zk_term::line_writer::LineWriter;
use zk_term::writing::write_decimal;
use zk_text::text::check_abbreviation;

/// Writes what the text of an abbreviation prints, or why it prints nothing. Once a write has failed no text is looked
/// at.
fn write_text<P: LineWriter>(writer: &mut P, memory: &Memory, address: u32)
    ensures { P.wrote writer.old writer.new
        (units_text memory.now (meaning_at no_abbreviation memory.now address)) }
{
    if writer.has_ended() {
        return;
    }
    match check_abbreviation(memory, address) {
        Ok(()) => write_meaning(writer, memory, address),
        Err(fault) => write_fault(writer, fault),
    }
}

/// The byte address of the text that an abbreviation stands for, by its number, or why it stands for nothing:
/// `TextPastEnd` where there is no text, and `NestedAbbreviation` where the text uses an abbreviation (Standard,
/// section 3.3).
pub fn abbreviation_text(memory: &Memory, number: u8) -> Result<u32, Fault>
    ensures text { IfOk result (λ a. text_units memory.now a ≡ abbreviation memory.now number) }
    ensures meaning { IfOk result (λ a. IsOk (text_units memory.now a)) }
    ensures fault { IfErr result (λ f. abbreviation memory.now number ≡ Err f) }
{
    let address = match memory.word(memory.header().abbreviations as u32 + 2 * number as u32) {
        Ok(word) => 2 * word as u32,
        Err(_) => return Err(Fault::TextPastEnd),
    };
    match check_abbreviation(memory, address) {
        Ok(()) => Ok(address),
        Err(fault) => Err(fault),
    }
}

/// Writes what an abbreviation stands for between quotes, or why it stands for nothing.
pub fn write_meaning_of<P: LineWriter>(writer: &mut P, memory: &Memory, number: u8)
    ensures { P.wrote writer.old writer.new (units_text memory.now (abbreviation memory.now number)) }
{
    match memory.word(memory.header().abbreviations as u32 + 2 * number as u32) {
        Ok(word) => write_text(writer, memory, 2 * word as u32),
        Err(_) => write_fault(writer, Fault::TextPastEnd),
    }
}

/// Writes the line of an abbreviation.
pub(crate) fn write_abbreviation<P: LineWriter>(writer: &mut P, memory: &Memory, number: u8)
    ensures { P.wrote writer.old writer.new (abbreviation_line memory.now number) }
{
    write_decimal(writer, b"", number as u32);
    writer.write(b" ");
    write_meaning_of(writer, memory, number);
}

/// Gives all abbreviations.
fn list_all<F: FactWriter>(facts: &mut F)
    ensures { F.wrote facts.old facts.new (map Fact.Abbreviation (range_with_len 0 96)) }
{
    for number in 0..96 {
        facts.write(Fact::Abbreviation(number));
    }
}

/// Gives the abbreviations, where the story has a table of them.
#[tactic(auto, unfolding(crate::specs::AbbreviationLines::abbreviation_facts))]
pub(crate) fn list_abbreviations<F: FactWriter>(memory: &Memory, facts: &mut F)
    ensures { F.wrote facts.old facts.new (abbreviation_facts memory.now) }
{
    if memory.header().abbreviations == 0 {
        return;
    }
    list_all(facts);
}
