// The lines of the header's extension.

ghost use Rattle.std.specs.Prelude.{◌≡◌, ◌++◌, map};
ghost use Rattle.std.specs.List.{range_with_len};
ghost use Rattle.zk_mem.specs.Map.{word_at};
ghost use Rattle.zk_term.specs.Numbers.{address_digits};
ghost use Rattle.zk_inspect.specs.ExtensionLines.{extension_facts, extension_line, extension_place, words_stated};
ghost use Rattle.zk_inspect.specs.GlobalLines.{word_text};

use crate::fact::{Fact, FactWriter};
use crate::listing::global_lines::write_word_at;
use zk_mem::fault::Fault;
use zk_mem::memory::Memory;
use zk_term::line_writer::LineWriter;
use zk_term::writing::{write_address, write_decimal};

/// The byte address of a word of the header's extension, by its number from 1 on (Standard, section 11.1.7).
pub fn extension_place(memory: &Memory, number: u16) -> u32
    ensures { result ≡ extension_place memory.now number }
{
    memory.header().extension as u32 + 2 * number as u32
}

/// Writes the byte address of a word of the extension.
fn write_place<P: LineWriter>(writer: &mut P, memory: &Memory, number: u16)
    ensures { P.wrote writer.old writer.new (address_digits (extension_place memory.now number)) }
{
    write_address(writer, b"", extension_place(memory, number));
}

/// Writes the value of a word of the extension.
fn write_value<P: LineWriter>(writer: &mut P, memory: &Memory, number: u16)
    ensures { P.wrote writer.old writer.new
        (word_text (word_at memory.now (extension_place memory.now number))) }
{
    write_word_at(writer, memory, extension_place(memory, number));
}

/// Writes the line of a word of the extension.
pub(crate) fn write_extension_word<P: LineWriter>(writer: &mut P, memory: &Memory, number: u16)
    ensures { P.wrote writer.old writer.new (extension_line memory.now number) }
{
    write_decimal(writer, b"", number as u32);
    writer.write(b" ");
    write_place(writer, memory, number);
    writer.write(b" ");
    write_value(writer, memory, number);
}

/// Gives so many words, from 1 on.
fn list_words<F: FactWriter>(facts: &mut F, count: u16)
    ensures { F.wrote facts.old facts.new (map Fact.ExtensionWord (range_with_len 1 count)) }
{
    for before in 0..count {
        facts.write(Fact::ExtensionWord(before + 1));
    }
}

/// How many words a count states that was read.
fn words_stated(count: Result<u16, Fault>) -> u16
    ensures { result ≡ words_stated count }
{
    match count {
        Ok(count) => count,
        Err(_) => 0,
    }
}

/// Gives the words of the header's extension, where the header names one.
#[tactic(auto, unfolding(crate::specs::ExtensionLines::extension_facts))]
pub(crate) fn list_extension<F: FactWriter>(memory: &Memory, facts: &mut F)
    ensures { F.wrote facts.old facts.new (extension_facts memory.now) }
{
    let extension = memory.header().extension;
    if extension == 0 {
        return;
    }
    list_words(facts, words_stated(memory.word(extension as u32)));
}
