// The lines of global variables.

ghost use Rattle.std.specs.Prelude.{◌≡◌, ◌++◌, codes, decimal, map};
ghost use Rattle.std.specs.List.{range_with_len};
ghost use Rattle.zk_mem.specs.Map.{word_at};
ghost use Rattle.zk_term.specs.Numbers.{address_digits};
ghost use Rattle.zk_inspect.specs.GlobalLines.{global_facts, global_line, global_name, global_place, word_text};

use crate::fact::{Fact, FactWriter};
use crate::listing::writing::write_word;
use zk_mem::memory::Memory;
use zk_term::line_writer::LineWriter;
use zk_term::writing::{write_address, write_decimal};

/// The byte address of the value of a global variable, by its number from 0 on (Standard, section 6.2).
pub fn global_place(memory: &Memory, number: u8) -> u32
    ensures { result ≡ global_place memory.now number }
{
    memory.header().globals as u32 + 2 * number as u32
}

/// Writes the name of a global variable.
#[tactic(auto, unfolding(crate::specs::GlobalLines::global_name))]
fn write_name<P: LineWriter>(writer: &mut P, number: u8)
    ensures { P.wrote writer.old writer.new (global_name number) }
{
    write_decimal(writer, b"g", number as u32);
}

/// Writes the byte address of the value of a global variable.
pub(crate) fn write_place<P: LineWriter>(writer: &mut P, memory: &Memory, number: u8)
    ensures { P.wrote writer.old writer.new (address_digits (global_place memory.now number)) }
{
    write_address(writer, b"", global_place(memory, number));
}

/// Writes the word at a byte address, or why it can't be read.
#[tactic(auto, unfolding(crate::specs::GlobalLines::word_text))]
pub(crate) fn write_word_at<P: LineWriter>(writer: &mut P, memory: &Memory, address: u32)
    ensures { P.wrote writer.old writer.new (word_text (word_at memory.now address)) }
{
    match memory.word(address) {
        Ok(word) => write_word(writer, b"", word),
        Err(fault) => write_decimal(writer, b"! F", fault.number() as u32),
    }
}

/// Writes the value of a global variable.
fn write_value<P: LineWriter>(writer: &mut P, memory: &Memory, number: u8)
    ensures { P.wrote writer.old writer.new
        (word_text (word_at memory.now (global_place memory.now number))) }
{
    write_word_at(writer, memory, global_place(memory, number));
}

/// Writes the line of a global variable.
pub(crate) fn write_global<P: LineWriter>(writer: &mut P, memory: &Memory, number: u8)
    ensures { P.wrote writer.old writer.new (global_line memory.now number) }
{
    write_name(writer, number);
    writer.write(b" ");
    write_place(writer, memory, number);
    writer.write(b" ");
    write_value(writer, memory, number);
}

/// Gives all global variables.
fn list_all<F: FactWriter>(facts: &mut F)
    ensures { F.wrote facts.old facts.new (map Fact.Global (range_with_len 0 240)) }
{
    for number in 0..240 {
        facts.write(Fact::Global(number));
    }
}

/// Gives the global variables, where the story has a table of them.
#[tactic(auto, unfolding(crate::specs::GlobalLines::global_facts))]
pub(crate) fn list_globals<F: FactWriter>(memory: &Memory, facts: &mut F)
    ensures { F.wrote facts.old facts.new (global_facts memory.now) }
{
    if memory.header().globals == 0 {
        return;
    }
    list_all(facts);
}
