// The lines of alphabets.

ghost use Rattle.std.specs.Prelude.{◌≡◌, ◌+◌, ◌-◌, ◌≤◌, ◌<◌, ◌++◌, codes};
ghost use Rattle.std.specs.List.{flat_map, range_with_len};
ghost use Rattle.zk_inspect.specs.AlphabetLines.{alphabet_facts, alphabet_line, code_text, extra_line, extra_text};
ghost use Rattle.zk_inspect.specs.AlphabetLines.{first_letter, letter_text, row_name};

use crate::fact::{Fact, FactWriter};
use crate::listing::quoting::write_code;
use zk_mem::memory::Memory;
use zk_term::line_writer::LineWriter;
use zk_text::alphabet::{Alphabet, Row};
use zk_text::extra::Extra;

/// Writes what a Z-character stands for in an alphabet.
#[tactic(auto, unfolding(crate::specs::AlphabetLines::code_text))]
fn write_letter<P: LineWriter>(writer: &mut P, memory: &Memory, row: Row, character: u8)
    ensures { P.wrote writer.old writer.new (letter_text memory.now row character) }
{
    let code = Alphabet::of(memory).letter(memory, row, character);
    write_code(writer, memory, code as u16);
}

/// Writes what so many Z-characters stand for, from one on.
fn write_letters<P: LineWriter>(writer: &mut P, memory: &Memory, row: Row, first: u8, count: u8)
    requires { first + count ≤ 32 }
    ensures { P.wrote writer.old writer.new
        (flat_map (letter_text memory.now row) (range_with_len first count)) }
{
    for before in 0..count {
        write_letter(writer, memory, row, first + before);
    }
}

/// Writes the letters of an alphabet.
fn write_row<P: LineWriter>(writer: &mut P, memory: &Memory, row: Row)
    ensures { P.wrote writer.old writer.new (flat_map (letter_text memory.now row)
        (range_with_len (first_letter row) (32 - first_letter row))) }
{
    match row {
        Row::A0 => write_letters(writer, memory, Row::A0, 6, 26),
        Row::A1 => write_letters(writer, memory, Row::A1, 6, 26),
        Row::A2 => write_letters(writer, memory, Row::A2, 7, 25),
    }
}

/// Writes the name of an alphabet, and a quote.
fn write_row_name<P: LineWriter>(writer: &mut P, row: Row)
    ensures { P.wrote writer.old writer.new (row_name row) }
{
    match row {
        Row::A0 => writer.write(b"A0 \""),
        Row::A1 => writer.write(b"A1 \""),
        Row::A2 => writer.write(b"A2 \""),
    }
}

/// Writes the line of an alphabet.
pub(crate) fn write_alphabet<P: LineWriter>(writer: &mut P, memory: &Memory, row: Row)
    ensures { P.wrote writer.old writer.new (alphabet_line memory.now row) }
{
    write_row_name(writer, row);
    write_row(writer, memory, row);
    writer.write(b"\"");
}

/// Writes an extra character, where its code has one.
#[tactic(auto, unfolding(crate::specs::AlphabetLines::code_text))]
fn write_extra<P: LineWriter>(writer: &mut P, memory: &Memory, code: u16)
    ensures { P.wrote writer.old writer.new (extra_text memory.now code) }
{
    if Extra::of(memory).to_char(code).is_some() {
        write_code(writer, memory, code);
    }
}

/// Writes the extra characters.
fn write_all_extra<P: LineWriter>(writer: &mut P, memory: &Memory)
    ensures { P.wrote writer.old writer.new
        (flat_map (extra_text memory.now) (range_with_len 155 97)) }
{
    for before in 0..97 {
        write_extra(writer, memory, 155 + before);
    }
}

/// Writes the line of the extra characters.
pub(crate) fn write_extra_line<P: LineWriter>(writer: &mut P, memory: &Memory)
    ensures { P.wrote writer.old writer.new (extra_line memory.now) }
{
    writer.write(b"extra \"");
    write_all_extra(writer, memory);
    writer.write(b"\"");
}

/// Gives the alphabets, and the extra characters.
pub(crate) fn list_alphabets<F: FactWriter>(facts: &mut F)
    ensures { F.wrote facts.old facts.new alphabet_facts }
{
    facts.write(Fact::Alphabet(Row::A0));
    facts.write(Fact::Alphabet(Row::A1));
    facts.write(Fact::Alphabet(Row::A2));
    facts.write(Fact::ExtraCharacters);
}
