// Constants and faults, written to a writer.

ghost use Rattle.std.specs.Prelude.{◌≡◌, ◌++◌, codes, decimal};
ghost use Rattle.zk_mem.specs.Faults.{fault_number};
ghost use Rattle.zk_term.specs.Numbers.{byte_digits, word_digits};

use zk_mem::fault::Fault;
use zk_term::line_writer::LineWriter;
use zk_term::writing::{hex_digits_of, write_decimal, write_texts};

/// Writes a constant after a text: a word by its four hexadecimal digits.
#[tactic(auto, unfolding(zk_term::specs::Numbers::word_digits))]
pub(crate) fn write_word<P: LineWriter>(writer: &mut P, before: &[u8], word: u16)
    ensures { P.wrote writer.old writer.new (before.now ++ codes "#" ++ word_digits word) }
{
    let digits = hex_digits_of(word as u32);
    let shown = &digits[4..];
    write_texts(writer, &[before, b"#", shown]);
}

/// Writes a constant after a text: a byte by its two hexadecimal digits.
#[tactic(auto, unfolding(zk_term::specs::Numbers::byte_digits))]
pub(crate) fn write_byte<P: LineWriter>(writer: &mut P, before: &[u8], byte: u8)
    ensures { P.wrote writer.old writer.new (before.now ++ codes "#" ++ byte_digits byte) }
{
    let digits = hex_digits_of(byte as u32);
    let shown = &digits[6..];
    write_texts(writer, &[before, b"#", shown]);
}

/// Writes a fault in place of what can't be read.
pub(crate) fn write_fault<P: LineWriter>(writer: &mut P, fault: Fault)
    ensures { P.wrote writer.old writer.new (codes "! F" ++ decimal (fault_number fault)) }
{
    write_decimal(writer, b"! F", fault.number() as u32);
}
