// The lines of a header.

ghost use Rattle.std.specs.Prelude.{◌≡◌, map};
ghost use Rattle.zk_inspect.specs.HeaderLines.{field_line, header_facts, late_facts, serial_shown, value_of};
ghost use Rattle.zk_inspect.specs.HeaderLines.{value_text, visible_byte};

use crate::fact::{Fact, FactWriter, Field};
use zk_mem::header::unpack;
use zk_mem::memory::Memory;
use zk_term::line_writer::LineWriter;
use zk_term::writing::{hex_digits_of, write_address, write_decimal, write_texts};

/// The fields that every version has.
const COMMON_FIELDS: [Field; 15] = [
    Field::Version,
    Field::Release,
    Field::Serial,
    Field::Length,
    Field::File,
    Field::Checksum,
    Field::Start,
    Field::High,
    Field::Static,
    Field::Dictionary,
    Field::Objects,
    Field::Globals,
    Field::Abbreviations,
    Field::Flags1,
    Field::Flags2,
];

/// The fields that versions from 5 on have.
const LATE_FIELDS: [Field; 2] = [Field::Alphabet, Field::Extension];

/// What a header says in one of its fields.
#[derive(Clone, Copy, Drop)]
pub enum Value {
    /// A number, shown by its decimal digits.
    Number(u32),
    /// A byte address.
    Address(u16),
    /// A word, shown by four digits.
    Word(u16),
    /// A byte, shown by two digits.
    Byte(u8),
    /// The serial number.
    Serial([u8; 6]),
    /// The checksum, and whether it is right.
    Checksum(u16, bool),
}

/// A byte of a serial number, or a question mark for one that can't be shown.
fn visible(byte: u8) -> u8
    ensures { result ≡ visible_byte byte }
{
    if byte > 32 && byte < 127 { byte } else { b'?' }
}

/// A serial number as it is shown: a question mark stands for a byte that can't be.
pub fn shown_serial(serial: [u8; 6]) -> [u8; 6]
    ensures { result ≡ serial_shown serial }
{
    [
        visible(serial[0]),
        visible(serial[1]),
        visible(serial[2]),
        visible(serial[3]),
        visible(serial[4]),
        visible(serial[5]),
    ]
}

/// Writes a word: its four digits.
#[tactic(auto, unfolding(crate::specs::HeaderLines::value_text, zk_term::specs::Numbers::word_digits))]
fn write_digits<P: LineWriter>(writer: &mut P, word: u16)
    ensures { P.wrote writer.old writer.new (value_text (Value.Word word)) }
{
    let digits = hex_digits_of(word as u32);
    writer.write(&digits[4..]);
}

/// Writes a byte: its two digits.
#[tactic(auto, unfolding(crate::specs::HeaderLines::value_text, zk_term::specs::Numbers::byte_digits))]
fn write_two_digits<P: LineWriter>(writer: &mut P, byte: u8)
    ensures { P.wrote writer.old writer.new (value_text (Value.Byte byte)) }
{
    let digits = hex_digits_of(byte as u32);
    writer.write(&digits[6..]);
}

/// Writes a checksum, and whether it is right.
#[tactic(auto, unfolding(crate::specs::HeaderLines::value_text, zk_term::specs::Numbers::word_digits))]
fn write_sum<P: LineWriter>(writer: &mut P, sum: u16, right: bool)
    ensures { P.wrote writer.old writer.new (value_text (Value.Checksum sum right)) }
{
    let digits = hex_digits_of(sum as u32);
    if right {
        write_texts(writer, &[&digits[4..], b" ok"]);
    } else {
        write_texts(writer, &[&digits[4..], b" wrong"]);
    }
}

/// Writes what a field says.
#[tactic(auto, unfolding(crate::specs::HeaderLines::value_text))]
fn write_value<P: LineWriter>(writer: &mut P, value: Value)
    ensures { P.wrote writer.old writer.new (value_text value) }
{
    match value {
        Value::Number(number) => write_decimal(writer, b"", number),
        Value::Address(address) => write_address(writer, b"", address as u32),
        Value::Word(word) => write_digits(writer, word),
        Value::Byte(byte) => write_two_digits(writer, byte),
        Value::Serial(serial) => writer.write(&shown_serial(serial)),
        Value::Checksum(sum, right) => write_sum(writer, sum, right),
    }
}

/// What a field says.
pub fn value_of(memory: &Memory, field: Field) -> Value
    ensures { result ≡ value_of memory.now field }
{
    let header = memory.header();
    match field {
        Field::Version => Value::Number(header.version as u32),
        Field::Release => Value::Number(header.release as u32),
        Field::Serial => Value::Serial(header.serial),
        Field::Length => Value::Number(unpack(header.version, header.file_length)),
        Field::File => Value::Number(memory.len()),
        Field::Checksum => Value::Checksum(header.checksum, memory.checksum_ok()),
        Field::Start => Value::Address(header.first_instruction),
        Field::High => Value::Address(header.high_memory),
        Field::Static => Value::Address(header.static_base),
        Field::Dictionary => Value::Address(header.dictionary),
        Field::Objects => Value::Address(header.objects),
        Field::Globals => Value::Address(header.globals),
        Field::Abbreviations => Value::Address(header.abbreviations),
        Field::Flags1 => Value::Byte(header.flags_1),
        Field::Flags2 => Value::Word(header.flags_2),
        Field::Alphabet => Value::Address(header.alphabet),
        Field::Extension => Value::Address(header.extension),
    }
}

/// Writes the line of a field.
pub(crate) fn write_field<P: LineWriter>(writer: &mut P, memory: &Memory, field: Field)
    ensures { P.wrote writer.old writer.new (field_line memory.now field) }
{
    writer.write(field.name().as_bytes());
    writer.write(b" ");
    write_value(writer, value_of(memory, field));
}

/// Gives fields.
fn list_fields<F: FactWriter>(facts: &mut F, fields: &[Field])
    ensures { F.wrote facts.old facts.new (map Fact.Field fields.now) }
{
    for field in fields {
        facts.write(Fact::Field(*field));
    }
}

/// Gives the fields that versions from 5 on have.
#[tactic(auto, unfolding(crate::specs::HeaderLines::late_facts))]
fn list_late_fields<F: FactWriter>(memory: &Memory, facts: &mut F)
    ensures { F.wrote facts.old facts.new (late_facts memory.now) }
{
    if memory.header().version < 5 {
        return;
    }
    list_fields(facts, &LATE_FIELDS);
}

/// Gives the fields of a header.
#[tactic(auto, unfolding(crate::specs::HeaderLines::header_facts))]
pub(crate) fn list_header<F: FactWriter>(memory: &Memory, facts: &mut F)
    ensures { F.wrote facts.old facts.new (header_facts memory.now) }
{
    list_fields(facts, &COMMON_FIELDS);
    list_late_fields(memory, facts);
}
