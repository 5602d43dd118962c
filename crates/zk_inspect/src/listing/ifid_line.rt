// What catalogues name a story by.

ghost use Rattle.std.specs.Prelude.{◌≡◌, ◌≤◌, ◌<◌, ◌-◌, length, map, nat_lt, option_map, if◌then◌else◌};
ghost use Rattle.zk_inspect.specs.Ifid.{capital_digits, capital_letter, first_name, header_name, ifid, ifid_line};
ghost use Rattle.zk_inspect.specs.Ifid.{is_digit, is_early, is_letter, is_name_byte, name_in_front, name_length};
ghost use Rattle.zk_inspect.specs.Ifid.{named_byte, names_sum, serial_named, sum_text};

use zk_mem::header::Header;
use zk_mem::memory::Memory;
use zk_term::line_writer::LineWriter;
use zk_term::writing::{hex_digits_of, write_decimal};

/// Whether a byte is a decimal digit of ASCII.
fn is_digit(byte: u8) -> bool
    ensures { result ≡ is_digit byte }
{
    48 <= byte && byte <= 57
}

/// Whether a byte is a letter of ASCII.
fn is_letter(byte: u8) -> bool
    ensures { result ≡ is_letter byte }
{
    65 <= byte && byte <= 90 || 97 <= byte && byte <= 122
}

/// Whether a byte may stand in a name.
fn is_name_byte(byte: u8) -> bool
    ensures { result ≡ is_name_byte byte }
{
    is_letter(byte) || is_digit(byte) || byte == b'-'
}

/// How many letters, digits and hyphens bytes begin with.
#[tactic(auto, using(crate::proofs::StoryNames::of_name_length))]
fn name_length(bytes: &[u8]) -> usize
    ensures value { result ≡ name_length bytes.now }
    ensures within { result ≤ length bytes.now }
{
    for at in 0..bytes.len() {
        if !is_name_byte(bytes[at]) {
            return at;
        }
    }
    bytes.len()
}

/// The name that bytes begin with, between `UUID://` and `//`.
#[tactic(auto, unfolding(crate::specs::Ifid::name_in_front))]
fn name_in_front(bytes: &[u8]) -> Option<&[u8]>
    ensures { option_map (λ s. s.now) result ≡ name_in_front bytes.now }
{
    if !bytes.starts_with(b"UUID://") {
        return None;
    }
    let after = &bytes[7..];
    let length = name_length(after);
    if 8 <= length && length <= 63 && after[length..].starts_with(b"//") {
        Some(&after[..length])
    } else {
        None
    }
}

/// The first name in a file.
#[tactic(auto, using(crate::proofs::StoryNames::first_ends))]
fn first_name(file: &[u8]) -> Option<&[u8]>
    ensures { option_map (λ s. s.now) result ≡ first_name file.now }
{
    for at in 0..file.len() {
        match name_in_front(&file[at..]) {
            Some(name) => return Some(name),
            None => {}
        }
    }
    None
}

/// Whether a serial number is of a year before 2006, when no story named itself (Treaty of Babel, the section on the
/// Z-machine).
fn is_early(serial: [u8; 6]) -> bool
    ensures { result ≡ is_early serial }
{
    serial[0] == b'8'
        || serial[0] == b'9'
        || serial[0] == b'0' && b'0' <= serial[1] && serial[1] <= b'5'
}

/// A letter as a capital.
fn capital_letter(byte: u8) -> u8
    ensures { result ≡ capital_letter byte }
{
    if b'a' <= byte && byte <= b'z' {
        byte - 32
    } else {
        byte
    }
}

/// A byte of a serial number, or a hyphen for one that is no letter and no digit.
fn named_byte(byte: u8) -> u8
    ensures { result ≡ named_byte byte }
{
    if is_letter(byte) || is_digit(byte) {
        byte
    } else {
        b'-'
    }
}

/// A serial number as a name has it.
fn serial_named(serial: [u8; 6]) -> [u8; 6]
    ensures { result ≡ serial_named serial }
{
    [
        named_byte(serial[0]),
        named_byte(serial[1]),
        named_byte(serial[2]),
        named_byte(serial[3]),
        named_byte(serial[4]),
        named_byte(serial[5]),
    ]
}

/// Whether a name by the header says the checksum: where the serial number begins with a digit other than 8, and is not
/// all zeros.
fn names_sum(serial: [u8; 6]) -> bool
    ensures { result ≡ names_sum serial }
{
    is_digit(serial[0]) && serial[0] != b'8' && serial != *b"000000"
}

/// A hexadecimal digit, as a capital where it is a letter.
fn capital(digit: u8) -> u8
    requires { digit < 128 }
    ensures { result ≡ (if nat_lt digit 97 then digit else digit - 32) }
{
    if digit < 97 { digit } else { digit - 32 }
}

/// Writes a word by four digits, with capitals.
#[tactic(auto, unfolding(zk_term::specs::Numbers::word_digits, zk_term::specs::Numbers::hex_digits))]
fn write_capitals<P: LineWriter>(writer: &mut P, word: u16)
    ensures { P.wrote writer.old writer.new (capital_digits word) }
{
    let digits = hex_digits_of(word as u32);
    writer.write(&[
        capital(digits[4]),
        capital(digits[5]),
        capital(digits[6]),
        capital(digits[7]),
    ]);
}

/// Writes the checksum after a hyphen, where a name by the header says it.
fn write_sum<P: LineWriter>(writer: &mut P, header: Header)
    ensures { P.wrote writer.old writer.new (sum_text header) }
{
    if names_sum(header.serial) {
        writer.write(b"-");
        write_capitals(writer, header.checksum);
    }
}

/// Writes a name by the header.
#[tactic(auto, unfolding(crate::specs::Ifid::header_name))]
fn write_header_name<P: LineWriter>(writer: &mut P, header: Header)
    ensures { P.wrote writer.old writer.new (header_name header) }
{
    writer.write(b"ZCODE-");
    write_decimal(writer, b"", header.release as u32);
    writer.write(b"-");
    writer.write(&serial_named(header.serial));
    write_sum(writer, header);
}

/// Writes a name with capitals.
fn write_own_name<P: LineWriter>(writer: &mut P, name: &[u8])
    ensures { P.wrote writer.old writer.new (map capital_letter name.now) }
{
    for byte in name {
        writer.write(&[capital_letter(*byte)]);
    }
}

/// Writes what catalogues name a story by (Treaty of Babel): the name by which it names itself, where that was usual,
/// or a name by its header.
#[tactic(auto, unfolding(crate::specs::Ifid::ifid_line))]
pub fn write_ifid<P: LineWriter>(writer: &mut P, memory: &Memory)
    ensures { P.wrote writer.old writer.new (ifid_line memory.now) }
{
    let header = memory.header();
    if is_early(header.serial) {
        write_header_name(writer, header);
        return;
    }
    match first_name(memory.original()) {
        Some(name) => write_own_name(writer, name),
        None => write_header_name(writer, header),
    }
}
