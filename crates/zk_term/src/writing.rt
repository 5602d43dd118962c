// Texts, numbers and characters, written to a writer.

ghost use Rattle.std.specs.Prelude.{◌≡◌, ◌<◌, ◌++◌, decimal};
ghost use Rattle.std.specs.List.{flat_map};
ghost use Rattle.zk_term.specs.Numbers.{address_digits, hex_digit, hex_digits, zeros_left_out};

use crate::line_writer::LineWriter;
use itoa::Buffer;

/// Writes texts one after another.
pub fn write_texts<P: LineWriter>(writer: &mut P, texts: &[&[u8]])
    ensures { P.wrote writer.old writer.new (flat_map (λ t. t.now) texts.now) }
{
    for text in texts {
        writer.write(text);
    }
}

/// The hexadecimal digit of a number below 16.
fn hex_digit_of(n: u32) -> u8
    requires { n < 16 }
    ensures { result ≡ hex_digit n }
{
    if n < 10 {
        b'0' + n as u8
    } else {
        b'a' + (n as u8 - 10)
    }
}

/// The hexadecimal digits of a number.
#[tactic(auto, unfolding(crate::specs::Numbers::hex_digits))]
pub fn hex_digits_of(n: u32) -> [u8; 8]
    ensures { result ≡ hex_digits n }
{
    [
        hex_digit_of(n / 0x1000_0000 % 16),
        hex_digit_of(n / 0x100_0000 % 16),
        hex_digit_of(n / 0x10_0000 % 16),
        hex_digit_of(n / 0x1_0000 % 16),
        hex_digit_of(n / 0x1000 % 16),
        hex_digit_of(n / 0x100 % 16),
        hex_digit_of(n / 0x10 % 16),
        hex_digit_of(n % 16),
    ]
}

/// How many zeros are left out of an address.
pub fn zeros_before(address: u32) -> usize
    ensures { result ≡ zeros_left_out address }
{
    if address < 0x10_0000 {
        3
    } else if address < 0x100_0000 {
        2
    } else if address < 0x1000_0000 {
        1
    } else {
        0
    }
}

/// Writes an address after a text: by its hexadecimal digits, five at least.
#[tactic(auto, unfolding(crate::specs::Numbers::address_digits))]
pub fn write_address<P: LineWriter>(writer: &mut P, before: &[u8], address: u32)
    ensures { P.wrote writer.old writer.new (before.now ++ address_digits address) }
{
    let digits = hex_digits_of(address);
    let shown = &digits[zeros_before(address)..];
    write_texts(writer, &[before, shown]);
}

/// Writes a number after a text, by its decimal digits.
pub fn write_decimal<P: LineWriter>(writer: &mut P, before: &[u8], n: u32)
    ensures { P.wrote writer.old writer.new (before.now ++ decimal n) }
{
    let mut buffer = Buffer::new();
    write_texts(writer, &[before, buffer.format(n).as_bytes()]);
}
