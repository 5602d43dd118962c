// The texts of a debugging file.

ghost use Rattle.std.specs.Prelude.{◌≡◌};
ghost use Rattle.zk_names.specs.Nodes.{digits, number_of};

use std::alloc::{AllocError, Global};
use std::str;

/// What stands behind an ampersand for a character, and the character (XML 1.0, section 4.6).
const ENTITIES: [(&[u8], u8); 5] = [
    (b"amp;", b'&'),
    (b"lt;", b'<'),
    (b"gt;", b'>'),
    (b"quot;", b'"'),
    (b"apos;", b'\''),
];

/// The character that stands behind an ampersand, and what comes after it.
fn entity_of(text: &[u8]) -> Option<(u8, &[u8])> {
    for (name, byte) in &ENTITIES {
        if let Some(rest) = text.strip_prefix(*name) {
            return Some((*byte, rest));
        }
    }
    None
}

/// Whether bytes of a text begin with what is no character of XML: a control character, U+FFFE or U+FFFF (XML 1.0,
/// section 2.2).
fn begins_with_no_character(text: &[u8]) -> bool {
    match text {
        [0xef, 0xbf, 0xbe | 0xbf, ..] => true,
        [first, ..] => *first < b' ' && !matches!(*first, b'\t' | b'\n' | b'\r'),
        [] => false,
    }
}

/// Where bytes are no text for XML, if they are none: no UTF-8, or no character of XML.
pub(crate) fn no_text_at(bytes: &[u8]) -> Option<usize> {
    if let Err(error) = str::from_utf8(bytes) {
        return Some(error.valid_up_to());
    }
    (0..bytes.len()).find(|at| begins_with_no_character(&bytes[*at..]))
}

/// Whether each ampersand of a text begins an entity that XML knows, and no `>` stands in it: Inform writes an entity
/// for that.
pub(crate) fn has_known_entities(text: &[u8]) -> bool {
    if text.contains(&b'>') {
        return false;
    }
    for part in text.split(|byte| *byte == b'&').skip(1) {
        if entity_of(part).is_none() {
            return false;
        }
    }
    true
}

/// A text of a debugging file as it is meant: with characters in place of entities.
pub fn plain_text(alloc: Global, text: &[u8]) -> Result<String, AllocError> {
    let mut plain = Vec::new(alloc);
    for (index, part) in text.split(|byte| *byte == b'&').enumerate() {
        match entity_of(part) {
            Some((byte, rest)) if index > 0 => {
                plain.push(byte)?;
                plain.extend_from_slice(rest)?;
            }
            _ => plain.extend_from_slice(part)?,
        }
    }
    String::from_utf8_lossy(alloc, plain.as_slice())
}

/// The number that decimal digits are, below 2^32.
fn digits(text: &[u8]) -> Option<u32>
    ensures { result ≡ digits text.now }
{
    let mut number: u32 = 0;
    for digit in text {
        if !digit.is_ascii_digit() {
            return None;
        }
        let next = 10 * u64::from(number) + u64::from(*digit - b'0');
        if next > u64::from(u32::MAX) {
            return None;
        }
        number = next as u32;
    }
    if text.is_empty() { None } else { Some(number) }
}

/// The number that a text is, with white space around it.
pub(crate) fn number_in(text: &[u8]) -> Option<u32>
    ensures { result ≡ number_of text.now }
{
    digits(text.trim_ascii_start().trim_ascii_end())
}
