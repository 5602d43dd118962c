// Dictionaries and words of small stories, against worked examples.

use crate::tests_same::same;
use std::alloc::Global;
use std::test::Fail;
use zk_mem::fault::Fault;
use zk_mem::memory::{Memory, ScreenSetup, Setup};
use zk_mem::story::Story;
use zk_tables::dictionary::Dictionary;
use zk_tables::parsing::tokenise;
use zk_text::key::key;

pub(crate) const DICTIONARY: u8 = 0x40;

pub(crate) const TEXT: u8 = 0x60;

pub(crate) const PARSE: u8 = 0x80;

/// The value of a hexadecimal digit.
pub(crate) fn nibble(digit: u8) -> u8 {
    if digit >= b'A' {
        (digit - b'A') % 6 + 10
    } else {
        digit % 16
    }
}

/// Puts the bytes that hexadecimal digits say from an address on; two digits and a space for each.
pub(crate) fn put(bytes: &mut [u8; 0x200], start: u8, digits: &str) {
    let mut at = start as usize;
    let mut high = 0;
    for (i, digit) in digits.bytes().enumerate() {
        if i % 3 == 0 {
            high = nibble(digit);
        } else if i % 3 == 1 {
            bytes[at % 0x200] = high % 16 * 16 + nibble(digit) % 16;
            at = at % 0x200 + 1;
        }
    }
}

/// A story of 512 bytes with a dictionary, a text buffer and a parse buffer.
pub(crate) fn story(
    alloc: Global,
    version: u8,
    static_base: u8,
    (dictionary, text, parse): (&str, &str, &str),
) -> Result<Memory, Fail> {
    let mut bytes = [0; 0x200];
    put(&mut bytes, DICTIONARY, dictionary);
    put(&mut bytes, TEXT, text);
    put(&mut bytes, PARSE, parse);
    bytes[0x00] = version;
    bytes[0x07] = 0x40;
    bytes[0x0f] = static_base;
    let story = Story::open(alloc, &bytes)?;
    Ok(Memory::start(
        alloc,
        story,
        Setup {
            undo_states: 0,
            screen: ScreenSetup::plain(),
        },
    )?)
}

/// Whether the bytes that hexadecimal digits say stand from an address on.
pub(crate) fn holds(memory: &Memory, start: u8, digits: &str) -> bool {
    let mut wanted = [0; 0x200];
    for at in 0..0x200u32 {
        wanted[at as usize] = memory.cell(at).unwrap_or(0);
    }
    let found = wanted;
    put(&mut wanted, start, digits);
    wanted == found
}

/// Two entries of `take`, and one of `the` and a space.
pub(crate) const THREE: &str = "00 04 00 03 64 D0 A8 A5 64 D0 A8 A5 65 AA 80 A5";

/// The same with the first and the third exchanged, and a negative count.
pub(crate) const EXCHANGED: &str = "00 04 FF FD 65 AA 80 A5 64 D0 A8 A5 64 D0 A8 A5";

/// The same with a positive count.
pub(crate) const FALLING: &str = "00 04 00 03 65 AA 80 A5 64 D0 A8 A5 64 D0 A8 A5";

/// A separator, the comma, and no entries.
pub(crate) const COMMA: &str = "01 2C 07 00 00";

/// The text `fred,go fishing` of version 3.
pub(crate) const FRED: &str = "40 66 72 65 64 2C 67 6F 20 66 69 73 68 69 6E 67 00";

/// Where the first entry of a word stands.
pub(crate) fn found(alloc: Global, dictionary: &str, word: &str) -> Result<u16, Fail> {
    let memory = story(alloc, 3, 0x40, (dictionary, "", ""))?;
    let dictionary = Dictionary::at(&memory, 0x40)?;
    let spelled = key(&memory, word.as_bytes());
    Ok(dictionary.find(&memory, spelled.as_slice()))
}

/// What a search by halves gives for a word in a dictionary that allows it.
pub(crate) fn halves(
    alloc: Global,
    dictionary: &str,
    word: &str,
) -> Result<Option<(u16, u32)>, Fail> {
    let memory = story(alloc, 3, 0x40, (dictionary, "", ""))?;
    let dictionary = Dictionary::at(&memory, 0x40)?;
    if !dictionary.allows_halves {
        return Ok(None);
    }
    let spelled = key(&memory, word.as_bytes());
    Ok(Some(dictionary.halves(&memory, spelled.as_slice())))
}

#[test]
fn finds_the_first_entry_by_halves(rt: HostRuntime) -> Result<(), Fail> {
    same(&rt, halves(rt.alloc(), THREE, "take")?, Some((0x44, 3)));
    same(&rt, halves(rt.alloc(), THREE, "the ")?, Some((0x4c, 3)));
    same(&rt, halves(rt.alloc(), THREE, "take@")?, Some((0, 3)));
    same(&rt, halves(rt.alloc(), THREE, "zoo")?, Some((0, 2)));
    same(&rt, halves(rt.alloc(), EXCHANGED, "take")?, None);
    same(&rt, halves(rt.alloc(), FALLING, "take")?, None);
    same(
        &rt,
        halves(rt.alloc(), "00 04 00 00", "take")?,
        Some((0, 0)),
    );
    Ok(())
}

/// Whether a dictionary at the address 0040 can be searched by halves.
pub(crate) fn allows_halves(
    alloc: Global,
    version: u8,
    static_base: u8,
    dictionary: &str,
) -> Result<bool, Fail> {
    let memory = story(alloc, version, static_base, (dictionary, "", ""))?;
    Ok(Dictionary::at(&memory, 0x40)?.allows_halves)
}

/// Divides a text into words, and tells the result and whether the parse buffer holds bytes then.
pub(crate) fn divides(
    alloc: Global,
    version: u8,
    static_base: u8,
    tables: (&str, &str, &str),
    leaves_unknown: bool,
    wanted: &str,
) -> Result<(Result<(), Fault>, bool), Fail> {
    let mut memory = story(alloc, version, static_base, tables)?;
    let dictionary = Dictionary::at(&memory, 0x40)?;
    let result = tokenise(&mut memory, 0x60, 0x80, &dictionary, leaves_unknown);
    Ok((result, holds(&memory, 0x80, wanted)))
}

#[test]
fn divides_a_text(rt: HostRuntime) -> Result<(), Fail> {
    let alloc = rt.alloc();
    let three = "03 03 00 00 04 01 00 00 01 05 00 00 02 06 00 00 00";
    let four = "09 04 00 00 04 01 00 00 01 05 00 00 02 06 00 00 07 09 00";
    let done = (Ok(()), true);
    same(
        &rt,
        divides(alloc, 3, 0xff, (COMMA, FRED, "03"), false, three)?,
        done,
    );
    same(
        &rt,
        divides(alloc, 3, 0xff, (COMMA, FRED, "09"), false, four)?,
        done,
    );
    Ok(())
}
