// Texts, keys and tables against values of the Standard.

use crate::tests_same::same;
use std::alloc::Global;
use std::test::Fail;
use zk_mem::fault::Fault;
use zk_mem::memory::{Memory, ScreenSetup, Setup};
use zk_mem::story::Story;
use zk_text::key::key;
use zk_text::text::check_text;
use zk_text::walked::words_walked;

/// A story whose header is followed by some bytes, with these values at these addresses.
pub(crate) fn memory_of(
    alloc: Global,
    fields: &[(usize, u8)],
    rest: &[u8],
) -> Result<Memory, Fail> {
    let mut file = Vec::new(alloc);
    file.extend_from_slice(&[0; 64])?;
    file.extend_from_slice(rest)?;
    for address in [0x05, 0x07, 0x0f] {
        if let Some(byte) = file.get_mut(address) {
            *byte = 0x40;
        }
    }
    for (address, value) in fields {
        if let Some(byte) = file.get_mut(*address) {
            *byte = *value;
        }
    }
    let story = Story::open(alloc, file.as_slice())?;
    Ok(Memory::start(
        alloc,
        story,
        Setup {
            undo_states: 0,
            screen: ScreenSetup::plain(),
        },
    )?)
}

/// A word address of an abbreviation, the abbreviation, and a text at $44 that uses it.
pub(crate) const NESTED: [u8; 8] = [0x00, 0x21, 0x84, 0x05, 0x35, 0xc1, 0x80, 0xa5];

#[test]
fn refuses_texts(rt: HostRuntime) -> Result<(), Fail> {
    let rows: [(&[u8], u32, Fault); 4] = [
        (&NESTED, 0x44, Fault::NestedAbbreviation),
        (&[0x35, 0xcd], 0x40, Fault::TextPastEnd),
        (&[0x35, 0xcd, 0x94], 0x40, Fault::TextPastEnd),
        (&[0x8d, 0x00, 0x30, 0xba], 0x60, Fault::TextPastEnd),
    ];
    for (bytes, address, fault) in rows {
        let memory = memory_of(rt.alloc(), &[(0, 3), (0x19, 0x40)], bytes)?;
        same(&rt, check_text(&memory, address), Err(fault));
    }
    Ok(())
}

#[test]
fn counts_words(rt: HostRuntime) -> Result<(), Fail> {
    // an abbreviation of two words, and a text
    let twice = &[0x00, 0x21, 0x00, 0x00, 0x80, 0x00, 0x04, 0x01, 0x80, 0xa5];
    let in_a_code = &[0x00, 0x21, 0x00, 0x00, 0x80, 0x00, 0x14, 0xc1, 0x80, 0xa5];
    let rows: [(&[u8], u32, u32, u32); 6] = [
        (twice, 0x46, 100, 6),
        (twice, 0x46, 6, 6),
        (twice, 0x46, 5, 5),
        (twice, 0x42, 100, 2),
        (in_a_code, 0x46, 100, 2),
        (&[0x35, 0xcd, 0x35, 0xcd, 0x35], 0x40, 100, 2),
    ];
    for (bytes, address, most, count) in rows {
        let memory = memory_of(rt.alloc(), &[(0, 3), (0x19, 0x40)], bytes)?;
        same(&rt, words_walked(&memory, address, most), count);
    }
    Ok(())
}

#[test]
fn spells_keys(rt: HostRuntime) -> Result<(), Fail> {
    let rows: [(u8, &[u8], &[u8]); 5] = [
        (3, b"take", &[0x64, 0xd0, 0xa8, 0xa5]),
        (3, b"takes it", &[0x64, 0xd0, 0xab, 0x00]),
        (3, b"X,", &[0x13, 0xa5, 0xcc, 0xa5]),
        (3, b"@", &[0x14, 0xc2, 0x80, 0xa5]),
        (5, b"i", &[0x38, 0xa5, 0x14, 0xa5, 0x94, 0xa5]),
    ];
    for (version, word, bytes) in rows {
        let memory = memory_of(rt.alloc(), &[(0, version)], &[0])?;
        same(&rt, key(&memory, word).as_slice(), bytes);
    }
    Ok(())
}
