// The keys of words, as a dictionary has them.

ghost use Rattle.std.specs.Prelude.{◌≡◌, ◌≤◌, ◌<◌, ◌∷◌, ◌++◌, List, ℕ, length, take, ◌-◌, ◌+◌, nat_lt, if◌then◌else◌};
ghost use Rattle.zk_text.specs.Alphabets.{alphabet_table};
ghost use Rattle.zk_text.specs.Keys.{place_from, a2_place, spelling, key_characters, packed_word, two_bytes, key_of};

use crate::alphabet::{Alphabet, Row};
use arrayvec::ArrayVec;
use zk_mem::memory::Memory;

/// The first Z-character, from one on, that is a letter of an alphabet.
#[tactic(auto, using(crate::proofs::Spells::of_find_from))]
fn find_from(memory: &Memory, alphabet: Alphabet, row: Row, code: u8, from: u8) -> Option<u8>
    requires alphabet { alphabet.table ≡ alphabet_table memory.now }
    requires from { from ≤ 32 }
    ensures { result ≡ place_from memory.now row code (32 - from) from }
{
    for character in from..32 {
        if alphabet.letter(memory, row, character) == code {
            return Some(character);
        }
    }
    None
}

#[tactic(auto, unfolding(crate::specs::Keys::a2_place))]
fn find_in_a2(memory: &Memory, alphabet: Alphabet, code: u8) -> Option<u8>
    requires alphabet { alphabet.table ≡ alphabet_table memory.now }
    ensures { result ≡ a2_place memory.now code }
{
    if code == 13 {
        Some(7)
    } else {
        find_from(memory, alphabet, Row::A2, code, 8)
    }
}

/// One more Z-character, where there is room.
#[tactic(auto, using(crate::proofs::Spells::take_on, crate::proofs::Spells::take_full))]
fn put_character(characters: &mut ArrayVec<u8, 9>, most: usize, character: u8)
    requires room { length characters.old.items ≤ most }
    requires nine { most ≤ 9 }
    ensures room { length characters.new.items ≤ most }
    ensures next { (rest : List ℕ) → take most (characters.new.items ++ rest)
        ≡ take most (characters.old.items ++ character ∷ rest) }
{
    if characters.len() < most {
        characters.push(character);
    }
}

#[tactic(auto, unfolding(crate::specs::Keys::spelling))]
fn put_letter(
    memory: &Memory,
    alphabet: Alphabet,
    characters: &mut ArrayVec<u8, 9>,
    most: usize,
    code: u8,
)
    requires alphabet { alphabet.table ≡ alphabet_table memory.now }
    requires room { length characters.old.items ≤ most }
    requires nine { most ≤ 9 }
    ensures room { length characters.new.items ≤ most }
    ensures next { (rest : List ℕ) → take most (characters.new.items ++ rest)
        ≡ take most (characters.old.items ++ (spelling memory.now code ++ rest)) }
{
    if code == 32 {
        put_character(characters, most, 0);
    } else if let Some(character) = find_from(memory, alphabet, Row::A0, code, 6) {
        put_character(characters, most, character);
    } else if let Some(character) = find_from(memory, alphabet, Row::A1, code, 6) {
        put_character(characters, most, 4);
        put_character(characters, most, character);
    } else if let Some(character) = find_in_a2(memory, alphabet, code) {
        put_character(characters, most, 5);
        put_character(characters, most, character);
    } else {
        put_character(characters, most, 5);
        put_character(characters, most, 6);
        put_character(characters, most, code / 32);
        put_character(characters, most, code % 32);
    }
}

/// The Z-characters of a key.
#[tactic(auto, using(crate::proofs::Spells::of_characters_of_key))]
fn characters_of_key(memory: &Memory, text: &[u8], most: usize) -> ArrayVec<u8, 9>
    requires { most ≤ 9 }
    ensures value { result.items ≡ key_characters memory.now most text.now }
    ensures length { length result.items ≡ most }
{
    let alphabet = Alphabet::of(memory);
    let mut characters = ArrayVec::new();
    for code in text {
        put_letter(memory, alphabet, &mut characters, most, *code);
    }
    for _i in 0..most {
        put_character(&mut characters, most, 5);
    }
    characters
}

fn word_from(characters: &[u8], index: usize) -> u16
    requires { index + 2 < length characters.now }
    ensures value { result ≡ packed_word characters.now index }
    ensures unmarked { result < 32768 }
{
    1024 * (characters[index] % 32) as u16
        + 32 * (characters[index + 1] % 32) as u16
        + (characters[index + 2] % 32) as u16
}

fn put_word(bytes: &mut ArrayVec<u8, 6>, word: u16)
    requires { length bytes.old.items ≤ 4 }
    ensures { bytes.new.items ≡ bytes.old.items ++ two_bytes word }
{
    bytes.push((word / 256) as u8);
    bytes.push((word % 256) as u8);
}

/// The key of a word, whose letters are ZSCII codes: 4 bytes in version 3, 6 from version 4 on
/// (Z-Machine Standards Document 1.1, sections 3.7, 13.3 and 13.4). Letters are spelled by the
/// alphabets in force; what is over the 6 or 9 Z-characters of a key is cut off.
#[tactic(auto, unfolding(crate::specs::Keys::key_of))]
pub fn key(memory: &Memory, text: &[u8]) -> ArrayVec<u8, 6>
    ensures value { result.items ≡ key_of memory.now text.now }
    ensures length { length result.items ≡ (if nat_lt memory.now.version 4 then 4 else 6) }
{
    let mut bytes = ArrayVec::new();
    if memory.version() < 4 {
        let characters = characters_of_key(memory, text, 6);
        put_word(&mut bytes, word_from(characters.as_slice(), 0));
        put_word(&mut bytes, 0x8000 + word_from(characters.as_slice(), 3));
    } else {
        let characters = characters_of_key(memory, text, 9);
        put_word(&mut bytes, word_from(characters.as_slice(), 0));
        put_word(&mut bytes, word_from(characters.as_slice(), 3));
        put_word(&mut bytes, 0x8000 + word_from(characters.as_slice(), 6));
    }
    bytes
}
