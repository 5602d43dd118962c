// How many words are walked where a text is printed.

ghost use Rattle.std.specs.Prelude.{◌≡◌, ◌≤◌, ◌-◌, ◌∷◌, ◌++◌, List, ℕ, length, min};
ghost use Rattle.zk_text.specs.Reading.{held_back};
ghost use Rattle.zk_text.specs.Walked.{abbreviation_length, named_length, run_at, some_length, words_walked};
ghost use Rattle.zk_text.specs.Words.{z_characters};

use crate::pieces::{Pending, Piece, advance};
use zk_mem::memory::Memory;

/// The number of words from a byte address on, up to the last one of a text or to the story's end, and at most so many.
fn count_words(memory: &Memory, address: u32, most: u32) -> u32
    ensures { result ≡ min (length (run_at memory.now address)) most }
{
    let mut at = address;
    for count in 0..most {
        let Some(word) = memory.code_word(at) else {
            return count;
        };
        if word >= 0x8000 {
            return count + 1;
        }
        at += 2;
    }
    most
}

/// The number of words of an abbreviation, and at most so many.
#[tactic(auto, unfolding(crate::specs::Walked::abbreviation_length))]
fn abbreviation_length(memory: &Memory, number: u16, most: u32) -> u32
    ensures { result ≡ min (abbreviation_length memory.now number) most }
{
    match memory.word(memory.header().abbreviations as u32 + 2 * number as u32) {
        Ok(word) => count_words(memory, 2 * word as u32, most),
        Err(_) => 0,
    }
}

/// What is left of so many words after those that a piece names.
fn left_of(memory: &Memory, piece: Option<Piece>, left: u32) -> u32
    ensures { result ≡ left - some_length memory.now piece }
{
    match piece {
        Some(Piece::Abbreviation(number)) => left - abbreviation_length(memory, number, left),
        _ => left,
    }
}

/// A Z-character: what is held back then, and what is left of so many words.
fn pass_character(memory: &Memory, held: Pending, character: u8, left: u32) -> (Pending, u32)
    ensures fewer { result.1 ≤ left }
    ensures left { (zs : List ℕ) → left - named_length memory.now (held_back held ++ character ∷ zs)
        ≡ result.1 - named_length memory.now (held_back result.0 ++ zs) }
{
    let (next, piece) = advance(held, character);
    (next, left_of(memory, piece, left))
}

/// The three Z-characters of a word.
#[tactic(auto, unfolding(crate::specs::Words::z_characters))]
fn pass_word(memory: &Memory, held: Pending, word: u16, left: u32) -> (Pending, u32)
    ensures fewer { result.1 ≤ left }
    ensures left { (ws : List ℕ) → left - named_length memory.now (held_back held ++ z_characters (word ∷ ws))
        ≡ result.1 - named_length memory.now (held_back result.0 ++ z_characters ws) }
{
    let (held, left) = pass_character(memory, held, (word / 1024 % 32) as u8, left);
    let (held, left) = pass_character(memory, held, (word / 32 % 32) as u8, left);
    pass_character(memory, held, (word % 32) as u8, left)
}

/// What is left of so many words after those that are walked where the text at a byte address is printed.
fn left_after(memory: &Memory, address: u32, most: u32) -> u32
    ensures { result ≡ most - words_walked memory.now address }
{
    let mut at = address;
    let mut held = Pending::Nothing;
    let mut left = most;
    for _i in 0..most {
        let Some(word) = memory.code_word(at) else {
            return left;
        };
        let (next, rest) = pass_word(memory, held, word, left.saturating_sub(1));
        if rest == 0 {
            return 0;
        }
        if word >= 0x8000 {
            return rest;
        }
        held = next;
        left = rest;
        at += 2;
    }
    left
}

/// How many words are walked where the text at a byte address is printed: its own, and with each use of an abbreviation
/// the abbreviation's (Z-Machine Standards Document 1.1, sections 3.2 and 3.3). A text without an end goes on to the
/// story's end. No more than `most` are counted, or looked at.
pub fn words_walked(memory: &Memory, address: u32, most: u32) -> u32
    ensures { result ≡ min (words_walked memory.now address) most }
{
    most - left_after(memory, address, most)
}
