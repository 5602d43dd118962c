// Storing the words of a text in a parse buffer.

ghost use Rattle.std.specs.Prelude.{◌≡◌, ◌≤◌, ◌<◌, ◌+◌, ◌*◌, ℕ, Ok, Err, MatchResult, length, take};
ghost use Rattle.zk_mem.specs.Map.{byte_put, word_put};
ghost use Rattle.zk_mem.specs.Laws.{IsSameBut};
ghost use Rattle.zk_tables.specs.Dictionaries.{IsDictionaryOf};
ghost use Rattle.zk_tables.specs.Parsing.{block_put, blocks_put, words_put, tokenised, ChangesParseBuffer};

use crate::dictionary::Dictionary;
use crate::words::{Word, find_words, read_letters};
use zk_mem::fault::Fault;
use zk_mem::memory::Memory;

fn store_byte(memory: &mut Memory, address: u32, value: u8) -> Result<(), Fault>
    ensures value { MatchResult result (λ _. byte_put memory.old address value ≡ Ok memory.new)
        (λ e. byte_put memory.old address value ≡ Err e) }
    ensures beside { (low : ℕ) (high : ℕ) → low ≤ address → address < high
        → IsSameBut memory.old memory.new low high }
{
    memory.set_byte(address, value)
}

fn store_word(memory: &mut Memory, address: u32, value: u16) -> Result<(), Fault>
    ensures value { MatchResult result (λ _. word_put memory.old address value ≡ Ok memory.new)
        (λ e. word_put memory.old address value ≡ Err e) }
    ensures beside { (low : ℕ) (high : ℕ) → low ≤ address → address + 1 < high
        → IsSameBut memory.old memory.new low high }
{
    memory.set_word(address, value)
}

/// Stores a word in a block of four bytes. An unknown word may be left out.
#[tactic(auto, unfolding(crate::specs::Parsing::block_put), using(crate::proofs::Storing::of_put_block))]
fn put_block(
    memory: &mut Memory,
    address: u32,
    leaves_unknown: bool,
    word: Word,
) -> Result<(), Fault>
    requires { address < 100000 }
    ensures value { MatchResult result
        (λ _. block_put memory.old address leaves_unknown word ≡ Ok memory.new)
        (λ e. block_put memory.old address leaves_unknown word ≡ Err e) }
    ensures beside { (low : ℕ) (high : ℕ) → low ≤ address → address + 4 ≤ high
        → IsSameBut memory.old memory.new low high }
{
    if leaves_unknown && word.entry == 0 {
        return Ok(());
    }
    store_word(memory, address, word.entry)?;
    store_byte(memory, address + 2, word.length)?;
    store_byte(memory, address + 3, word.position)
}

/// Stores words in blocks, one after the other.
#[tactic(auto, using(crate::proofs::Storing::of_put_blocks))]
fn put_blocks(
    memory: &mut Memory,
    address: u32,
    leaves_unknown: bool,
    words: &[Word],
) -> Result<(), Fault>
    requires address { address < 90000 }
    requires some { length words.now ≤ 255 }
    ensures value { MatchResult result
        (λ _. blocks_put memory.old address leaves_unknown words.now ≡ Ok memory.new)
        (λ e. blocks_put memory.old address leaves_unknown words.now ≡ Err e) }
    ensures beside { (low : ℕ) (high : ℕ) → low ≤ address → address + 4 * length words.now ≤ high
        → IsSameBut memory.old memory.new low high }
{
    for i in 0..words.len() {
        put_block(memory, address + 4 * i as u32, leaves_unknown, words[i])?;
    }
    Ok(())
}

/// The first words, so many at most.
#[tactic(auto, using(crate::proofs::Storing::take_most))]
fn first_words(words: &[Word], most: u8) -> &[Word]
    ensures { result.now ≡ take most words.now }
{
    &words[..words.len().min(most as usize)]
}

/// Stores as many words in a parse buffer as its first byte allows, and in the second how many they are.
#[tactic(auto, unfolding(crate::specs::Parsing::words_put), using(crate::proofs::Storing::of_put_words))]
fn put_words(
    memory: &mut Memory,
    parse: u32,
    leaves_unknown: bool,
    words: &[Word],
) -> Result<(), Fault>
    requires some { length words.now ≤ 255 }
    ensures value { MatchResult result
        (λ _. words_put memory.old parse leaves_unknown words.now ≡ Ok memory.new)
        (λ e. words_put memory.old parse leaves_unknown words.now ≡ Err e) }
    ensures beside { ChangesParseBuffer memory.old memory.new parse }
{
    if parse >= 0x10000 {
        return Err(Fault::BadAddress);
    }
    let words = first_words(words, memory.byte(parse)?);
    store_byte(memory, parse + 1, words.len() as u8)?;
    put_blocks(memory, parse + 2, leaves_unknown, words)
}

/// Divides the text in a text buffer into words, looks them up in a dictionary and stores them in a parse
/// buffer, all at byte addresses. Where `leaves_unknown` is set, the block of a word that is not in the dictionary
/// stays as it is (Z-Machine Standards Document 1.1, sections 13.6 and 15, `tokenise`).
///
/// All words are looked up before the first byte is stored. `BadAddress` where a letter of the text or the first
/// byte of the parse buffer can't be read, `BadAddress` or `ReadOnly` for the first byte or word that can't be
/// stored; what was stored before it stands.
#[tactic(auto, unfolding(crate::specs::Parsing::tokenised))]
pub fn tokenise(
    memory: &mut Memory,
    text: u32,
    parse: u32,
    dictionary: &Dictionary,
    leaves_unknown: bool,
) -> Result<(), Fault>
    requires stands { IsDictionaryOf memory.old dictionary.now }
    ensures value { MatchResult result
        (λ _. tokenised memory.old text parse dictionary.now leaves_unknown ≡ Ok memory.new)
        (λ e. tokenised memory.old text parse dictionary.now leaves_unknown ≡ Err e) }
    ensures beside { ChangesParseBuffer memory.old memory.new parse }
{
    let letters = read_letters(memory, text)?;
    let words = find_words(memory, dictionary, letters.as_slice());
    put_words(memory, parse, leaves_unknown, words.as_slice())
}
