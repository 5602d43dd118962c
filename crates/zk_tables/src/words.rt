// Dividing a text into words.

ghost use Rattle.std.specs.Prelude.{◌≡◌, ◌≤◌, ◌<◌, ◌+◌, ◌++◌, IfSome, MatchResult, length, Ok, Err};
ghost use Rattle.zk_tables.specs.Dictionaries.{IsDictionaryOf, separators_of};
ghost use Rattle.zk_tables.specs.Parsing.{letters_counted, letters_to_zero, letters_start, letters_of, word_in};
ghost use Rattle.zk_tables.specs.Parsing.{words_for, words_of};

use crate::dictionary::Dictionary;
use crate::tokens::{Token, is_of_word, token_at};
use arrayvec::ArrayVec;
use zk_mem::fault::Fault;
use zk_mem::memory::Memory;
use zk_text::key::key;

/// A word of a text, in a dictionary.
#[derive(Clone, Copy, Default, Drop)]
pub struct Word {
    /// The byte address of its entry, or 0.
    pub entry: u16,
    pub length: u8,
    /// Where it begins in the text buffer.
    pub position: u8,
}

/// So many letters from an address on.
#[tactic(auto, using(crate::proofs::Dividing::of_read_counted))]
fn read_counted(memory: &Memory, address: u32, count: u8) -> Result<ArrayVec<u8, 255>, Fault>
    requires { address < 70000 }
    ensures { MatchResult result (λ v. letters_counted memory.now address count ≡ Ok v.items)
        (λ e. letters_counted memory.now address count ≡ Err e) }
{
    let mut letters = ArrayVec::new();
    for i in 0..count as u32 {
        match memory.byte(address + i) {
            Ok(code) => letters.push(code),
            Err(fault) => return Err(fault),
        }
    }
    Ok(letters)
}

/// The letters from an address on, up to a zero or 254 of them.
#[tactic(auto, using(crate::proofs::Dividing::of_read_to_zero))]
fn read_to_zero(memory: &Memory, address: u32) -> Result<ArrayVec<u8, 255>, Fault>
    requires { address < 70000 }
    ensures { MatchResult result (λ v. letters_to_zero memory.now address 254 ≡ Ok v.items)
        (λ e. letters_to_zero memory.now address 254 ≡ Err e) }
{
    let mut letters = ArrayVec::new();
    for i in 0..254u32 {
        let code = memory.byte(address + i)?;
        if code == 0 {
            return Ok(letters);
        }
        letters.push(code);
    }
    Ok(letters)
}

/// The letters of a text buffer.
#[tactic(auto, unfolding(crate::specs::Parsing::letters_of), using(crate::proofs::Storing::letters_past))]
pub(crate) fn read_letters(memory: &Memory, text: u32) -> Result<ArrayVec<u8, 255>, Fault>
    ensures { MatchResult result (λ v. letters_of memory.now text ≡ Ok v.items)
        (λ e. letters_of memory.now text ≡ Err e) }
{
    if text >= 0x10000 {
        return Err(Fault::BadAddress);
    }
    if memory.version() < 5 {
        return read_to_zero(memory, text + 1);
    }
    let count = memory.byte(text + 1)?;
    read_counted(memory, text + 2, count)
}

/// The separators of a dictionary.
#[tactic(auto, unfolding(crate::proofs::Opened::in_read_separators), using(crate::proofs::Dividing::separators_read))]
fn read_separators(memory: &Memory, dictionary: &Dictionary) -> ArrayVec<u8, 255>
    requires { IsDictionaryOf memory.now dictionary.now }
    ensures { result.items ≡ separators_of memory.now dictionary.now }
{
    let mut separators = ArrayVec::new();
    for i in 0..dictionary.separators {
        let Some(code) = memory.cell(dictionary.address + 1 + i as u32) else {
            return separators;
        };
        separators.push(code);
    }
    separators
}

/// A word in a dictionary.
#[tactic(auto, unfolding(crate::specs::Parsing::word_in))]
fn word_of(memory: &Memory, dictionary: &Dictionary, letters: &[u8], token: Token) -> Word
    requires stands { IsDictionaryOf memory.now dictionary.now }
    requires within { token.position + token.length ≤ length letters.now }
    ensures { result ≡ word_in memory.now dictionary.now letters.now token }
{
    let first = token.position as usize;
    let spelled = key(memory, &letters[first..first + token.length as usize]);
    let start = if memory.version() < 5 { 1 } else { 2 };
    Word {
        entry: dictionary.find(memory, spelled.as_slice()),
        length: token.length,
        position: ((token.position as u32 + start) % 256) as u8,
    }
}

/// Puts the word of a token, where there is one, after others.
fn put_word(
    words: &mut ArrayVec<Word, 255>,
    memory: &Memory,
    dictionary: &Dictionary,
    letters: &[u8],
    token: Option<Token>,
)
    requires stands { IsDictionaryOf memory.now dictionary.now }
    requires within { IfSome token (λ t. t.position + t.length ≤ length letters.now) }
    requires room { length words.old.items ≤ 254 }
    ensures value { words.new.items
        ≡ words.old.items ++ words_for memory.now dictionary.now letters.now token }
    ensures room { length words.new.items ≤ length words.old.items + 1 }
{
    if let Some(token) = token {
        words.push(word_of(memory, dictionary, letters, token));
    }
}

/// The words of a text, in a dictionary.
#[tactic(auto, using(crate::proofs::Dividing::of_find_words))]
pub(crate) fn find_words(
    memory: &Memory,
    dictionary: &Dictionary,
    letters: &[u8],
) -> ArrayVec<Word, 255>
    requires stands { IsDictionaryOf memory.now dictionary.now }
    requires short { length letters.now ≤ 255 }
    ensures { result.items ≡ words_of memory.now dictionary.now letters.now }
{
    let separators = read_separators(memory, dictionary);
    let separators = separators.as_slice();
    let mut words = ArrayVec::new();
    let mut inside = false;
    for position in 0..letters.len() {
        let token = token_at(separators, letters, position, inside);
        put_word(&mut words, memory, dictionary, letters, token);
        inside = is_of_word(separators, letters[position]);
    }
    words
}
