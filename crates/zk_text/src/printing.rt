// The units of a text, given to a sink from any place of the text on.

ghost use Rattle.std.specs.Prelude.{◌≡◌, ◌≤◌, ◌<◌, ◌+◌, ◌∷◌, ◌++◌, [], List, ℕ, Bool, false, true, Ok, None, Some};
ghost use Rattle.std.specs.Prelude.{IsOk, IfErr, IfOk, OnOk, OnErr, drop};
ghost use Rattle.zk_mem.specs.Map.{MemoryMap, code_word_at};
ghost use Rattle.zk_text.specs.Alphabets.{alphabet_table, letter_of};
ghost use Rattle.zk_text.specs.Meaning.{Units, abbreviation, meaning, value, values};
ghost use Rattle.zk_text.specs.Pieces.{pieces};
ghost use Rattle.zk_text.specs.Places.{Gives, HasEntered, HasPassed, IsPlace, IsUpTo, Refuses, first_place, left};
ghost use Rattle.zk_text.specs.Places.{rest_met, rest_on, rest_read, work_left};
ghost use Rattle.zk_text.specs.Reading.{held_back};
ghost use Rattle.zk_text.specs.Words.{z_characters};
ghost use Rattle.zk_text.specs.declared.unit.Unit.{Unit};

use crate::alphabet::Alphabet;
use crate::pieces::{Pending, Piece, advance, alone};
use crate::sink::{Sink, SinkFault};
use crate::unit::Unit;
use zk_mem::memory::Memory;

/// Where a text goes on after an abbreviation: the byte address of the word that names it, and how many of its
/// Z-characters were taken, from 1 to 3.
#[derive(Clone, Copy, Drop)]
pub(crate) struct After {
    at: u32,
    taken: u8,
}

/// A place in a text, or in the text of an abbreviation that it uses: what is still to come of it.
#[derive(Clone, Copy, Drop)]
pub struct Place {
    // the byte address of the next word
    at: u32,
    // so many of its Z-characters were taken
    taken: u8,
    held: Pending,
    // where the text goes on, if this is the text of an abbreviation
    after: Option<After>,
}

/// What a Z-character comes to: others are held back, or an abbreviation is named.
#[derive(Clone, Copy, Drop)]
enum Met {
    Holds(Pending),
    Names(u16),
}

/// What a word comes to: others are held back, or an abbreviation is named by the last of so many of its Z-characters.
#[derive(Clone, Copy, Drop)]
enum Read {
    Through(Pending),
    UpTo(u8, u16),
}

impl Place {
    /// The beginning of the text at a byte address.
    pub fn at(address: u32) -> Place
        ensures { result ≡ first_place address }
    {
        Place {
            at: address,
            taken: 0,
            held: Pending::Nothing,
            after: None,
        }
    }
}

/// The ZSCII code of a piece, or the number of the abbreviation that it is.
#[inline(always)]
fn code_of(memory: &Memory, alphabet: Alphabet, piece: Piece) -> Result<u16, u16>
    requires { alphabet.table ≡ alphabet_table memory.now }
    ensures code { IfOk result (λ code. (expand : ℕ → Units) →
        value (letter_of memory.now) expand piece ≡ Ok (Unit.Code code ∷ [])) }
    ensures number { IfErr result (λ number. piece ≡ Piece.Abbreviation number) }
{
    match piece {
        Piece::Letter(row, character) => Ok(alphabet.letter(memory, row, character) as u16),
        Piece::Code(code) => Ok(code),
        Piece::Abbreviation(number) => Err(number),
    }
}

/// A piece.
#[inline(always)]
fn give_piece<S: Sink>(
    memory: &Memory,
    alphabet: Alphabet,
    piece: Piece,
    sink: &mut S,
) -> Result<Met, SinkFault>
    requires { alphabet.table ≡ alphabet_table memory.now }
    ensures ok { IfOk result (λ met. (expand : ℕ → Units) (zs : List ℕ) → Gives S.gave sink.old sink.new
        (values (letter_of memory.now) expand (piece ∷ pieces zs)) (rest_met memory.now expand met zs)) }
    ensures err { OnErr result ((expand : ℕ → Units) (zs : List ℕ) →
        Refuses S.refused sink.old sink.new (values (letter_of memory.now) expand (piece ∷ pieces zs))) }
{
    match code_of(memory, alphabet, piece) {
        Ok(code) => match sink.put(Unit::Code(code)) {
            Ok(()) => Ok(Met::Holds(Pending::Nothing)),
            Err(fault) => Err(fault),
        },
        Err(number) => Ok(Met::Names(number)),
    }
}

/// One Z-character, with those that are held back.
#[inline(always)]
fn give_held<S: Sink>(
    memory: &Memory,
    alphabet: Alphabet,
    held: Pending,
    character: u8,
    sink: &mut S,
) -> Result<Met, SinkFault>
    requires { alphabet.table ≡ alphabet_table memory.now }
    ensures ok { IfOk result (λ met. (expand : ℕ → Units) (zs : List ℕ) → Gives S.gave sink.old sink.new
        (meaning memory.now expand (held_back held ++ character ∷ zs)) (rest_met memory.now expand met zs)) }
    ensures err { OnErr result ((expand : ℕ → Units) (zs : List ℕ) →
        Refuses S.refused sink.old sink.new (meaning memory.now expand (held_back held ++ character ∷ zs))) }
{
    let (next, piece) = advance(held, character);
    match piece {
        Some(piece) => give_piece(memory, alphabet, piece, sink),
        None => Ok(Met::Holds(next)),
    }
}

/// One Z-character.
#[inline(always)]
fn give_character<S: Sink>(
    memory: &Memory,
    alphabet: Alphabet,
    held: Pending,
    character: u8,
    sink: &mut S,
) -> Result<Met, SinkFault>
    requires { alphabet.table ≡ alphabet_table memory.now }
    ensures ok { IfOk result (λ met. (expand : ℕ → Units) (zs : List ℕ) → Gives S.gave sink.old sink.new
        (meaning memory.now expand (held_back held ++ character ∷ zs)) (rest_met memory.now expand met zs)) }
    ensures err { OnErr result ((expand : ℕ → Units) (zs : List ℕ) →
        Refuses S.refused sink.old sink.new (meaning memory.now expand (held_back held ++ character ∷ zs))) }
{
    // most are a letter or a space by themselves
    match alone(held, character) {
        Some(piece) => give_piece(memory, alphabet, piece, sink),
        None => give_held(memory, alphabet, held, character, sink),
    }
}

/// A Z-character of a word, by its place from 0 to 2.
#[tactic(auto, unfolding(crate::specs::Words::z_characters))]
#[inline(always)]
fn character_at(word: u16, place: u8) -> u8
    requires { place < 3 }
    ensures { (ws : List ℕ) → drop place (z_characters (word ∷ ws))
        ≡ result ∷ drop (place + 1) (z_characters (word ∷ ws)) }
{
    match place {
        0 => (word / 1024 % 32) as u8,
        1 => (word / 32 % 32) as u8,
        _ => (word % 32) as u8,
    }
}

/// The Z-characters of a word that were not taken, up to an abbreviation.
#[inline(always)]
fn give_word<S: Sink>(
    memory: &Memory,
    alphabet: Alphabet,
    taken: u8,
    mut held: Pending,
    word: u16,
    sink: &mut S,
) -> Result<Read, SinkFault>
    requires alphabet { alphabet.table ≡ alphabet_table memory.now }
    requires taken { taken ≤ 3 }
    ensures ok { IfOk result (λ read. (expand : ℕ → Units) (ws : List ℕ) → Gives S.gave sink.old sink.new
        (meaning memory.now expand (held_back held ++ drop taken (z_characters (word ∷ ws))))
        (rest_read memory.now expand word read ws)) }
    ensures up_to { IfOk result (IsUpTo taken) }
    ensures err { OnErr result ((expand : ℕ → Units) (ws : List ℕ) → Refuses S.refused sink.old sink.new
        (meaning memory.now expand (held_back held ++ drop taken (z_characters (word ∷ ws))))) }
{
    for place in taken..3 {
        match give_character(memory, alphabet, held, character_at(word, place), sink) {
            Ok(Met::Holds(next)) => held = next,
            Ok(Met::Names(number)) => return Ok(Read::UpTo(place + 1, number)),
            Err(fault) => return Err(fault),
        }
    }
    Ok(Read::Through(held))
}

impl Place {
    /// Enters the text of an abbreviation that a word of a text has named.
    fn enter(&mut self, memory: &Memory, taken: u8, number: u16)
        requires means { IsOk (abbreviation memory.now number) }
        requires three { taken ≤ 3 }
        ensures { HasEntered memory.now number taken self.old self.new }
    {
        let table = memory.header().abbreviations as u32;
        let Ok(word) = memory.word(table + 2 * number as u32) else {
            unreachable!()
        };
        *self = Place {
            at: 2 * word as u32,
            taken: 0,
            held: Pending::Nothing,
            after: Some(After { at: self.at, taken }),
        };
    }

    /// Goes on after a word: at the next one, or where the text goes on after the abbreviation that ends there. Says
    /// whether the text goes on.
    #[inline(always)]
    fn pass(&mut self, word: u16, held: Pending) -> bool
        requires { self.old.at < 524288 }
        ensures { HasPassed word held self.old self.new result }
    {
        if word < 0x8000 {
            *self = Place {
                at: self.at + 2,
                taken: 0,
                held,
                after: self.after,
            };
            return true;
        }
        match self.after {
            Some(after) => {
                *self = Place {
                    at: after.at,
                    taken: after.taken,
                    held: Pending::Nothing,
                    after: None,
                };
                true
            }
            None => false,
        }
    }
}

/// A word of a text, and not of an abbreviation. Says whether the text goes on.
#[inline(always)]
fn walk_text_word<S: Sink>(
    memory: &Memory,
    alphabet: Alphabet,
    place: &mut Place,
    sink: &mut S,
) -> Result<bool, SinkFault>
    requires alphabet { alphabet.table ≡ alphabet_table memory.now }
    requires outside { place.old.after ≡ None }
    requires stands { IsPlace place.old }
    requires means { IsOk (left memory.now place.old) }
    ensures ok { IfOk result (λ on. Gives S.gave sink.old sink.new (left memory.now place.old)
        (rest_on memory.now on place.new)) }
    ensures stands { IfOk result (λ on. on ≡ true → IsPlace place.new) }
    ensures less { IfOk result
        (λ on. on ≡ true → work_left memory.now place.new < work_left memory.now place.old) }
    ensures err { OnErr result (Refuses S.refused sink.old sink.new (left memory.now place.old)) }
{
    let Some(word) = memory.code_word(place.at) else {
        unreachable!()
    };
    match give_word(memory, alphabet, place.taken, place.held, word, sink) {
        Ok(Read::Through(held)) => Ok(place.pass(word, held)),
        Ok(Read::UpTo(taken, number)) => {
            place.enter(memory, taken, number);
            Ok(true)
        }
        Err(fault) => Err(fault),
    }
}

/// A word of the text of an abbreviation, after which the text goes on at a place.
#[inline(always)]
fn walk_abbreviation_word<S: Sink>(
    memory: &Memory,
    alphabet: Alphabet,
    place: &mut Place,
    after: After,
    sink: &mut S,
) -> Result<bool, SinkFault>
    requires alphabet { alphabet.table ≡ alphabet_table memory.now }
    requires inside { place.old.after ≡ Some after }
    requires stands { IsPlace place.old }
    requires means { IsOk (left memory.now place.old) }
    ensures ok { IfOk result (λ on. Gives S.gave sink.old sink.new (left memory.now place.old)
        (rest_on memory.now on place.new)) }
    ensures stands { IfOk result (λ on. on ≡ true → IsPlace place.new) }
    ensures less { IfOk result
        (λ on. on ≡ true → work_left memory.now place.new < work_left memory.now place.old) }
    ensures err { OnErr result (Refuses S.refused sink.old sink.new (left memory.now place.old)) }
{
    let Some(word) = memory.code_word(place.at) else {
        unreachable!()
    };
    match give_word(memory, alphabet, place.taken, place.held, word, sink) {
        Ok(Read::Through(held)) => Ok(place.pass(word, held)),
        // an abbreviation inside an abbreviation has no meaning
        Ok(Read::UpTo(_, _)) => unreachable!(),
        Err(fault) => Err(fault),
    }
}

/// A word at a place. Says whether the text goes on.
#[inline(always)]
fn walk_word<S: Sink>(
    memory: &Memory,
    alphabet: Alphabet,
    place: &mut Place,
    sink: &mut S,
) -> Result<bool, SinkFault>
    requires alphabet { alphabet.table ≡ alphabet_table memory.now }
    requires stands { IsPlace place.old }
    requires means { IsOk (left memory.now place.old) }
    ensures ok { IfOk result (λ on. Gives S.gave sink.old sink.new (left memory.now place.old)
        (rest_on memory.now on place.new)) }
    ensures stands { IfOk result (λ on. on ≡ true → IsPlace place.new) }
    ensures less { IfOk result
        (λ on. on ≡ true → work_left memory.now place.new < work_left memory.now place.old) }
    ensures err { OnErr result (Refuses S.refused sink.old sink.new (left memory.now place.old)) }
{
    match place.after {
        None => walk_text_word(memory, alphabet, place, sink),
        Some(after) => walk_abbreviation_word(memory, alphabet, place, after, sink),
    }
}

/// Gives a sink all that is still to come of a text from a place on.
pub(crate) fn print_rest<S: Sink>(
    memory: &Memory,
    mut place: Place,
    sink: &mut S,
) -> Result<(), SinkFault>
    requires stands { IsPlace place }
    requires means { IsOk (left memory.now place) }
    ensures ok { OnOk result (Gives S.gave sink.old sink.new (left memory.now place) (Ok [])) }
    ensures err { OnErr result (Refuses S.refused sink.old sink.new (left memory.now place)) }
{
    let alphabet = Alphabet::of(memory);
    loop {
        match walk_word(memory, alphabet, &mut place, sink) {
            Ok(true) => {}
            Ok(false) => return Ok(()),
            Err(fault) => return Err(fault),
        }
    }
}

/// Gives a sink what is still to come of a text, up to so many words of it. Says whether the text goes on, and then
/// stands at the place where it does.
pub fn print_part<S: Sink>(
    memory: &Memory,
    place: &mut Place,
    sink: &mut S,
    most: u32,
) -> Result<bool, SinkFault>
    requires stands { IsPlace place.old }
    requires means { IsOk (left memory.now place.old) }
    ensures ok { IfOk result (λ on. Gives S.gave sink.old sink.new (left memory.now place.old)
        (rest_on memory.now on place.new)) }
    ensures stands { IfOk result (λ on. on ≡ true → IsPlace place.new) }
    ensures less { IfOk result (λ on. on ≡ true → 0 < most →
        work_left memory.now place.new < work_left memory.now place.old) }
    ensures err { OnErr result (Refuses S.refused sink.old sink.new (left memory.now place.old)) }
{
    let alphabet = Alphabet::of(memory);
    for _i in 0..most {
        match walk_word(memory, alphabet, place, sink) {
            Ok(true) => {}
            Ok(false) => return Ok(false),
            Err(fault) => return Err(fault),
        }
    }
    Ok(true)
}
