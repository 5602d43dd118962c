// Whether texts have a meaning. The text of an abbreviation is walked once, however often it is used.

ghost use Rattle.std.specs.Prelude.{◌≡◌, ◌≤◌, ◌*◌, ◌∷◌, List, ℕ, None, Some, Err, IfErr, IfOk, IfSome, IsTrue, length};
ghost use Rattle.std.specs.Prelude.{slice_get, unwrap_or};
ghost use Rattle.zk_mem.specs.Map.{MemoryMap};
ghost use Rattle.zk_text.specs.Meaning.{abbreviation, end_by, refused_by, text_place};
ghost use Rattle.zk_text.specs.Sweeps.{AreKnown, fault_by, fault_of, piece_fault_by};
ghost use Rattle.zk_text.specs.Words.{z_characters};

use crate::abbreviations::find_all;
use crate::pieces::{Pending, Piece, advance, are_letters, is_letter};
use crate::text::text_place;
use zk_mem::fault::Fault;
use zk_mem::memory::Memory;

/// So many abbreviations can be named (Z-Machine Standards Document 1.1, section 3.3).
pub(crate) const ABBREVIATIONS: usize = 96;

/// Abbreviations with more words are looked at together.
const SHORT_TEXT: u32 = 1024;

/// Whether abbreviations stand for something.
pub(crate) trait Abbreviations {
    ghost use Rattle.std.specs.Prelude.{◌≡◌, ℕ};
    ghost use Rattle.zk_mem.specs.Map.{MemoryMap};
    ghost use Rattle.zk_text.specs.Meaning.{Units};
    ghost use Rattle.zk_text.specs.Sweeps.{fault_of};

    ghost stands: { MemoryMap → ℕ → Units };

    // what was noted is true of a memory
    ghost holds: { MemoryMap → Self → Type 0 };

    /// Why an abbreviation stands for nothing, if so.
    fn fault(&mut self, memory: &Memory, number: u16) -> Option<Fault>
        requires { holds memory.now self.old }
        ensures value { result ≡ fault_of (stands memory.now number) }
        ensures holds { holds memory.now self.new };
}

/// Inside an abbreviation, where none is allowed.
#[derive(Drop)]
pub(crate) struct Inside;

impl Abbreviations for Inside {
    ghost use Rattle.std.specs.Prelude.{⊤};
    ghost use Rattle.zk_text.specs.Meaning.{no_abbreviation};

    ghost stands = { λ m. no_abbreviation };

    ghost holds = { λ m i. ⊤ };

    fn fault(&mut self, _memory: &Memory, _number: u16) -> Option<Fault> {
        Some(Fault::NestedAbbreviation)
    }
}

/// Outside of all abbreviations. What is found of one is noted, and its text not walked again.
#[derive(Drop)]
pub(crate) struct Outside {
    known: [Option<Option<Fault>>; ABBREVIATIONS],
}

/// Whether the text of an abbreviation begins at a byte address.
pub(crate) fn has_text_at(memory: &Memory, number: u16, address: u32) -> bool
    ensures { IsTrue result → text_place memory.now number ≡ Some address }
{
    match text_place(memory, number) {
        Some(place) => place == address,
        None => false,
    }
}

/// The fault of the text of an abbreviation, if it has one; unless its text has more words than are to be walked.
fn fault_within(memory: &Memory, number: u16, most: u32) -> Option<Option<Fault>>
    ensures fault { IfSome result (λ fault. fault ≡ fault_of (abbreviation memory.now number)) }
    ensures whole { length memory.now.bytes ≤ 2 * most → result ≡ None → ⊥ }
{
    let Some(address) = text_place(memory, number) else {
        return Some(Some(Fault::TextPastEnd));
    };
    match check_some(memory, address, &mut Inside, most) {
        Some(Ok(_)) => Some(None),
        Some(Err(fault)) => Some(Some(fault)),
        None => None,
    }
}

/// The fault of the text of an abbreviation, if it has one.
pub(crate) fn abbreviation_fault(memory: &Memory, number: u16) -> Option<Fault>
    ensures { result ≡ fault_of (abbreviation memory.now number) }
{
    match fault_within(memory, number, memory.len()) {
        Some(fault) => fault,
        None => unreachable!(),
    }
}

/// What is known of the fault of an abbreviation, by its number.
pub(crate) fn known_fault(known: &[Option<Option<Fault>>], number: u16) -> Option<Option<Fault>>
    ensures { result ≡ unwrap_or (slice_get known.now number) None }
{
    known.get(number as usize).copied().unwrap_or(None)
}

impl Outside {
    /// None was looked at.
    pub(crate) fn new() -> Outside
        ensures { (m : MemoryMap) → AreKnown m result.known }
    {
        Outside {
            known: [None; ABBREVIATIONS],
        }
    }

    /// Notes the fault of an abbreviation.
    fn note(&mut self, memory: &Memory, number: u16, fault: Option<Fault>)
        requires known { AreKnown memory.now self.old.known }
        requires one { fault ≡ fault_of (abbreviation memory.now number) }
        ensures { AreKnown memory.now self.new.known }
    {
        if (number as usize) < ABBREVIATIONS {
            self.known[number as usize] = Some(fault);
        }
    }

    /// The fault of an abbreviation with a long text. All of them are found together, as they may share their ends.
    fn find(&mut self, memory: &Memory, number: u16) -> Option<Fault>
        requires { AreKnown memory.now self.old.known }
        ensures value { result ≡ fault_of (abbreviation memory.now number) }
        ensures known { AreKnown memory.now self.new.known }
    {
        find_all(memory, &mut self.known);
        match known_fault(&self.known, number) {
            Some(fault) => fault,
            None => abbreviation_fault(memory, number),
        }
    }
}

impl Abbreviations for Outside {
    ghost use Rattle.zk_text.specs.Meaning.{abbreviation};
    ghost use Rattle.zk_text.specs.Sweeps.{AreKnown};

    ghost stands = { abbreviation };

    ghost holds = { λ m o. AreKnown m o.known };

    fn fault(&mut self, memory: &Memory, number: u16) -> Option<Fault> {
        if let Some(fault) = known_fault(&self.known, number) {
            return fault;
        }
        match fault_within(memory, number, SHORT_TEXT) {
            Some(fault) => {
                self.note(memory, number, fault);
                fault
            }
            None => self.find(memory, number),
        }
    }
}

/// The fault of what a piece stands for, if it has one.
#[inline(always)]
pub(crate) fn piece_fault<A: Abbreviations>(
    memory: &Memory,
    abbreviations: &mut A,
    piece: Option<Piece>,
) -> Option<Fault>
    requires { A.holds memory.now abbreviations.old }
    ensures value { result ≡ piece_fault_by (A.stands memory.now) memory.now piece }
    ensures holds { A.holds memory.now abbreviations.new }
{
    match piece {
        Some(Piece::Abbreviation(number)) => abbreviations.fault(memory, number),
        _ => None,
    }
}

/// One Z-character: what is held back then, or the fault of the piece that it ends.
#[inline(always)]
fn check_character<A: Abbreviations>(
    memory: &Memory,
    abbreviations: &mut A,
    held: Pending,
    character: u8,
) -> Result<Pending, Fault>
    requires { A.holds memory.now abbreviations.old }
    ensures ok { IfOk result (λ next. (zs : List ℕ) →
        fault_by (A.stands memory.now) memory.now held (character ∷ zs)
        ≡ fault_by (A.stands memory.now) memory.now next zs) }
    ensures err { IfErr result (λ fault. (zs : List ℕ) →
        fault_by (A.stands memory.now) memory.now held (character ∷ zs) ≡ Some fault) }
    ensures holds { A.holds memory.now abbreviations.new }
{
    // most are letters
    if is_letter(held, character) {
        return Ok(Pending::Nothing);
    }
    let (next, piece) = advance(held, character);
    match piece_fault(memory, abbreviations, piece) {
        None => Ok(next),
        Some(fault) => Err(fault),
    }
}

/// The three Z-characters of a word.
#[tactic(auto, unfolding(crate::specs::Words::z_characters))]
#[inline(always)]
fn check_word<A: Abbreviations>(
    memory: &Memory,
    abbreviations: &mut A,
    held: Pending,
    word: u16,
) -> Result<Pending, Fault>
    requires { A.holds memory.now abbreviations.old }
    ensures ok { IfOk result (λ next. (ws : List ℕ) →
        fault_by (A.stands memory.now) memory.now held (z_characters (word ∷ ws))
        ≡ fault_by (A.stands memory.now) memory.now next (z_characters ws)) }
    ensures err { IfErr result (λ fault. (ws : List ℕ) →
        fault_by (A.stands memory.now) memory.now held (z_characters (word ∷ ws)) ≡ Some fault) }
    ensures holds { A.holds memory.now abbreviations.new }
{
    // most are three letters
    if are_letters(held, word) {
        return Ok(Pending::Nothing);
    }
    let held = check_character(memory, abbreviations, held, (word / 1024 % 32) as u8)?;
    let held = check_character(memory, abbreviations, held, (word / 32 % 32) as u8)?;
    check_character(memory, abbreviations, held, (word % 32) as u8)
}

/// Refuses a text by a fault in it. One without an end inside the story is refused as such.
#[tactic(auto, unfolding(zk_mem::specs::Words::text_end_at))]
fn refuse(memory: &Memory, at: u32, fault: Fault) -> Result<u32, Fault>
    ensures { result ≡ refused_by memory.now at fault }
{
    memory.text_end(at).ok_or(Fault::TextPastEnd)?;
    Err(fault)
}

/// The same as `check`, unless the text has more words than are to be walked.
#[inline(always)]
fn check_some<A: Abbreviations>(
    memory: &Memory,
    address: u32,
    abbreviations: &mut A,
    most: u32,
) -> Option<Result<u32, Fault>>
    requires { A.holds memory.now abbreviations.old }
    ensures end { IfSome result (λ end. end ≡ end_by (A.stands memory.now) memory.now address) }
    ensures whole { length memory.now.bytes ≤ 2 * most → result ≡ None → ⊥ }
{
    let mut at = address;
    let mut held = Pending::Nothing;
    for _i in 0..most {
        let Some(word) = memory.code_word(at) else {
            return Some(Err(Fault::TextPastEnd));
        };
        match check_word(memory, abbreviations, held, word) {
            Ok(next) => held = next,
            Err(fault) => return Some(refuse(memory, at, fault)),
        }
        at += 2;
        if word >= 0x8000 {
            return Some(Ok(at));
        }
    }
    if at >= memory.len() {
        return Some(Err(Fault::TextPastEnd));
    }
    None
}

/// The byte address after the text at a byte address, where the text has a meaning by what abbreviations stand for.
/// `TextPastEnd` where it has no last word inside the story, else the fault of its first abbreviation that has one.
pub(crate) fn check<A: Abbreviations>(
    memory: &Memory,
    address: u32,
    abbreviations: &mut A,
) -> Result<u32, Fault>
    requires { A.holds memory.now abbreviations.old }
    ensures { result ≡ end_by (A.stands memory.now) memory.now address }
{
    match check_some(memory, address, abbreviations, memory.len()) {
        Some(end) => end,
        None => unreachable!(),
    }
}
