// The faults of all texts of a story, in one sweep: a text has those of its rest, and all texts share their rests.

ghost use Rattle.std.specs.Prelude.{◌≡◌, ◌≤◌, ◌+◌, ◌∷◌, ◌++◌, [], List, ℕ, true, IfOk, IfSome, Some, is_none, length};
ghost use Rattle.std.specs.Prelude.{slice_get};
ghost use Rattle.std.specs.List.{list_all};
ghost use Rattle.zk_mem.specs.Map.{MemoryMap, code_word_at};
ghost use Rattle.zk_text.specs.Meaning.{Units, abbreviation, meaning_at, no_abbreviation, text_units};
ghost use Rattle.zk_text.specs.Words.{z_characters};
ghost use Rattle.zk_text.specs.Sweeps.{AreFaultless, AreFaults, IsRestBy, IsSweptTo, IsTextRest, IsTextRestBy};
ghost use Rattle.zk_text.specs.Sweeps.{fault_by, fault_of, first_of, kept_for};

use crate::checking::{Abbreviations, Outside, abbreviation_fault, has_text_at, piece_fault};
use crate::pieces::{Pending, advance};
use crate::text::check_abbreviation;
use std::alloc::{AllocError, Global};
use zk_mem::fault::Fault;
use zk_mem::memory::Memory;

/// The faults of the texts of the 96 abbreviations.
fn list_faults(alloc: Global, memory: &Memory) -> Result<Vec<Option<Fault>>, AllocError>
    ensures size { IfOk result (λ faults. length faults.items ≡ 96) }
    ensures exact { IfOk result (λ faults. AreFaults memory.now faults.items) }
{
    let mut outside = Outside::new();
    let mut faults = Vec::new(alloc);
    for number in 0..96 {
        faults.push(outside.fault(memory, number))?;
    }
    Ok(faults)
}

/// Whether no fault is listed.
fn are_faultless(faults: &[Option<Fault>]) -> bool
    ensures { result ≡ list_all is_none faults.now }
{
    faults.iter().all(|fault| fault.is_none())
}

fn listed(faults: &[Option<Fault>], number: u16) -> Option<Option<Fault>>
    ensures { result ≡ slice_get faults.now number }
{
    faults.get(number as usize).copied()
}

/// The fault of the text of an abbreviation, by those that are listed.
fn listed_fault(memory: &Memory, faults: &[Option<Fault>], number: u16) -> Option<Fault>
    requires { AreFaults memory.now faults.now }
    ensures { result ≡ fault_of (abbreviation memory.now number) }
{
    match listed(faults, number) {
        Some(fault) => fault,
        None => abbreviation_fault(memory, number),
    }
}

/// The fault of the text at an address, by those that are listed, where it is the text of an abbreviation.
fn listed_at(memory: &Memory, faults: &[Option<Fault>], address: u32) -> Option<Option<Fault>>
    requires { AreFaults memory.now faults.now }
    ensures { IfSome result (λ fault. fault ≡ fault_of (meaning_at no_abbreviation memory.now address)) }
{
    for number in 0..96 {
        if has_text_at(memory, number, address) {
            return Some(listed_fault(memory, faults, number));
        }
    }
    None
}

/// The abbreviations by a list of their faults.
#[derive(Drop)]
struct FaultList<'a> {
    faults: &'a [Option<Fault>],
}

impl<'a> Abbreviations for FaultList<'a> {
    ghost use Rattle.zk_text.specs.Meaning.{abbreviation};
    ghost use Rattle.zk_text.specs.Sweeps.{AreFaults};

    ghost stands = { abbreviation };

    ghost holds = { λ m l. AreFaults m l.faults.now };

    #[inline(always)]
    fn fault(&mut self, memory: &Memory, number: u16) -> Option<Fault> {
        listed_fault(memory, self.faults, number)
    }
}

/// One Z-character: what is held back then, and the fault of the piece that it ends.
#[inline(always)]
fn pass<A: Abbreviations>(
    memory: &Memory,
    abbreviations: &mut A,
    held: Pending,
    character: u8,
) -> (Pending, Option<Fault>)
    requires { A.holds memory.now abbreviations.old }
    ensures fault { (zs : List ℕ) → fault_by (A.stands memory.now) memory.now held (character ∷ zs)
        ≡ first_of result.1 (fault_by (A.stands memory.now) memory.now result.0 zs) }
    ensures holds { A.holds memory.now abbreviations.new }
{
    let (next, piece) = advance(held, character);
    (next, piece_fault(memory, abbreviations, piece))
}

/// What is known of the rest of a text: the fault that there is, by what is held back before it.
#[derive(Clone, Copy)]
pub(crate) struct Rest {
    nothing: Option<Fault>,
    first: Option<Fault>,
    second: Option<Fault>,
    third: Option<Fault>,
    shift_to_a1: Option<Fault>,
    shift_to_a2: Option<Fault>,
    escape: Option<Fault>,
    upper_half: Option<Fault>,
}

impl Rest {
    /// After the last word.
    fn none() -> Rest
        ensures { (expand : ℕ → Units) (m : MemoryMap) → IsRestBy expand m [] result }
    {
        Rest {
            nothing: None,
            first: None,
            second: None,
            third: None,
            shift_to_a1: None,
            shift_to_a2: None,
            escape: None,
            upper_half: None,
        }
    }

    #[inline(always)]
    fn kept_for(&self, held: Pending) -> Option<Fault>
        ensures { result ≡ kept_for self.now held }
    {
        match held {
            Pending::Nothing => self.nothing,
            Pending::First => self.first,
            Pending::Second => self.second,
            Pending::Third => self.third,
            Pending::ShiftToA1 => self.shift_to_a1,
            Pending::ShiftToA2 => self.shift_to_a2,
            Pending::Escape => self.escape,
            Pending::UpperHalf(_) => self.upper_half,
        }
    }
}

/// The fault of a Z-character, by what is held back before it, and of the rest after it.
#[inline(always)]
fn fault_before<A: Abbreviations>(
    memory: &Memory,
    abbreviations: &mut A,
    held: Pending,
    character: u8,
    rest: &Rest,
) -> Option<Fault>
    requires { A.holds memory.now abbreviations.old }
    ensures value { (zs : List ℕ) → IsRestBy (A.stands memory.now) memory.now zs rest.now
        → result ≡ fault_by (A.stands memory.now) memory.now held (character ∷ zs) }
    ensures holds { A.holds memory.now abbreviations.new }
{
    let (next, fault) = pass(memory, abbreviations, held, character);
    if fault.is_some() {
        return fault;
    }
    rest.kept_for(next)
}

/// What is known of a Z-character and the rest after it.
fn rest_before<A: Abbreviations>(
    memory: &Memory,
    abbreviations: &mut A,
    character: u8,
    rest: &Rest,
) -> Rest
    requires { A.holds memory.now abbreviations.old }
    ensures rest { (zs : List ℕ) → IsRestBy (A.stands memory.now) memory.now zs rest.now
        → IsRestBy (A.stands memory.now) memory.now (character ∷ zs) result }
    ensures holds { A.holds memory.now abbreviations.new }
{
    Rest {
        nothing: fault_before(memory, abbreviations, Pending::Nothing, character, rest),
        first: fault_before(memory, abbreviations, Pending::First, character, rest),
        second: fault_before(memory, abbreviations, Pending::Second, character, rest),
        third: fault_before(memory, abbreviations, Pending::Third, character, rest),
        shift_to_a1: fault_before(memory, abbreviations, Pending::ShiftToA1, character, rest),
        shift_to_a2: fault_before(memory, abbreviations, Pending::ShiftToA2, character, rest),
        escape: fault_before(memory, abbreviations, Pending::Escape, character, rest),
        // which half it is shows in no fault
        upper_half: fault_before(
            memory,
            abbreviations,
            Pending::UpperHalf(0),
            character,
            rest,
        ),
    }
}

/// What is known of a word and the rest after it.
#[tactic(auto, unfolding(crate::specs::Words::z_characters))]
fn word_before<A: Abbreviations>(
    memory: &Memory,
    abbreviations: &mut A,
    word: u16,
    rest: &Rest,
) -> Rest
    requires { A.holds memory.now abbreviations.old }
    ensures rest { (ws : List ℕ) → IsRestBy (A.stands memory.now) memory.now (z_characters ws) rest.now
        → IsRestBy (A.stands memory.now) memory.now (z_characters (word ∷ ws)) result }
    ensures holds { A.holds memory.now abbreviations.new }
{
    let third = rest_before(memory, abbreviations, (word % 32) as u8, rest);
    let second = rest_before(memory, abbreviations, (word / 32 % 32) as u8, &third);
    rest_before(memory, abbreviations, (word / 1024 % 32) as u8, &second)
}

/// What is known of the text at an address, by its first word and the text of its second one.
pub(crate) fn text_rest<A: Abbreviations>(
    memory: &Memory,
    abbreviations: &mut A,
    address: u32,
    word: u16,
    further: Option<Rest>,
) -> Option<Rest>
    requires holds { A.holds memory.now abbreviations.old }
    requires word { code_word_at memory.now address ≡ Some word }
    requires further { IsTextRestBy (A.stands memory.now) memory.now (address + 2) further }
    ensures { IsTextRestBy (A.stands memory.now) memory.now address result }
{
    if word >= 0x8000 {
        return Some(word_before(memory, abbreviations, word, &Rest::none()));
    }
    match further {
        Some(rest) => Some(word_before(memory, abbreviations, word, &rest)),
        None => None,
    }
}

/// Why a text has no meaning, by what is known of it.
pub(crate) fn rest_fault(rest: Option<Rest>) -> Option<Fault>
    ensures { (expand : ℕ → Units) (m : MemoryMap) (a : ℕ) → IsTextRestBy expand m a rest
        → result ≡ fault_of (meaning_at expand m a) }
{
    match rest {
        Some(rest) => rest.nothing,
        None => Some(Fault::TextPastEnd),
    }
}

/// The same where no abbreviation has a fault: then a text with an end has none.
#[inline(always)]
fn faultless_rest(memory: &Memory, address: u32, word: u16, further: Option<Rest>) -> Option<Rest>
    requires faultless { AreFaultless memory.now }
    requires word { code_word_at memory.now address ≡ Some word }
    requires further { IsTextRest memory.now (address + 2) further }
    ensures { IsTextRest memory.now address result }
{
    if word >= 0x8000 {
        return Some(Rest::none());
    }
    further
}

/// The faults of all texts of a story, from an address past its end down to 0: a sweep knows that of the text at the
/// address that it has come to. It looks at each word once, where `check_text` goes from each address to the text's
/// end.
#[derive(Drop)]
pub struct Sweep {
    faults: Vec<Option<Fault>>,
    // no abbreviation has a fault
    faultless: bool,
    here: Option<Rest>,
    behind: Option<Rest>,
}

impl Sweep {
    /// A sweep at any address past the story's end. Refused for lack of memory alone.
    pub fn begin(alloc: Global, memory: &Memory) -> Result<Sweep, AllocError>
        ensures { IfOk result
            (λ sweep. (a : ℕ) → length memory.now.bytes ≤ a → IsSweptTo memory.now a sweep) }
    {
        let faults = list_faults(alloc, memory)?;
        let faultless = are_faultless(faults.as_slice());
        Ok(Sweep {
            faults,
            faultless,
            here: None,
            behind: None,
        })
    }

    /// What is known of the text at the address before the one that the sweep has come to, by its first word.
    #[inline(always)]
    fn rest_at(&self, memory: &Memory, address: u32, word: u16) -> Option<Rest>
        requires swept { IsSweptTo memory.now (address + 1) self.now }
        requires word { code_word_at memory.now address ≡ Some word }
        ensures { IsTextRest memory.now address result }
    {
        if self.faultless {
            faultless_rest(memory, address, word, self.behind)
        } else {
            let mut list = FaultList {
                faults: self.faults.as_slice(),
            };
            text_rest(memory, &mut list, address, word, self.behind)
        }
    }

    /// Goes down to an address.
    pub fn back(&mut self, memory: &Memory, address: u32)
        requires { IsSweptTo memory.now (address + 1) self.old }
        ensures { IsSweptTo memory.now address self.new }
    {
        // no text begins where there is no word
        let Some(word) = memory.code_word(address) else {
            return;
        };
        let rest = self.rest_at(memory, address, word);
        self.behind = self.here;
        self.here = rest;
    }

    /// Why the text at the address that the sweep has come to has no meaning, where it has none (see `check_text`).
    #[tactic(auto, unfolding(crate::specs::Meaning::text_units))]
    pub fn fault(&self, memory: &Memory, address: u32) -> Option<Fault>
        requires { IsSweptTo memory.now address self.now }
        ensures { result ≡ fault_of (text_units memory.now address) }
    {
        rest_fault(self.here)
    }

    /// Why the text at the address that the sweep has come to has no meaning as that of an abbreviation, where it has
    /// none (see `check_abbreviation`).
    pub fn abbreviation_fault(&self, memory: &Memory, address: u32) -> Option<Fault>
        requires { IsSweptTo memory.now address self.now }
        ensures { result ≡ fault_of (meaning_at no_abbreviation memory.now address) }
    {
        if let Some(fault) = listed_at(memory, self.faults.as_slice(), address) {
            return fault;
        }
        match check_abbreviation(memory, address) {
            Ok(()) => None,
            Err(fault) => Some(fault),
        }
    }
}
