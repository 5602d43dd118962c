// Texts: where they end, and their units given to a sink.

ghost use Rattle.std.specs.Prelude.{◌≡◌, ◌≤◌, ◌%◌, List, Ok, Err, IsOk, OnOk, OnErr, IfOk, IfSome, MatchResult, length};
ghost use Rattle.zk_text.specs.Lengths.{HasShortText, HasShortTexts};
ghost use Rattle.zk_text.specs.Meaning.{text_units, checked_end, meaning_at, no_abbreviation, text_place};
ghost use Rattle.zk_text.specs.declared.unit.Unit.{Unit};

use crate::checking::{Inside, Outside, check};
use crate::printing::{Place, print_rest};
use crate::sink::{Sink, SinkFault};
use crate::unit::Unit;
use zk_mem::fault::Fault;
use zk_mem::memory::Memory;

/// The byte address of the text of an abbreviation, by its number, where its word of the table can be read (Z-Machine
/// Standards Document 1.1, sections 1.2.2 and 3.3). The table has word addresses.
pub fn text_place(memory: &Memory, number: u16) -> Option<u32>
    ensures place { result ≡ text_place memory.now number }
    ensures even { IfSome result (λ place. place % 2 ≡ 0) }
{
    match memory.word(memory.header().abbreviations as u32 + 2 * number as u32) {
        Ok(word) => Some(2 * word as u32),
        Err(_) => None,
    }
}

/// The byte address after the text at a byte address, where the text has a meaning (Z-Machine
/// Standards Document 1.1, section 3). It is `TextPastEnd` where the text has no last word inside
/// the story. Else its first abbreviation without a meaning decides: `TextPastEnd` where the
/// abbreviation's address can't be read or its text has no last word, `NestedAbbreviation` where
/// its text uses an abbreviation. Such a text, and that of each abbreviation that it uses, has at most half as many
/// words as the story has bytes.
#[tactic(auto, unfolding(crate::proofs::Opened::in_check_text), using(crate::proofs::CheckedEnds::of_check_text))]
pub fn check_text(memory: &Memory, address: u32) -> Result<u32, Fault>
    ensures value { result ≡ checked_end memory.now address }
    ensures meaning { OnOk result (IsOk (text_units memory.now address)) }
    ensures inside { IfOk result (λ end. end ≤ length memory.now.bytes) }
    ensures short { OnOk result (HasShortTexts memory.now address) }
{
    check(memory, address, &mut Outside::new())
}

/// Whether the text of an abbreviation at a byte address has a meaning (Z-Machine Standards Document 1.1, section 3.3):
/// `TextPastEnd` where it has no last word inside the story, `NestedAbbreviation` where it uses an abbreviation. Such a
/// text has at most half as many words as the story has bytes.
#[tactic(auto, using(crate::proofs::ShortTexts::short_text, crate::proofs::CheckedEnds::of_check_abbreviation))]
pub fn check_abbreviation(memory: &Memory, address: u32) -> Result<(), Fault>
    ensures meaning { MatchResult result (λ _. IsOk (meaning_at no_abbreviation memory.now address))
        (λ e. meaning_at no_abbreviation memory.now address ≡ Err e) }
    ensures short { OnOk result (HasShortText memory.now address) }
{
    match check(memory, address, &mut Inside) {
        Ok(_) => Ok(()),
        Err(fault) => Err(fault),
    }
}

/// Gives a sink the units of the text at a byte address, which has a meaning (see `check_text`), in
/// one pass. Where the sink refuses, it was given a first part of them. The text, and that of each abbreviation that it
/// uses, has at most half as many words as the story has bytes.
#[tactic(auto, unfolding(crate::specs::Meaning::text_units), using(crate::proofs::ShortTexts::short_texts))]
pub fn print_text<S: Sink>(memory: &Memory, address: u32, sink: &mut S) -> Result<(), SinkFault>
    requires { IsOk (text_units memory.now address) }
    ensures ok { OnOk result ((us : List Unit) → text_units memory.now address ≡ Ok us →
        S.gave sink.old sink.new us) }
    ensures err { OnErr result ((us : List Unit) → text_units memory.now address ≡ Ok us →
        S.refused sink.old sink.new us) }
    ensures short { HasShortTexts memory.now address }
{
    match print_rest(memory, Place::at(address), sink) {
        Ok(()) => Ok(()),
        Err(fault) => Err(fault),
    }
}
