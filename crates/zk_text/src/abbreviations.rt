// The faults of the texts of all abbreviations, in one walk from the story's end to its start: they may share their
// ends.

ghost use Rattle.std.specs.Prelude.{◌≡◌, ◌≤◌, ◌<◌, ◌+◌, ◌-◌, ◌*◌, ◌%◌, ◌^◌, length, IfSome};
ghost use Rattle.zk_text.specs.Meaning.{meaning_at, no_abbreviation};
ghost use Rattle.zk_text.specs.Sweeps.{AreKnown, IsTextRestBy, fault_of};

use crate::checking::{ABBREVIATIONS, Inside, has_text_at};
use crate::sweep::{Rest, rest_fault, text_rest};
use crate::text::text_place;
use zk_mem::fault::Fault;
use zk_mem::memory::Memory;

/// What is known of an abbreviation's text at an address, by what is known of the text two bytes on.
fn rest_at(memory: &Memory, address: u32, further: Option<Rest>) -> Option<Rest>
    requires { IsTextRestBy no_abbreviation memory.now (address + 2) further }
    ensures { IsTextRestBy no_abbreviation memory.now address result }
{
    match memory.code_word(address) {
        Some(word) => text_rest(memory, &mut Inside, address, word, further),
        None => None,
    }
}

/// The same so many words further down.
fn rest_below(memory: &Memory, address: u32, count: u32, further: Option<Rest>) -> Option<Rest>
    requires room { 2 * count ≤ address }
    requires further { IsTextRestBy no_abbreviation memory.now address further }
    ensures { IsTextRestBy no_abbreviation memory.now (address - 2 * count) result }
{
    let mut at = address;
    let mut rest = further;
    for _i in 0..count {
        at -= 2;
        rest = rest_at(memory, at, rest);
    }
    rest
}

/// Whether a place is later than the last one so far, if there is one.
fn is_later(place: u32, last: Option<u32>) -> bool {
    match last {
        Some(last) => last < place,
        None => true,
    }
}

/// The last address below another at which the text of an abbreviation begins.
fn last_below(memory: &Memory, address: u32) -> Option<u32>
    ensures { IfSome result (λ last. (last < address) × (last % 2 ≡ 0)) }
{
    let mut last = None;
    for number in 0..ABBREVIATIONS as u16 {
        if let Some(place) = text_place(memory, number) {
            if place < address && is_later(place, last) {
                last = Some(place);
            }
        }
    }
    last
}

/// Notes the fault of the text at an address of each abbreviation whose text it is.
fn note_at(memory: &Memory, known: &mut [Option<Option<Fault>>], address: u32, fault: Option<Fault>)
    requires known { AreKnown memory.now known.old }
    requires fault { fault ≡ fault_of (meaning_at no_abbreviation memory.now address) }
    requires few { length known.old < 2 ^ 16 }
    ensures known { AreKnown memory.now known.new }
    ensures size { length known.new ≡ length known.old }
{
    for number in 0..known.len() {
        if has_text_at(memory, number as u16, address) {
            known[number] = Some(fault);
        }
    }
}

/// Notes the faults of all abbreviations whose texts begin in the story.
pub(crate) fn find_all(memory: &Memory, known: &mut [Option<Option<Fault>>])
    requires known { AreKnown memory.now known.old }
    requires few { length known.old < 2 ^ 16 }
    ensures { AreKnown memory.now known.new }
{
    let end = memory.len();
    let mut at = end + end % 2;
    let mut rest = None;
    while let Some(place) = last_below(memory, at) {
        rest = rest_below(memory, at, (at - place) / 2, rest);
        note_at(memory, known, place, rest_fault(rest));
        at = place;
    }
}
