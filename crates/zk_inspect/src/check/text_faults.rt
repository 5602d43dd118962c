// What is wrong with the texts of a story.

ghost use Rattle.std.specs.Prelude.{◌≡◌, ◌<◌, IfOk, OnOk};
ghost use Rattle.zk_text.specs.Meaning.{meaning_at, no_abbreviation, text_units};
ghost use Rattle.zk_text.specs.Sweeps.{IsSweptTo};
ghost use Rattle.zk_inspect.specs.Findings.{Finds};
ghost use Rattle.zk_inspect.specs.Lists.{IsListOf, listed_if};
ghost use Rattle.zk_inspect.specs.TextTests.{AreFailing, AreTextMarks, has_kind, is_of, text_fails};

use crate::check::finding::Number;
use crate::check::texts::{TEXTS_END, TextAddresses};
use crate::reach::code::Addresses;
use std::alloc::{AllocError, Global};
use zk_mem::fault::Fault;
use zk_mem::memory::Memory;
use zk_text::sweep::Sweep;

/// A kind of fault of a text.
#[derive(Clone, Copy)]
pub(crate) enum TextFault {
    /// It has no end inside the story, or one of its abbreviations has none.
    PastEnd,
    /// One of its abbreviations uses an abbreviation.
    Nested,
}

fn is_of(kind: TextFault, fault: Fault) -> bool
    ensures { result ≡ is_of kind fault }
{
    match kind {
        TextFault::PastEnd => matches!(fault, Fault::TextPastEnd),
        TextFault::Nested => matches!(fault, Fault::NestedAbbreviation),
    }
}

/// Whether the text at the address that a sweep has come to has a fault of a kind.
fn text_has(memory: &Memory, sweep: &Sweep, kind: TextFault, address: u32) -> bool
    requires { IsSweptTo memory.now address sweep.now }
    ensures { result ≡ has_kind kind (text_units memory.now address) }
{
    match sweep.fault(memory, address) {
        Some(fault) => is_of(kind, fault),
        None => false,
    }
}

/// Whether the text of an abbreviation at the address that a sweep has come to has a fault of a kind.
fn abbreviation_has(memory: &Memory, sweep: &Sweep, kind: TextFault, address: u32) -> bool
    requires { IsSweptTo memory.now address sweep.now }
    ensures { result ≡ has_kind kind (meaning_at no_abbreviation memory.now address) }
{
    match sweep.abbreviation_fault(memory, address) {
        Some(fault) => is_of(kind, fault),
        None => false,
    }
}

/// Whether a text that is marked at the address that a sweep has come to has a fault of a kind, or a word of the table
/// of abbreviations there can't be read, for which abbreviations have no end.
fn text_fails(
    memory: &Memory,
    marks: &TextAddresses,
    sweep: &Sweep,
    kind: TextFault,
    address: u32,
) -> bool
    requires swept { IsSweptTo memory.now address sweep.now }
    requires marks { AreTextMarks memory.now marks.now }
    requires near { address < 524289 }
    ensures { result ≡ text_fails memory.now marks.now kind address }
{
    (marks.printed.has(address) && text_has(memory, sweep, kind, address))
        || (marks.abbreviations.is_marked(address)
            && abbreviation_has(memory, sweep, kind, address))
        || (is_of(kind, Fault::TextPastEnd) && marks.unread.is_marked(address))
}

/// Lists the address that a sweep has come to, if a text there has a fault of a kind.
fn list_if_failing(
    memory: &Memory,
    marks: &TextAddresses,
    sweep: &Sweep,
    kind: TextFault,
    address: u32,
    failing: &mut Addresses,
) -> Result<(), AllocError>
    requires swept { IsSweptTo memory.now address sweep.now }
    requires marks { AreTextMarks memory.now marks.now }
    requires near { address < 524289 }
    ensures { OnOk result (failing.new
        ≡ listed_if (text_fails memory.now marks.now kind address) failing.old address) }
{
    if text_fails(memory, marks, sweep, kind, address) {
        failing.push(address)?;
    }
    Ok(())
}

/// The addresses of texts that have a fault, the last one first.
#[derive(Drop)]
pub(crate) struct FailingTexts {
    /// Of those that have no end in the story, or that use an abbreviation without one, and of the words of the table
    /// of abbreviations that can't be read.
    past_end: Addresses,
    /// Of abbreviations that use one, and of texts that use such an abbreviation.
    nested: Addresses,
}

impl FailingTexts {
    /// Lists the address that a sweep has come to, if a text there has a fault.
    #[inline(always)]
    fn add(
        &mut self,
        memory: &Memory,
        marks: &TextAddresses,
        sweep: &Sweep,
        address: u32,
    ) -> Result<(), AllocError>
        requires swept { IsSweptTo memory.now address sweep.now }
        requires marks { AreTextMarks memory.now marks.now }
        requires near { address < 524289 }
        ensures past_end { OnOk result (self.new.past_end
            ≡ listed_if (text_fails memory.now marks.now TextFault.PastEnd address) self.old.past_end address) }
        ensures nested { OnOk result (self.new.nested
            ≡ listed_if (text_fails memory.now marks.now TextFault.Nested address) self.old.nested address) }
    {
        if !marks.has(address) {
            return Ok(());
        }
        list_if_failing(
            memory,
            marks,
            sweep,
            TextFault::PastEnd,
            address,
            &mut self.past_end,
        )?;
        list_if_failing(
            memory,
            marks,
            sweep,
            TextFault::Nested,
            address,
            &mut self.nested,
        )?;
        Ok(())
    }
}

/// Lists the texts that have a fault.
pub(crate) fn list_failing(
    alloc: Global,
    memory: &Memory,
    marks: &TextAddresses,
) -> Result<FailingTexts, AllocError>
    requires { AreTextMarks memory.now marks.now }
    ensures { IfOk result (λ failing. AreFailing memory.now failing) }
{
    // no story is longer
    memory.len();
    let mut failing = FailingTexts {
        past_end: Addresses::new(alloc),
        nested: Addresses::new(alloc),
    };
    let mut sweep = Sweep::begin(alloc, memory)?;
    for behind in 0..TEXTS_END {
        let address = TEXTS_END - 1 - behind;
        sweep.back(memory, address);
        failing.add(memory, marks, &sweep, address)?;
    }
    Ok(failing)
}

/// The addresses of texts that have no end in the story, or that use an abbreviation without one, and the words of the
/// table of abbreviations that can't be read.
pub(crate) fn find_past_end(
    alloc: Global,
    memory: &Memory,
    failing: &FailingTexts,
) -> Result<Addresses, AllocError>
    requires { AreFailing memory.now failing.now }
    ensures { IfOk result (IsListOf (Finds memory.now Number.TextPastTheEnd)) }
{
    failing.past_end.reversed(alloc)
}

/// The addresses of abbreviations that use one, and of texts that use such an abbreviation.
pub(crate) fn find_nested(
    alloc: Global,
    memory: &Memory,
    failing: &FailingTexts,
) -> Result<Addresses, AllocError>
    requires { AreFailing memory.now failing.now }
    ensures { IfOk result (IsListOf (Finds memory.now Number.NestedAbbreviation)) }
{
    failing.nested.reversed(alloc)
}
