// What ran of a story.

ghost use Rattle.std.specs.Prelude.{◌≡◌, ◌<◌, ◌+◌, ◌-◌, ◌^◌, IfOk, drop, filter, length, min, slice_index};
ghost use Rattle.std.specs.List.Sorted.{IsNonDecreasing, IsNonDecreasingBy};
ghost use Rattle.zk_coverage.specs.Coverage.{AreInOrder, addresses_in, addresses_share, bound_of, has_run, texts_in};
ghost use Rattle.zk_coverage.specs.Coverage.{never_shown, texts_share, was_entered};

use std::alloc::{AllocError, Global};

/// A text of a story.
#[derive(Clone, Copy, Drop)]
pub struct Text<'a> {
    /// The byte address of the instruction that has it, or its own, where it lies apart from code.
    pub address: u32,
    /// The text, as a listing shows it.
    pub shown: &'a [u8],
}

/// What ran of a story, and what there is.
#[derive(Clone, Copy, Drop)]
pub struct Ran<'a> {
    /// The byte addresses of the instructions that ran, and of the texts that were printed by theirs: ascending, each
    /// once.
    pub covered: &'a [u32],
    /// The byte addresses of all instructions that are listed, ascending.
    pub instructions: &'a [u32],
    /// The byte addresses of all routines that are listed, ascending: each that of its count of local variables.
    pub routines: &'a [u32],
    /// The texts of instructions, by their addresses, ascending.
    pub texts: &'a [Text<'a>],
    /// The texts that lie apart from code, where plays were looked at for those that they print.
    pub strings: &'a [Text<'a>],
}

/// What is above all addresses.
const END: u64 = 0x1_0000_0000;

/// The addresses from one on, and below another.
#[derive(Clone, Copy, Drop)]
pub(crate) struct Span {
    pub low: u64,
    pub high: u64,
}

/// How many of what is listed ran.
#[derive(Clone, Copy, Drop)]
pub(crate) struct Share {
    pub ran: usize,
    pub listed: usize,
}

impl Share {
    /// How many of this and of something else ran.
    pub fn and(self, other: Share) -> Share
        ensures { result ≡ record {
          ran = min (self.ran + other.ran) (2 ^ 64 - 1);
          listed = min (self.listed + other.listed) (2 ^ 64 - 1);
        } }
    {
        Share {
            ran: self.ran.saturating_add(other.ran),
            listed: self.listed.saturating_add(other.listed),
        }
    }
}

/// Those of ascending addresses that lie in a span.
pub(crate) fn within(addresses: &[u32], span: Span) -> &[u32]
    ensures { IsNonDecreasing addresses.now → result.now ≡ addresses_in span addresses.now }
{
    let first = addresses.partition_point(|address| u64::from(*address) < span.low);
    let rest = &addresses[first..];
    let count = rest.partition_point(|address| u64::from(*address) < span.high);
    &rest[..count]
}

/// Those of texts that lie in a span, by their addresses, which ascend.
pub(crate) fn texts_within<'a, 't>(texts: &'t [Text<'a>], span: Span) -> &'t [Text<'a>]
    ensures { IsNonDecreasingBy (λ t. t.address) texts.now → result.now ≡ texts_in span texts.now }
{
    let first = texts.partition_point(|text| u64::from(text.address) < span.low);
    let rest = &texts[first..];
    let count = rest.partition_point(|text| u64::from(text.address) < span.high);
    &rest[..count]
}

impl<'a> Ran<'a> {
    /// Whether an instruction ran, by its address.
    pub(crate) fn has_run(&self, address: u32) -> bool
        ensures { AreInOrder self.now → result ≡ has_run self.now.covered.now address }
    {
        self.covered.binary_search(&address).is_ok()
    }

    /// Whether the first of the instructions in a span ran.
    pub(crate) fn was_entered(&self, span: Span) -> bool
        ensures { AreInOrder self.now → result ≡ was_entered self.now span }
    {
        match within(self.instructions, span).first() {
            Some(first) => self.has_run(*first),
            None => false,
        }
    }

    /// How many of the instructions in a span ran.
    pub(crate) fn instructions_in(&self, span: Span) -> Share
        ensures { AreInOrder self.now → result
            ≡ addresses_share self.now.covered.now (addresses_in span self.now.instructions.now) }
    {
        let instructions = within(self.instructions, span);
        let mut ran = 0;
        for address in instructions {
            ran += usize::from(self.has_run(*address));
        }
        Share {
            ran,
            listed: instructions.len(),
        }
    }

    /// How many of texts were shown.
    pub(crate) fn shown_of(&self, texts: &[Text<'_>]) -> Share
        ensures { AreInOrder self.now → result ≡ texts_share self.now.covered.now texts.now }
    {
        let mut ran = 0;
        for text in texts {
            ran += usize::from(self.has_run(text.address));
        }
        Share {
            ran,
            listed: texts.len(),
        }
    }

    /// Those of texts that were not shown.
    pub(crate) fn never_shown(
        &self,
        alloc: Global,
        texts: &[Text<'a>],
    ) -> Result<Vec<Text<'a>>, AllocError>
        ensures { IfOk result (λ v. AreInOrder self.now
            → v.items ≡ filter (never_shown self.now) texts.now) }
    {
        let mut missed = Vec::new(alloc);
        for text in texts {
            if !self.has_run(text.address) {
                missed.push(*text)?;
            }
        }
        Ok(missed)
    }

    /// How many of the texts in a span were shown.
    pub(crate) fn texts_in(&self, span: Span) -> Share
        ensures { AreInOrder self.now → result
            ≡ texts_share self.now.covered.now (texts_in span self.now.texts.now) }
    {
        self.shown_of(texts_within(self.texts, span))
    }

    /// Where the instructions lie that stand before the first routine.
    pub(crate) fn span_of_start(&self) -> Span
        ensures { result ≡ record { low = 0; high = bound_of self.now.routines.now } }
    {
        Span {
            low: 0,
            high: self.bound_at(0),
        }
    }

    /// Where the instructions of a routine lie, by its number: above its address, and below that of the next one.
    pub(crate) fn span_at(&self, index: usize) -> Span
        requires { index < length self.now.routines.now }
        ensures { result ≡ record {
          low = slice_index self.now.routines.now index + 1;
          high = bound_of (drop (index + 1) self.now.routines.now);
        } }
    {
        Span {
            low: u64::from(self.routines[index]) + 1,
            high: self.bound_at(index + 1),
        }
    }

    /// The address of a routine, by its number, or the end of all addresses.
    fn bound_at(&self, index: usize) -> u64
        ensures { result ≡ bound_of (drop index self.now.routines.now) }
    {
        match self.routines.get(index) {
            Some(address) => u64::from(*address),
            None => END,
        }
    }
}
