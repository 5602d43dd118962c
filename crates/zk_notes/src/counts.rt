// Findings of many stories, counted.

ghost use Rattle.std.specs.Prelude.{◌≡◌, ℕ, ◌+◌, ◌<◌, ◌≤◌, count_by, length, slice_index, EachIndex, if◌then◌else◌};
ghost use Rattle.std.specs.List.{list_any};
ghost use Rattle.zk_notes.specs.Counts.{capped, is_finding, is_of};

use crate::pieces::{Piece, TextBuilder};
use std::alloc::{AllocError, Global};
use zk_inspect::check::finding::NUMBERS;
use zk_inspect::fact::Fact;

/// Whether a fact is a finding of the kind of a number.
fn is_of(fact: Fact, number: u8) -> bool
    ensures { result ≡ is_of number fact }
{
    match fact {
        Fact::Finding(finding) => finding.number.number() == number,
        _ => false,
    }
}

/// How many facts are findings of the kind of a number.
fn count_of(facts: &[Fact], number: u8) -> u64
    ensures { result ≡ capped (count_by (is_of number) facts.now) }
{
    let mut count: u64 = 0;
    for fact in facts {
        if is_of(*fact, number) {
            count = count.saturating_add(1);
        }
    }
    count
}

/// Whether a fact is a finding.
fn is_finding(fact: Fact) -> bool
    ensures { result ≡ is_finding fact }
{
    match fact {
        Fact::Finding(_) => true,
        _ => false,
    }
}

/// Whether facts have a finding.
fn has_finding(facts: &[Fact]) -> bool
    ensures { result ≡ list_any is_finding facts.now }
{
    for fact in facts {
        if is_finding(*fact) {
            return true;
        }
    }
    false
}

/// Adds the findings of a story to those of each kind.
fn add_counts(kinds: &mut [u64], facts: &[Fact])
    requires { length kinds.old ≤ 12 }
    ensures { EachIndex kinds.new (λ k. slice_index kinds.new k
        ≡ capped (slice_index kinds.old k + count_by (is_of (k + 1)) facts.now)) }
{
    for at in 0..kinds.len() {
        kinds[at] = kinds[at].saturating_add(count_of(facts, at as u8 + 1));
    }
}

/// How many kinds of findings there are.
const KINDS: usize = NUMBERS.len();

/// Adds the line of files that were not checked, where there are some.
fn add_unchecked(out: &mut TextBuilder, count: u64, last: &str) {
    if count > 0 {
        let noun = if count == 1 { " file " } else { " files " };
        out.pieces(&[
            Piece::Text("total "),
            Piece::Number(count),
            Piece::Text(noun),
            Piece::Text(last),
        ]);
    }
}

/// How many findings stories have, by kind. A number that 64 bits don't hold stays at the greatest that they do.
#[derive(Drop)]
pub struct Counts {
    /// The findings of each kind, from `C1` on.
    kinds: [u64; KINDS],
    /// The stories that were checked.
    stories: u64,
    /// The stories with a finding.
    wrong: u64,
    /// The files that are no stories.
    refused: u64,
    /// The files that could not be read.
    unread: u64,
}

impl Counts {
    /// No stories.
    pub fn new() -> Counts
        ensures kinds { EachIndex result.kinds (λ k. slice_index result.kinds k ≡ 0) }
        ensures stories { result.stories ≡ 0 }
        ensures wrong { result.wrong ≡ 0 }
        ensures others { (result.refused ≡ 0) × (result.unread ≡ 0) }
    {
        Counts {
            kinds: [0; KINDS],
            stories: 0,
            wrong: 0,
            refused: 0,
            unread: 0,
        }
    }

    /// Adds a story, by the facts that `check` lists of it.
    pub fn add(&mut self, facts: &[Fact])
        ensures kinds { EachIndex self.new.kinds (λ k. slice_index self.new.kinds k
            ≡ capped (slice_index self.old.kinds k + count_by (is_of (k + 1)) facts.now)) }
        ensures stories { self.new.stories ≡ capped (self.old.stories + 1) }
        ensures wrong { self.new.wrong ≡ capped (self.old.wrong
            + (if list_any is_finding facts.now then 1 else 0)) }
        ensures others { (self.new.refused ≡ self.old.refused) × (self.new.unread ≡ self.old.unread) }
    {
        add_counts(&mut self.kinds, facts);
        self.stories = self.stories.saturating_add(1);
        self.wrong = self.wrong.saturating_add(u64::from(has_finding(facts)));
    }

    /// Adds a file that is no story.
    pub fn add_refused(&mut self)
        ensures { self.new ≡ record self.old { refused = capped (self.old.refused + 1) } }
    {
        self.refused = self.refused.saturating_add(1);
    }

    /// Adds a file that could not be read.
    pub fn add_unread(&mut self)
        ensures { self.new ≡ record self.old { unread = capped (self.old.unread + 1) } }
    {
        self.unread = self.unread.saturating_add(1);
    }

    /// How many findings there are.
    fn findings(&self) -> u64 {
        let mut all: u64 = 0;
        for count in &self.kinds {
            all = all.saturating_add(*count);
        }
        all
    }

    /// Adds the line of each kind that occurs.
    fn add_kinds(&self, out: &mut TextBuilder) {
        for (number, count) in NUMBERS.iter().zip(self.kinds.iter()) {
            if *count > 0 {
                let line = [
                    Piece::Text("total C"),
                    Piece::Number(number.number() as u64),
                    Piece::Text(" "),
                    Piece::Number(*count),
                    Piece::Text(" "),
                    Piece::Text(number.words()),
                    Piece::Text("\n"),
                ];
                out.pieces(&line);
            }
        }
    }

    /// Adds the line of all.
    fn add_total(&self, out: &mut TextBuilder) {
        let findings = self.findings();
        let noun = if findings == 1 {
            " finding in "
        } else {
            " findings in "
        };
        let last = if self.stories == 1 {
            " story\n"
        } else {
            " stories\n"
        };
        let line = [
            Piece::Text("total "),
            Piece::Number(findings),
            Piece::Text(noun),
            Piece::Number(self.wrong),
            Piece::Text(" of "),
            Piece::Number(self.stories),
            Piece::Text(last),
        ];
        out.pieces(&line);
    }

    /// The counts as lines: `total C5 3 object links` for each kind that occurs, by its number, then `total 4 findings
    /// in 2 of 7 stories`, or `total 1 finding in 1 of 1 story`, and `total 2 files refused` and `total 1 file unread`
    /// where there are some.
    pub fn text(&self, alloc: Global) -> Result<Vec<u8>, AllocError> {
        let mut out = TextBuilder::new(alloc);
        self.add_kinds(&mut out);
        self.add_total(&mut out);
        add_unchecked(&mut out, self.refused, "refused\n");
        add_unchecked(&mut out, self.unread, "unread\n");
        out.finish()
    }
}
