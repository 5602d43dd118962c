// A listing that is written in parts.

ghost use Rattle.std.specs.Prelude.{◌≡◌, ◌<◌, ◌⊎◌, IfErr, IfOk};
ghost use Rattle.zk_host.specs.ListingRuns.{IsBegun, IsGoneOn};
ghost use Rattle.zk_host.specs.declared.play.Refusal.TheVariants as refused;

use crate::bounded::Bounded;
use crate::listing::{LinesEnd, Listing, MOST_WORDS, facts_of, write_lines};
use crate::play::Refusal;
use std::alloc::Global;
use zk_inspect::fact::Fact;
use zk_mem::memory::Memory;

/// The facts of a listing, of which the lines from one on are still to be written.
#[derive(Drop)]
pub struct ListingRun {
    /// The number of the listing.
    pub(crate) number: u32,
    memory: Memory,
    facts: Vec<Fact>,
    next: usize,
    /// How many words of texts may still be looked at.
    words: u32,
}

impl ListingRun {
    /// A listing of a story's file, by its number, of which no line is written.
    pub(crate) fn begin(
        alloc: Global,
        memory: Memory,
        number: u32,
        listing: Listing,
    ) -> Result<Box<ListingRun>, Refusal>
        ensures begun { IfOk result (λ run. IsBegun listing number memory run.value) }
        ensures refused { IfErr result (λ r. (r ≡ refused.Memory) ⊎ (r ≡ refused.TooManyWords)) }
    {
        let facts = facts_of(alloc, &memory, listing)?;
        let run = ListingRun {
            number,
            memory,
            facts,
            next: 0,
            words: MOST_WORDS,
        };
        match Box::new(alloc, run) {
            Ok(run) => Ok(run),
            Err(_) => Err(Refusal::Memory),
        }
    }

    /// Writes further lines, until so many steps are used up.
    pub(crate) fn go_on(&mut self, target: &mut Bounded, steps: usize) -> LinesEnd
        ensures part { IsGoneOn self.old self.new target.old.text.bytes target.new.text.bytes result }
        ensures some { 0 < steps → result ≡ LinesEnd.Paused → self.old.next < self.new.next }
    {
        let from = self.next.min(self.facts.len());
        let part = write_lines(&self.memory, &self.facts[from..], self.words, steps, target);
        self.next = from + part.lines;
        self.words = part.words;
        part.end
    }
}
