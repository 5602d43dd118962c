// Listings of a play's story.

ghost use Rattle.std.specs.Prelude.{◌≡◌, ◌≤◌, ◌<◌, ◌⊎◌, None, IfErr, IfOk, length};
ghost use Rattle.zk_mem.specs.Fresh.{fresh, plain_setup};
ghost use Rattle.zk_host.specs.ListingRuns.{IsBegun, IsListedBy, IsListedFirst, IsListedFor, IsListedFrom};
ghost use Rattle.zk_host.specs.ListingRuns.{IsListedNow, IsListedOn};
ghost use Rattle.zk_host.specs.ListingRuns.{with_none_listed};
ghost use Rattle.zk_host.specs.Listings.{IsListing, IsUnlisted};
ghost use Rattle.zk_host.specs.declared.listing.Listing.TheVariants as listing;
ghost use Rattle.zk_host.specs.declared.play.Refusal.TheVariants as refused;
ghost use Rattle.zk_host.specs.Texts.{IsTaken};

use crate::bounded::Bounded;
use crate::listing::{LinesEnd, Listing, list, listing_of};
use crate::listing_run::ListingRun;
use crate::play::{Play, Refusal};
use crate::text::Text;
use std::alloc::{AllocError, Global};
use std::mem;
use zk_mem::memory::{Memory, ScreenSetup, Setup};
use zk_mem::story::Story;

/// So many states to go back to the header's fields speak of where a story is listed: what `zkit info` has.
const UNDO_STATES: u8 = 16;

/// So many bytes of a listing in parts may wait.
const MOST_WAITING: usize = 67_108_864;

/// The memory of a story's file at its start.
fn file_of(alloc: Global, memory: &Memory) -> Result<Memory, AllocError>
    ensures { IfOk result (λ m. m ≡ fresh memory.now.file (plain_setup 16)) }
{
    let Ok(story) = Story::open(alloc, memory.original()) else {
        return Err(AllocError);
    };
    let setup = Setup {
        undo_states: UNDO_STATES,
        screen: ScreenSetup::plain(),
    };
    match Memory::start(alloc, story, setup) {
        Ok(memory) => Ok(memory),
        Err(_) => Err(AllocError),
    }
}

/// A listing of the file of a story that is played, of so many bytes at most.
fn list_file(alloc: Global, memory: &Memory, listing: Listing, most: usize) -> Result<Text, Refusal>
    ensures whole { IfOk result
        (λ text. IsListing listing (fresh memory.now.file (plain_setup 16)) text.bytes) }
    ensures bounded { IfOk result (λ text. length text.bytes ≤ most) }
    ensures refused { IfErr result (λ r. IsUnlisted listing (fresh memory.now.file (plain_setup 16)) most r) }
{
    match file_of(alloc, memory) {
        Ok(memory) => list(alloc, &memory, listing, most),
        Err(AllocError) => Err(Refusal::Memory),
    }
}

/// A listing in parts of the file of a story that is played, of which no line is written.
fn begin(
    alloc: Global,
    memory: &Memory,
    number: u32,
    listing: Listing,
) -> Result<Box<ListingRun>, Refusal>
    ensures begun { IfOk result (λ run. IsBegun listing number (fresh memory.now.file (plain_setup 16)) run.value) }
    ensures refused { IfErr result (λ r. (r ≡ refused.Memory) ⊎ (r ≡ refused.TooManyWords)) }
{
    match file_of(alloc, memory) {
        Ok(memory) => ListingRun::begin(alloc, memory, number, listing),
        Err(AllocError) => Err(Refusal::Memory),
    }
}

impl Play {
    /// Drops what is left of a listing.
    pub fn drop_listing(&mut self, alloc: Global)
        ensures { self.new ≡ with_none_listed self.old }
    {
        self.listing = Text::new(alloc);
        self.run = None;
    }

    /// Lists the story's file in at most so many bytes, in place of an earlier listing. Where it is refused there is
    /// none.
    pub fn list(&mut self, alloc: Global, listing: Listing, most: usize) -> Result<(), Refusal>
        ensures { IsListedBy listing most self.old self.new result }
    {
        self.drop_listing(alloc);
        match list_file(alloc, self.machine.machine().memory(), listing, most) {
            Ok(text) => {
                self.listing = text;
                Ok(())
            }
            Err(refusal) => Err(refusal),
        }
    }

    /// Lists the instruction at a byte address of memory as it stands, as a disassembly does, in at most so many bytes,
    /// in place of an earlier listing. Where it is refused there is none.
    pub fn list_instruction(
        &mut self,
        alloc: Global,
        address: u32,
        most: usize,
    ) -> Result<(), Refusal>
        ensures { IsListedNow (listing.Instruction address) most self.old self.new result }
    {
        self.drop_listing(alloc);
        let memory = self.machine.machine().memory();
        match list(alloc, memory, Listing::Instruction(address), most) {
            Ok(text) => {
                self.listing = text;
                Ok(())
            }
            Err(refusal) => Err(refusal),
        }
    }

    /// Begins a listing in parts, in place of an earlier listing. Where it is refused there is none.
    fn begin_listing(
        &mut self,
        alloc: Global,
        number: u32,
        listing: Listing,
    ) -> Result<bool, Refusal>
        ensures { IsListedFirst number listing self.old self.new result }
    {
        self.drop_listing(alloc);
        match begin(alloc, self.machine.machine().memory(), number, listing) {
            Ok(run) => {
                self.run = Some(run);
                Ok(true)
            }
            Err(refusal) => Err(refusal),
        }
    }

    /// Writes further lines of a listing in parts, behind those that wait. Where that is refused there is no listing.
    fn list_on(
        &mut self,
        alloc: Global,
        mut run: Box<ListingRun>,
        steps: usize,
    ) -> Result<bool, Refusal>
        requires some { 0 < steps }
        requires taken { self.now.run ≡ None }
        ensures { IsListedOn run.value (record self.old { run = None }) self.new result }
    {
        let text = mem::replace(&mut self.listing, Text::new(alloc));
        let mut target = Bounded::new(text, MOST_WAITING);
        let end = run.go_on(&mut target, steps);
        match end {
            LinesEnd::Over => {
                self.listing = target.text;
                Ok(false)
            }
            LinesEnd::Paused => {
                self.listing = target.text;
                self.run = Some(run);
                Ok(true)
            }
            LinesEnd::TooManyWords => Err(Refusal::TooManyWords),
            LinesEnd::Cut if target.text.len() > MOST_WAITING => Err(Refusal::TooLong),
            LinesEnd::Cut => Err(Refusal::Memory),
        }
    }

    /// Goes on with the listing of a number, or begins it where it is not begun.
    fn list_part(
        &mut self,
        alloc: Global,
        number: u32,
        listing: Listing,
        steps: u32,
    ) -> Result<bool, Refusal>
        ensures { IsListedFrom self.old.run number listing self.old self.new result }
    {
        match self.run.take() {
            Some(run) => {
                if run.number == number {
                    return self.list_on(alloc, run, steps.max(1) as usize);
                }
                self.begin_listing(alloc, number, listing)
            }
            None => self.begin_listing(alloc, number, listing),
        }
    }

    /// Lists the story's file in parts: goes on with the listing of a number, until so many steps are used up, or
    /// begins it where it is not begun, and says whether more is to come. Where it is refused there is no listing.
    pub fn list_for(&mut self, alloc: Global, number: u32, steps: u32) -> Result<bool, Refusal>
        ensures { IsListedFor number self.old self.new result }
    {
        match listing_of(number) {
            Some(listing) => self.list_part(alloc, number, listing, steps),
            None => {
                self.drop_listing(alloc);
                Err(Refusal::NotAwaited)
            }
        }
    }

    /// Takes text of the listing from the front into a buffer, and says how many bytes.
    pub fn take_listing(&mut self, buffer: &mut [u8]) -> usize
        ensures text { IsTaken self.old.listing self.new.listing buffer.old buffer.new result }
        ensures beside { self.new ≡ record self.old { listing = self.new.listing } }
    {
        self.listing.take(buffer)
    }
}
