// Disassemblies with marks at what ran.

ghost use Rattle.std.specs.Prelude.{◌≡◌, ℕ, ◌++◌, is_none, count_by, length, option_map, IfOk, IfSome};
ghost use Rattle.std.specs.List.{flat_map, list_any};
ghost use Rattle.std.specs.List.Sorted.{IsNonDecreasing};
ghost use Rattle.std.specs.Str.Lines.{lines};
ghost use Rattle.zk_inspect.specs.Lines.{fact_line};
ghost use Rattle.zk_notes.specs.Marks.{decoded_of, fact_ran, first_above, has_run, instruction_of};
ghost use Rattle.zk_notes.specs.Marks.{instructions_in, instructions_line, is_below};
ghost use Rattle.zk_notes.specs.Marks.{marked_fact, marked_line, marked_of, ran_line, routine_of, routines_in};
ghost use Rattle.zk_notes.specs.Marks.{share_of, summary_of, was_entered};
ghost use Rattle.zk_notes.specs.Union.{IsUnion, address_on, is_foreign, is_no_address, is_of_story};
ghost use Rattle.zk_notes.specs.Union.{story_line, story_of};

use crate::addresses::{address_of, push_found};
use crate::lines::Lines;
use itoa::Buffer;
use std::alloc::{AllocError, Global};
use zk_code::decode::decode;
use zk_facts::outcome::Facts;
use zk_inspect::fact::Fact;
use zk_inspect::listing::header_lines::shown_serial;
use zk_inspect::plain_text::write_fact;
use zk_mem::memory::Memory;
use zk_term::line_writer::LineWriter;
use zk_term::writing::{hex_digits_of, write_texts};

/// The address of what stands where code comes to.
pub(crate) fn instruction_of(fact: Fact) -> Option<u32>
    ensures { result ≡ instruction_of fact }
{
    match fact {
        Fact::Instruction(address) => Some(address),
        _ => None,
    }
}

/// The address of an instruction: none where the bytes spell none, and a question mark is listed.
pub(crate) fn decoded_of(memory: &Memory, fact: Fact) -> Option<u32>
    ensures { result ≡ decoded_of memory.now fact }
{
    match fact {
        Fact::Instruction(address) if decode(memory, address).is_ok() => Some(address),
        _ => None,
    }
}

/// The address of a routine.
pub(crate) fn routine_of(fact: Fact) -> Option<u32>
    ensures { result ≡ routine_of fact }
{
    match fact {
        Fact::Routine(address) | Fact::LyingRoutine(address, _) => Some(address),
        _ => None,
    }
}

/// The addresses of the instructions that are listed.
pub fn instructions_in(alloc: Global, facts: &Facts<'_>) -> Result<Vec<u32>, AllocError>
    ensures { IfOk result
        (λ v. v.items ≡ instructions_in facts.now.memory.now facts.now.list.now) }
{
    let mut addresses = Vec::new(alloc);
    for fact in facts.list {
        push_found(&mut addresses, decoded_of(facts.memory, *fact))?;
    }
    Ok(addresses)
}

/// The addresses of the routines that are listed.
pub fn routines_in(alloc: Global, facts: &[Fact]) -> Result<Vec<u32>, AllocError>
    ensures { IfOk result (λ v. v.items ≡ routines_in facts.now) }
{
    let mut addresses = Vec::new(alloc);
    for fact in facts {
        push_found(&mut addresses, routine_of(*fact))?;
    }
    Ok(addresses)
}

/// The first of addresses that is above another.
fn first_above(address: u32, addresses: &[u32]) -> Option<u32>
    ensures { result ≡ first_above address addresses.now }
{
    addresses.iter().copied().find(|other| address < *other)
}

/// Whether an address is below another, where there is another.
fn is_below(address: u32, other: Option<u32>) -> bool
    ensures { result ≡ is_below address other }
{
    match other {
        Some(other) => address < other,
        None => true,
    }
}

/// How many of what is listed ran.
#[derive(Clone, Copy, Drop)]
struct Share {
    ran: usize,
    listed: usize,
}

/// Writes how many of what is listed ran, and words.
fn write_share<P: LineWriter>(out: &mut P, share: Share, words: &[u8])
    ensures { P.wrote out.old out.new (share_of share.ran share.listed words.now) }
{
    let mut ran = Buffer::new();
    let mut listed = Buffer::new();
    let ran = ran.format(share.ran).as_bytes();
    let listed = listed.format(share.listed).as_bytes();
    write_texts(out, &[ran, b" of ", listed, words]);
}

/// Writes the line that says how many instructions and routines ran.
#[tactic(auto, unfolding(crate::specs::Marks::ran_line))]
fn write_ran<P: LineWriter>(out: &mut P, instructions: Share, routines: Share)
    ensures { P.wrote out.old out.new
        (ran_line instructions.ran instructions.listed routines.ran routines.listed) }
{
    out.write(b"ran: ");
    write_share(out, instructions, b" instructions, ");
    write_share(out, routines, b" routines\n");
}

/// Writes the line that says how many instructions ran.
fn write_instructions<P: LineWriter>(out: &mut P, instructions: Share)
    ensures { P.wrote out.old out.new (instructions_line instructions.ran instructions.listed) }
{
    let mut ran = Buffer::new();
    let mut listed = Buffer::new();
    let ran = ran.format(instructions.ran).as_bytes();
    let listed = listed.format(instructions.listed).as_bytes();
    write_texts(out, &[b"ran: ", ran, b" of ", listed, b" instructions\n"]);
}

/// The addresses that ran, and those of the instructions and the routines that are listed.
#[derive(Clone, Copy, Drop)]
struct Coverage<'a> {
    covered: &'a [u32],
    instructions: &'a [u32],
    routines: &'a [u32],
}

impl Coverage<'_> {
    /// Whether an instruction ran, by its address.
    fn has_run(&self, address: u32) -> bool
        ensures { IsNonDecreasing self.now.covered.now
            → result ≡ has_run self.now.covered.now address }
    {
        self.covered.binary_search(&address).is_ok()
    }

    /// Whether the first instruction of a routine ran, by the routine's address.
    #[tactic(auto, unfolding(crate::specs::Marks::was_entered))]
    fn was_entered(&self, routine: u32) -> bool
        ensures { IsNonDecreasing self.now.covered.now → result
            ≡ was_entered self.now.covered.now self.now.instructions.now self.now.routines.now routine }
    {
        let Some(first) = first_above(routine, self.instructions) else {
            return false;
        };
        if !is_below(first, first_above(routine, self.routines)) {
            return false;
        }
        self.has_run(first)
    }

    /// Whether what is listed ran.
    fn fact_ran(&self, fact: Fact) -> bool
        ensures { IsNonDecreasing self.now.covered.now → result
            ≡ fact_ran self.now.covered.now self.now.instructions.now self.now.routines.now fact }
    {
        if let Some(instruction) = instruction_of(fact) {
            return self.has_run(instruction);
        }
        match routine_of(fact) {
            Some(routine) => self.was_entered(routine),
            None => false,
        }
    }

    /// Writes the line of a fact with its mark.
    fn write_marked<P: LineWriter>(&self, out: &mut P, memory: &Memory, notes: bool, fact: Fact)
        ensures { IsNonDecreasing self.now.covered.now → P.wrote out.old out.new (marked_line
            (fact_ran self.now.covered.now self.now.instructions.now self.now.routines.now fact)
            (fact_line notes memory.now fact)) }
    {
        let mark = if self.fact_ran(fact) { "+ " } else { "  " };
        out.write(mark.as_bytes());
        write_fact(out, memory, notes, fact);
        out.write(b"\n");
    }

    /// Writes the lines of facts with their marks.
    fn write_all<P: LineWriter>(&self, out: &mut P, facts: &Facts<'_>, notes: bool)
        ensures { IsNonDecreasing self.now.covered.now → P.wrote out.old out.new
            (flat_map (marked_fact notes facts.now.memory.now self.now.covered.now
            self.now.instructions.now self.now.routines.now) facts.now.list.now) }
    {
        for fact in facts.list {
            self.write_marked(out, facts.memory, notes, *fact);
        }
    }

    /// How many of the instructions ran.
    fn instructions_run(&self) -> usize
        ensures { IsNonDecreasing self.now.covered.now → result
            ≡ count_by (has_run self.now.covered.now) self.now.instructions.now }
    {
        let mut count = 0;
        for address in self.instructions {
            count += usize::from(self.has_run(*address));
        }
        count
    }

    /// How many of the routines ran.
    fn routines_entered(&self) -> usize
        ensures { IsNonDecreasing self.now.covered.now → result
            ≡ count_by (was_entered self.now.covered.now self.now.instructions.now self.now.routines.now)
            self.now.routines.now }
    {
        let mut count = 0;
        for address in self.routines {
            count += usize::from(self.was_entered(*address));
        }
        count
    }

    /// How many of the instructions that are listed ran.
    fn instructions(&self) -> Share
        ensures listed { result.listed ≡ length self.now.instructions.now }
        ensures ran { IsNonDecreasing self.now.covered.now → result.ran
            ≡ count_by (has_run self.now.covered.now) self.now.instructions.now }
    {
        Share {
            ran: self.instructions_run(),
            listed: self.instructions.len(),
        }
    }

    /// Writes the line that says how much ran.
    fn write_summary<P: LineWriter>(&self, out: &mut P)
        ensures { IsNonDecreasing self.now.covered.now → P.wrote out.old out.new
            (summary_of self.now.covered.now self.now.instructions.now self.now.routines.now) }
    {
        let instructions = self.instructions();
        let routines = Share {
            ran: self.routines_entered(),
            listed: self.routines.len(),
        };
        write_ran(out, instructions, routines);
    }
}

/// Code with a mark before each of its lines: `+ ` where it ran, and two spaces where not; and then the line `ran: 12
/// of 3984 instructions, 3 of 20 routines`. An instruction ran if its address is among the covered ones, which ascend.
/// A routine ran if the first instruction above its address did, and stands before the next routine.
pub fn marked(
    alloc: Global,
    facts: &Facts<'_>,
    notes: bool,
    covered: &[u32],
) -> Result<Vec<u8>, AllocError>
    ensures { IfOk result (λ v. IsNonDecreasing covered.now
        → v.items ≡ marked_of notes facts.now.memory.now covered.now facts.now.list.now) }
{
    let instructions = instructions_in(alloc, facts)?;
    let routines = routines_in(alloc, facts.list)?;
    let coverage = Coverage {
        covered,
        instructions: instructions.as_slice(),
        routines: routines.as_slice(),
    };
    let mut out = Lines::new(alloc);
    coverage.write_all(&mut out, facts, notes);
    coverage.write_summary(&mut out);
    out.finish()
}

/// The line that says how much ran of what is listed, as below code with marks. The covered addresses ascend.
pub fn summary(alloc: Global, facts: &Facts<'_>, covered: &[u32]) -> Result<Vec<u8>, AllocError>
    ensures { IfOk result (λ v. IsNonDecreasing covered.now → v.items ≡ summary_of covered.now
        (instructions_in facts.now.memory.now facts.now.list.now) (routines_in facts.now.list.now)) }
{
    let instructions = instructions_in(alloc, facts)?;
    let routines = routines_in(alloc, facts.list)?;
    let coverage = Coverage {
        covered,
        instructions: instructions.as_slice(),
        routines: routines.as_slice(),
    };
    let mut out = Lines::new(alloc);
    coverage.write_summary(&mut out);
    out.finish()
}

/// The line that says how many of the instructions that are listed ran: `ran: 12 of 3984 instructions`. The covered
/// addresses ascend.
pub fn instructions_summary(
    alloc: Global,
    facts: &Facts<'_>,
    covered: &[u32],
) -> Result<Vec<u8>, AllocError>
    ensures { IfOk result (λ v. IsNonDecreasing covered.now → v.items ≡ instructions_line
        (count_by (has_run covered.now) (instructions_in facts.now.memory.now facts.now.list.now))
        (length (instructions_in facts.now.memory.now facts.now.list.now))) }
{
    let instructions = instructions_in(alloc, facts)?;
    let coverage = Coverage {
        covered,
        instructions: instructions.as_slice(),
        routines: &[],
    };
    let mut out = Lines::new(alloc);
    write_instructions(&mut out, coverage.instructions());
    out.finish()
}

/// The address that a line has alone, with spaces before and after it.
fn address_on(line: &str) -> Option<u32>
    ensures { result ≡ address_on line.now }
{
    address_of(line.trim())
}

/// Whether a line has more than spaces, and no address.
fn is_no_address(line: &str) -> bool
    ensures { result ≡ is_no_address line.now }
{
    !line.trim().is_empty() && address_on(line).is_none()
}

/// Whether a line is neither an address nor that of a story.
fn is_foreign(story: &str, line: &str) -> bool
    ensures { result ≡ is_foreign story.now line.now }
{
    is_no_address(line) && line != story
}

/// Whether a line is that of a story.
fn is_of_story(line: &str) -> bool
    ensures { result ≡ is_of_story line.now }
{
    line.as_bytes().starts_with(b"story ")
}

/// The line of a story that a text begins with, if it does.
pub fn story_of(text: &str) -> Option<&str>
    ensures { option_map (λ s. s.now) result ≡ story_of (lines text.now) }
{
    match text.lines().next() {
        Some(line) if is_of_story(line) => Some(line),
        _ => None,
    }
}

/// Writes the line of a story.
#[tactic(auto, unfolding(crate::specs::Union::story_line, zk_term::specs::Numbers::word_digits))]
fn write_story<P: LineWriter>(out: &mut P, memory: &Memory)
    ensures { P.wrote out.old out.new (story_line memory.now) }
{
    let mut decimal = Buffer::new();
    let serial = shown_serial(memory.header().serial);
    let sum = hex_digits_of(memory.sum() as u32);
    let length = decimal.format(memory.len()).as_bytes();
    write_texts(out, &[b"story ", &serial, b" ", &sum[4..], b" ", length]);
}

/// The line of a story, without a new line: its serial number, the sum of its bytes, as `verify` has it, and the length
/// of its file. It tells a coverage file's story from others, and from other builds.
pub fn story_line(alloc: Global, memory: &Memory) -> Result<Vec<u8>, AllocError>
    ensures { IfOk result (λ v. v.items ≡ story_line memory.now) }
{
    let mut out = Lines::new(alloc);
    write_story(&mut out, memory);
    out.finish()
}

/// The addresses that the lines of a text are, each once and ascending, as the union of the lists in it; none where a
/// line is no address and not that of the story. An address has five hexadecimal digits at least, and lines of spaces
/// alone are left out.
pub fn addresses_in(alloc: Global, story: &str, text: &str) -> Result<Option<Vec<u32>>, AllocError>
    ensures none { IfOk result (λ o. is_none o ≡ list_any (is_foreign story.now) (lines text.now)) }
    ensures union { IfOk result (λ o. IfSome o (λ v. IsUnion v.items (lines text.now))) }
{
    let mut addresses = Vec::new(alloc);
    for line in text.lines() {
        if is_foreign(story, line) {
            return Ok(None);
        }
        push_found(&mut addresses, address_on(line))?;
    }
    addresses.sort_unstable();
    addresses.dedup();
    Ok(Some(addresses))
}
