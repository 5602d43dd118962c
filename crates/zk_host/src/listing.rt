// Listings of a story, as text that is taken in parts.

ghost use Rattle.std.specs.Prelude.{◌≡◌, ◌≤◌, ◌<◌, ◌∷◌, ◌++◌, ◌⊎◌, [], false, min, IfErr, IfOk, OnOk, OnErr};
ghost use Rattle.std.specs.Prelude.{is_err, length};
ghost use Rattle.zk_inspect.specs.Facts.{AreNone, GaveBy};
ghost use Rattle.zk_inspect.specs.Lines.{lines_of};
ghost use Rattle.zk_host.specs.Listings.{AreListed, AreSomeListed, IsListing, IsPart, IsUnlisted, IsCut, fact_words};
ghost use Rattle.zk_host.specs.Listings.{listing_numbered};
ghost use Rattle.zk_host.specs.declared.listing.Listing.TheVariants as listing;
ghost use Rattle.zk_host.specs.declared.play.Refusal.TheVariants as refused;

use crate::bounded::Bounded;
use crate::play::Refusal;
use crate::text::Text;
use std::alloc::{AllocError, Global};
use zk_inspect::check::check;
use zk_inspect::check::finding_lines::list_findings;
use zk_inspect::fact::{Fact, FactList, FactWriter};
use zk_inspect::line_text::line_text;
use zk_inspect::listing::{list_reached, list_section};
use zk_inspect::plain_text::write_fact;
use zk_inspect::section::Section;
use zk_mem::memory::Memory;
use zk_term::line_writer::{LineWriter, TargetWriter};
use zk_term::target::Failed;
use zk_text::walked::words_walked;

/// So many facts at most has a listing.
const MOST_FACTS: usize = 1_048_576;

/// The texts that the lines of a listing show have so many words at most, those of an abbreviation with each use. The
/// longest story has 262,144 words.
pub(crate) const MOST_WORDS: u32 = 1_048_576;

/// And each of them has so many.
const LONGEST_TEXT: u32 = 131_072;

/// What is listed of a story.
#[derive(Clone, Copy, Drop)]
pub enum Listing {
    Section(Section),
    /// Its disassembly.
    Code,
    /// What is wrong with it.
    Findings,
    /// The instruction at a byte address.
    Instruction(u32),
}

/// The listing of a number.
pub fn listing_of(number: u32) -> Option<Listing>
    ensures { result ≡ listing_numbered number }
{
    match number {
        0 => Some(Listing::Section(Section::Header)),
        1 => Some(Listing::Section(Section::Map)),
        2 => Some(Listing::Section(Section::Abbreviations)),
        3 => Some(Listing::Section(Section::Dictionary)),
        4 => Some(Listing::Section(Section::Objects)),
        5 => Some(Listing::Section(Section::Tree)),
        6 => Some(Listing::Section(Section::Ifid)),
        7 => Some(Listing::Code),
        8 => Some(Listing::Findings),
        9 => Some(Listing::Section(Section::Strings)),
        10 => Some(Listing::Section(Section::Properties)),
        11 => Some(Listing::Section(Section::Globals)),
        12 => Some(Listing::Section(Section::Alphabets)),
        13 => Some(Listing::Section(Section::Extension)),
        _ => None,
    }
}

/// Gives what is wrong with a story.
fn list_all_findings<F: FactWriter>(
    alloc: Global,
    memory: &Memory,
    facts: &mut F,
) -> Result<(), AllocError>
    ensures { GaveBy (is_err result) (AreListed listing.Findings memory.now) AreNone
        F.wrote facts.old facts.new }
{
    let findings = check(alloc, memory)?;
    list_findings(facts, findings.as_slice());
    Ok(())
}

/// Gives the facts of a listing.
fn list_facts<F: FactWriter>(
    alloc: Global,
    memory: &Memory,
    listing: Listing,
    facts: &mut F,
) -> Result<(), AllocError>
    ensures { GaveBy (is_err result) (AreListed listing memory.now) (AreSomeListed listing memory.now)
        F.wrote facts.old facts.new }
{
    match listing {
        Listing::Section(section) => list_section(alloc, memory, section, facts),
        Listing::Code => list_reached(alloc, memory, &[], &[], facts),
        Listing::Findings => list_all_findings(alloc, memory, facts),
        Listing::Instruction(address) => {
            facts.write(Fact::Instruction(address));
            Ok(())
        }
    }
}

/// The facts of a listing.
pub(crate) fn facts_of(
    alloc: Global,
    memory: &Memory,
    listing: Listing,
) -> Result<Vec<Fact>, Refusal>
    ensures facts { IfOk result (λ facts. AreListed listing memory.now facts.items) }
    ensures refused { IfErr result (λ r. (r ≡ refused.Memory) ⊎ (r ≡ refused.TooManyWords)) }
{
    let mut list = FactList::within(alloc, MOST_FACTS);
    let listed = list_facts(alloc, memory, listing, &mut list);
    let is_full = list.is_full();
    match (listed, list.finish()) {
        (Ok(()), Ok(facts)) => Ok(facts),
        (Ok(()), Err(_)) if is_full => Err(Refusal::TooManyWords),
        _ => Err(Refusal::Memory),
    }
}

/// How many words the text has that the line of a fact shows, up to so many.
fn fact_words(memory: &Memory, fact: Fact, most: u32) -> u32
    ensures { result ≡ min (fact_words memory.now fact) most }
{
    match line_text(memory, fact) {
        Some(text) => words_walked(memory, text, most),
        None => 0,
    }
}

/// Writes the line of a fact, and its end.
fn put_line<P: LineWriter>(memory: &Memory, fact: Fact, writer: &mut P)
    ensures { P.wrote writer.old writer.new (lines_of false memory.now (fact ∷ [])) }
{
    write_fact(writer, memory, false, fact);
    writer.write(b"\n");
}

/// Writes the line of a fact to a target, or a first part of it.
fn write_line(memory: &Memory, fact: Fact, target: &mut Bounded) -> Result<(), Failed>
    ensures whole { OnOk result
        (target.new.text.bytes ≡ target.old.text.bytes ++ lines_of false memory.now (fact ∷ [])) }
    ensures cut { OnErr result
        (IsCut target.old.text.bytes target.new.text.bytes (lines_of false memory.now (fact ∷ []))) }
{
    let mut writer = TargetWriter::new(target);
    put_line(memory, fact, &mut writer);
    match writer.finish() {
        Ok(()) => Ok(()),
        Err(Failed) => Err(Failed),
    }
}

/// A step stands for a word of text that is looked at, for a byte of a line, or for as much work otherwise. So many a
/// line takes beside these: what is read of a property list, and of the whole story for an IFID.
fn steps_of(fact: Fact) -> usize {
    match fact {
        Fact::Object(_) => 400,
        Fact::Ifid => 8_000,
        _ => 8,
    }
}

/// Why no further lines were written.
#[derive(Clone, Copy, Drop)]
pub(crate) enum LinesEnd {
    /// There are none.
    Over,
    /// The steps are used up.
    Paused,
    /// The text of the next one has too many words.
    TooManyWords,
    /// The next one is too long, or there is no memory for it.
    Cut,
}

/// How many lines of some facts were written, how many words may still be looked at, and why it were no more.
#[derive(Clone, Copy, Drop)]
pub(crate) struct Part {
    pub lines: usize,
    pub words: u32,
    pub end: LinesEnd,
}

/// Writes the lines of facts, until so many steps are used up.
pub(crate) fn write_lines(
    memory: &Memory,
    facts: &[Fact],
    words: u32,
    steps: usize,
    target: &mut Bounded,
) -> Part
    ensures part { IsPart memory.now facts.now words target.old.text.bytes target.new.text.bytes result }
    ensures few { result.lines ≤ length facts.now }
    ensures some { 0 < steps → result.end ≡ LinesEnd.Paused → 0 < result.lines }
{
    let mut part = Part {
        lines: 0,
        words,
        end: LinesEnd::Over,
    };
    let mut used = 0usize;
    for fact in facts {
        if used >= steps {
            part.end = LinesEnd::Paused;
            return part;
        }
        let count = fact_words(memory, *fact, LONGEST_TEXT + 1);
        if count > part.words.min(LONGEST_TEXT) {
            part.end = LinesEnd::TooManyWords;
            return part;
        }
        let before = target.text.len();
        match write_line(memory, *fact, target) {
            Ok(()) => {}
            Err(Failed) => {
                part.end = LinesEnd::Cut;
                return part;
            }
        }
        part.lines += 1;
        part.words -= count;
        let line = target.text.len().saturating_sub(before);
        used = used
            .saturating_add(steps_of(*fact))
            .saturating_add(count as usize);
        used = used.saturating_add(line);
    }
    part
}

/// A listing of a story, of so many bytes at most. One is refused, too, where it has too many facts or its texts too
/// many words.
pub(crate) fn list(
    alloc: Global,
    memory: &Memory,
    listing: Listing,
    most: usize,
) -> Result<Text, Refusal>
    ensures whole { IfOk result (λ text. IsListing listing memory.now text.bytes) }
    ensures bounded { IfOk result (λ text. length text.bytes ≤ most) }
    ensures refused { IfErr result (λ r. IsUnlisted listing memory.now most r) }
{
    let facts = facts_of(alloc, memory, listing)?;
    let mut target = Bounded::new(Text::new(alloc), most);
    let part = write_lines(
        memory,
        facts.as_slice(),
        MOST_WORDS,
        usize::MAX,
        &mut target,
    );
    if most < target.text.len() {
        return Err(Refusal::TooLong);
    }
    match part.end {
        LinesEnd::Over => Ok(target.text),
        LinesEnd::Cut => Err(Refusal::Memory),
        LinesEnd::Paused | LinesEnd::TooManyWords => Err(Refusal::TooManyWords),
    }
}
