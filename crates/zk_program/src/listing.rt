// Listings of a story, from the bytes of its file to the screen.

ghost use Rattle.std.specs.Prelude.{◌≡◌, false, true, is_err, IfOk, None, Some, option_map};
ghost use Rattle.zk_mem.specs.Fresh.{fresh, plain_setup};
ghost use Rattle.zk_mem.specs.Story.{refusal};
ghost use Rattle.zk_term.specs.Devices.{device};
ghost use Rattle.zk_inspect.specs.Facts.{GaveBy};
ghost use Rattle.zk_inspect.specs.Lines.{WroteLines};
ghost use Rattle.zk_program.specs.Headings.{heading};
ghost use Rattle.zk_program.specs.Listing.{AreAny, AreCode, AreListed, AreSections, AreTitled, EndsListing, IsLeftOut};
ghost use Rattle.zk_program.specs.Listing.{IsListed, IsListing, IsWritten, Tells, exit_by, has_notes};
ghost use Rattle.zk_program.specs.Playing.{IsReported};
ghost use Rattle.zk_program.specs.Verdict.{IsStart};
ghost use Rattle.zk_program.specs.declared.listing.Listing.TheVariants as listing;

use crate::about::About;
use crate::clean::verdict;
use crate::exit::Exit;
use crate::heading::write_heading;
use crate::opening::open_story;
use crate::report::report_listing;
use std::alloc::{AllocError, Global};
use std::io::Read;
use zk_inspect::check::finding_lines::list_findings as list_each;
use zk_inspect::fact::{Fact, FactList, FactWriter};
use zk_inspect::listing::{list_reached, list_section, list_whole};
use zk_inspect::plain_text::PlainText;
use zk_inspect::section::Section;
use zk_mem::memory::{Memory, ScreenSetup, Setup};
use zk_mem::story::Story;
use zk_term::line_writer::{LineWriter, TargetWriter};
use zk_term::target::{Failed, Target};
use zk_vm::stop::Stop;

/// How many states to go back to the header's fields speak of where a story is listed: what `play` has without
/// `--undo`.
const UNDO_STATES: u8 = 16;

/// Which code is listed, and how.
#[derive(Clone, Copy, PartialEq, Drop)]
pub struct CodeListing<'a> {
    /// Whether the routines that lie beside are listed as well.
    pub all: bool,
    /// Whether notes stand after instructions.
    pub notes: bool,
    /// The byte addresses of instructions from which code is looked for, beside the first one.
    pub addresses: &'a [u32],
    /// The byte addresses of routines.
    pub routines: &'a [u32],
}

/// What is listed of a story.
#[derive(Clone, Copy, PartialEq, Drop)]
pub enum Listing<'a> {
    /// Sections on its tables, in this order.
    Info(&'a [Section]),
    /// Its code.
    Code(CodeListing<'a>),
    /// What is wrong with it.
    Findings,
}

impl Listing<'_> {
    /// Whether notes stand after instructions.
    fn has_notes(self) -> bool
        ensures { result ≡ has_notes self.entry }
    {
        match self {
            Listing::Code(code) => code.notes,
            _ => false,
        }
    }
}

/// Gives a section below its title.
fn list_titled<F: FactWriter>(
    alloc: Global,
    memory: &Memory,
    section: Section,
    facts: &mut F,
) -> Result<(), AllocError>
    ensures { GaveBy (is_err result) (AreTitled section memory.now) AreAny F.wrote facts.old facts.new }
{
    facts.write(Fact::Title(section));
    list_section(alloc, memory, section, facts)
}

/// Gives sections, one after another.
fn list_sections<F: FactWriter>(
    alloc: Global,
    memory: &Memory,
    sections: &[Section],
    facts: &mut F,
) -> Result<(), AllocError>
    ensures { GaveBy (is_err result) (AreSections sections.now memory.now) AreAny
        F.wrote facts.old facts.new }
{
    for section in sections {
        match list_titled(alloc, memory, *section, facts) {
            Ok(()) => {}
            Err(error) => return Err(error),
        }
    }
    Ok(())
}

/// Gives code.
fn list_code<F: FactWriter>(
    alloc: Global,
    memory: &Memory,
    listing: CodeListing<'_>,
    facts: &mut F,
) -> Result<(), AllocError>
    ensures { GaveBy (is_err result) (AreCode listing.entry.all listing.entry memory.now) AreAny
        F.wrote facts.old facts.new }
{
    if listing.all {
        list_whole(alloc, memory, listing.addresses, listing.routines, facts)
    } else {
        list_reached(alloc, memory, listing.addresses, listing.routines, facts)
    }
}

/// Gives what is wrong with a story, and tells whether something is.
fn list_findings<F: FactWriter>(
    alloc: Global,
    memory: &Memory,
    facts: &mut F,
) -> Result<bool, AllocError>
    requires { IsStart memory.now }
    ensures tells { IfOk result (λ found. Tells listing.Findings memory.now found) }
    ensures given { GaveBy (is_err result) (AreListed listing.Findings memory.now) AreAny
        F.wrote facts.old facts.new }
{
    let findings = verdict(alloc, memory)?;
    list_each(facts, findings.as_slice());
    Ok(!findings.is_empty())
}

/// Gives the facts of a listing, and tells whether it says that something is wrong. Refused for lack of memory alone.
pub fn list<F: FactWriter>(
    alloc: Global,
    memory: &Memory,
    listing: Listing<'_>,
    facts: &mut F,
) -> Result<bool, AllocError>
    requires { IsStart memory.now }
    ensures tells { IfOk result (λ found. Tells listing.entry memory.now found) }
    ensures given { GaveBy (is_err result) (AreListed listing.entry memory.now) AreAny
        F.wrote facts.old facts.new }
{
    match listing {
        Listing::Info(sections) => {
            list_sections(alloc, memory, sections, facts)?;
            Ok(false)
        }
        Listing::Code(code) => {
            list_code(alloc, memory, code, facts)?;
            Ok(false)
        }
        Listing::Findings => list_findings(alloc, memory, facts),
    }
}

/// The facts of a listing, and whether they say that something is wrong. Refused for lack of memory alone.
pub fn facts_of(
    alloc: Global,
    memory: &Memory,
    listing: Listing<'_>,
) -> Result<(Vec<Fact>, bool), AllocError>
    requires { IsStart memory.now }
    ensures facts { IfOk result (λ r. AreListed listing.entry memory.now r.0.items) }
    ensures tells { IfOk result (λ r. Tells listing.entry memory.now r.1) }
{
    let mut facts = FactList::new(alloc);
    let found = list(alloc, memory, listing, &mut facts)?;
    Ok((facts.finish()?, found))
}

/// Why a listing was not written to its end.
#[derive(Clone, Copy, Drop)]
pub enum ListError {
    /// There is no memory.
    Memory,
    /// A write failed.
    Write,
}

/// Writes the lines of a listing, and tells whether it says that something is wrong.
fn list_lines<P: LineWriter>(
    alloc: Global,
    memory: &Memory,
    listing: Listing<'_>,
    writer: &mut P,
) -> Result<bool, AllocError>
    requires { IsStart memory.now }
    ensures tells { IfOk result (λ found. Tells listing.entry memory.now found) }
    ensures written { WroteLines (is_err result) (AreListed listing.entry memory.now) AreAny
        (has_notes listing.entry) memory.now P.wrote writer.old writer.new }
{
    let mut text = PlainText::new(memory, listing.has_notes(), writer);
    list(alloc, memory, listing, &mut text)
}

/// Writes a listing as lines, and tells whether it says that something is wrong. Refused where a write fails, and for
/// lack of memory.
pub fn list_text<T: Target>(
    alloc: Global,
    memory: &Memory,
    listing: Listing<'_>,
    target: &mut T,
) -> Result<bool, ListError>
    requires { IsStart memory.now }
    ensures tells { IfOk result (λ found. Tells listing.entry memory.now found) }
    ensures written { IsWritten (IsListing listing.entry memory.now) result
        (device T.taken T.failed target.old) (device T.taken T.failed target.new) }
{
    let mut writer = TargetWriter::new(target);
    let listed = list_lines(alloc, memory, listing, &mut writer);
    match writer.finish() {
        Err(Failed) => Err(ListError::Write),
        Ok(()) => match listed {
            Ok(found) => Ok(found),
            Err(_) => Err(ListError::Memory),
        },
    }
}

/// How a listing ends.
pub fn exit_after(listed: Result<bool, ListError>) -> Exit
    ensures { result ≡ exit_by listed }
{
    match listed {
        Ok(true) => Exit::Found,
        Ok(false) => Exit::Stopped(Stop::Quit),
        Err(ListError::Memory) => Exit::Stopped(Stop::Memory),
        Err(ListError::Write) => Exit::Stopped(Stop::Write),
    }
}

/// Lists a story, below its path where it is one of several.
fn list_story<S: Target>(
    alloc: Global,
    story: Story,
    about: &About,
    listing: Listing<'_>,
    screen: &mut S,
) -> Exit
    requires { refusal story ≡ None }
    ensures { IsListed listing.entry (fresh story (plain_setup 16)) (option_map (λ p. p.now) about.now.heading)
        (device S.taken S.failed screen.old) (device S.taken S.failed screen.new) result }
{
    let setup = Setup {
        undo_states: UNDO_STATES,
        screen: ScreenSetup::plain(),
    };
    let Ok(()) = write_heading(screen, about.heading, None) else {
        return Exit::Stopped(Stop::Write);
    };
    match Memory::start(alloc, story, setup) {
        Ok(memory) => exit_after(list_text(alloc, &memory, listing, screen)),
        Err(_) => Exit::Stopped(Stop::Memory),
    }
}

/// Says on the screen why one of several stories is not listed, and answers how that ends: so, unless the write fails.
pub fn leave_out<S: Target>(about: &About, exit: Exit, screen: &mut S) -> Exit
    ensures { IsLeftOut (option_map (λ p. p.now) about.now.heading) exit
        (device S.taken S.failed screen.old) (device S.taken S.failed screen.new) result }
{
    match write_heading(screen, about.heading, Some(&exit)) {
        Ok(()) => exit,
        Err(Failed) => Exit::Stopped(Stop::Write),
    }
}

/// Opens the story that a reader gives for a listing. Refused as `open_story` refuses it, and for lack of memory.
pub fn open_listed<R: Read + Drop>(alloc: Global, reader: R, about: &About) -> Result<Memory, Exit>
    ensures { IfOk result (λ memory. IsStart memory) }
{
    let story = match open_story(alloc, reader, about) {
        Ok(story) => story,
        Err(exit) => return Err(exit),
    };
    let setup = Setup {
        undo_states: UNDO_STATES,
        screen: ScreenSetup::plain(),
    };
    match Memory::start(alloc, story, setup) {
        Ok(memory) => Ok(memory),
        Err(_) => Err(Exit::Stopped(Stop::Memory)),
    }
}

/// Lists the story that a reader gives, below its path where it is one of several.
pub fn list_file<R: Read + Drop, S: Target>(
    alloc: Global,
    reader: R,
    about: &About,
    listing: Listing<'_>,
    screen: &mut S,
) -> Exit
    ensures { EndsListing listing.entry (option_map (λ p. p.now) about.now.heading) (R.remaining reader)
        (device S.taken S.failed screen.old) (device S.taken S.failed screen.new) result }
{
    match open_story(alloc, reader, about) {
        Err(exit) => leave_out(about, exit, screen),
        Ok(story) => list_story(alloc, story, about, listing, screen),
    }
}

/// Lists the story that a reader gives, reports how that ends, and answers the program's status.
pub fn list_and_report<R: Read + Drop, S: Target, E: Target>(
    alloc: Global,
    reader: R,
    about: &About,
    listing: Listing<'_>,
    screen: &mut S,
    errors: &mut E,
) -> u8
    requires { E.failed errors.old ≡ false }
    ensures { IsReported (EndsListing listing.entry (option_map (λ p. p.now) about.now.heading) (R.remaining reader)
        (device S.taken S.failed screen.old) (device S.taken S.failed screen.new))
        (device E.taken E.failed errors.old) (device E.taken E.failed errors.new) result }
{
    let exit = list_file(alloc, reader, about, listing, screen);
    report_listing(alloc, &exit, about, errors)
}
