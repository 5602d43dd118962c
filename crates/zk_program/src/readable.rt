// Listings for readers: with notes, marks and counts, as graphs and as pictures.

ghost use Rattle.std.specs.Prelude.{◌≡◌, false};

use crate::about::About;
use crate::cover::Covered;
use crate::exit::Exit;
use crate::facts::{Look, look_into};
use crate::heading::write_heading;
use crate::listed::Listed;
use crate::listing::{CodeListing, ListError, Listing, exit_after, leave_out};
use crate::misuses::misuse_lines;
use crate::names::see_named;
use crate::play::screen_of;
use crate::report::report_listing;
use crate::told::out_of_memory;
use std::alloc::AllocError;
use zk_command::settings::Form;
use zk_facts::outcome::Facts;
use zk_inspect::section::Section;
use zk_mem::story::OpenError;
use zk_named::code::{CodeView, facts_of};
use zk_named::labels::{object_labels, routine_labels};
use zk_named::source_lines::SourceLines;
use zk_named::tables::TableView;
use zk_names::names::Names;
use zk_notes::counts::Counts;
use zk_notes::cover::{marked, summary};
use zk_notes::graph::{Around, Label, code_graph, tree_graph};
use zk_notes::lines::plain_lines;
use zk_notes::missing::{without_instruction, without_routine};
use zk_notes::picture::map_picture;
use zk_notes::{findings, info_notes};
use zk_term::io_device::IoDevice;
use zk_term::target::{Failed, write_all};
use zk_vm::stop::Stop;

/// By which names listings are shown, and which code of them.
#[derive(Clone, Copy, Drop)]
pub struct ListNaming<'a, 'n, 'p, 'm> {
    /// The path of the compiler's debugging file, and what it says.
    pub path: Option<&'p str>,
    pub names: Option<&'m Names<'n>>,
    /// The files of the source, in the order of the names, where lines of them are shown.
    pub sources: &'a [Option<SourceLines>],
    /// Whether each routine is headed with the places that it is called from.
    pub callers: bool,
    /// The byte addresses that parts of the code have, where no others are shown.
    pub only: Option<&'a [u32]>,
    /// Which calls a graph shows.
    pub around: Option<Around>,
}

impl ListNaming<'_, '_, '_, '_> {
    /// Whether nothing is shown otherwise.
    fn is_plain(&self) -> bool {
        self.names.is_none() && !self.callers && self.only.is_none()
    }
}

/// What is asked of each story.
#[derive(Clone, Copy, Drop)]
pub struct ListRequest<'a, 's, 'n, 'p, 'm> {
    pub listing: Listing<'a>,
    pub form: Form,
    /// Whether notes stand beside what is listed.
    pub notes: bool,
    /// What ran, where it is marked.
    pub covered: Option<&'a Covered<'a>>,
    pub naming: ListNaming<'s, 'n, 'p, 'm>,
}

impl<'a> ListRequest<'a, '_, '_, '_, '_> {
    /// Whether the listing is shown as it is written.
    pub fn is_plain(&self) -> bool {
        if !self.naming.is_plain() {
            return false;
        }
        match (self.form, self.listing) {
            (Form::Lines, Listing::Code(code)) => {
                self.covered.is_none() && code.addresses.is_empty() && code.routines.is_empty()
            }
            (Form::Lines, _) => !self.notes,
            _ => false,
        }
    }

    /// What is listed for the form: for a graph of `info` the tree of objects, and for a picture the map.
    fn listing(&self) -> Listing<'a> {
        match (self.form, self.listing) {
            (Form::Graph, Listing::Info(_)) => Listing::Info(&[Section::Tree]),
            (Form::Picture, Listing::Info(_)) => Listing::Info(&[Section::Map]),
            (_, listing) => listing,
        }
    }
}

/// Code as lines, with marks where it is covered.
fn plain_code(
    rt: &HostRuntime,
    facts: &Facts<'_>,
    request: &ListRequest<'_, '_, '_, '_, '_>,
    code: &CodeListing<'_>,
) -> Result<Vec<u8>, AllocError> {
    match request.covered {
        Some(covered) => marked(rt.alloc(), facts, code.notes, covered.addresses.as_slice()),
        None => plain_lines(rt.alloc(), facts, code.notes),
    }
}

/// Code part by part, with headings and names.
fn headed_code(
    rt: &HostRuntime,
    facts: &Facts<'_>,
    request: &ListRequest<'_, '_, '_, '_, '_>,
    code: &CodeListing<'_>,
) -> Result<Vec<u8>, AllocError> {
    let naming = request.naming;
    let covered = match request.covered {
        Some(covered) => Some(covered.addresses.as_slice()),
        None => None,
    };
    let view = CodeView {
        alloc: rt.alloc(),
        facts: *facts,
        names: naming.names,
        sources: naming.sources,
        notes: code.notes,
        covered,
        only: naming.only,
    };
    let mut text = view.text()?;
    if let Some(covered) = covered {
        let last = last_line(rt, facts, naming.only, covered)?;
        text.extend_from_slice(last.as_slice())?;
    }
    Ok(text)
}

/// The line that says how much ran of what is listed.
fn last_line(
    rt: &HostRuntime,
    facts: &Facts<'_>,
    only: Option<&[u32]>,
    covered: &[u32],
) -> Result<Vec<u8>, AllocError> {
    let Some(addresses) = only else {
        return summary(rt.alloc(), facts, covered);
    };
    let list = facts_of(rt.alloc(), facts, addresses)?;
    let facts = Facts {
        memory: facts.memory,
        list: list.as_slice(),
    };
    summary(rt.alloc(), &facts, covered)
}

/// The text that shows code.
fn code_text(
    rt: &HostRuntime,
    facts: &Facts<'_>,
    request: &ListRequest<'_, '_, '_, '_, '_>,
    code: &CodeListing<'_>,
) -> Result<Vec<u8>, AllocError> {
    let naming = request.naming;
    if naming.names.is_some() || naming.callers {
        return headed_code(rt, facts, request, code);
    }
    match naming.only {
        Some(addresses) => {
            let list = facts_of(rt.alloc(), facts, addresses)?;
            let facts = Facts {
                memory: facts.memory,
                list: list.as_slice(),
            };
            plain_code(rt, &facts, request, code)
        }
        None => plain_code(rt, facts, request, code),
    }
}

/// The text that shows tables or findings.
fn table_text(
    rt: &HostRuntime,
    facts: &Facts<'_>,
    request: &ListRequest<'_, '_, '_, '_, '_>,
) -> Result<Vec<u8>, AllocError> {
    if let Some(names) = request.naming.names {
        let view = TableView {
            alloc: rt.alloc(),
            facts: *facts,
            names,
            notes: request.notes,
        };
        return view.text();
    }
    match request.listing {
        Listing::Findings if request.notes => findings::explain(rt.alloc(), facts),
        Listing::Info(_) if request.notes => info_notes::explain(rt.alloc(), facts),
        _ => plain_lines(rt.alloc(), facts, false),
    }
}

/// The labels of a graph of routines or of objects.
fn labels_of(
    rt: &HostRuntime,
    request: &ListRequest<'_, '_, '_, '_, '_>,
) -> Result<Vec<Label>, AllocError> {
    match (request.naming.names, request.listing) {
        (Some(names), Listing::Code(_)) => routine_labels(rt.alloc(), names),
        (Some(names), _) => object_labels(rt.alloc(), names),
        (None, _) => Ok(Vec::new(rt.alloc())),
    }
}

/// The text of a graph.
fn graph_text(
    rt: &HostRuntime,
    facts: &Facts<'_>,
    request: &ListRequest<'_, '_, '_, '_, '_>,
) -> Result<Vec<u8>, AllocError> {
    let labels = labels_of(rt, request)?;
    match request.listing {
        Listing::Code(_) => {
            code_graph(rt.alloc(), facts, labels.as_slice(), request.naming.around)
        }
        _ => tree_graph(rt.alloc(), facts, labels.as_slice()),
    }
}

/// The text that shows a listing.
fn shown_text(
    rt: &HostRuntime,
    facts: &Facts<'_>,
    request: &ListRequest<'_, '_, '_, '_, '_>,
) -> Result<Vec<u8>, AllocError> {
    match (request.form, request.listing) {
        (Form::Graph, _) => graph_text(rt, facts, request),
        (Form::Picture, _) => map_picture(rt.alloc(), facts),
        (_, Listing::Code(code)) => code_text(rt, facts, request, &code),
        _ => table_text(rt, facts, request),
    }
}

/// Tells which of the addresses that are named have no instruction or no routine.
fn tell_missing(
    rt: &HostRuntime,
    facts: &Facts<'_>,
    code: &CodeListing<'_>,
) -> Result<(), AllocError> {
    for address in &without_instruction(rt.alloc(), facts, code.addresses)? {
        let _ = eprintln!(rt; "zkit: no instruction at {:05x}", *address);
    }
    for address in &without_routine(rt.alloc(), facts, code.routines)? {
        let _ = eprintln!(rt; "zkit: no routine at {:05x}", *address);
    }
    Ok(())
}

/// What the code of a story does by its constants that an author hardly means, where it is checked by names.
fn misuses_in(
    rt: &HostRuntime,
    facts: &Facts<'_>,
    request: &ListRequest<'_, '_, '_, '_, '_>,
) -> Result<Vec<u8>, AllocError> {
    match (request.naming.names, request.listing) {
        (Some(names), Listing::Findings) => misuse_lines(rt.alloc(), facts.memory, names),
        _ => Ok(Vec::new(rt.alloc())),
    }
}

/// The text that shows a listing; tells first which of the addresses that are named have nothing.
fn text_and_missing(
    rt: &HostRuntime,
    facts: &Facts<'_>,
    request: &ListRequest<'_, '_, '_, '_, '_>,
) -> Result<Vec<u8>, AllocError> {
    if let Listing::Code(code) = request.listing {
        tell_missing(rt, facts, &code)?;
    }
    shown_text(rt, facts, request)
}

/// Writes the text that shows a listing, below the story's path where it is one of several, and tells whether it shows
/// what an author hardly means. Refused where the write fails, and for lack of memory.
fn write_shown(
    rt: &HostRuntime,
    about: &About,
    facts: &Facts<'_>,
    request: &ListRequest<'_, '_, '_, '_, '_>,
) -> Result<bool, ListError> {
    let (Ok(mut shown), Ok(misuses)) = (
        text_and_missing(rt, facts, request),
        misuses_in(rt, facts, request),
    ) else {
        return Err(ListError::Memory);
    };
    if shown.extend_from_slice(misuses.as_slice()).is_err() {
        return Err(ListError::Memory);
    }
    let mut screen = screen_of(rt, about);
    let Ok(()) = write_heading(&mut screen, about.heading, None) else {
        return Err(ListError::Write);
    };
    match write_all(&mut screen, shown.as_slice()) {
        Ok(()) => Ok(!misuses.is_empty()),
        Err(Failed) => Err(ListError::Write),
    }
}

/// How a listing ends that shows what an author hardly means, or not.
fn exit_with(exit: Exit, misused: bool) -> Exit {
    match exit {
        Exit::Stopped(Stop::Quit) if misused => Exit::Found,
        exit => exit,
    }
}

/// Whether a file was found to be no story.
fn is_refused(exit: &Exit) -> bool {
    match exit {
        Exit::Refused(error) => !matches!(error, OpenError::OutOfMemory),
        _ => false,
    }
}

/// Shows what was found, and counts its findings; answers how that ends, or the program's status, where it is told that
/// the coverage or the names are of another story.
fn show_found(
    rt: &HostRuntime,
    about: &About,
    look: Look,
    request: &ListRequest<'_, '_, '_, '_, '_>,
    counts: &mut Counts,
) -> Result<Exit, u8> {
    let Look { exit, found } = look;
    match (&found, exit) {
        (Some(found), exit) => {
            let facts = found.facts();
            if let Some(covered) = request.covered {
                covered.see_story(rt, facts.memory)?;
            }
            see_named(rt, request.naming.path, request.naming.names, facts.memory)?;
            counts.add(facts.list);
            match write_shown(rt, about, &facts, request) {
                Ok(misused) => Ok(exit_with(exit, misused)),
                Err(error) => Ok(exit_after(Err(error))),
            }
        }
        (None, exit) => {
            if is_refused(&exit) {
                counts.add_refused();
            } else {
                counts.add_unread();
            }
            Ok(match exit {
                Exit::Refused(_) | Exit::Unread(_) => {
                    leave_out(about, exit, &mut screen_of(rt, about))
                }
                exit => exit,
            })
        }
    }
}

/// Lists the story in a file in memory, and shows what is made of that, below its path where it is one of several; and
/// counts its findings.
pub fn list_readable<'a>(
    rt: &HostRuntime,
    path: &'a str,
    heading: Option<&'a str>,
    request: &ListRequest<'_, '_, '_, '_, '_>,
    counts: &mut Counts,
) -> Listed {
    let about = About::listed(path, heading);
    let look = look_into(rt, &about, path, request.listing());
    let status = match show_found(rt, &about, look, request, counts) {
        Ok(exit) => report_listing(rt.alloc(), &exit, &about, &mut IoDevice::new(rt.stderr())),
        Err(status) => status,
    };
    Listed::of(status, &about)
}

/// Writes how many findings of each kind stories have, and answers the program's status: that of the listings, unless
/// the write fails.
pub fn list_counts(rt: &HostRuntime, counts: &Counts, status: u8) -> u8 {
    let Ok(text) = counts.text(rt.alloc()) else {
        return out_of_memory(rt);
    };
    let about = About::listed("", None);
    match write_all(&mut screen_of(rt, &about), text.as_slice()) {
        Ok(()) => status,
        Err(Failed) => {
            let exit = Exit::Stopped(Stop::Write);
            report_listing(rt.alloc(), &exit, &about, &mut IoDevice::new(rt.stderr()))
        }
    }
}
