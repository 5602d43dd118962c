// Listing stories, one after another.

ghost use Rattle.std.specs.Prelude.{◌≡◌, false};

use crate::about::About;
use crate::exit::Exit;
use crate::facts::{NOT_OPENED, list_facts};
use crate::listed::Listed;
use crate::listing::{CodeListing, Listing, leave_out, list_and_report};
use crate::names::{names_of, read_listed_names};
use crate::play::screen_of;
use crate::readable::{ListNaming, ListRequest, list_counts, list_readable};
use crate::report::report_listing;
use crate::roots::{CodeRoots, around_by, code_roots};
use crate::sources::{SourceFile, source_files};
use crate::told::{out_of_memory, tell_last_line};
use std::alloc::{AllocError, Global};
use std::fs::File;
use zk_command::arguments::NO_TEXT;
use zk_command::settings::{Asked, Form, Naming, Roots, ShowOptions};
use zk_named::source_lines::SourceLines;
use zk_names::names::Names;
use zk_notes::counts::Counts;
use zk_notes::graph::Around;
use zk_system::files::files_of;
use zk_system::shown::Shown;
use zk_system::terminal::{columns, is_told_at};
use zk_term::io_device::IoDevice;
use zk_vm::stop::Stop;

/// Lists the story in a file, below its heading where it is one of several.
fn list<'a>(
    rt: &HostRuntime,
    path: &'a str,
    heading: Option<&'a str>,
    listing: Listing<'_>,
) -> Listed {
    let mut errors = IoDevice::new(rt.stderr());
    let about = About::listed(path, heading);
    let mut screen = screen_of(rt, &about);
    let status = match File::open(rt, path) {
        Err(error) => {
            let exit = leave_out(&about, Exit::Unread(error), &mut screen);
            report_listing(rt.alloc(), &exit, &about, &mut errors)
        }
        Ok(file) => list_and_report(rt.alloc(), file, &about, listing, &mut screen, &mut errors),
    };
    Listed::of(status, &about)
}

/// The path of one of several stories, as it is shown.
fn heading_of(alloc: Global, path: &str) -> Result<String, AllocError> {
    let shown = Shown(path);
    if path.contains(NO_TEXT) {
        return format!(in alloc; "{shown} ({NOT_OPENED})");
    }
    format!(in alloc; "{shown}")
}

/// Lists one of several stories, below its path where lines are shown.
fn list_one_of_several(
    rt: &HostRuntime,
    path: &str,
    request: &ListRequest<'_, '_, '_, '_, '_>,
    counts: &mut Counts,
    counted: bool,
) -> Listed {
    match request.form {
        Form::Rows | Form::Json => return list_facts(rt, path, request.listing, request.form),
        // a picture has nothing before it
        Form::Picture => return list_one(rt, path, None, request, counts, counted),
        _ => {}
    }
    match heading_of(rt.alloc(), path) {
        Ok(heading) => list_one(rt, path, Some(heading.as_str()), request, counts, counted),
        Err(_) => Listed::nothing(out_of_memory(rt)),
    }
}

/// Lists a story, below its heading where it is one of several.
fn list_one<'a>(
    rt: &HostRuntime,
    path: &'a str,
    heading: Option<&'a str>,
    request: &ListRequest<'_, '_, '_, '_, '_>,
    counts: &mut Counts,
    counted: bool,
) -> Listed {
    if request.is_plain() && !counted {
        return list(rt, path, heading, request.listing);
    }
    list_readable(rt, path, heading, request, counts)
}

/// Which stories are listed, and what is shown beside them.
#[derive(Clone, Copy, Drop)]
struct Several<'a> {
    stories: &'a [&'a str],
    /// Whether their findings are counted.
    summary: bool,
    /// Whether they are counted on standard error while they are looked at.
    told: bool,
}

/// Tells at a terminal which of the stories comes next, where words that follow stand over it; before the last one it
/// is taken away.
fn tell_count(rt: &HostRuntime, number: usize, count: usize) {
    let _ = if number < count {
        eprint!(rt; "{number} of {count}\r")
    } else {
        eprint!(rt; "{:24}\r", "")
    };
}

/// Lists the stories in files one after another, as long as the screen takes them, and answers the greatest status.
fn list_in_turn(
    rt: &HostRuntime,
    several: Several<'_>,
    request: &ListRequest<'_, '_, '_, '_, '_>,
    counts: &mut Counts,
) -> Listed {
    let mut all = Listed::nothing(0);
    for (number, path) in several.stories.iter().enumerate() {
        if several.told {
            tell_count(rt, number + 1, several.stories.len());
        }
        all = all.and(list_one_of_several(rt, path, request, counts, several.summary));
        if all.ends {
            break;
        }
    }
    all
}

/// Lists the stories in files, unless they would be several pictures.
fn list_each(
    rt: &HostRuntime,
    several: Several<'_>,
    request: &ListRequest<'_, '_, '_, '_, '_>,
    counts: &mut Counts,
) -> Listed {
    if request.form == Form::Picture && several.stories.len() > 1 {
        let _ = eprintln!(rt; "zkit: --svg draws one story at a time");
        return Listed::nothing(1);
    }
    list_in_turn(rt, several, request, counts)
}

/// Lists the stories in files and in folders, and answers the greatest status: 4 at least where a folder can't be read.
fn list_folders(
    rt: &HostRuntime,
    paths: Several<'_>,
    request: &ListRequest<'_, '_, '_, '_, '_>,
    counts: &mut Counts,
) -> Listed {
    let Ok(files) = files_of(rt, paths.stories) else {
        return Listed::nothing(out_of_memory(rt));
    };
    let Ok(stories) = files
        .paths
        .iter()
        .map(|path| path.as_str())
        .collect::<Vec<&str>>(rt.alloc())
    else {
        return Listed::nothing(out_of_memory(rt));
    };
    let several = Several {
        stories: stories.as_slice(),
        ..paths
    };
    let listed = list_each(rt, several, request, counts);
    if files.all || listed.ends {
        return listed;
    }
    listed.and(Listed::nothing(tell_last_line(rt, &Exit::Stopped(Stop::Read))))
}

/// Lists the stories that paths name, and counts their findings. Those of a list and in folders are counted at a
/// terminal that does not show the listing.
fn list_paths(
    rt: &HostRuntime,
    paths: &[&str],
    options: ShowOptions,
    request: &ListRequest<'_, '_, '_, '_, '_>,
    listed: bool,
    counts: &mut Counts,
) -> Listed {
    let several = Several {
        stories: paths,
        summary: options.summary,
        told: (listed || options.recursive) && is_told_at(rt) && columns(rt).is_none(),
    };
    if options.recursive {
        return list_folders(rt, several, request, counts);
    }
    match (paths, request.form) {
        (_, Form::Rows | Form::Json) => {}
        ([path], _) if !listed => {
            return list_one(rt, path, None, request, counts, options.summary);
        }
        _ => {}
    }
    list_each(rt, several, request, counts)
}

/// What is listed of each story, with the roots that code is looked for from.
fn listing_of<'a>(asked: &'a Asked, roots: &'a CodeRoots<'a>, notes: bool) -> Listing<'a> {
    match asked {
        Asked::Sections(sections) => Listing::Info(sections.as_slice()),
        Asked::Code { all } => Listing::Code(CodeListing {
            all: *all,
            notes,
            addresses: roots.addresses.as_slice(),
            routines: roots.routines.as_slice(),
        }),
        Asked::Findings => Listing::Findings,
    }
}

/// The lines of the source files that were found.
fn lines_of(alloc: Global, files: &[SourceFile]) -> Result<Vec<Option<SourceLines>>, AllocError> {
    let mut all = Vec::new(alloc);
    for file in files {
        all.push(match &file.text {
            Some(text) => Some(SourceLines::of(alloc, text.as_slice())?),
            None => None,
        })?;
    }
    Ok(all)
}

/// The lines of the source files that were found, or the program's status.
fn lines_or_told(rt: &HostRuntime, files: &[SourceFile]) -> Result<Vec<Option<SourceLines>>, u8> {
    match lines_of(rt.alloc(), files) {
        Ok(lines) => Ok(lines),
        Err(_) => Err(out_of_memory(rt)),
    }
}

/// The files of the source in the folders that options name, or the program's status.
fn sources_of(
    rt: &HostRuntime,
    folders: &[&str],
    names: Option<&Names<'_>>,
) -> Result<Vec<SourceFile>, u8> {
    if folders.is_empty() {
        return Ok(Vec::new(rt.alloc()));
    }
    match source_files(rt, folders, names) {
        Ok(files) => Ok(files),
        Err(_) => Err(out_of_memory(rt)),
    }
}

/// Sees that options that need names have some, or answers the program's status, where it is told which has not.
fn see_needs(
    rt: &HostRuntime,
    roots: &Roots<'_>,
    naming: &Naming<'_>,
    options: ShowOptions,
) -> Result<(), u8> {
    let told = if !naming.sources.is_empty() && naming.names.is_none() {
        "--source needs --names"
    } else if naming.around.is_some() && options.form != Form::Graph {
        "--around needs --graph"
    } else if naming.depth.is_some() && naming.around.is_none() {
        "--depth needs --around"
    } else if options.only && roots.at.is_empty() && roots.routines.is_empty() {
        "--only needs --at or --routine"
    } else {
        return Ok(());
    };
    let _ = eprintln!(rt; "zkit: {told}");
    Err(1)
}

/// By which names stories are listed, and which code of them, by options and by the roots of code.
fn naming_of<'a, 'n, 'p, 'm>(
    path: Option<&'p str>,
    names: Option<&'m Names<'n>>,
    sources: &'a [Option<SourceLines>],
    named: &'a [u32],
    options: ShowOptions,
    around: Option<Around>,
) -> ListNaming<'a, 'n, 'p, 'm> {
    ListNaming {
        path,
        names,
        sources,
        callers: options.callers,
        only: if options.only { Some(named) } else { None },
        around,
    }
}

/// What is asked of each story, by options, by the roots of code and by names.
fn request_of<'a, 's, 'n, 'p, 'm>(
    asked: &'a Asked,
    roots: &'a CodeRoots<'a>,
    options: ShowOptions,
    naming: ListNaming<'s, 'n, 'p, 'm>,
) -> ListRequest<'a, 's, 'n, 'p, 'm> {
    ListRequest {
        listing: listing_of(asked, roots, options.notes),
        form: options.form,
        notes: options.notes,
        covered: roots.covered.as_ref(),
        naming,
    }
}

/// A copy of addresses.
fn copy_of(rt: &HostRuntime, addresses: &[u32]) -> Result<Vec<u32>, u8> {
    match Vec::from_slice(rt.alloc(), addresses) {
        Ok(copy) => Ok(copy),
        Err(_) => Err(out_of_memory(rt)),
    }
}

/// Lists stories by names, if there are some.
fn list_by(
    rt: &HostRuntime,
    paths: &[&str],
    roots: &Roots<'_>,
    naming: &Naming<'_>,
    options: ShowOptions,
    asked: &Asked,
    listed: bool,
    names: Option<&Names<'_>>,
) -> Result<u8, u8> {
    let mut roots = code_roots(rt, roots, names)?;
    let around = around_by(rt, naming.around, naming.depth, names, &mut roots)?;
    // what is borrowed of the roots twice would be lent at two lifetimes
    let named = copy_of(rt, roots.named.as_slice())?;
    let files = sources_of(rt, naming.sources.as_slice(), names)?;
    let sources = lines_or_told(rt, files.as_slice())?;
    let shown = naming_of(
        naming.names,
        names,
        sources.as_slice(),
        named.as_slice(),
        options,
        around,
    );
    let request = request_of(asked, &roots, options, shown);
    let mut counts = Counts::new();
    let Listed { status, ends } = list_paths(rt, paths, options, &request, listed, &mut counts);
    Ok(match options.form {
        Form::Lines if options.summary && !ends => list_counts(rt, &counts, status),
        _ => status,
    })
}

/// Lists stories by the compiler's debugging file, if there is one, or answers the program's status, where it is told
/// what is wrong.
fn list_named(
    rt: &HostRuntime,
    paths: &[&str],
    roots: &Roots<'_>,
    naming: &Naming<'_>,
    options: ShowOptions,
    asked: &Asked,
    listed: bool,
) -> Result<u8, u8> {
    see_needs(rt, roots, naming, options)?;
    let bytes = read_listed_names(rt, naming.names)?;
    let names = names_of(rt, naming.names, &bytes)?;
    list_by(
        rt,
        paths,
        roots,
        naming,
        options,
        asked,
        listed,
        names.as_ref(),
    )
}

/// Lists the stories that paths name, as options say and by names, and answers the greatest status.
pub fn list_all(
    rt: &HostRuntime,
    paths: &[&str],
    roots: &Roots<'_>,
    naming: &Naming<'_>,
    options: ShowOptions,
    asked: &Asked,
    listed: bool,
) -> u8 {
    match list_named(rt, paths, roots, naming, options, asked, listed) {
        Ok(status) | Err(status) => status,
    }
}
