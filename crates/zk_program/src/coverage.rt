// What plays have run of a story, told by lines of its source.

use crate::about::About;
use crate::cover::{Covered, covered_in};
use crate::exit::Exit;
use crate::facts::{Found, Look, look_into};
use crate::listing::{CodeListing, Listing};
use crate::names::{names_of, read_names, see_named};
use crate::play::screen_of;
use crate::sources::{SourceFile, name_in, source_files};
use crate::told::{out_of_memory, tell_exit, tell_last_line};
use std::alloc::{AllocError, Global};
use zk_command::settings::CoverOptions;
use zk_coverage::html::page;
use zk_coverage::lcov::trace;
use zk_coverage::ran::{Ran, Text};
use zk_coverage::summary::summary;
use zk_facts::outcome::Facts;
use zk_inspect::section::Section;
use zk_mem::memory::Memory;
use zk_names::names::Names;
use zk_notes::cover::{
    instructions_in, instructions_summary, routines_in, summary as listed_summary,
};
use zk_notes::listed_texts::{ListedText, texts_in};
use zk_system::keeping::{Kept, keep};
use zk_system::same_file::is_same_file;
use zk_system::shown::Shown;
use zk_term::target::{Failed, write_all};
use zk_vm::stop::Stop;

/// What a report is made of: a listing of the story, and what ran of it.
#[derive(Drop)]
struct Listed {
    covered: Vec<u32>,
    instructions: Vec<u32>,
    routines: Vec<u32>,
    texts: Vec<ListedText>,
    strings: Vec<ListedText>,
    /// The line that says how much of the listing ran.
    last: Vec<u8>,
}

/// What coverage files have together, ascending, each address once.
fn union_of(alloc: Global, files: &[Covered<'_>]) -> Result<Vec<u32>, AllocError> {
    let mut all = Vec::new(alloc);
    for file in files {
        all.extend_from_slice(file.addresses.as_slice())?;
    }
    all.sort_unstable();
    all.dedup();
    Ok(all)
}

/// Reads coverage files, or answers the program's status, where it is told why one is not taken.
fn read_covers<'a>(rt: &HostRuntime, paths: &[&'a str]) -> Result<Vec<Covered<'a>>, u8> {
    let mut files = Vec::new(rt.alloc());
    for path in paths {
        let covered = covered_in(rt, path)?;
        if files.push(covered).is_err() {
            return Err(out_of_memory(rt));
        }
    }
    Ok(files)
}

/// What ran of a listing, with the texts that lie apart from code. Where it has names, these tell its routines.
fn listed_by(
    alloc: Global,
    facts: &Facts<'_>,
    strings: Vec<ListedText>,
    covered: Vec<u32>,
    is_named: bool,
) -> Result<Listed, AllocError> {
    let instructions = instructions_in(alloc, facts)?;
    let routines = routines_in(alloc, facts.list)?;
    let texts = texts_in(alloc, facts)?;
    let last = if is_named {
        instructions_summary(alloc, facts, covered.as_slice())?
    } else {
        listed_summary(alloc, facts, covered.as_slice())?
    };
    Ok(Listed {
        covered,
        instructions,
        routines,
        texts,
        strings,
        last,
    })
}

/// A report on what ran of a story.
#[derive(Drop)]
struct Report<'a> {
    rt: &'a HostRuntime,
    story: &'a str,
    options: CoverOptions<'a>,
    ran: Ran<'a>,
    names: Option<&'a Names<'a>>,
    sources: &'a [SourceFile],
}

impl Report<'_> {
    /// The page.
    fn html(&self) -> Result<Vec<u8>, AllocError> {
        let mut texts = Vec::new(self.rt.alloc());
        for source in self.sources {
            texts.push(match &source.text {
                Some(text) => Some(text.as_slice()),
                None => None,
            })?;
        }
        let title = format!(in self.rt.alloc(); "{}", Shown(name_in(self.story)))?;
        page(
            self.rt.alloc(),
            title.as_str(),
            &self.ran,
            self.names,
            texts.as_slice(),
        )
    }

    /// The trace file of lcov, where there are names.
    fn lcov(&self, names: &Names<'_>) -> Result<Vec<u8>, AllocError> {
        let mut paths = Vec::new(self.rt.alloc());
        for source in self.sources {
            paths.push(source.path.as_str())?;
        }
        trace(self.rt.alloc(), &self.ran, names, paths.as_slice())
    }

    /// Writes a file of the report, and answers the program's status where that fails.
    fn write(&self, path: &str, made: Result<Vec<u8>, AllocError>) -> Result<(), u8> {
        let Ok(bytes) = made else {
            return Err(out_of_memory(self.rt));
        };
        if keep(self.rt, path, bytes.as_slice(), Kept::List) {
            return Ok(());
        }
        Err(tell_last_line(self.rt, &Exit::Stopped(Stop::Write)))
    }

    /// Writes the files that options name.
    fn write_files(&self) -> Result<(), u8> {
        match (self.options.lcov, self.names) {
            (Some(path), Some(names)) => self.write(path, self.lcov(names))?,
            _ => {}
        }
        match self.options.html {
            Some(path) => self.write(path, self.html()),
            None => Ok(()),
        }
    }

    /// Shows the summary, with the line of the listing below it.
    fn show(&self, last: &[u8]) -> Result<(), u8> {
        let Ok(mut text) = summary(self.rt.alloc(), &self.ran, self.names) else {
            return Err(out_of_memory(self.rt));
        };
        if text.extend_from_slice(last).is_err() {
            return Err(out_of_memory(self.rt));
        }
        let about = About::new(self.story, "");
        match write_all(&mut screen_of(self.rt, &about), text.as_slice()) {
            Ok(()) => Ok(()),
            Err(Failed) => Err(tell_exit(self.rt, &Exit::Stopped(Stop::Write), &about)),
        }
    }
}

/// The texts of a listing, as a report has them.
fn report_texts(alloc: Global, texts: &[ListedText]) -> Result<Vec<Text<'_>>, AllocError> {
    let mut all = Vec::new(alloc);
    for text in texts {
        all.push(Text {
            address: text.address,
            shown: text.shown.as_slice(),
        })?;
    }
    Ok(all)
}

/// What was found of a story, with all routines and what ran, or the program's status, where it is told why nothing is.
fn find_in(rt: &HostRuntime, story: &str, covered: &[u32]) -> Result<Found, u8> {
    let about = About::new(story, "");
    let listing = Listing::Code(CodeListing {
        all: true,
        notes: false,
        addresses: covered,
        routines: &[],
    });
    let Look { exit, found } = look_into(rt, &about, story, listing);
    match found {
        Some(found) => Ok(found),
        None => Err(tell_exit(rt, &exit, &about)),
    }
}

/// Whether one of some texts was shown, by what is covered.
fn is_one_covered(texts: &[ListedText], covered: &[u32]) -> bool {
    texts
        .iter()
        .any(|text| covered.binary_search(&text.address).is_ok())
}

/// The texts that lie apart from code, or the program's status, where it is told why they are not found. There are none
/// where no play has noted that it printed one: then nothing tells which were.
fn strings_in(rt: &HostRuntime, story: &str, covered: &[u32]) -> Result<Vec<ListedText>, u8> {
    let about = About::new(story, "");
    let Look { exit, found } = look_into(rt, &about, story, Listing::Info(&[Section::Strings]));
    let Some(found) = found else {
        return Err(tell_exit(rt, &exit, &about));
    };
    match texts_in(rt.alloc(), &found.facts()) {
        Ok(strings) if is_one_covered(strings.as_slice(), covered) => Ok(strings),
        Ok(_) => Ok(Vec::new(rt.alloc())),
        Err(_) => Err(out_of_memory(rt)),
    }
}

/// Sees that options name no file that is read, and ask for nothing that needs names without them; or answers the
/// program's status, where it is told what is wrong.
fn see_options(rt: &HostRuntime, paths: &[&str], options: &CoverOptions<'_>) -> Result<(), u8> {
    for (option, out) in [("lcov", options.lcov), ("html", options.html)] {
        let Some(out) = out else {
            continue;
        };
        let is_read = paths
            .iter()
            .copied()
            .chain(options.names)
            .any(|path| is_same_file(rt, path, out));
        if is_read {
            let _ = eprintln!(rt;
                "zkit: --{option} names a file that is read, which would be lost"
            );
            return Err(1);
        }
    }
    if options.lcov.is_some() && options.names.is_none() {
        let _ = eprintln!(rt; "zkit: --lcov needs --names");
        return Err(1);
    }
    Ok(())
}

/// Sees that coverage files are of a story, or answers the program's status, where it is told which is not.
fn see_covers(rt: &HostRuntime, files: &[Covered<'_>], memory: &Memory) -> Result<(), u8> {
    for file in files {
        file.see_story(rt, memory)?;
    }
    Ok(())
}

/// Reports on what ran of a story that was found.
fn report_found(
    rt: &HostRuntime,
    story: &str,
    listed: &Listed,
    names: Option<&Names<'_>>,
    folders: &[&str],
    options: CoverOptions<'_>,
) -> Result<(), u8> {
    let (Ok(texts), Ok(strings)) = (
        report_texts(rt.alloc(), listed.texts.as_slice()),
        report_texts(rt.alloc(), listed.strings.as_slice()),
    ) else {
        return Err(out_of_memory(rt));
    };
    let Ok(sources) = source_files(rt, folders, names) else {
        return Err(out_of_memory(rt));
    };
    let report = Report {
        rt,
        story,
        options,
        ran: Ran {
            covered: listed.covered.as_slice(),
            instructions: listed.instructions.as_slice(),
            routines: listed.routines.as_slice(),
            texts: texts.as_slice(),
            strings: strings.as_slice(),
        },
        names,
        sources: sources.as_slice(),
    };
    report.write_files()?;
    report.show(listed.last.as_slice())
}

/// Reports on what ran of a story, or answers the program's status, where it is told why it can't.
fn report_on(
    rt: &HostRuntime,
    story: &str,
    covers: &[&str],
    folders: &[&str],
    options: CoverOptions<'_>,
) -> Result<(), u8> {
    let files = read_covers(rt, covers)?;
    let bytes = read_names(rt, options.names)?;
    let names = names_of(rt, options.names, &bytes)?;
    let Ok(covered) = union_of(rt.alloc(), files.as_slice()) else {
        return Err(out_of_memory(rt));
    };
    let found = find_in(rt, story, covered.as_slice())?;
    let facts = found.facts();
    see_covers(rt, files.as_slice(), facts.memory)?;
    see_named(rt, options.names, names.as_ref(), facts.memory)?;
    let strings = strings_in(rt, story, covered.as_slice())?;
    let Ok(listed) = listed_by(rt.alloc(), &facts, strings, covered, names.is_some()) else {
        return Err(out_of_memory(rt));
    };
    report_found(rt, story, &listed, names.as_ref(), folders, options)
}

/// Tells what plays have run of a story, by coverage files; the last of the paths is that of the story. Writes the
/// files that options name, and answers the program's status.
pub fn report_coverage(
    rt: &HostRuntime,
    paths: &[&str],
    folders: &[&str],
    options: CoverOptions<'_>,
) -> u8 {
    let Some((story, covers)) = paths.split_last() else {
        return 1;
    };
    if let Err(status) = see_options(rt, paths, &options) {
        return status;
    }
    match report_on(rt, story, covers, folders, options) {
        Ok(()) => 0,
        Err(status) => status,
    }
}
