// Stories as facts, for other programs.

ghost use Rattle.std.specs.Prelude.{◌≡◌, false, IfOk};
ghost use Rattle.zk_program.specs.Verdict.{IsStart};

use crate::about::About;
use crate::exit::Exit;
use crate::listed::Listed;
use crate::listing::{Listing, exit_after, facts_of, open_listed};
use crate::play::screen_of;
use crate::report::report_listing;
use crate::told::out_of_memory;
use std::alloc::{AllocError, Global};
use std::fs::File;
use std::io::ErrorKind;
use zk_blorb::looks::Looks;
use zk_command::arguments::NO_TEXT;
use zk_command::settings::Form;
use zk_facts::document::object_about;
use zk_facts::outcome::{Facts, Looked, Outcome};
use zk_facts::rows::add_rows;
use zk_inspect::fact::Fact;
use zk_mem::memory::Memory;
use zk_mem::story::OpenError;
use zk_system::reason::is_of_no_text;
use zk_term::io_device::IoDevice;
use zk_term::target::{Failed, write_all};
use zk_vm::stop::Stop;

/// The story in a file, opened for a listing, or how that ended.
fn open(rt: &HostRuntime, about: &About, path: &str) -> Result<Memory, Exit>
    ensures { IfOk result (λ memory. IsStart memory) }
{
    match File::open(rt, path) {
        Err(error) => Err(Exit::Unread(error)),
        Ok(file) => open_listed(rt.alloc(), file, about),
    }
}

/// A story, and the facts of a listing of it.
#[derive(Drop)]
pub struct Found {
    memory: Memory,
    facts: Vec<Fact>,
}

impl Found {
    /// The facts.
    pub fn facts(&self) -> Facts<'_> {
        Facts {
            memory: &self.memory,
            list: self.facts.as_slice(),
        }
    }
}

/// What a look at the story in a file found, and how it ended.
#[derive(Drop)]
pub struct Look {
    pub exit: Exit,
    pub found: Option<Found>,
}

/// Looks for facts in the story in a file.
pub fn look_into(rt: &HostRuntime, about: &About, path: &str, listing: Listing<'_>) -> Look {
    let memory = match open(rt, about, path) {
        Ok(memory) => memory,
        Err(exit) => return Look { exit, found: None },
    };
    match facts_of(rt.alloc(), &memory, listing) {
        Ok((facts, wrong)) => Look {
            exit: exit_after(Ok(wrong)),
            found: Some(Found { memory, facts }),
        },
        Err(_) => Look {
            exit: Exit::Stopped(Stop::Memory),
            found: None,
        },
    }
}

/// Why a file is no story, in a word or two: by what it looks like, if that is known, and else by the refusal.
fn why_no_story(alloc: Global, looks: Looks, error: OpenError) -> Result<String, AllocError> {
    let why = match (looks, error) {
        (Looks::Blorb, _) => "blorb",
        (Looks::Glulx, _) => "glulx",
        (Looks::Gzip, _) => "gzip",
        (Looks::Zip, _) => "zip",
        (Looks::Text, _) => "text",
        (_, OpenError::Version(version)) => return format!(in alloc; "version {version}"),
        (_, OpenError::TooShort) => "too short",
        (_, OpenError::TooLong) => "too long",
        (_, OpenError::StaticBase) => "static memory",
        (_, OpenError::FirstInstruction) => "first instruction",
        (_, OpenError::OutOfMemory) => "out of memory",
    };
    String::from_str(alloc, why)
}

/// Why a file is refused, if it is.
fn why_refused(alloc: Global, looks: Looks, exit: &Exit) -> Result<String, AllocError> {
    match exit {
        Exit::Refused(error) => why_no_story(alloc, looks, *error),
        _ => Ok(String::new(alloc)),
    }
}

/// What is told of a file whose name is no text.
pub const NOT_OPENED: &str = "name not UTF-8, not opened or searched";

/// Why a look found nothing.
fn nothing_by<'a>(exit: &Exit, why: &'a str) -> Outcome<'a> {
    match exit {
        Exit::Refused(OpenError::OutOfMemory) | Exit::Stopped(_) => {
            Outcome::Unread("out of memory")
        }
        Exit::Refused(error) => Outcome::Refused(error.number(), why),
        Exit::Unread(error) if error.kind() == ErrorKind::OutOfMemory => {
            Outcome::Unread("out of memory")
        }
        Exit::Unread(error) if is_of_no_text(error) => Outcome::Unread(NOT_OPENED),
        _ => Outcome::Unread("read failed"),
    }
}

/// What came of a look.
fn outcome_of<'a>(look: &'a Look, listing: Listing<'_>, why: &'a str) -> Outcome<'a> {
    let Some(found) = &look.found else {
        return nothing_by(&look.exit, why);
    };
    match listing {
        Listing::Findings => Outcome::Checked(found.facts()),
        _ => Outcome::Listed(found.facts()),
    }
}

/// Whether a character of a path is shown as `?` in facts: what is no text, and in rows a control character that is not
/// escaped there.
fn is_hidden(c: char, form: Form) -> bool {
    c == NO_TEXT || (form == Form::Rows && c.is_control() && c != '\t' && c != '\n')
}

/// A path as it stands in facts.
fn path_shown(rt: &HostRuntime, path: &str, form: Form) -> Result<String, AllocError> {
    let mut shown = String::new(rt.alloc());
    for c in path.chars() {
        shown.push(if is_hidden(c, form) { '?' } else { c })?;
    }
    Ok(shown)
}

/// What came of a look at the story in a file, in a form.
fn facts_in(
    rt: &HostRuntime,
    path: &str,
    outcome: Outcome<'_>,
    form: Form,
) -> Result<Vec<u8>, AllocError> {
    let shown = path_shown(rt, path, form)?;
    let looked = Looked {
        path: shown.as_str(),
        outcome,
    };
    if let Form::Json = form {
        return object_about(rt.alloc(), &looked);
    }
    let mut rows = Vec::new(rt.alloc());
    add_rows(&mut rows, rt.alloc(), &looked)?;
    Ok(rows)
}

/// Lists the facts of the story in a file.
pub fn list_facts(rt: &HostRuntime, path: &str, listing: Listing<'_>, form: Form) -> Listed {
    let about = About::listed(path, None);
    let look = look_into(rt, &about, path, listing);
    let Ok(why) = why_refused(rt.alloc(), about.looks.get(), &look.exit) else {
        return Listed::nothing(out_of_memory(rt));
    };
    let outcome = outcome_of(&look, listing, why.as_str());
    let Ok(facts) = facts_in(rt, path, outcome, form) else {
        return Listed::nothing(out_of_memory(rt));
    };
    let exit = match write_all(&mut screen_of(rt, &about), facts.as_slice()) {
        Ok(()) => look.exit,
        Err(Failed) => Exit::Stopped(Stop::Write),
    };
    let status = report_listing(rt.alloc(), &exit, &about, &mut IoDevice::new(rt.stderr()));
    Listed::of(status, &about)
}
