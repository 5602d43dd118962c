// A page for browsers that plays a story, written to a file of its own.

ghost use Rattle.std.specs.Prelude.{◌≡◌};
ghost use Rattle.zk_program.specs.StoryPages.{is_picture};

use crate::about::About;
use crate::clean::verdict;
use crate::listing::open_listed;
use crate::told::{out_of_memory, tell_exit, tell_unmade, tell_unread};
use crate::unpack::write_new;
use std::alloc::{AllocError, Global};
use std::fs;
use std::io::{self, ErrorKind};
use zk_blorb::story::{BlorbError, story_in};
use zk_command::settings::PageOptions;
use zk_page::page::{PageError, Part, page_of};
use zk_system::files::{MOST_BLORB, read_whole};
use zk_system::shown::Shown;

/// The most bytes of zkit's page, of a picture, and of a text.
const MOST_BYTES: u64 = 16_777_216;

/// The system's name of the program's own file.
const PROGRAM: &str = "/proc/self/exe";

/// Where zkit's page is, from the folder of the program: beside it, or where it is installed.
const PLACES: [&str; 2] = ["zkit.html", "../share/doc/zkit/zkit.html"];

/// What a page has of a story besides its file.
#[derive(Drop)]
struct OwnFiles {
    blurb: Option<Vec<u8>>,
    cover: Option<Vec<u8>>,
    walkthrough: Option<Vec<u8>>,
}

/// Whether bytes begin as those of a picture that each browser shows.
fn is_picture(bytes: &[u8]) -> bool
    ensures { result ≡ is_picture bytes.now }
{
    bytes.starts_with(b"\x89PNG\r\n\x1a\n") || bytes.starts_with(b"\xff\xd8\xff")
}

/// Tells what is wrong with a file, and answers the program's status.
fn tell_wrong(rt: &HostRuntime, path: &str, why: &str) -> u8
    ensures { result ≡ 1 }
{
    let _ = eprintln!(rt; "zkit: {}: {why}", Shown(path));
    1
}

/// The bytes of a file that an option names, if it does.
fn read_named(rt: &HostRuntime, path: Option<&str>) -> Result<Option<Vec<u8>>, u8> {
    let Some(path) = path else {
        return Ok(None);
    };
    match read_whole(rt, path, MOST_BYTES) {
        Ok(bytes) => Ok(Some(bytes)),
        Err(error) => Err(tell_unread(rt, path, error)),
    }
}

/// The text of a file that an option names, if it does.
fn read_text(rt: &HostRuntime, path: Option<&str>) -> Result<Option<Vec<u8>>, u8> {
    let bytes = read_named(rt, path)?;
    match (&bytes, path) {
        (Some(text), Some(path)) if std::str::from_utf8(text.as_slice()).is_err() => {
            Err(tell_wrong(rt, path, "no text (UTF-8)"))
        }
        _ => Ok(bytes),
    }
}

/// The picture of a file that an option names, if it does.
fn read_picture(rt: &HostRuntime, path: Option<&str>) -> Result<Option<Vec<u8>>, u8> {
    let bytes = read_named(rt, path)?;
    match (&bytes, path) {
        (Some(picture), Some(path)) if !is_picture(picture.as_slice()) => {
            Err(tell_wrong(rt, path, "neither a PNG nor a JPEG picture"))
        }
        _ => Ok(bytes),
    }
}

/// The files that options name.
fn read_files(rt: &HostRuntime, options: &PageOptions) -> Result<OwnFiles, u8> {
    let blurb = read_text(rt, options.blurb)?;
    let cover = read_picture(rt, options.cover)?;
    let walkthrough = read_text(rt, options.walkthrough)?;
    Ok(OwnFiles {
        blurb,
        cover,
        walkthrough,
    })
}

/// The bytes of the story in a file, a Blorb file or the story alone.
fn story_bytes(file: &[u8]) -> Result<&[u8], BlorbError> {
    match story_in(file) {
        Err(BlorbError::NoBlorb) => Ok(file),
        found => found,
    }
}

/// Tells how many findings `check` has, where there are some.
fn tell_findings(rt: &HostRuntime, path: &str, count: usize) {
    let _ = match count {
        0 => Ok(()),
        1 => eprintln!(rt; "zkit: {}: zkit check has 1 finding", Shown(path)),
        _ => eprintln!(rt; "zkit: {}: zkit check has {count} findings", Shown(path)),
    };
}

/// Looks into a story, and tells how many findings `check` has; or answers the program's status, where it is told why
/// the story is refused.
fn look_at(rt: &HostRuntime, path: &str, file: &[u8]) -> Result<(), u8> {
    let story = match story_bytes(file) {
        Ok(story) => story,
        Err(error) => {
            let _ = eprintln!(rt; "zkit: {}: no page of it: {error}", Shown(path));
            return Err(1);
        }
    };
    let about = About::new(path, "");
    let memory = match open_listed(rt.alloc(), story, &about) {
        Ok(memory) => memory,
        Err(exit) => return Err(tell_exit(rt, &exit, &about)),
    };
    match verdict(rt.alloc(), &memory) {
        Ok(findings) => {
            tell_findings(rt, path, findings.len());
            Ok(())
        }
        Err(AllocError) => Err(out_of_memory(rt)),
    }
}

/// zkit's page, from the first of its places that has a file.
fn read_page(rt: &HostRuntime) -> io::Result<Vec<u8>> {
    let program = fs::read_link(rt, PROGRAM)?.into_string();
    let folder = match program.as_str().rsplit_once('/') {
        Some((folder, _)) => folder,
        None => ".",
    };
    for place in PLACES {
        let path = format!(in rt.alloc(); "{folder}/{place}")?;
        match read_whole(rt, path.as_str(), MOST_BYTES) {
            Err(error) if error.kind() == ErrorKind::NotFound => {}
            read => return read,
        }
    }
    Err(ErrorKind::NotFound.into())
}

/// The name of a file without its folders.
fn name_of(path: &str) -> &str {
    match path.rsplit_once('/') {
        Some((_, name)) => name,
        None => path,
    }
}

/// Adds a part to others, if there is one.
fn add_part<'a>(
    parts: &mut Vec<Part<'a>>,
    name: &'a str,
    content: Option<&'a [u8]>,
) -> Result<(), AllocError> {
    match content {
        Some(content) => parts.extend_from_slice(&[Part { name, content }]),
        None => Ok(()),
    }
}

/// The bytes of a text, if there is one.
fn bytes_of(text: Option<&str>) -> Option<&[u8]> {
    Some(text?.as_bytes())
}

/// What the page of a story has of it, in the order in which it stands there.
fn parts_of<'a>(
    alloc: Global,
    file: &'a [u8],
    name: &'a str,
    options: &PageOptions<'a>,
    files: &'a OwnFiles,
) -> Result<Vec<Part<'a>>, AllocError> {
    let mut parts = Vec::new(alloc);
    add_part(&mut parts, "story", Some(file))?;
    add_part(&mut parts, "file", Some(name.as_bytes()))?;
    add_part(&mut parts, "title", bytes_of(options.title))?;
    add_part(&mut parts, "author", bytes_of(options.author))?;
    add_part(&mut parts, "blurb", files.blurb.as_deref())?;
    add_part(&mut parts, "cover", files.cover.as_deref())?;
    add_part(&mut parts, "walkthrough", files.walkthrough.as_deref())?;
    Ok(parts)
}

/// The page of a story, by its file and options.
fn make_page(
    alloc: Global,
    template: &[u8],
    path: &str,
    file: &[u8],
    options: &PageOptions,
    files: &OwnFiles,
) -> Result<Vec<u8>, PageError> {
    let name = name_of(path);
    let title = options.title.unwrap_or(name);
    let parts = parts_of(alloc, file, name, options, files)?;
    page_of(alloc, template, title, parts.as_slice())
}

/// Writes a page to a file that is not there yet, or tells why there is none, and answers the program's status.
fn write_page(rt: &HostRuntime, out: &str, made: Result<Vec<u8>, PageError>) -> u8 {
    match made {
        Ok(page) => match write_new(rt, out, page.as_slice()) {
            Ok(()) => 0,
            Err(error) => tell_unmade(rt, out, &error),
        },
        Err(PageError::Memory) => out_of_memory(rt),
        Err(PageError::NoPage) => tell_wrong(rt, PLACES[0], "not the page of this zkit"),
    }
}

/// Writes a page that plays a story to a file that is not there yet, and answers the program's status: 1 where it is no
/// story or a file is not of its kind, 4 where a file can't be read or written. How many findings a check of the story
/// has is told before.
pub fn make_story_page(rt: &HostRuntime, path: &str, out: &str, options: &PageOptions) -> u8 {
    let file = match read_whole(rt, path, MOST_BLORB) {
        Ok(file) => file,
        Err(error) => return tell_unread(rt, path, error),
    };
    match look_at(rt, path, file.as_slice()) {
        Ok(()) => {}
        Err(status) => return status,
    }
    let files = match read_files(rt, options) {
        Ok(files) => files,
        Err(status) => return status,
    };
    let template = match read_page(rt) {
        Ok(template) => template,
        Err(error) => return tell_unread(rt, PLACES[0], error),
    };
    let alloc = rt.alloc();
    let made = make_page(
        alloc,
        template.as_slice(),
        path,
        file.as_slice(),
        options,
        &files,
    );
    write_page(rt, out, made)
}
