// The files of a story's source, by the names of its compiler's debugging file.

ghost use Rattle.std.specs.Prelude.{◌≡◌, ◌↔◌, IsTrue};
ghost use Rattle.zk_program.specs.Sources.{IsEnding, IsSourceName};

use std::alloc::{AllocError, Global};
use std::io::{self, ErrorKind};
use zk_names::names::{Names, Source};
use zk_names::text::plain_text;
use zk_system::files::{MOST_TEXT, files_of, read_whole};

/// A file of the source, where it was found.
#[derive(Drop)]
pub(crate) struct SourceFile {
    pub path: String,
    pub text: Option<Vec<u8>>,
}

/// The name of the file at a path.
pub(crate) fn name_in(path: &str) -> &str {
    match path.rsplit_once('/') {
        Some((_, name)) => name,
        None => path,
    }
}

/// Whether a text is what a source file's name may have behind the name that is given.
fn is_ending(ending: &[u8]) -> bool
    ensures { IsTrue result ↔ IsEnding ending.now }
{
    ending.is_empty() || ending.eq_ignore_ascii_case(b".h") || ending.eq_ignore_ascii_case(b".inf")
}

/// Whether a file's name is the one that the source gives, with an ending or without one, in any case of letters.
fn is_source_name(name: &[u8], given: &[u8]) -> bool
    ensures { IsTrue result ↔ IsSourceName name.now given.now }
{
    match name.split_at_checked(given.len()) {
        Some((stem, ending)) => stem.eq_ignore_ascii_case(given) && is_ending(ending),
        None => false,
    }
}

/// Whether a path ends with one that the source gives, after a slash or from its beginning, with an ending or without
/// one.
pub(crate) fn is_source_path(path: &[u8], given: &[u8]) -> bool {
    for ending in [0usize, 2, 4] {
        let Some(start) = path.len().checked_sub(given.len().saturating_add(ending)) else {
            continue;
        };
        let begins = match start.checked_sub(1) {
            Some(before) => path.get(before) == Some(&b'/'),
            None => true,
        };
        if begins && is_source_name(path.get(start..).unwrap_or(&[]), given) {
            return true;
        }
    }
    false
}

/// The first of paths that ends with a path that the source gives, or else the first one of a file of that name.
fn path_of<'a>(paths: &'a [String], given: &str) -> Option<&'a str> {
    for wanted in [given, name_in(given)] {
        for path in paths {
            if is_source_path(path.as_bytes(), wanted.as_bytes()) {
                return Some(path.as_str());
            }
        }
    }
    None
}

/// Bytes as a text: those of a source in Latin-1, where they are no UTF-8.
fn text_of(alloc: Global, bytes: Vec<u8>) -> Result<Vec<u8>, AllocError> {
    if std::str::from_utf8(bytes.as_slice()).is_ok() {
        return Ok(bytes);
    }
    let mut text = String::new(alloc);
    for byte in &bytes {
        text.push(char::from(*byte))?;
    }
    Ok(text.into_bytes())
}

/// The path among several at which a source file stands, or else the one that the source gives.
fn source_file(
    rt: &HostRuntime,
    paths: &[String],
    source: &Source<'_>,
) -> Result<SourceFile, AllocError> {
    let given = plain_text(rt.alloc(), source.given)?;
    let Some(path) = path_of(paths, given.as_str()) else {
        return Ok(SourceFile {
            path: given,
            text: None,
        });
    };
    let text = match read_whole(rt, path, MOST_TEXT) {
        Ok(bytes) => Some(text_of(rt.alloc(), bytes)?),
        Err(error) if error.kind() == ErrorKind::OutOfMemory => return Err(AllocError),
        Err(_) => None,
    };
    Ok(SourceFile {
        path: String::from_str(rt.alloc(), path)?,
        text,
    })
}

/// The files of the source, in the order of the names, as far as they are found in folders.
pub(crate) fn source_files(
    rt: &HostRuntime,
    folders: &[&str],
    names: Option<&Names<'_>>,
) -> io::Result<Vec<SourceFile>> {
    let mut found = Vec::new(rt.alloc());
    let Some(names) = names else {
        return Ok(found);
    };
    let files = files_of(rt, folders)?;
    for source in &names.sources {
        found.push(source_file(rt, files.paths.as_slice(), source)?)?;
    }
    if !folders.is_empty() && found.iter().all(|file| file.text.is_none()) {
        let _ = eprintln!(rt; "zkit: no file of the source is in the folders of --source");
    }
    Ok(found)
}
