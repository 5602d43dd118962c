// The compiler's debugging file of a story.

use crate::about::About;
use crate::exit::Exit;
use crate::listing::open_listed;
use crate::told::{out_of_memory, tell_last_line, tell_unread};
use std::alloc::{AllocError, Global};
use zk_inform::document::names_document;
use zk_mem::memory::Memory;
use zk_mem::story::OpenError;
use zk_names::damage::ReadError;
use zk_names::names::Names;
use zk_system::files::{MOST_TEXT, read_whole};
use zk_system::shown::Shown;
use zk_vm::stop::Stop;

/// The bytes of the debugging file that an option names, if it does; or the program's status, where it is told why it
/// can't be read.
pub fn read_names(rt: &HostRuntime, path: Option<&str>) -> Result<Option<Vec<u8>>, u8> {
    let Some(path) = path else {
        return Ok(None);
    };
    match read_whole(rt, path, MOST_TEXT) {
        Ok(bytes) => Ok(Some(bytes)),
        Err(error) => Err(tell_unread(rt, path, error)),
    }
}

/// The names that a story has itself, as a debugging file has names; none where these bytes are no story.
fn own_names(alloc: Global, bytes: &[u8]) -> Result<Option<Vec<u8>>, AllocError> {
    match open_listed(alloc, bytes, &About::new("", "")) {
        Ok(memory) => Ok(Some(names_document(alloc, &memory)?)),
        Err(Exit::Refused(OpenError::OutOfMemory)) => Err(AllocError),
        Err(Exit::Refused(_)) => Ok(None),
        // bytes in memory can be read, unless memory is short
        Err(_) => Err(AllocError),
    }
}

/// The bytes of the debugging file that an option names for listings, if it does: of one that is made of the names
/// which a story has itself, where it names a story. Or the program's status, where it is told why it can't be read.
pub fn read_listed_names(rt: &HostRuntime, path: Option<&str>) -> Result<Option<Vec<u8>>, u8> {
    let Some(bytes) = read_names(rt, path)? else {
        return Ok(None);
    };
    match own_names(rt.alloc(), bytes.as_slice()) {
        Ok(Some(own)) => Ok(Some(own)),
        Ok(None) => Ok(Some(bytes)),
        Err(_) => Err(out_of_memory(rt)),
    }
}

/// What the bytes of a debugging file say, or the program's status, where it is told what is wrong with them.
fn names_in<'a>(rt: &HostRuntime, path: &str, bytes: &'a [u8]) -> Result<Names<'a>, u8> {
    match Names::read(rt.alloc(), bytes) {
        Ok(names) => Ok(names),
        Err(ReadError::Memory) => Err(out_of_memory(rt)),
        Err(ReadError::Damaged { at, wrong }) => {
            let _ = eprintln!(rt; "zkit: {}: byte {at}: {}", Shown(path), wrong.text());
            Err(tell_last_line(rt, &Exit::Stopped(Stop::Read)))
        }
    }
}

/// What a debugging file says, if there is one, by its path and its bytes; or the program's status, where it is told
/// what is wrong with it.
pub fn names_of<'a>(
    rt: &HostRuntime,
    path: Option<&str>,
    bytes: &'a Option<Vec<u8>>,
) -> Result<Option<Names<'a>>, u8> {
    match (path, bytes) {
        (Some(path), Some(bytes)) => Ok(Some(names_in(rt, path, bytes.as_slice())?)),
        _ => Ok(None),
    }
}

/// Sees that names are of a story, if there are some, or answers the program's status, where it is told that they are
/// not.
pub fn see_named(
    rt: &HostRuntime,
    path: Option<&str>,
    names: Option<&Names<'_>>,
    memory: &Memory,
) -> Result<(), u8> {
    let (Some(path), Some(names)) = (path, names) else {
        return Ok(());
    };
    if names.is_of(memory.original()) {
        return Ok(());
    }
    let _ = eprintln!(rt;
        "zkit: {}: it is of another story, or of another build of this one",
        Shown(path)
    );
    Err(tell_last_line(rt, &Exit::Stopped(Stop::Read)))
}
