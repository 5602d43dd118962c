// Paths: from lists, and of the files in folders.

ghost use Rattle.std.specs.Prelude.{◌≡◌, ◌<◌, ◌^◌, Some, not, option_map, IfOk, IfSome};
ghost use Rattle.zk_system.specs.Files.{IsKind, byte_between, is_folder_name, within};

use crate::reason::tell_reason;
use crate::shown::Shown;
use std::alloc::{AllocError, Global};
use std::fs::{self, File, Files as _, Metadata};
use std::io::{self, ErrorKind, Read};
use zk_command::arguments::argument_of;

/// The most bytes of a list of paths, a walkthrough, a transcript or a coverage file.
pub const MOST_TEXT: u64 = 67_108_864;

/// The most bytes of a Blorb file.
pub const MOST_BLORB: u64 = 1_073_741_824;

/// The bytes that a reader gives, where there are at most so many.
pub(crate) fn read_within<R: Read + Drop>(
    alloc: Global,
    reader: R,
    most: u64,
) -> io::Result<Option<Vec<u8>>>
    requires { most < 2 ^ 32 }
    ensures { IfOk result (λ o. IfSome (R.remaining reader)
        (λ file. option_map (λ v. v.items) o ≡ within most file)) }
{
    let mut bytes = Vec::new(alloc);
    reader.take(most + 1).read_to_end(&mut bytes)?;
    if bytes.len() as u64 > most {
        Ok(None)
    } else {
        Ok(Some(bytes))
    }
}

/// What a reader gives, unless it is too long: then the error is `FileTooLarge`.
fn read_bounded<R: Read + Drop>(alloc: Global, reader: R, most: u64) -> io::Result<Vec<u8>>
    requires { most < 2 ^ 32 }
    ensures { IfOk result (λ v. IfSome (R.remaining reader)
        (λ file. Some v.items ≡ within most file)) }
{
    match read_within(alloc, reader, most)? {
        Some(bytes) => Ok(bytes),
        None => Err(ErrorKind::FileTooLarge.into()),
    }
}

/// The bytes of a file of at most so many. One that is longer is an error, `FileTooLarge`.
pub fn read_whole(rt: &HostRuntime, path: &str, most: u64) -> io::Result<Vec<u8>>
    requires { most < 2 ^ 32 }
{
    read_bounded(rt.alloc(), File::open(rt, path)?, most)
}

/// The option that names a list of paths.
const FILES_FROM: &str = "--files-from";

/// The path of the list of paths that arguments name, if they name one for a command that takes it.
fn list_named(arguments: &[String]) -> Option<&str> {
    match arguments.get(1)?.as_str() {
        "info" | "check" | "test" => {}
        _ => return None,
    }
    for at in 2..arguments.len() {
        let argument = arguments[at].as_str();
        if argument == FILES_FROM {
            return Some(arguments.get(at + 1)?.as_str());
        }
        match argument.strip_prefix("--files-from=") {
            Some(path) => return Some(path),
            None => {}
        }
    }
    None
}

/// The bytes of a list: of standard input for `-`.
fn read_list(rt: &HostRuntime, path: &str) -> io::Result<Vec<u8>> {
    if path == "-" {
        read_bounded(rt.alloc(), rt.stdin(), MOST_TEXT)
    } else {
        read_whole(rt, path, MOST_TEXT)
    }
}

/// What the paths of a list end with: zero bytes where the list has one, and else new lines.
fn path_end(list: &[u8]) -> u8
    ensures { result ≡ byte_between list.now }
{
    if list.contains(&0) { 0 } else { b'\n' }
}

/// The paths in a list. Nothing between two of their ends is no path.
fn paths_in(rt: &HostRuntime, bytes: &[u8]) -> Result<Vec<String>, AllocError> {
    let end = path_end(bytes);
    let mut paths = Vec::new(rt.alloc());
    for path in bytes.split(|byte| *byte == end) {
        if !path.is_empty() {
            paths.push(argument_of(rt.alloc(), path)?)?;
        }
    }
    Ok(paths)
}

/// The paths of the list that arguments name, if they name one.
pub fn paths_listed(rt: &HostRuntime, arguments: &[String]) -> Option<io::Result<Vec<String>>> {
    let path = list_named(arguments)?;
    let bytes = match read_list(rt, path) {
        Ok(bytes) => bytes,
        Err(error) => return Some(Err(error)),
    };
    match paths_in(rt, bytes.as_slice()) {
        Ok(paths) => Some(Ok(paths)),
        Err(error) => Some(Err(error.into())),
    }
}

/// The names of what a folder has, each with a zero byte behind it. They may be no text.
fn names_in(rt: &HostRuntime, folder: &str) -> io::Result<Vec<u8>> {
    let mut names = Vec::new(rt.alloc());
    let mut piece = [0u8; 4096];
    // behind a slash a link to a folder is followed
    let mut dir = rt.open_dir(format!(in rt.alloc(); "{folder}/")?.as_str())?;
    for _k in 0..u64::MAX {
        let count = dir.read(&mut piece)?;
        if count == 0 {
            break;
        }
        names.extend_from_slice(&piece[..count])?;
    }
    Ok(names)
}

/// Whether a name in a folder is that of something else than the folder itself and the one that it is in.
fn is_within(name: &[u8]) -> bool
    ensures { result ≡ not (is_folder_name name.now) }
{
    !name.is_empty() && name != b".".as_slice() && name != b"..".as_slice()
}

/// Puts the paths of what a folder has on a pile, the first one on top.
fn pile_up(rt: &HostRuntime, folder: &str, pile: &mut Vec<String>) -> io::Result<()> {
    let found = names_in(rt, folder)?;
    let mut names = found
        .split(|byte| *byte == 0)
        .filter(|name| is_within(name))
        .collect::<Vec<&[u8]>>(rt.alloc())?;
    names.sort_unstable();
    let folder = folder.strip_suffix('/').unwrap_or(folder);
    for name in names.iter().rev() {
        let name = argument_of(rt.alloc(), name)?;
        pile.push(format!(in rt.alloc(); "{folder}/{name}")?)?;
    }
    Ok(())
}

/// What stands at a path.
#[derive(Clone, Copy, PartialEq, Eq, Drop)]
enum Kind {
    Folder,
    File,
    /// A device, a pipe or a socket.
    Other,
    /// What the system tells nothing of.
    Unknown,
}

/// What stands at a path, by what the system tells of it.
fn kind_of(found: &io::Result<Metadata>) -> Kind
    ensures { IsKind found.now result }
{
    match found {
        Ok(found) if found.is_dir() => Kind::Folder,
        Ok(found) if found.is_file() => Kind::File,
        Ok(_) => Kind::Other,
        Err(_) => Kind::Unknown,
    }
}

/// Whether the files in a folder are looked for: not where a link in another folder leads to it, which may go round in
/// a circle.
fn is_followed(rt: &HostRuntime, path: &str, named: &str) -> bool {
    path == named || kind_of(&fs::symlink_metadata(rt, path)) == Kind::Folder
}

/// Puts what a folder has on a pile, and tells why it can't be read where that is so. Whether all of it could be; an
/// error is lack of memory.
fn open_up(rt: &HostRuntime, folder: &str, pile: &mut Vec<String>) -> io::Result<bool> {
    match pile_up(rt, folder, pile) {
        Ok(()) => Ok(true),
        Err(error) if error.kind() == ErrorKind::OutOfMemory => Err(error),
        Err(error) => {
            tell_reason(rt, folder, &error);
            Ok(false)
        }
    }
}

/// Tells that what stands in a folder is passed over, since a read may wait for ever.
fn tell_passed_over(rt: &HostRuntime, path: &str) {
    let _ = eprintln!(rt; "zkit: {}: no regular file, and left out", Shown(path));
}

/// Adds the files in a folder and in its folders, each folder's by their names in the order of their bytes, and tells
/// of a folder that can't be read, and of what is no file. What has a name that is no text is added too, as the system
/// tells nothing of it. Whether all could be read.
fn add_files(rt: &HostRuntime, folder: &str, files: &mut Vec<String>) -> io::Result<bool> {
    let mut all = true;
    let mut pile = Vec::new(rt.alloc());
    pile.push(String::from_str(rt.alloc(), folder)?)?;
    for _k in 0..u64::MAX {
        let Some(path) = pile.pop() else {
            break;
        };
        match kind_of(&fs::metadata(rt, path.as_str())) {
            Kind::Folder if !is_followed(rt, path.as_str(), folder) => {}
            Kind::Folder => all = open_up(rt, path.as_str(), &mut pile)? && all,
            Kind::Other => tell_passed_over(rt, path.as_str()),
            Kind::File | Kind::Unknown => files.push(path)?,
        }
    }
    Ok(all)
}

/// Files, and whether all folders could be read that they were looked for in.
#[derive(Drop)]
pub struct Files {
    pub paths: Vec<String>,
    pub all: bool,
}

/// The files that paths name: a folder stands for those in it.
pub fn files_of(rt: &HostRuntime, paths: &[&str]) -> io::Result<Files> {
    let mut files = Files {
        paths: Vec::new(rt.alloc()),
        all: true,
    };
    for path in paths {
        match kind_of(&fs::metadata(rt, *path)) {
            Kind::Folder => {
                let all = add_files(rt, path, &mut files.paths)?;
                files.all = files.all && all;
            }
            _ => files.paths.push(String::from_str(rt.alloc(), path)?)?,
        }
    }
    Ok(files)
}
