// The file beside another, in which a new one is written.

use crate::no_game::NoGame;
use crate::same_file::is_one_file;
use std::alloc::Global;
use std::fs::{self, File, OpenOptions, TryLockError};
use std::io::{self, ErrorKind};
use std::os::unix::fs::OpenOptionsExt;

/// A number that tells the names of files apart: FNV-1a, with 64 bits.
fn sum_of(name: &[u8]) -> u64 {
    let mut sum = 0xCBF2_9CE4_8422_2325u64;
    for byte in name {
        sum = (sum ^ u64::from(*byte)).wrapping_mul(0x0100_0000_01B3);
    }
    sum
}

/// The name of the file beside another. Only plays that write to the same name have it in common, and it is as
/// short where that name is as long as a name may be.
fn name_beside(alloc: Global, path: &str) -> io::Result<String> {
    let (folder, name) = path.rsplit_once('/').unwrap_or((".", path));
    let sum = sum_of(name.as_bytes());
    Ok(format!(in alloc; "{folder}/.zkit-{sum:016x}")?)
}

/// What is done where another play holds a file.
#[derive(Clone, Copy, Drop)]
pub(crate) enum Meeting {
    GivesUp,
    Waits,
}

/// Whether no other play holds a file, which is locked from then on. Where the system has no locks it is taken as free.
fn is_free(file: &File, meeting: Meeting) -> bool {
    match meeting {
        Meeting::GivesUp => !matches!(file.try_lock(), Err(TryLockError::WouldBlock)),
        Meeting::Waits => {
            let _ = file.lock();
            true
        }
    }
}

/// Whether a name is still that of an open file.
pub(crate) fn is_at(rt: &HostRuntime, name: &str, file: &File) -> bool {
    match (fs::symlink_metadata(rt, name), file.metadata()) {
        (Ok(named), Ok(open)) => is_one_file(&named, &open),
        _ => false,
    }
}

/// Takes away what a play has left under a name that was killed while it wrote.
fn clear(rt: &HostRuntime, name: &str, meeting: Meeting) -> Result<(), NoGame> {
    let Ok(left) = fs::symlink_metadata(rt, name) else {
        return Ok(());
    };
    if left.is_file() {
        // it is held until its name is gone
        match File::open(rt, name) {
            Ok(file) if !is_free(&file, meeting) || !is_at(rt, name, &file) => {
                return Err(NoGame::Busy);
            }
            Ok(_file) => return Ok(fs::remove_file(rt, name)?),
            Err(error) if error.kind() == ErrorKind::NotFound => return Err(NoGame::Busy),
            Err(_) => {}
        }
    }
    Ok(fs::remove_file(rt, name)?)
}

/// Makes the file beside another, of a mode, and locks it, so that no other play takes it away. The error is `Busy`
/// where another play holds it, or held it until now.
pub(crate) fn make_beside(
    rt: &HostRuntime,
    path: &str,
    mode: u32,
    meeting: Meeting,
) -> Result<(String, File), NoGame> {
    let name = name_beside(rt.alloc(), path)?;
    clear(rt, name.as_str(), meeting)?;
    let made = OpenOptions::new()
        .write(true)
        .create_new(true)
        .mode(mode)
        .open(rt, name.as_str());
    match made {
        Ok(file) if is_free(&file, meeting) && is_at(rt, name.as_str(), &file) => Ok((name, file)),
        Err(error) if error.kind() != ErrorKind::AlreadyExists => Err(NoGame::Failed(error)),
        _ => Err(NoGame::Busy),
    }
}

/// Makes the file beside another and locks it, once no other play holds it.
pub(crate) fn wait_beside(
    rt: &HostRuntime,
    path: &str,
    mode: u32,
) -> Result<(String, File), NoGame> {
    for _k in 0..u64::MAX {
        match make_beside(rt, path, mode, Meeting::Waits) {
            Err(NoGame::Busy) => {}
            made => return made,
        }
    }
    Err(NoGame::Busy)
}
