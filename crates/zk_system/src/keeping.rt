// A file is written in the place of the one before; a saved game is found again.

ghost use Rattle.std.specs.Prelude.{◌≡◌};
ghost use Rattle.zk_system.specs.SaveFiles.{rights_left};

use crate::beside::{Meeting, is_at, make_beside, wait_beside};
use crate::files::read_within;
use crate::no_game::{NoGame, standing};
use crate::shown::Shown;
use std::alloc::Global;
use std::fs::{self, File, Metadata, OpenOptions, Permissions};
use std::io::{self, ErrorKind, Write};
use std::os::unix::fs::{MetadataExt, PermissionsExt, fchown};

/// The longest file that is a saved game: what is longer counts as none.
const MOST_BYTES: u64 = 2_097_152;

/// Where a file goes: the file behind the links of its path, and what the system tells of the one that is there.
#[derive(Drop)]
struct SaveTarget {
    path: String,
    old: Option<Metadata>,
}

/// Where a game goes for which there is no file yet. What a link names is made, so that the system can tell its path.
fn new_place(rt: &HostRuntime, path: &str) -> io::Result<SaveTarget> {
    if fs::read_link(rt, path).is_err() {
        let path = String::from_str(rt.alloc(), path)?;
        return Ok(SaveTarget { path, old: None });
    }
    OpenOptions::new().write(true).create(true).open(rt, path)?;
    let path = fs::canonicalize(rt, path)?.into_string();
    Ok(SaveTarget { path, old: None })
}

/// Where a saved game goes. Who may not write to the file that is there can't replace it either.
fn save_place(rt: &HostRuntime, path: &str) -> Result<SaveTarget, NoGame> {
    let Some(old) = standing(fs::metadata(rt, path))? else {
        return Ok(new_place(rt, path)?);
    };
    OpenOptions::new().write(true).open(rt, path)?;
    let path = fs::canonicalize(rt, path)?.into_string();
    Ok(SaveTarget {
        path,
        old: Some(old),
    })
}

/// Who may do what with a new file, by the bits of the old one. Where that one's group can't be kept, its members are
/// among all others, and others may be among its group: then the group and others may do what both could before.
fn rights_of(mode: u32, has_group: bool) -> u32
    ensures { result ≡ rights_left mode has_group }
{
    if has_group {
        return mode & 0o777;
    }
    let both = (mode / 8) & mode & 0o7;
    (mode & 0o700) | (both * 9)
}

/// Gives a file the owner, the group and the rights of an old one, and tells whether the system allows that. It may
/// change the group where it does not change the owner.
fn hand_over(file: &File, old: &Metadata) -> io::Result<bool> {
    if fchown(file, Some(old.uid()), Some(old.gid())).is_err() {
        let _ = fchown(file, None, Some(old.gid()));
    }
    let new = file.metadata()?;
    let has_group = new.gid() == old.gid();
    file.set_permissions(Permissions::from_mode(rights_of(old.mode(), has_group)))?;
    Ok(has_group && new.uid() == old.uid())
}

/// Writes a file whole, as far as the system tells, and tells whether it has the owner and the group of the old one.
fn write_whole(file: &mut File, old: Option<&Metadata>, bytes: &[u8]) -> io::Result<bool> {
    file.write_all(bytes)?;
    let is_handed_over = match old {
        Some(old) => hand_over(file, old)?,
        None => true,
    };
    file.sync_all()?;
    Ok(is_handed_over)
}

/// Gives a file that stands beside a saved game that one's name, if no other play has taken it away meanwhile.
fn take_place(rt: &HostRuntime, beside: &str, file: &File, path: &str) -> Result<(), NoGame> {
    if !is_at(rt, beside, file) {
        return Err(NoGame::Busy);
    }
    let renamed = fs::rename(rt, beside, path);
    if renamed.is_err() {
        let _ = fs::remove_file(rt, beside);
    }
    Ok(renamed?)
}

impl SaveTarget {
    /// The mode of the file beside it, which is the owner's alone until it has the old file's rights.
    fn mode_beside(&self) -> u32 {
        if self.old.is_some() { 0o600 } else { 0o666 }
    }

    /// Writes the file beside it, and then gives that its path. Where that fails nothing is left beside it.
    fn replace(
        &self,
        rt: &HostRuntime,
        beside: &str,
        file: &mut File,
        bytes: &[u8],
    ) -> Result<bool, NoGame> {
        match write_whole(file, self.old.as_ref(), bytes) {
            Ok(is_handed_over) => {
                take_place(rt, beside, file, self.path.as_str())?;
                Ok(is_handed_over)
            }
            Err(error) => {
                let _ = fs::remove_file(rt, beside);
                Err(NoGame::Failed(error))
            }
        }
    }
}

/// Keeps bytes in a file, unless another play is writing to it.
fn replace(rt: &HostRuntime, path: &str, bytes: &[u8]) -> Result<bool, NoGame> {
    let place = save_place(rt, path)?;
    let mode = place.mode_beside();
    let (beside, mut file) = make_beside(rt, place.path.as_str(), mode, Meeting::GivesUp)?;
    place.replace(rt, beside.as_str(), &mut file, bytes)
}

/// What is kept in a file.
#[derive(Clone, Copy, Drop)]
pub enum Kept {
    Game,
    List,
}

impl Kept {
    /// The words before why it was not kept.
    fn not_kept(self) -> &'static str {
        match self {
            Kept::Game => "the game was not saved: ",
            Kept::List => "",
        }
    }

    /// The words where another play is writing to it.
    fn is_busy(self) -> &'static str {
        match self {
            Kept::Game => "another play is saving to it",
            Kept::List => "another zkit is writing to it",
        }
    }

    /// The words where it was kept, and the file is not whose it was.
    fn kept_otherwise(self) -> &'static str {
        match self {
            Kept::Game => "the game was saved, but the file has another owner or group than before",
            Kept::List => "the file has another owner or group than before",
        }
    }
}

/// Tells why a file was not kept, or that it has another owner or group than before, and answers whether it was kept.
fn tell_kept(rt: &HostRuntime, path: &str, kept: &Result<bool, NoGame>, what: Kept) -> bool {
    match kept {
        Ok(true) => {}
        Ok(false) => {
            let _ = eprintln!(rt; "zkit: {}: {}", Shown(path), what.kept_otherwise());
        }
        Err(NoGame::Busy) => {
            let _ = eprintln!(rt;
                "zkit: {}: {}{}",
                Shown(path),
                what.not_kept(),
                what.is_busy()
            );
        }
        Err(error) => {
            let _ = eprintln!(rt; "zkit: {}: {}{}", Shown(path), what.not_kept(), error);
        }
    }
    kept.is_ok()
}

/// Keeps bytes in a file, in place of what it had, and tells why where it can't, or where the file has another owner or
/// group than before.
pub fn keep(rt: &HostRuntime, path: &str, bytes: &[u8], what: Kept) -> bool {
    tell_kept(rt, path, &replace(rt, path, bytes), what)
}

/// A file that no other play writes to before it is kept or let go.
#[derive(Drop)]
pub struct HeldFile<'a> {
    path: &'a str,
    place: SaveTarget,
    beside: String,
    file: File,
}

/// Holds the file at a path once no other play does. What stands there is looked at anew then.
fn held<'a>(rt: &HostRuntime, path: &'a str) -> Result<HeldFile<'a>, NoGame> {
    let mut place = save_place(rt, path)?;
    let (beside, file) = wait_beside(rt, place.path.as_str(), place.mode_beside())?;
    place.old = fs::metadata(rt, place.path.as_str()).ok();
    Ok(HeldFile {
        path,
        place,
        beside,
        file,
    })
}

/// Waits until no other play writes to the file at a path, and holds it; none where it is told why it can't be held.
pub fn hold<'a>(rt: &HostRuntime, path: &'a str) -> Option<HeldFile<'a>> {
    match held(rt, path) {
        Ok(held) => Some(held),
        Err(error) => {
            let _ = tell_kept(rt, path, &Err(error), Kept::List);
            None
        }
    }
}

impl HeldFile<'_> {
    /// Keeps bytes in the file, as `keep` does.
    pub fn keep(self, rt: &HostRuntime, bytes: &[u8]) -> bool {
        let HeldFile {
            path,
            place,
            beside,
            mut file,
        } = self;
        let kept = place.replace(rt, beside.as_str(), &mut file, bytes);
        tell_kept(rt, path, &kept, Kept::List)
    }

    /// Leaves the file as it is.
    pub fn let_go(self, rt: &HostRuntime) {
        let _ = fs::remove_file(rt, self.beside.as_str());
    }
}

/// The bytes of a file, unless it is longer than a saved game may be.
pub(crate) fn find(rt: &HostRuntime, alloc: Global, path: &str) -> Result<Vec<u8>, NoGame> {
    if standing(fs::metadata(rt, path))?.is_none() {
        return Err(NoGame::Failed(ErrorKind::NotFound.into()));
    }
    match read_within(alloc, File::open(rt, path)?, MOST_BYTES)? {
        Some(bytes) => Ok(bytes),
        None => Err(NoGame::TooLong),
    }
}
