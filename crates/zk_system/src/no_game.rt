// Why a game is not kept, or none is found.

ghost use Rattle.std.specs.Prelude.{◌≡◌};
ghost use Rattle.zk_system.specs.SaveFiles.{IsAnswer, IsStanding, lacks_memory};

use crate::reason::Reason;
use std::alloc::AllocError;
use std::fs::Metadata;
use std::io::{self, ErrorKind};
use thiserror::Error;

/// Why a game is not kept, or none is found.
#[derive(Debug, Drop, Error)]
pub(crate) enum NoGame {
    #[error("it is a device, a pipe or a folder")]
    NoFile,
    #[error("it is longer than a saved game may be")]
    TooLong,
    #[error("another play is saving to it")]
    Busy,
    #[error("{}", Reason(.0))]
    Failed(#[from] io::Error),
}

/// What stands at a path, by what the system tells of it: a file, or nothing yet. In the place of a device, a pipe or a
/// folder no game is kept, and none is found there.
pub(crate) fn standing(found: io::Result<Metadata>) -> Result<Option<Metadata>, NoGame>
    ensures { IsStanding found result }
{
    match found {
        Ok(found) if found.is_file() => Ok(Some(found)),
        Ok(_) => Err(NoGame::NoFile),
        Err(error) => match error.kind() {
            ErrorKind::NotFound => Ok(None),
            _ => Err(NoGame::Failed(error)),
        },
    }
}

impl NoGame {
    /// Whether there was no memory to look for a game.
    pub fn lacks_memory(&self) -> bool
        ensures { result ≡ lacks_memory self.now }
    {
        match self {
            NoGame::Failed(error) => matches!(error.kind(), ErrorKind::OutOfMemory),
            _ => false,
        }
    }
}

/// What is answered where a saved game is asked for: the file that was found, or none, whatever the reason, unless
/// there was no memory to look for it.
pub(crate) fn answer_of(found: Result<Vec<u8>, NoGame>) -> Result<Option<Vec<u8>>, AllocError>
    ensures { IsAnswer found result }
{
    match found {
        Ok(found) => Ok(Some(found)),
        Err(error) if error.lacks_memory() => Err(AllocError),
        Err(_) => Ok(None),
    }
}
