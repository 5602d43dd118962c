// How a play, a listing or a check ends.

use std::io;
use zk_mem::story::OpenError;
use zk_vm::stop::Stop;

/// How a play, a listing or a check ends: with a file that can't be read, with one that is no story, with a stop, or
/// with something that is wrong.
#[derive(Drop)]
pub enum Exit {
    /// The file can't be opened or read.
    Unread(io::Error),
    /// The file is no story.
    Refused(OpenError),
    /// The run has stopped, or the listing was written.
    Stopped(Stop),
    /// A check has found something.
    Found,
}
