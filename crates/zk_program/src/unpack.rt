// The story of a Blorb file, written to a file of its own.

use crate::exit::Exit;
use crate::told::{tell_last_line, tell_unread};
use std::fs::{self, OpenOptions};
use std::io::{self, Write};
use zk_blorb::story::story_in;
use zk_system::files::{MOST_BLORB, read_whole};
use zk_system::reason::tell_reason;
use zk_system::shown::Shown;
use zk_vm::stop::Stop;

/// Writes a file that is not there yet. Where it can't be written whole nothing is left of it.
pub(crate) fn write_new(rt: &HostRuntime, path: &str, bytes: &[u8]) -> io::Result<()> {
    let mut file = OpenOptions::new()
        .write(true)
        .create_new(true)
        .open(rt, path)?;
    let written = file.write_all(bytes);
    if written.is_err() {
        let _ = fs::remove_file(rt, path);
    }
    written
}

/// Writes the story of a Blorb file to a file that is not there yet, and answers the program's status: 1 where it has
/// no story, and 4 where a file can't be read or written.
pub fn unpack(rt: &HostRuntime, path: &str, out: &str) -> u8 {
    let bytes = match read_whole(rt, path, MOST_BLORB) {
        Ok(bytes) => bytes,
        Err(error) => return tell_unread(rt, path, error),
    };
    let story = match story_in(bytes.as_slice()) {
        Ok(story) => story,
        Err(error) => {
            let _ = eprintln!(rt; "zkit: {}: nothing to unpack: {error}", Shown(path));
            return 1;
        }
    };
    match write_new(rt, out, story) {
        Ok(()) => 0,
        Err(error) => {
            tell_reason(rt, out, &error);
            tell_last_line(rt, &Exit::Stopped(Stop::Write))
        }
    }
}
