// Errors of the system, in words.

use crate::shown::Shown;
use std::fmt::{self, Display, Formatter, Write};
use std::io::{self, ErrorKind};

/// Whether a path was refused by its bytes: what is no text in it is a character that no path has.
pub fn is_of_no_text(error: &io::Error) -> bool {
    error.kind() == ErrorKind::InvalidInput && error.raw_os_error().is_none()
}

/// Why the system refused something, in words.
#[derive(Drop)]
pub struct Reason<'a>(pub &'a io::Error);

impl Display for Reason<'_> {
    fn fmt<W: Write>(&self, f: &mut Formatter<W>) -> fmt::Result {
        match self.0.kind() {
            ErrorKind::NotFound => f.write_str("there is no such file or folder"),
            ErrorKind::PermissionDenied => f.write_str("permission denied"),
            ErrorKind::IsADirectory => f.write_str("it is a folder"),
            _ if is_of_no_text(self.0) => f.write_str("its name is no text (UTF-8)"),
            _ => Display::fmt(self.0, f),
        }
    }
}

/// Tells on standard error why something can't be done with a file.
pub fn tell_reason(rt: &HostRuntime, path: &str, error: &io::Error) {
    let _ = eprintln!(rt; "zkit: {}: {}", Shown(path), Reason(error));
}
