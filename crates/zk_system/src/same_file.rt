// Whether two paths lead to one file.

use std::fs::{self, Metadata};
use std::os::unix::fs::MetadataExt;

/// Whether the system tells the same device and number of two files.
pub(crate) fn is_one_file(one: &Metadata, other: &Metadata) -> bool {
    one.dev() == other.dev() && one.ino() == other.ino()
}

/// Whether two paths lead to one file: the same device and number where the system tells these of both, else the same
/// text.
pub fn is_same_file(rt: &HostRuntime, one: &str, other: &str) -> bool {
    match (fs::metadata(rt, one), fs::metadata(rt, other)) {
        (Ok(one), Ok(other)) => is_one_file(&one, &other),
        _ => one == other,
    }
}
