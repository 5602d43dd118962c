// What is known of the terminal, and of the clock.

ghost use Rattle.std.specs.Prelude.{◌≡◌, ◌≤◌, SomeIff};
ghost use Rattle.zk_command.specs.CommandLine.{IsNumberIn, number_in};
ghost use Rattle.zk_system.specs.Terminals.{is_assumed, names_terminal, shown_size};

use std::time::{SystemTime, UNIX_EPOCH};
use std::{env, fs};

/// The system's name of what standard input reads.
const INPUT: &str = "/proc/self/fd/0";

/// The system's name of what standard output writes to.
const OUTPUT: &str = "/proc/self/fd/1";

/// The system's name of what standard error writes to.
const ERRORS: &str = "/proc/self/fd/2";

/// Columns and lines where the environment does not say them: those of the first terminals of this kind.
const COLUMNS: u64 = 80;

const LINES: u64 = 24;

/// Whether a file's name is that of a terminal.
fn is_terminal_name(name: &[u8]) -> bool
    ensures { result ≡ names_terminal name.now }
{
    let pseudo = name.starts_with(b"/dev/pts/");
    let line = name.starts_with(b"/dev/tty");
    pseudo || line || name == b"/dev/console".as_slice()
}

/// Whether a stream is a terminal, by the name of its file: the standard library has no call for it.
fn is_terminal(rt: &HostRuntime, stream: &str) -> bool {
    match fs::read_link(rt, stream) {
        Ok(path) => is_terminal_name(path.into_string().as_bytes()),
        Err(_) => false,
    }
}

/// Whether lines are typed at a terminal.
pub fn is_typed_at(rt: &HostRuntime) -> bool {
    is_terminal(rt, INPUT)
}

/// Whether standard output is a terminal.
pub fn is_shown_at(rt: &HostRuntime) -> bool {
    is_terminal(rt, OUTPUT)
}

/// Whether standard error is a terminal.
pub fn is_told_at(rt: &HostRuntime) -> bool {
    is_terminal(rt, ERRORS)
}

/// The number that a text says, if it lies in a range.
fn number_said(text: &str, least: u64, most: u64) -> Option<u64>
    ensures { SomeIff result (IsNumberIn least most text.now) (number_in text.now) }
{
    match text.parse::<u64>() {
        Ok(n) if n >= least && n <= most => Some(n),
        _ => None,
    }
}

/// The number that a variable of the environment says, if it lies in a range.
fn number_of(rt: &HostRuntime, variable: &str, least: u64, most: u64) -> Option<u64> {
    let Ok(text) = env::var(rt, variable) else {
        return None;
    };
    number_said(text.as_str(), least, most)
}

/// How many columns or lines a screen has that is a terminal or not: so many as were said, else as many as are usual.
fn size_of(is_terminal: bool, said: Option<u64>, usual: u64) -> Option<u64>
    ensures { result ≡ shown_size is_terminal said usual }
{
    if is_terminal {
        Some(said.unwrap_or(usual))
    } else {
        None
    }
}

/// Whether a size is assumed: that of a terminal, which nothing said.
fn is_assumed(is_terminal: bool, said: Option<u64>) -> bool
    ensures { result ≡ is_assumed is_terminal said }
{
    is_terminal && said.is_none()
}

/// The columns that `COLUMNS` says.
fn columns_said(rt: &HostRuntime) -> Option<u64> {
    number_of(rt, "COLUMNS", 20, 255)
}

/// The columns of the terminal that standard output is: those that `COLUMNS` says, else 80. None where it is no
/// terminal.
pub fn columns(rt: &HostRuntime) -> Option<u64> {
    size_of(is_terminal(rt, OUTPUT), columns_said(rt), COLUMNS)
}

/// Whether these columns are assumed, since `COLUMNS` does not say them.
pub fn assumes_columns(rt: &HostRuntime) -> bool {
    is_assumed(is_terminal(rt, OUTPUT), columns_said(rt))
}

/// The lines of the terminal that standard output is, by `LINES`, else 24. None where it is no terminal.
pub fn lines(rt: &HostRuntime) -> Option<u64> {
    let said = number_of(rt, "LINES", 3, 1001);
    size_of(is_terminal(rt, OUTPUT), said, LINES)
}

/// A seed that the clock says: the nanoseconds since the year 1970.
pub fn seed_of_clock(rt: &HostRuntime) -> u64 {
    let Ok(now) = SystemTime::now(rt) else {
        return 1;
    };
    match now.duration_since(UNIX_EPOCH) {
        Ok(since) => since
            .as_secs()
            .wrapping_mul(1_000_000_000)
            .wrapping_add(u64::from(since.subsec_nanos())),
        Err(_) => 1,
    }
}
