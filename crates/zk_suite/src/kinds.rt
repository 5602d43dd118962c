// The kinds of lines in a walkthrough.

ghost use Rattle.std.specs.Prelude.{◌≡◌, option_map};
ghost use Rattle.zk_suite.specs.Scripts.{RecordedIsTyped, asked, is_comment, is_set_apart, unmarked};

/// A byte order mark.
const MARK: &[u8] = b"\xef\xbb\xbf";

/// Bytes without the byte order mark that they may begin with.
pub(crate) fn without_mark(bytes: &[u8]) -> &[u8]
    ensures { result.now ≡ unmarked bytes.now }
{
    if bytes.starts_with(MARK) {
        &bytes[3..]
    } else {
        bytes
    }
}

/// Whether a command needs a backslash before it in a walkthrough, by the byte that it begins with.
pub fn needs_backslash(first: u8) -> bool
    ensures { result ≡ is_set_apart first }
{
    first == b'#' || first == b'!' || first == b'\\'
}

/// A line that was typed, and that stands in a walkthrough with a backslash before it where it needs one, is typed
/// again.
pub fn recorded_is_typed()
    ensures { RecordedIsTyped }
{}

/// Whether a line is a comment, where no other line stands before it: `#` alone, or what begins with `# `.
pub(crate) fn is_comment(line: &[u8]) -> bool
    ensures { result ≡ is_comment line.now }
{
    let alone = line == b"#".as_slice();
    let begun = line.starts_with(b"# ");
    alone || begun
}

/// What a line asks of an answer.
#[derive(Clone, Copy, Drop)]
pub(crate) struct Asking<'a> {
    pub wanted: bool,
    pub text: &'a [u8],
}

/// What a line after the comments asks of an answer; none where it is a command.
pub(crate) fn asked(line: &[u8]) -> Option<Asking<'_>>
    ensures { option_map (λ a. (a.wanted, a.text.now)) result ≡ asked line.now }
{
    if line.starts_with(b"! ") {
        return Some(Asking {
            wanted: true,
            text: &line[2..],
        });
    }
    if line.starts_with(b"!~ ") {
        return Some(Asking {
            wanted: false,
            text: &line[3..],
        });
    }
    None
}
