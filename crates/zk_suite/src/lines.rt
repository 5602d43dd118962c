// Bytes are cut into lines.

ghost use Rattle.std.specs.Prelude.{◌≡◌, ◌<◌, ◌≤◌, ◌==◌, [], ◌∷◌, length, IfSome, MatchOption};
ghost use Rattle.std.specs.List.{position_or_len};
ghost use Rattle.std.specs.Str.Lines.{lines, strip_carriage_return};

/// How many bytes stand before the first new line, or how many there are.
fn line_length(bytes: &[u8]) -> usize
    ensures value { result ≡ position_or_len (λ b. b == 10) bytes.now }
    ensures within { result ≤ length bytes.now }
{
    for at in 0..bytes.len() {
        if bytes[at] == b'\n' {
            return at;
        }
    }
    bytes.len()
}

/// A line without the carriage return at its end.
fn without_return(line: &[u8]) -> &[u8]
    ensures { result.now ≡ strip_carriage_return line.now }
{
    let end = line.len();
    if end > 0 && line[end - 1] == 13 {
        &line[..end - 1]
    } else {
        line
    }
}

/// A line, and what stands after it.
#[derive(Clone, Copy, Drop)]
pub(crate) struct Cut<'a> {
    pub line: &'a [u8],
    pub rest: &'a [u8],
}

/// The first line of bytes, if there are any. A carriage return before its new line is no part of it.
pub(crate) fn cut_line(bytes: &[u8]) -> Option<Cut<'_>>
    ensures value { MatchOption result (lines bytes.now ≡ [])
        (λ c. lines bytes.now ≡ c.line.now ∷ lines c.rest.now) }
    ensures shorter { IfSome result (λ c. length c.rest.now < length bytes.now) }
{
    if bytes.is_empty() {
        return None;
    }
    let end = line_length(bytes);
    if end == bytes.len() {
        return Some(Cut {
            line: bytes,
            rest: &bytes[end..],
        });
    }
    Some(Cut {
        line: without_return(&bytes[..end]),
        rest: &bytes[end + 1..],
    })
}
