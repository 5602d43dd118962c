// Settings in the comments of a walkthrough.

ghost use Rattle.std.specs.Prelude.{◌≡◌, ◌≤◌, ◌∷◌, [], length, option_map, option_to_list};
ghost use Rattle.std.specs.List.{prefix_len};
ghost use Rattle.zk_suite.specs.Scripts.{first_of, is_key_byte, is_space, setting_in, without_back, without_front};

/// Whether a byte may stand in a key: a letter, a digit or a hyphen.
fn is_key_byte(byte: u8) -> bool
    ensures { result ≡ is_key_byte byte }
{
    byte.is_ascii_alphanumeric() || byte == b'-'
}

/// How many letters, digits and hyphens bytes begin with.
fn key_length(bytes: &[u8]) -> usize
    ensures value { result ≡ prefix_len is_key_byte bytes.now }
    ensures within { result ≤ length bytes.now }
{
    for at in 0..bytes.len() {
        if !is_key_byte(bytes[at]) {
            return at;
        }
    }
    bytes.len()
}

/// Bytes without the spaces that they begin with.
fn without_front(bytes: &[u8]) -> &[u8]
    ensures { result.now ≡ without_front bytes.now }
{
    for at in 0..bytes.len() {
        if bytes[at] != b' ' {
            return &bytes[at..];
        }
    }
    &bytes[bytes.len()..]
}

/// Bytes without the spaces that they end with.
fn without_back(bytes: &[u8]) -> &[u8]
    ensures { result.now ≡ without_back bytes.now }
{
    for at in (0..bytes.len()).rev() {
        if bytes[at] != b' ' {
            return &bytes[..at + 1];
        }
    }
    &bytes[..0]
}

/// The key and the value of the setting that a comment is, if it is one.
#[tactic(auto, unfolding(crate::specs::Scripts::setting_in))]
pub(crate) fn setting_in(line: &[u8]) -> Option<(&[u8], &[u8])>
    ensures { option_map (λ s. (s.0.now, s.1.now)) result ≡ setting_in line.now }
{
    if !line.starts_with(b"# ") {
        return None;
    }
    let text = &line[2..];
    let length = key_length(text);
    if length == 0 || !text[length..].starts_with(b": ") {
        return None;
    }
    Some((
        &text[..length],
        without_back(without_front(&text[length + 2..])),
    ))
}

/// The value of the setting that a comment is, if it is one of a name.
pub(crate) fn value_in<'a>(line: &'a [u8], name: &[u8]) -> Option<&'a [u8]>
    ensures { option_map (λ v. v.now) result
        ≡ first_of name.now (option_to_list (setting_in line.now)) }
{
    let Some((key, value)) = setting_in(line) else {
        return None;
    };
    if key == name { Some(value) } else { None }
}
