// The words of a text.

ghost use Rattle.std.specs.Prelude.{◌≡◌, ◌≤◌, ◌<◌, ◌+◌, IfSome, length, drop};
ghost use Rattle.zk_tables.specs.Tokens.{is_letter, is_separator, run, token_here};

/// The ZSCII code of a space.
const SPACE: u8 = 32;

/// A word of a text: where it begins in the text, and how many letters it has (Z-Machine Standards Document
/// 1.1, section 13.6.1).
#[derive(Clone, Copy, Drop)]
pub struct Token {
    pub position: u8,
    pub length: u8,
}

/// Whether a code is a word by itself.
#[tactic(auto, unfolding(crate::specs::Tokens::is_separator))]
fn divides(separators: &[u8], code: u8) -> bool
    ensures { result ≡ is_separator separators.now code }
{
    code != SPACE && separators.contains(&code)
}

/// Whether a code is neither a space nor a separator.
#[tactic(auto, unfolding(crate::specs::Tokens::is_letter))]
pub(crate) fn is_of_word(separators: &[u8], code: u8) -> bool
    ensures { result ≡ is_letter separators.now code }
{
    code != SPACE && !separators.contains(&code)
}

/// How many letters stand at a position of a text.
#[tactic(auto, using(crate::proofs::Dividing::of_run_length))]
fn run_length(separators: &[u8], text: &[u8], position: usize) -> usize
    requires { position ≤ length text.now }
    ensures value { result ≡ run separators.now (drop position text.now) }
    ensures within { position + result ≤ length text.now }
{
    for at in position..text.len() {
        if !is_of_word(separators, text[at]) {
            return at - position;
        }
    }
    text.len() - position
}

/// The word that begins at a position of a text, where the letter before it belongs to a word or not.
#[tactic(auto, unfolding(crate::specs::Tokens::token_here))]
pub(crate) fn token_at(
    separators: &[u8],
    text: &[u8],
    position: usize,
    inside: bool,
) -> Option<Token>
    requires position { position < length text.now }
    requires short { length text.now ≤ 255 }
    ensures value { result ≡ token_here separators.now position inside (drop position text.now) }
    ensures within { IfSome result (λ t. t.position + t.length ≤ length text.now) }
{
    let code = text[position];
    if is_of_word(separators, code) {
        if inside {
            return None;
        }
        let length = run_length(separators, text, position);
        return Some(Token {
            position: position as u8,
            length: length as u8,
        });
    }
    if divides(separators, code) {
        return Some(Token {
            position: position as u8,
            length: 1,
        });
    }
    None
}
