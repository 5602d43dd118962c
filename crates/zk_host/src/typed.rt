// A line that was typed.

ghost use Rattle.std.specs.Prelude.{◌≡◌, ◌<◌, true, IsTrue, ◌↔◌, length, Some, None, if◌then◌else◌};
ghost use Rattle.zk_text.specs.Extra.{own_characters};
ghost use Rattle.zk_term.specs.Characters.{line_codes};
ghost use Rattle.zk_step.specs.Terminating.{is_terminating};
ghost use Rattle.zk_host.specs.Typing.{character_code, is_key, is_line, is_plain};

use arrayvec::ArrayVec;
use std::io::Read;
use zk_mem::memory::Memory;
use zk_step::input::terminating::is_terminating;
use zk_term::lines::{Input, Lines};
use zk_term::source::Source;
use zk_term::target::Failed;
use zk_text::extra::Extra;

/// So many bytes are too many for a line.
const TOO_LONG: usize = 65_536;

/// Gives the bytes of a line.
#[derive(Drop)]
struct Typed<'a> {
    rest: &'a [u8],
}

impl Source for Typed<'_> {
    ghost use Rattle.std.specs.Prelude.{◌≡◌, ◌++◌, Some, false};

    ghost left = { λ t. Some t.rest.now };

    ghost failed = { λ _. false };

    ghost fails = { λ _ _. ⊥ };

    ghost gives = { λ a b bytes. a.rest.now ≡ bytes ++ b.rest.now };

    ghost ends = { λ _ _. Unit {0} };

    fn read(&mut self, buffer: &mut [u8]) -> Result<usize, Failed> {
        match self.rest.read(buffer) {
            Ok(count) => Ok(count),
            Err(_) => unreachable!(),
        }
    }
}

/// Whether no byte is a new line.
fn is_plain(bytes: &[u8]) -> bool
    ensures { result ≡ is_plain bytes.now }
{
    bytes.iter().all(|byte| *byte != b'\n')
}

/// Whether bytes are a line: there is no new line among them, and there are fewer than 65,536.
pub fn is_line(bytes: &[u8]) -> bool
    ensures { result ≡ is_line bytes.now }
{
    bytes.len() < TOO_LONG && is_plain(bytes)
}

/// The codes of a line, by the story's extra characters.
pub fn codes_of(memory: &Memory, line: &[u8]) -> ArrayVec<u8, 255>
    requires { is_line line.now ≡ true }
    ensures { result.items ≡ line_codes (own_characters memory.now) line.now }
{
    if line.is_empty() {
        return ArrayVec::new();
    }
    let mut typed = Typed { rest: line };
    match Lines::new().line(&mut typed, &Extra::of(memory)) {
        Input::Line(codes) => codes,
        Input::End | Input::Failed => unreachable!(),
    }
}

/// The code of a key, if it ends a line of a story.
#[tactic(auto, unfolding(zk_step::specs::Terminating::is_terminating))]
pub fn ending_key(memory: &Memory, key: u32) -> Option<u8>
    ensures { result ≡ (if is_terminating memory.now key then Some key else None) }
{
    if key <= 255 && is_terminating(memory, key as u8) {
        Some(key as u8)
    } else {
        None
    }
}

/// Whether a code is that of a key that gives no character: delete, escape or a function key (Z-Machine Standards
/// Document 1.1, section 3.8).
fn is_key(code: u32) -> bool
    ensures { result ≡ is_key code }
{
    matches!(code, 8 | 27 | 129..=154)
}

/// The code of a character that was typed, by the story's extra characters: 13 for a new line. Where there are keys
/// that give no character, each is its own code.
pub fn code_of(memory: &Memory, keys: bool, character: u32) -> u8
    ensures { result ≡ character_code (own_characters memory.now) keys character }
{
    match character {
        0x0a | 0x0d => 13,
        _ if keys && is_key(character) => character as u8,
        0x09 => b' ',
        _ => Extra::of(memory).from_char(character).unwrap_or(b'?'),
    }
}
