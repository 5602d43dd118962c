// What the transcript gets of the lines that are read.

ghost use Rattle.std.specs.Prelude.{◌≡◌, ◌≤◌, ◌*◌, [], if◌then◌else◌, length};
ghost use Rattle.zk_text.specs.Extra.{own_characters};
ghost use Rattle.zk_text.specs.Shown.{shown_all};
ghost use Rattle.zk_step.specs.Routing.{on_script};
ghost use Rattle.zk_step.specs.Status.{code_units};
ghost use Rattle.zk_vm.specs.Answers.{line_shown, is_transcribed};

use arrayvec::ArrayVec;
use zk_mem::memory::Memory;
use zk_step::input::text_buffers::kept_letters;
use zk_step::output::routing::is_script_on;
use zk_step::state::game_state::GameState;
use zk_term::screen::Screen;
use zk_text::extra::Extra;
use zk_text::shown::Shown;
use zk_text::unit::Unit;

/// Adds characters to the transcript.
pub fn script_all<S: Screen>(screen: &mut S, characters: &[char])
    ensures { S.shows screen.old screen.new (on_script characters.now) }
{
    for c in characters {
        screen.script(*c);
    }
}

/// The characters that codes show; there are at most two for each.
fn characters_of(memory: &Memory, codes: &[u8]) -> ArrayVec<char, 511>
    requires { length codes.now ≤ 255 }
    ensures value { result.items ≡ shown_all (own_characters memory.now) (code_units codes.now) }
    ensures few { length result.items ≤ 2 * length codes.now }
{
    let extra = Extra::of(memory);
    let mut characters = ArrayVec::new();
    for i in 0..codes.len() {
        match Shown::of(&extra, Unit::Code(codes[i] as u16)) {
            Shown::Nothing => {}
            Shown::One(c) => characters.push(c),
            Shown::TwoSpaces => {
                characters.push(' ');
                characters.push(' ');
            }
        }
    }
    characters
}

/// A line as the transcript shows it: what the text buffer at a byte address takes of it, as it was typed, and a new
/// line where that ended it.
fn show_line(memory: &Memory, text: u16, codes: &[u8], ended: u8) -> ArrayVec<char, 511>
    requires { length codes.now ≤ 255 }
    ensures { result.items ≡ line_shown memory.now text codes.now ended }
{
    let kept = match kept_letters(memory, text, codes) {
        Ok(kept) => kept,
        Err(_) => &[],
    };
    let mut characters = characters_of(memory, kept);
    if ended == 13 {
        characters.push('\n');
    }
    characters
}

/// What the transcript gets of a line, where it is on and no table of stream 3 is open.
pub fn transcribe(game: &GameState, text: u16, codes: &[u8], ended: u8) -> ArrayVec<char, 511>
    requires { length codes.now ≤ 255 }
    ensures { result.items
        ≡ (if is_transcribed game.now then line_shown game.now.memory text codes.now ended else []) }
{
    if is_script_on(&game.memory) && game.streams.newest().is_none() {
        show_line(&game.memory, text, codes, ended)
    } else {
        ArrayVec::new()
    }
}
