// Reads, and their answers.

ghost use Rattle.zk_state.specs.Frames.{bounds_of};
ghost use Rattle.std.specs.Prelude.{◌≡◌, Ok, Err, MatchResult};
ghost use Rattle.zk_step.specs.Laws.{fixed_parts};
ghost use Rattle.zk_step.specs.StoryWords.{AreWordsOf};
ghost use Rattle.zk_step.specs.Inputs.{reading, line_result, line_answered, result_answered, character_answered};
ghost use Rattle.zk_step.specs.Limited.{limited_pc};

use crate::input::story_words::StoryWords;
use crate::input::text_buffers::put_line;
use crate::state::ending::{Effect, Event, Output};
use crate::state::finish::go_on;
use crate::state::game_state::GameState;
use crate::state::values::Values;
use zk_code::instr::Instr;
use zk_code::opcode::Reading;
use zk_state::refusal::Refusal;

/// The effect of an opcode that reads: it waits.
#[tactic(auto, unfolding(crate::specs::Inputs::reading))]
pub fn reading_effect(operation: Reading, values: &Values) -> Effect
    ensures value { result ≡ reading operation values.now }
    ensures silent { result.output ≡ Output.Nothing }
{
    match operation {
        Reading::Sread | Reading::Aread => {
            Effect::awaits(Event::Line(values.first(), values.second()))
        }
        Reading::ReadChar => Effect::awaits(Event::Char),
    }
}

/// What a read of a line gives in a version: from version 5 on the code that ended it.
fn result_of_line(version: u8, ended: u8) -> Option<u16>
    ensures { result ≡ line_result version ended }
{
    if version < 5 {
        None
    } else {
        Some(ended as u16)
    }
}

/// Answers a read by a line, and the code that ended it: its codes go to the text buffer, and its words to the parse
/// buffer. `words` is what is known of the story's dictionary. It tells the address where the machine goes on.
#[tactic(auto, unfolding(crate::specs::Inputs::line_answered))]
pub fn answer_line(
    game: &mut GameState,
    words: &StoryWords,
    i: &Instr,
    text: u16,
    parse: u16,
    line: &[u8],
    ended: u8,
) -> Result<u32, Refusal>
    requires words { AreWordsOf (fixed_parts game.old.memory) words.now }
    ensures value { MatchResult result (λ at. limited_pc
        (line_answered game.old i.now text parse line.now ended) ≡ Ok (game.new, at))
        (λ e. limited_pc (line_answered game.old i.now text parse line.now ended) ≡ Err e) }
    ensures bounds { bounds_of game.new.frames ≡ bounds_of game.old.frames }
{
    match put_line(&mut game.memory, words, text, parse, line) {
        Ok(()) => {}
        Err(fault) => return Err(Refusal::Fault(fault)),
    }
    let result = result_of_line(game.memory.version(), ended);
    go_on(game, i, result, None)
}

/// Finishes an instruction that has waited, by a result and a truth: where it stores the one, where it branches
/// by the other. It tells the address where the machine goes on.
#[tactic(auto, unfolding(crate::specs::Inputs::result_answered))]
pub fn answer_result(
    game: &mut GameState,
    i: &Instr,
    word: u16,
    truth: bool,
) -> Result<u32, Refusal>
    ensures value { MatchResult result
        (λ at. limited_pc (result_answered game.old i.now word truth) ≡ Ok (game.new, at))
        (λ e. limited_pc (result_answered game.old i.now word truth) ≡ Err e) }
    ensures bounds { bounds_of game.new.frames ≡ bounds_of game.old.frames }
{
    go_on(game, i, Some(word), Some(truth))
}

/// Answers a read by a character, and tells the address where the machine goes on.
#[tactic(auto, unfolding(crate::specs::Inputs::character_answered))]
pub fn answer_character(game: &mut GameState, i: &Instr, code: u8) -> Result<u32, Refusal>
    ensures value { MatchResult result
        (λ at. limited_pc (character_answered game.old i.now code) ≡ Ok (game.new, at))
        (λ e. limited_pc (character_answered game.old i.now code) ≡ Err e) }
    ensures bounds { bounds_of game.new.frames ≡ bounds_of game.old.frames }
{
    go_on(game, i, Some(code as u16), None)
}
