// What is done to variables and to the evaluation stack.

ghost use Rattle.zk_state.specs.Frames.{bounds_of};
ghost use Rattle.std.specs.Prelude.{◌≡◌, Ok, Err, IfOk, IfErr, MatchResult};
ghost use Rattle.zk_step.specs.Assignment.{assignment, moved, pushing};
ghost use Rattle.zk_step.specs.Effects.{Refuses};

use crate::state::ending::{Effect, Output, Yield};
use crate::state::game_state::GameState;
use crate::state::values::Values;
use crate::state::variables::{read_indirect, write_indirect};
use zk_code::opcode::Assignment;
use zk_mem::fault::Fault;
use zk_state::refusal::Refusal;

/// Adds to the variable that an operand names, and answers its new value.
#[inline(always)]
#[tactic(auto, unfolding(crate::specs::Assignment::moved))]
fn count(game: &mut GameState, variable: u16, step: u16) -> Result<u16, Fault>
    ensures value { MatchResult result
        (λ x. moved game.old variable step ≡ Ok (game.new, x))
        (λ e. moved game.old variable step ≡ Err e) }
    ensures bounds { bounds_of game.new.frames ≡ bounds_of game.old.frames }
{
    let old = read_indirect(game, variable)?;
    let value = old.wrapping_add(step);
    write_indirect(game, variable, value)?;
    Ok(value)
}

/// What an opcode does to the variable of a number, or to the stack, by a word.
#[inline(always)]
#[tactic(auto, unfolding(crate::specs::Assignment::assignment), using(zk_state::proofs::BoundsKept::popped_bounds))]
pub fn assign(
    operation: Assignment,
    game: &mut GameState,
    variable: u16,
    word: u16,
) -> Result<Yield, Fault>
    ensures value { MatchResult result
        (λ y. assignment operation game.old variable word ≡ Ok (game.new, y))
        (λ f. assignment operation game.old variable word ≡ Err f) }
    ensures bounds { bounds_of game.new.frames ≡ bounds_of game.old.frames }
{
    match operation {
        Assignment::Store => {
            write_indirect(game, variable, word)?;
            Ok(Yield::nothing())
        }
        Assignment::Load => {
            let value = read_indirect(game, variable)?;
            Ok(Yield::word(value))
        }
        Assignment::Inc => {
            count(game, variable, 1)?;
            Ok(Yield::nothing())
        }
        Assignment::Dec => {
            count(game, variable, 0xffff)?;
            Ok(Yield::nothing())
        }
        Assignment::IncChk => {
            let value = count(game, variable, 1)?;
            Ok(Yield::truth(word.cast_signed() < value.cast_signed()))
        }
        Assignment::DecChk => {
            let value = count(game, variable, 0xffff)?;
            Ok(Yield::truth(value.cast_signed() < word.cast_signed()))
        }
        Assignment::Pull => {
            // the value goes off the stack first: `pull sp` writes over the word below it
            let value = game.frames.pop()?;
            write_indirect(game, variable, value)?;
            Ok(Yield::nothing())
        }
        Assignment::Pop => {
            game.frames.pop()?;
            Ok(Yield::nothing())
        }
    }
}

/// Pushes a word on the evaluation stack.
#[tactic(auto, unfolding(crate::proofs::Opened::in_push_effect), using(crate::proofs::Pushes::of_push_effect))]
pub fn push_effect(game: &mut GameState, values: &Values) -> Result<Effect, Refusal>
    ensures ok { IfOk result (λ e. pushing game.old values.now ≡ Ok (game.new, e)) }
    ensures err { IfErr result (λ r. Refuses r (pushing game.old values.now)) }
    ensures silent { IfOk result (λ e. e.output ≡ Output.Nothing) }
    ensures bounds { bounds_of game.new.frames ≡ bounds_of game.old.frames }
{
    game.frames.push(values.first())?;
    Ok(Effect::goes_on())
}
