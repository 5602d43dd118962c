// Calls, returns, and what is asked of frames.

ghost use Rattle.zk_state.specs.Frames.{bounds_of};
ghost use Rattle.std.specs.Prelude.{◌≡◌, Ok, Err, IfOk, MatchResult};
ghost use Rattle.zk_step.specs.Routines.{call_effect, routine_effect, calls, was_supplied};

use crate::state::ending::{Effect, Ending, Output};
use crate::state::game_state::GameState;
use crate::state::values::Values;
use zk_code::opcode::{Call, Routine};
use zk_mem::fault::Fault;

/// A call of the routine at a packed address with so many arguments at most. The one at packed address 0
/// gives false: stories call it where a property holds no routine.
fn call_with(routine: u16, most: u8) -> Effect
    ensures value { result ≡ calls routine most }
    ensures silent { result.output ≡ Output.Nothing }
{
    if routine == 0 {
        Effect::gives(0)
    } else {
        Effect::ends(Ending::Call(routine, most))
    }
}

/// The effect of an opcode that calls a routine.
#[tactic(auto, unfolding(crate::specs::Routines::call_effect))]
pub fn call_effect(operation: Call, values: &Values) -> Effect
    ensures value { result ≡ call_effect operation values.now }
    ensures silent { result.output ≡ Output.Nothing }
{
    let routine = values.first();
    match operation {
        Call::Call1s | Call::Call1n => call_with(routine, 0),
        Call::Call2s | Call::Call2n => call_with(routine, 1),
        Call::CallVs | Call::CallVn => call_with(routine, 3),
        Call::CallVs2 | Call::CallVn2 => call_with(routine, 7),
    }
}

/// Whether the current routine was given the argument of a number.
#[inline(always)]
pub fn is_supplied(game: &GameState, number: u16) -> bool
    ensures { result ≡ was_supplied game.now number }
{
    number > 0 && number <= game.frames.supplied() as u16
}

/// The effect of an opcode that returns or looks at frames.
#[tactic(auto, unfolding(crate::specs::Routines::routine_effect), using(zk_state::proofs::BoundsKept::popped_bounds))]
pub fn routine_effect(
    operation: Routine,
    game: &mut GameState,
    values: &Values,
) -> Result<Effect, Fault>
    ensures value { MatchResult result
        (λ e. routine_effect operation game.old values.now ≡ Ok (game.new, e))
        (λ f. routine_effect operation game.old values.now ≡ Err f) }
    ensures silent { IfOk result (λ e. e.output ≡ Output.Nothing) }
    ensures bounds { bounds_of game.new.frames ≡ bounds_of game.old.frames }
{
    let first = values.first();
    match operation {
        Routine::Rtrue => Ok(Effect::ends(Ending::Return(1))),
        Routine::Rfalse => Ok(Effect::ends(Ending::Return(0))),
        Routine::Ret => Ok(Effect::ends(Ending::Return(first))),
        Routine::RetPopped => {
            let value = game.frames.pop()?;
            Ok(Effect::ends(Ending::Return(value)))
        }
        Routine::Catch => Ok(Effect::gives(game.frames.depth())),
        Routine::Throw => Ok(Effect::ends(Ending::Throw(first, values.second()))),
        Routine::CheckArgCount => Ok(Effect::tests(is_supplied(game, first))),
    }
}
