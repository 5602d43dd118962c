// Results are stored, and values returned.

ghost use Rattle.zk_state.specs.Frames.{bounds_of};
ghost use Rattle.std.specs.Prelude.{◌≡◌, ◌<◌, ℕ, Bool, Ok, Err, IfErr, IfSome, IsOk, OnOk, MatchResult};
ghost use Rattle.zk_step.specs.Limited.{limited, limited_pc};
ghost use Rattle.zk_step.specs.Routines.{returned, thrown, stored};
ghost use Rattle.zk_step.specs.Routing.{with_line_start};

use crate::state::game_state::GameState;
use crate::state::variables::{global, write_variable};
use zk_state::refusal::Refusal;

/// Stores an instruction's result, where it has one.
#[tactic(auto, unfolding(crate::specs::Routines::stored))]
pub fn store(game: &mut GameState, variable: Option<u8>, value: Option<u16>) -> Result<(), Refusal>
    ensures value { MatchResult result
        (λ _. limited (stored game.old variable value) ≡ Ok game.new)
        (λ e. limited (stored game.old variable value) ≡ Err e) }
    ensures bounds { bounds_of game.new.frames ≡ bounds_of game.old.frames }
{
    match (variable, value) {
        (Some(variable), Some(value)) => write_variable(game, variable, value),
        _ => {
            game.is_bounded();
            Ok(())
        }
    }
}

/// Returns a value from the current routine to its caller, and tells the address where that goes on.
#[tactic(auto, unfolding(crate::specs::Routines::returned), using(zk_state::proofs::BoundsKept::left_bounds))]
#[inline(always)]
pub fn return_value(game: &mut GameState, value: u16) -> Result<u32, Refusal>
    ensures value { MatchResult result
        (λ pc. limited_pc (returned game.old value) ≡ Ok (game.new, pc))
        (λ e. limited_pc (returned game.old value) ≡ Err e) }
    ensures bounds { bounds_of game.new.frames ≡ bounds_of game.old.frames }
{
    let back = game.frames.leave()?;
    match store(game, back.result, Some(value)) {
        Ok(()) => {
            game.is_bounded();
            Ok(back.pc)
        }
        Err(refusal) => Err(refusal),
    }
}

/// Returns a value from the frame of a number to its caller, and tells the address where that goes on.
#[tactic(auto, unfolding(crate::specs::Routines::thrown), using(zk_state::proofs::BoundsKept::unwound_bounds))]
pub fn throw_value(game: &mut GameState, value: u16, frame: u16) -> Result<u32, Refusal>
    ensures value { MatchResult result
        (λ pc. limited_pc (thrown game.old value frame) ≡ Ok (game.new, pc))
        (λ e. limited_pc (thrown game.old value frame) ≡ Err e) }
    ensures bounds { bounds_of game.new.frames ≡ bounds_of game.old.frames }
{
    game.frames.unwind(frame)?;
    return_value(game, value)
}

/// Whether a value can be returned from the current routine to its caller; the refusals are those of
/// `return_value`.
pub fn check_return(game: &GameState) -> Result<(), Refusal>
    ensures ok { OnOk result ((value : ℕ) (b : Bool)
        → IsOk (limited_pc (returned (with_line_start b game.now) value))) }
    ensures err { IfErr result (λ e. (value : ℕ) (b : Bool)
        → limited_pc (returned (with_line_start b game.now) value) ≡ Err e) }
{
    let variable = match game.frames.check_return() {
        Ok(variable) => variable,
        Err(refusal) => return Err(refusal),
    };
    let Some(number) = variable else {
        return Ok(());
    };
    if number < 16 {
        return Ok(());
    }
    match game.memory.check_word(global(game, number)) {
        Ok(()) => Ok(()),
        Err(fault) => Err(Refusal::Fault(fault)),
    }
}
