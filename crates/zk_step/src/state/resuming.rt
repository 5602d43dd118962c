// A state that is back goes on where it was saved.

ghost use Rattle.zk_state.specs.Frames.{bounds_of};
ghost use Rattle.std.specs.Prelude.{◌≡◌, Ok, Err, MatchResult};
ghost use Rattle.zk_step.specs.Limited.{limited_pc};
ghost use Rattle.zk_step.specs.Resuming.{resumed};

use crate::state::finish::{continuation_after, go_to, lead};
use crate::state::game_state::GameState;
use zk_code::decode::decode_branch;
use zk_mem::fault::Fault;
use zk_state::refusal::Refusal;

/// Goes on where a state was saved that is back now, and tells the address (Z-Machine Standards Document 1.1, section
/// 15, `save` and `restore_undo`): in version 3 the branch at that byte address is taken, from version 4 on 2 is stored
/// by the store byte there. Where one of these bytes lies outside the story, this is `BadTarget`.
#[tactic(auto, unfolding(crate::specs::Resuming::resumed))]
pub fn resume(game: &mut GameState, pc: u32) -> Result<u32, Refusal>
    ensures value { MatchResult result
        (λ at. limited_pc (resumed game.old pc) ≡ Ok (game.new, at))
        (λ e. limited_pc (resumed game.old pc) ≡ Err e) }
    ensures bounds { bounds_of game.new.frames ≡ bounds_of game.old.frames }
{
    if game.memory.version() < 4 {
        return match decode_branch(&game.memory, pc) {
            Ok((branch, next)) => lead(game, continuation_after(Some(branch), next, Some(true))),
            Err(_) => Err(Refusal::Fault(Fault::BadTarget)),
        };
    }
    match game.memory.cell(pc) {
        Some(variable) => go_to(game, Some(variable), Some(2), pc + 1),
        None => Err(Refusal::Fault(Fault::BadTarget)),
    }
}
