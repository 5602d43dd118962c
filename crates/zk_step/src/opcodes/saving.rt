// Saved games, restarts, states to go back to, and the check of the story file.

ghost use Rattle.std.specs.Prelude.{◌≡◌};
ghost use Rattle.zk_step.specs.Saving.{waits_whole, saving};

use crate::state::ending::{Effect, Ending, Event, Output, Request};
use crate::state::values::Values;
use zk_code::opcode::Saving;
use zk_mem::memory::Memory;

/// The whole game is saved or restored; a table, which operands name, is not.
fn wait_whole(event: Event, values: &Values) -> Effect
    ensures value { result ≡ waits_whole event values.now }
    ensures silent { result.output ≡ Output.Nothing }
{
    if values.is_empty() {
        Effect::awaits(event)
    } else {
        Effect::gives(0)
    }
}

/// The effect of an opcode of saved games.
#[tactic(auto, unfolding(crate::specs::Saving::saving))]
pub fn saving_effect(operation: Saving, memory: &Memory, values: &Values) -> Effect
    ensures value { result ≡ saving operation memory.now values.now }
    ensures silent { result.output ≡ Output.Nothing }
{
    match operation {
        Saving::SaveBranch | Saving::SaveStore => Effect::awaits(Event::Save),
        Saving::Save => wait_whole(Event::Save, values),
        Saving::RestoreBranch | Saving::RestoreStore => Effect::awaits(Event::Restore),
        Saving::Restore => wait_whole(Event::Restore, values),
        Saving::Restart => Effect::ends(Ending::Restart),
        Saving::Verify => Effect::tests(memory.checksum_ok()),
        Saving::SaveUndo => Effect::ends(Ending::Asks(Request::SaveUndo)),
        Saving::RestoreUndo => Effect::ends(Ending::Asks(Request::RestoreUndo)),
    }
}
