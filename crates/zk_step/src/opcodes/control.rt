// Jumps and the end of a story.

ghost use Rattle.std.specs.Prelude.{◌≡◌};
ghost use Rattle.zk_step.specs.Control.{control};

use crate::state::ending::{Effect, Ending, Output, Request};
use crate::state::values::Values;
use zk_code::opcode::Control;

/// The effect of an opcode that leads away.
#[tactic(auto, unfolding(crate::specs::Control::control))]
pub fn control_effect(operation: Control, values: &Values) -> Effect
    ensures value { result ≡ control operation values.now }
    ensures silent { result.output ≡ Output.Nothing }
{
    match operation {
        Control::Jump => Effect::ends(Ending::Jump(values.first())),
        Control::Quit => Effect::ends(Ending::Asks(Request::Quit)),
    }
}
