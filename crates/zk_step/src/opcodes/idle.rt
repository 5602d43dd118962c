// Opcodes that do nothing here, and questions whose answer is always the same.

ghost use Rattle.std.specs.Prelude.{◌≡◌};
ghost use Rattle.zk_text.specs.Extra.{own_characters, code_of};
ghost use Rattle.zk_step.specs.Idle.{idle, unicode_answer};

use crate::state::ending::{Effect, Output};
use crate::state::values::Values;
use zk_code::opcode::Idle;
use zk_mem::memory::Memory;
use zk_text::extra::Extra;

/// What can be done with a Unicode character: printed and read (3), printed alone (1) or nothing (0).
fn unicode(memory: &Memory, character: u16) -> u16
    ensures { result ≡ unicode_answer (code_of (own_characters memory.now) character) character }
{
    match Extra::of(memory).from_char(character as u32) {
        Some(_) => 3,
        None => match character {
            0..160 | 0xd800..0xe000 => 0,
            _ => 1,
        },
    }
}

/// The effect of an opcode that changes nothing. Colours and buffering have none: on a plain terminal a story must
/// still run that asks for them without a look at the header.
#[tactic(auto, unfolding(crate::specs::Idle::idle))]
pub fn idle_effect(operation: Idle, memory: &Memory, values: &Values) -> Effect
    ensures value { result ≡ idle operation memory.now values.now }
    ensures silent { result.output ≡ Output.Nothing }
{
    let operand = values.first();
    match operation {
        Idle::Nop | Idle::SetColour | Idle::SetTrueColour | Idle::BufferMode => Effect::goes_on(),
        Idle::Piracy => Effect::tests(true),
        Idle::CheckUnicode => Effect::gives(unicode(memory, operand)),
    }
}
