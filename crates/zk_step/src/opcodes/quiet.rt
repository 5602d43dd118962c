// Instructions that print nothing and go on with what they yield.

ghost use Rattle.zk_state.specs.Frames.{bounds_of};
ghost use Rattle.std.specs.Prelude.{◌≡◌, ℕ, Option, Ok, Err, MatchResult};
ghost use Rattle.zk_step.specs.Effects.{effect_by, HasYield};
ghost use Rattle.zk_step.specs.Endings.{ends_with};

use crate::opcodes::arithmetic::arithmetic;
use crate::opcodes::arrays::access_array;
use crate::opcodes::assignment::assign;
use crate::opcodes::comparison::{compare, value_at};
use crate::opcodes::objects::{change_object, object_answer};
use crate::opcodes::routines::is_supplied;
use crate::state::ending::Yield;
use crate::state::game_state::GameState;
use zk_code::opcode::{Opcode, Routine};
use zk_mem::fault::Fault;

/// What a quiet instruction does by the values of its operands, and what it yields. All but its call goes away where
/// the opcode is known.
#[inline(always)]
#[tactic(auto, unfolding(crate::specs::Routines::routine_effect))]
pub fn yield_of(opcode: Opcode, game: &mut GameState, values: &[u16]) -> Result<Yield, Fault>
    requires { HasYield opcode }
    ensures value { MatchResult result (λ y. (text : Option ℕ)
        → effect_by opcode game.old text values.now ≡ Ok (game.new, ends_with y))
        (λ f. (text : Option ℕ) → effect_by opcode game.old text values.now ≡ Err f) }
    ensures bounds { bounds_of game.new.frames ≡ bounds_of game.old.frames }
{
    let (x, y, z) = (
        value_at(values, 0),
        value_at(values, 1),
        value_at(values, 2),
    );
    match opcode {
        Opcode::Arithmetic(operation) => Ok(Yield::word(arithmetic(operation, x, y)?)),
        Opcode::Comparison(operation) => Ok(Yield::truth(compare(operation, values))),
        Opcode::Assignment(operation) => assign(operation, game, x, y),
        Opcode::Array(operation) => access_array(operation, game, x, y, z),
        Opcode::ObjectChange(operation) => {
            change_object(operation, &mut game.memory, x, y, z)?;
            Ok(Yield::nothing())
        }
        Opcode::ObjectQuestion(operation) => object_answer(operation, &game.memory, x, y),
        Opcode::Routine(Routine::CheckArgCount) => Ok(Yield::truth(is_supplied(game, x))),
        _ => unreachable!(),
    }
}
