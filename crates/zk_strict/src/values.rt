// The values that a step takes for the first two operands of an instruction.

ghost use Rattle.std.specs.Prelude.{◌≡◌};
ghost use Rattle.zk_step.specs.Variables.{operand_read};
ghost use Rattle.zk_strict.specs.Values.{first_taken, pulls, second_taken, taken_after, value_of};

use crate::stack::word_under;
use zk_code::operands::Operand;
use zk_step::state::game_state::GameState;
use zk_step::state::variables::read_indirect;

/// Whether an operand pulls a word of the evaluation stack.
fn pulls(operand: Operand) -> bool
    ensures { result ≡ pulls operand }
{
    match operand {
        Operand::Variable(variable) => variable == 0,
        _ => false,
    }
}

/// The value of an operand that is read first. `None` where its variable isn't there.
#[tactic(auto, unfolding(zk_step::specs::Variables::operand_read), using(crate::proofs::Taken::variable_is))]
fn value_of(game: &GameState, operand: Operand) -> Option<u16>
    ensures { result ≡ value_of (operand_read game.now operand) }
{
    match operand {
        Operand::Large(value) => Some(value),
        Operand::Small(value) => Some(value as u16),
        Operand::Variable(variable) => read_indirect(game, variable as u16).ok(),
    }
}

/// The value of an operand that is read after another.
#[tactic(auto, using(crate::proofs::Taken::of_value_after))]
fn value_after(game: &GameState, first: Operand, second: Operand) -> Option<u16>
    ensures { result ≡ taken_after game.now first second }
{
    value_of(game, first)?;
    if pulls(first) && pulls(second) {
        word_under(&game.frames)
    } else {
        value_of(game, second)
    }
}

/// The value of the first of some operands, where a step takes one.
pub(crate) fn first_value(game: &GameState, operands: &[Operand]) -> Option<u16>
    ensures { result ≡ first_taken game.now operands.now }
{
    match operands {
        [] => None,
        [first, ..] => value_of(game, *first),
    }
}

/// The value of the second of some operands, where a step takes one.
pub(crate) fn second_value(game: &GameState, operands: &[Operand]) -> Option<u16>
    ensures { result ≡ second_taken game.now operands.now }
{
    match operands {
        [first, second, ..] => value_after(game, *first, *second),
        _ => None,
    }
}
