// What instructions do, by the groups of their opcodes.

ghost use Rattle.zk_state.specs.Frames.{bounds_of};
ghost use Rattle.std.specs.Prelude.{◌≡◌, ◌≢◌, Ok, Err, IfOk, IfErr, MatchResult};
ghost use Rattle.zk_step.specs.Effects.{effect_by, effect_of, Refuses};
ghost use Rattle.zk_step.specs.Printing.{IsLong, IsPrintable};

use crate::input::inputs::reading_effect;
use crate::opcodes::assignment::push_effect;
use crate::opcodes::control::control_effect;
use crate::opcodes::idle::idle_effect;
use crate::opcodes::printing::printing_effect;
use crate::opcodes::quiet::yield_of;
use crate::opcodes::routines::{call_effect, routine_effect};
use crate::opcodes::saving::saving_effect;
use crate::opcodes::screens::windows_effect;
use crate::opcodes::selecting::change_stream;
use crate::opcodes::tables::tables_effect;
use crate::opcodes::words::change_words;
use crate::state::ending::Effect;
use crate::state::game_state::GameState;
use crate::state::values::Values;
use zk_code::instr::Instr;
use zk_code::opcode::Opcode;
use zk_mem::fault::Fault;
use zk_state::refusal::Refusal;

/// The effect of an opcode but `push`, from the text in its instruction and the values of its operands.
fn effect_by(
    opcode: Opcode,
    game: &mut GameState,
    text: Option<u32>,
    values: &Values,
) -> Result<Effect, Fault>
    requires { opcode ≢ Opcode.Push }
    ensures value { MatchResult result
        (λ e. effect_by opcode game.old text values.now ≡ Ok (game.new, e))
        (λ f. effect_by opcode game.old text values.now ≡ Err f) }
    ensures ready { IfOk result
        (λ e. IsPrintable game.old.memory game.new.memory e.output e.ending) }
    ensures same { IfOk result (λ e. IsLong e.output → game.new ≡ game.old) }
    ensures bounds { bounds_of game.new.frames ≡ bounds_of game.old.frames }
{
    match opcode {
        Opcode::Arithmetic(_)
        | Opcode::Comparison(_)
        | Opcode::Assignment(_)
        | Opcode::Array(_)
        | Opcode::ObjectChange(_)
        | Opcode::ObjectQuestion(_) => {
            let yielded = yield_of(opcode, game, values.as_slice())?;
            Ok(Effect::ends_with(yielded))
        }
        Opcode::Call(operation) => Ok(call_effect(operation, values)),
        Opcode::Routine(operation) => routine_effect(operation, game, values),
        Opcode::Control(operation) => Ok(control_effect(operation, values)),
        Opcode::Printing(operation) => printing_effect(operation, &game.memory, text, values),
        Opcode::Idle(operation) => Ok(idle_effect(operation, &game.memory, values)),
        Opcode::Reading(operation) => Ok(reading_effect(operation, values)),
        Opcode::Words(operation) => {
            change_words(operation, &mut game.memory, values)?;
            Ok(Effect::goes_on())
        }
        Opcode::Stream(operation) => {
            change_stream(operation, game, values)?;
            Ok(Effect::goes_on())
        }
        Opcode::Window(operation) => windows_effect(operation, game, values),
        Opcode::Table(operation) => tables_effect(operation, game, values),
        Opcode::Random => Ok(Effect::gives(game.generators.random(values.first()))),
        Opcode::Saving(operation) => Ok(saving_effect(operation, &game.memory, values)),
        // the caller takes it
        Opcode::Push => Err(Fault::BadOpcode),
    }
}

/// What an instruction does, but for its result and the next address.
#[tactic(auto, unfolding(crate::specs::Effects::effect_of))]
pub fn effect(game: &mut GameState, i: &Instr, values: &Values) -> Result<Effect, Refusal>
    ensures ok { IfOk result (λ e. effect_of game.old i.now values.now ≡ Ok (game.new, e)) }
    ensures err { IfErr result (λ r. Refuses r (effect_of game.old i.now values.now)) }
    ensures ready { IfOk result
        (λ e. IsPrintable game.old.memory game.new.memory e.output e.ending) }
    ensures same { IfOk result (λ e. IsLong e.output → game.new ≡ game.old) }
    ensures bounds { bounds_of game.new.frames ≡ bounds_of game.old.frames }
{
    match i.opcode {
        Opcode::Push => push_effect(game, values),
        opcode => Ok(effect_by(opcode, game, i.text, values)?),
    }
}
