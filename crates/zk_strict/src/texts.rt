// Which text that lies elsewhere an instruction prints.

ghost use Rattle.std.specs.Prelude.{◌≡◌};
ghost use Rattle.zk_strict.specs.Texts.{printed_by, text_next, text_of_values};

use crate::values::first_value;
use zk_code::decode::decode;
use zk_code::instr::Instr;
use zk_code::opcode::{Opcode, Printing};
use zk_mem::header::unpack;
use zk_step::state::game_state::GameState;

/// The byte address of the text that an operation prints by the value of its operand, in a story of a version.
fn printed_by(version: u8, operation: Printing, value: u16) -> Option<u32>
    ensures { result ≡ printed_by version operation value }
{
    match operation {
        Printing::PrintAddr => Some(value as u32),
        Printing::PrintPaddr => Some(unpack(version, value)),
        _ => None,
    }
}

/// The byte address of the text that an instruction prints by the value that a step takes for its operand.
fn text_of_values(game: &GameState, instr: &Instr) -> Option<u32>
    ensures { result ≡ text_of_values game.now instr.now }
{
    let Opcode::Printing(operation) = instr.opcode else {
        return None;
    };
    let value = first_value(game, instr.operands.as_slice())?;
    printed_by(game.memory.version(), operation, value)
}

/// The byte address of the text that the instruction at a byte address prints by its address or its packed address,
/// where a run carries it out next. `None` where it prints none, where its operand has no value, and where no
/// instruction is spelled there (Z-Machine Standards Document 1.1, section 15).
pub fn text_next(game: &GameState, address: u32) -> Option<u32>
    ensures { result ≡ text_next game.now address }
{
    match decode(&game.memory, address) {
        Ok(instr) => text_of_values(game, &instr),
        Err(_) => None,
    }
}
