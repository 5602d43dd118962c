// One instruction.

ghost use Rattle.std.specs.Prelude.{◌≡◌, []};

use crate::branch::Branch;
use crate::opcode::{Idle, Opcode};
use crate::operands::Operands;

/// An instruction (Standard, section 4.1).
#[derive(Drop)]
pub struct Instr {
    pub opcode: Opcode,
    pub operands: Operands,
    /// The number of the variable that takes the result.
    pub store: Option<u8>,
    pub branch: Option<Branch>,
    /// The byte address of the text.
    pub text: Option<u32>,
    /// The byte address after the instruction.
    pub next: u32,
}

impl Instr {
    /// One that is still to be read.
    pub(crate) fn empty() -> Instr
        ensures { result.operands ≡ [] }
    {
        Instr {
            opcode: Opcode::Idle(Idle::Nop),
            operands: Operands::new(),
            store: None,
            branch: None,
            text: None,
            next: 0,
        }
    }
}
