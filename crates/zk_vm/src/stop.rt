// Why a machine stops.

use zk_mem::fault::Fault;
use zk_state::refusal::Limit;

/// Why a machine stops. Addresses are byte addresses of instructions.
#[derive(Clone, Copy, PartialEq, Eq, Drop)]
pub enum Stop {
    /// The story has ended.
    Quit,
    /// The instruction at an address can't be carried out.
    Fault(u32, Fault),
    /// The instruction at an address would go past a limit.
    Limit(u32, Limit),
    /// A read has found no more input.
    EndOfInput,
    /// The input can't be read.
    Read,
    /// The screen or the transcript can't be written.
    Write,
    /// There is no memory for a state that is kept or for a saved game.
    Memory,
}
