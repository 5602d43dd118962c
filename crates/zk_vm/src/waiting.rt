// What a machine waits for.

use crate::stop::Stop;
use zk_code::instr::Instr;
use zk_step::state::ending::Event;

/// A read that waits for its answer.
#[derive(Drop)]
pub(crate) struct Waiting {
    /// What it waits for.
    pub(crate) wait: Event,
    /// The instruction that waits, which the answer completes.
    pub(crate) instruction: Instr,
}

/// Why a machine makes no further step: what it waits for, or its stop.
pub(crate) type Halt = Result<Event, Stop>;
