// Where an instruction leads that has a bad target, for the lines in words.

use std::alloc::{AllocError, Global};
use zk_code::branch::{Branch, BranchTarget};
use zk_code::decode::decode;
use zk_code::instr::Instr;
use zk_code::opcode::Opcode;
use zk_code::ways::is_jump;
use zk_mem::memory::Memory;

/// Where an instruction leads that has a bad target, by byte addresses.
#[derive(Clone, Copy, Drop)]
pub enum BadDestination {
    /// It calls an address inside the story, where no routine begins.
    Routine(u32),
    /// It calls an address past the story.
    PastRoutine(u32),
    /// It calls what a variable says.
    SomeRoutine,
    /// It branches or jumps to an address past the story.
    Past(u32),
    /// It branches or jumps so many bytes before the story.
    Before(u32),
    /// It jumps by a variable.
    SomeJump,
    /// It restores a game that goes on out of the story.
    SavedGame,
}

/// Where a call leads.
fn called(memory: &Memory, i: &Instr) -> BadDestination {
    match i.constant_call(memory) {
        Some(address) if memory.cell(address).is_none() => BadDestination::PastRoutine(address),
        Some(address) => BadDestination::Routine(address),
        None => BadDestination::SomeRoutine,
    }
}

/// Where a branch or a jump leads.
fn led(target: BranchTarget) -> Option<BadDestination> {
    match target {
        BranchTarget::Past(address) => Some(BadDestination::Past(address)),
        BranchTarget::Below(count) => Some(BadDestination::Before(count)),
        _ => None,
    }
}

impl BadDestination {
    /// Where the instruction at a byte address leads, which has a bad target.
    pub fn at(memory: &Memory, address: u32) -> Option<BadDestination> {
        if address > 0x10_0000 {
            return None;
        }
        let Ok(i) = decode(memory, address) else {
            return None;
        };
        if let Opcode::Call(_) = i.opcode {
            return Some(called(memory, &i));
        }
        if is_jump(i.opcode) {
            return match i.constant_jump(memory) {
                Some(target) => led(target),
                None => Some(BadDestination::SomeJump),
            };
        }
        let led = match i.branch {
            Some(Branch { on: _, target }) => led(target),
            None => None,
        };
        // a `restore` whose own branch leads somewhere
        led.or(Some(BadDestination::SavedGame))
    }

    /// Where it leads, in words.
    pub fn text(self, alloc: Global) -> Result<String, AllocError> {
        match self {
            BadDestination::Routine(a) => format!(in alloc;
                "the story calls address {a:05x}, where no routine begins"
            ),
            BadDestination::PastRoutine(a) => format!(in alloc;
                "the story calls address {a:05x}, which is past its end"
            ),
            BadDestination::SomeRoutine => format!(in alloc;
                "the story calls an address past its end, or where no routine begins"
            ),
            BadDestination::Past(a) => format!(in alloc;
                "the story goes on at address {a:05x}, which is past its end"
            ),
            BadDestination::Before(n) => format!(in alloc;
                "the story jumps to {n} bytes before its start"
            ),
            BadDestination::SomeJump => format!(in alloc; "the story jumps out of itself"),
            BadDestination::SavedGame => format!(in alloc;
                "the saved game goes on past the story's end"
            ),
        }
    }
}
