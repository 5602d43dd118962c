// The calls that led to where a machine stands.

ghost use Rattle.std.specs.Prelude.{◌≡◌, ◌≤◌, ◌<◌, ◌↔◌, ℕ, length, Some, None, IfSome, IsTrue};
ghost use Rattle.zk_vm.specs.Calls.{locals_and_return, IsRoutineWith, IsCallTo, StandsCallTo, CodeLeads, TellsCall};

use crate::machine::Machine;
use zk_code::decode::decode;
use zk_code::instr::Instr;
use zk_code::opcode::Opcode;
use zk_code::routines::{length_of_values, local_count};
use zk_mem::memory::Memory;

/// A routine that is open, as its frame and the story tell it.
#[derive(Clone, Copy, Drop)]
pub struct OpenRoutine<'a> {
    /// The byte address of the routine, where the count of its local variables stands, if that is known.
    pub routine: Option<u32>,
    /// The byte address of the call that began it, if that is known.
    pub call: Option<u32>,
    /// The byte address at which its caller goes on.
    pub goes_on: u32,
    /// Its local variables, as they are now.
    pub locals: &'a [u16],
}

/// The byte address of the routine with so many local variables whose first instruction stands at another. There is
/// none where its count is not so many (Standard, section 5.2).
fn routine_before(memory: &Memory, start: u32, count: u8) -> Option<u32>
    ensures { IfSome result (IsRoutineWith memory.now count) }
{
    let address = start.checked_sub(1 + length_of_values(memory, count))?;
    if local_count(memory, address)? == count {
        Some(address)
    } else {
        None
    }
}

/// Whether an instruction can have begun a routine: it is a call after which its caller goes on at a byte address, and
/// where it calls by a constant, and the routine is known, it calls that one (Standard, section 6.4).
fn can_begin(memory: &Memory, instr: &Instr, goes_on: u32, routine: Option<u32>) -> bool
    ensures { IsTrue result ↔ IsCallTo memory.now routine goes_on instr.now }
{
    let Opcode::Call(_) = instr.opcode else {
        return false;
    };
    if instr.next != goes_on {
        return false;
    }
    match (instr.constant_call(memory), routine) {
        (Some(called), Some(routine)) => called == routine,
        _ => true,
    }
}

/// The byte address of the call after which a caller goes on, by its instructions from a byte address on, each of which
/// begins where the one before ends. There is none where these do not come to such a call.
fn call_before(memory: &Memory, start: u32, goes_on: u32, routine: Option<u32>) -> Option<u32>
    ensures stands { IfSome result (StandsCallTo memory.now routine goes_on) }
    ensures found { (a : ℕ) → CodeLeads memory.now start a
        → StandsCallTo memory.now routine goes_on a → result ≡ Some a }
{
    memory.has_bytes();
    let mut at = start;
    for _i in start..goes_on {
        let Ok(instr) = decode(memory, at) else {
            return None;
        };
        if can_begin(memory, &instr, goes_on, routine) {
            return Some(at);
        }
        if instr.next >= goes_on {
            return None;
        }
        at = instr.next;
    }
    None
}

impl Machine {
    /// How many routines that were called are open: all frames but the first.
    pub fn depth(&self) -> u16
        ensures { result ≡ length self.now.state.game.frames.callers }
    {
        self.game.frames.depth()
    }

    /// The byte address of the call that began the routine of a frame above the first, if it is found in the code of
    /// its caller. That of the first frame begins with the story's first instruction (Standard, section 5.5).
    fn call_of(&self, number: u16, goes_on: u32, routine: Option<u32>) -> Option<u32>
        requires above { 1 ≤ number }
        requires open { number ≤ length self.now.state.game.frames.callers }
        ensures stands { IfSome result
            (StandsCallTo self.now.state.game.memory routine goes_on) }
        ensures main { number ≡ 1 → TellsCall self.now.state.game.memory routine goes_on result }
    {
        let memory = &self.game.memory;
        if number == 1 {
            let first = memory.header().first_instruction as u32;
            return call_before(memory, first, goes_on, routine);
        }
        let start = self.game.frames.frame(number - 1).start;
        if start == 0 {
            return None;
        }
        call_before(memory, start, goes_on, routine)
    }

    /// What is known of the routine of a frame by its number, where the first has number 0: of that one, which the
    /// story begins in, neither a routine nor a call. Of frames that a saved game or a snapshot brought, no routine is
    /// known, and no call but one in the code that the story begins with.
    pub fn open_routine(&self, number: u16) -> OpenRoutine<'_>
        requires { number ≤ length self.now.state.game.frames.callers }
        ensures frame { locals_and_return self.now.state.game.frames number
            ≡ Some (result.locals.now, result.goes_on) }
        ensures routine { IfSome result.routine
            (IsRoutineWith self.now.state.game.memory (length result.locals.now)) }
        ensures call { IfSome result.call
            (StandsCallTo self.now.state.game.memory result.routine result.goes_on) }
        ensures main { number ≡ 1 → TellsCall self.now.state.game.memory
            result.routine result.goes_on result.call }
        ensures first { number ≡ 0 → (result.routine ≡ None) × (result.call ≡ None) }
    {
        let frame = self.game.frames.frame(number);
        if number == 0 {
            return OpenRoutine {
                routine: None,
                call: None,
                goes_on: frame.pc,
                locals: frame.locals,
            };
        }
        let count = frame.locals.len() as u8;
        let routine = routine_before(&self.game.memory, frame.start, count);
        let call = self.call_of(number, frame.pc, routine);
        OpenRoutine {
            routine,
            call,
            goes_on: frame.pc,
            locals: frame.locals,
        }
    }
}
