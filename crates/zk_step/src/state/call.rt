// Calling a routine.

ghost use Rattle.zk_state.specs.Frames.{bounds_of};
ghost use Rattle.std.specs.Prelude.{◌≡◌, ◌≤◌, ◌<◌, ◌^◌, Ok, Err, IfSome, MatchResult, length, slice_index_or};
ghost use Rattle.zk_step.specs.Limited.{limited_pc};
ghost use Rattle.zk_step.specs.Routines.{called, initial_value, initial_values, with_arguments};

use crate::state::game_state::GameState;
use arrayvec::ArrayVec;
use zk_code::instr::Instr;
use zk_code::routines::{length_of_values, local_count};
use zk_mem::fault::Fault;
use zk_mem::header::unpack;
use zk_mem::memory::Memory;
use zk_state::refusal::Refusal;

/// The initial value of a local variable: a word of the routine's, or 0 from version 5 on.
fn initial_value(memory: &Memory, address: u32) -> u16
    ensures { result ≡ initial_value memory.now address }
{
    if memory.version() < 5 {
        memory.code_word(address).unwrap_or(0)
    } else {
        0
    }
}

/// The argument at an index, or the initial value where there is none.
fn argument_or(arguments: &[u16], k: usize, initial: u16) -> u16
    ensures { result ≡ slice_index_or arguments.now k initial }
{
    arguments.get(k).copied().unwrap_or(initial)
}

/// The local variables of a called routine: its arguments, and initial values from a byte address on where
/// there are fewer arguments than variables.
fn locals_of(memory: &Memory, values: u32, count: u8, arguments: &[u16]) -> ArrayVec<u16, 15>
    requires few { count ≤ 15 }
    requires near { values < 2 ^ 20 }
    ensures { result.items ≡ with_arguments (initial_values memory.now values count) arguments.now }
{
    let mut locals = ArrayVec::new();
    let mut at = values;
    for k in 0..count as usize {
        let initial = initial_value(memory, at);
        locals.push(argument_or(arguments, k, initial));
        at += 2;
    }
    locals
}

/// Calls the routine at a packed address with arguments: the byte address of its first instruction. A routine outside
/// the story, or with more than 15 local variables, is `BadTarget`.
#[tactic(auto, unfolding(crate::proofs::Opened::in_call_routine), using(crate::proofs::WithinBounds::of_call_routine))]
pub fn call_routine(
    game: &mut GameState,
    i: &Instr,
    routine: u16,
    arguments: &[u16],
) -> Result<u32, Refusal>
    requires near { i.now.next ≤ 2 ^ 20 }
    requires few { length arguments.now ≤ 7 }
    ensures value { MatchResult result (λ start. limited_pc
        (called game.old i.now routine arguments.now) ≡ Ok (game.new, start))
        (λ e. limited_pc (called game.old i.now routine arguments.now) ≡ Err e) }
    ensures bounds { bounds_of game.new.frames ≡ bounds_of game.old.frames }
{
    let header = unpack(game.memory.version(), routine);
    let Some(count) = local_count(&game.memory, header) else {
        return Err(Refusal::Fault(Fault::BadTarget));
    };
    let locals = locals_of(&game.memory, header + 1, count, arguments);
    let start = header + 1 + length_of_values(&game.memory, count);
    let supplied = arguments.len() as u8;
    game.frames
        .call(locals.as_slice(), i.next, start, i.store, supplied)?;
    Ok(start)
}
