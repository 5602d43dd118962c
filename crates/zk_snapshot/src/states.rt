// The bytes of states to go back to.

ghost use Rattle.std.specs.Prelude.{◌≡◌, ◌++◌, ◌∷◌, [], ◌≤◌, ◌<◌, length, take, reverse, slice_get, Some, IfOk, OnOk};
ghost use Rattle.zk_save.specs.States.{WholeState, states_in, AreOf};
ghost use Rattle.zk_state.specs.Frames.{bounds_of, frames_of};
ghost use Rattle.zk_snapshot.specs.Snapshots.{frames_bytes, kept_bytes, states_bytes, fitting};

use crate::writing::{put_4, put_frames};
use std::alloc::{AllocError, Global};
use zk_mem::memory::Memory;
use zk_save::undo::Undo;
use zk_state::frames::Frames;

/// Room for frames within the same bounds.
#[tactic(auto, unfolding(zk_state::specs::Frames::bounds_of))]
pub(crate) fn room_for(alloc: Global, frames: &Frames) -> Result<Frames, AllocError>
    ensures { IfOk result (λ f. bounds_of f ≡ bounds_of frames.now) }
{
    frames.is_bounded();
    Frames::new(alloc, frames.most_frames(), frames.most_words())
}

/// How many bytes the frames take.
#[tactic(auto, using(crate::proofs::Sizes::frames_long))]
fn frames_len(frames: &Frames) -> usize
    ensures value { result ≡ length (frames_bytes (frames_of frames.now)) }
    ensures few { result < 1048576 }
{
    2 + 10 * (frames.depth() as usize + 1) + 2 * frames.words() as usize
}

/// How many bytes the state of a number takes, where the oldest has number 0. `frames` is room for its frames.
#[tactic(auto, using(crate::proofs::Sizes::kept_long))]
fn state_len(undo: &Undo, memory: &Memory, frames: &mut Frames, number: u8) -> usize
    requires are_of { AreOf memory.now frames.old undo.now }
    requires number { number < length undo.now.states }
    ensures len { (w : WholeState)
        → slice_get (reverse (states_in memory.now.file undo.now)) number ≡ Some w
        → result ≡ length (kept_bytes memory.now.file w) }
    ensures bounds { bounds_of frames.new ≡ bounds_of frames.old }
    ensures are_of { AreOf memory.now frames.new undo.now }
{
    let state = undo.state(memory, frames, number);
    8 + state.packed.len() + frames_len(frames)
}

/// How many of the newest states fit in so many bytes.
pub(crate) fn fitting(undo: &Undo, memory: &Memory, frames: &mut Frames, most: usize) -> u8
    requires { AreOf memory.now frames.old undo.now }
    ensures few { result ≤ length undo.now.states }
    ensures fit { take result (states_in memory.now.file undo.now)
        ≡ fitting memory.now.file most (states_in memory.now.file undo.now) }
    ensures bounds { bounds_of frames.new ≡ bounds_of frames.old }
{
    let len = undo.len();
    let mut left = most;
    for count in 0..len {
        let size = state_len(undo, memory, frames, len - 1 - count);
        if size > left {
            return count;
        }
        left -= size;
    }
    len
}

/// Writes the state of a number, where the oldest has number 0. `frames` is room for its frames.
#[tactic(auto, unfolding(crate::specs::Snapshots::kept_bytes))]
fn put_state(
    out: &mut Vec<u8>,
    undo: &Undo,
    memory: &Memory,
    frames: &mut Frames,
    number: u8,
) -> Result<(), AllocError>
    requires are_of { AreOf memory.now frames.old undo.now }
    requires number { number < length undo.now.states }
    ensures state { OnOk result ((w : WholeState)
        → slice_get (reverse (states_in memory.now.file undo.now)) number ≡ Some w
        → out.new.items ≡ out.old.items ++ kept_bytes memory.now.file w) }
    ensures are_of { AreOf memory.now frames.new undo.now }
{
    let state = undo.state(memory, frames, number);
    put_4(out, state.packed.len() as u32)?;
    out.extend_from_slice(state.packed)?;
    put_frames(out, frames)?;
    put_4(out, state.pc)?;
    Ok(())
}

/// Writes so many of the newest states, the oldest of them first. `frames` is room for their frames.
pub(crate) fn put_states(
    out: &mut Vec<u8>,
    undo: &Undo,
    memory: &Memory,
    frames: &mut Frames,
    count: u8,
) -> Result<(), AllocError>
    requires are_of { AreOf memory.now frames.old undo.now }
    requires count { count ≤ length undo.now.states }
    ensures { OnOk result (out.new.items ≡ out.old.items ++ states_bytes memory.now.file
        (take count (states_in memory.now.file undo.now))) }
{
    let first = undo.len() - count;
    out.push(count)?;
    for k in 0..count {
        put_state(out, undo, memory, frames, first + k)?;
    }
    Ok(())
}
