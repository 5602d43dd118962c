// A machine that waits is kept as bytes.

ghost use Rattle.std.specs.Prelude.{◌≡◌, ◌≤◌, ◌-◌, ◌^◌, ◌++◌, ◌↔◌, IsTrue, IfOk, OnOk, length, min, take};
ghost use Rattle.zk_state.specs.Frames.{bounds_of};
ghost use Rattle.zk_snapshot.specs.Snapshots.{asking_bytes, body_bytes, snapshot_of, snapshot_with, longest_of};
ghost use Rattle.zk_snapshot.specs.Snapshots.{HasSnapshot};

use crate::states::{fitting, put_states, room_for};
use crate::sums::sum_of;
use crate::writing::{put_4, put_event, put_game, put_head, put_limits, put_place, put_store};
use std::alloc::{AllocError, Global};
use zk_state::frames::Frames;
use zk_vm::machine::parts::Asking;
use zk_vm::machine::{Machine, is_read};

/// Writes what is asked for, if anything is.
#[tactic(auto, unfolding(crate::specs::Snapshots::asking_bytes))]
fn put_asking(out: &mut Vec<u8>, asking: Option<Asking>) -> Result<(), AllocError>
    ensures { OnOk result (out.new.items ≡ out.old.items ++ asking_bytes asking) }
{
    if let Some(asking) = asking {
        put_event(out, asking.event)?;
        put_4(out, asking.next)?;
        put_store(out, asking.store)?;
    }
    Ok(())
}

/// All of a snapshot but its sum, with so many of the newest states. `frames` is room for their frames.
#[tactic(auto, unfolding(crate::specs::Snapshots::body_bytes), using(crate::proofs::Kept::are_there))]
fn body_of(
    alloc: Global,
    machine: &Machine,
    frames: &mut Frames,
    count: u8,
) -> Result<Vec<u8>, AllocError>
    requires waits { HasSnapshot machine.now }
    requires bounds { bounds_of frames.old ≡ bounds_of machine.now.state.game.frames }
    requires count { count ≤ length machine.now.state.undo }
    ensures { IfOk result
        (λ v. v.items ≡ body_bytes (take count machine.now.state.undo) machine.now) }
{
    let game = machine.game();
    let mut out = Vec::new(alloc);
    put_head(&mut out, &game.memory)?;
    put_limits(&mut out, machine.limits())?;
    put_place(&mut out, machine.place())?;
    put_asking(&mut out, machine.asking())?;
    put_game(&mut out, game)?;
    put_states(&mut out, machine.undo(), &game.memory, frames, count)?;
    Ok(out)
}

/// The snapshot with so many of the newest states. `frames` is room for their frames.
#[tactic(auto, unfolding(crate::specs::Snapshots::snapshot_with))]
fn with_states(
    alloc: Global,
    machine: &Machine,
    frames: &mut Frames,
    count: u8,
) -> Result<Vec<u8>, AllocError>
    requires waits { HasSnapshot machine.now }
    requires bounds { bounds_of frames.old ≡ bounds_of machine.now.state.game.frames }
    requires count { count ≤ length machine.now.state.undo }
    ensures { IfOk result
        (λ v. v.items ≡ snapshot_with (take count machine.now.state.undo) machine.now) }
{
    let mut out = body_of(alloc, machine, frames, count)?;
    let sum = sum_of(out.as_slice());
    put_4(&mut out, sum)?;
    Ok(out)
}

/// The snapshot with all states.
pub(crate) fn whole_snapshot(alloc: Global, machine: &Machine) -> Result<Vec<u8>, AllocError>
    requires { HasSnapshot machine.now }
    ensures { IfOk result
        (λ v. v.items ≡ snapshot_with machine.now.state.undo machine.now) }
{
    let mut frames = room_for(alloc, &machine.game().frames)?;
    with_states(alloc, machine, &mut frames, machine.undo().len())
}

/// Whether a machine has a snapshot: it waits for a line or a character.
#[tactic(auto, using(crate::proofs::Waits::has_by, crate::proofs::Waits::read_by, crate::proofs::Waits::not_by))]
pub fn has_snapshot(machine: &Machine) -> bool
    ensures { IsTrue result ↔ HasSnapshot machine.now }
{
    match machine.waiting() {
        Some(event) => is_read(event),
        None => false,
    }
}

/// The snapshot of a machine that waits for a line or a character, as `has_snapshot` says: bytes from which
/// `open_snapshot` makes a machine that waits there. Of the states to go back to it keeps the newest, up to the first
/// whose bytes are more than is left of `most`.
pub fn snapshot(alloc: Global, machine: &Machine, most: usize) -> Result<Vec<u8>, AllocError>
    requires { HasSnapshot machine.now }
    ensures value { IfOk result (λ v. v.items ≡ snapshot_of most machine.now) }
    ensures short { IfOk result (λ v. length v.items ≤ longest_of machine.now.limits
        machine.now.state.game.memory.static_base most) }
{
    let game = machine.game();
    machine.is_whole();
    game.frames.is_bounded();
    game.streams.tables();
    let mut frames = room_for(alloc, &game.frames)?;
    let count = fitting(machine.undo(), &game.memory, &mut frames, most);
    with_states(alloc, machine, &mut frames, count)
}

/// How many bytes a snapshot of a machine has at most, with so many bytes of states to go back to: each one that
/// `snapshot` makes of it, whatever is played before.
#[tactic(auto, unfolding(crate::specs::Snapshots::longest_of))]
pub fn longest_snapshot(machine: &Machine, most: usize) -> usize
    ensures { result ≡ min (longest_of machine.now.limits
        machine.now.state.game.memory.static_base most)
        (2 ^ 64 - 1) }
{
    let limits = machine.limits();
    let room = 10 * limits.frames as usize + 2 * limits.words as usize;
    most.saturating_add(260513 + machine.memory().dynamic().len() + room)
}
