// A machine is made of its snapshot.

ghost use Rattle.std.specs.Prelude.{◌≡◌, true, take, drop, IfOk, IfErr, IfSome, MatchResult, Some, None};
ghost use Rattle.zk_save.specs.States.{AreOf};
ghost use Rattle.zk_state.specs.Frames.{bounds_of};
ghost use Rattle.zk_snapshot.specs.Opening.{head_refusal, refusal_by, IsMade, IsOpened, IsRefused};
ghost use Rattle.zk_snapshot.specs.Opening.{NothingGone};
ghost use Rattle.zk_vm.specs.Bounds.{AreInRange, setup_of};
ghost use Rattle.zk_vm.specs.Step.{is_read};
ghost use Rattle.zk_snapshot.specs.Snapshots.{story_bytes};

use crate::reading::{
    Front, GameFront, Reader, fill_frames, fill_states, fill_windows, front_in, game_front_in,
    limits_in, put_bytes,
};
use crate::snapshot::whole_snapshot;
use crate::writing::put_story;
use std::alloc::{AllocError, Global};
use thiserror::Error;
use zk_code::decode::decode;
use zk_mem::memory::{Memory, Setup};
use zk_mem::story::Story;
use zk_save::undo::Undo;
use zk_state::frames::Frames;
use zk_step::state::game_state::GameState;
use zk_term::windows::Windows;
use zk_vm::limits::Limits;
use zk_vm::machine::{MOST_READS, Machine};

/// Why bytes are opened as no snapshot, in the order in which it is looked for; lack of memory may come at any
/// time.
#[derive(Clone, Copy, Debug, PartialEq, Eq, Drop, Error)]
pub enum SnapshotError {
    /// The bytes don't begin with the name.
    #[error("this is no snapshot")]
    NotASnapshot,
    /// The version of the format is not known.
    #[error("the snapshot is of another version")]
    OtherVersion,
    /// The length, the release, the serial number, the checksum or the sum of the story is another.
    #[error("the snapshot is of another story")]
    OtherStory,
    /// The first 23 bytes are those of a snapshot of this story, and no machine was made that has all of them as its
    /// snapshot.
    #[error("the snapshot is damaged")]
    Damaged,
    /// There is no memory for the machine.
    #[error("out of memory")]
    OutOfMemory,
}

/// So many bytes from an index on, or as many as there are.
fn part(bytes: &[u8], from: usize, count: usize) -> &[u8]
    ensures { result.now ≡ take count (drop from bytes.now) }
{
    let start = from.min(bytes.len());
    let end = start + count.min(bytes.len() - start);
    &bytes[start..end]
}

/// What a story's file is known by.
fn story_of(alloc: Global, memory: &Memory) -> Result<Vec<u8>, AllocError>
    ensures { IfOk result (λ v. v.items ≡ story_bytes memory.now.file) }
{
    let mut out = Vec::new(alloc);
    put_story(&mut out, memory)?;
    Ok(out)
}

/// Why the first bytes are not those of a snapshot of a story, if so.
#[tactic(auto, unfolding(crate::specs::Opening::head_refusal))]
fn head_refusal(
    alloc: Global,
    memory: &Memory,
    bytes: &[u8],
) -> Result<Option<SnapshotError>, AllocError>
    ensures { IfOk result (λ refusal. refusal ≡ head_refusal memory.now.file bytes.now) }
{
    if part(bytes, 0, 4) != [90, 75, 83, 78].as_slice() {
        return Ok(Some(SnapshotError::NotASnapshot));
    }
    if part(bytes, 4, 1) != [4].as_slice() {
        return Ok(Some(SnapshotError::OtherVersion));
    }
    let story = story_of(alloc, memory)?;
    if part(bytes, 5, 18) != story.as_slice() {
        return Ok(Some(SnapshotError::OtherStory));
    }
    Ok(None)
}

/// A machine with these limits that is made of the bytes after them, if they are of use. Memory and frames are room for
/// each state to go back to, and get their own bytes after these.
fn machine_in(
    alloc: Global,
    mut memory: Memory,
    limits: Limits,
    bytes: &[u8],
) -> Result<Option<Machine>, AllocError>
    requires { memory.setup ≡ setup_of limits }
    ensures { IfOk result (λ found. IfSome found
        (λ m. IsMade memory.file m)) }
{
    let mut reader = Reader::new(bytes);
    let front = front_in(&mut reader);
    if !limits.check() {
        return Ok(None);
    }
    let width = limits.screen.columns;
    let mut windows = Windows::new(alloc, width)?;
    let mut frames = Frames::new(alloc, limits.frames, limits.words)?;
    let mut undo = Undo::new(alloc, limits.undo)?;
    let game_front = game_front_in(&mut reader);
    fill_windows(&mut reader, &mut windows, width);
    let dynamic = reader.take(memory.dynamic().len());
    let mut frames_reader = reader.again();
    fill_frames(&mut reader, &mut frames);
    fill_states(&mut reader, &mut memory, &mut frames, &mut undo)?;
    put_bytes(&mut memory, dynamic);
    fill_frames(&mut frames_reader, &mut frames);
    let game = game_of(game_front, memory, frames, windows);
    waiting_machine(alloc, limits, front, game, undo)
}

/// A game state that is made of its parts.
fn game_of(front: GameFront, memory: Memory, frames: Frames, windows: Windows) -> GameState
    ensures memory { result.memory ≡ memory }
    ensures frames { result.frames ≡ frames }
    ensures windows { result.windows ≡ windows }
{
    GameState {
        frames,
        memory,
        streams: front.streams,
        windows,
        generators: front.generators,
        at_line_start: front.at_line_start,
        view: front.view,
    }
}

/// A machine with this game state that waits, where an instruction stands there and the numbers are within limits.
fn waiting_machine(
    alloc: Global,
    limits: Limits,
    front: Front,
    game: GameState,
    undo: Undo,
) -> Result<Option<Machine>, AllocError>
    requires range { AreInRange limits }
    requires bounds { bounds_of game.frames ≡ (limits.frames, limits.words) }
    requires told { game.memory.setup ≡ setup_of limits }
    requires most { undo.most ≡ limits.undo }
    requires are_of { AreOf game.memory game.frames undo }
    requires read { is_read front.event ≡ true }
    requires gone { NothingGone game.windows }
    ensures { IfOk result (λ found. IfSome found
        (λ m. IsMade game.memory.file m)) }
{
    let place = front.place;
    if place.steps >= limits.steps || place.reads >= MOST_READS || place.pc >= 1_048_576 {
        return Ok(None);
    }
    let Ok(instruction) = decode(&game.memory, place.pc) else {
        return Ok(None);
    };
    let machine = Machine::of_parts(alloc, game, place, limits, front.event, instruction, undo)?;
    Ok(Some(machine))
}

/// The machine whose snapshot some bytes are, or why they are refused, for a memory of a story at its start, which is
/// told what the limits say.
fn opened(
    alloc: Global,
    memory: Memory,
    limits: Limits,
    bytes: &[u8],
) -> Result<Result<Machine, SnapshotError>, AllocError>
    requires { memory.setup ≡ setup_of limits }
    ensures { IfOk result (λ answer. MatchResult answer
        (λ m. IsOpened memory.file bytes.now m)
        (λ e. e ≡ refusal_by (head_refusal memory.file bytes.now))) }
{
    if let Some(error) = head_refusal(alloc, &memory, bytes)? {
        return Ok(Err(error));
    }
    let Some(machine) = machine_in(alloc, memory, limits, part(bytes, 34, bytes.len()))? else {
        return Ok(Err(SnapshotError::Damaged));
    };
    let again = whole_snapshot(alloc, &machine)?;
    if again.as_slice() != bytes {
        return Ok(Err(SnapshotError::Damaged));
    }
    Ok(Ok(machine))
}

/// The machine whose snapshot some bytes are: it waits where the other one waited, for the same answers. The states to
/// go back to are those in the snapshot, and there is no grid that is gone.
///
/// The refusals, in the order in which they are looked for: `NotASnapshot` where the bytes don't begin with the
/// name; `OtherVersion` where another version of the format follows; `OtherStory` where the length, the release,
/// the serial number, the checksum or the sum of the story's file is another; `Damaged` for all others, whose first 23
/// bytes are those of a snapshot of this story. `OutOfMemory` may come in place of each of them. That no snapshot of a
/// machine is taken as damaged is tested, not proved.
#[tactic(auto, using(crate::proofs::Filled::fresh_file, crate::proofs::Filled::fresh_setup))]
pub fn open_snapshot(alloc: Global, story: Story, bytes: &[u8]) -> Result<Machine, SnapshotError>
    ensures ok { IfOk result (λ m. IsOpened story bytes.now m) }
    ensures err { IfErr result (λ e. IsRefused story bytes.now e) }
{
    let limits = limits_in(&mut Reader::new(part(bytes, 23, 11)));
    let setup = Setup {
        undo_states: limits.undo,
        screen: limits.screen,
    };
    let Ok(memory) = Memory::start(alloc, story, setup) else {
        return Err(SnapshotError::OutOfMemory);
    };
    match opened(alloc, memory, limits, bytes) {
        Ok(Ok(machine)) => Ok(machine),
        Ok(Err(error)) => Err(error),
        Err(_) => Err(SnapshotError::OutOfMemory),
    }
}
