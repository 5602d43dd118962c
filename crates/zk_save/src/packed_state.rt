// A state that is kept.

ghost use Rattle.std.specs.Prelude.{◌≡◌, ◌≤◌, List, ◌∷◌, Some, IfOk, length};
ghost use Rattle.zk_state.specs.Frames.{bounds_of, sizes_of, with_frames};
ghost use Rattle.zk_save.specs.Packing.{packed};
ghost use Rattle.zk_save.specs.States.{WholeState, state_of, whole_state, gone_back, IsOf};

use crate::packing::{pack_difference, turn};
use std::alloc::{AllocError, Global};
use std::marker::Model;
use zk_mem::memory::Memory;
use zk_state::frames::{Frames, FramesCopy};

/// What is told of a state that is kept: what dynamic memory differs in from the story file, packed, and the address
/// where the run goes on.
#[derive(Clone, Copy, Drop)]
pub struct StateView<'a> {
    pub packed: &'a [u8],
    pub pc: u32,
}

/// A state that is kept: what dynamic memory differs in from the story file, packed, a copy of all frames,
/// and the address where the run goes on.
#[derive(Drop)]
pub(crate) struct PackedState {
    packed: Vec<u8>,
    // how many bytes are packed
    length: usize,
    frames: FramesCopy,
    pc: u32,
}

impl Model for PackedState {
    ghost use Rattle.zk_save.specs.States.{KeptState};

    ghost Value = { KeptState };

    ghost use Rattle.zk_save.specs.Ring.{kept_seen, IsPacked};

    ghost view = { kept_seen };

    ghost invariant = { IsPacked };
}

impl PackedState {
    /// The state of a memory and frames, to be kept.
    pub(crate) fn new(
        alloc: Global,
        memory: &Memory,
        frames: &Frames,
        pc: u32,
    ) -> Result<PackedState, AllocError>
        ensures state { IfOk result
            (λ k. whole_state memory.now.file k ≡ state_of memory.now frames.now pc) }
        ensures is_of { IfOk result
            (IsOf memory.now.static_base frames.now.most_frames frames.now.most_words) }
    {
        frames.is_bounded();
        let dynamic = memory.dynamic();
        let packed = pack_difference(alloc, dynamic, memory.original())?;
        let frames = frames.copy(alloc)?;
        Ok(PackedState {
            packed,
            length: dynamic.len(),
            frames,
            pc,
        })
    }

    /// The same state, kept once more.
    pub(crate) fn try_clone(&self, alloc: Global) -> Result<PackedState, AllocError>
        ensures { IfOk result (λ k. k ≡ self.now) }
    {
        let packed = Vec::from_slice(alloc, self.packed.as_slice())?;
        let frames = self.frames.try_clone(alloc)?;
        Ok(PackedState {
            packed,
            length: self.length,
            frames,
            pc: self.pc,
        })
    }

    /// Puts the state's memory and frames in the place of these, and tells where the run goes on.
    pub(crate) fn put_back(&self, memory: &mut Memory, frames: &mut Frames) -> u32
        requires { IsOf memory.old.static_base frames.old.most_frames frames.old.most_words
            self.now }
        ensures state { (others : List WholeState) → gone_back
            (whole_state memory.old.file self.now ∷ others) memory.old frames.old
            ≡ Some (memory.new, frames.new, result, others) }
        ensures base { memory.new.static_base ≡ memory.old.static_base }
        ensures bounds { bounds_of frames.new ≡ bounds_of frames.old }
        ensures story { (memory.new.file ≡ memory.old.file)
            × (memory.new.setup ≡ memory.old.setup) }
    {
        let _ = memory.dynamic();
        let flags = memory.flags();
        memory.reset();
        turn(self.packed.as_slice(), memory);
        memory.settle(flags);
        frames.put_back(&self.frames);
        self.pc
    }
    /// What is told of the state. Its frames are put in the place of all, of which there may be as many.
    pub(crate) fn show(&self, frames: &mut Frames) -> StateView<'_>
        requires frames { length self.now.frames ≤ frames.old.most_frames }
        requires words { sizes_of self.now.frames ≤ frames.old.most_words }
        ensures packed { result.packed.now ≡ packed self.now.difference }
        ensures pc { result.pc ≡ self.now.pc }
        ensures frames { frames.new ≡ with_frames frames.old self.now.frames }
    {
        let copy = &self.frames;
        frames.put_back(copy);
        StateView {
            packed: self.packed.as_slice(),
            pc: self.pc,
        }
    }
}
