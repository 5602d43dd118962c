// The newest states, to go back to.

ghost use Rattle.std.specs.Prelude.{◌≡◌, ◌<◌, ◌≤◌, ◌^◌, [], ◌∷◌, take, length, reverse, slice_get, Some, None};
ghost use Rattle.std.specs.Prelude.{MatchOption, IsOk, IfOk, OnOk, OnErr};
ghost use Rattle.zk_mem.specs.Map.{MemoryMap};
ghost use Rattle.zk_state.specs.Frames.{FrameList, bounds_of, frames_of};
ghost use Rattle.circular_buffer.specs.Buffer.{buffer};
ghost use Rattle.zk_save.specs.States.{WholeState, state_of, states_in, packed_of, gone_back, AreOf};

use crate::packed_state::{PackedState, StateView};
use circular_buffer::HeapCircularBuffer;
use std::alloc::{AllocError, Global};
use std::marker::Model;
use zk_mem::memory::Memory;
use zk_state::frames::Frames;

/// The newest states of a run, as many as are wanted, at most 64 (Standard, section 15, `save_undo`).
#[derive(Drop)]
pub struct Undo {
    ring: Option<HeapCircularBuffer<PackedState>>,
    most: usize,
    alloc: Global,
}

impl Model for Undo {
    ghost use Rattle.zk_mem.specs.Map.{MemoryMap};
    ghost use Rattle.zk_state.specs.Frames.{FrameList};
    ghost use Rattle.zk_save.specs.States.{UndoStates};

    ghost Value = { UndoStates };

    ghost use Rattle.zk_save.specs.Ring.{undo_seen, IsRing};

    ghost view = { undo_seen };

    ghost invariant = { IsRing };
}

/// Lets a state go.
fn forget(_oldest: Option<PackedState>) {}

/// Puts the states of a ring behind those of another, which has room for them.
fn put_clones(
    alloc: Global,
    ring: &HeapCircularBuffer<PackedState>,
    clones: &mut HeapCircularBuffer<PackedState>,
) -> Result<(), AllocError>
    requires empty { clones.old.items ≡ [] }
    requires room { length ring.now.items ≤ clones.old.capacity }
    ensures { OnOk result (clones.new ≡ buffer ring.now.items clones.old.capacity) }
{
    for k in 0..ring.len() {
        let Some(kept) = ring.get(k) else {
            unreachable!();
        };
        let kept = kept.try_clone(alloc)?;
        forget(clones.push_back(kept));
    }
    Ok(())
}

impl Undo {
    /// No state so far, and room for the newest `most`. For none at all no memory is asked for.
    #[tactic(auto, using(crate::proofs::Wholes::none_of))]
    pub fn new(alloc: Global, most: u8) -> Result<Undo, AllocError>
        requires { most ≤ 64 }
        ensures value { IfOk result (λ u. u ≡ record { states = []; most = most }) }
        ensures none { most ≡ 0 → IsOk result }
        ensures are_of { IfOk result (λ u. (m : MemoryMap) (f : FrameList) → AreOf m f u) }
    {
        let most = most as usize;
        if most == 0 {
            return Ok(Undo {
                ring: None,
                most,
                alloc,
            });
        }
        let ring = HeapCircularBuffer::with_capacity(alloc, most)?;
        Ok(Undo {
            ring: Some(ring),
            most,
            alloc,
        })
    }

    /// The same states, kept once more.
    pub fn try_clone(&self) -> Result<Undo, AllocError>
        ensures { IfOk result (λ u. u ≡ self.now) }
    {
        let mut undo = Undo::new(self.alloc, self.most as u8)?;
        if let (Some(ring), Some(clones)) = (&self.ring, &mut undo.ring) {
            put_clones(self.alloc, ring, clones)?;
        }
        Ok(undo)
    }

    /// How many states there are.
    pub fn len(&self) -> u8
        ensures value { result ≡ length self.now.states }
        ensures few { result ≤ self.now.most }
        ensures most { self.now.most ≤ 64 }
    {
        match &self.ring {
            Some(ring) => ring.len() as u8,
            None => 0,
        }
    }

    /// What is told of the state of a number, where the oldest has number 0. Its frames are put in the place of all.
    /// The states have to be of the same story and bounds.
    pub fn state(&self, memory: &Memory, frames: &mut Frames, number: u8) -> StateView<'_>
        requires are_of { AreOf memory.now frames.old self.now }
        requires number { number < length self.now.states }
        ensures state { (w : WholeState)
            → slice_get (reverse (states_in memory.now.file self.now)) number ≡ Some w
            → (result.packed.now ≡ packed_of memory.now.file w)
            × (frames_of frames.new ≡ w.frames) × (result.pc ≡ w.pc) }
        ensures short { length result.packed.now < 2 ^ 17 }
        ensures bounds { bounds_of frames.new ≡ bounds_of frames.old }
        ensures are_of { AreOf memory.now frames.new self.now }
    {
        memory.dynamic();
        let Some(ring) = &self.ring else {
            unreachable!();
        };
        let Some(kept) = ring.get(number as usize) else {
            unreachable!();
        };
        kept.show(frames)
    }

    /// Keeps the state of a memory and frames that goes on at an address, and drops the oldest state where
    /// there are too many. Where none is wanted, nothing changes, and no memory is asked for. Where there is
    /// no memory, all states stay.
    pub fn put(&mut self, memory: &Memory, frames: &Frames, pc: u32) -> Result<(), AllocError>
        ensures ok { OnOk result (states_in memory.now.file self.new
            ≡ take self.old.most
            (state_of memory.now frames.now pc ∷ states_in memory.now.file self.old)) }
        ensures err { OnErr result (self.new ≡ self.old) }
        ensures none { self.old.most ≡ 0 → IsOk result × (self.new ≡ self.old) }
        ensures most { self.new.most ≡ self.old.most }
        ensures are_of { AreOf memory.now frames.now self.old
            → AreOf memory.now frames.now self.new }
    {
        let alloc = self.alloc;
        let ring = match &mut self.ring {
            Some(ring) => ring,
            None => return Ok(()),
        };
        let kept = PackedState::new(alloc, memory, frames, pc)?;
        forget(ring.push_back(kept));
        Ok(())
    }

    /// The newest state, which is no longer kept.
    fn pop(&mut self) -> Option<PackedState>
        ensures { MatchOption result ((self.old.states ≡ []) × (self.new ≡ self.old))
            (λ k. self.old ≡ record { states = k ∷ self.new.states; most = self.new.most }) }
    {
        let ring = match &mut self.ring {
            Some(ring) => ring,
            None => return None,
        };
        match ring.pop_back() {
            Some(kept) => return Some(kept),
            None => return None,
        }
    }

    /// Goes back to the newest state: memory and frames are put back, the address is told, and the state is no
    /// longer kept. Where there is none, nothing changes. No memory is asked for. The states have to be of
    /// the same story and bounds.
    pub fn take(&mut self, memory: &mut Memory, frames: &mut Frames) -> Option<u32>
        requires { AreOf memory.old frames.old self.old }
        ensures value { MatchOption result ((gone_back (states_in memory.old.file self.old)
            memory.old frames.old ≡ None) × (self.new ≡ self.old)
            × (memory.new ≡ memory.old) × (frames.new ≡ frames.old))
            (λ pc. gone_back (states_in memory.old.file self.old) memory.old frames.old
            ≡ Some (memory.new, frames.new, pc, states_in memory.old.file self.new)) }
        ensures most { self.new.most ≡ self.old.most }
        ensures are_of { AreOf memory.new frames.new self.new }
        ensures story { (memory.new.file ≡ memory.old.file)
            × (memory.new.setup ≡ memory.old.setup) }
    {
        match self.pop() {
            Some(kept) => Some(kept.put_back(memory, frames)),
            None => None,
        }
    }
}
