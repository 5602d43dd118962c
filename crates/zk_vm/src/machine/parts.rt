// The parts of a machine that waits for a line or a character: for whoever keeps them, and makes a machine of them
// later.

ghost use Rattle.std.specs.Prelude.{◌≡◌, ◌≤◌, ◌<◌, ◌^◌, true, [], None, Ok, IfOk, IfSome, OnSome};
ghost use Rattle.zk_code.specs.Reading.{instr_at};
ghost use Rattle.zk_fast.specs.Caches.{IsCacheOf};
ghost use Rattle.zk_save.specs.States.{states_in, AreOf};
ghost use Rattle.zk_step.specs.Laws.{fixed_parts};
ghost use Rattle.zk_state.specs.Frames.{bounds_of};
ghost use Rattle.zk_vm.specs.Bounds.{setup_of};
ghost use Rattle.zk_vm.specs.Parts.{asking_of, place_of, waiting_with};
ghost use Rattle.zk_vm.specs.Step.{is_read};

use crate::limits::Limits;
use crate::machine::Machine;
use crate::waiting::Waiting;
use arrayvec::ArrayVec;
use std::alloc::{AllocError, Global};
use zk_code::instr::Instr;
use zk_fast::cache::Cache;
use zk_save::undo::Undo;
use zk_step::output::codes::Codes;
use zk_step::state::ending::Event;
use zk_step::state::game_state::GameState;

/// Where a run stands: the byte address of the instruction that waits, how many steps were made since the last
/// read was answered, and how many reads were answered.
#[derive(Clone, Copy, Drop)]
pub struct Place {
    pub pc: u32,
    pub steps: u32,
    pub reads: u32,
}

/// What is waited for, and what its answer reads of the instruction that waits: the byte address after it, and
/// the number of the variable that takes its result.
#[derive(Clone, Copy, Drop)]
pub struct Asking {
    pub event: Event,
    pub next: u32,
    pub store: Option<u8>,
}

impl Machine {
    /// The game state.
    pub fn game(&self) -> &GameState
        ensures { result.now ≡ self.now.state.game }
    {
        &self.game
    }

    /// Where the run stands.
    pub fn place(&self) -> Place
        ensures { result ≡ place_of self.now }
    {
        Place {
            pc: self.pc,
            steps: self.steps,
            reads: self.reads,
        }
    }

    /// The limits that the machine runs within.
    pub fn limits(&self) -> Limits
        ensures { result ≡ self.now.limits }
    {
        self.limits
    }

    /// What is asked for, if the machine waits: then it has no stop, and nothing is due to the transcript.
    pub fn asking(&self) -> Option<Asking>
        ensures { result ≡ asking_of self.now.waiting }
    {
        match &self.waiting {
            Some(waiting) => Some(Asking {
                event: waiting.wait,
                next: waiting.instruction.next,
                store: waiting.instruction.store,
            }),
            None => None,
        }
    }

    /// The bounds of the frames are those of the limits. A machine that waits has no stop, nothing is due to its
    /// transcript, no text is still to come, and its memory tells the story what the limits say.
    pub fn is_whole(&self)
        ensures bounds { bounds_of self.now.state.game.frames
            ≡ (self.now.limits.frames, self.now.limits.words) }
        ensures runs { OnSome (asking_of self.now.waiting) (self.now.stopped ≡ None) }
        ensures due { OnSome (asking_of self.now.waiting) (self.now.state.due ≡ []) }
        ensures shown { OnSome (asking_of self.now.waiting) (self.now.left ≡ None) }
        ensures fetched { IfSome self.now.waiting
            (λ w. instr_at self.now.state.game.memory self.now.state.pc ≡ Ok w.instruction) }
        ensures setup { OnSome (asking_of self.now.waiting)
            (self.now.state.game.memory.setup ≡ setup_of self.now.limits) }
    {
        let _ = &self.limits;
    }

    /// The states to go back to. Those of a machine that waits are of its story, and within its bounds.
    pub fn undo(&self) -> &Undo
        ensures states { self.now.state.undo
            ≡ states_in self.now.state.game.memory.file result.now }
        ensures are_of { OnSome (asking_of self.now.waiting)
            (AreOf self.now.state.game.memory self.now.state.game.frames result.now) }
    {
        &self.undo
    }

    /// A machine that waits for a line or a character, made of its parts. The states to go back to have to be of its
    /// story, and within its bounds.
    pub fn of_parts(
        alloc: Global,
        game: GameState,
        place: Place,
        limits: Limits,
        event: Event,
        instruction: Instr,
        undo: Undo,
    ) -> Result<Machine, AllocError>
        requires read { is_read event ≡ true }
        requires steps { place.steps < limits.steps }
        requires reads { place.reads < 16777216 }
        requires pc { place.pc < 2 ^ 20 }
        requires near { instruction.next ≤ 2 ^ 20 }
        requires inside { 1 ≤ instruction.next }
        requires fetched { instr_at game.memory place.pc ≡ Ok instruction }
        requires bounds { bounds_of game.frames ≡ (limits.frames, limits.words) }
        requires setup { game.memory.setup ≡ setup_of limits }
        requires most { undo.most ≡ limits.undo }
        requires are_of { AreOf game.memory game.frames undo }
        ensures { IfOk result (λ m. m ≡ waiting_with game place limits event instruction
            (states_in game.memory.file undo)) }
    {
        let cache = Cache::new(alloc, &game.memory)?;
        Machine::with_cache(alloc, game, place, limits, event, instruction, undo, cache)
    }

    /// The same with instructions that were decoded before.
    pub(crate) fn with_cache(
        alloc: Global,
        game: GameState,
        place: Place,
        limits: Limits,
        event: Event,
        instruction: Instr,
        undo: Undo,
        cache: Cache,
    ) -> Result<Machine, AllocError>
        requires read { is_read event ≡ true }
        requires steps { place.steps < limits.steps }
        requires reads { place.reads < 16777216 }
        requires pc { place.pc < 2 ^ 20 }
        requires near { instruction.next ≤ 2 ^ 20 }
        requires inside { 1 ≤ instruction.next }
        requires fetched { instr_at game.memory place.pc ≡ Ok instruction }
        requires bounds { bounds_of game.frames ≡ (limits.frames, limits.words) }
        requires setup { game.memory.setup ≡ setup_of limits }
        requires most { undo.most ≡ limits.undo }
        requires are_of { AreOf game.memory game.frames undo }
        requires cached { IsCacheOf (fixed_parts game.memory) cache }
        ensures { IfOk result (λ m. m ≡ waiting_with game place limits event instruction
            (states_in game.memory.file undo)) }
    {
        let codes = Codes::new(alloc)?;
        Ok(Machine {
            game,
            pc: place.pc,
            steps: place.steps,
            reads: place.reads,
            limits,
            waiting: Some(Waiting {
                wait: event,
                instruction,
            }),
            stopped: None,
            due: ArrayVec::new(),
            undo,
            cache,
            codes,
        })
    }
}
