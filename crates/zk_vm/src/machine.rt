// A machine that runs a story.

ghost use Rattle.std.specs.Prelude.{◌≡◌, ◌≤◌, ◌<◌, ◌+◌, ◌-◌, ◌^◌, true, false, nat_lt, if◌then◌else◌, Some, None, Ok};
ghost use Rattle.std.specs.Prelude.{Err, IfOk};
ghost use Rattle.zk_state.specs.Frames.{IsBounded, bounds_of};
ghost use Rattle.zk_vm.specs.Bounds.{AreInRange};
ghost use Rattle.zk_vm.specs.Going.{stop_by, verdict_by, pc_by, steps_by, stopped_by};
ghost use Rattle.zk_vm.specs.Halts.{event_waited, halt_by};
ghost use Rattle.zk_vm.specs.Laws.{IsWithin};
ghost use Rattle.zk_vm.specs.Sessions.{begun, first_game, with_grid_forgotten, with_height, with_seed, with_stop};
ghost use Rattle.zk_vm.specs.Step.{is_read};

mod answers;
pub mod calls;
pub mod changing;
mod cloning;
pub mod parts;
pub mod pausing;
mod step;

use crate::limits::Limits;
use crate::stop::Stop;
use crate::waiting::{Halt, Waiting};
use arrayvec::ArrayVec;
use std::alloc::{AllocError, Global};
use std::marker::Model;
use zk_fast::cache::Cache;
use zk_mem::memory::{Memory, Setup};
use zk_mem::story::Story;
use zk_save::undo::Undo;
use zk_state::frames::Frames;
use zk_state::refusal::{Limit, Refusal};
use zk_step::output::codes::Codes;
use zk_step::output::streams::Streams;
use zk_step::state::ending::Event;
use zk_step::state::game_state::{GameState, View};
use zk_step::state::random::Generators;
use zk_term::windows::Windows;

/// The most reads that are answered in a run.
pub const MOST_READS: u32 = 16_777_216;

/// A machine that runs a story within limits (Z-Machine Standards Document 1.1). What it shows, and where
/// and why it stops, are those of the Standard's machine up to that stop.
#[derive(Drop)]
pub struct Machine {
    game: GameState,
    pc: u32,
    steps: u32,
    reads: u32,
    limits: Limits,
    waiting: Option<Waiting>,
    stopped: Option<Stop>,
    // what the transcript is still to get of the line that was read
    due: ArrayVec<char, 511>,
    undo: Undo,
    // instructions that were decoded before: what a run does is not seen to depend on them
    cache: Cache,
    // room for what a table of stream 3 gets in a step
    codes: Codes,
}

impl Model for Machine {
    ghost use Rattle.std.specs.Prelude.{◌≤◌, ◌≡◌, None};
    ghost use Rattle.zk_state.specs.Frames.{bounds_of};
    ghost use Rattle.zk_save.specs.States.{states_in, AreOf};
    ghost use Rattle.zk_vm.specs.Halts.{CanAnswer, WhileRunning};
    ghost use Rattle.zk_vm.specs.Sessions.{Session};
    ghost use Rattle.zk_vm.specs.Sound.{state_seen, IsSound};
    ghost use Rattle.std.specs.Coded as coded;
    ghost use Rattle.zk_step.specs.contracts.state.game_state.GameState as play;

    ghost Value = { Session };

    ghost coded = { Prim.hlevel (coded.codes, play.the_row.coded) };

    ghost view = { λ m. record
        { state = state_seen m; limits = m.limits; waiting = m.waiting; stopped = m.stopped; left = None } };

    ghost invariant = { IsSound };
}

/// The game state that a story begins with. `seed` begins its random numbers.
fn fresh_game(
    alloc: Global,
    story: Story,
    seed: u64,
    limits: Limits,
    view: View,
) -> Result<GameState, AllocError>
    requires { AreInRange limits }
    ensures { IfOk result (λ w. w ≡ first_game story seed limits view) }
{
    let setup = Setup {
        undo_states: limits.undo,
        screen: limits.screen,
    };
    let frames = Frames::new(alloc, limits.frames, limits.words)?;
    let memory = Memory::start(alloc, story, setup)?;
    let windows = Windows::new(alloc, limits.screen.columns)?;
    let generators = Generators {
        free: seed,
        predictable: None,
    };
    Ok(GameState {
        memory,
        frames,
        streams: Streams::new(),
        windows,
        generators,
        at_line_start: true,
        view,
    })
}

impl Machine {
    /// A machine at the start of a story. `seed` begins its random numbers, and `view` says what it shows of
    /// the status line and the upper window.
    #[tactic(auto, unfolding(crate::specs::Sessions::begun, zk_save::specs::States::states_in))]
    pub fn start(
        alloc: Global,
        story: Story,
        seed: u64,
        limits: Limits,
        view: View,
    ) -> Result<Machine, AllocError>
        requires { AreInRange limits }
        ensures { IfOk result (λ m. m ≡ begun story seed limits view) }
    {
        let pc = story.header().first_instruction as u32;
        let game = fresh_game(alloc, story, seed, limits, view)?;
        let undo = Undo::new(alloc, limits.undo)?;
        let cache = Cache::new(alloc, &game.memory)?;
        let codes = Codes::new(alloc)?;
        Ok(Machine {
            game,
            pc,
            steps: 0,
            reads: 0,
            limits,
            waiting: None,
            stopped: None,
            due: ArrayVec::new(),
            undo,
            cache,
            codes,
        })
    }

    /// There are no more frames, words, steps, reads and states to go back to than the limits say.
    #[inline(always)]
    pub(crate) fn is_within(&self)
        ensures bounded { IsBounded self.now.state.game.frames }
        ensures within { IsWithin self.now.limits self.now.state }
    {
        let _ = &self.limits;
        self.undo.len();
        self.game.frames.is_bounded();
    }

    /// What the machine waits for.
    pub fn waiting(&self) -> Option<Event>
        ensures { result ≡ event_waited self.now.waiting }
    {
        match &self.waiting {
            Some(waiting) => Some(waiting.wait),
            None => None,
        }
    }

    /// The memory of the story.
    pub fn memory(&self) -> &Memory
        ensures { result.now ≡ self.now.state.game.memory }
    {
        &self.game.memory
    }

    /// The upper window of the screen.
    pub fn windows(&self) -> &Windows
        ensures { result.now ≡ self.now.state.game.windows }
    {
        &self.game.windows
    }

    /// Forgets the grid of the upper window that is gone, which nothing but the host's screen looks at.
    pub fn forget_grid(&mut self)
        ensures { self.new ≡ with_grid_forgotten self.old }
    {
        self.game.windows.forget();
    }

    /// Gives the upper window so many rows, as the story's `split_window` would (Z-Machine Standards Document 1.1,
    /// section 15).
    pub fn split(&mut self, lines: u16)
        ensures { self.new ≡ with_height self.old lines }
    {
        self.game.windows.split(self.game.memory.version(), lines);
    }

    /// Begins the random numbers anew with a seed. Those that the story itself has made predictable stay so (Z-Machine
    /// Standards Document 1.1, section 15, `random`).
    pub fn reseed(&mut self, seed: u64)
        ensures { self.new ≡ with_seed self.old seed }
    {
        self.game.generators.free = seed;
    }

    /// Ends the machine with a stop, in place of one that it may have. It waits for nothing.
    pub fn close(&mut self, stop: Stop)
        ensures { self.new ≡ with_stop self.old stop }
    {
        self.waiting = None;
        self.stopped = Some(stop);
    }
}

/// Whether a line or a character is waited for.
pub fn is_read(event: Event) -> bool
    ensures { result ≡ is_read event }
{
    match event {
        Event::Line(_, _) | Event::Char => true,
        Event::Save | Event::Restore => false,
    }
}

/// Where a run goes on from a state that is saved at an address, by an instruction with `next` after it: its branch
/// in version 3, its store byte from version 4 on (Quetzal 1.4, section 5).
pub(crate) fn pc_of_save(version: u8, pc: u32, next: u32) -> u32
    requires pc { pc < 2 ^ 20 }
    requires next { 1 ≤ next }
    ensures { result ≡ (if nat_lt version 4 then pc + 1 else next - 1) }
{
    if version < 4 { pc + 1 } else { next - 1 }
}

/// The stop of an instruction at an address that is refused.
pub(crate) fn stop_at(pc: u32, refusal: Refusal) -> Stop
    ensures { result ≡ stop_by pc refusal }
{
    match refusal {
        Refusal::Fault(fault) => Stop::Fault(pc, fault),
        Refusal::Limit(limit) => Stop::Limit(pc, limit),
    }
}

/// Stops a machine.
pub(crate) fn halt(stopped: &mut Option<Stop>, stop: Stop) -> Result<(), Halt>
    ensures value { result ≡ Err (Err stop) }
    ensures stopped { stopped.new ≡ Some stop }
{
    *stopped = Some(stop);
    Err(Err(stop))
}

/// Goes on by one step where an instruction leads that was finished in silence, or stops.
pub(crate) fn go_on(
    pc: &mut u32,
    steps: &mut u32,
    stopped: &mut Option<Stop>,
    led: Result<u32, Refusal>,
) -> Result<(), Halt>
    requires { steps.old + 1 < 2 ^ 32 }
    ensures value { result ≡ halt_by (verdict_by pc.old led) }
    ensures pc { pc.new ≡ pc_by pc.old led }
    ensures steps { steps.new ≡ steps_by steps.old led }
    ensures more { steps.old ≤ steps.new }
    ensures stopped { stopped.new ≡ stopped_by stopped.old (verdict_by pc.old led) }
{
    match led {
        Ok(next) => {
            *pc = next;
            *steps += 1;
            Ok(())
        }
        Err(refusal) => halt(stopped, stop_at(*pc, refusal)),
    }
}
