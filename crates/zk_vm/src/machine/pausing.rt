// A machine that pauses in the middle of an instruction's text.

ghost use Rattle.std.specs.Prelude.{◌≡◌, ◌≤◌, ◌<◌, ◌+◌, ◌^◌, true, false, [], ◌∷◌, ℕ, Some, None, Ok, Err, IfErr};
ghost use Rattle.std.specs.Prelude.{IfOk, IfSome, MatchResult, OnOk, OnErr, OnSome, is_none, length, option_copied};
ghost use Rattle.zk_code.specs.Reading.{instr_at};
ghost use Rattle.zk_step.specs.Halves.{IsHalf, ShowsSome, rest_text, text_due};
ghost use Rattle.zk_step.specs.Routing.{Signals, on_script};
ghost use Rattle.zk_vm.specs.Answers.{undone};
ghost use Rattle.zk_vm.specs.Changes.{changed_by, IsChanged};
ghost use Rattle.zk_vm.specs.Answers.Answer.{Typed, GameKept, File};
ghost use Rattle.zk_vm.specs.Halts.{CanAnswer, IsKeeping, IsLeftAs, IsLine, IsUndone, KeepsState, event_waited};
ghost use Rattle.zk_vm.specs.Logged.{Ran};
ghost use Rattle.zk_vm.specs.Pausing.{GoneBy, HasCome, IsCut, IsCutAt, IsMade, StandsHalf, WentOn, come_to};
ghost use Rattle.zk_vm.specs.Pausing.{event_reached, prints_text, told_due};
ghost use Rattle.zk_vm.specs.Plays.{AsksForLine};
ghost use Rattle.zk_vm.specs.Sessions.{given, with_grid_forgotten, with_height, with_seed, with_stop};
ghost use Rattle.zk_vm.specs.Step.{is_read};

use crate::machine::changing::Change;
use crate::machine::step::keeps_state;
use crate::machine::{Machine, stop_at};
use crate::stop::Stop;
use crate::transcript::script_all;
use crate::waiting::Halt;
use std::alloc::{AllocError, Global};
use std::marker::Model;
use zk_code::decode::decode;
use zk_code::instr::Instr;
use zk_code::opcode::{Opcode, Printing};
use zk_fast::places::Places;
use zk_mem::fault::Fault;
use zk_state::refusal::Limit;
use zk_step::instruction::{Progress, carry_out_part};
use zk_step::output::codes::Codes;
use zk_step::output::parts::Half;
use zk_step::state::ending::{Event, Next};
use zk_term::screen::Screen;
use zk_term::windows::Windows;

/// What a run has reached.
#[derive(Clone, Copy, Drop)]
pub enum Reached {
    /// The story waits for an answer.
    Answer(Event),
    /// A pause.
    Pause,
    /// An instruction that keeps a state, for which there is no memory.
    NoMemory,
}

/// How far a step has come: a part of its text was shown, it was made, or there is no memory for the state that it
/// keeps.
#[derive(Clone, Copy, Drop)]
enum Stepped {
    Part,
    Done,
    NoMemory,
}

/// Whether an instruction may print a long text, or many rows. Others are carried out at once.
fn prints_text(i: &Instr) -> bool
    ensures { result ≡ prints_text i.now.opcode }
{
    match i.opcode {
        Opcode::Printing(operation) => match operation {
            Printing::Print | Printing::PrintRet => true,
            Printing::PrintAddr | Printing::PrintPaddr | Printing::PrintObj => true,
            Printing::NewLine | Printing::PrintNum => false,
            Printing::PrintChar | Printing::PrintUnicode => false,
        },
        Opcode::Table(_) => true,
        _ => false,
    }
}

/// So many words of text are shown at once, and count as an instruction: some thousand Z-characters.
const WORDS: u32 = 334;

/// A machine that shows a long text, or many rows, in parts: a run may end in their middle, and the next one goes on
/// from there. Contracts see of it the state before the instruction, and what is still to come of its text.
#[derive(Drop)]
pub struct PausingMachine {
    machine: Machine,
    half: Option<Half>,
    // room for what a table of stream 3 gets, and for an upper window
    codes: Codes,
    draft: Windows,
}

impl Model for PausingMachine {
    ghost use Rattle.std.specs.Coded as coded;
    ghost use Rattle.zk_step.specs.contracts.state.game_state.GameState as play;
    ghost use Rattle.zk_vm.specs.Pausing.{pausing_seen, IsPausing};
    ghost use Rattle.zk_vm.specs.Sessions.{Session};

    ghost Value = { Session };

    ghost coded = { Prim.hlevel (coded.codes, play.the_row.coded) };

    ghost view = { pausing_seen };

    ghost invariant = { IsPausing };
}

impl Machine {
    /// A machine has no text left to show.
    #[inline(always)]
    fn is_told(&self)
        ensures { self.now.left ≡ None }
    {
        let _ = &self.limits;
    }

    /// Carries out an instruction that was fetched from the machine's program counter, and keeps no state, or a part of
    /// it: then the machine stands as before.
    fn advance_part<S: Screen>(
        &mut self,
        i: Instr,
        half: &mut Option<Half>,
        codes: &mut Codes,
        draft: &mut Windows,
        screen: &mut S,
    ) -> Result<Stepped, Halt>
        requires room { self.old.state.steps < self.old.limits.steps }
        requires free { self.old.waiting ≡ None }
        requires runs { self.old.stopped ≡ None }
        requires silent { self.old.state.due ≡ [] }
        requires near { i.next ≤ 2 ^ 20 }
        requires inside { self.old.state.pc < i.next }
        requires fetched { instr_at self.old.state.game.memory self.old.state.pc ≡ Ok i }
        requires other { KeepsState i → ⊥ }
        requires half { IfSome half.old (IsHalf self.old.state.game i codes.old draft.old) }
        ensures part { IfOk result (λ p. p ≡ Stepped.Part → (h : Half) × (half.new ≡ Some h)
            × IsCut S.shows screen.old screen.new self.old self.new i half.old codes.new draft.new h) }
        ensures none { IfOk result (λ p. (p ≡ Stepped.Part → ⊥) → half.new ≡ None) }
        ensures over { OnErr result (half.new ≡ None) }
        ensures step { IsMade S.shows screen.old screen.new self.old self.new half.old result }
        ensures silent { OnOk result (self.new.state.due ≡ self.old.state.due) }
        ensures counted { IfOk result (λ p. p ≡ Stepped.Done → self.new.state.steps ≡ self.old.state.steps + 1) }
        ensures reads { self.new.state.reads ≡ self.old.state.reads }
        ensures more { self.old.state.steps ≤ self.new.state.steps }
        ensures limits { self.new.limits ≡ self.old.limits }
    {
        match carry_out_part(&mut self.game, &i, half, codes, draft, screen, Some(WORDS)) {
            Ok(Progress::Part(rest)) => {
                *half = Some(rest);
                Ok(Stepped::Part)
            }
            Ok(Progress::Done(Next::At(pc))) => {
                *half = None;
                self.pc = pc;
                self.steps += 1;
                Ok(Stepped::Done)
            }
            Ok(Progress::Done(Next::Asks(request))) => {
                *half = None;
                match self.meet(request, i, screen) {
                    Ok(()) => Ok(Stepped::Done),
                    Err(halt) => Err(halt),
                }
            }
            Err(refusal) => {
                *half = None;
                let stop = stop_at(self.pc, refusal);
                self.stopped = Some(stop);
                Err(Err(stop))
            }
        }
    }

    /// Carries out the instruction at the machine's program counter, or a part of it: then the machine stands as
    /// before, and so it does where there is no memory for a state.
    fn step_part<S: Screen>(
        &mut self,
        half: &mut Option<Half>,
        codes: &mut Codes,
        draft: &mut Windows,
        screen: &mut S,
    ) -> Result<Stepped, Halt>
        requires room { self.old.state.steps < self.old.limits.steps }
        requires free { self.old.waiting ≡ None }
        requires runs { self.old.stopped ≡ None }
        requires silent { self.old.state.due ≡ [] }
        requires half { IfSome half.old (StandsHalf self.old codes.old draft.old) }
        ensures part { IfOk result (λ p. p ≡ Stepped.Part → (h : Half) × (half.new ≡ Some h)
            × IsCutAt S.shows screen.old screen.new self.old self.new half.old codes.new draft.new h) }
        ensures none { IfOk result (λ p. (p ≡ Stepped.Part → ⊥) → half.new ≡ None) }
        ensures over { OnErr result (half.new ≡ None) }
        ensures step { IsMade S.shows screen.old screen.new self.old self.new half.old result }
        ensures silent { OnOk result (self.new.state.due ≡ self.old.state.due) }
        ensures counted { IfOk result (λ p. p ≡ Stepped.Done → self.new.state.steps ≡ self.old.state.steps + 1) }
        ensures reads { self.new.state.reads ≡ self.old.state.reads }
        ensures more { self.old.state.steps ≤ self.new.state.steps }
        ensures limits { self.new.limits ≡ self.old.limits }
    {
        match decode(&self.game.memory, self.pc) {
            Ok(i) if keeps_state(&i) => {
                *half = None;
                match self.keep(&i) {
                    Ok(Ok(())) => Ok(Stepped::Done),
                    Ok(Err(halt)) => Err(halt),
                    Err(AllocError) => Ok(Stepped::NoMemory),
                }
            }
            Ok(i) if half.is_none() && !prints_text(&i) => match self.advance(i, screen) {
                Ok(()) => Ok(Stepped::Done),
                Err(halt) => Err(halt),
            },
            Ok(i) => self.advance_part(i, half, codes, draft, screen),
            Err(fault) => {
                *half = None;
                let stop = Stop::Fault(self.pc, fault);
                self.stopped = Some(stop);
                Err(Err(stop))
            }
        }
    }

    /// How many steps were made since the last read was answered.
    fn steps_made(&self) -> u32
        ensures value { result ≡ self.now.state.steps }
        ensures within { self.now.state.steps ≤ self.now.limits.steps }
    {
        self.steps
    }

    /// A machine that waits can be answered.
    pub(crate) fn is_answerable(&self)
        ensures { CanAnswer self.now.state self.now.limits self.now.stopped self.now.waiting }
    {
        let _ = &self.waiting;
    }

    /// Why the machine has stopped, if it has.
    fn stop(&self) -> Option<Stop>
        ensures { result ≡ self.now.stopped }
    {
        self.stopped
    }

    /// The transcript gets what it is still to get.
    fn get_due<S: Screen>(&mut self, screen: &mut S)
        ensures due { self.new ≡ told_due self.old }
        ensures shown { S.shows screen.old screen.new (on_script self.old.state.due) }
    {
        script_all(screen, self.due.as_slice());
        self.due.clear();
    }
}

impl PausingMachine {
    /// A machine, which pauses then. It has no text left to show.
    pub fn of(alloc: Global, machine: Machine) -> Result<PausingMachine, AllocError>
        ensures { IfOk result (λ p. p ≡ machine) }
    {
        machine.is_told();
        let codes = Codes::new(alloc)?;
        let draft = Windows::new(alloc, machine.windows().width())?;
        Ok(PausingMachine {
            machine,
            half: None,
            codes,
            draft,
        })
    }

    /// The machine, without what is left of a text.
    pub fn machine(&self) -> &Machine
        ensures value { result.now ≡ record self.now { left = None } }
        ensures whole { OnSome (event_waited self.now.waiting) (self.now.left ≡ None) }
    {
        &self.machine
    }

    /// Makes the steps that show nothing and go on in the story, as many as there may be up to a bound, unless there is
    /// a text to show. Where they stand is noted.
    fn go_ahead<S: Screen, P: Places>(
        &mut self,
        screen: &S,
        places: &mut P,
        bound: u32,
    ) -> Result<(), Halt>
        requires free { self.old.waiting ≡ None }
        requires runs { self.old.stopped ≡ None }
        requires silent { self.old.state.due ≡ [] }
        requires from { self.old.state.steps ≤ bound }
        requires to { bound ≤ self.old.limits.steps }
        requires works { S.failed screen.now ≡ false }
        ensures on { OnOk result (WentOn S.shows 0 screen.now screen.now self.old self.new) }
        ensures ends { IfErr result (λ h. Ran S.shows S.full S.failed (λ l. Unit {0}) screen.now screen.now 0 0
            self.old self.new (Err h)) }
        ensures reads { self.new.state.reads ≡ self.old.state.reads }
        ensures more { self.old.state.steps ≤ self.new.state.steps }
        ensures few { OnOk result (self.new.state.steps ≤ bound) }
        ensures limits { self.new.limits ≡ self.old.limits }
    {
        let None = self.half else {
            return Ok(());
        };
        self.machine.is_told();
        match self.machine.go_ahead(places, bound) {
            Ok(()) => {}
            Err(halt) => {
                self.machine.is_told();
                return Err(halt);
            }
        }
        self.machine.is_told();
        Ok(())
    }

    /// One step, or a part of one. Says how many parts were shown; none where there is no memory for a state: then the
    /// machine stands as before. Where it stands is noted.
    fn step<S: Screen, P: Places>(
        &mut self,
        screen: &mut S,
        places: &mut P,
    ) -> Result<Option<u32>, Halt>
        requires room { self.old.state.steps < self.old.limits.steps }
        requires free { self.old.waiting ≡ None }
        requires runs { self.old.stopped ≡ None }
        requires silent { self.old.state.due ≡ [] }
        requires works { S.failed screen.old ≡ false }
        ensures on { IfOk result (λ shown. IfSome shown
            (λ parts. GoneBy S.shows parts screen.old screen.new self.old self.new)) }
        ensures short { IfOk result (λ shown. shown ≡ None → (self.new ≡ self.old) × IsKeeping self.old.state
            × (screen.new ≡ screen.old)) }
        ensures ends { IfErr result (λ h. Ran S.shows S.full S.failed (λ l. Unit {0}) screen.old screen.new 0 0
            self.old self.new (Err h)) }
        ensures counted { IfOk result (λ shown. IfSome shown
            (λ parts. self.new.state.steps + parts ≡ self.old.state.steps + 1)) }
        ensures reads { self.new.state.reads ≡ self.old.state.reads }
        ensures more { self.old.state.steps ≤ self.new.state.steps }
        ensures limits { self.new.limits ≡ self.old.limits }
    {
        self.machine.is_told();
        places.note(self.machine.pc);
        match self
            .machine
            .step_part(&mut self.half, &mut self.codes, &mut self.draft, screen)
        {
            Ok(Stepped::Part) => return Ok(Some(1)),
            Ok(Stepped::Done) => {
                self.machine.is_told();
                return Ok(Some(0));
            }
            Ok(Stepped::NoMemory) => {
                self.machine.is_told();
                return Ok(None);
            }
            Err(halt) => {
                self.machine.is_told();
                return Err(halt);
            }
        }
    }

    /// Steps up to an event or a stop, `Write` after the step or part of one at which the screen fails; or up to a
    /// pause, once so many steps and parts were made, and after the one at which the screen comes to ask for it, or
    /// before one that keeps a state for which there is no memory. Says whether there is memory. Where they stand is
    /// noted.
    fn steps_in_parts<S: Screen, P: Places>(
        &mut self,
        screen: &mut S,
        places: &mut P,
        most: u32,
    ) -> Result<bool, Halt>
        requires free { self.old.waiting ≡ None }
        requires runs { self.old.stopped ≡ None }
        requires silent { self.old.state.due ≡ [] }
        requires works { S.failed screen.old ≡ false }
        requires room { S.full screen.old ≡ false }
        ensures logged { HasCome S.shows S.full S.failed screen.old screen.new (self.old.state.steps + most)
            self.old self.new result }
        ensures reads { self.new.state.reads ≡ self.old.state.reads }
        ensures more { self.old.state.steps ≤ self.new.state.steps }
        ensures limits { self.new.limits ≡ self.old.limits }
    {
        let end = self.machine.steps_made() as u64 + most as u64;
        let mut parts: u32 = 0;
        for _i in 0..most {
            let limit = self.machine.limits().steps as u64;
            let bound = (end - parts as u64).min(limit) as u32;
            match self.go_ahead(screen, places, bound) {
                Ok(()) => {}
                Err(halt) => return Err(halt),
            }
            if self.machine.steps_made() >= bound {
                return self.pause();
            }
            match self.step(screen, places) {
                Ok(Some(shown)) => parts += shown,
                Ok(None) => return Ok(false),
                Err(halt) => return Err(halt),
            }
            if screen.has_failed() {
                return Err(Err(Stop::Write));
            }
            if screen.is_full() {
                return Ok(true);
            }
        }
        self.pause()
    }

    /// Pauses, unless no step is left. There is memory.
    fn pause(&self) -> Result<bool, Halt>
        ensures { MatchResult result (λ memory. (memory ≡ true) × (self.now.state.steps < self.now.limits.steps))
            (λ halt. (halt ≡ Err (Stop.Limit self.now.state.pc Limit.Steps))
            × (self.now.limits.steps ≤ self.now.state.steps)) }
    {
        match self.machine.pause() {
            Ok(()) => Ok(true),
            Err(halt) => Err(halt),
        }
    }

    /// Runs the story up to the next event, a read or a saved game, or its stop, and answers the same stop from then on
    /// until `close` sets another; or up to a pause, where it answers none, and goes on from there when it is run
    /// again. It pauses once so many instructions were carried out, of which a long text counts one for each part that
    /// was shown of it, and after one at which the screen comes to ask for it. It pauses too before a `save_undo` for
    /// whose state there is no memory. Nothing of an instruction that faults is shown. Where the screen fails, the stop
    /// is `Write`, right after what it showed. It notes where the instructions stand, of which no clause tells. The
    /// machine is not waiting, and the screen does not ask for a pause.
    pub fn run_for<S: Screen, P: Places>(
        &mut self,
        screen: &mut S,
        places: &mut P,
        most: u32,
    ) -> Result<Reached, Stop>
        requires free { self.old.waiting ≡ None }
        requires room { S.full screen.old ≡ false }
        ensures logged { HasCome S.shows S.full S.failed screen.old screen.new (self.old.state.steps + most)
            self.old self.new (come_to result) }
        ensures stops { IfErr result (λ stop. self.new.stopped ≡ Some stop) }
        ensures free { OnErr result (self.new.waiting ≡ None) }
        ensures asks { IfOk result (λ reached. event_waited self.new.waiting ≡ event_reached reached) }
        ensures reads { IfOk result (λ reached. IfSome (event_reached reached)
            (λ event. is_read event ≡ true → self.new.state.reads < 16777216)) }
        ensures same_reads { OnOk result (self.new.state.reads ≡ self.old.state.reads) }
        ensures more { OnOk result (self.old.state.steps ≤ self.new.state.steps) }
        ensures steps { IfOk result (λ reached. OnSome (event_reached reached)
            (self.new.state.steps < self.new.limits.steps)) }
        ensures runs { OnOk result (self.new.stopped ≡ None) }
        ensures limits { self.new.limits ≡ self.old.limits }
    {
        if let Some(stop) = self.machine.stop() {
            return Err(stop);
        }
        self.get_due(screen);
        if screen.has_failed() {
            self.close(Stop::Write);
            return Err(Stop::Write);
        }
        if screen.is_full() {
            return Ok(Reached::Pause);
        }
        match self.steps_in_parts(screen, places, most) {
            Ok(memory) => {
                if memory {
                    return Ok(Reached::Pause);
                }
                Ok(Reached::NoMemory)
            }
            Err(Ok(event)) => {
                self.machine.is_answerable();
                Ok(Reached::Answer(event))
            }
            Err(Err(stop)) => {
                self.close(stop);
                Err(stop)
            }
        }
    }

    /// Ends the machine with a stop, in place of one that it may have. It waits for nothing, and shows nothing more.
    pub fn close(&mut self, stop: Stop)
        ensures { self.new ≡ with_stop self.old stop }
    {
        self.half = None;
        self.machine.close(stop);
    }

    /// The transcript gets what it is still to get.
    fn get_due<S: Screen>(&mut self, screen: &mut S)
        requires free { self.old.waiting ≡ None }
        requires runs { self.old.stopped ≡ None }
        ensures due { self.new ≡ told_due self.old }
        ensures shown { S.shows screen.old screen.new (on_script self.old.state.due) }
    {
        self.machine.get_due(screen);
    }

    /// Answers a read by the codes of a line and the one that ended it, as `Machine::answer_line`.
    pub fn answer_line(&mut self, codes: &[u8], ended: u8)
        requires waits { IsLine (event_waited self.old.waiting) }
        requires few { length codes.now ≤ 255 }
        ensures left { IsLeftAs self.new (given self.old (Typed codes.now ended))
            (given self.old (Typed codes.now ended)).stopped }
    {
        self.half = None;
        self.machine.is_told();
        self.machine.answer_line(codes, ended);
        self.machine.is_told();
    }

    /// Answers a read by the code of a character, as `Machine::answer_char`.
    pub fn answer_char(&mut self, code: u8)
        requires waits { event_waited self.old.waiting ≡ Some Event.Char }
        ensures left { IsLeftAs self.new (given self.old (Typed (code ∷ []) 13))
            (given self.old (Typed (code ∷ []) 13)).stopped }
    {
        self.half = None;
        self.machine.is_told();
        self.machine.answer_char(code);
        self.machine.is_told();
    }

    /// Answers whether a saved game is kept, as `Machine::answer_save`.
    pub fn answer_save(&mut self, kept: bool)
        requires waits { event_waited self.old.waiting ≡ Some Event.Save }
        ensures left { IsLeftAs self.new (given self.old (GameKept kept))
            (given self.old (GameKept kept)).stopped }
    {
        self.half = None;
        self.machine.is_told();
        self.machine.answer_save(kept);
        self.machine.is_told();
    }

    /// Answers by a saved game, or by none, as `Machine::answer_restore`.
    pub fn answer_restore(&mut self, file: Option<&[u8]>)
        requires waits { event_waited self.old.waiting ≡ Some Event.Restore }
        ensures left { IsLeftAs self.new (given self.old (File (option_copied file.entry)))
            (given self.old (File (option_copied file.entry))).stopped }
    {
        self.half = None;
        self.machine.is_told();
        self.machine.answer_restore(file);
        self.machine.is_told();
    }

    /// Goes back to the newest state that is kept, as `Machine::go_back`.
    pub fn go_back(&mut self) -> bool
        requires waits { AsksForLine self.old }
        ensures undone { IsUndone self.old self.new result (undone self.old.state) }
    {
        self.half = None;
        self.machine.is_told();
        let done = self.machine.go_back();
        self.machine.is_told();
        done
    }

    /// Forgets the grid of the upper window that is gone, as `Machine::forget_grid`. The machine waits.
    pub fn forget_grid(&mut self)
        requires { self.old.waiting ≡ None → ⊥ }
        ensures { self.new ≡ with_grid_forgotten self.old }
    {
        self.half = None;
        self.machine.is_told();
        self.machine.forget_grid();
        self.machine.is_told();
    }

    /// Begins the random numbers anew with a seed, as `Machine::reseed`. The machine waits.
    pub fn reseed(&mut self, seed: u64)
        requires { self.old.waiting ≡ None → ⊥ }
        ensures { self.new ≡ with_seed self.old seed }
    {
        self.half = None;
        self.machine.is_told();
        self.machine.reseed(seed);
        self.machine.is_told();
    }

    /// Changes memory, as `Machine::change`. The machine waits.
    pub fn change(&mut self, change: Change) -> Result<(), Fault>
        requires waits { self.old.waiting ≡ None → ⊥ }
        requires above { self.old.state.game.memory.static_base ≤ self.old.state.pc }
        ensures { MatchResult result (λ _. IsChanged change self.old self.new)
            (λ e. (changed_by change self.old.state.game.memory ≡ Err e) × (self.new ≡ self.old)) }
    {
        self.half = None;
        self.machine.is_told();
        let changed = self.machine.change(change);
        self.machine.is_told();
        changed
    }

    /// Gives the upper window so many rows, as `Machine::split`, and says that it has; in the middle of an
    /// instruction's text nothing changes.
    pub fn split(&mut self, lines: u16) -> bool
        ensures split { self.new ≡ with_height self.old lines }
        ensures done { result ≡ is_none self.old.left }
    {
        let None = self.half else {
            return false;
        };
        self.machine.is_told();
        self.machine.split(lines);
        self.machine.is_told();
        true
    }
}
