// A machine's run: step after step, up to what is waited for or the stop.

ghost use Rattle.std.specs.Prelude.{◌≡◌, ◌↔◌, ◌≤◌, ◌<◌, ◌+◌, ◌-◌, ◌^◌, ◌⊎◌, true, false, [], if◌then◌else◌, Some, None};
ghost use Rattle.std.specs.Prelude.{Ok, Err, IfErr, IfOk, IfSome, IsTrue, OnOk, OnSome, OnErr, MatchResult};
ghost use Rattle.zk_state.specs.Frames.{IsBounded};
ghost use Rattle.zk_code.specs.Reading.{instr_at};
ghost use Rattle.zk_step.specs.Routing.{no_signals, on_script};
ghost use Rattle.zk_vm.specs.Going.{IsAhead, Settles};
ghost use Rattle.zk_vm.specs.Halts.{IsKeeping, IsStep, KeepsState, event_waited};
ghost use Rattle.zk_vm.specs.Laws.{IsWithin};
ghost use Rattle.zk_vm.specs.Logged.{Ran, halted};
ghost use Rattle.zk_vm.specs.Step.{asked, is_read, text_of};

use crate::machine::{MOST_READS, Machine, go_on, halt, is_read, pc_of_save, stop_at};
use crate::stop::Stop;
use crate::transcript::script_all;
use crate::waiting::{Halt, Waiting};
use std::alloc::AllocError;
use zk_code::decode::decode;
use zk_code::instr::Instr;
use zk_code::opcode::{Opcode, Saving};
use zk_fast::ahead::run_ahead;
use zk_fast::places::Places;
use zk_state::refusal::Limit;
use zk_step::input::inputs::answer_result;
use zk_step::instruction::carry_out;
use zk_step::output::view::{check_view, show_view};
use zk_step::state::ending::{Event, Next, Request};
use zk_step::state::resuming::resume;
use zk_step::state::values::{give_back, read_operands};
use zk_term::screen::Screen;

/// Whether an instruction keeps a state to go back to.
pub(crate) fn keeps_state(i: &Instr) -> bool
    ensures { IsTrue result ↔ KeepsState i.now }
{
    match i.opcode {
        Opcode::Saving(Saving::SaveUndo) => true,
        _ => false,
    }
}

impl Machine {
    /// Runs the story up to the next event, a read or a saved game, or its stop, and answers the same stop
    /// from then on until `close` sets another. Notes where the instructions stand that it carries out. Nothing of an
    /// instruction that faults is shown. Where there is no memory for a state that `save_undo` keeps, the stop is
    /// `Memory`, before that instruction. Where the screen fails, the stop is `Write`, right after the step that showed
    /// something. It is not waiting, and the screen never asks for a pause.
    pub fn run<S: Screen, P: Places>(
        &mut self,
        screen: &mut S,
        places: &mut P,
    ) -> Result<Event, Stop>
        requires free { self.old.waiting ≡ None }
        requires endless { (a : S) → S.full a ≡ false }
        ensures logged { Ran S.shows S.full S.failed (P.noted places.old places.new) screen.old screen.new
            self.old.limits.steps 0 self.old self.new (Err result) }
        ensures stops { IfErr result (λ stop. self.new.stopped ≡ Some stop) }
        ensures free { OnErr result (self.new.waiting ≡ None) }
        ensures asks { IfOk result (λ event. event_waited self.new.waiting ≡ Some event) }
        ensures reads { IfOk result
            (λ event. is_read event ≡ true → self.new.state.reads < 16777216) }
        ensures same_reads { OnOk result (self.new.state.reads ≡ self.old.state.reads) }
        ensures steps { OnOk result ((self.old.state.steps ≤ self.new.state.steps)
            × (self.new.state.steps < self.new.limits.steps)) }
        ensures runs { OnOk result (self.new.stopped ≡ None) }
        ensures limits { self.new.limits ≡ self.old.limits }
        ensures frames { IsBounded self.new.state.game.frames }
        ensures within { IsWithin self.new.limits self.new.state }
    {
        match self.run_up_to(screen, places, u32::MAX) {
            Ok(Some(event)) => Ok(event),
            Ok(None) => unreachable!(),
            Err(stop) => Err(stop),
        }
    }

    /// Runs the story as `run` does, but pauses after so many instructions, and after a step at which the screen comes
    /// to ask for it: then it answers none. It is not waiting, and the screen does not ask for a pause.
    fn run_up_to<S: Screen, P: Places>(
        &mut self,
        screen: &mut S,
        places: &mut P,
        most: u32,
    ) -> Result<Option<Event>, Stop>
        requires free { self.old.waiting ≡ None }
        requires room { S.full screen.old ≡ false }
        ensures logged { Ran S.shows S.full S.failed (P.noted places.old places.new) screen.old screen.new
            (self.old.state.steps + most) 0 self.old self.new (halted result) }
        ensures stops { IfErr result (λ stop. self.new.stopped ≡ Some stop) }
        ensures free { OnErr result (self.new.waiting ≡ None) }
        ensures asks { IfOk result (λ event. event_waited self.new.waiting ≡ event) }
        ensures reads { IfOk result (λ asked. IfSome asked
            (λ event. is_read event ≡ true → self.new.state.reads < 16777216)) }
        ensures same_reads { OnOk result (self.new.state.reads ≡ self.old.state.reads) }
        ensures more { OnOk result (self.old.state.steps ≤ self.new.state.steps) }
        ensures steps { IfOk result
            (λ asked. OnSome asked (self.new.state.steps < self.new.limits.steps)) }
        ensures runs { OnOk result (self.new.stopped ≡ None) }
        ensures word { self.old.limits.steps < 2 ^ 32 }
        ensures limits { self.new.limits ≡ self.old.limits }
        ensures frames { IsBounded self.new.state.game.frames }
        ensures within { IsWithin self.new.limits self.new.state }
    {
        if let Some(stop) = self.stopped {
            self.is_within();
            return Err(stop);
        }
        script_all(screen, self.due.as_slice());
        self.due.clear();
        if screen.has_failed() {
            self.stopped = Some(Stop::Write);
            self.is_within();
            return Err(Stop::Write);
        }
        if screen.is_full() {
            self.is_within();
            return Ok(None);
        }
        match self.steps_to_pause(screen, places, most) {
            Ok(()) => {
                self.is_within();
                Ok(None)
            }
            Err(Ok(event)) => {
                self.is_within();
                Ok(Some(event))
            }
            Err(Err(stop)) => {
                self.stopped = Some(stop);
                self.is_within();
                Err(stop)
            }
        }
    }

    /// Steps up to an event or a stop, `Write` after the step at which the screen fails; or up to a pause, once so many
    /// steps were made, and after the step at which the screen comes to ask for it. Where they stand is noted.
    fn steps_to_pause<S: Screen, P: Places>(
        &mut self,
        screen: &mut S,
        places: &mut P,
        most: u32,
    ) -> Result<(), Halt>
        requires free { self.old.waiting ≡ None }
        requires runs { self.old.stopped ≡ None }
        requires silent { self.old.state.due ≡ [] }
        requires works { S.failed screen.old ≡ false }
        requires room { S.full screen.old ≡ false }
        ensures logged { Ran S.shows S.full S.failed (P.noted places.old places.new) screen.old screen.new
            (self.old.state.steps + most) 0 self.old self.new result }
        ensures reads { self.new.state.reads ≡ self.old.state.reads }
        ensures more { self.old.state.steps ≤ self.new.state.steps }
        ensures limits { self.new.limits ≡ self.old.limits }
    {
        let bound = self.steps.saturating_add(most).min(self.limits.steps);
        for _i in self.steps..bound {
            match self.go_ahead(places, bound) {
                Ok(()) => {}
                Err(halt) => return Err(halt),
            }
            if self.steps >= bound {
                return self.pause();
            }
            places.note(self.pc);
            match self.step(screen) {
                Ok(()) => {}
                Err(halt) => return Err(halt),
            }
            if screen.has_failed() {
                return Err(Err(Stop::Write));
            }
            if screen.is_full() {
                return Ok(());
            }
        }
        self.pause()
    }

    /// Pauses, unless no step is left.
    pub(crate) fn pause(&self) -> Result<(), Halt>
        ensures { MatchResult result (λ _. self.now.state.steps < self.now.limits.steps)
            (λ halt. (halt ≡ Err (Stop.Limit self.now.state.pc Limit.Steps))
            × (self.now.limits.steps ≤ self.now.state.steps)) }
    {
        if self.steps < self.limits.steps {
            Ok(())
        } else {
            Err(Err(Stop::Limit(self.pc, Limit::Steps)))
        }
    }

    /// Makes the steps that show nothing and go on in the story, as many as there may be up to a bound, by instructions
    /// that are kept.
    pub(crate) fn go_ahead<P: Places>(&mut self, places: &mut P, bound: u32) -> Result<(), Halt>
        requires free { self.old.waiting ≡ None }
        requires runs { self.old.stopped ≡ None }
        requires from { self.old.state.steps ≤ bound }
        requires to { bound ≤ self.old.limits.steps }
        ensures ahead { IsAhead (P.noted places.old places.new) self.old self.new result }
        ensures reads { self.new.state.reads ≡ self.old.state.reads }
        ensures more { self.old.state.steps ≤ self.new.state.steps }
        ensures few { OnOk result (self.new.state.steps ≤ bound) }
        ensures limits { self.new.limits ≡ self.old.limits }
    {
        let most = bound - self.steps;
        let batch = run_ahead(&mut self.game, &mut self.cache, places, self.pc, most);
        self.pc = batch.pc;
        self.steps += batch.made;
        match batch.refused {
            None => Ok(()),
            Some(refusal) => halt(&mut self.stopped, stop_at(batch.pc, refusal)),
        }
    }

    /// One step.
    fn step<S: Screen>(&mut self, screen: &mut S) -> Result<(), Halt>
        requires room { self.old.state.steps < self.old.limits.steps }
        requires free { self.old.waiting ≡ None }
        requires runs { self.old.stopped ≡ None }
        requires silent { self.old.state.due ≡ [] }
        ensures step { IsStep self.old self.new result
            (λ t. S.shows screen.old screen.new t) }
        ensures counted { OnOk result (self.new.state.steps ≡ self.old.state.steps + 1) }
        ensures silent { OnOk result (self.new.state.due ≡ self.old.state.due) }
        ensures reads { self.new.state.reads ≡ self.old.state.reads }
        ensures more { self.old.state.steps ≤ self.new.state.steps }
        ensures limits { self.new.limits ≡ self.old.limits }
    {
        match decode(&self.game.memory, self.pc) {
            Ok(i) if keeps_state(&i) => match self.keep(&i) {
                Ok(went) => went,
                Err(AllocError) => Err(Err(Stop::Memory)),
            },
            Ok(i) => self.advance(i, screen),
            Err(fault) => halt(&mut self.stopped, Stop::Fault(self.pc, fault)),
        }
    }

    /// Carries out an instruction that was fetched from the machine's program counter, and keeps no state.
    pub(crate) fn advance<S: Screen>(&mut self, i: Instr, screen: &mut S) -> Result<(), Halt>
        requires room { self.old.state.steps < self.old.limits.steps }
        requires free { self.old.waiting ≡ None }
        requires runs { self.old.stopped ≡ None }
        requires silent { self.old.state.due ≡ [] }
        requires near { i.next ≤ 2 ^ 20 }
        requires inside { self.old.state.pc < i.next }
        requires fetched { instr_at self.old.state.game.memory self.old.state.pc ≡ Ok i }
        requires other { KeepsState i → ⊥ }
        ensures step { IsStep self.old self.new result
            (λ t. S.shows screen.old screen.new t) }
        ensures counted { OnOk result (self.new.state.steps ≡ self.old.state.steps + 1) }
        ensures silent { OnOk result (self.new.state.due ≡ self.old.state.due) }
        ensures reads { self.new.state.reads ≡ self.old.state.reads }
        ensures more { self.old.state.steps ≤ self.new.state.steps }
        ensures limits { self.new.limits ≡ self.old.limits }
    {
        match carry_out(&mut self.game, &i, &mut self.codes, screen) {
            Ok(Next::At(pc)) => {
                self.pc = pc;
                self.steps += 1;
                Ok(())
            }
            Ok(Next::Asks(request)) => self.meet(request, i, screen),
            Err(refusal) => halt(&mut self.stopped, stop_at(self.pc, refusal)),
        }
    }

    /// Does what an instruction asks for that keeps no state.
    pub(crate) fn meet<S: Screen>(
        &mut self,
        request: Request,
        i: Instr,
        screen: &mut S,
    ) -> Result<(), Halt>
        requires room { self.old.state.steps < self.old.limits.steps }
        requires free { self.old.waiting ≡ None }
        requires runs { self.old.stopped ≡ None }
        requires silent { self.old.state.due ≡ [] }
        requires near { i.next ≤ 2 ^ 20 }
        requires inside { self.old.state.pc < i.next }
        requires fetched { instr_at self.old.state.game.memory self.old.state.pc ≡ Ok i }
        requires other { request ≡ Request.SaveUndo → ⊥ }
        ensures step { Settles self.old self.new result
            (asked self.old.state i self.old.state.game request) }
        ensures text { S.shows screen.old screen.new
            (text_of self.old.state (asked self.old.state i self.old.state.game request)) }
        ensures counted { OnOk result (self.new.state.steps ≡ self.old.state.steps + 1) }
        ensures silent { OnOk result (self.new.state.due ≡ self.old.state.due) }
        ensures reads { self.new.state.reads ≡ self.old.state.reads }
        ensures more { self.old.state.steps ≤ self.new.state.steps }
        ensures limits { self.new.limits ≡ self.old.limits }
    {
        match request {
            Request::Answer(event) => self.wait_for(event, i, screen),
            Request::SaveUndo => unreachable!(),
            Request::RestoreUndo => self.restore_undo(&i),
            Request::Quit => halt(&mut self.stopped, Stop::Quit),
        }
    }

    /// Carries out an instruction that keeps a state, and was fetched from the machine's program counter. Where there
    /// is no memory for a state, the machine stands as before.
    pub(crate) fn keep(&mut self, i: &Instr) -> Result<Result<(), Halt>, AllocError>
        requires room { self.old.state.steps < self.old.limits.steps }
        requires free { self.old.waiting ≡ None }
        requires runs { self.old.stopped ≡ None }
        requires silent { self.old.state.due ≡ [] }
        requires near { i.now.next ≤ 2 ^ 20 }
        requires inside { self.old.state.pc < i.now.next }
        requires fetched { instr_at self.old.state.game.memory self.old.state.pc ≡ Ok i.now }
        requires keeps { KeepsState i.now }
        ensures step { IfOk result (λ went. IsStep self.old self.new went (λ t. t ≡ no_signals)) }
        ensures short { OnErr result ((self.new ≡ self.old) × IsKeeping self.old.state) }
        ensures counted { IfOk result (λ went. OnOk went (self.new.state.steps ≡ self.old.state.steps + 1)) }
        ensures silent { IfOk result (λ went. OnOk went (self.new.state.due ≡ self.old.state.due)) }
        ensures reads { self.new.state.reads ≡ self.old.state.reads }
        ensures more { self.old.state.steps ≤ self.new.state.steps }
        ensures limits { self.new.limits ≡ self.old.limits }
    {
        self.game.frames.is_bounded();
        let values = match read_operands(&mut self.game, &i.operands) {
            Ok(values) => values,
            Err(fault) => return Ok(halt(&mut self.stopped, Stop::Fault(self.pc, fault))),
        };
        match self.save_undo(i) {
            Ok(went) => Ok(went),
            Err(AllocError) => {
                give_back(&mut self.game, &i.operands, &values);
                Err(AllocError)
            }
        }
    }

    /// Keeps the state in front of the others, and goes on with the answer of `save_undo`. Where there is no memory for
    /// it, nothing is done.
    fn save_undo(&mut self, i: &Instr) -> Result<Result<(), Halt>, AllocError>
        requires room { self.old.state.steps < self.old.limits.steps }
        requires free { self.old.waiting ≡ None }
        requires runs { self.old.stopped ≡ None }
        requires near { i.now.next ≤ 2 ^ 20 }
        requires inside { self.old.state.pc < i.now.next }
        ensures step { IfOk result (λ went. Settles self.old self.new went
            (asked self.old.state i.now self.old.state.game Request.SaveUndo)) }
        ensures short { OnErr result ((self.new ≡ self.old) × (0 < self.old.state.game.memory.setup.undo_states)) }
        ensures counted { IfOk result (λ went. OnOk went (self.new.state.steps ≡ self.old.state.steps + 1)) }
        ensures silent { IfOk result (λ went. OnOk went (self.new.state.due ≡ self.old.state.due)) }
        ensures reads { self.new.state.reads ≡ self.old.state.reads }
        ensures more { self.old.state.steps ≤ self.new.state.steps }
        ensures limits { self.new.limits ≡ self.old.limits }
    {
        if self.limits.undo == 0 {
            self.undo.len();
            let led = answer_result(&mut self.game, i, 0xffff, true);
            return Ok(go_on(&mut self.pc, &mut self.steps, &mut self.stopped, led));
        }
        let pc = pc_of_save(self.game.memory.version(), self.pc, i.next);
        self.undo.put(&self.game.memory, &self.game.frames, pc)?;
        let led = answer_result(&mut self.game, i, 1, true);
        Ok(go_on(&mut self.pc, &mut self.steps, &mut self.stopped, led))
    }

    /// Goes back to the newest state that is kept, and on where it was saved; without one `restore_undo`
    /// answers 0.
    fn restore_undo(&mut self, i: &Instr) -> Result<(), Halt>
        requires room { self.old.state.steps < self.old.limits.steps }
        requires free { self.old.waiting ≡ None }
        requires runs { self.old.stopped ≡ None }
        ensures step { Settles self.old self.new result
            (asked self.old.state i.now self.old.state.game Request.RestoreUndo) }
        ensures counted { OnOk result (self.new.state.steps ≡ self.old.state.steps + 1) }
        ensures silent { OnOk result (self.new.state.due ≡ self.old.state.due) }
        ensures reads { self.new.state.reads ≡ self.old.state.reads }
        ensures more { self.old.state.steps ≤ self.new.state.steps }
        ensures limits { self.new.limits ≡ self.old.limits }
    {
        match self.undo.take(&mut self.game.memory, &mut self.game.frames) {
            Some(pc) => {
                let led = resume(&mut self.game, pc);
                go_on(&mut self.pc, &mut self.steps, &mut self.stopped, led)
            }
            None => {
                let led = answer_result(&mut self.game, i, 0, false);
                go_on(&mut self.pc, &mut self.steps, &mut self.stopped, led)
            }
        }
    }

    /// Waits for an answer: for a read after the view.
    fn wait_for<S: Screen>(
        &mut self,
        event: Event,
        instruction: Instr,
        screen: &mut S,
    ) -> Result<(), Halt>
        requires room { self.old.state.steps < self.old.limits.steps }
        requires free { self.old.waiting ≡ None }
        requires runs { self.old.stopped ≡ None }
        requires silent { self.old.state.due ≡ [] }
        requires near { instruction.next ≤ 2 ^ 20 }
        requires inside { self.old.state.pc < instruction.next }
        requires fetched { instr_at self.old.state.game.memory self.old.state.pc ≡ Ok instruction }
        ensures step { Settles self.old self.new result
            (asked self.old.state instruction self.old.state.game (Request.Answer event)) }
        ensures text { S.shows screen.old screen.new (text_of self.old.state
            (asked self.old.state instruction self.old.state.game
            (Request.Answer event))) }
        ensures waits { OnOk result ⊥ }
        ensures reads { self.new.state.reads ≡ self.old.state.reads }
        ensures more { self.old.state.steps ≤ self.new.state.steps }
        ensures limits { self.new.limits ≡ self.old.limits }
    {
        if is_read(event) {
            return self.wait_after_view(event, instruction, screen);
        }
        self.waiting = Some(Waiting {
            wait: event,
            instruction,
        });
        Err(Ok(event))
    }

    /// Shows the view and waits for a line or a character, where there may be one more read.
    fn wait_after_view<S: Screen>(
        &mut self,
        event: Event,
        instruction: Instr,
        screen: &mut S,
    ) -> Result<(), Halt>
        requires room { self.old.state.steps < self.old.limits.steps }
        requires free { self.old.waiting ≡ None }
        requires runs { self.old.stopped ≡ None }
        requires silent { self.old.state.due ≡ [] }
        requires near { instruction.next ≤ 2 ^ 20 }
        requires inside { self.old.state.pc < instruction.next }
        requires fetched { instr_at self.old.state.game.memory self.old.state.pc ≡ Ok instruction }
        requires read { is_read event ≡ true }
        ensures step { Settles self.old self.new result
            (asked self.old.state instruction self.old.state.game (Request.Answer event)) }
        ensures text { S.shows screen.old screen.new (text_of self.old.state
            (asked self.old.state instruction self.old.state.game
            (Request.Answer event))) }
        ensures waits { OnOk result ⊥ }
        ensures reads { self.new.state.reads ≡ self.old.state.reads }
        ensures more { self.old.state.steps ≤ self.new.state.steps }
        ensures limits { self.new.limits ≡ self.old.limits }
    {
        match check_view(&self.game) {
            Ok(()) => {}
            Err(fault) => return halt(&mut self.stopped, Stop::Fault(self.pc, fault)),
        }
        if self.reads >= MOST_READS {
            return halt(&mut self.stopped, Stop::Limit(self.pc, Limit::Reads));
        }
        show_view(&mut self.game, screen);
        self.waiting = Some(Waiting {
            wait: event,
            instruction,
        });
        Err(Ok(event))
    }
}
