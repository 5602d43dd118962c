// The answers to what a machine waits for, and the saved game that it has.

ghost use Rattle.std.specs.Prelude.{◌≡◌, ◌≤◌, ◌+◌, ◌*◌, true, false, [], ◌∷◌, length, option_copied, Some, None};
ghost use Rattle.std.specs.Prelude.{Ok, Err, IfOk, MatchResult};
ghost use Rattle.zk_state.specs.Frames.{bounds_of};
ghost use Rattle.zk_vm.specs.Answers.{limit_of, truth_word, undone};
ghost use Rattle.zk_vm.specs.Answers.Answer.{Typed, GameKept, File};
ghost use Rattle.zk_vm.specs.Going.{verdict_by, pc_by, stopped_by, restored_on};
ghost use Rattle.zk_vm.specs.Halts.{IsLeftAs, IsLine, IsUndone, event_waited};
ghost use Rattle.zk_vm.specs.Laws.{IsWithin};
ghost use Rattle.zk_vm.specs.Sessions.{given};
ghost use Rattle.zk_save.specs.Loading.{restored};
ghost use Rattle.zk_vm.specs.Plays.{AsksForLine, image_of, refused_in};

use crate::machine::{Machine, go_on, pc_of_save, stop_at};
use crate::stop::Stop;
use crate::transcript::transcribe;
use std::alloc::{AllocError, Global};
use zk_code::instr::Instr;
use zk_save::restore::{RestoreError, refusal, restore};
use zk_save::save::save;
use zk_state::refusal::{Limit, Refusal};
use zk_step::input::inputs::{answer_character, answer_line, answer_result};
use zk_step::state::ending::Event;
use zk_step::state::game_state::GameState;
use zk_step::state::resuming::resume;

impl Machine {
    /// Answers a read by the codes of a line, at most 255, and the code that ended it, 13 for a new line: they go to
    /// its text buffer and their words to its parse buffer (Z-Machine Standards Document 1.1, section 15, `read`). A
    /// fault or a limit comes from the next `run`. The machine waits for a line.
    pub fn answer_line(&mut self, codes: &[u8], ended: u8)
        requires waits { IsLine (event_waited self.old.waiting) }
        requires few { length codes.now ≤ 255 }
        ensures left { IsLeftAs self.new (given self.old (Typed codes.now ended))
            (given self.old (Typed codes.now ended)).stopped }
        ensures free { self.new.waiting ≡ None }
        ensures counted { self.new.stopped ≡ None
            → self.new.state.reads ≡ self.old.state.reads + 1 }
        ensures limits { self.new.limits ≡ self.old.limits }
        ensures within { IsWithin self.new.limits self.new.state }
    {
        let Some(waiting) = self.waiting.take() else {
            return;
        };
        if let Event::Line(text, parse) = waiting.wait {
            self.due = transcribe(&self.game, text, codes, ended);
            let words = self.cache.words();
            let i = &waiting.instruction;
            let answered = answer_line(&mut self.game, &words, i, text, parse, codes, ended);
            count_read(&mut self.reads, &mut self.steps);
            follow(&mut self.pc, &mut self.stopped, answered);
            self.is_within();
        }
    }

    /// Answers a read by the code of a character (Z-Machine Standards Document 1.1, section 15,
    /// `read_char`). A fault or a limit comes from the next `run`. The machine waits for a character.
    pub fn answer_char(&mut self, code: u8)
        requires waits { event_waited self.old.waiting ≡ Some Event.Char }
        ensures left { IsLeftAs self.new (given self.old (Typed (code ∷ []) 13))
            (given self.old (Typed (code ∷ []) 13)).stopped }
        ensures free { self.new.waiting ≡ None }
        ensures counted { self.new.stopped ≡ None
            → self.new.state.reads ≡ self.old.state.reads + 1 }
        ensures limits { self.new.limits ≡ self.old.limits }
        ensures within { IsWithin self.new.limits self.new.state }
    {
        let Some(waiting) = self.waiting.take() else {
            return;
        };
        self.due.clear();
        let answered = answer_character(&mut self.game, &waiting.instruction, code);
        count_read(&mut self.reads, &mut self.steps);
        follow(&mut self.pc, &mut self.stopped, answered);
        self.is_within();
    }

    /// The file of the saved game that waits to be kept: the state before its instruction stores or branches
    /// (Quetzal 1.4). It has at most 51 bytes, those of dynamic memory, 8 for each frame and 2 for each word that
    /// there may be. The machine waits for it to be kept.
    pub fn image(&self, alloc: Global) -> Result<Vec<u8>, AllocError>
        requires waits { event_waited self.now.waiting ≡ Some Event.Save }
        ensures value { IfOk result (λ v. v.items ≡ image_of self.now) }
        ensures len { IfOk result (λ v. length v.items ≤ 51 + self.now.state.game.memory.static_base
            + 8 * self.now.limits.frames + 2 * self.now.limits.words) }
    {
        let next = match &self.waiting {
            Some(waiting) => waiting.instruction.next,
            None => 1,
        };
        let pc = pc_of_save(self.game.memory.version(), self.pc, next);
        save(alloc, &self.game.memory, &self.game.frames, pc)
    }

    /// Answers whether the saved game was kept (Z-Machine Standards Document 1.1, section 15, `save`). A fault
    /// or a limit comes from the next `run`. The machine waits for it to be kept.
    pub fn answer_save(&mut self, kept: bool)
        requires waits { event_waited self.old.waiting ≡ Some Event.Save }
        ensures left { IsLeftAs self.new (given self.old (GameKept kept))
            (given self.old (GameKept kept)).stopped }
        ensures ran { self.old.stopped ≡ None }
        ensures free { self.new.waiting ≡ None }
        ensures counted { self.new.stopped ≡ None
            → self.new.state.steps ≡ self.old.state.steps + 1 }
        ensures reads { self.new.stopped ≡ None → self.new.state.reads ≡ self.old.state.reads }
        ensures limits { self.new.limits ≡ self.old.limits }
        ensures within { IsWithin self.new.limits self.new.state }
    {
        let Some(waiting) = self.waiting.take() else {
            return;
        };
        let word = truth_word(kept);
        let answered = answer_result(&mut self.game, &waiting.instruction, word, kept);
        let _ = go_on(&mut self.pc, &mut self.steps, &mut self.stopped, answered);
        self.is_within();
    }

    /// Answers by a saved game, or by none (Z-Machine Standards Document 1.1, section 15, `restore`). A file
    /// that is refused counts as none, but for one with too many frames or words, which is a limit. A fault or
    /// a limit comes from the next `run`. The machine waits for a saved game.
    pub fn answer_restore(&mut self, file: Option<&[u8]>)
        requires waits { event_waited self.old.waiting ≡ Some Event.Restore }
        ensures left { IsLeftAs self.new (given self.old (File (option_copied file.entry)))
            (given self.old (File (option_copied file.entry))).stopped }
        ensures ran { self.old.stopped ≡ None }
        ensures free { self.new.waiting ≡ None }
        ensures counted { self.new.stopped ≡ None
            → self.new.state.steps ≡ self.old.state.steps + 1 }
        ensures reads { self.new.stopped ≡ None → self.new.state.reads ≡ self.old.state.reads }
        ensures limits { self.new.limits ≡ self.old.limits }
        ensures within { IsWithin self.new.limits self.new.state }
    {
        let Some(waiting) = self.waiting.take() else {
            return;
        };
        match file {
            Some(file) => {
                let answered = restore_from(&mut self.game, &waiting.instruction, file);
                let _ = go_on(&mut self.pc, &mut self.steps, &mut self.stopped, answered);
                self.is_within();
            }
            None => {
                let answered = answer_result(&mut self.game, &waiting.instruction, 0, false);
                let _ = go_on(&mut self.pc, &mut self.steps, &mut self.stopped, answered);
                self.is_within();
            }
        }
    }

    /// Goes back to the newest state that is kept, as `restore_undo` would, in place of the line or the character that
    /// is waited for; says whether there is one. A fault or a limit comes from the next `run`. Without a state nothing
    /// changes.
    pub fn go_back(&mut self) -> bool
        requires waits { AsksForLine self.old }
        ensures undone { IsUndone self.old self.new result (undone self.old.state) }
        ensures limits { self.new.limits ≡ self.old.limits }
        ensures within { IsWithin self.new.limits self.new.state }
    {
        match self.undo.take(&mut self.game.memory, &mut self.game.frames) {
            Some(pc) => {
                self.waiting = None;
                let led = resume(&mut self.game, pc);
                let _ = go_on(&mut self.pc, &mut self.steps, &mut self.stopped, led);
                self.is_within();
                true
            }
            None => {
                self.is_within();
                false
            }
        }
    }

    /// Why a saved game that `answer_restore` is given counts as none, if it does. One with too many frames or words
    /// does not: it is a limit.
    pub fn refusal(&self, file: &[u8]) -> Option<RestoreError>
        ensures { result ≡ refused_in
            (restored file.now self.now.state.game.memory self.now.state.game.frames) }
    {
        let error = refusal(file, &self.game.memory, &self.game.frames)?;
        match limit_in(error) {
            Some(_) => None,
            None => Some(error),
        }
    }
}

/// 1 for a truth, 0 for a falsehood.
fn truth_word(truth: bool) -> u16
    ensures { result ≡ truth_word truth }
{
    if truth { 1 } else { 0 }
}

/// Counts a read that was answered: no steps were made since.
fn count_read(reads: &mut u32, steps: &mut u32)
    requires { reads.old ≤ 16777216 }
    ensures reads { reads.new ≡ reads.old + 1 }
    ensures steps { steps.new ≡ 0 }
{
    *reads += 1;
    *steps = 0;
}

/// Goes on where the answer to a read leads, or stops.
fn follow(pc: &mut u32, stopped: &mut Option<Stop>, answered: Result<u32, Refusal>)
    ensures pc { pc.new ≡ pc_by pc.old answered }
    ensures stopped { stopped.new ≡ stopped_by stopped.old (verdict_by pc.old answered) }
{
    match answered {
        Ok(next) => *pc = next,
        Err(refusal) => *stopped = Some(stop_at(*pc, refusal)),
    }
}

/// The limit that a saved game passes, where it is refused for that.
fn limit_in(error: RestoreError) -> Option<Limit>
    ensures { result ≡ limit_of error }
{
    match error {
        RestoreError::Limit(limit) => Some(limit),
        RestoreError::NotQuetzal => None,
        RestoreError::Truncated => None,
        RestoreError::OtherStory => None,
        RestoreError::BadMemory => None,
        RestoreError::BadStack => None,
    }
}

/// Restores a saved game and goes on where it was saved; where it is refused the answer is 0, or a falsehood.
#[tactic(auto, unfolding(zk_step::specs::Restarts::windows_closed))]
fn restore_from(game: &mut GameState, i: &Instr, file: &[u8]) -> Result<u32, Refusal>
    ensures value { MatchResult result
        (λ at. restored_on game.old i.now file.now ≡ Ok (game.new, at))
        (λ e. restored_on game.old i.now file.now ≡ Err e) }
    ensures bounds { bounds_of game.new.frames ≡ bounds_of game.old.frames }
{
    match restore(file, &mut game.memory, &mut game.frames) {
        Ok(pc) => {
            game.close_windows();
            resume(game, pc)
        }
        Err(error) => match limit_in(error) {
            Some(limit) => Err(Refusal::Limit(limit)),
            None => answer_result(game, i, 0, false),
        },
    }
}
