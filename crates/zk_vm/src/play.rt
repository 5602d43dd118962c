// Playing a story on devices.

ghost use Rattle.std.specs.Prelude.{◌≡◌, ◌≤◌, ◌<◌, ◌+◌, ◌++◌, ◌||◌, List, ℕ, length, true, false, None, Some};
ghost use Rattle.std.specs.Prelude.{IfOk, IfErr, OnOk, OnErr};
ghost use Rattle.zk_text.specs.Extra.{own_characters};
ghost use Rattle.zk_term.specs.Devices.{HasJust, Shows};
ghost use Rattle.zk_term.specs.declared.lines.InputEnd.{InputEnd};
ghost use Rattle.zk_term.specs.Lines.{Hears, FailsAlone, HasInputCodes, IsOverAfter, MeetsBound, ReadFailed};
ghost use Rattle.zk_term.specs.Lines.{TakesAnswer, over_input};
ghost use Rattle.zk_vm.specs.Answers.{first_code};
ghost use Rattle.zk_vm.specs.Answers.Answer.{Typed};
ghost use Rattle.zk_vm.specs.Halts.{IsLeftAs, event_waited};
ghost use Rattle.zk_vm.specs.Logged.{Plays, RunsOn, Serves, Turns, Wrote};
ghost use Rattle.zk_vm.specs.Step.{is_read};
ghost use Rattle.zk_vm.specs.Laws.{IsWithin};
ghost use Rattle.zk_vm.specs.Sessions.{given, with_stop};
ghost use Rattle.zk_vm.specs.Plays.{AsksForFile, IsTold, refused_in, slot_tells, source_tells, taken_by};
ghost use Rattle.zk_save.specs.Loading.{restored};

use crate::machine::{Machine, is_read};
use crate::slot::SaveSlot;
use crate::stop::Stop;
use std::alloc::{AllocError, Global};
use zk_fast::places::Places;
use zk_step::state::ending::Event;
use zk_term::buffered_screen::BufferedScreen;
use zk_term::lines::{Input, Lines};
use zk_term::screen::Screen;
use zk_term::source::Source;
use zk_term::target::Target;
use zk_text::extra::Extra;

/// The answer of a slot to a machine that asks it: whether it keeps the saved game, or the one that it has. Where
/// there is no memory for a saved game, the machine is closed with `Memory`.
pub fn serve<K: SaveSlot>(
    alloc: Global,
    slot: &mut K,
    machine: &mut Machine,
    event: Event,
) -> Result<(), Stop>
    requires waits { event_waited machine.old.waiting ≡ Some event }
    requires file { is_read event ≡ false }
    ensures served { OnOk result
        (Serves (slot_tells K.held K.keeps K.puts K.gets K.hears) machine.old machine.new slot.old slot.new) }
    ensures free { machine.new.waiting ≡ None }
    ensures counted { OnOk result
        (machine.new.stopped ≡ None → machine.new.state.steps ≡ machine.old.state.steps + 1) }
    ensures reads { OnOk result
        (machine.new.stopped ≡ None → machine.new.state.reads ≡ machine.old.state.reads) }
    ensures limits { machine.new.limits ≡ machine.old.limits }
    ensures unserved { IfErr result (λ stop. (stop ≡ Stop.Memory) × AsksForFile machine.old
        × (machine.new ≡ with_stop machine.old Stop.Memory)
        × (K.held slot.new ≡ K.held slot.old)) }
{
    let served = match event {
        Event::Save => keep(alloc, slot, machine),
        Event::Restore => bring(alloc, slot, machine),
        Event::Line(_, _) | Event::Char => return Ok(()),
    };
    match served {
        Ok(()) => Ok(()),
        Err(_) => {
            machine.close(Stop::Memory);
            Err(Stop::Memory)
        }
    }
}

/// Has a slot keep the saved game that waits for it.
fn keep<K: SaveSlot>(alloc: Global, slot: &mut K, machine: &mut Machine) -> Result<(), AllocError>
    requires waits { event_waited machine.old.waiting ≡ Some Event.Save }
    ensures served { OnOk result
        (Serves (slot_tells K.held K.keeps K.puts K.gets K.hears) machine.old machine.new slot.old slot.new) }
    ensures free { OnOk result (machine.new.waiting ≡ None) }
    ensures counted { OnOk result
        (machine.new.stopped ≡ None → machine.new.state.steps ≡ machine.old.state.steps + 1) }
    ensures reads { OnOk result
        (machine.new.stopped ≡ None → machine.new.state.reads ≡ machine.old.state.reads) }
    ensures limits { machine.new.limits ≡ machine.old.limits }
    ensures unserved { OnErr result
        ((machine.new ≡ machine.old) × (K.held slot.new ≡ K.held slot.old)) }
{
    let file = machine.image(alloc)?;
    let kept = slot.put(file.as_slice());
    machine.answer_save(kept);
    Ok(())
}

/// Tells a slot why its file is refused, if it is.
fn tell_refusal<K: SaveSlot>(slot: &mut K, machine: &Machine, file: &[u8])
    ensures stays { K.held slot.new ≡ K.held slot.old }
    ensures told { IsTold K.hears slot.old slot.new (refused_in
        (restored file.now machine.now.state.game.memory machine.now.state.game.frames)) }
{
    match machine.refusal(file) {
        Some(error) => slot.refuse(error),
        None => {}
    }
}

/// Restores the saved game that a slot has.
fn bring<K: SaveSlot>(alloc: Global, slot: &mut K, machine: &mut Machine) -> Result<(), AllocError>
    requires waits { event_waited machine.old.waiting ≡ Some Event.Restore }
    ensures served { OnOk result
        (Serves (slot_tells K.held K.keeps K.puts K.gets K.hears) machine.old machine.new slot.old slot.new) }
    ensures free { OnOk result (machine.new.waiting ≡ None) }
    ensures counted { OnOk result
        (machine.new.stopped ≡ None → machine.new.state.steps ≡ machine.old.state.steps + 1) }
    ensures reads { OnOk result
        (machine.new.stopped ≡ None → machine.new.state.reads ≡ machine.old.state.reads) }
    ensures limits { machine.new.limits ≡ machine.old.limits }
    ensures unserved { OnErr result
        ((machine.new ≡ machine.old) × (K.held slot.new ≡ K.held slot.old)) }
{
    match slot.get(alloc)? {
        Some(file) => {
            let file = file.as_slice();
            tell_refusal(slot, machine, file);
            machine.answer_restore(Some(file));
        }
        None => machine.answer_restore(None),
    }
    Ok(())
}

/// Runs a story up to its next event, a read or a saved game, or its stop. Text goes out as UTF-8, some of it at a
/// time: when it returns, all text up to there is written. Once a write has failed nothing more is written to either
/// target, and the machine is closed with `Write`. It is not waiting, and neither target has failed.
pub fn run_on<S: Target, T: Target, P: Places>(
    screen: &mut S,
    script: &mut T,
    machine: &mut Machine,
    places: &mut P,
) -> Result<Event, Stop>
    requires free { machine.old.waiting ≡ None }
    requires screen_works { S.failed screen.old ≡ false }
    requires script_works { T.failed script.old ≡ false }
    ensures logged { RunsOn (Wrote (taken_by (S.taken screen.old) (T.taken script.old))
        (taken_by (S.taken screen.new) (T.taken script.new)) (S.failed screen.new || T.failed script.new))
        (P.noted places.old places.new) machine.old machine.new result
        (S.failed screen.new || T.failed script.new) }
    ensures free_again { OnErr result (machine.new.waiting ≡ None) }
    ensures asks { IfOk result (λ event. event_waited machine.new.waiting ≡ Some event) }
    ensures reads { IfOk result
        (λ event. is_read event ≡ true → machine.new.state.reads < 16777216) }
    ensures same_reads { OnOk result (machine.new.state.reads ≡ machine.old.state.reads) }
    ensures steps { OnOk result ((machine.old.state.steps ≤ machine.new.state.steps)
        × (machine.new.state.steps < machine.new.limits.steps)) }
    ensures runs { OnOk result (machine.new.stopped ≡ None) }
    ensures whole { (S.failed screen.new || T.failed script.new) ≡ false
        → S.whole screen.new × T.whole script.new }
    ensures limits { machine.new.limits ≡ machine.old.limits }
    ensures within { IsWithin machine.new.limits machine.new.state }
{
    let mut console = BufferedScreen::new(screen, script);
    let answer = machine.run(&mut console, places);
    console.finish();
    if console.has_failed() {
        machine.close(Stop::Write);
        return Err(Stop::Write);
    }
    answer
}

/// Runs a story up to its next read, or its stop; the slot keeps and gives saved games on the way.
/// Text goes out as UTF-8, some of it at a time: when it returns, and before the slot is asked, all text up to there is
/// written, and the screen holds nothing back. Once a write has failed nothing more is written to either target, the
/// slot is not asked, and the machine is closed with `Write`; what went out is a first part of the text. Where there is
/// no memory for a saved game or a state that is to be kept, the stop is `Memory`. The machine is not waiting, and
/// neither target has failed.
pub fn turn<S: Target, T: Target, K: SaveSlot, P: Places>(
    alloc: Global,
    screen: &mut S,
    script: &mut T,
    slot: &mut K,
    machine: &mut Machine,
    places: &mut P,
) -> Result<Event, Stop>
    requires free { machine.old.waiting ≡ None }
    requires screen_works { S.failed screen.old ≡ false }
    requires script_works { T.failed script.old ≡ false }
    ensures logged { Turns (slot_tells K.held K.keeps K.puts K.gets K.hears)
        (P.noted places.old places.new) slot.old slot.new
        machine.old machine.new result (S.failed screen.new || T.failed script.new)
        (taken_by (S.taken screen.old) (T.taken script.old))
        (taken_by (S.taken screen.new) (T.taken script.new)) }
    ensures free_again { OnErr result (machine.new.waiting ≡ None) }
    ensures asks { IfOk result
        (λ event. (event_waited machine.new.waiting ≡ Some event) × (is_read event ≡ true)) }
    ensures reads { OnOk result (machine.new.state.reads < 16777216) }
    ensures same_reads { OnOk result (machine.new.state.reads ≡ machine.old.state.reads) }
    ensures runs { OnOk result (machine.new.stopped ≡ None) }
    ensures whole { (S.failed screen.new || T.failed script.new) ≡ false
        → S.whole screen.new × T.whole script.new }
    ensures limits { machine.new.limits ≡ machine.old.limits }
    ensures within { IsWithin machine.new.limits machine.new.state }
{
    loop {
        let event = match run_on(screen, script, machine, places) {
            Ok(event) => event,
            Err(stop) => return Err(stop),
        };
        if is_read(event) {
            return Ok(event);
        }
        match serve(alloc, slot, machine, event) {
            Ok(()) => {}
            Err(stop) => return Err(stop),
        }
    }
}

/// The next line, by the extra characters in force.
pub fn next_line<R: Source>(lines: &mut Lines, reader: &mut R, machine: &Machine) -> Input
    ensures over { (o : InputEnd) → lines.old.over ≡ Some o
        → (result ≡ over_input o) × (lines.new ≡ lines.old) × (reader.new ≡ reader.old) }
    ensures heard { (bytes : List ℕ) → lines.old.over ≡ None → R.left reader.old ≡ Some bytes
        → (later : List ℕ) × (R.left reader.new ≡ Some later)
        × Hears (own_characters machine.now.state.game.memory) (lines.old.ahead ++ bytes)
        (lines.new.ahead ++ later) lines.new.over
        (ReadFailed R.fails R.failed reader.new lines.new)
        (R.failed reader.new ≡ R.failed reader.old) result }
    ensures next { lines.old.over ≡ None → IsOverAfter result lines.new.over }
    ensures codes { HasInputCodes result }
    ensures failed { lines.old.over ≡ None → FailsAlone
        (ReadFailed R.fails R.failed reader.new lines.new)
        (R.failed reader.new ≡ R.failed reader.old)
        (MeetsBound R.gives reader.old reader.new lines.old lines.new) result }
    ensures taken { lines.old.over ≡ None → lines.new.over ≡ None
        → TakesAnswer R.gives reader.old reader.new lines.old.ahead lines.new.ahead
        (own_characters machine.now.state.game.memory) result }
    ensures ends { lines.old.over ≡ None → lines.new.over ≡ Some InputEnd.End
        → HasJust R.ends reader.new }
{
    lines.line(reader, &Extra::of(machine.memory()))
}

/// The code of a character that a line answers: its first, and a new line where it has none.
fn first_of(codes: &[u8]) -> u8
    ensures { result ≡ first_code codes.now }
{
    match codes {
        [] => 13,
        [code, ..] => *code,
    }
}

/// Answers a read by the codes of a line.
pub fn answer(machine: &mut Machine, event: Event, codes: &[u8])
    requires waits { event_waited machine.old.waiting ≡ Some event }
    requires reads { is_read event ≡ true }
    requires few { length codes.now ≤ 255 }
    ensures left { IsLeftAs machine.new (given machine.old (Typed codes.now 13))
        (given machine.old (Typed codes.now 13)).stopped }
    ensures free { machine.new.waiting ≡ None }
    ensures counted { machine.new.stopped ≡ None
        → machine.new.state.reads ≡ machine.old.state.reads + 1 }
    ensures limits { machine.new.limits ≡ machine.old.limits }
{
    match event {
        Event::Line(_, _) => machine.answer_line(codes, 13),
        Event::Char => machine.answer_char(first_of(codes)),
        Event::Save | Event::Restore => {}
    }
}

/// Ends a machine that finds no answer.
fn close(machine: &mut Machine, stop: Stop) -> Stop
    ensures value { result ≡ stop }
    ensures closed { machine.new ≡ with_stop machine.old stop }
{
    machine.close(stop);
    stop
}

/// Plays a story up to its stop, and ends the machine with it: turn after turn, whose reads the lines of the
/// reader answer. The reader is asked between turns alone, when all text up to there is written; a read that
/// finds no line ends the story with `EndOfInput` or, where the reader fails or a line is too long, with
/// `Read`, and the reader is not asked again; a story that does not read leaves it alone. Once a write has failed
/// nothing more is written to either target, and the stop is `Write`: what went out is a first part of the text. The
/// slot keeps and gives saved games; where there is no memory for one, or for a state that is to be kept, the stop is
/// `Memory`. The machine is not waiting, and no device has failed.
pub fn play<R: Source, S: Target, T: Target, K: SaveSlot, P: Places>(
    alloc: Global,
    reader: &mut R,
    screen: &mut S,
    script: &mut T,
    slot: &mut K,
    machine: &mut Machine,
    places: &mut P,
) -> Stop
    requires free { machine.old.waiting ≡ None }
    requires reader_works { R.failed reader.old ≡ false }
    requires screen_works { S.failed screen.old ≡ false }
    requires script_works { T.failed script.old ≡ false }
    ensures logged { Plays (slot_tells K.held K.keeps K.puts K.gets K.hears)
        (source_tells R.ends R.fails R.gives R.failed) R.left (P.noted places.old places.new)
        slot.old slot.new reader.old reader.new
        machine.old result (S.failed screen.new || T.failed script.new)
        (taken_by (S.taken screen.old) (T.taken script.old))
        (taken_by (S.taken screen.new) (T.taken script.new)) }
    ensures read_failed { R.failed reader.new ≡ true → result ≡ Stop.Read }
    ensures stopped { machine.new.stopped ≡ Some result }
    ensures whole { (S.failed screen.new || T.failed script.new) ≡ false
        → S.whole screen.new × T.whole script.new }
    ensures limits { machine.new.limits ≡ machine.old.limits }
    ensures within { IsWithin machine.new.limits machine.new.state }
{
    let mut lines = Lines::new();
    loop {
        let event = match turn(alloc, screen, script, slot, machine, places) {
            Ok(event) => event,
            Err(stop) => return stop,
        };
        match next_line(&mut lines, reader, machine) {
            Input::Line(codes) => {
                screen.begin_line();
                answer(machine, event, codes.as_slice());
            }
            Input::End => return close(machine, Stop::EndOfInput),
            Input::Failed => return close(machine, Stop::Read),
        }
    }
}
