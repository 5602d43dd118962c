// The numbers by which C is told.

ghost use Rattle.std.specs.Prelude.{◌≡◌};
ghost use Rattle.zk_host.specs.Numbers.{address_number, event_number, reason_number, refused_number, status_number};
ghost use Rattle.zk_host.specs.Numbers.{answer_number, part_number, snapshot_number, stop_number, turn_number};

use crate::play::{Asked, Refusal, SnapshotRefusal};
use zk_snapshot::opening::SnapshotError;
use zk_step::state::ending::Event;
use zk_vm::stop::Stop;

/// What is asked for.
fn event_number(event: Event) -> u32
    ensures { result ≡ event_number event }
{
    match event {
        Event::Line(_, _) => 1,
        Event::Char => 2,
        Event::Save => 3,
        Event::Restore => 4,
    }
}

/// What a turn asks for, and 0 where the story has stopped.
pub fn turn_number(turned: Result<Asked, Stop>) -> u32
    ensures { result ≡ turn_number turned }
{
    match turned {
        Ok(Asked::Answer(event)) => event_number(event),
        Ok(Asked::Room) => 5,
        Ok(Asked::Time) => 6,
        Ok(Asked::Memory) => 7,
        Err(_) => 0,
    }
}

/// Why an answer is refused.
pub fn refused_number(refusal: Refusal) -> u32
    ensures { result ≡ refused_number refusal }
{
    match refusal {
        Refusal::NotAwaited => 1,
        Refusal::NotALine => 2,
        Refusal::Memory => 4,
        Refusal::NoState => 5,
        Refusal::TooLong => 6,
        Refusal::TooManyWords => 7,
        Refusal::NotAKey => 10,
        Refusal::NotChanged => 12,
    }
}

/// How an answer was taken: 0 where it was.
pub fn answer_number(answered: Result<(), Refusal>) -> u32
    ensures { result ≡ answer_number answered }
{
    match answered {
        Ok(()) => 0,
        Err(refusal) => refused_number(refusal),
    }
}

/// Whether more of a listing is to come: then 13, else 0.
pub fn part_number(listed: Result<bool, Refusal>) -> u32
    ensures { result ≡ part_number listed }
{
    match listed {
        Ok(true) => 13,
        Ok(false) => 0,
        Err(refusal) => refused_number(refusal),
    }
}

/// Why no play goes on from a snapshot.
pub fn snapshot_number(refusal: SnapshotRefusal) -> u32
    ensures { result ≡ snapshot_number refusal }
{
    match refusal {
        SnapshotRefusal::Story(error) => error.number() as u32,
        SnapshotRefusal::Snapshot(SnapshotError::NotASnapshot) => 8,
        SnapshotRefusal::Snapshot(SnapshotError::OtherVersion) => 9,
        SnapshotRefusal::Snapshot(SnapshotError::OtherStory) => 10,
        SnapshotRefusal::Snapshot(SnapshotError::Damaged) => 11,
        SnapshotRefusal::Snapshot(SnapshotError::OutOfMemory) => 6,
        SnapshotRefusal::Limits => 7,
    }
}

/// Why a story has stopped.
fn stop_number(stop: Stop) -> u32
    ensures { result ≡ stop_number stop }
{
    match stop {
        Stop::Quit => 1,
        Stop::Fault(_, _) => 2,
        Stop::Limit(_, _) => 3,
        Stop::EndOfInput | Stop::Read => 4,
        Stop::Write | Stop::Memory => 5,
    }
}

/// Why a story has stopped, and 0 where it has not. `too_much` says that an instruction has shown too much text.
pub fn status_number(too_much: bool, stopped: Option<Stop>) -> u32
    ensures { result ≡ status_number too_much stopped }
{
    match stopped {
        None => 0,
        Some(_) if too_much => 6,
        Some(stop) => stop_number(stop),
    }
}

/// The number of the fault or the limit that has stopped a story, and 0 where none has.
pub fn reason_number(stopped: Option<Stop>) -> u32
    ensures { result ≡ reason_number stopped }
{
    match stopped {
        Some(Stop::Fault(_, fault)) => fault.number() as u32,
        Some(Stop::Limit(_, limit)) => limit.number() as u32,
        _ => 0,
    }
}

/// The byte address of the instruction that has stopped a story by a fault or a limit, and 0 where none has.
pub fn address_number(stopped: Option<Stop>) -> u32
    ensures { result ≡ address_number stopped }
{
    match stopped {
        Some(Stop::Fault(address, _) | Stop::Limit(address, _)) => address,
        _ => 0,
    }
}
