// A story, from its file to its devices.

ghost use Rattle.std.specs.Prelude.{◌≡◌, false};
ghost use Rattle.zk_term.specs.Devices.{device};
ghost use Rattle.zk_vm.specs.Bounds.{AreInRange};
ghost use Rattle.zk_vm.specs.Plays.{slot_tells, source_tells};
ghost use Rattle.zk_program.specs.Playing.{EndsPlay, IsReported, IsStarted, Work, play_on};

use crate::about::About;
use crate::bad_destination::BadDestination;
use crate::calls::calls_text;
use crate::exit::Exit;
use crate::opening::open_story;
use crate::report::report;
use std::alloc::Global;
use std::io::Read;
use zk_command::settings::Settings;
use zk_fast::places::Places;
use zk_mem::fault::Fault;
use zk_term::source::Source;
use zk_term::target::{Failed, Target};
use zk_vm::machine::Machine;
use zk_vm::play::play;
use zk_vm::slot::SaveSlot;
use zk_vm::stop::Stop;

/// The devices that a story is played on.
#[derive(Drop)]
pub struct Devices<I, S, T, K> {
    /// Its lines answer the story's reads.
    pub input: I,
    pub screen: S,
    /// What the transcript goes to.
    pub script: T,
    /// Keeps the saved game.
    pub slot: K,
}

/// A play that is asked for.
#[derive(Drop)]
pub struct PlayRequest<'a, 'n, R> {
    /// Gives the bytes of the story.
    pub story: R,
    /// What is told of the play.
    pub about: &'a About<'a, 'n>,
    pub settings: Settings,
}

/// Notes where a bad target leads that has stopped a machine.
fn note_target(about: &About, machine: &Machine, stop: &Stop) {
    if let Stop::Fault(address, Fault::BadTarget) = stop {
        about
            .bad_destination
            .set(BadDestination::at(machine.memory(), *address));
    }
}

/// Notes the calls that led to a fault or a limit, where they are told and there is memory for them.
fn note_calls(alloc: Global, about: &About, machine: &Machine, stop: &Stop) {
    match stop {
        Stop::Fault(address, _) | Stop::Limit(address, _) if about.tells_calls => {
            about.calls.set(calls_text(alloc, machine, about.names.as_ref(), *address).ok());
        }
        _ => {}
    }
}

/// Notes what is told of a stop: where a bad target leads, and which calls led there.
pub(crate) fn note_stop(alloc: Global, about: &About, machine: &Machine, stop: &Stop) {
    note_target(about, machine, stop);
    note_calls(alloc, about, machine, stop);
}

/// The machine of a story at its start.
pub fn start<R: Read + Drop>(alloc: Global, request: PlayRequest<R>) -> Result<Machine, Exit>
    requires { AreInRange request.settings.limits }
    ensures { IsStarted (R.remaining request.entry.story) request.entry.settings result }
{
    let PlayRequest {
        story,
        about,
        settings,
    } = request;
    let story = match open_story(alloc, story, about) {
        Ok(story) => story,
        Err(exit) => return Err(exit),
    };
    let Settings { limits, seed, view } = settings;
    match Machine::start(alloc, story, seed, limits, view) {
        Ok(machine) => Ok(machine),
        Err(_) => Err(Exit::Stopped(Stop::Memory)),
    }
}

/// Plays a story: the lines of the input answer its reads, and the slot keeps its saved game. Where the instructions
/// stand that are carried out is noted. Reports how that ends, and answers the program's status.
pub fn play_and_report<
    R: Read + Drop,
    I: Source,
    S: Target,
    T: Target,
    K: SaveSlot,
    P: Places,
    E: Target,
>(
    alloc: Global,
    request: PlayRequest<R>,
    devices: &mut Devices<I, S, T, K>,
    places: &mut P,
    errors: &mut E,
) -> u8
    requires in_range { AreInRange request.settings.limits }
    requires works { Work I.failed S.failed T.failed devices.old }
    requires errors_work { E.failed errors.old ≡ false }
    ensures { IsReported (EndsPlay (play_on I.left (source_tells I.ends I.fails I.gives I.failed)
        S.taken S.failed T.taken T.failed (slot_tells K.held K.keeps K.puts K.gets K.hears)
        (P.noted places.old places.new) devices.old devices.new) (R.remaining request.entry.story)
        request.entry.settings) (device E.taken E.failed errors.old) (device E.taken E.failed errors.new)
        result }
{
    let about = request.about;
    let limits = request.settings.limits;
    let mut machine = match start(alloc, request) {
        Ok(machine) => machine,
        Err(exit) => return report(alloc, &exit, &limits, about, errors),
    };
    // a write of no bytes makes the script's file before the run
    let stop = match devices.script.write(&[]) {
        Err(Failed) => Stop::Write,
        Ok(_) => play(
            alloc,
            &mut devices.input,
            &mut devices.screen,
            &mut devices.script,
            &mut devices.slot,
            &mut machine,
            places,
        ),
    };
    note_stop(alloc, about, &machine, &stop);
    report(alloc, &Exit::Stopped(stop), &limits, about, errors)
}
