// A play that is looked at instruction by instruction: for what the Standard lets pass and an author hardly means, and
// for the texts that it prints by their addresses.

ghost use Rattle.std.specs.Prelude.{◌≡◌, ◌≤◌, None, Some, false, length, IfErr, OnOk};
ghost use Rattle.zk_vm.specs.Bounds.{AreInRange};

use crate::about::About;
use crate::exit::Exit;
use crate::misuses::{extents_of, misuse_text};
use crate::playing::{PlayRequest, start};
use crate::session::{Commands, MemorySlot, Session};
use std::alloc::{AllocError, Global};
use std::fs::File;
use std::io::ErrorKind;
use zk_command::settings::Settings;
use zk_fast::places::{Cover, Places, Unnoted};
use zk_mem::story::OpenError;
use zk_named::places::{locals_text, source_text};
use zk_names::names::Names;
use zk_step::state::ending::Event;
use zk_strict::misuse::{Extent, Misuse, misuse_next};
use zk_strict::texts::text_next;
use zk_term::lines::{Input, Lines};
use zk_term::screen::Screen;
use zk_term::style::{Bleep, Style};
use zk_vm::machine::Machine;
use zk_vm::machine::pausing::{PausingMachine, Reached};
use zk_vm::play::next_line;
use zk_vm::slot::SaveSlot;
use zk_vm::stop::Stop;

/// So many places are told of a play.
const MOST_TOLD: usize = 8;

/// A screen that shows nothing.
#[derive(Drop)]
struct Unshown;

impl Screen for Unshown {
    ghost shows = { λ _ _ _. Unit {0} };

    ghost failed = { λ _. false };

    ghost full = { λ _. false };

    fn text(&mut self, _c: char, _style: Style) {}

    fn script(&mut self, _c: char) {}

    fn erase(&mut self) {}

    fn beep(&mut self, _bleep: Bleep) {}

    fn has_failed(&self) -> bool {
        false
    }

    fn is_full(&self) -> bool {
        false
    }

    ghost nothing = { λ _. tt };

    ghost twice = { λ _ _ _ _ _ _ _. tt };
}

/// What an instruction does that an author hardly means.
#[derive(Drop)]
pub(crate) struct SeenMisuse {
    /// How many commands were read before.
    pub commands: usize,
    address: u32,
    /// What it does and where, in words.
    pub text: String,
}

/// What was seen in a play.
#[derive(Drop)]
struct Look<'a, 'n> {
    alloc: Global,
    names: Option<&'a Names<'n>>,
    arrays: &'a [Extent],
    seen: Vec<SeenMisuse>,
    /// Where the texts are noted, if they are.
    texts: Option<&'a mut Cover>,
}

/// Notes the text that a machine prints next by its address, if it does.
fn note_text(texts: &mut Cover, machine: &Machine) {
    if let Some(address) = text_next(machine.game(), machine.place().pc) {
        texts.note(address);
    }
}

impl Look<'_, '_> {
    /// What an instruction of a machine does and where, in words.
    fn text(&self, machine: &Machine, misuse: Misuse) -> Result<String, AllocError> {
        let address = machine.place().pc;
        let text = misuse_text(self.alloc, self.names, misuse)?;
        let Some(names) = self.names else {
            return format!(in self.alloc; "{address:05x}: {text}");
        };
        let place = source_text(self.alloc, names, address)?;
        let routine = machine.open_routine(machine.depth());
        let locals = locals_text(self.alloc, names, address, routine.locals)?;
        format!(in self.alloc; "{place}{locals}: {text}")
    }

    /// Looks at the instruction that a machine carries out next. Each is told once.
    fn look_at(&mut self, machine: &Machine) -> Result<(), AllocError> {
        let place = machine.place();
        if let Some(texts) = &mut self.texts {
            note_text(texts, machine);
        }
        let Some(misuse) = misuse_next(machine.game(), self.arrays, place.pc) else {
            return Ok(());
        };
        let is_new = self.seen.iter().all(|seen| seen.address != place.pc);
        if self.seen.len() >= MOST_TOLD || !is_new {
            return Ok(());
        }
        let text = self.text(machine, misuse)?;
        self.seen.push(SeenMisuse {
            commands: place.reads as usize,
            address: place.pc,
            text,
        })?;
        Ok(())
    }
}

/// Why a play that is looked at goes no further.
enum Halt {
    Stopped,
    Memory,
}

impl From<AllocError> for Halt {
    fn from(_error: AllocError) -> Halt {
        Halt::Memory
    }
}

/// Keeps a saved game, and answers whether it is kept.
fn keep_game(
    alloc: Global,
    machine: &mut PausingMachine,
    slot: &mut MemorySlot,
) -> Result<(), AllocError> {
    let Some(Event::Save) = machine.machine().waiting() else {
        return Ok(());
    };
    let image = machine.machine().image(alloc)?;
    let kept = slot.put(image.as_slice());
    machine.answer_save(kept);
    Ok(())
}

/// Answers by the saved game, if there is one.
fn bring_game(
    alloc: Global,
    machine: &mut PausingMachine,
    slot: &mut MemorySlot,
) -> Result<(), AllocError> {
    let Some(Event::Restore) = machine.machine().waiting() else {
        return Ok(());
    };
    match slot.get(alloc)? {
        Some(file) => machine.answer_restore(Some(file.as_slice())),
        None => machine.answer_restore(None),
    }
    Ok(())
}

/// Answers a read by the codes of a line.
fn answer_read(machine: &mut PausingMachine, codes: &[u8])
    requires { length codes.now ≤ 255 }
{
    match machine.machine().waiting() {
        Some(Event::Line(_, _)) => machine.answer_line(codes, 13),
        Some(Event::Char) => machine.answer_char(codes.first().copied().unwrap_or(13)),
        _ => {}
    }
}

/// A play that is looked at, and what answers it.
#[derive(Drop)]
struct Watched<'a> {
    alloc: Global,
    machine: PausingMachine,
    slot: MemorySlot,
    lines: Lines,
    commands: Commands<'a>,
}

impl Watched<'_> {
    /// Answers the event that is waited for.
    fn answer(&mut self, event: Event) -> Result<(), Halt> {
        match event {
            Event::Save => keep_game(self.alloc, &mut self.machine, &mut self.slot)?,
            Event::Restore => bring_game(self.alloc, &mut self.machine, &mut self.slot)?,
            Event::Line(_, _) | Event::Char => {
                let machine = self.machine.machine();
                match next_line(&mut self.lines, &mut self.commands, machine) {
                    Input::Line(codes) => answer_read(&mut self.machine, codes.as_slice()),
                    Input::End | Input::Failed => return Err(Halt::Stopped),
                }
            }
        }
        Ok(())
    }

    /// Carries one instruction out, after a look at it, or answers the event that is waited for.
    fn step(&mut self, look: &mut Look<'_, '_>) -> Result<(), Halt> {
        if let Some(event) = self.machine.machine().waiting() {
            return self.answer(event);
        }
        look.look_at(self.machine.machine())?;
        match self.machine.run_for(&mut Unshown, &mut Unnoted, 1) {
            Ok(Reached::Pause | Reached::Answer(_)) => Ok(()),
            Ok(Reached::NoMemory) => Err(Halt::Memory),
            Err(Stop::Memory) => Err(Halt::Memory),
            Err(_) => Err(Halt::Stopped),
        }
    }

    /// Plays up to the stop.
    fn play(&mut self, look: &mut Look<'_, '_>) -> Result<(), AllocError> {
        // a machine's limits end it long before
        for _step in 0..u64::MAX {
            match self.step(look) {
                Ok(()) => {}
                Err(Halt::Stopped) => return Ok(()),
                Err(Halt::Memory) => return Err(AllocError),
            }
        }
        Ok(())
    }
}

/// Whether a play could not begin since there was no memory.
fn lacks_memory(exit: &Exit) -> bool {
    match exit {
        Exit::Stopped(_) | Exit::Refused(OpenError::OutOfMemory) => true,
        Exit::Unread(error) => error.kind() == ErrorKind::OutOfMemory,
        _ => false,
    }
}

/// What a play of commands does that an author hardly means, by the names of its story, if there are some: an array
/// that is accessed outside its bounds, a call of routine 0, an object that is moved into itself. It is played for that
/// alone, and shows nothing. The texts that it prints by their addresses are noted where that is asked for.
pub(crate) fn misuses_in_play(
    alloc: Global,
    story: File,
    settings: Settings,
    commands: &[u8],
    names: Option<&Names<'_>>,
    texts: Option<&mut Cover>,
) -> Result<Vec<SeenMisuse>, AllocError>
    requires { AreInRange settings.limits }
{
    let arrays = extents_of(alloc, names)?;
    let mut look = Look {
        alloc,
        names,
        arrays: arrays.as_slice(),
        seen: Vec::new(alloc),
        texts,
    };
    let about = About::new("", "");
    let request = PlayRequest {
        story,
        about: &about,
        settings,
    };
    let machine = match start(alloc, request) {
        Ok(machine) => machine,
        Err(exit) if lacks_memory(&exit) => return Err(AllocError),
        // the play itself tells why it can't begin
        Err(_) => return Ok(look.seen),
    };
    let session = Session::new(alloc);
    let mut watched = Watched {
        alloc,
        machine: PausingMachine::of(alloc, machine)?,
        slot: MemorySlot::new(alloc),
        lines: Lines::new(),
        commands: Commands::new(&session, commands),
    };
    watched.play(&mut look)?;
    Ok(look.seen)
}
