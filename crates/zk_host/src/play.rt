// A story that is played by calls.

ghost use Rattle.std.specs.Prelude.{◌≡◌, ◌≤◌, ◌+◌, ◌⊎◌, IfErr, IfOk, OnOk, None, Some, false, length, min};
ghost use Rattle.zk_vm.specs.Answers.Answer.{Typed, GameKept, File};
ghost use Rattle.zk_vm.specs.Bounds.{AreInRange};
ghost use Rattle.zk_vm.specs.Plays.{codes_read, image_of};
ghost use Rattle.zk_mem.specs.Header.{header_of};
ghost use Rattle.zk_mem.specs.Story.{refusal};
ghost use Rattle.zk_term.specs.Windows.{row_cells, row_text, tallest_row_cells, tallest_row_text};
ghost use Rattle.zk_vm.specs.Pausing.{HasCome, come_to};
ghost use Rattle.zk_vm.specs.Sessions.{with_grid_forgotten, with_height};
ghost use Rattle.zk_host.specs.Calls.{with_height_kept};
ghost use Rattle.zk_host.specs.Collecting.{Collects, is_lost, wants_pause};
ghost use Rattle.zk_host.specs.Drawing.{longest_line, row_bytes, row_number, row_styles, window_of};
ghost use Rattle.zk_host.specs.Marks.{run_of, run_told, taken_from, with_styles};
ghost use Rattle.zk_snapshot.specs.Opening.{IsRefused};
ghost use Rattle.zk_host.specs.Texts.{IsTaken};

mod beside;
pub mod changing;
mod cloning;
mod coverage;
mod listing;
mod looking;

use crate::collected::Collected;
use crate::drawing::{
    StatusFigures, WindowFigures, figures, line_room, row_of, status_of, styles_of, utf8_of,
    window_of,
};
use crate::listing_run::ListingRun;
use crate::marks::Run;
use crate::name::name_of;
use crate::options::are_within;
use crate::text::Text;
use crate::typed::{code_of, codes_of, ending_key, is_line};
use arrayvec::ArrayVec;
use std::alloc::{AllocError, Global};
use zk_fast::places::{Cover, Unnoted};
use zk_mem::header::Header;
use zk_mem::story::{OpenError, Story};
use zk_snapshot::opening::{SnapshotError, open_snapshot};
use zk_snapshot::snapshot::{has_snapshot, longest_snapshot, snapshot};
use zk_step::state::ending::Event;
use zk_step::state::game_state::View;
use zk_vm::limits::Limits;
use zk_vm::machine::Machine;
use zk_vm::machine::pausing::{PausingMachine, Reached};
use zk_vm::stop::Stop;

/// Why an answer is refused.
#[derive(Clone, Copy, Drop)]
pub enum Refusal {
    /// Something else is waited for, or nothing.
    NotAwaited,
    /// The bytes are no line.
    NotALine,
    /// There is no memory.
    Memory,
    /// There is no state to go back to.
    NoState,
    /// The listing has more bytes than it may.
    TooLong,
    /// The texts of the listing have more words than may be looked at.
    TooManyWords,
    /// The key ends no line of the story.
    NotAKey,
    /// The story could not make the change.
    NotChanged,
}

/// Why no play goes on from a snapshot.
#[derive(Clone, Copy, Drop)]
pub enum SnapshotRefusal {
    /// The story's bytes are no story, or there is no memory for it.
    Story(OpenError),
    /// The bytes are no snapshot of it, or there is no memory.
    Snapshot(SnapshotError),
    /// The snapshot's limits go beyond those that it may have.
    Limits,
}

/// What a turn has come to.
#[derive(Clone, Copy, Drop)]
pub enum Asked {
    /// The story waits for an answer.
    Answer(Event),
    /// As much text waits as there is room for.
    Room,
    /// The instructions of the turn are used up.
    Time,
    /// There is no memory for text, or for a state that the next instruction keeps.
    Memory,
}

/// A machine, the text that it has shown and that was not taken yet, and why its last turn ended.
#[derive(Drop)]
pub struct Play {
    machine: PausingMachine,
    // the story that is played, whose file other plays may share
    story: Story,
    text: Collected,
    // what a host asks for beside the play: the name in the status line, and a listing
    name: Collected,
    listing: Text,
    // a listing of which lines are still to be written
    run: Option<Box<ListingRun>>,
    stopped: Option<Stop>,
    // which instructions were carried out, where that is noted
    cover: Option<Cover>,
}

/// Runs a machine as its own `run_for`, and notes the instructions where that is wanted.
fn run_noting(
    machine: &mut PausingMachine,
    text: &mut Collected,
    cover: &mut Option<Cover>,
    steps: u32,
) -> Result<Reached, Stop>
    requires free { machine.old.waiting ≡ None }
    requires room { wants_pause text.old ≡ false }
    ensures logged { HasCome Collects wants_pause is_lost text.old text.new (machine.old.state.steps + steps)
        machine.old machine.new (come_to result) }
    ensures stops { IfErr result (λ stop. machine.new.stopped ≡ Some stop) }
{
    match cover {
        None => machine.run_for(text, &mut Unnoted, steps),
        Some(cover) => machine.run_for(text, cover, steps),
    }
}

/// Gives the upper window back that a restore has closed: past version 3 a story may think that it is still there (see
/// `split_window`, section 15). In version 3 it asks for it again.
fn keep_height(machine: &mut PausingMachine, height: u8)
    ensures { machine.new ≡ with_height_kept height machine.old }
{
    let now = machine.machine();
    if now.memory().version() > 3 && now.windows().height() < height {
        machine.split(height as u16);
    }
}

impl Play {
    ghost use Rattle.zk_host.specs.Calls.{begun_play, play_of, IsOpenedFrom, IsPlayOpened, IsSnapshot};
    ghost use Rattle.zk_host.specs.Calls.{longest_snapshot, awaited, pause_of, HasRun, IsGivenUnless, IsGoneBack};
    ghost use Rattle.zk_host.specs.Calls.{IsImage, IsStatus, IsTurned, line_refused};
    ghost use Rattle.zk_host.specs.Calls.{character_refused};
    ghost use Rattle.zk_host.specs.Calls.{read_refused, save_refused, restore_refused, character_read};
    ghost use Rattle.zk_host.specs.Calls.{IsRestoredUnless, done_unless, split_refused};
    ghost use Rattle.std.specs.Prelude.{Option, Some, None, false, option_copied, ◌∷◌, []};

    /// A play of a story's machine, with no text.
    pub(crate) fn of(alloc: Global, story: Story, machine: Machine) -> Result<Box<Play>, AllocError>
        ensures { IfOk result (λ p. p.value ≡ play_of story machine) }
    {
        let machine = PausingMachine::of(alloc, machine)?;
        let play = Play {
            machine,
            story,
            text: Collected::new(alloc),
            name: Collected::new(alloc),
            listing: Text::new(alloc),
            run: None,
            stopped: None,
            cover: None,
        };
        match Box::new(alloc, play) {
            Ok(play) => Ok(play),
            Err(_) => Err(AllocError),
        }
    }

    /// A play at the start of a story.
    fn start(
        alloc: Global,
        story: Story,
        seed: u64,
        limits: Limits,
        view: View,
    ) -> Result<Box<Play>, AllocError>
        requires { AreInRange limits }
        ensures { IfOk result (λ p. p.value ≡ begun_play story seed limits view) }
    {
        let kept = story.try_clone()?;
        let machine = Machine::start(alloc, story, seed, limits, view)?;
        Play::of(alloc, kept, machine)
    }

    /// A play at the start of the story that bytes are, or why they are none; lack of memory is looked for last.
    pub fn open(
        alloc: Global,
        story: &[u8],
        seed: u64,
        limits: Limits,
        view: View,
    ) -> Result<Box<Play>, OpenError>
        requires { AreInRange limits }
        ensures begun { IfOk result
            (λ p. p.value ≡ begun_play story.now seed limits view) }
        ensures story { OnOk result (refusal story.now ≡ None) }
        ensures refused { IfErr result (λ e. (refusal story.now ≡ Some e)
            ⊎ ((e ≡ OpenError.OutOfMemory) × (refusal story.now ≡ None))) }
    {
        let story = Story::open(alloc, story)?;
        match Play::start(alloc, story, seed, limits, view) {
            Ok(play) => Ok(play),
            Err(AllocError) => Err(OpenError::OutOfMemory),
        }
    }

    /// A play that goes on from a snapshot of a story, with no text, where its limits lie within others.
    fn opened(
        alloc: Global,
        story: Story,
        bytes: &[u8],
        most: Limits,
    ) -> Result<Box<Play>, SnapshotRefusal>
        ensures { IsPlayOpened story bytes.now most result }
    {
        let Ok(kept) = story.try_clone() else {
            return Err(SnapshotRefusal::Snapshot(SnapshotError::OutOfMemory));
        };
        let machine = match open_snapshot(alloc, story, bytes) {
            Ok(machine) => machine,
            Err(error) => return Err(SnapshotRefusal::Snapshot(error)),
        };
        if !are_within(machine.limits(), most) {
            return Err(SnapshotRefusal::Limits);
        }
        match Play::of(alloc, kept, machine) {
            Ok(play) => Ok(play),
            Err(_) => Err(SnapshotRefusal::Snapshot(SnapshotError::OutOfMemory)),
        }
    }

    /// A play that goes on from a snapshot of the story that bytes are, where its limits lie within others. The story
    /// is looked at first, then the snapshot, and then its limits.
    pub fn open_snapshot(
        alloc: Global,
        story: &[u8],
        bytes: &[u8],
        most: Limits,
    ) -> Result<Box<Play>, SnapshotRefusal>
        ensures { IsOpenedFrom story.now bytes.now most result }
    {
        match Story::open(alloc, story) {
            Ok(story) => match Play::opened(alloc, story, bytes, most) {
                Ok(play) => Ok(play),
                Err(refusal) => Err(refusal),
            },
            Err(error) => Err(SnapshotRefusal::Story(error)),
        }
    }

    /// Runs the story up to its next event or its stop, for so many instructions at most and while there is room and
    /// memory for its text, which it collects, and memory for the states that it keeps. Where an event waits for its
    /// answer already, or the story has stopped, that is told again; where there is no room, or no memory, nothing is
    /// run.
    pub fn turn(&mut self, steps: u32, room: u32) -> Result<Asked, Stop>
        ensures { IsTurned self.old self.new steps room result }
    {
        if let Some(event) = self.machine.machine().waiting() {
            return Ok(Asked::Answer(event));
        }
        if let Some(stop) = self.stopped {
            return Err(stop);
        }
        self.text.room = room;
        if self.text.has_no_room() {
            return Ok(Asked::Room);
        }
        if !self.text.make_room() {
            return Ok(Asked::Memory);
        }
        self.run(steps)
    }

    /// Runs the story where there is room and memory for text.
    fn run(&mut self, steps: u32) -> Result<Asked, Stop>
        requires free { self.old.machine.waiting ≡ None }
        requires runs { self.old.stopped ≡ None }
        requires room { wants_pause self.old.text ≡ false }
        ensures { HasRun self.old self.new steps result }
    {
        let ran = run_noting(&mut self.machine, &mut self.text, &mut self.cover, steps);
        if self.text.is_lost() {
            self.machine.close(Stop::Write);
            self.stopped = Some(Stop::Write);
            return Err(Stop::Write);
        }
        match ran {
            Ok(Reached::Answer(event)) => Ok(Asked::Answer(event)),
            Ok(Reached::Pause) => Ok(self.pause()),
            Ok(Reached::NoMemory) => Ok(Asked::Memory),
            Err(stop) => {
                self.stopped = Some(stop);
                Err(stop)
            }
        }
    }

    /// Why a run has paused.
    fn pause(&self) -> Asked
        ensures { result ≡ pause_of self.now }
    {
        if self.text.has_no_room() {
            Asked::Room
        } else if self.text.short {
            Asked::Memory
        } else {
            Asked::Time
        }
    }

    /// Keeps the style of each character of the screen from now on, where no text waits.
    pub fn keep_styles(&mut self)
        ensures { self.new ≡ record self.old { text = with_styles self.old.text } }
    {
        self.text.keep_styles();
    }

    /// Tells how the first bytes of the screen's text are shown, and what came before them, which is told once.
    pub fn next_run(&mut self) -> Run
        ensures value { result ≡ run_of self.old.text }
        ensures told { self.new ≡ record self.old { text = run_told self.old.text } }
    {
        self.text.next_run()
    }

    /// Takes text of the screen from the front into a buffer, with its marks, and says how many bytes.
    pub fn take_text(&mut self, buffer: &mut [u8]) -> usize
        ensures text { IsTaken self.old.text.screen self.new.text.screen buffer.old buffer.new result }
        ensures beside { self.new ≡ record self.old
            { text = taken_from self.old.text self.new.text.screen result } }
    {
        let count = self.text.screen.take(buffer);
        self.text.pass_marks(count);
        count
    }

    /// Takes text of the transcript from the front into a buffer, and says how many bytes.
    pub fn take_script(&mut self, buffer: &mut [u8]) -> usize
        ensures text { IsTaken self.old.text.script self.new.text.script buffer.old buffer.new result }
        ensures beside { self.new
            ≡ record self.old { text = record self.old.text { script = self.new.text.script } } }
    {
        self.text.script.take(buffer)
    }

    /// Answers a read by a line, its bytes without a new line, and the ZSCII code of the key that ended it: 13 for a
    /// new line, or one that the story has in its table of terminating characters.
    pub fn line(&mut self, line: &[u8], key: u32) -> Result<(), Refusal>
        ensures { IsGivenUnless (line_refused (awaited self.old) self.old.machine.state.game.memory line.now key)
            (with_grid_forgotten self.old.machine) self.old self.new result
            (Typed (codes_read self.old.machine line.now) key) }
    {
        let Some(Event::Line(_, _)) = self.machine.machine().waiting() else {
            return Err(Refusal::NotAwaited);
        };
        if !is_line(line) {
            return Err(Refusal::NotALine);
        }
        let Some(key) = ending_key(self.machine.machine().memory(), key) else {
            return Err(Refusal::NotAKey);
        };
        let codes = codes_of(self.machine.machine().memory(), line);
        self.machine.forget_grid();
        self.machine.answer_line(codes.as_slice(), key);
        Ok(())
    }

    /// Answers a read by a character, or by a key that gives none, where there are such keys.
    pub fn character(&mut self, character: u32, keys: bool) -> Result<(), Refusal>
        ensures { IsGivenUnless (character_refused (awaited self.old))
            (with_grid_forgotten self.old.machine) self.old self.new result
            (Typed (character_read self.old.machine keys character ∷ []) 13) }
    {
        let Some(Event::Char) = self.machine.machine().waiting() else {
            return Err(Refusal::NotAwaited);
        };
        let code = code_of(self.machine.machine().memory(), keys, character);
        self.machine.forget_grid();
        self.machine.answer_char(code);
        Ok(())
    }

    /// The file of the saved game that waits to be kept.
    pub fn image(&self, alloc: Global) -> Result<Vec<u8>, Refusal>
        ensures { IsImage (save_refused (awaited self.now)) self.now result }
    {
        let Some(Event::Save) = self.machine.machine().waiting() else {
            return Err(Refusal::NotAwaited);
        };
        match self.machine.machine().image(alloc) {
            Ok(file) => Ok(file),
            Err(_) => Err(Refusal::Memory),
        }
    }

    /// The snapshot of a play that waits for a line or a character, with as many of its newest states as fit in so many
    /// bytes.
    pub fn snapshot(&self, alloc: Global, most: usize) -> Result<Vec<u8>, Refusal>
        ensures { IsSnapshot self.now most result }
    {
        if !has_snapshot(self.machine.machine()) {
            return Err(Refusal::NotAwaited);
        }
        match snapshot(alloc, self.machine.machine(), most) {
            Ok(bytes) => Ok(bytes),
            Err(_) => Err(Refusal::Memory),
        }
    }

    /// How many bytes a snapshot of the play has at most, now or later, with so many bytes of states.
    pub fn longest_snapshot(&self, most: usize) -> usize
        ensures { result ≡ longest_snapshot self.now most }
    {
        longest_snapshot(self.machine.machine(), most)
    }

    /// Answers whether the saved game was kept.
    pub fn save(&mut self, kept: bool) -> Result<(), Refusal>
        ensures { IsGivenUnless (save_refused (awaited self.old)) self.old.machine self.old self.new result
            (GameKept kept) }
    {
        let Some(Event::Save) = self.machine.machine().waiting() else {
            return Err(Refusal::NotAwaited);
        };
        self.machine.answer_save(kept);
        Ok(())
    }

    /// Answers by a saved game, or by none. Past version 3 the upper window keeps its height.
    pub fn restore(&mut self, file: Option<&[u8]>) -> Result<(), Refusal>
        ensures { IsRestoredUnless (restore_refused (awaited self.old)) self.old self.new result
            (File (option_copied file.entry)) }
    {
        let Some(Event::Restore) = self.machine.machine().waiting() else {
            return Err(Refusal::NotAwaited);
        };
        let height = self.machine.machine().windows().height();
        self.machine.answer_restore(file);
        keep_height(&mut self.machine, height);
        Ok(())
    }

    /// Goes back to the newest state that the story has kept, in place of an answer to a read.
    pub fn go_back(&mut self) -> Result<(), Refusal>
        ensures { IsGoneBack (read_refused (awaited self.old)) self.old self.new result }
    {
        let (Some(Event::Line(_, _)) | Some(Event::Char)) = self.machine.machine().waiting() else {
            return Err(Refusal::NotAwaited);
        };
        if self.machine.go_back() {
            Ok(())
        } else {
            Err(Refusal::NoState)
        }
    }

    /// The most letters of the line that is awaited.
    pub fn longest_line(&self) -> u8
        ensures { result ≡ longest_line self.now.machine.state.game.memory (awaited self.now) }
    {
        match self.machine.machine().waiting() {
            Some(Event::Line(text, _)) => line_room(self.machine.machine().memory(), text),
            Some(Event::Char | Event::Save | Event::Restore) => 0,
            None => 0,
        }
    }

    /// Gives the upper window so many rows, 255 at most, as the story's `split_window` would. That is refused in the
    /// middle of an instruction's text.
    pub fn split(&mut self, rows: u32) -> Result<(), Refusal>
        ensures told { result ≡ done_unless (split_refused self.old) }
        ensures split { self.new ≡ record self.old { machine = with_height self.old.machine (min rows 255) } }
    {
        if self.machine.split(rows.min(255) as u16) {
            Ok(())
        } else {
            Err(Refusal::NotAwaited)
        }
    }

    /// How the upper window stands.
    pub fn window(&self) -> WindowFigures
        ensures { result ≡ window_of self.now.machine.state.game.windows }
    {
        window_of(self.machine.machine().windows())
    }

    /// The UTF-8 of a row of the upper window.
    pub fn row(&self, row: u32) -> ArrayVec<u8, 1020>
        ensures { result.items ≡ row_bytes (row_text self.now.machine.state.game.windows) (row_number row) }
    {
        match row_of(row) {
            Some(row) => utf8_of(self.machine.machine().windows().row(row)),
            None => ArrayVec::new(),
        }
    }

    /// The UTF-8 of a row of the tallest grid since the last answer to a read.
    pub fn tallest_row(&self, row: u32) -> ArrayVec<u8, 1020>
        ensures { result.items ≡ row_bytes (tallest_row_text self.now.machine.state.game.windows) (row_number row) }
    {
        match row_of(row) {
            Some(row) => utf8_of(self.machine.machine().windows().tallest_row(row)),
            None => ArrayVec::new(),
        }
    }

    /// The text styles of the cells of a row of the upper window, a number each, up to the last cell that is not empty.
    pub fn row_styles(&self, row: u32) -> ArrayVec<u8, 255>
        ensures { result.items ≡ row_styles (row_cells self.now.machine.state.game.windows) (row_number row) }
    {
        match row_of(row) {
            Some(row) => styles_of(self.machine.machine().windows().row_cells(row)),
            None => ArrayVec::new(),
        }
    }

    /// The same for a row of the tallest grid since the last answer to a read.
    pub fn tallest_row_styles(&self, row: u32) -> ArrayVec<u8, 255>
        ensures { result.items ≡ row_styles (tallest_row_cells self.now.machine.state.game.windows) (row_number row) }
    {
        match row_of(row) {
            Some(row) => styles_of(self.machine.machine().windows().tallest_row_cells(row)),
            None => ArrayVec::new(),
        }
    }

    /// The figures of the status line, whose name is collected.
    pub fn status(&mut self, alloc: Global) -> StatusFigures
        ensures { IsStatus self.old self.new result }
    {
        let status = status_of(self.machine.machine().memory());
        self.name = name_of(alloc, self.machine.machine().memory(), status);
        figures(status)
    }

    /// Takes text of the name in the status line from the front into a buffer, and says how many bytes.
    pub fn take_name(&mut self, buffer: &mut [u8]) -> usize
        ensures text { IsTaken self.old.name.screen self.new.name.screen buffer.old buffer.new result }
        ensures beside { self.new
            ≡ record self.old { name = record self.old.name { screen = self.new.name.screen } } }
    {
        self.name.screen.take(buffer)
    }

    /// What the story's file says of it.
    pub fn header(&self) -> Header
        ensures { result ≡ header_of self.now.machine.state.game.memory.file }
    {
        self.machine.machine().memory().header()
    }

    /// Whether an instruction has shown too much text.
    pub fn has_shown_too_much(&self) -> bool
        ensures { result ≡ self.now.text.too_much }
    {
        self.text.too_much
    }

    /// Why the last turn has ended the story, where it has.
    pub fn stopped(&self) -> Option<Stop>
        ensures { result ≡ self.now.stopped }
    {
        self.stopped
    }
}
