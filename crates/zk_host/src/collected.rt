// Text that a play has shown and nobody has taken yet.

ghost use Rattle.std.specs.Prelude.{◌≡◌, ◌+◌, [], ◌∷◌, bit_or, false, if◌then◌else◌, nat_le, true, Some, slice_get};
ghost use Rattle.zk_host.specs.Marks.{marked_if, marks_in, plain_run, run_by, run_of, run_told, taken_from};
ghost use Rattle.zk_term.specs.Signals.Signal.{Text as TextSignal};
ghost use Rattle.zk_host.specs.Collecting.{has_no_room, is_lost, most_past_room, nothing_collected, waiting_of};
ghost use Rattle.zk_host.specs.Collecting.{wants_pause};
ghost use Rattle.zk_host.specs.Marks.{with_styles};

use crate::marks::{ERASED, Run, bleep_mark, style_mark};
use crate::text::Text;
use std::alloc::Global;
use zk_term::screen::Screen;
use zk_term::style::{Bleep, Style};
use zk_term::target::{Failed, write_all, write_char};

/// One instruction shows at most so many bytes past the room.
const MOST_PAST_ROOM: u64 = 1_048_576;

/// UTF-8 of the screen and of the transcript that waits to be taken, and in how much room. There is memory for what may
/// be shown at once before it is shown, or `short` says that there is none. What is shown is lost where there is no
/// memory for it, or much more of it than there is room for.
#[derive(Drop)]
pub struct Collected {
    pub screen: Text,
    pub script: Text,
    pub room: u32,
    /// The mark of each byte of the screen's text, where they are kept.
    pub marks: Text,
    /// The marks of what came after the last byte.
    pub before: u8,
    /// Marks are kept.
    pub styled: bool,
    /// What came before the first byte was told.
    pub told: bool,
    /// An instruction has shown too much past the room.
    pub too_much: bool,
    /// There is no memory for what may be shown at once.
    pub short: bool,
}

impl Collected {
    /// No text.
    pub fn new(alloc: Global) -> Collected
        ensures { result ≡ nothing_collected }
    {
        Collected {
            screen: Text::new(alloc),
            script: Text::new(alloc),
            marks: Text::new(alloc),
            before: 0,
            styled: false,
            told: false,
            room: 0,
            too_much: false,
            short: false,
        }
    }

    /// Whether so many bytes wait, or more. (Both lengths together could pass a word.)
    fn has(&self, bytes: u64) -> bool
        ensures { result ≡ nat_le bytes (waiting_of self.now) }
    {
        bytes.saturating_sub(self.screen.len() as u64) <= self.script.len() as u64
    }

    /// Whether some text was lost.
    pub fn is_lost(&self) -> bool
        ensures { result ≡ is_lost self.now }
    {
        self.too_much
            || (self.screen.has_failed() || (self.script.has_failed() || self.marks.has_failed()))
    }

    /// Whether as much waits as there is room for, or more.
    pub fn has_no_room(&self) -> bool
        ensures { result ≡ has_no_room self.now }
    {
        self.has(self.room as u64)
    }

    /// Makes room for what may be shown at once. Says whether there is memory for it.
    pub fn make_room(&mut self) -> bool
        ensures value { self.new ≡ record self.old { short = self.new.short } }
        ensures told { result ≡ (if self.new.short then false else true) }
    {
        self.short = !(self.screen.make_room()
            && self.script.make_room()
            && self.make_marks_room());
        !self.short
    }

    /// Keeps marks from now on, where no text waits.
    pub fn keep_styles(&mut self)
        ensures { self.new ≡ with_styles self.old }
    {
        if self.screen.len() == 0 && self.marks.len() == 0 {
            self.styled = true;
        }
    }

    /// Tells how the first bytes of the screen's text are shown, and what came before them, which is told once.
    pub fn next_run(&mut self) -> Run
        ensures value { result ≡ run_of self.old }
        ensures told { self.new ≡ run_told self.old }
    {
        if !self.styled {
            return self.plain_run(0);
        }
        match self.marks.first() {
            Some(mark) => self.run_from(mark),
            None => {
                let run = self.plain_run(self.before);
                self.before = 0;
                run
            }
        }
    }

    /// All bytes that wait, in no style.
    fn plain_run(&self, before: u8) -> Run
        ensures { result ≡ plain_run self.now before }
    {
        Run {
            length: self.screen.len(),
            style: 0,
            before: before as u32,
        }
    }

    /// The run that begins with a mark.
    fn run_from(&mut self, mark: u8) -> Run
        requires { slice_get self.old.marks.bytes 0 ≡ Some mark }
        ensures value { result ≡ run_by self.old.marks.bytes self.old }
        ensures told { self.new ≡ record self.old { told = true } }
    {
        let style = mark % 16;
        let before = if self.told { 0 } else { mark / 16 * 16 };
        self.told = true;
        // (the length of a list fits in a word, and so the run's does)
        self.marks.len();
        Run {
            length: self.marks.same_from(1, style) + 1,
            style: style as u32,
            before: before as u32,
        }
    }

    /// Passes over the marks of bytes that were taken.
    pub fn pass_marks(&mut self, count: usize)
        ensures { self.new ≡ taken_from self.old self.old.screen count }
    {
        if count > 0 {
            self.marks.pass(count);
            self.told = false;
        }
    }

    /// Makes room for the marks of what may be shown at once, where they are kept. Says whether there is memory for it.
    fn make_marks_room(&mut self) -> bool
        ensures { self.new ≡ self.old }
    {
        if self.styled {
            return self.marks.make_room();
        }
        true
    }

    /// Marks the bytes of a character, where marks are kept.
    fn mark(&mut self, c: char, style: Style)
        ensures same { self.new ≡ record self.old { marks = self.new.marks; before = self.new.before } }
        ensures marked { self.new.marks.failed ≡ false
            → marks_in self.new ≡ marked_if self.old.styled (TextSignal c style ∷ []) (marks_in self.old) }
    {
        if !self.styled {
            return;
        }
        let mark = style_mark(style);
        let marks = [mark | self.before, mark, mark, mark];
        match write_all(&mut self.marks, &marks[..c.len_utf8()]) {
            Ok(()) => self.before = 0,
            Err(Failed) => {}
        }
    }

    /// Marks what comes next, where marks are kept.
    fn mark_next(&mut self, mark: u8)
        ensures { self.new ≡ (if self.old.styled then record self.old { before = bit_or self.old.before mark }
            else self.old) }
    {
        if self.styled {
            self.before |= mark;
        }
    }

    /// Makes room again behind a character for the screen.
    fn keep_screen_room(&mut self)
        ensures { self.new ≡ record self.old { short = self.new.short } }
    {
        if !self.short {
            self.short = !(self.screen.make_room() && self.make_marks_room());
        }
    }

    /// Makes room again behind a character for the transcript.
    fn keep_script_room(&mut self)
        ensures { self.new ≡ record self.old { short = self.new.short } }
    {
        if !self.short {
            self.short = !self.script.make_room();
        }
    }

    /// Whether more is to be shown only after a pause: there is no room, or no memory.
    fn wants_pause(&self) -> bool
        ensures { result ≡ wants_pause self.now }
    {
        self.has_no_room() || self.short
    }

    /// Whether an instruction has shown too much past the room.
    fn is_overfull(&self) -> bool
        ensures { result ≡ nat_le (self.now.room + most_past_room) (waiting_of self.now) }
    {
        self.has(self.room as u64 + MOST_PAST_ROOM)
    }
}

impl Screen for Collected {
    ghost use Rattle.zk_host.specs.Collecting.{Collects, collects_nothing, collects_twice, is_lost, wants_pause};

    ghost shows = { Collects };

    ghost failed = { is_lost };

    ghost full = { wants_pause };

    fn text(&mut self, c: char, style: Style) {
        if self.is_lost() {
            return;
        }
        if self.is_overfull() {
            self.too_much = true;
            return;
        }
        match write_char(&mut self.screen, c) {
            Ok(()) => {
                self.mark(c, style);
                self.keep_screen_room();
            }
            Err(Failed) => {}
        }
    }

    fn script(&mut self, c: char) {
        if self.is_lost() {
            return;
        }
        if self.is_overfull() {
            self.too_much = true;
            return;
        }
        match write_char(&mut self.script, c) {
            Ok(()) => self.keep_script_room(),
            Err(Failed) => {}
        }
    }

    fn erase(&mut self) {
        self.mark_next(ERASED);
    }

    fn beep(&mut self, bleep: Bleep) {
        self.mark_next(bleep_mark(bleep));
    }

    fn has_failed(&self) -> bool {
        self.is_lost()
    }

    fn is_full(&self) -> bool {
        self.wants_pause()
    }

    ghost nothing = { collects_nothing };

    ghost twice = { collects_twice };
}
