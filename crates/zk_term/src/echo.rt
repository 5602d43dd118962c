// A source whose bytes are shown.

ghost use Rattle.std.specs.Prelude.{◌≡◌, ◌<◌, ◌≤◌, ◌||◌, length, is_err, take, IfOk, OnErr, true, false};
ghost use Rattle.std.specs.Io.{ReadsAtMost};
ghost use Rattle.std.specs.Io.KnownBytes.{ReadConsumes};
ghost use Rattle.zk_term.specs.Echoes.{in_line_after, shown_of, TookAll};

use crate::source::Source;
use crate::target::{Failed, Target, write_all};

/// A source over another, which shows what it gives, where that is asked for: each byte when it is read, so that a line
/// is shown when it is asked for and not before. A last line that has no new line gets one. What can't be shown is left
/// out.
#[derive(Drop)]
pub struct Echo<I, S> {
    input: I,
    screen: S,
    is_on: bool,
    // the last byte that was shown was no new line
    in_line: bool,
}

impl<I, S> Echo<I, S> {
    pub fn new(input: I, screen: S, is_on: bool) -> Echo<I, S>
        ensures { result ≡ record { input = input; screen = screen; is_on = is_on; in_line = false } }
    {
        Echo {
            input,
            screen,
            is_on,
            in_line: false,
        }
    }
}

impl<I, S: Target> Echo<I, S> {
    /// Shows a byte that was read, or none at the end of the input: then a new line, where the last line has none.
    fn show(&mut self, bytes: &[u8])
        requires { length bytes.now ≤ 1 }
        ensures input { self.new.input ≡ self.old.input }
        ensures is_on { self.new.is_on ≡ self.old.is_on }
        ensures shown { TookAll (S.taken self.old.screen) (S.taken self.new.screen)
            (S.failed self.new.screen) (shown_of bytes.now self.old.in_line) }
        ensures in_line { self.new.in_line ≡ in_line_after bytes.now }
    {
        let _ = match bytes {
            [] if self.in_line => write_all(&mut self.screen, b"\n"),
            _ => write_all(&mut self.screen, bytes),
        };
        self.in_line = match bytes {
            [byte, ..] => *byte != b'\n',
            [] => false,
        };
    }
}

impl<I: Source, S: Target> Echo<I, S> {
    /// Reads one byte, and shows it. Where the read fails nothing is shown.
    fn read_shown(&mut self, buffer: &mut [u8]) -> Result<usize, Failed>
        requires room { 0 < length buffer.old }
        ensures count { ReadsAtMost result buffer.new }
        ensures bytes { ReadConsumes (I.left self.old.input) (I.left self.new.input) result buffer.new }
        ensures failed { I.failed self.new.input ≡ (is_err result || I.failed self.old.input) }
        ensures fails { OnErr result (I.fails self.old.input self.new.input) }
        ensures gives { IfOk result
            (λ n. I.gives self.old.input self.new.input (take n buffer.new)) }
        ensures ends { IfOk result (λ n. n ≡ 0 → I.ends self.old.input self.new.input) }
        ensures is_on { self.new.is_on ≡ self.old.is_on }
        ensures one { IfOk result (λ n. n ≤ 1) }
        ensures shown { IfOk result (λ n. TookAll (S.taken self.old.screen)
            (S.taken self.new.screen) (S.failed self.new.screen)
            (shown_of (take n buffer.new) self.old.in_line)) }
        ensures in_line { IfOk result (λ n. self.new.in_line ≡ in_line_after (take n buffer.new)) }
        ensures unshown { OnErr result ((self.new.screen ≡ self.old.screen)
            × (self.new.in_line ≡ self.old.in_line)) }
    {
        let count = self.input.read(&mut buffer[..1])?;
        self.show(&buffer[..count]);
        Ok(count)
    }
}

impl<I: Source, S: Target> Source for Echo<I, S> {
    ghost left = { λ e. I.left e.input };

    ghost failed = { λ e. I.failed e.input };

    ghost fails = { λ a b. I.fails a.input b.input };

    ghost gives = { λ a b bytes. I.gives a.input b.input bytes };

    ghost ends = { λ a b. I.ends a.input b.input };

    fn read(&mut self, buffer: &mut [u8]) -> Result<usize, Failed>
        ensures count { ReadsAtMost result buffer.new }
        ensures bytes { ReadConsumes (I.left self.old.input) (I.left self.new.input) result buffer.new }
        ensures failed { I.failed self.new.input ≡ (is_err result || I.failed self.old.input) }
        ensures fails { OnErr result (I.fails self.old.input self.new.input) }
        ensures gives { IfOk result
            (λ n. I.gives self.old.input self.new.input (take n buffer.new)) }
        ensures ends { 0 < length buffer.new → IfOk result
            (λ n. n ≡ 0 → I.ends self.old.input self.new.input) }
        ensures is_on { self.new.is_on ≡ self.old.is_on }
        ensures one { self.old.is_on ≡ true → 0 < length buffer.new → IfOk result (λ n. n ≤ 1) }
        ensures shown { self.old.is_on ≡ true → 0 < length buffer.new → IfOk result
            (λ n. TookAll (S.taken self.old.screen) (S.taken self.new.screen)
            (S.failed self.new.screen) (shown_of (take n buffer.new) self.old.in_line)
            × (self.new.in_line ≡ in_line_after (take n buffer.new))) }
        ensures unshown { OnErr result ((self.new.screen ≡ self.old.screen)
            × (self.new.in_line ≡ self.old.in_line)) }
        ensures off { self.old.is_on ≡ false → (self.new.screen ≡ self.old.screen)
            × (self.new.in_line ≡ self.old.in_line) }
    {
        if self.is_on && !buffer.is_empty() {
            return self.read_shown(buffer);
        }
        self.input.read(buffer)
    }
}
