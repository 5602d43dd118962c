// A target whose lines are wrapped at words.

ghost use Rattle.std.specs.Prelude.{◌≡◌, ◌<◌, ◌≤◌, ◌||◌, [], length, is_err, IsSome, IfOk, OnOk};
ghost use Rattle.std.specs.Io.KnownBytes.{Keeps, WriteAppends};
ghost use Rattle.zk_term.specs.WrappedTargets.{from_a_line, StaysOpen, HasFlushed, HasTaken, HasWritten, HoldsNothing};
ghost use Rattle.zk_term.specs.WrappedTargets.{in_open_line, told, width_of};

use crate::open_line::Line;
use crate::target::{Failed, Target};

/// A target over another, which wraps the text that it takes at words, if it has a width. Then it holds back the last
/// word of the open line with the space before it, as long as that fits.
#[derive(Drop)]
pub struct Wrapped<T> {
    inner: T,
    line: Option<Line>,
}

impl<T: Target> Wrapped<T> {
    /// Over a target, with lines of so many columns, or with lines as they come.
    pub fn new(target: T, width: Option<u8>) -> Wrapped<T>
        ensures inner { result.inner ≡ target }
        ensures width { width_of result.line ≡ width }
        ensures written { HasWritten (from_a_line width) (T.taken target) [] result.line
            (T.taken result.inner) }
    {
        match width {
            None => Wrapped {
                inner: target,
                line: None,
            },
            Some(width) => Wrapped {
                inner: target,
                line: Some(Line::new(width as usize)),
            },
        }
    }

    /// Takes bytes of a text: with a width all of them, and without one as many as the target behind takes.
    pub fn take(&mut self, bytes: &[u8]) -> Result<usize, Failed>
        ensures width { width_of self.new.line ≡ width_of self.old.line }
        ensures count { IfOk result (λ n. n ≤ length bytes.now) }
        ensures progress { 0 < length bytes.now → IfOk result (λ n. 0 < n) }
        ensures all { IsSome self.old.line → IfOk result (λ n. n ≡ length bytes.now) }
        ensures written { HasTaken self.old.line self.new.line (T.taken self.old.inner)
            (T.taken self.new.inner) result bytes.now }
        ensures told { WriteAppends (told self.old.line (T.taken self.old.inner))
            (told self.new.line (T.taken self.new.inner)) result bytes.now }
        ensures failed { T.failed self.new.inner ≡ (is_err result || T.failed self.old.inner) }
    {
        match &mut self.line {
            None => self.inner.write(bytes),
            Some(line) => line.write_to(&mut self.inner, bytes),
        }
    }

    /// Gives out what it holds back, and so does the target behind. The open line goes on.
    pub fn give_out(&mut self) -> Result<(), Failed>
        ensures same { StaysOpen result self.old.line self.new.line }
        ensures written { HasFlushed self.old.line (T.taken self.old.inner)
            (T.taken self.new.inner) result }
        ensures goes_on { OnOk result (HasWritten (in_open_line self.new.line)
            (T.taken self.new.inner) [] self.new.line (T.taken self.new.inner)) }
        ensures whole { OnOk result (HoldsNothing self.new.line × T.whole self.new.inner) }
        ensures told { Keeps (told self.old.line (T.taken self.old.inner))
            (told self.new.line (T.taken self.new.inner)) }
        ensures failed { T.failed self.new.inner ≡ (is_err result || T.failed self.old.inner) }
    {
        if let Some(line) = &mut self.line {
            match line.flush(&mut self.inner) {
                Ok(()) => {}
                Err(Failed) => return Err(Failed),
            }
        }
        match self.inner.flush() {
            Ok(()) => Ok(()),
            Err(Failed) => Err(Failed),
        }
    }

    /// The next text begins a line, since the open one was ended elsewhere. Nothing is held back.
    pub fn restart(&mut self)
        requires { HoldsNothing self.old.line × T.whole self.old.inner }
        ensures width { width_of self.new.line ≡ width_of self.old.line }
        ensures anew { HasWritten (from_a_line (width_of self.new.line)) (T.taken self.new.inner)
            [] self.new.line (T.taken self.new.inner) }
        ensures whole { HoldsNothing self.new.line × T.whole self.new.inner }
        ensures told { told self.new.line (T.taken self.new.inner)
            ≡ told self.old.line (T.taken self.old.inner) }
        ensures failed { T.failed self.new.inner ≡ T.failed self.old.inner }
    {
        self.inner.begin_line();
        if let Some(line) = &mut self.line {
            line.restart();
        }
    }
}

impl<T: Target> Target for Wrapped<T> {
    ghost use Rattle.std.specs.Prelude.{◌≡◌, true};
    ghost use Rattle.zk_term.specs.WrappedTargets.{HoldsNothing, told};

    ghost taken = { λ w. told w.line (T.taken w.inner) };

    ghost failed = { λ w. T.failed w.inner };

    ghost fails = { λ _ w. T.failed w.inner ≡ true };

    ghost whole = { λ w. HoldsNothing w.line × T.whole w.inner };

    fn write(&mut self, bytes: &[u8]) -> Result<usize, Failed> {
        self.take(bytes)
    }

    fn flush(&mut self) -> Result<(), Failed> {
        self.give_out()
    }

    fn begin_line(&mut self) {
        self.restart();
    }
}
