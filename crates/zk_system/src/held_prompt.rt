// A screen whose open line is held back.

ghost use Rattle.std.specs.Prelude.{◌≡◌, ◌||◌, [], is_err, OnOk};

use crate::paged::line_length;
use std::alloc::Global;
use zk_term::target::{Failed, Target, write_all};

/// So many bytes are held back, and then no more.
const MOST_HELD: usize = 65_536;

/// A target over a screen, which holds the open line back, so that something can be shown above it. Where the line is
/// very long, or there is no memory for it, it goes out.
#[derive(Drop)]
pub struct HeldPrompt<S> {
    screen: S,
    held: Vec<u8>,
    /// Whether nothing stands in the screen's open line.
    at_line_start: bool,
}

impl<S> HeldPrompt<S> {
    pub fn new(alloc: Global, screen: S) -> HeldPrompt<S>
        ensures { result.screen ≡ screen }
    {
        HeldPrompt {
            screen,
            held: Vec::new(alloc),
            at_line_start: true,
        }
    }

    /// Whether bytes of the open line can be held back, which they then are.
    fn hold(&mut self, bytes: &[u8]) -> bool
        ensures { self.new.screen ≡ self.old.screen }
    {
        self.held.len() < MOST_HELD && self.held.extend_from_slice(bytes).is_ok()
    }
}

impl<S: Target> HeldPrompt<S> {
    /// Shows bytes on the screen.
    fn pass_on(&mut self, bytes: &[u8]) -> Result<(), Failed>
        ensures { S.failed self.new.screen ≡ (is_err result || S.failed self.old.screen) }
    {
        write_all(&mut self.screen, bytes)?;
        self.at_line_start = bytes.last() == Some(&b'\n');
        Ok(())
    }

    /// Shows what is held back.
    fn pass_on_held(&mut self) -> Result<(), Failed>
        ensures held { OnOk result (self.new.held.items ≡ []) }
        ensures failed { S.failed self.new.screen ≡ (is_err result || S.failed self.old.screen) }
    {
        if self.held.is_empty() {
            return Ok(());
        }
        write_all(&mut self.screen, self.held.as_slice())?;
        self.held.clear();
        self.at_line_start = false;
        Ok(())
    }

    /// Shows the open line, and lines above it where there are some.
    pub fn show_with(&mut self, above: &[u8]) -> Result<(), Failed>
        ensures failed { S.failed self.new.screen ≡ (is_err result || S.failed self.old.screen) }
        ensures whole { OnOk result ((self.new.held.items ≡ []) × S.whole self.new.screen) }
    {
        if !above.is_empty() {
            if !self.at_line_start {
                self.pass_on(b"\n")?;
            }
            self.pass_on(above)?;
        }
        self.pass_on_held()?;
        self.screen.flush()
    }
}

impl<S: Target> Target for HeldPrompt<S> {
    ghost use Rattle.std.specs.Prelude.{◌≡◌, None, true};

    ghost taken = { λ _. None };

    ghost failed = { λ p. S.failed p.screen };

    ghost fails = { λ _ p. S.failed p.screen ≡ true };

    ghost whole = { λ p. S.whole p.screen };

    fn write(&mut self, bytes: &[u8]) -> Result<usize, Failed> {
        let count = line_length(bytes);
        let part = &bytes[..count];
        if part.last() != Some(&b'\n') && self.hold(part) {
            return Ok(count);
        }
        self.pass_on_held()?;
        self.pass_on(part)?;
        Ok(count)
    }

    /// Of the open line nothing goes out.
    fn flush(&mut self) -> Result<(), Failed> {
        self.screen.flush()
    }

    fn begin_line(&mut self) {
        self.at_line_start = true;
        self.screen.begin_line();
    }
}
