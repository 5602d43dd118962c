// A screen that waits after each page.

ghost use Rattle.std.specs.Prelude.{◌≡◌, ◌≤◌, ◌<◌, length};

use crate::asking::Asker;
use zk_term::target::{Failed, Target};

/// A target over a screen, which lets so many lines pass without a read, and then waits for a line of its input before
/// it lets more pass, if it has a number of lines. What passes is what it takes.
#[derive(Drop)]
pub struct Paged<'a, S> {
    screen: S,
    asker: Asker<'a>,
    most: Option<u64>,
    passed: u64,
}

impl<'a, S> Paged<'a, S> {
    pub fn new(screen: S, asker: Asker<'a>, most: Option<u64>) -> Paged<'a, S>
        ensures { result.screen ≡ screen }
    {
        Paged {
            screen,
            asker,
            most,
            passed: 0,
        }
    }
}

/// How many bytes there are up to the first new line, and with it.
pub fn line_length(bytes: &[u8]) -> usize
    ensures most { result ≤ length bytes.now }
    ensures some { 0 < length bytes.now → 0 < result }
{
    for at in 0..bytes.len() {
        if bytes[at] == b'\n' {
            return at + 1;
        }
    }
    bytes.len()
}

impl<S: Target> Target for Paged<'_, S> {
    ghost use Rattle.std.specs.Prelude.{◌≡◌, true};

    ghost taken = { λ p. S.taken p.screen };

    ghost failed = { λ p. S.failed p.screen };

    ghost fails = { λ _ p. S.failed p.screen ≡ true };

    ghost whole = { λ p. S.whole p.screen };

    fn write(&mut self, bytes: &[u8]) -> Result<usize, Failed> {
        let Some(most) = self.most else {
            return self.screen.write(bytes);
        };
        if self.passed >= most && !bytes.is_empty() {
            self.screen.flush()?;
            self.asker.wait();
            self.passed = 0;
        }
        let count = line_length(bytes);
        let written = self.screen.write(&bytes[..count])?;
        if bytes[..written].last() == Some(&b'\n') {
            self.passed = self.passed.saturating_add(1);
        }
        Ok(written)
    }

    fn flush(&mut self) -> Result<(), Failed> {
        self.screen.flush()
    }

    fn begin_line(&mut self) {
        self.passed = 0;
        self.screen.begin_line();
    }
}
