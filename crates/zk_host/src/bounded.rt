// Text that has so many bytes at most.

ghost use Rattle.std.specs.Prelude.{◌≡◌, ◌+◌, ◌<◌, ◌≤◌, false, length};

use crate::text::Text;
use zk_term::target::{Failed, Target};

/// Text with a bound. It takes one byte past the bound, so that it is known to have more, and refuses all after that.
#[derive(Drop)]
pub struct Bounded {
    pub text: Text,
    pub most: usize,
    pub failed: bool,
}

impl Bounded {
    /// Text, with room for more up to a bound.
    pub fn new(text: Text, most: usize) -> Bounded
        ensures text { result.text ≡ text }
        ensures most { result.most ≡ most }
        ensures failed { result.failed ≡ false }
    {
        Bounded {
            text,
            most,
            failed: false,
        }
    }

    /// So many of some bytes are taken at once: up to one past the bound.
    fn part_of(&self, count: usize) -> usize
        ensures few { result ≤ count }
        ensures some { 0 < count → 0 < result }
        ensures within { length self.now.text.bytes ≤ self.now.most
            → length self.now.text.bytes + result ≤ self.now.most + 1 }
    {
        let room = self.most.saturating_sub(self.text.len());
        if room < count { room + 1 } else { count }
    }
}

impl Target for Bounded {
    ghost use Rattle.std.specs.Prelude.{◌≡◌, Some, true};

    ghost taken = { λ t. Some t.text.bytes };

    ghost failed = { λ t. t.failed };

    ghost fails = { λ _ t. t.failed ≡ true };

    ghost whole = { λ _. Unit {0} };

    fn write(&mut self, bytes: &[u8]) -> Result<usize, Failed> {
        if self.most < self.text.len() {
            self.failed = true;
            return Err(Failed);
        }
        let count = self.part_of(bytes.len());
        match self.text.write(&bytes[..count]) {
            Ok(taken) => Ok(taken),
            Err(Failed) => {
                self.failed = true;
                Err(Failed)
            }
        }
    }

    fn flush(&mut self) -> Result<(), Failed> {
        Ok(())
    }
}
