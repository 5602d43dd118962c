// A device that gives nothing and drops what it takes.

use crate::source::Source;
use crate::target::{Failed, Target};

/// A source without bytes, and a target that takes all bytes and drops them.
#[derive(Clone, Copy, Drop)]
pub struct Nothing;

impl Source for Nothing {
    ghost use Rattle.std.specs.Prelude.{◌≡◌, Some, [], false};

    ghost left = { λ _. Some [] };

    ghost failed = { λ _. false };

    ghost fails = { λ _ _. ⊥ };

    ghost gives = { λ _ _ bytes. bytes ≡ [] };

    ghost ends = { λ _ _. Unit {0} };

    fn read(&mut self, _buffer: &mut [u8]) -> Result<usize, Failed> {
        Ok(0)
    }
}

impl Target for Nothing {
    ghost use Rattle.std.specs.Prelude.{None, false};

    ghost taken = { λ _. None };

    ghost failed = { λ _. false };

    ghost fails = { λ _ _. ⊥ };

    ghost whole = { λ _. Unit {0} };

    fn write(&mut self, bytes: &[u8]) -> Result<usize, Failed> {
        Ok(bytes.len())
    }

    fn flush(&mut self) -> Result<(), Failed> {
        Ok(())
    }
}
