// Where bytes come from.

ghost use Rattle.std.specs.Prelude.{◌≡◌, ◌<◌, ◌||◌, length, is_err, take, IfOk, OnErr};
ghost use Rattle.std.specs.Io.{ReadsAtMost};
ghost use Rattle.std.specs.Io.KnownBytes.{ReadConsumes};

use crate::target::Failed;

/// Gives bytes: a keyboard, a file, a list in memory.
pub trait Source {
    ghost use Rattle.std.specs.Prelude.{List, ℕ, Bool, Option};

    // the bytes that it still has, where it tells them
    ghost left: { Self → Option (List ℕ) };

    // that a read has failed
    ghost failed: { Self → Bool };

    // that a read that failed led from the one to the other
    ghost fails: { Self → Self → Type 0 };

    // that a read that gave these bytes led from the one to the other
    ghost gives: { Self → Self → List ℕ → Type 0 };

    // that a read without bytes, at the end of the input, led from the one to the other
    ghost ends: { Self → Self → Type 0 };

    /// Puts bytes at the front of `buffer` and says how many: none at the end of the input alone. A read
    /// that fails uses up no bytes.
    fn read(&mut self, buffer: &mut [u8]) -> Result<usize, Failed>
        ensures count { ReadsAtMost result buffer.new }
        ensures bytes { ReadConsumes (left self.old) (left self.new) result buffer.new }
        ensures failed { failed self.new ≡ (is_err result || failed self.old) }
        ensures fails { OnErr result (fails self.old self.new) }
        ensures gives { IfOk result (λ n. gives self.old self.new (take n buffer.new)) }
        ensures ends { 0 < length buffer.new → IfOk result (λ n. n ≡ 0 → ends self.old self.new) };
}
