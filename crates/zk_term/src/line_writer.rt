// Where lines are written.

ghost use Rattle.std.specs.Prelude.{◌≡◌, ◌||◌, [], List, ℕ, false, is_err};
ghost use Rattle.zk_term.specs.LineWriters.{Given, Sheet, Wrote, sheet};

use crate::target::{Failed, Target, write_all};
use arrayvec::ArrayVec;

/// Takes the bytes of lines.
pub trait LineWriter {
    ghost use Rattle.std.specs.Prelude.{◌≡◌, List, ℕ, Bool, true, [], ◌++◌};

    // what came of a writer that was given bytes
    ghost wrote: { Self → Self → List ℕ → Type 0 };

    // that a write has failed, and nothing more is taken
    ghost ended: { Self → Bool };

    /// Writes bytes, if no write has failed before.
    fn write(&mut self, bytes: &[u8])
        ensures { wrote self.old self.new bytes.now };

    /// Whether a write has failed: then nothing more is taken, and no text need be made for it.
    fn has_ended(&self) -> bool
        ensures { result ≡ ended self.now };

    ghost nothing: { (a : Self) → wrote a a [] };

    ghost twice: { (a b c : Self) (s t : List ℕ) → wrote a b s → wrote b c t
        → wrote a c (s ++ t) };

    ghost late: { (a : Self) (s : List ℕ) → ended a ≡ true → wrote a a s };
}

/// A writer over a target: bytes wait, at most 1,024, and go out together where there is no room for more, and at
/// `finish`. Once a write has failed nothing more is written to the target.
#[derive(Drop)]
pub struct TargetWriter<'a, T> {
    target: &'a mut T,
    waiting: ArrayVec<u8, 1024>,
    failed: bool,
}

impl<'a, T> TargetWriter<'a, T> {
    pub fn new(target: &'a mut T) -> TargetWriter<'a, T>
        ensures target { result.target ≡ target.entry }
        ensures waiting { result.waiting.items ≡ [] }
        ensures failed { result.failed ≡ false }
    {
        TargetWriter {
            target,
            waiting: ArrayVec::new(),
            failed: false,
        }
    }
}

impl<'a, T: Target> TargetWriter<'a, T> {
    /// Gives the target what waits, if no write has failed before. Then all that the writer was given has been written,
    /// or it refuses.
    pub fn finish(&mut self) -> Result<(), Failed>
        ensures target { self.new.target.ghost_name ≡ self.old.target.ghost_name }
        ensures ended { (start : Sheet) (text : List ℕ) → start.waiting ≡ []
            → start.failed ≡ false
            → Given start
            (sheet T.taken T.failed self.old.target.now self.old.waiting.items self.old.failed)
            text → Wrote (is_err result) start.taken (T.taken self.new.target.now) text
            × (T.failed self.new.target.now ≡ (is_err result || start.broken)) }
    {
        if self.failed {
            return Err(Failed);
        }
        match write_all(self.target, self.waiting.as_slice()) {
            Ok(()) => Ok(()),
            Err(Failed) => Err(Failed),
        }
    }
}

impl<'a, T: Target> LineWriter for TargetWriter<'a, T> {
    ghost use Rattle.std.specs.Prelude.{◌≡◌, refl};
    ghost use Rattle.std.proofs.Common.{◌∙◌};
    ghost use Rattle.zk_term.specs.LineWriters.{Given, given_late, given_nothing, given_twice, sheet};

    ghost wrote = { λ a b s. (b.target.ghost_name ≡ a.target.ghost_name) × Given
        (sheet T.taken T.failed a.target.now a.waiting.items a.failed)
        (sheet T.taken T.failed b.target.now b.waiting.items b.failed) s };

    ghost ended = { λ a. a.failed };

    fn has_ended(&self) -> bool {
        self.failed
    }

    fn write(&mut self, bytes: &[u8]) {
        if self.failed {
            return;
        }
        match self.waiting.try_extend_from_slice(bytes) {
            Ok(()) => return,
            Err(_) => {}
        }
        match write_all(self.target, self.waiting.as_slice()) {
            Ok(()) => self.waiting.clear(),
            Err(Failed) => {
                self.failed = true;
                return;
            }
        }
        match write_all(self.target, bytes) {
            Ok(()) => {}
            Err(Failed) => self.failed = true,
        }
    }

    ghost nothing = { λ a. (refl, given_nothing _) };

    ghost twice = { λ a b c s t h k. (k.0 ∙ h.0, given_twice _ _ _ s t h.1 k.1) };

    ghost late = { λ a s h. (refl, given_late _ s h) };
}
