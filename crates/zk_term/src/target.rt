// Where bytes go.

ghost use Rattle.std.specs.Prelude.{◌≡◌, ◌≤◌, ◌<◌, ◌||◌, length, is_err, IfOk, OnOk, OnErr, encode_utf8};
ghost use Rattle.std.specs.Io.KnownBytes.{Appends, Keeps, WriteAppends};
ghost use Rattle.zk_term.specs.Devices.{HasJust, TookPart};

use crate::style::Style;

/// A read or a write that failed.
#[derive(Clone, Copy, PartialEq, Eq, Drop)]
pub struct Failed;

/// Takes bytes: a screen, a file, a list in memory.
pub trait Target {
    ghost use Rattle.std.specs.Prelude.{List, ℕ, Bool, Option};

    // the bytes that it took, where it tells them
    ghost taken: { Self → Option (List ℕ) };

    // that a write has failed
    ghost failed: { Self → Bool };

    // that a write that failed led from the one to the other
    ghost fails: { Self → Self → Type 0 };

    // that nothing is held back
    ghost whole: { Self → Type 0 };

    /// Takes bytes from the front of `bytes`, at least one where there is one, and says how many. A
    /// write that fails takes none.
    fn write(&mut self, bytes: &[u8]) -> Result<usize, Failed>
        ensures count { IfOk result (λ n. n ≤ length bytes.now) }
        ensures progress { 0 < length bytes.now → IfOk result (λ n. 0 < n) }
        ensures bytes { WriteAppends (taken self.old) (taken self.new) result bytes.now }
        ensures failed { failed self.new ≡ (is_err result || failed self.old) }
        ensures fails { OnErr result (fails self.old self.new) };

    /// Gives out what it holds back, if anything. The line that is open goes on.
    fn flush(&mut self) -> Result<(), Failed>
        ensures bytes { Keeps (taken self.old) (taken self.new) }
        ensures failed { failed self.new ≡ (is_err result || failed self.old) }
        ensures fails { OnErr result (fails self.old self.new) }
        ensures whole { OnOk result (whole self.new) };

    /// Whether it shows styles.
    fn shows_styles(&self) -> bool {
        false
    }

    /// Shows what comes next in a style, if it shows styles.
    fn show_in(&mut self, _style: Style) -> Result<(), Failed>
        ensures bytes { Keeps (taken self.old) (taken self.new) }
        ensures failed { failed self.new ≡ (is_err result || failed self.old) }
        ensures fails { OnErr result (fails self.old self.new) }
    {
        Ok(())
    }

    /// What comes next begins a line, since the open one was ended elsewhere, as by a line that was typed at a
    /// terminal. Nothing is held back.
    fn begin_line(&mut self)
        requires whole { whole self.old }
        ensures bytes { taken self.new ≡ taken self.old }
        ensures failed { failed self.new ≡ failed self.old }
        ensures whole { whole self.new }
    {}
}

/// Writes all bytes, or where a write fails a first part of them. `Failed` says that the last write failed.
pub fn write_all<T: Target>(target: &mut T, bytes: &[u8]) -> Result<(), Failed>
    ensures all { OnOk result (Appends (T.taken target.old) (T.taken target.new) bytes.now) }
    ensures part { OnErr result (TookPart (T.taken target.old) (T.taken target.new) bytes.now) }
    ensures failed { T.failed target.new ≡ (is_err result || T.failed target.old) }
    ensures fails { OnErr result (HasJust T.fails target.new) }
{
    let mut sent = 0;
    while sent < bytes.len() {
        match target.write(&bytes[sent..]) {
            Ok(n) => sent += n,
            Err(Failed) => return Err(Failed),
        }
    }
    Ok(())
}

/// Writes a character as UTF-8, or where a write fails a first part of its bytes. `Failed` says that the last write
/// failed.
pub fn write_char<T: Target>(target: &mut T, c: char) -> Result<(), Failed>
    ensures all { OnOk result (Appends (T.taken target.old) (T.taken target.new) (encode_utf8 c)) }
    ensures part { OnErr result
        (TookPart (T.taken target.old) (T.taken target.new) (encode_utf8 c)) }
    ensures failed { T.failed target.new ≡ (is_err result || T.failed target.old) }
    ensures fails { OnErr result (HasJust T.fails target.new) }
{
    let mut buffer = [0u8; 4];
    write_all(target, c.encode_utf8(&mut buffer).as_bytes())
}
