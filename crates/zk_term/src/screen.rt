// Where a machine's text goes.

ghost use Rattle.std.specs.Prelude.{◌≡◌, [], ◌∷◌};
ghost use Rattle.zk_term.specs.Signals.Signal.{Text, Script, Erase, Beep};

use crate::style::{Bleep, Style};

/// What a machine shows: text on the screen, and the transcript that the Standard calls output stream 2. A screen may
/// pass over styles, erasures and bleeps.
pub trait Screen {
    ghost use Rattle.std.specs.Prelude.{Bool, List, [], ◌++◌};
    ghost use Rattle.zk_term.specs.Signals.{Signal};

    // what came of a screen that was given signals
    ghost shows: { Self → Self → List Signal → Type 0 };

    // that a write has failed
    ghost failed: { Self → Bool };

    // that it asks for a pause
    ghost full: { Self → Bool };

    /// Shows a character on the screen, in a style.
    fn text(&mut self, c: char, style: Style)
        ensures { shows self.old self.new (Text c style ∷ []) };

    /// Adds a character to the transcript.
    fn script(&mut self, c: char)
        ensures { shows self.old self.new (Script c ∷ []) };

    /// Erases the lower window (Z-Machine Standards Document 1.1, section 8.7.3).
    fn erase(&mut self)
        ensures { shows self.old self.new (Erase ∷ []) };

    /// Sounds a bleep (Standard, section 9.1).
    fn beep(&mut self, bleep: Bleep)
        ensures { shows self.old self.new (Beep bleep ∷ []) };

    /// Whether a write has failed: what it is given then goes nowhere.
    fn has_failed(&self) -> bool
        ensures { result ≡ failed self.now };

    /// Whether it asks for a pause, since as much waits to be taken from it as may.
    fn is_full(&self) -> bool
        ensures { result ≡ full self.now };

    ghost nothing: { (a : Self) → shows a a [] };

    ghost twice: { (a b c : Self) (s t : List Signal) → shows a b s → shows b c t → shows a c (s ++ t) };
}
