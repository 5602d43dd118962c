// A machine's screen over two targets.

ghost use Rattle.std.specs.Prelude.{◌≡◌, ◌||◌, [], false};
ghost use Rattle.zk_term.specs.BufferedScreens.{Written};

use crate::byte_buffer::ByteBuffer;
use crate::screen::Screen;
use crate::style::{Bleep, Style};
use crate::target::{Failed, Target};

/// Collects the UTF-8 of each character, and gives it to its target where there is much of it, before another style
/// that the target shows, and at `finish`. It passes over erasures and bleeps. Once a write has failed nothing more is
/// written to either target.
#[derive(Drop)]
pub struct BufferedScreen<'a, S, T> {
    screen: &'a mut S,
    script: &'a mut T,
    to_screen: ByteBuffer,
    to_script: ByteBuffer,
    failed: bool,
}

impl<'a, S, T> BufferedScreen<'a, S, T> {
    pub fn new(screen: &'a mut S, script: &'a mut T) -> BufferedScreen<'a, S, T>
        ensures { result ≡ record {
          screen = screen.entry;
          script = script.entry;
          to_screen = [];
          to_script = [];
          failed = false;
        } }
    {
        BufferedScreen {
            screen,
            script,
            to_screen: ByteBuffer::new(),
            to_script: ByteBuffer::new(),
            failed: false,
        }
    }
}

impl<'a, S: Target, T: Target> BufferedScreen<'a, S, T> {
    /// Gives both targets what waits for them, and has them hold nothing back.
    pub fn finish(&mut self)
        ensures screen { self.new.screen.ghost_name ≡ self.old.screen.ghost_name }
        ensures script { self.new.script.ghost_name ≡ self.old.script.ghost_name }
        ensures written { Written (record {
          screen = S.taken self.old.screen.now;
          to_screen = self.old.to_screen;
          script = T.taken self.old.script.now;
          to_script = self.old.to_script;
          failed = self.old.failed;
          either = S.failed self.old.screen.now || T.failed self.old.script.now;
        })
            (record {
              screen = S.taken self.new.screen.now;
              to_screen = self.new.to_screen;
              script = T.taken self.new.script.now;
              to_script = self.new.to_script;
              failed = self.new.failed;
              either = S.failed self.new.screen.now || T.failed self.new.script.now;
            }) [] [] }
        ensures no_text { self.new.failed ≡ false → self.new.to_screen ≡ [] }
        ensures whole { self.new.failed ≡ false
            → S.whole self.new.screen.now × T.whole self.new.script.now }
        ensures no_script { self.new.failed ≡ false → self.new.to_script ≡ [] }
    {
        if self.failed {
            return;
        }
        match self.to_screen.end(self.screen) {
            Ok(()) => {}
            Err(Failed) => {
                self.failed = true;
                return;
            }
        }
        match self.to_script.end(self.script) {
            Ok(()) => {}
            Err(Failed) => self.failed = true,
        }
    }
}

impl<'a, S: Target, T: Target> Screen for BufferedScreen<'a, S, T> {
    ghost use Rattle.std.specs.Prelude.{◌≡◌, ◌||◌, refl, false};
    ghost use Rattle.std.proofs.Common.{◌∙◌};
    ghost use Rattle.zk_term.specs.BufferedScreens.{Written, written_nothing, signals_written_twice};
    ghost use Rattle.zk_term.specs.Signals.{screen_text, script_text};

    ghost shows = { λ a b l. (b.screen.ghost_name ≡ a.screen.ghost_name)
        × (b.script.ghost_name ≡ a.script.ghost_name) × Written
        (record {
          screen = S.taken a.screen.now;
          to_screen = a.to_screen;
          script = T.taken a.script.now;
          to_script = a.to_script;
          failed = a.failed;
          either = S.failed a.screen.now || T.failed a.script.now;
        })
        (record {
          screen = S.taken b.screen.now;
          to_screen = b.to_screen;
          script = T.taken b.script.now;
          to_script = b.to_script;
          failed = b.failed;
          either = S.failed b.screen.now || T.failed b.script.now;
        }) (screen_text l) (script_text l) };

    ghost failed = { λ c. c.failed };

    ghost full = { λ _. false };

    fn text(&mut self, c: char, style: Style) {
        if self.failed {
            return;
        }
        match self.to_screen.put_in(self.screen, c, style) {
            Ok(()) => {}
            Err(Failed) => self.failed = true,
        }
    }

    fn script(&mut self, c: char) {
        if self.failed {
            return;
        }
        match self.to_script.put(self.script, c) {
            Ok(()) => {}
            Err(Failed) => self.failed = true,
        }
    }

    fn erase(&mut self) {}

    fn beep(&mut self, _bleep: Bleep) {}

    fn has_failed(&self) -> bool {
        self.failed
    }

    fn is_full(&self) -> bool {
        false
    }

    ghost nothing = { λ a. (refl, refl, written_nothing _) };

    ghost twice = { λ a b c s t h k. (
      k.0 ∙ h.0,
      k.1 ∙ h.1,
      signals_written_twice _ _ _ s t h.2 k.2,
    ) };
}
