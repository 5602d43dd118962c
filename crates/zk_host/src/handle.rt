// What C holds of a play.

ghost use Rattle.std.specs.Prelude.{◌≡◌, false, Option, Some, None, MatchOption, option_map};
ghost use Rattle.std.specs.Coded.{coded_option};
ghost use Rattle.zk_host.specs.declared.play.Play.{Play};
ghost use Rattle.zk_host.specs.contracts.play.Play.{the_row as PlayRow};
ghost use Rattle.zk_host.specs.Exports.{OnPlay};

use crate::loose::Loose;
use crate::play::Play;
use std::alloc::Global;
use std::marker::Model;
use zk_vm::stop::Stop;

/// A play on the heap, while it is open. Contracts see it as that play, or none.
#[repr(C)]
pub struct Zkit {
    at: *mut u8,
    is_open: bool,
    ghost play: { Option Play } by { coded_option PlayRow.coded },
}

impl Model for Zkit {
    ghost use Rattle.zk_host.specs.contracts.play.Play.{the_row};
    ghost use Rattle.zk_host.specs.Owning.{holds, token};

    ghost also_owns = { λ z. holds token the_row z.is_open z.at z.play };
}

impl Zkit {
    /// A handle that is not open.
    fn closed() -> Zkit
        ensures { result.play ≡ None }
    {
        Zkit {
            at: std::ptr::null_mut(),
            is_open: false,
        }
    }

    /// A handle of a play.
    fn of(loose: Loose<Play, Global>) -> Zkit
        ensures { result.play ≡ Some loose.value }
    {
        let Loose { at, alloc: _ } = loose;
        Zkit {
            at: at as *mut u8,
            is_open: true,
        }
    }

    /// The play of a handle that is open.
    fn loosen(self, alloc: Global) -> Option<Loose<Play, Global>>
        ensures { option_map (λ l. l.value) result ≡ self.play }
    {
        let Zkit { at, is_open } = self;
        if is_open {
            return Some(Loose {
                at: at as *mut Play,
                alloc,
            });
        }
        None
    }

    /// The same in its box.
    fn into_box(self, alloc: Global) -> Option<Box<Play>>
        ensures { option_map (λ b. b.value) result ≡ self.play }
    {
        match self.loosen(alloc) {
            Some(loose) => Some(loose.into_box()),
            None => None,
        }
    }

    /// Takes the play and leaves the handle closed.
    pub fn take(&mut self, alloc: Global) -> Option<Box<Play>>
        ensures taken { MatchOption result (self.old.play ≡ None)
            (λ b. self.old.play ≡ Some b.value) }
        ensures closed { self.new.play ≡ None }
    {
        let held = std::mem::replace(self, Zkit::closed());
        held.into_box(alloc)
    }

    /// Puts a play in place of the one that there may be.
    pub fn put(&mut self, alloc: Global, play: Box<Play>)
        ensures { self.new.play ≡ Some play.value }
    {
        let held = std::mem::replace(self, Zkit::of(Loose::of(play)));
        drop(held.into_box(alloc));
    }

    /// Why the last turn has ended the story.
    pub fn stopped(&mut self, alloc: Global) -> Option<Stop>
        ensures { OnPlay self.old.play self.new.play
            (λ old new. (new ≡ old) × (result ≡ old.stopped)) (result ≡ None) }
    {
        let Some(play) = self.take(alloc) else {
            return None;
        };
        let stopped = play.stopped();
        self.put(alloc, play);
        stopped
    }

    /// Whether an instruction has shown too much text.
    pub fn has_shown_too_much(&mut self, alloc: Global) -> bool
        ensures { OnPlay self.old.play self.new.play
            (λ old new. (new ≡ old) × (result ≡ old.text.too_much)) (result ≡ false) }
    {
        let Some(play) = self.take(alloc) else {
            return false;
        };
        let too_much = play.has_shown_too_much();
        self.put(alloc, play);
        too_much
    }

    /// Gives back the memory of the play that there may be.
    pub fn close(&mut self, alloc: Global)
        ensures { self.new.play ≡ None }
    {
        drop(self.take(alloc));
    }
}
