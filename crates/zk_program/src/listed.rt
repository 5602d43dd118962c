// How the listing of one of several stories went.

ghost use Rattle.std.specs.Prelude.{◌≡◌};
ghost use Rattle.zk_program.specs.Plans.{listed_after};

use crate::about::About;

/// How the listing of one of several stories went.
#[derive(Clone, Copy, Drop)]
pub struct Listed {
    /// The program's status.
    pub status: u8,
    /// Whether the screen takes no more, so that nothing after it can be listed.
    pub ends: bool,
}

impl Listed {
    /// By what is known of the screen.
    pub fn of(status: u8, about: &About) -> Listed {
        Listed {
            status,
            ends: about.screen.has_failed(),
        }
    }

    /// One after another: the greater status.
    pub fn and(self, next: Listed) -> Listed
        ensures { result ≡ listed_after self next }
    {
        Listed {
            status: self.status.max(next.status),
            ends: self.ends || next.ends,
        }
    }

    /// Nothing was written.
    pub fn nothing(status: u8) -> Listed {
        Listed {
            status,
            ends: false,
        }
    }
}
