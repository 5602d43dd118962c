// The bounds of a run.

ghost use Rattle.std.specs.Prelude.{◌↔◌, IsTrue};
ghost use Rattle.zk_vm.specs.Bounds.{AreInRange};

use zk_mem::memory::ScreenSetup;

/// What a machine holds and runs at most, and the screen that it plays to.
#[derive(Clone, Copy, PartialEq, Eq, Drop)]
pub struct Limits {
    /// Frames, the first among them: from 1 on.
    pub frames: u16,
    /// Words of all frames, of local variables and evaluation stacks.
    pub words: u16,
    /// Undo states: at most 64.
    pub undo: u8,
    /// Instructions between two reads: from 1 to 1,000,000,000.
    pub steps: u32,
    /// The screen: from 20 columns on.
    pub screen: ScreenSetup,
}

impl Limits {
    /// Whether each limit lies in its range.
    pub fn check(&self) -> bool
        ensures { IsTrue result ↔ AreInRange self.now }
    {
        self.frames >= 1
            && self.undo <= 64
            && self.steps >= 1
            && self.steps <= 1_000_000_000
            && self.screen.columns >= 20
    }
}
