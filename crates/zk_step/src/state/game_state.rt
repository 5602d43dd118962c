// What the effects of instructions read and change.

ghost use Rattle.std.specs.Prelude.{◌≡◌, Ok};
ghost use Rattle.zk_state.specs.Frames.{within_bounds, bounds_of};
ghost use Rattle.zk_step.specs.Restarts.{windows_closed, begun_again};

use crate::output::streams::Streams;
use crate::state::random::Generators;
use zk_mem::memory::Memory;
use zk_state::frames::Frames;
use zk_term::windows::Windows;

/// What a machine shows of the upper window and the status line.
#[derive(Clone, Copy, PartialEq, Eq, Drop)]
pub enum View {
    /// Nothing.
    Plain,
    /// Both, on lines of their own: before each read, and the status line where the story asks for it.
    Upper,
}

/// The parts of a machine that effects read and change. The address of the next instruction is none of
/// them: it is decided once an effect has ended.
#[derive(Drop)]
pub struct GameState {
    pub frames: Frames,
    pub memory: Memory,
    pub streams: Streams,
    pub windows: Windows,
    pub generators: Generators,
    /// Nothing was shown yet on the screen's last line.
    pub at_line_start: bool,
    pub view: View,
}

impl GameState {
    /// Takes the upper window away and forgets the open tables of stream 3, without their counts: at a restart,
    /// and where a saved game is back.
    #[tactic(auto, unfolding(crate::specs::Restarts::windows_closed))]
    pub fn close_windows(&mut self)
        ensures { self.new ≡ windows_closed self.old }
    {
        self.windows.unsplit();
        self.streams.close_all();
    }

    /// Puts memory back and leaves the first frame alone (Z-Machine Standards Document 1.1, section 6.1.3). Text is
    /// roman then, in the normal font.
    #[tactic(auto, unfolding(crate::proofs::Opened::in_restart))]
    pub(crate) fn restart(&mut self)
        ensures value { self.new ≡ begun_again self.old }
        ensures bounds { bounds_of self.new.frames ≡ bounds_of self.old.frames }
    {
        self.memory.restart();
        self.frames.restart();
        self.close_windows();
        self.windows.set_style(0);
        self.windows.set_font(false);
    }

    /// The frames and words are no more than there may be.
    #[tactic(auto, using(crate::proofs::WithinBounds::bounded_within))]
    #[inline(always)]
    pub fn is_bounded(&self)
        ensures { within_bounds self.now.frames ≡ Ok self.now.frames }
    {
        self.frames.is_bounded();
    }
}
