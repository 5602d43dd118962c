// A second play of the same story, which shares its file.

ghost use Rattle.std.specs.Prelude.{IfSome};
ghost use Rattle.zk_vm.specs.Bounds.{AreInRange};
ghost use Rattle.zk_host.specs.Calls.{IsBegunBeside, IsPlayOpenedBeside};

use crate::play::{Play, SnapshotRefusal};
use std::alloc::Global;
use zk_mem::story::OpenError;
use zk_snapshot::opening::SnapshotError;
use zk_step::state::game_state::View;
use zk_vm::limits::Limits;

impl Play {
    /// A second play, at the start of the story of this one, whose file the two share. Without limits it is refused.
    pub fn open_beside(
        &self,
        alloc: Global,
        seed: u64,
        limits: Option<Limits>,
        view: View,
    ) -> Result<Box<Play>, SnapshotRefusal>
        requires { IfSome limits (λ l. AreInRange l) }
        ensures { IsBegunBeside self.now.story seed limits view result }
    {
        let Some(limits) = limits else {
            return Err(SnapshotRefusal::Limits);
        };
        let Ok(story) = self.story.try_clone() else {
            return Err(SnapshotRefusal::Story(OpenError::OutOfMemory));
        };
        match Play::start(alloc, story, seed, limits, view) {
            Ok(play) => Ok(play),
            Err(_) => Err(SnapshotRefusal::Story(OpenError::OutOfMemory)),
        }
    }

    /// A second play that goes on from a snapshot of the story of this one, where the snapshot's limits lie within
    /// others. The two share the story's file. Without limits it is refused.
    pub fn open_snapshot_beside(
        &self,
        alloc: Global,
        bytes: &[u8],
        most: Option<Limits>,
    ) -> Result<Box<Play>, SnapshotRefusal>
        ensures { IsPlayOpenedBeside self.now.story bytes.now most result }
    {
        let Some(most) = most else {
            return Err(SnapshotRefusal::Limits);
        };
        let Ok(story) = self.story.try_clone() else {
            return Err(SnapshotRefusal::Snapshot(SnapshotError::OutOfMemory));
        };
        Play::opened(alloc, story, bytes, most)
    }
}
