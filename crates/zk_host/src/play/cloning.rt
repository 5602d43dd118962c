// A second play that goes on from where one waits.

ghost use Rattle.std.specs.Prelude.{◌≡◌};
ghost use Rattle.zk_host.specs.Calls.{IsClone, IsReseeded};

use crate::play::{Play, Refusal};
use std::alloc::Global;
use zk_snapshot::snapshot::has_snapshot;

impl Play {
    /// A second play that goes on from where this one waits for a line or a character, with its states to go back to
    /// and without text. This one stays as it is.
    pub fn try_clone(&self, alloc: Global) -> Result<Box<Play>, Refusal>
        ensures { IsClone self.now result }
    {
        if !has_snapshot(self.machine.machine()) {
            return Err(Refusal::NotAwaited);
        }
        let Ok(machine) = self.machine.machine().try_clone(alloc) else {
            return Err(Refusal::Memory);
        };
        let Ok(story) = self.story.try_clone() else {
            return Err(Refusal::Memory);
        };
        match Play::of(alloc, story, machine) {
            Ok(play) => Ok(play),
            Err(_) => Err(Refusal::Memory),
        }
    }

    /// Begins the random numbers anew with a seed, where a line or a character is waited for.
    pub fn reseed(&mut self, seed: u64) -> Result<(), Refusal>
        ensures { IsReseeded seed self.old self.new result }
    {
        if !has_snapshot(self.machine.machine()) {
            return Err(Refusal::NotAwaited);
        }
        self.machine.reseed(seed);
        Ok(())
    }
}
