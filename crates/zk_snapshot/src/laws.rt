// Laws of snapshots.

ghost use Rattle.std.specs.Prelude.{◌≡◌, ℕ, List};
ghost use Rattle.zk_save.specs.States.{WholeState};
ghost use Rattle.zk_snapshot.specs.Laws.{FitsNewest, IsKept, IsOfOnePlay, OpensAgain};
ghost use Rattle.zk_snapshot.specs.Snapshots.{HasSnapshot};

use zk_vm::machine::Machine;

/// What is known of a machine that has a snapshot.
#[tactic(auto, using(crate::proofs::Kept::is_kept))]
fn is_kept(machine: &Machine)
    requires { HasSnapshot machine.now }
    ensures { IsKept machine.now }
{
    machine.is_whole();
    machine.undo();
    machine.memory().is_of_file();
    machine.memory().dynamic();
}

/// A snapshot is that of one play alone: two machines of a story that have the same snapshot, each with some of its
/// newest states to go back to, are the same, but for the other states and the grid that is gone. So the machine that
/// `open_snapshot` makes of what `snapshot` wrote goes on with the play.
pub fn one_play(first: &Machine, second: &Machine)
    requires first { HasSnapshot first.now }
    requires second { HasSnapshot second.now }
    requires story { first.now.state.game.memory.file ≡ second.now.state.game.memory.file }
    ensures { IsOfOnePlay first.now second.now }
{
    is_kept(first);
    is_kept(second);
}

/// What `open_snapshot` makes of what `snapshot` wrote is the machine itself, with the states to go back to that the
/// snapshot kept, and without a grid that is gone.
pub fn opens_again(machine: &Machine, opened: &Machine)
    requires waits { HasSnapshot machine.now }
    requires opened { HasSnapshot opened.now }
    ensures { OpensAgain machine.now opened.now }
{
    is_kept(machine);
    is_kept(opened);
}

/// What a snapshot keeps of states to go back to are the newest, and these take no more bytes than it was told.
pub fn newest_fit()
    ensures { (file : List ℕ) (states : List WholeState) → FitsNewest file states }
{}
