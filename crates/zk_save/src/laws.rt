// Laws of packed bytes, of kept states and of saved games.

ghost use Rattle.std.specs.Prelude.{◌≡◌, ℕ, length};
ghost use Rattle.zk_save.specs.Packing.{CutsIntoLongest, CutsInOneWay, DropsLastZeros, PacksShort};
ghost use Rattle.zk_save.specs.Unpacking.{ComesBack, TurnsBack};
ghost use Rattle.zk_save.specs.States.{OnlyBoundsCount};
ghost use Rattle.zk_save.specs.Quetzal.{saved};
ghost use Rattle.zk_save.specs.Loading.{IsLoadedAgain};
ghost use Rattle.zk_save.specs.guards.Spelling.{ReadsWhatIsSpelled, ReadsAllThatIsSpelled, ReadsWhatIsWritten};

use zk_mem::memory::Memory;
use zk_state::frames::Frames;

/// Packed bytes are cut into runs that can't be longer, which can be done in one way alone, after the last
/// byte that is no zero.
pub fn runs_are_longest()
    ensures cuts_into_longest { CutsIntoLongest }
    ensures cuts_in_one_way { CutsInOneWay }
    ensures drops_last_zeros { DropsLastZeros }
{}

/// What is packed comes back, and takes at most half as much again.
pub fn packed_comes_back()
    ensures comes_back { ComesBack }
    ensures packs_short { PacksShort }
    ensures turns_back { TurnsBack }
{}

/// States can be gone back to as long as the story's static base and the bounds on frames and words are the
/// same, whatever else has changed.
pub fn only_bounds_count()
    ensures { OnlyBoundsCount }
{}

/// A serial number has six bytes.
fn has_six(serial: &[u8; 6])
    ensures { length serial.now ≡ 6 }
{}

/// What was saved is loaded again: the same dynamic memory, frames and program counter.
pub fn saved_is_loaded(memory: &Memory, frames: &Frames)
    ensures { (pc : ℕ)
        → IsLoadedAgain memory.now frames.now pc (saved memory.now frames.now pc) }
{
    let header = memory.header();
    has_six(&header.serial);
    let _ = memory.dynamic();
    frames.is_bounded();
    frames.begins_first();
}

/// The chunks that are read are those that the bytes spell, and the written ones are among these.
pub fn chunks_are_spelled()
    ensures written { ReadsWhatIsWritten }
    ensures all { ReadsAllThatIsSpelled }
    ensures spelled { ReadsWhatIsSpelled }
{}
