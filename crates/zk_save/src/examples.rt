// Worked examples of the definitions, which refuse one that is turned together with its body.

ghost use Rattle.zk_save.specs.guards.Examples.{RunsAreCut, BytesArePacked, BytesAreUnpacked, DifferencesAreTurned};
ghost use Rattle.zk_save.specs.guards.Examples.{DifferencesAreKept, NewestIsGoneBackTo, NumbersAreWritten};
ghost use Rattle.zk_save.specs.guards.Examples.{ChunksAreWritten, FramesAreWritten, TheFirstComesFirst};
ghost use Rattle.zk_save.specs.guards.Examples.{StoriesAreKnown, ShorterMemoryIsSaved, GamesAreSaved, NumbersAreRead};
ghost use Rattle.zk_save.specs.guards.Examples.{ChunksAreRead, FirstsCount, FramesAreRead, TheFirstIsRead};
ghost use Rattle.zk_save.specs.guards.Examples.{StoriesAreMatched, MemoryIsRead, GamesAreLoaded, BoundsAreKept};

/// Packed bytes (Quetzal 1.4, section 3).
#[tactic(auto, unfolding(crate::proofs::guards::Opened::examples))]
pub fn packing_by_example()
    ensures runs_are_cut { RunsAreCut }
    ensures bytes_are_packed { BytesArePacked }
    ensures bytes_are_unpacked { BytesAreUnpacked }
    ensures differences_are_turned { DifferencesAreTurned }
{}

/// States to go back to (Standard, section 6.1).
#[tactic(auto, unfolding(crate::proofs::guards::Opened::examples))]
pub fn states_by_example()
    ensures differences_are_kept { DifferencesAreKept }
    ensures newest_is_gone_back_to { NewestIsGoneBackTo }
{}

/// Saved games (Quetzal 1.4, sections 2 to 5 and 8).
#[tactic(auto, unfolding(crate::proofs::guards::Opened::examples))]
pub fn saves_by_example()
    ensures numbers_are_written { NumbersAreWritten }
    ensures chunks_are_written { ChunksAreWritten }
    ensures frames_are_written { FramesAreWritten }
    ensures the_first_comes_first { TheFirstComesFirst }
    ensures stories_are_known { StoriesAreKnown }
    ensures shorter_memory_is_saved { ShorterMemoryIsSaved }
    ensures games_are_saved { GamesAreSaved }
{}

/// What the bytes of a saved game spell (Quetzal 1.4, sections 1, 4, 5 and 8).
#[tactic(auto, unfolding(crate::proofs::guards::Opened::examples))]
pub fn reading_by_example()
    ensures numbers_are_read { NumbersAreRead }
    ensures chunks_are_read { ChunksAreRead }
    ensures firsts_count { FirstsCount }
    ensures frames_are_read { FramesAreRead }
    ensures the_first_is_read { TheFirstIsRead }
{}

/// What a saved game loads (Quetzal 1.4).
#[tactic(auto, unfolding(crate::proofs::guards::Opened::examples))]
pub fn loading_by_example()
    ensures stories_are_matched { StoriesAreMatched }
    ensures memory_is_read { MemoryIsRead }
    ensures games_are_loaded { GamesAreLoaded }
    ensures bounds_are_kept { BoundsAreKept }
{}
