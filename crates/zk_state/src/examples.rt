// Worked examples of the definitions, which refuse one that is turned together with its body.

ghost use Rattle.zk_state.specs.guards.Examples.{LastInFirstOut, NewestInPlace, OwnWordsAlone, LocalsFromOne};
ghost use Rattle.zk_state.specs.guards.Examples.{CallsPutAFrame, ReturnsDropAFrame, FramesCountFromZero};
ghost use Rattle.zk_state.specs.guards.Examples.{ValuesAreTaken, ValuesAreGivenBack, BoundsRefuse, BeginsInOneFrame};
ghost use Rattle.zk_state.specs.guards.Examples.{LimitsHaveNumbers};

/// The evaluation stack of a routine (Standard, section 6.3).
#[tactic(auto, unfolding(crate::proofs::guards::Opened::examples))]
pub fn stack_by_example()
    ensures last_in_first_out { LastInFirstOut }
    ensures newest_in_place { NewestInPlace }
    ensures own_words_alone { OwnWordsAlone }
{}

/// Local variables (Standard, section 4.2.2).
#[tactic(auto, unfolding(crate::proofs::guards::Opened::examples))]
pub fn locals_by_example()
    ensures { LocalsFromOne }
{}

/// Calls, returns and throws (Standard, sections 6.3, 6.4 and 15).
#[tactic(auto, unfolding(crate::proofs::guards::Opened::examples))]
pub fn frames_by_example()
    ensures calls_put_a_frame { CallsPutAFrame }
    ensures returns_drop_a_frame { ReturnsDropAFrame }
    ensures frames_count_from_zero { FramesCountFromZero }
    ensures values_are_taken { ValuesAreTaken }
    ensures values_are_given_back { ValuesAreGivenBack }
{}

/// The bounds on frames and words, and the numbers of limits.
#[tactic(auto, unfolding(crate::proofs::guards::Opened::examples))]
pub fn bounds_by_example()
    ensures bounds_refuse { BoundsRefuse }
    ensures begins_in_one_frame { BeginsInOneFrame }
    ensures limits_have_numbers { LimitsHaveNumbers }
{}
