// Worked examples of saved games and of states to go back to.
#![tactic(auto, unfolding(crate::proofs::guards::Opened::saving_examples))]

ghost use Rattle.zk_vm.specs.guards.SavingExamples.{StatesAreBack, GoingBackIsAStep, NewestFirst, NoMoreAreKept};
ghost use Rattle.zk_vm.specs.guards.SavingExamples.{SavesAreAnswered, RestoresAreAnswered, SavesWaitPastTheMostReads};

/// States to go back to (Standard, section 15, `save_undo` and `restore_undo`).
pub fn undo_by_example()
    ensures states_are_back { StatesAreBack }
    ensures going_back_is_a_step { GoingBackIsAStep }
    ensures no_more_are_kept { NoMoreAreKept }
{}

/// The order in which states are gone back to.
pub fn newest_by_example()
    ensures { NewestFirst }
{}

/// Saved games (Standard, section 15, `save` and `restore`).
pub fn saves_by_example()
    ensures saves_are_answered { SavesAreAnswered }
    ensures restores_are_answered { RestoresAreAnswered }
    ensures saves_wait { SavesWaitPastTheMostReads }
{}
