// Worked examples of saved games, restarts and states to go back to, as laws.

ghost use Rattle.zk_step.specs.guards.SavingExamples.{SavesWait, RestoresWait, TablesAreNotSaved, SumsAreVerified};
ghost use Rattle.zk_step.specs.guards.SavingExamples.{StatesAreKept, CarriesOutSaving, StatesAreLeft};
ghost use Rattle.zk_step.specs.guards.SavingExamples.{NoBoundWhereItKeeps, RestartsBegin, WindowsAreRenewed};
ghost use Rattle.zk_step.specs.guards.SavingExamples.{TruthsBranch, ResultsAreStored, BranchesAreTaken, BranchesReturn};
ghost use Rattle.zk_step.specs.guards.SavingExamples.{BranchesMissTheStory, TwoIsStored, TwoIsNotStored};

/// The effects of saved games (Standard, section 15, `save`, `restore`, `restart`, `verify`, `save_undo` and
/// `restore_undo`).
#[tactic(auto, unfolding(crate::proofs::Opened::saving_examples))]
pub fn saving_by_example()
    ensures saves_wait { SavesWait }
    ensures restores_wait { RestoresWait }
    ensures tables { TablesAreNotSaved }
    ensures verified { SumsAreVerified }
    ensures states { StatesAreKept }
{}

/// Whole instructions that save and go back, and how they are finished.
#[tactic(auto, unfolding(crate::proofs::Opened::saving_examples))]
pub fn kept_by_example()
    ensures carried_out { CarriesOutSaving }
    ensures states_left { StatesAreLeft }
    ensures no_bound { NoBoundWhereItKeeps }
{}

/// Restarts (Standard, sections 6.1.3 and 15, `restart`).
#[tactic(auto, unfolding(crate::proofs::Opened::saving_examples))]
pub fn restarts_by_example()
    ensures restarts_begin { RestartsBegin }
    ensures windows_closed { WindowsAreRenewed }
{}

/// Answers by a result and a truth (Standard, section 15, `save` and `restore`).
#[tactic(auto, unfolding(crate::proofs::Opened::saving_examples))]
pub fn results_by_example()
    ensures truths_branch { TruthsBranch }
    ensures results_stored { ResultsAreStored }
{}

/// States that are back (Standard, section 15, `save` and `restore_undo`).
#[tactic(auto, unfolding(crate::proofs::Opened::saving_examples))]
pub fn resumed_by_example()
    ensures branches_taken { BranchesAreTaken }
    ensures branches_return { BranchesReturn }
    ensures branches_miss { BranchesMissTheStory }
    ensures two_stored { TwoIsStored }
    ensures two_refused { TwoIsNotStored }
{}
