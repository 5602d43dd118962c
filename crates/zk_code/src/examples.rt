// Worked examples of the definitions, which refuse one that is turned together with its body.
#![tactic(auto, unfolding(crate::proofs::guards::Opened::examples))]

ghost use Rattle.zk_code.specs.guards.Examples.{LongForms, ShortForms, VariableForms, OperandsEndAtOmitted};
ghost use Rattle.zk_code.specs.guards.Examples.{TwoTypeBytes, ExtendedForms, TextsFollow, StoresBeforeBranches};
ghost use Rattle.zk_code.specs.guards.Examples.{ShortBranches, LongBranches, RefusalsInOrder, BranchesLead};
ghost use Rattle.zk_code.specs.guards.Examples.{BranchesLeaveTheStory, JumpsLead, TwoOperandRows, OneOperandRows};
ghost use Rattle.zk_code.specs.guards.Examples.{ZeroOperandRows, VariableOperandRows, ExtendedRows, NamesByVersion};
ghost use Rattle.zk_code.specs.guards.CleanExamples.{CleanAndNot, LowCode, TargetsOutside, WaysByVariable, WaysOut};
ghost use Rattle.zk_code.specs.guards.ExtentExamples.{CodeEndsPastItsBranches, CodeWithoutAnEnd};
ghost use Rattle.zk_code.specs.guards.ExtentExamples.{NeighboursAfterPadding, NeighboursPastDeadCode, PackedByUnits};
ghost use Rattle.zk_code.specs.guards.ReachExamples.{BranchesToAddresses, CallsByConstants, EndsGoNowhere};
ghost use Rattle.zk_code.specs.guards.ReachExamples.{JumpsToAddresses, OthersGoOn, RestIsNotReached, RoutineIsCalled};
ghost use Rattle.zk_code.specs.guards.ReachExamples.{WaysAreReached};

/// Forms of instructions and their operands (Standard, sections 4.2 to 4.5).
pub fn operands_by_example()
    ensures long_forms { LongForms }
    ensures short_forms { ShortForms }
    ensures variable_forms { VariableForms }
    ensures operands_end_at_omitted { OperandsEndAtOmitted }
    ensures two_type_bytes { TwoTypeBytes }
    ensures extended_forms { ExtendedForms }
{}

/// Store variables, branches and texts (Standard, sections 4.6 to 4.8).
pub fn decoding_by_example()
    ensures texts_follow { TextsFollow }
    ensures stores_before_branches { StoresBeforeBranches }
    ensures short_branches { ShortBranches }
    ensures long_branches { LongBranches }
    ensures refusals_in_order { RefusalsInOrder }
{}

/// Where branches and jumps lead (Standard, sections 4.7.1, 4.7.2 and 15).
pub fn targets_by_example()
    ensures branches_lead { BranchesLead }
    ensures branches_leave_the_story { BranchesLeaveTheStory }
    ensures jumps_lead { JumpsLead }
{}

/// The opcode tables (Standard, section 14).
pub fn opcodes_by_example()
    ensures two_operand_rows { TwoOperandRows }
    ensures one_operand_rows { OneOperandRows }
    ensures zero_operand_rows { ZeroOperandRows }
    ensures variable_operand_rows { VariableOperandRows }
    ensures extended_rows { ExtendedRows }
    ensures names_by_version { NamesByVersion }
{}

/// Whether what stands after an instruction may be carried out after it (Standard, section 15).
#[tactic(auto, unfolding(crate::specs::Reach::goes_on))]
pub fn ends_by_example()
    ensures ends_go_nowhere { EndsGoNowhere }
    ensures others_go_on { OthersGoOn }
{}

/// Where an instruction leads to by its branch and by constants (Standard, sections 4.7, 6.4 and 15).
#[tactic(auto, unfolding(crate::proofs::guards::Opened::examples))]
pub fn ways_by_example()
    ensures branches_to_addresses { BranchesToAddresses }
    ensures jumps_to_addresses { JumpsToAddresses }
    ensures calls_by_constants { CallsByConstants }
{}

/// What is reached in a story, and what is not (Standard, sections 4.7, 5 and 15).
#[tactic(auto, using(crate::proofs::guards::ReachedByExample::of_reach_by_example))]
pub fn reach_by_example()
    ensures ways_are_reached { WaysAreReached }
    ensures rest_is_not_reached { RestIsNotReached }
    ensures routine_is_called { RoutineIsCalled }
{}

/// Code that a run may leave or rewrite, and clean code (Standard, sections 1.1.1, 4.7, 5.2 and 6.4).
#[tactic(auto, unfolding(crate::proofs::guards::Opened::examples), using(crate::proofs::guards::CleanByExample::all))]
pub fn clean_code_by_example()
    ensures targets_outside { TargetsOutside }
    ensures ways_out { WaysOut }
    ensures low_code { LowCode }
    ensures ways_by_variable { WaysByVariable }
    ensures clean_and_not { CleanAndNot }
{}

/// Where code ends, and which routine stands after it (Standard, sections 1.2.3, 4.7, 5.2 and 15).
#[tactic(auto, unfolding(crate::proofs::guards::Opened::examples), using(crate::proofs::guards::ExtentsByExample::all))]
pub fn extents_by_example()
    ensures packed_by_units { PackedByUnits }
    ensures code_ends_past_its_branches { CodeEndsPastItsBranches }
    ensures code_without_an_end { CodeWithoutAnEnd }
    ensures neighbours_after_padding { NeighboursAfterPadding }
    ensures neighbours_past_dead_code { NeighboursPastDeadCode }
{}
