// Worked examples of the definitions, which refuse one that is turned together with its body.
#![tactic(auto, unfolding(crate::proofs::guards::Opened::examples))]

ghost use Rattle.zk_vm.specs.guards.Examples.{OthersHaveNoParts, PartsAreShown, PartsMakeNoStep};
ghost use Rattle.zk_vm.specs.guards.Examples.{ReadsHaveParts, ViewsShowRows, NoViewPastTheMostReads, ScriptsGetText};
ghost use Rattle.zk_vm.specs.guards.Examples.{DueTextComesFirst, DevicesHaveParts, VariablesLeave, OthersStay};
ghost use Rattle.zk_vm.specs.guards.Examples.{StoriesEnd, FaultsStop, BranchesLead, StepsAreLimited, WordsAreLimited};
ghost use Rattle.zk_vm.specs.guards.Examples.{FramesAreLimited, RefusedStepsShowNothing, LimitsHaveRanges};
ghost use Rattle.zk_vm.specs.guards.Examples.{BeginsAtTheFirstInstruction, StopsForGood, LinesAnswerReads};
ghost use Rattle.zk_vm.specs.guards.Examples.{LinesAreTyped, AnswersCountAnew, ReadsAreLimited, AnswersStop};
ghost use Rattle.zk_vm.specs.guards.Examples.{MachinesWait, RoutinesAreOpen, EndsAreScripted, HostsSplit};
ghost use Rattle.zk_vm.specs.guards.Examples.{StoriesHaveAScreen};

/// Small stories, from their first instruction to their stop.
pub fn runs_by_example()
    ensures stories_end { StoriesEnd }
    ensures faults_stop { FaultsStop }
    ensures branches_lead { BranchesLead }
{}

/// Runs that go past a limit, and the ranges of limits.
pub fn limits_by_example()
    ensures steps_are_limited { StepsAreLimited }
    ensures words_are_limited { WordsAreLimited }
    ensures frames_are_limited { FramesAreLimited }
    ensures refused_steps_show_nothing { RefusedStepsShowNothing }
    ensures limits_have_ranges { LimitsHaveRanges }
{}

/// How a run begins, and what a machine that has stopped does (Standard, section 5.5).
pub fn sessions_by_example()
    ensures begins_at_the_first_instruction { BeginsAtTheFirstInstruction }
    ensures stops_for_good { StopsForGood }
{}

/// Reads, their answers, and what they do to limits (Standard, section 15, `sread`, `aread` and `read_char`).
pub fn reads_by_example()
    ensures lines_answer_reads { LinesAnswerReads }
    ensures lines_are_typed { LinesAreTyped }
    ensures answers_count_anew { AnswersCountAnew }
    ensures reads_are_limited { ReadsAreLimited }
    ensures answers_stop { AnswersStop }
    ensures machines_wait { MachinesWait }
{}

/// The upper window before a read, and the transcript (Standard, sections 7 and 8).
pub fn views_by_example()
    ensures views_show_rows { ViewsShowRows }
    ensures no_view { NoViewPastTheMostReads }
    ensures scripts { ScriptsGetText }
    ensures due_text { DueTextComesFirst }
    ensures ends_are_scripted { EndsAreScripted }
    ensures hosts_split { HostsSplit }
    ensures stories_have_a_screen { StoriesHaveAScreen }
{}

/// Parts of a text.
pub fn parts_by_example()
    ensures parts_are_shown { PartsAreShown }
    ensures parts_make_no_step { PartsMakeNoStep }
    ensures reads_have_parts { ReadsHaveParts }
    ensures others_have_no_parts { OthersHaveNoParts }
{}

/// Moves of which a clean set tells nothing more.
pub fn leaving_by_example()
    ensures variables_leave { VariablesLeave }
    ensures others_stay { OthersStay }
{}

/// Each device's part of a log.
pub fn logs_by_example()
    ensures { DevicesHaveParts }
{}

/// The routines that are open (Standard, section 6.3).
pub fn calls_by_example()
    ensures { RoutinesAreOpen }
{}
