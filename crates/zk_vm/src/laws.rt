// Laws of runs.

ghost use Rattle.zk_vm.specs.Inside.{CleanStays, CleanStopsRead};
ghost use Rattle.zk_vm.specs.Laws.{FrameLimitsOnlyCut, LimitsCutRuns, RunsStayWithin, StepLimitOnlyCuts};
ghost use Rattle.zk_vm.specs.Log.{LogsJoin, OneLog, PartsJoin, PartsOnlyDivide};

/// Every state that a run passes, whatever answers it gets, has no more frames, words, steps, reads and states to go
/// back to than its limits say.
pub fn runs_stay_within()
    ensures { RunsStayWithin }
{}

/// A machine that does not stop by the limit on steps does the same under any greater one, whatever answers it gets.
pub fn step_limit_only_cuts()
    ensures { StepLimitOnlyCuts }
{}

/// So does one that does not stop by a limit on frames or words, under any greater ones.
pub fn frame_limits_only_cut()
    ensures { FrameLimitsOnlyCut }
{}

/// The step that is one too many, the first step that passes a limit, and the first answer that does are where a
/// machine stops, by that limit.
pub fn limits_cut_runs()
    ensures { LimitsCutRuns }
{}

/// Where a set of addresses is clean for a story, each state of its runs is inside the set, up to a call or a jump by a
/// variable and up to a saved game that is restored; no step at an address of the set is ever a fault of reading an
/// instruction; and from the static base on memory always has the bytes of the story file.
pub fn clean_stays()
    ensures { CleanStays }
{}

/// Where runs stay clean in a set of addresses, none stops at an address of it by a fault of reading the instruction
/// there.
pub fn clean_stops_read()
    ensures { CleanStopsRead }
{}

/// A part of the text of a step, and then the rest of it, are what the step is alone.
pub fn parts_only_divide()
    ensures { PartsOnlyDivide }
{}

/// Two parts of a text that follow one another are one.
pub fn parts_join()
    ensures { PartsJoin }
{}

/// Logs of a machine that follow one another are a log of it.
pub fn logs_join()
    ensures { LogsJoin }
{}

/// What comes from the world determines a log: of two that got the same, one is a first part of the other.
pub fn one_log()
    ensures { OneLog }
{}
