// Worked examples of the definitions, which refuse one that is turned together with its body.

ghost use Rattle.zk_coverage.specs.guards.Examples.{FirstInstructionsCount, LinesAreBounded, OnePointIsEnough};
ghost use Rattle.zk_coverage.specs.guards.Examples.{RecordsAreWritten, RowsAreWritten, SummariesAreWritten};
ghost use Rattle.zk_coverage.specs.guards.Examples.{TextsAreEscaped};

/// What ran, and how pages show texts.
#[tactic(auto, unfolding(crate::specs::Lines::numbers))]
pub fn states_by_example()
    ensures one_point_is_enough { OnePointIsEnough }
    ensures lines_are_bounded { LinesAreBounded }
    ensures first_instructions_count { FirstInstructionsCount }
    ensures texts_are_escaped { TextsAreEscaped }
{}

/// How reports are written.
pub fn reports_by_example()
    ensures summaries_are_written { SummariesAreWritten }
    ensures records_are_written { RecordsAreWritten }
    ensures rows_are_written { RowsAreWritten }
{}
