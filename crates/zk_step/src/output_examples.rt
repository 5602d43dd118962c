// Worked examples of streams, windows, tables and random numbers, as laws.

ghost use Rattle.zk_step.specs.guards.OutputExamples.{NumbersFollowTheSeed, PredictableNumbersServe, TablesNest};
ghost use Rattle.zk_step.specs.guards.OutputExamples.{StreamsAreSelected, TablesAreOpened, TablesAreClosed};
ghost use Rattle.zk_step.specs.guards.OutputExamples.{CodesAreStored, LinesBegin, OpenTablesTakeText, StreamsShowText};
ghost use Rattle.zk_step.specs.guards.OutputExamples.{UpperTextStaysThere, TablesAreSearched, RectanglesArePrinted};
ghost use Rattle.zk_step.specs.guards.OutputExamples.{WindowsAreChanged, CursorsAreTold, StatusLinesNeedTheView};
ghost use Rattle.zk_step.specs.guards.OutputExamples.{StylesAreShown, StylesFontsAndBleeps, WindowsAreErased};
ghost use Rattle.zk_step.specs.guards.OutputExamples.{FontsOfAFixedPitch};

/// Random numbers (Standard, section 15, `random`).
#[tactic(auto, unfolding(crate::specs::Random::randomised))]
pub fn random_by_example()
    ensures follows_the_seed { NumbersFollowTheSeed }
    ensures predictable { PredictableNumbersServe }
{}

/// Streams are selected (Standard, sections 7.1 and 15, `output_stream`).
#[tactic(auto, unfolding(crate::proofs::Opened::output_examples))]
pub fn streams_by_example()
    ensures tables_nest { TablesNest }
    ensures selected { StreamsAreSelected }
    ensures tables_open { TablesAreOpened }
    ensures tables_close { TablesAreClosed }
{}

/// Where text goes (Standard, sections 7.1 and 8.6).
#[tactic(auto, unfolding(crate::proofs::Opened::output_examples))]
pub fn routes_by_example()
    ensures codes_stored { CodesAreStored }
    ensures lines_begin { LinesBegin }
    ensures tables_take_text { OpenTablesTakeText }
    ensures streams_show_text { StreamsShowText }
    ensures styles_are_shown { StylesAreShown }
    ensures upper_text { UpperTextStaysThere }
{}

/// The opcodes of tables and windows (Standard, section 15).
#[tactic(auto, unfolding(crate::proofs::Opened::output_examples))]
pub fn tables_and_windows_by_example()
    ensures tables_are_searched { TablesAreSearched }
    ensures rectangles { RectanglesArePrinted }
    ensures windows_change { WindowsAreChanged }
    ensures erased { WindowsAreErased }
    ensures styles { StylesFontsAndBleeps }
    ensures fonts { FontsOfAFixedPitch }
    ensures cursors { CursorsAreTold }
    ensures status_lines { StatusLinesNeedTheView }
{}
