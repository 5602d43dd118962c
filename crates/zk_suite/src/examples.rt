// Worked examples of the definitions, which refuse one that is turned together with its body.

ghost use Rattle.zk_suite.specs.guards.Examples.{BackslashesAreDropped, CommentsEnd, MarksAreDropped, ScriptsAreRead};
ghost use Rattle.zk_suite.specs.guards.Examples.{SettingsAreRead};

/// Small walkthroughs, line by line.
#[tactic(auto, unfolding(crate::proofs::guards::Opened::examples))]
pub fn walkthroughs_by_example()
    ensures scripts_are_read { ScriptsAreRead }
    ensures comments_end { CommentsEnd }
    ensures settings_are_read { SettingsAreRead }
    ensures backslashes_are_dropped { BackslashesAreDropped }
    ensures marks_are_dropped { MarksAreDropped }
{}
