// Worked examples of the definitions, which refuse one that is turned together with its body.

ghost use Rattle.zk_blorb.specs.guards.Examples.{FilesAreRefused, KindsAreTold, NumbersAreRead, StoriesAreFound};
ghost use Rattle.zk_blorb.specs.guards.Examples.{TextsAreTold};

/// The stories of small files (Blorb 2.0.4).
#[tactic(auto, unfolding(crate::proofs::guards::Opened::examples))]
pub fn stories_by_example()
    ensures numbers_are_read { NumbersAreRead }
    ensures stories_are_found { StoriesAreFound }
    ensures files_are_refused { FilesAreRefused }
{}

/// What files are by their first bytes.
pub fn looks_by_example()
    ensures kinds_are_told { KindsAreTold }
    ensures texts_are_told { TextsAreTold }
{}
