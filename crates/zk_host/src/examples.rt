// Worked examples of the definitions, which refuse one that is turned together with its body.

ghost use Rattle.zk_host.specs.guards.Examples.{HashesAreKnown, KeysAreCodes, MarksAreBytes, RunsAreTold, SignalsMark};
ghost use Rattle.zk_host.specs.guards.Examples.{ChangesAreMade, ChangesAreRead, ObjectsAreTold, StylesHaveMarks};

/// Styles, erasures and bleeps before characters, and their runs.
#[tactic(auto, unfolding(crate::proofs::guards::Opened::examples))]
pub fn marks_by_example()
    ensures styles_have_marks { StylesHaveMarks }
    ensures signals_mark { SignalsMark }
    ensures runs_are_told { RunsAreTold }
{}

/// Keys that give no character (Standard, section 3.8).
#[tactic(auto, unfolding(crate::proofs::guards::Opened::examples))]
pub fn keys_by_example()
    ensures { KeysAreCodes }
{}

/// Objects and their properties (Standard, section 12).
#[tactic(auto, unfolding(crate::proofs::guards::Opened::examples, zk_tables::proofs::Opened::examples))]
pub fn objects_by_example()
    ensures { ObjectsAreTold }
{}

/// Changes that a host makes (Standard, section 15, `storew`, `insert_obj` and `remove_obj`).
#[tactic(auto, unfolding(crate::proofs::guards::Opened::examples, zk_tables::proofs::Opened::examples))]
pub fn changes_by_example()
    ensures read { ChangesAreRead }
    ensures made { ChangesAreMade }
{}

/// Hashes of bytes, and marks of addresses.
#[tactic(auto, unfolding(crate::proofs::guards::Opened::examples))]
pub fn looks_by_example()
    ensures hashes_are_known { HashesAreKnown }
    ensures marks_are_bytes { MarksAreBytes }
{}
