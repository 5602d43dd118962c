// Worked examples of the definitions, which refuse one that is turned together with its body.

ghost use Rattle.zk_facts.specs.guards.Examples.{FieldsAreEscaped};

/// Small fields, byte by byte.
#[tactic(auto)]
pub fn fields_by_example()
    ensures { FieldsAreEscaped }
{}
