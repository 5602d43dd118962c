// Worked examples of the definitions, which refuse one that is turned together with its body.

ghost use Rattle.zk_notes.specs.guards.Examples.{AddressesAreRead, CompilersAreKnown, FindingsAreCounted};
ghost use Rattle.zk_notes.specs.guards.Examples.{FactsAreMarked, FindingsAreExplained, LinesAreMarked, ListsAreRead};
ghost use Rattle.zk_notes.specs.guards.Examples.{StoriesAreTold, TextsAreListed};

/// Small listings, fact by fact.
#[tactic(auto, unfolding(crate::proofs::guards::Opened::examples))]
pub fn notes_by_example()
    ensures addresses_are_read { AddressesAreRead }
    ensures lists_are_read { ListsAreRead }
    ensures stories_are_told { StoriesAreTold }
    ensures findings_are_explained { FindingsAreExplained }
    ensures findings_are_counted { FindingsAreCounted }
    ensures facts_are_marked { FactsAreMarked }
    ensures lines_are_marked { LinesAreMarked }
    ensures compilers_are_known { CompilersAreKnown }
    ensures texts_are_listed { TextsAreListed }
{}
