// Worked examples of the definitions, which refuse one that is turned together with its body.

ghost use Rattle.zk_inform.specs.guards.Examples.{AttributesByVersion, CharactersAreMarked, ClassNumbersEnd};
ghost use Rattle.zk_inform.specs.guards.Examples.{ClassesAreLonger, CompilersAreNamed, DocumentsAreWhole, ListsEnd};
ghost use Rattle.zk_inform.specs.guards.Examples.{NamesHaveFewWords, NamesHaveLetters, NamesHaveNumbers};
ghost use Rattle.zk_inform.specs.guards.Examples.{ObjectsHaveNames};
ghost use Rattle.zk_inform.specs.guards.Examples.{TablesAreRight, TablesHaveCounts, TextsAreNames, TextsAreShortNames};

/// Texts as names, and as XML has them (Z-Machine Standards Document 1.1, section 3; XML 1.0, sections 2.2 and 4.6).
pub fn texts_by_example()
    ensures names_have_letters { NamesHaveLetters }
    ensures texts_are_names { TextsAreNames }
    ensures texts_are_short_names { TextsAreShortNames }
    ensures characters_are_marked { CharactersAreMarked }
{}

/// Where the identifier names stand (Standard, section 12 and appendix B).
pub fn tables_by_example()
    ensures compilers_are_named { CompilersAreNamed }
    ensures lists_end { ListsEnd }
    ensures class_numbers_end { ClassNumbersEnd }
    ensures tables_have_counts { TablesHaveCounts }
    ensures attributes_by_version { AttributesByVersion }
    ensures classes_are_longer { ClassesAreLonger }
    ensures tables_are_right { TablesAreRight }
{}

/// Documents.
pub fn documents_by_example()
    ensures names_have_numbers { NamesHaveNumbers }
    ensures objects_have_names { ObjectsHaveNames }
    ensures names_have_few_words { NamesHaveFewWords }
    ensures documents_are_whole { DocumentsAreWhole }
{}
