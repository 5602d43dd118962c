// Worked examples of the definitions, which refuse one that is turned together with its body.
#![tactic(auto, unfolding(crate::proofs::Opened::examples))]

ghost use Rattle.zk_tables.specs.guards.Examples.{DictionariesAreRead, DictionariesAreRefused, FirstEntriesAreFound};
ghost use Rattle.zk_tables.specs.guards.Examples.{OtherLengthsAreNotFound, KeysAreCompared, HalvesAreAllowed};
ghost use Rattle.zk_tables.specs.guards.Examples.{FirstEntriesAreFoundByHalves, ComparisonsAreCounted};
ghost use Rattle.zk_tables.specs.guards.Examples.{WordsOfATextAreDivided, LettersByVersion, WordsAreStored};
ghost use Rattle.zk_tables.specs.guards.Examples.{PositionsByVersion, EarlyEntriesHaveNineBytes};
ghost use Rattle.zk_tables.specs.guards.Examples.{LateEntriesHaveFourteenBytes, EarlyObjectsAreBytes};
ghost use Rattle.zk_tables.specs.guards.Examples.{EarlyAttributesFromTheTopBit, AttributesByVersion};
ghost use Rattle.zk_tables.specs.guards.Examples.{AttributesAreGivenAndTaken, ObjectZeroHasNoAttributes};
ghost use Rattle.zk_tables.specs.guards.Examples.{EarlyLinksAreBytes, LateLinksAreWords, ObjectZeroHasNoLinks};
ghost use Rattle.zk_tables.specs.guards.Examples.{ChildrenFollowSiblings, RemovesOneChild, InsertsAsFirstChild};
ghost use Rattle.zk_tables.specs.guards.Examples.{ObjectZeroStaysOut, DefaultsCountFromOne, ValuesOfProperties};
ghost use Rattle.zk_tables.specs.guards.Examples.{AddressesOfProperties, NumbersFollow, LengthsBeforeTheData};
ghost use Rattle.zk_tables.specs.guards.Examples.{ValuesArePut, NamesBehindTheirCount, StaticObjectsStay};

/// The entries of objects, by version (Standard, sections 12.2 and 12.3).
pub fn layout_by_example()
    ensures early_entries_have_nine_bytes { EarlyEntriesHaveNineBytes }
    ensures late_entries_have_fourteen_bytes { LateEntriesHaveFourteenBytes }
    ensures early_objects_are_bytes { EarlyObjectsAreBytes }
{}

/// Attributes and their bits (Standard, section 12.3).
pub fn attributes_by_example()
    ensures early_attributes_from_the_top_bit { EarlyAttributesFromTheTopBit }
    ensures attributes_by_version { AttributesByVersion }
    ensures attributes_are_given_and_taken { AttributesAreGivenAndTaken }
    ensures object_zero_has_no_attributes { ObjectZeroHasNoAttributes }
{}

/// Parents, siblings and children (Standard, section 12.3).
pub fn links_by_example()
    ensures early_links_are_bytes { EarlyLinksAreBytes }
    ensures late_links_are_words { LateLinksAreWords }
    ensures object_zero_has_no_links { ObjectZeroHasNoLinks }
{}

/// Objects that are taken out and put in (Standard, sections 12.5 and 15).
pub fn tree_by_example()
    ensures children_follow_siblings { ChildrenFollowSiblings }
    ensures removes_one_child { RemovesOneChild }
    ensures inserts_as_first_child { InsertsAsFirstChild }
    ensures object_zero_stays_out { ObjectZeroStaysOut }
{}

/// Properties, their defaults and names (Standard, sections 12.2 and 12.4).
pub fn properties_by_example()
    ensures defaults_count_from_one { DefaultsCountFromOne }
    ensures values_of_properties { ValuesOfProperties }
    ensures addresses_of_properties { AddressesOfProperties }
    ensures numbers_follow { NumbersFollow }
    ensures lengths_before_the_data { LengthsBeforeTheData }
    ensures values_are_put { ValuesArePut }
    ensures names_behind_their_count { NamesBehindTheirCount }
{}

/// Dictionaries and look-ups (Standard, sections 13.2 to 13.5).
pub fn dictionaries_by_example()
    ensures dictionaries_are_read { DictionariesAreRead }
    ensures dictionaries_are_refused { DictionariesAreRefused }
    ensures first_entries_are_found { FirstEntriesAreFound }
    ensures other_lengths_are_not_found { OtherLengthsAreNotFound }
{}

/// Search by halves (Standard, section 13.5).
pub fn halves_by_example()
    ensures keys_are_compared { KeysAreCompared }
    ensures halves_are_allowed { HalvesAreAllowed }
    ensures first_entries_are_found_by_halves { FirstEntriesAreFoundByHalves }
    ensures comparisons_are_counted { ComparisonsAreCounted }
{}

/// The words of a text, and a parse buffer (Standard, sections 13.6 and 15).
pub fn words_by_example()
    ensures words_are_divided { WordsOfATextAreDivided }
    ensures letters_by_version { LettersByVersion }
    ensures words_are_stored { WordsAreStored }
    ensures positions_by_version { PositionsByVersion }
{}

/// Objects that lie in static memory (Standard, section 1.1.1).
pub fn static_objects_by_example()
    ensures { StaticObjectsStay }
{}
