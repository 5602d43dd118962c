// Worked examples of the definitions, which refuse one that is turned together with its body.

ghost use Rattle.zk_mem.specs.guards.Examples.{FieldsStand, LateFields, PackedByVersion, DataIsRead, CodeIsRead};
ghost use Rattle.zk_mem.specs.guards.Examples.{BytesArePut, WordsArePut, BytesAreCopied, DataEndsAt65536};
ghost use Rattle.zk_mem.specs.guards.Examples.{DataEndsWithTheStory, WordAt65535IsOutside, TextsEndAtTheMark};
ghost use Rattle.zk_mem.specs.guards.Examples.{TextsHaveAnEnd, GreatestLengths, StoriesAreOpened, ReasonsInOrder};
ghost use Rattle.zk_mem.specs.guards.Examples.{RefusalsHaveNumbers, FaultsHaveNumbers, FieldsOfVersion3};
ghost use Rattle.zk_mem.specs.guards.Examples.{FieldsOfVersion3SetABit, FieldsOfVersion4, FieldsOfVersion5};
ghost use Rattle.zk_mem.specs.guards.Examples.{FieldsOfVersion8, MemoryStartsSo, SumsGoToTheStatedLength};
ghost use Rattle.zk_mem.specs.guards.Examples.{SumsAreModulo65536, SumsAreCompared, RestartsSo, BytesArePutBack};
ghost use Rattle.zk_mem.specs.guards.Examples.{SettlesSo, SettlesLaterVersions, FieldsOfAWideScreen, WideScreensStay};

/// The header, and packed addresses (Standard, sections 1.2.3 and 11.1).
#[tactic(auto, unfolding(crate::specs::Header::header_of, crate::specs::Header::unit_length))]
pub fn header_by_example()
    ensures fields_stand { FieldsStand }
    ensures late_fields { LateFields }
    ensures packed_by_version { PackedByVersion }
{}

/// Data is read and written (Standard, sections 1.1 and 2.1).
#[tactic(auto, unfolding(crate::proofs::guards::Opened::examples))]
pub fn data_by_example()
    ensures data_is_read { DataIsRead }
    ensures code_is_read { CodeIsRead }
    ensures bytes_are_put { BytesArePut }
    ensures words_are_put { WordsArePut }
    ensures bytes_are_copied { BytesAreCopied }
    ensures data_ends_at65536 { DataEndsAt65536 }
    ensures data_ends_with_the_story { DataEndsWithTheStory }
    ensures word_at65535_is_outside { WordAt65535IsOutside }
{}

/// The words of a text and its end (Standard, section 3.2).
#[tactic(auto, unfolding(crate::proofs::guards::Opened::examples))]
pub fn texts_by_example()
    ensures texts_end_at_the_mark { TextsEndAtTheMark }
    ensures texts_have_an_end { TextsHaveAnEnd }
{}

/// Which files are stories (Standard, section 1.1.4).
#[tactic(auto, unfolding(crate::specs::Story::refusal))]
pub fn opening_by_example()
    ensures greatest_lengths { GreatestLengths }
    ensures stories_are_opened { StoriesAreOpened }
    ensures reasons_in_order { ReasonsInOrder }
{}

/// The numbers that reports name refusals and faults by.
pub fn numbers_by_example()
    ensures refusals_have_numbers { RefusalsHaveNumbers }
    ensures faults_have_numbers { FaultsHaveNumbers }
{}

/// The header's fields that are set at the start (Standard, section 11.1).
#[tactic(auto, unfolding(crate::proofs::guards::Opened::examples))]
pub fn fresh_by_example()
    ensures fields_of_version3 { FieldsOfVersion3 }
    ensures fields_of_version3_set_a_bit { FieldsOfVersion3SetABit }
    ensures fields_of_version4 { FieldsOfVersion4 }
    ensures fields_of_version5 { FieldsOfVersion5 }
    ensures fields_of_version8 { FieldsOfVersion8 }
    ensures fields_of_a_wide_screen { FieldsOfAWideScreen }
    ensures memory_starts_so { MemoryStartsSo }
{}

/// The sum of a file's bytes (Standard, section 15, `verify`).
#[tactic(auto, unfolding(crate::proofs::guards::Opened::examples))]
pub fn sums_by_example()
    ensures sums_go_to_the_stated_length { SumsGoToTheStatedLength }
    ensures sums_are_modulo65536 { SumsAreModulo65536 }
    ensures sums_are_compared { SumsAreCompared }
{}

/// Memory that is put back (Standard, section 6.1).
#[tactic(auto, unfolding(crate::proofs::guards::Opened::examples))]
pub fn restarts_by_example()
    ensures restarts_so { RestartsSo }
    ensures wide_screens_stay { WideScreensStay }
    ensures bytes_are_put_back { BytesArePutBack }
    ensures settles_so { SettlesSo }
    ensures settles_later_versions { SettlesLaterVersions }
{}
