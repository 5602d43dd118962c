// Worked examples of the definitions, which refuse one that is turned together with its body.

ghost use Rattle.zk_tables.specs.guards.ArrayExamples.{RunsArePut, RunsEndAtTheStaticBase, PlacesGoOnAtZero};
ghost use Rattle.zk_tables.specs.guards.ArrayExamples.{CopiesUpwards, CopiesDownwards, CopiesFromZero, CopiesForwards};
ghost use Rattle.zk_tables.specs.guards.ArrayExamples.{TablesAreCleared, NothingIsCopied, SizesHaveNoSign};
ghost use Rattle.zk_tables.specs.guards.ArrayExamples.{CopiesReadFirst, BytesInTheirOrder, WordsAreFound};
ghost use Rattle.zk_tables.specs.guards.ArrayExamples.{BytesAreFound, TheFirstIsFound, ValuesAreWhole};
ghost use Rattle.zk_tables.specs.guards.ArrayExamples.{EntriesOfNoLength, ScansEndAtTheMatch, ScansGoOnAtZero};
ghost use Rattle.zk_tables.specs.guards.ArrayExamples.{RowsAreRead, RowsAreJoined, EmptyRectangles, RowsEndWithData};
ghost use Rattle.zk_tables.specs.guards.ArrayExamples.{RowsGoOnAtZero};

/// Runs of bytes (Standard, section 1.1).
#[tactic(auto, unfolding(crate::specs::Runs::bytes_put, crate::specs::Runs::places, zk_mem::specs::Map::byte_put))]
pub fn runs_by_example()
    ensures runs_are_put { RunsArePut }
    ensures runs_end_at_the_static_base { RunsEndAtTheStaticBase }
    ensures places_go_on_at_zero { PlacesGoOnAtZero }
{}

/// Tables are copied and cleared (Standard, section 15, `copy_table`).
#[tactic(auto, unfolding(crate::proofs::Opened::examples))]
pub fn copying_by_example()
    ensures copies_upwards { CopiesUpwards }
    ensures copies_downwards { CopiesDownwards }
    ensures copies_from_zero { CopiesFromZero }
    ensures copies_forwards { CopiesForwards }
    ensures tables_are_cleared { TablesAreCleared }
    ensures nothing_is_copied { NothingIsCopied }
    ensures sizes_have_no_sign { SizesHaveNoSign }
    ensures copies_read_first { CopiesReadFirst }
    ensures bytes_in_their_order { BytesInTheirOrder }
{}

/// Tables are searched (Standard, section 15, `scan_table`).
#[tactic(auto, unfolding(crate::specs::Scanning::scanned, zk_mem::specs::Map::byte_at, zk_mem::specs::Map::word_at))]
pub fn scanning_by_example()
    ensures words_are_found { WordsAreFound }
    ensures bytes_are_found { BytesAreFound }
    ensures the_first_is_found { TheFirstIsFound }
    ensures values_are_whole { ValuesAreWhole }
    ensures entries_of_no_length { EntriesOfNoLength }
    ensures scans_end_at_the_match { ScansEndAtTheMatch }
    ensures scans_go_on_at_zero { ScansGoOnAtZero }
{}

/// Rectangles of codes (Standard, section 15, `print_table`).
#[tactic(auto, unfolding(crate::proofs::Opened::examples))]
pub fn rectangles_by_example()
    ensures rows_are_read { RowsAreRead }
    ensures rows_are_joined { RowsAreJoined }
    ensures empty_rectangles { EmptyRectangles }
    ensures rows_end_with_data { RowsEndWithData }
    ensures rows_go_on_at_zero { RowsGoOnAtZero }
{}
