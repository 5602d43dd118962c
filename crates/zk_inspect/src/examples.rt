// Worked examples of the definitions, which refuse one that is turned together with its body.

ghost use Rattle.zk_inspect.specs.guards.Examples.{AddressesHaveFiveDigits, WordsHaveFourDigits, FindingsOfTables};
ghost use Rattle.zk_inspect.specs.guards.Examples.{FindingsOfTextsAndCode, VariablesByNumber, OperandsByType};
ghost use Rattle.zk_inspect.specs.guards.Examples.{StoresBehindAnArrow, BranchesBehindAMark, LinesOfOperands};
ghost use Rattle.zk_inspect.specs.guards.Examples.{LinesOfBranches, LinesOfVariables, LinesOfJumps, LinesOfTexts};
ghost use Rattle.zk_inspect.specs.guards.Examples.{CharactersBetweenQuotes, LinesOfLyingTexts, LinesOfRoutines};
ghost use Rattle.zk_inspect.specs.guards.Examples.{RoutinesBehindCode, RoutinesByOrigin, HeadersAreLines};
ghost use Rattle.zk_inspect.specs.guards.Examples.{MapsAreInOrder, AbbreviationsAreLines, NoTableNoLines};
ghost use Rattle.zk_inspect.specs.guards.Examples.{DictionariesAreLines, KeysAreWords, ObjectsAreLines};
ghost use Rattle.zk_inspect.specs.guards.Examples.{ListsPastTheEnd, UndecodableAddresses, LeadingOut, KindsOfFaults};
ghost use Rattle.zk_inspect.specs.guards.Examples.{TextsThatFail, RowsAreIndented, RowsAgain, RootsNameNoParent};
ghost use Rattle.zk_inspect.specs.guards.ListExamples.{FindingsAreLines, AllAbbreviationsAreLines, KeysAreInOrder};
ghost use Rattle.zk_inspect.specs.guards.ListExamples.{KeysBeginEntries, LinksPastTheLast, QuestionsOnObjects};
ghost use Rattle.zk_inspect.specs.guards.ListExamples.{LateObjectsAreLines};
ghost use Rattle.zk_inspect.specs.guards.CheckExamples.{EntriesAtTables, EntriesBelowTables, LinksLeadPast};
ghost use Rattle.zk_inspect.specs.guards.CheckExamples.{NoTableNoObjects, TextsByConstants, WordsAreAddresses};
ghost use Rattle.zk_inspect.specs.guards.CheckExamples.{WordsPastTheEnd};
ghost use Rattle.zk_inspect.specs.guards.NameExamples.{NamesByHeaders, NamesInFiles};
ghost use Rattle.zk_inspect.specs.guards.NoteExamples.{CallsNameRoutines, ExtensionsAreLines, GlobalsAreLines};
ghost use Rattle.zk_inspect.specs.guards.NoteExamples.{GlobalsAreNoted, LongTextsAreShortened, ObjectsAreNoted};
ghost use Rattle.zk_inspect.specs.guards.NoteExamples.{PropertiesAreLines, TextsAreNoted, TheThirdAlphabetBeginsLater};
ghost use Rattle.zk_inspect.specs.guards.LowExamples.{LowInstructions, LowRoutines};

/// Addresses, words and bytes by their digits.
#[tactic(auto, unfolding(crate::proofs::guards::Opened::examples))]
pub fn numbers_by_example()
    ensures addresses_have_five_digits { AddressesHaveFiveDigits }
    ensures words_have_four_digits { WordsHaveFourDigits }
{}

/// The lines of findings.
pub fn findings_by_example()
    ensures findings_of_tables { FindingsOfTables }
    ensures findings_of_texts_and_code { FindingsOfTextsAndCode }
    ensures findings_are_lines { FindingsAreLines }
{}

/// Operands, stores and branches in a disassembly (Standard, sections 4.2, 4.6 and 4.7).
pub fn parts_by_example()
    ensures variables_by_number { VariablesByNumber }
    ensures operands_by_type { OperandsByType }
    ensures stores_behind_an_arrow { StoresBehindAnArrow }
    ensures branches_behind_a_mark { BranchesBehindAMark }
{}

/// Lines of instructions (Standard, sections 4 and 14).
pub fn instructions_by_example()
    ensures lines_of_operands { LinesOfOperands }
    ensures lines_of_branches { LinesOfBranches }
    ensures lines_of_variables { LinesOfVariables }
    ensures lines_of_jumps { LinesOfJumps }
{}

/// Texts in a disassembly (Standard, sections 3 and 4.8).
pub fn quotes_by_example()
    ensures lines_of_texts { LinesOfTexts }
    ensures characters_between_quotes { CharactersBetweenQuotes }
    ensures lines_of_lying_texts { LinesOfLyingTexts }
{}

/// Routines in a disassembly (Standard, section 5.2).
pub fn routines_by_example()
    ensures lines_of_routines { LinesOfRoutines }
    ensures routines_behind_code { RoutinesBehindCode }
    ensures routines_by_origin { RoutinesByOrigin }
{}

/// Headers and maps (Standard, sections 1.1 and 11.1).
pub fn headers_by_example()
    ensures headers_are_lines { HeadersAreLines }
    ensures maps_are_in_order { MapsAreInOrder }
{}

/// What catalogues name a story by (Treaty of Babel).
#[tactic(auto, unfolding(crate::proofs::guards::Opened::examples))]
pub fn names_by_example()
    ensures names_in_files { NamesInFiles }
    ensures names_by_headers { NamesByHeaders }
{}

/// Abbreviations (Standard, section 3.3).
pub fn abbreviations_by_example()
    ensures abbreviations_are_lines { AbbreviationsAreLines }
    ensures no_table_no_lines { NoTableNoLines }
    ensures all_abbreviations_are_lines { AllAbbreviationsAreLines }
{}

/// Dictionaries (Standard, sections 13.2 to 13.4).
pub fn dictionaries_by_example()
    ensures dictionaries_are_lines { DictionariesAreLines }
    ensures keys_are_words { KeysAreWords }
{}

/// Objects (Standard, sections 12.3 and 12.4).
pub fn objects_by_example()
    ensures objects_are_lines { ObjectsAreLines }
    ensures lists_past_the_end { ListsPastTheEnd }
    ensures late_objects_are_lines { LateObjectsAreLines }
{}

/// The order of a dictionary's keys (Standard, sections 13.2 to 13.5).
pub fn keys_by_example()
    ensures keys_are_in_order { KeysAreInOrder }
    ensures keys_begin_entries { KeysBeginEntries }
{}

/// What is asked of objects (Standard, sections 12.3 to 12.5).
pub fn questions_by_example()
    ensures links_past_the_last { LinksPastTheLast }
    ensures questions_on_objects { QuestionsOnObjects }
{}

/// What is wrong with code (Standard, sections 4, 5 and 6).
pub fn checks_by_example()
    ensures undecodable_addresses { UndecodableAddresses }
    ensures leading_out { LeadingOut }
{}

/// Code that a run may rewrite (Standard, sections 1.1.1, 5.2 and 6.4).
pub fn low_code_by_example()
    ensures low_instructions { LowInstructions }
    ensures low_routines { LowRoutines }
{}

/// What is wrong with texts (Standard, sections 3.2 and 3.3).
pub fn failing_texts_by_example()
    ensures kinds_of_faults { KindsOfFaults }
    ensures texts_that_fail { TextsThatFail }
{}

/// The tree of objects (Standard, section 12.3).
pub fn trees_by_example()
    ensures rows_are_indented { RowsAreIndented }
    ensures rows_again { RowsAgain }
    ensures roots_name_no_parent { RootsNameNoParent }
{}

/// The objects that are listed (Standard, section 12.3).
pub fn listed_by_example()
    ensures entries_below_tables { EntriesBelowTables }
    ensures entries_at_tables { EntriesAtTables }
    ensures no_table_no_objects { NoTableNoObjects }
    ensures links_lead_past { LinksLeadPast }
{}

/// The texts that are known to be texts (Standard, sections 3.3 and 15).
pub fn texts_by_example()
    ensures texts_by_constants { TextsByConstants }
    ensures words_past_the_end { WordsPastTheEnd }
    ensures words_are_addresses { WordsAreAddresses }
{}

/// What the constants and the global variables of instructions stand for (Standard, sections 4.2, 6.2 and 15).
pub fn notes_by_example()
    ensures calls_name_routines { CallsNameRoutines }
    ensures texts_are_noted { TextsAreNoted }
    ensures long_texts_are_shortened { LongTextsAreShortened }
    ensures objects_are_noted { ObjectsAreNoted }
    ensures globals_are_noted { GlobalsAreNoted }
{}

/// Global variables, alphabets, the header's extension and properties (Standard, sections 3.5.3, 6.2, 11.1.7 and 12.4).
pub fn tables_by_example()
    ensures globals_are_lines { GlobalsAreLines }
    ensures extensions_are_lines { ExtensionsAreLines }
    ensures the_third_alphabet_begins_later { TheThirdAlphabetBeginsLater }
    ensures properties_are_lines { PropertiesAreLines }
{}
