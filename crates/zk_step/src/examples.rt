// Worked examples of the definitions, which refuse one that is turned together with its body.
#![tactic(auto, unfolding(crate::proofs::Opened::examples))]

ghost use Rattle.zk_step.specs.guards.Examples.{AddsModulo, SubtractsTheSecond, MultipliesModulo, DividesTowardZero};
ghost use Rattle.zk_step.specs.guards.Examples.{RemainderHasTheSignOfTheDividend, LeastByMinusOneStays};
ghost use Rattle.zk_step.specs.guards.Examples.{DivisionByZeroIsFault, LogicIsBitByBit, ShiftsLeft, ShiftsRight};
ghost use Rattle.zk_step.specs.guards.Examples.{SubUndoesAdd, ShiftsHalveAndDouble, DividesNaturals, NotTwiceStays};
ghost use Rattle.zk_step.specs.guards.Examples.{EqualsAnother, LessIsSigned, GreaterIsSigned, GreaterIsLessExchanged};
ghost use Rattle.zk_step.specs.guards.Examples.{ZeroIsZeroAlone, TestsAllBits, WordsAreLoaded, BytesAreLoaded};
ghost use Rattle.zk_step.specs.guards.Examples.{AddressesWrap, WordsAreStored, LowBytesAreStored, LocalsCountFromOne};
ghost use Rattle.zk_step.specs.guards.Examples.{GlobalsCountFromSixteen, StackIsPulledAndPushed, StackIsNamedInPlace};
ghost use Rattle.zk_step.specs.guards.Examples.{OperandsAreTakenInOrder, Stores, Loads, CountsUpAndDown};
ghost use Rattle.zk_step.specs.guards.Examples.{ChecksTheIncreased, ChecksTheDecreased, PullsBeforeItsVariable};
ghost use Rattle.zk_step.specs.guards.Examples.{PopsAndPushes};
ghost use Rattle.zk_step.specs.guards.RoutineExamples.{RoutinesBeginByVersion, BadRoutines, ArgumentsComeFirst};
ghost use Rattle.zk_step.specs.guards.RoutineExamples.{CallsARoutine, DroppedArgumentsCount, ReturnsToTheCaller};
ghost use Rattle.zk_step.specs.guards.RoutineExamples.{ResultsArePushedOrDropped, NoReturnFromMain, ThrowsToAFrame};
ghost use Rattle.zk_step.specs.guards.RoutineExamples.{CallsTakeArguments, CallOfNothingGivesZero, ReturnedValues};
ghost use Rattle.zk_step.specs.guards.RoutineExamples.{CatchesAndThrows, ChecksArguments, BranchesBySense};
ghost use Rattle.zk_step.specs.guards.RoutineExamples.{BranchesThatReturn, StoresBeforeItGoes, JumpsBySignedOffset};
ghost use Rattle.zk_step.specs.guards.RoutineExamples.{Quits, PassesTheOperandsBehind};
ghost use Rattle.zk_step.specs.guards.ObjectExamples.{FindsRelatives, AttributesOfObjects, ObjectsMove};
ghost use Rattle.zk_step.specs.guards.ObjectExamples.{PropertiesOfObjects, PropertiesHavePlaces, PrintsNames};
ghost use Rattle.zk_step.specs.guards.PrintingExamples.{PrintsWhat, ShowsCodes, ShowsSignedNumbers, PrintsTexts};
ghost use Rattle.zk_step.specs.guards.PrintingExamples.{PrintsAndReturns, ColoursAndBuffering, UnicodeAnswers};
ghost use Rattle.zk_step.specs.guards.ReadingExamples.{EarlyLinesEndWithAZero, EarlyRoomIsOneLess};
ghost use Rattle.zk_step.specs.guards.ReadingExamples.{LaterLinesAreCounted, LaterLinesGoOn, FullBuffersStay};
ghost use Rattle.zk_step.specs.guards.ReadingExamples.{CountsAreStored, LinesAreLowered, EarlyLinesInOrder};
ghost use Rattle.zk_step.specs.guards.ReadingExamples.{LaterLinesInOrder, EarlyLinesAreDivided, LaterLinesAreDivided};
ghost use Rattle.zk_step.specs.guards.ReadingExamples.{ParseBufferAtZero, LinesAreAnsweredInOrder};
ghost use Rattle.zk_step.specs.guards.ReadingExamples.{TokeniseByADictionary, TokeniseByAFlag, KeysAreStored};
ghost use Rattle.zk_step.specs.guards.ReadingExamples.{KeysOfAnyLength, KeysInOrder, ReadsWait, LinesGiveTheirEnd};
ghost use Rattle.zk_step.specs.guards.ReadingExamples.{LinesBeforeTheirResult, EarlyLinesGiveNothing};
ghost use Rattle.zk_step.specs.guards.ReadingExamples.{CharactersAreGiven, KeysEndLines};
ghost use Rattle.zk_step.specs.guards.InstructionExamples.{CarriesOutASubtraction, CarriesOutABranch};
ghost use Rattle.zk_step.specs.guards.InstructionExamples.{CarriesOutPrinting, CarriesOutInput, BoundsAreLookedFor};
ghost use Rattle.zk_step.specs.guards.InstructionExamples.{NoBoundAtTheEnd, NoBoundWhereItWaits};

/// Arithmetic and logic on words (Standard, sections 2.3 and 15).
pub fn arithmetic_by_example()
    ensures adds_modulo { AddsModulo }
    ensures subtracts_the_second { SubtractsTheSecond }
    ensures multiplies_modulo { MultipliesModulo }
    ensures divides_toward_zero { DividesTowardZero }
    ensures remainder_has_the_sign_of_the_dividend { RemainderHasTheSignOfTheDividend }
    ensures least_by_minus_one_stays { LeastByMinusOneStays }
    ensures division_by_zero_is_fault { DivisionByZeroIsFault }
    ensures logic_is_bit_by_bit { LogicIsBitByBit }
    ensures shifts_left { ShiftsLeft }
    ensures shifts_right { ShiftsRight }
    ensures sub_undoes_add { SubUndoesAdd }
    ensures shifts_halve_and_double { ShiftsHalveAndDouble }
    ensures divides_naturals { DividesNaturals }
    ensures not_twice_stays { NotTwiceStays }
{}

/// Tests of words (Standard, section 15).
pub fn comparison_by_example()
    ensures equals_another { EqualsAnother }
    ensures less_is_signed { LessIsSigned }
    ensures greater_is_signed { GreaterIsSigned }
    ensures greater_is_less_exchanged { GreaterIsLessExchanged }
    ensures zero_is_zero_alone { ZeroIsZeroAlone }
    ensures tests_all_bits { TestsAllBits }
{}

/// Arrays in memory (Standard, section 15).
pub fn arrays_by_example()
    ensures words_are_loaded { WordsAreLoaded }
    ensures bytes_are_loaded { BytesAreLoaded }
    ensures addresses_wrap { AddressesWrap }
    ensures words_are_stored { WordsAreStored }
    ensures low_bytes_are_stored { LowBytesAreStored }
{}

/// Local and global variables, and the stack (Standard, sections 4.2 and 6).
pub fn variables_by_example()
    ensures locals_count_from_one { LocalsCountFromOne }
    ensures globals_count_from_sixteen { GlobalsCountFromSixteen }
    ensures stack_is_pulled_and_pushed { StackIsPulledAndPushed }
    ensures stack_is_named_in_place { StackIsNamedInPlace }
    ensures operands_are_taken_in_order { OperandsAreTakenInOrder }
{}

/// What is done to variables (Standard, sections 6.3 and 15).
pub fn assignment_by_example()
    ensures stores { Stores }
    ensures loads { Loads }
    ensures counts_up_and_down { CountsUpAndDown }
    ensures checks_the_increased { ChecksTheIncreased }
    ensures checks_the_decreased { ChecksTheDecreased }
    ensures pulls_before_its_variable { PullsBeforeItsVariable }
    ensures pops_and_pushes { PopsAndPushes }
{}

/// Calls and returns, catch and throw (Standard, sections 5, 6.4 and 15).
pub fn routines_by_example()
    ensures routines_begin_by_version { RoutinesBeginByVersion }
    ensures bad_routines { BadRoutines }
    ensures arguments_come_first { ArgumentsComeFirst }
    ensures calls_a_routine { CallsARoutine }
    ensures dropped_arguments_count { DroppedArgumentsCount }
    ensures returns_to_the_caller { ReturnsToTheCaller }
    ensures results_are_pushed_or_dropped { ResultsArePushedOrDropped }
    ensures no_return_from_main { NoReturnFromMain }
    ensures throws_to_a_frame { ThrowsToAFrame }
    ensures calls_take_arguments { CallsTakeArguments }
    ensures call_of_nothing_gives_zero { CallOfNothingGivesZero }
    ensures returned_values { ReturnedValues }
    ensures catches_and_throws { CatchesAndThrows }
    ensures checks_arguments { ChecksArguments }
{}

/// The way on: branches, jumps, results (Standard, sections 4.6, 4.7 and 15).
pub fn finish_by_example()
    ensures branches_by_sense { BranchesBySense }
    ensures branches_that_return { BranchesThatReturn }
    ensures stores_before_it_goes { StoresBeforeItGoes }
    ensures jumps_by_signed_offset { JumpsBySignedOffset }
    ensures quits { Quits }
    ensures passes_the_operands_behind { PassesTheOperandsBehind }
{}

/// Objects and properties (Standard, sections 12 and 15).
pub fn objects_by_example()
    ensures finds_relatives { FindsRelatives }
    ensures attributes_of_objects { AttributesOfObjects }
    ensures objects_move { ObjectsMove }
    ensures properties_of_objects { PropertiesOfObjects }
    ensures properties_have_places { PropertiesHavePlaces }
    ensures prints_names { PrintsNames }
{}

/// What is printed (Standard, sections 3, 7 and 15).
pub fn printing_by_example()
    ensures prints_what { PrintsWhat }
    ensures shows_codes { ShowsCodes }
    ensures shows_signed_numbers { ShowsSignedNumbers }
    ensures prints_texts { PrintsTexts }
    ensures prints_and_returns { PrintsAndReturns }
{}

/// What does nothing, and its answers (Standard, sections 8 and 15).
pub fn idle_by_example()
    ensures colours_and_buffering { ColoursAndBuffering }
    ensures unicode_answers { UnicodeAnswers }
{}

/// Lines in text buffers (Standard, section 15, `sread` and `aread`).
pub fn text_buffers_by_example()
    ensures early_lines_end_with_a_zero { EarlyLinesEndWithAZero }
    ensures early_room_is_one_less { EarlyRoomIsOneLess }
    ensures later_lines_are_counted { LaterLinesAreCounted }
    ensures later_lines_go_on { LaterLinesGoOn }
    ensures full_buffers_stay { FullBuffersStay }
    ensures counts_are_stored { CountsAreStored }
    ensures lines_are_lowered { LinesAreLowered }
    ensures early_lines_in_order { EarlyLinesInOrder }
    ensures later_lines_in_order { LaterLinesInOrder }
{}

/// Lines and their words (Standard, section 15, `sread` and `aread`).
pub fn lines_by_example()
    ensures early_lines_are_divided { EarlyLinesAreDivided }
    ensures later_lines_are_divided { LaterLinesAreDivided }
    ensures parse_buffer_at_zero { ParseBufferAtZero }
    ensures lines_are_answered_in_order { LinesAreAnsweredInOrder }
{}

/// Words on demand (Standard, section 15, `tokenise` and `encode_text`).
pub fn words_by_example()
    ensures tokenise_by_a_dictionary { TokeniseByADictionary }
    ensures tokenise_by_a_flag { TokeniseByAFlag }
    ensures keys_are_stored { KeysAreStored }
    ensures keys_of_any_length { KeysOfAnyLength }
    ensures keys_in_order { KeysInOrder }
{}

/// Reads and their answers (Standard, section 15, `sread`, `aread` and `read_char`).
pub fn inputs_by_example()
    ensures reads_wait { ReadsWait }
    ensures lines_give_their_end { LinesGiveTheirEnd }
    ensures lines_before_their_result { LinesBeforeTheirResult }
    ensures early_lines_give_nothing { EarlyLinesGiveNothing }
    ensures characters_are_given { CharactersAreGiven }
    ensures keys_end_lines { KeysEndLines }
{}

/// Whole instructions.
pub fn carried_out_by_example()
    ensures carries_out_a_subtraction { CarriesOutASubtraction }
    ensures carries_out_a_branch { CarriesOutABranch }
    ensures carries_out_printing { CarriesOutPrinting }
    ensures carries_out_input { CarriesOutInput }
{}

/// The bounds on frames and words.
pub fn limits_by_example()
    ensures bounds_are_looked_for { BoundsAreLookedFor }
    ensures no_bound_at_the_end { NoBoundAtTheEnd }
    ensures no_bound_where_it_waits { NoBoundWhereItWaits }
{}
