// Worked examples of the definitions, which refuse one that is turned together with its body.
#![tactic(auto, unfolding(crate::proofs::guards::Opened::examples))]

ghost use Rattle.zk_strict.specs.guards.Examples.{ArraysInCode, ArraysOfTheFirstOperand, BytesPastTheEnd, CallsInCode};
ghost use Rattle.zk_strict.specs.guards.Examples.{CallsOfZero, IndicesBelowZero, ObjectsInCode, ObjectsIntoThemselves};
ghost use Rattle.zk_strict.specs.guards.Examples.{UnknownValues, VariablesInARun, WordsOfTheStack, WordsPastTheEnd};
ghost use Rattle.zk_strict.specs.guards.Examples.{AddressesHave16Bits, ConstantsInARun, OtherTexts, PackedTexts};
ghost use Rattle.zk_strict.specs.guards.Examples.{TextsByVariables};

/// Accesses of arrays, by values (Standard, section 15).
pub fn arrays_by_example()
    ensures bytes_past_the_end { BytesPastTheEnd }
    ensures words_past_the_end { WordsPastTheEnd }
    ensures indices_below_zero { IndicesBelowZero }
    ensures addresses_have_16_bits { AddressesHave16Bits }
    ensures arrays_of_the_first_operand { ArraysOfTheFirstOperand }
    ensures unknown_values { UnknownValues }
{}

/// Calls and insertions, by values (Standard, sections 6.4.3 and 15).
pub fn calls_and_objects_by_example()
    ensures calls_of_zero { CallsOfZero }
    ensures objects_into_themselves { ObjectsIntoThemselves }
{}

/// Instructions as they stand in code (Standard, section 4).
pub fn code_by_example()
    ensures arrays_in_code { ArraysInCode }
    ensures calls_in_code { CallsInCode }
    ensures objects_in_code { ObjectsInCode }
{}

/// Instructions by what a run has for their operands (Standard, sections 4.2 and 6).
pub fn runs_by_example()
    ensures words_of_the_stack { WordsOfTheStack }
    ensures variables_in_a_run { VariablesInARun }
    ensures constants_in_a_run { ConstantsInARun }
{}

/// Texts that are printed by their addresses (Standard, sections 1.2.3 and 15).
pub fn texts_by_example()
    ensures packed_texts { PackedTexts }
    ensures texts_by_variables { TextsByVariables }
    ensures other_texts { OtherTexts }
{}
