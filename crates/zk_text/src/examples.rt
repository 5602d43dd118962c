// Worked examples of the definitions, which refuse one that is turned together with its body.

ghost use Rattle.zk_text.specs.guards.Examples.{StandardLetters, OwnLetters, ThreeToAWord, ShiftsLastOneLetter};
ghost use Rattle.zk_text.specs.guards.Examples.{CodesOfTenBits, AbbreviationsByThirtyTwo, TextsMean};
ghost use Rattle.zk_text.specs.guards.Examples.{AbbreviationsExpand, CharactersOfCodes, CodesOfCharacters, LowerCase};
ghost use Rattle.zk_text.specs.guards.Examples.{OwnCharacters, UnitsShow, EarlyKeys, LateKeys, KeysOfSigns, KeysAreCut};

/// The letters of the alphabets (Standard, sections 3.2 and 3.5).
#[tactic(auto, unfolding(crate::proofs::Opened::examples))]
pub fn alphabets_by_example()
    ensures standard_letters { StandardLetters }
    ensures own_letters { OwnLetters }
{}

/// Z-characters, shifts, codes and abbreviations (Standard, sections 3.2 to 3.4).
#[tactic(auto, unfolding(crate::specs::Pieces::pieces_past, crate::specs::Words::z_characters))]
pub fn pieces_by_example()
    ensures three_to_a_word { ThreeToAWord }
    ensures shifts_last_one_letter { ShiftsLastOneLetter }
    ensures codes_of_ten_bits { CodesOfTenBits }
    ensures abbreviations_by_thirty_two { AbbreviationsByThirtyTwo }
{}

/// What texts mean (Standard, sections 3.2 and 3.3).
#[tactic(auto, unfolding(crate::proofs::Opened::examples))]
pub fn texts_by_example()
    ensures texts_mean { TextsMean }
    ensures abbreviations_expand { AbbreviationsExpand }
{}

/// Codes and characters (Standard, section 3.8).
#[tactic(auto, unfolding(crate::proofs::Opened::examples))]
pub fn characters_by_example()
    ensures characters_of_codes { CharactersOfCodes }
    ensures codes_of_characters { CodesOfCharacters }
    ensures lower_case { LowerCase }
    ensures own_characters { OwnCharacters }
    ensures units_show { UnitsShow }
{}

/// The keys of words (Standard, sections 3.7, 13.3 and 13.4).
#[tactic(auto, unfolding(crate::proofs::Opened::examples))]
pub fn keys_by_example()
    ensures early_keys { EarlyKeys }
    ensures late_keys { LateKeys }
    ensures keys_of_signs { KeysOfSigns }
    ensures keys_are_cut { KeysAreCut }
{}
