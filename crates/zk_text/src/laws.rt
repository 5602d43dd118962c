// What holds of texts and of extra characters.

ghost use Rattle.zk_text.specs.Laws.{SpaceIsPiece, LetterIsPiece, A1IsPiece, A2IsPiece, CodeIsPiece};
ghost use Rattle.zk_text.specs.Laws.{AbbreviationIsPiece, ShiftShowsNothing, EndIsCut, NestedIsFault, OthersMean};
ghost use Rattle.zk_text.specs.Laws.{CodeIsLeast, CharacterHasCode, ShownInParts};
ghost use Rattle.zk_text.specs.guards.KeyLaws.{PlaceIsFirst, A2PlaceIsFirst, SpaceIsZero, NewLineIsSeven};
ghost use Rattle.zk_text.specs.guards.KeyLaws.{SpellingByCases, SpellingsMean, KeyMeans, KeyIsText, KeyReads};
ghost use Rattle.zk_text.specs.guards.TableLaws.{A0IsSmall, A1IsCapital, A2HasDigits, A2HasNewLine, ExtraIsBeyondAscii};
ghost use Rattle.zk_text.specs.guards.TableLaws.{CodesDiffer, SmallIsAbove, CapitalHasSmall, LowerIsSmall, OthersStay};
ghost use Rattle.zk_text.specs.guards.TableLaws.{OwnLowersAscii, LowerOfA1, LowerTwice};

/// A list of Z-characters is cut into these pieces (Z-Machine Standards Document 1.1, sections 3.2
/// to 3.6). The cases cover each list.
#[tactic(auto, unfolding(crate::specs::Pieces::pieces_past))]
pub fn pieces_by_cases()
    ensures space { SpaceIsPiece }
    ensures letter { LetterIsPiece }
    ensures a1 { A1IsPiece }
    ensures a2 { A2IsPiece }
    ensures code { CodeIsPiece }
    ensures abbreviation { AbbreviationIsPiece }
    ensures shift { ShiftShowsNothing }
    ensures end { EndIsCut }
{}

/// An abbreviation's text has a meaning exactly where it uses no abbreviation (Standard, section
/// 3.3.1).
#[tactic(auto, using(crate::proofs::guards::Cases::nested_is_fault, crate::proofs::guards::Cases::others_mean))]
pub fn abbreviations_are_plain()
    ensures nested { NestedIsFault }
    ensures plain { OthersMean }
{}

/// The two ways through the table of extra characters: the code of a character is the least of
/// those that have it, and a character that has a code is found.
#[tactic(auto, using(crate::proofs::Tables::code_is_least, crate::proofs::Tables::character_has_code))]
pub fn codes_are_least()
    ensures least { CodeIsLeast }
    ensures found { CharacterHasCode }
{}

/// Units show what each of them shows, one after another.
#[tactic(auto, using(crate::proofs::ShownLemmas::shown_in_parts))]
pub fn shown_in_parts()
    ensures { ShownInParts }
{}

/// The alphabets of the Standard (sections 3.5.3 and 3.5.5.1).
#[tactic(auto, using(crate::proofs::guards::Standard::of_alphabets_are_standard))]
pub fn alphabets_are_standard()
    ensures small { A0IsSmall }
    ensures capital { A1IsCapital }
    ensures digits { A2HasDigits }
    ensures new_line { A2HasNewLine }
{}

/// Under the table of the Standard each character has one code.
#[tactic(auto, using(crate::proofs::guards::Standard::extra_characters))]
pub fn standard_codes_differ()
    ensures ascii { ExtraIsBeyondAscii }
    ensures differ { CodesDiffer }
{}

/// Codes in lower case: each capital, and only a capital, becomes its small letter, by Unicode's
/// numbers. Under a story's own table A to Z alone change.
#[tactic(auto, using(crate::proofs::guards::LowerLaws::of_lower_is_of_capitals))]
pub fn lower_is_of_capitals()
    ensures above { SmallIsAbove }
    ensures all { CapitalHasSmall }
    ensures small { LowerIsSmall }
    ensures others { OthersStay }
    ensures own { OwnLowersAscii }
    ensures a1 { LowerOfA1 }
    ensures twice { LowerTwice }
{}

/// The place of a letter is the first Z-character that stands for it: of 6 to 31 in A0 and A1, of 7
/// to 31 in A2.
#[tactic(auto, using(crate::proofs::guards::Places::place_is_first, crate::proofs::guards::Places::a2_place_is_first))]
pub fn places_are_first()
    ensures place { PlaceIsFirst }
    ensures a2 { A2PlaceIsFirst }
{}

/// What is spelled for a key, read as a text, means the letters of the word.
#[tactic(auto, using(crate::proofs::guards::SpellLaws::of_keys_mean_their_words))]
pub fn keys_mean_their_words()
    ensures spelled { SpellingsMean }
    ensures key { KeyMeans }
    ensures space { SpaceIsZero }
    ensures new_line { NewLineIsSeven }
    ensures others { SpellingByCases }
{}

/// A key is itself a text, of its Z-characters: where nothing is cut off it means the word.
#[tactic(auto, using(crate::proofs::guards::KeyText::key_is_text, crate::proofs::guards::KeyText::key_reads))]
pub fn keys_are_texts()
    ensures text { KeyIsText }
    ensures reads { KeyReads }
{}
