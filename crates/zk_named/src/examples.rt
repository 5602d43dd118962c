// Worked examples of the definitions, which refuse one that is turned together with its body.

ghost use Rattle.zk_named.specs.guards.Examples.{LinesCountFromOne, OperandsHaveKinds, OthersAreNumbers};
ghost use Rattle.zk_named.specs.guards.Examples.{OwnNamesAreWords, VariablesAreNamed, WordsHaveNoSpaces};

/// Operands, names and lines.
pub fn names_by_example()
    ensures operands_have_kinds { OperandsHaveKinds }
    ensures others_are_numbers { OthersAreNumbers }
    ensures variables_are_named { VariablesAreNamed }
    ensures lines_count_from_one { LinesCountFromOne }
    ensures words_have_no_spaces { WordsHaveNoSpaces }
    ensures own_names_are_words { OwnNamesAreWords }
{}
