// Laws of the instructions of a story.

ghost use Rattle.zk_code.specs.Laws.{AtMostOne, EndsInside, FoundIsSpelled, ReasonRefuses, RefusedWithReason};
ghost use Rattle.zk_code.specs.Laws.{SameBytes, SpelledIsFound, TextIsWords, WordsAreText};
ghost use Rattle.zk_code.specs.Reach.{ReachIsLeast};

/// Reading from an address on finds the instruction that the grammar spells there, and that alone; and
/// it refuses for the reasons that the grammar gives, and for those alone.
pub fn reads_the_grammar()
    // What is read is spelled there.
    ensures found { FoundIsSpelled }
    // What is spelled there is read, so it is the only one.
    ensures only { SpelledIsFound }
    // A refusal has its reason.
    ensures refused { RefusedWithReason }
    // Where a refusal's reason is there, it is the answer.
    ensures refuses { ReasonRefuses }
{}

/// An address has at most one instruction.
pub fn at_most_one()
    ensures { AtMostOne }
{}

/// An instruction has a byte at least, and ends inside the story.
pub fn ends_inside()
    ensures { EndsInside }
{}

/// Equal bytes from an address on give equal instructions there, in stories of one version and one
/// length.
pub fn same_bytes()
    ensures { SameBytes }
{}

/// A text that the grammar spells at an address is what memory has as the words of the text there, and
/// the other way round.
pub fn texts_are_words()
    ensures read { WordsAreText }
    ensures spelled { TextIsWords }
{}

/// The addresses that are reached are the least set that has the first instruction of the story and each way on from
/// each of its instructions.
pub fn reach_is_least()
    ensures { ReachIsLeast }
{}
