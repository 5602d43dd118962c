// What is wrong with a story.

ghost use Rattle.std.specs.Prelude.{◌≡◌};
ghost use Rattle.zk_inspect.specs.FindingLines.{finding_meaning, finding_number, finding_words};

/// What may be wrong, by the numbers that reports show.
#[derive(Clone, Copy, PartialEq, Eq, Drop)]
pub enum Number {
    /// The sum of the file's bytes is not the one that its header states.
    Checksum,
    /// The stated length lies past the file's end.
    Length,
    /// An entry of the dictionary does not come after the one before it.
    DictionaryOrder,
    /// The dictionary is none, or does not lie in readable data.
    DictionaryExtent,
    /// A link of an object names one past the last.
    ObjectLinks,
    /// The children of an object repeat one.
    ChainWithARepeat,
    /// The property list of an object does not lie in readable data.
    PropertyList,
    /// A text, or one of its abbreviations, has no end inside the story.
    TextPastTheEnd,
    /// An abbreviation uses an abbreviation.
    NestedAbbreviation,
    /// There is no instruction at an address that is reached.
    UndecodableCode,
    /// An instruction leads out of the story.
    TargetOutOfTheStory,
    /// A run may rewrite what an instruction does.
    CodeBelowTheStaticBase,
}

impl Number {
    /// The number that reports show after a `C`.
    pub fn number(self) -> u8
        ensures { result ≡ finding_number self }
    {
        match self {
            Number::Checksum => 1,
            Number::Length => 2,
            Number::DictionaryOrder => 3,
            Number::DictionaryExtent => 4,
            Number::ObjectLinks => 5,
            Number::ChainWithARepeat => 6,
            Number::PropertyList => 7,
            Number::TextPastTheEnd => 8,
            Number::NestedAbbreviation => 9,
            Number::UndecodableCode => 10,
            Number::TargetOutOfTheStory => 11,
            Number::CodeBelowTheStaticBase => 12,
        }
    }

    /// What is wrong, in words.
    pub fn words(self) -> &'static str
        ensures { result.now ≡ finding_words self }
    {
        match self {
            Number::Checksum => "checksum",
            Number::Length => "length",
            Number::DictionaryOrder => "dictionary order",
            Number::DictionaryExtent => "dictionary extent",
            Number::ObjectLinks => "object links",
            Number::ChainWithARepeat => "chain with a repeat",
            Number::PropertyList => "property list",
            Number::TextPastTheEnd => "text past the end",
            Number::NestedAbbreviation => "nested abbreviation",
            Number::UndecodableCode => "undecodable code",
            Number::TargetOutOfTheStory => "target out of the story",
            Number::CodeBelowTheStaticBase => "code below the static base",
        }
    }

    /// What a finding means, as a sentence.
    pub fn meaning(self) -> &'static str
        ensures { result.now ≡ finding_meaning self }
    {
        match self {
            Number::Checksum =>
                "the sum of the file's bytes is not the checksum that its header states",
            Number::Length => "the header states more bytes than the file has",
            Number::DictionaryOrder =>
                "the dictionary says that it is sorted, and the key of this entry is not above the one before it",
            Number::DictionaryExtent =>
                "there is no dictionary at the address that the header names, or not all of it can be read",
            Number::ObjectLinks =>
                "the parent, the sibling or the child of this object has a number past the last object",
            Number::ChainWithARepeat => "the child list of this object is circular",
            Number::PropertyList => "the properties of this object do not end in readable data",
            Number::TextPastTheEnd =>
                "this text, or one of its abbreviations, has no end in the story",
            Number::NestedAbbreviation => "an abbreviation of this text uses an abbreviation",
            Number::UndecodableCode =>
                "code leads to this address, and there is no instruction here",
            Number::TargetOutOfTheStory =>
                "this instruction branches or jumps out of the story, or calls an address with no routine",
            Number::CodeBelowTheStaticBase =>
                "this instruction has a byte below the static base, or calls an address that lies there",
        }
    }
}

/// The numbers in their order.
pub const NUMBERS: [Number; 12] = [
    Number::Checksum,
    Number::Length,
    Number::DictionaryOrder,
    Number::DictionaryExtent,
    Number::ObjectLinks,
    Number::ChainWithARepeat,
    Number::PropertyList,
    Number::TextPastTheEnd,
    Number::NestedAbbreviation,
    Number::UndecodableCode,
    Number::TargetOutOfTheStory,
    Number::CodeBelowTheStaticBase,
];

/// Something that is wrong, and where: a byte address.
#[derive(Clone, Copy, Drop)]
pub struct Finding {
    pub number: Number,
    pub address: u32,
}
