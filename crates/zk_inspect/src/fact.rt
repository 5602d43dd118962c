// What is listed of a story, fact by fact.

ghost use Rattle.std.specs.Prelude.{◌≡◌, [], false, length, nat_le, IfOk};
ghost use Rattle.zk_inspect.specs.Facts.{field_name, part_name};

use crate::check::finding::Finding;
use crate::section::Section;
use std::alloc::{AllocError, Global};
use zk_mem::fault::Fault;
use zk_tables::dictionary::Dictionary;
use zk_tables::lists::Property;
use zk_text::alphabet::Row as Alphabet;

/// A field of a header (Z-Machine Standards Document 1.1, section 11.1), or what is said beside it of the file.
#[derive(Clone, Copy, Drop)]
pub enum Field {
    Version,
    Release,
    Serial,
    /// The length that the header states.
    Length,
    /// The length of the file.
    File,
    /// The checksum, and whether it is right.
    Checksum,
    Start,
    High,
    Static,
    Dictionary,
    Objects,
    Globals,
    Abbreviations,
    Flags1,
    Flags2,
    Alphabet,
    Extension,
}

impl Field {
    /// The name of the field, as its line has it.
    pub fn name(self) -> &'static str
        ensures { result.now ≡ field_name self }
    {
        match self {
            Field::Version => "version",
            Field::Release => "release",
            Field::Serial => "serial",
            Field::Length => "length",
            Field::File => "file",
            Field::Checksum => "checksum",
            Field::Start => "start",
            Field::High => "high",
            Field::Static => "static",
            Field::Dictionary => "dictionary",
            Field::Objects => "objects",
            Field::Globals => "globals",
            Field::Abbreviations => "abbreviations",
            Field::Flags1 => "flags1",
            Field::Flags2 => "flags2",
            Field::Alphabet => "alphabet",
            Field::Extension => "extension",
        }
    }
}

/// A part of a story.
#[derive(Clone, Copy, Default, Drop)]
pub enum Part {
    #[default]
    Header,
    Abbreviations,
    Globals,
    Objects,
    Dictionary,
    Static,
    High,
    Start,
}

impl Part {
    /// The name of the part, as its line has it.
    pub fn name(self) -> &'static str
        ensures { result.now ≡ part_name self }
    {
        match self {
            Part::Header => "header",
            Part::Abbreviations => "abbreviations",
            Part::Globals => "globals",
            Part::Objects => "objects",
            Part::Dictionary => "dictionary",
            Part::Static => "static",
            Part::High => "high",
            Part::Start => "start",
        }
    }
}

/// Where a part of a story begins: a byte address.
#[derive(Clone, Copy, Default, Drop)]
pub struct PartAddress {
    pub address: u16,
    pub part: Part,
}

/// An object as it stands in the tree.
#[derive(Clone, Copy, Drop)]
pub struct Node {
    /// How many objects stand above it.
    pub level: usize,
    pub object: u16,
    /// Whether it was listed before.
    pub again: bool,
}

/// A word of the dictionary: its index from 0 on, and the byte address of its entry.
#[derive(Clone, Copy, Drop)]
pub struct Word {
    pub index: u16,
    pub address: u32,
}

/// A fact. Numbers and addresses say what stands in the story, and the rest of what a fact says is read there.
#[derive(Clone, Copy, Drop)]
pub enum Fact {
    /// The facts of a section follow.
    Title(Section),
    Field(Field),
    Part(PartAddress),
    /// One of the 96 abbreviations, by its number.
    Abbreviation(u8),
    /// The separators of the dictionary.
    Separators(Dictionary),
    /// How many words the dictionary has, and how long an entry is.
    Entries(Dictionary),
    Word(Word),
    /// Why there is no dictionary.
    NoDictionary(Fault),
    /// An object by its number.
    Object(u16),
    Node(Node),
    /// What catalogues name the story by.
    Ifid,
    /// A text that lies in the story, by its byte address.
    Text(u32),
    /// A property of an object.
    Property(u16, Property),
    /// Why an object has no property list.
    NoProperties(u16, Fault),
    /// A global variable by its number, from 0 on.
    Global(u8),
    Alphabet(Alphabet),
    ExtraCharacters,
    /// A word of the header's extension by its number, from 1 on.
    ExtensionWord(u16),
    /// What stands at a byte address that code reaches.
    Instruction(u32),
    /// A routine by its byte address.
    Routine(u32),
    /// A routine that lies in the story, and whether it is reached.
    LyingRoutine(u32, bool),
    Finding(Finding),
}

/// Takes facts.
pub trait FactWriter {
    ghost use Rattle.std.specs.Prelude.{◌≡◌, List, Bool, true, [], ◌∷◌, ◌++◌};
    ghost use Rattle.zk_inspect.specs.declared.fact.Fact.{Fact};

    // what came of a writer that was given facts
    ghost wrote: { Self → Self → List Fact → Type 0 };

    // that nothing more is taken
    ghost ended: { Self → Bool };

    /// Takes a fact.
    fn write(&mut self, fact: Fact)
        ensures { wrote self.old self.new (fact ∷ []) };

    /// Whether nothing more is taken: then no fact need be looked for.
    fn has_ended(&self) -> bool
        ensures { result ≡ ended self.now };

    ghost nothing: { (a : Self) → wrote a a [] };

    ghost twice: { (a b c : Self) (fs gs : List Fact) → wrote a b fs → wrote b c gs
        → wrote a c (fs ++ gs) };

    ghost late: { (a : Self) (fs : List Fact) → ended a ≡ true → wrote a a fs };
}

/// Facts in a list, so many at most. It remembers whether there were more, or memory was short.
#[derive(Drop)]
pub struct FactList {
    list: Vec<Fact>,
    most: usize,
    is_short: bool,
}

impl FactList {
    /// No facts, for as many as there is memory for.
    pub fn new(alloc: Global) -> FactList
        ensures list { result.list.items ≡ [] }
        ensures short { result.is_short ≡ false }
    {
        FactList::within(alloc, usize::MAX)
    }

    /// No facts, for so many at most.
    pub fn within(alloc: Global, most: usize) -> FactList
        ensures list { result.list.items ≡ [] }
        ensures short { result.is_short ≡ false }
    {
        FactList {
            list: Vec::new(alloc),
            most,
            is_short: false,
        }
    }

    /// Whether there is no room for one more.
    pub fn is_full(&self) -> bool
        ensures { result ≡ nat_le self.now.most (length self.now.list.items) }
    {
        self.most <= self.list.len()
    }

    /// The facts, if there was room and memory for all of them.
    pub fn finish(self) -> Result<Vec<Fact>, AllocError>
        ensures { IfOk result (λ list. (self.is_short ≡ false) × (list ≡ self.list)) }
    {
        if self.is_short {
            Err(AllocError)
        } else {
            Ok(self.list)
        }
    }
}

impl FactWriter for FactList {
    ghost use Rattle.zk_inspect.specs.Facts.{Collected, collected_late, collected_none, collected_then};

    ghost wrote = { λ a b fs. Collected a.is_short b.is_short a.list.items b.list.items fs };

    ghost ended = { λ a. a.is_short };

    fn has_ended(&self) -> bool {
        self.is_short
    }

    fn write(&mut self, fact: Fact) {
        if self.is_short || self.is_full() {
            self.is_short = true;
            return;
        }
        match self.list.push(fact) {
            Ok(()) => {}
            Err(_) => self.is_short = true,
        }
    }

    ghost nothing = { λ a. collected_none a.is_short a.list.items };

    ghost twice = { λ a b c fs gs h k. collected_then _ _ _ _ _ _ fs gs h k };

    ghost late = { λ a fs is. collected_late a.is_short a.list.items fs is };
}
