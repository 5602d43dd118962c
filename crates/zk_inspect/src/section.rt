// The sections in which the tables of a story are listed.

ghost use Rattle.std.specs.Prelude.{◌≡◌};
ghost use Rattle.zk_inspect.specs.Sections.{section_help, section_name};

/// A section.
#[derive(Clone, Copy, PartialEq, Eq, Drop)]
pub enum Section {
    Header,
    Map,
    Abbreviations,
    Dictionary,
    Objects,
    Tree,
    Ifid,
    /// The texts that lie in the story.
    Strings,
    Properties,
    Globals,
    Alphabets,
    Extension,
}

/// The sections in the order in which they are shown.
pub const SECTIONS: [Section; 12] = [
    Section::Header,
    Section::Map,
    Section::Abbreviations,
    Section::Dictionary,
    Section::Objects,
    Section::Tree,
    Section::Ifid,
    Section::Strings,
    Section::Properties,
    Section::Globals,
    Section::Alphabets,
    Section::Extension,
];

impl Section {
    /// The name of the section, as its title and its option have it.
    pub fn name(self) -> &'static str
        ensures { result.now ≡ section_name self }
    {
        match self {
            Section::Header => "header",
            Section::Map => "map",
            Section::Abbreviations => "abbreviations",
            Section::Dictionary => "dictionary",
            Section::Objects => "objects",
            Section::Tree => "tree",
            Section::Ifid => "ifid",
            Section::Strings => "strings",
            Section::Properties => "properties",
            Section::Globals => "globals",
            Section::Alphabets => "alphabets",
            Section::Extension => "extension",
        }
    }

    /// What the section has, as help says it.
    pub fn help(self) -> &'static str
        ensures { result.now ≡ section_help self }
    {
        match self {
            Section::Header => "Lists the header",
            Section::Map => "Lists where the parts of the story begin",
            Section::Abbreviations => "Lists the abbreviations",
            Section::Dictionary => "Lists the words of the dictionary",
            Section::Objects => "Lists the objects with their properties",
            Section::Tree => "Lists the tree of objects",
            Section::Ifid => "Lists the IFID, by which catalogues name the story",
            Section::Strings => "Lists the strings in high memory",
            Section::Properties => "Lists the properties of the objects with their bytes",
            Section::Globals => "Lists the global variables with their first values",
            Section::Alphabets => "Lists the letters of the alphabets, and the extra characters",
            Section::Extension => "Lists the header extension table",
        }
    }
}
