// What is wrong with a debugging file.

ghost use Rattle.std.specs.Prelude.{◌≡◌, ◌++◌, ◌∷◌, [], OnOk};

use std::alloc::AllocError;

/// What is wrong at a place of a debugging file.
#[derive(Clone, Copy, PartialEq, Eq, Drop)]
pub enum Wrong {
    /// It does not begin as XML does.
    Declaration,
    /// A byte that is no UTF-8, or a control character.
    NoText,
    /// A `<` without a `>` before the next one, or a tag of another form than Inform writes.
    Tag,
    /// A text beside elements.
    StrayText,
    /// An entity that is none of XML's five.
    Entity,
    /// The end of an element that is not the innermost open one.
    End,
    /// The outermost element is not that of a debugging file of version 1.0, or there is another one.
    Outermost,
    /// An element is open at the end of the file.
    Unclosed,
    /// A source file without an index of its own, or without a path.
    Source,
    /// A place without a line, or in a source file that is not there.
    Place,
    /// A routine without a name, an address or a length.
    Routine,
    /// A local variable without a name or a number.
    Local,
    /// A sequence point without an address or a place in the source.
    Point,
    /// A global variable, an object, a class, a property or an attribute without a name or a number.
    Named,
    /// An array without a name, an address or a length, or whose elements have not 1 or 2 bytes.
    Array,
    /// A routine or a sequence point that stands where another one does, or before it.
    Order,
    /// The story's first bytes are missing, or are no 64 bytes.
    Prefix,
}

impl Wrong {
    /// What is wrong, in words.
    pub fn text(self) -> &'static str {
        match self {
            Wrong::Declaration => "it does not begin with Inform's XML declaration",
            Wrong::NoText => "it is not text (UTF-8)",
            Wrong::Tag => "a tag is not one that Inform writes",
            Wrong::StrayText => "text stands beside elements",
            Wrong::Entity => "an entity is unknown",
            Wrong::End => "an end tag does not fit",
            Wrong::Outermost => "it is not an Inform debugging file of version 1.0",
            Wrong::Unclosed => "an element is not closed",
            Wrong::Source => "a source file has no index of its own or no path",
            Wrong::Place => "a place in the source has no line or no source file",
            Wrong::Routine => "a routine has no name, no address or no length",
            Wrong::Local => "a local variable has no name or no number",
            Wrong::Point => "a sequence point has no address or no place in the source",
            Wrong::Named =>
                "a variable, an object, a property or an attribute has no name or no number",
            Wrong::Array =>
                "an array has no name, no address, no length or no size of its elements",
            Wrong::Order => "addresses do not ascend",
            Wrong::Prefix => "the first bytes of the story are missing",
        }
    }
}

/// Why a debugging file is not taken.
#[derive(Clone, Copy, PartialEq, Eq, Drop)]
pub enum ReadError {
    /// Something is wrong with what begins at a byte of the file, from 0.
    Damaged { at: usize, wrong: Wrong },
    /// There is no memory for it.
    Memory,
}

impl From<AllocError> for ReadError {
    fn from(_error: AllocError) -> ReadError {
        ReadError::Memory
    }
}

/// Puts an item behind others.
pub(crate) fn put<T: Drop>(list: &mut Vec<T>, item: T) -> Result<(), ReadError>
    ensures { OnOk result (list.new.items ≡ list.old.items ++ (item ∷ [])) }
{
    match list.push(item) {
        Ok(()) => Ok(()),
        Err(_) => Err(ReadError::Memory),
    }
}

/// The error of what is wrong with what begins at a byte of the file.
pub(crate) fn damaged(at: usize, wrong: Wrong) -> ReadError {
    ReadError::Damaged { at, wrong }
}
