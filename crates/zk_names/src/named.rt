// What the source has names for, beside its routines.

ghost use Rattle.std.specs.Prelude.{◌≡◌};
ghost use Rattle.zk_names.specs.Things.{has_byte, is_given, is_thing};

use crate::names::Place;

/// What a name is of.
#[derive(Clone, Copy, PartialEq, Eq, Drop)]
pub enum Kind {
    /// A global variable, by the byte address of its word.
    Global,
    /// An object or a class, by its number.
    Object,
    /// A property, by its number.
    Property,
    /// An attribute, by its number.
    Attribute,
}

/// A name that the source has for something.
#[derive(Clone, Copy, Drop)]
pub struct Named<'a> {
    pub kind: Kind,
    pub name: &'a [u8],
    /// The number or the address that it stands for.
    pub value: u32,
    /// Where the source gives it; the compiler's own names have no place.
    pub place: Option<Place>,
}

impl Named<'_> {
    /// Whether it is of a kind, and stands for a value.
    pub fn is(&self, kind: Kind, value: u32) -> bool
        ensures { result ≡ is_thing kind value self.now }
    {
        self.kind == kind && self.value == value
    }

    /// Whether it is of a kind, stands for a value and has a place in the source.
    pub(crate) fn is_given(&self, kind: Kind, value: u32) -> bool
        ensures { result ≡ is_given kind value self.now }
    {
        self.is(kind, value) && self.place.is_some()
    }
}

/// An array.
#[derive(Clone, Copy, Drop)]
pub struct Array<'a> {
    pub name: &'a [u8],
    /// Its byte address.
    pub address: u32,
    /// How many bytes it has.
    pub length: u32,
    /// How many bytes an element has: 1 or 2.
    pub element: u32,
    pub place: Option<Place>,
}

impl Array<'_> {
    /// Whether a byte address lies in it.
    pub fn has(&self, address: u32) -> bool
        ensures { result ≡ has_byte self.now address }
    {
        address >= self.address && address - self.address < self.length
    }
}
