// The names of a story's routines and of their local variables, and the places in the source that code is made of.

ghost use Rattle.std.specs.Prelude.{◌≡◌, ◌==◌, List, IfNone, IfOk, drop, length, option_map, take};
ghost use Rattle.std.specs.List.{find, starts_with};
ghost use Rattle.zk_names.specs.Documents.{Element, IsDocument, IsSomeDocument};
ghost use Rattle.zk_names.specs.Places.{address_on, is_in, is_on, last_before, locals_of, place_at, points_of};
ghost use Rattle.zk_names.specs.Places.{routine_at, routine_from, routine_named, source_of};
ghost use Rattle.zk_names.specs.Said.{Says};
ghost use Rattle.zk_names.specs.Things.{array_at, array_from, is_given, is_thing, named_of};

use crate::damage::{ReadError, Wrong, damaged};
use crate::document::elements_in;
use crate::named::{Array, Kind, Named};
use crate::routines::{Routines, routines_in};
use crate::taking::{arrays_in, named_in, prefix_in, sources_in};
use std::alloc::Global;

/// A file of the source.
#[derive(Clone, Copy, Drop)]
pub struct Source<'a> {
    /// Its number, by which places name it.
    pub index: u32,
    /// Its path as the source gives it, and as the compiler found it, where it says so.
    pub given: &'a [u8],
    pub resolved: Option<&'a [u8]>,
}

/// A place in the source.
#[derive(Clone, Copy, Drop)]
pub struct Place {
    /// The number of the file.
    pub file: u32,
    /// The line of the file, from 1.
    pub line: u32,
}

/// A sequence point: where the code of a statement begins.
#[derive(Clone, Copy, Drop)]
pub struct Point {
    /// The byte address of its first instruction.
    pub address: u32,
    pub place: Place,
}

impl Point {
    /// Whether it is on a line of a file.
    fn is_on(&self, file: u32, line: u32) -> bool
        ensures { result ≡ is_on file line self.now }
    {
        self.place.file == file && self.place.line == line
    }
}

/// A local variable of a routine.
#[derive(Clone, Copy, Drop)]
pub struct Local<'a> {
    /// Its number, from 1.
    pub number: u32,
    pub name: &'a [u8],
}

/// A routine.
#[derive(Clone, Copy, Drop)]
pub struct Routine<'a> {
    pub name: &'a [u8],
    /// The byte address of its count of local variables.
    pub address: u32,
    /// How many bytes it has.
    pub length: u32,
    /// Where it begins in the source, if it is not the compiler's own.
    pub place: Option<Place>,
    /// Where its sequence points begin among those of all routines, and how many it has.
    pub(crate) first_point: usize,
    pub(crate) points: usize,
    /// Where its local variables begin among those of all routines, and how many it has.
    pub(crate) first_local: usize,
    pub(crate) locals: usize,
}

impl Routine<'_> {
    /// Whether an address lies in it.
    pub fn has(&self, address: u32) -> bool
        ensures { result ≡ is_in self.now address }
    {
        address >= self.address && address - self.address < self.length
    }
}

/// What a debugging file says of a story.
#[derive(Drop)]
pub struct Names<'a> {
    pub sources: Vec<Source<'a>>,
    /// The routines, in the order of their addresses.
    pub routines: Vec<Routine<'a>>,
    /// The sequence points of all routines, in the order of their addresses.
    pub points: Vec<Point>,
    /// Global variables, objects, classes, properties and attributes, in the file's order.
    pub named: Vec<Named<'a>>,
    /// The arrays, in the file's order.
    pub arrays: Vec<Array<'a>>,
    locals: Vec<Local<'a>>,
    /// The first bytes of the story.
    prefix: Vec<u8>,
}

/// So many items that stand behind others, or as many as there are.
fn part<T>(items: &[T], before: usize, count: usize) -> &[T]
    ensures { result.now ≡ take count (drop before items.now) }
{
    let rest = &items[before.min(items.len())..];
    &rest[..count.min(rest.len())]
}

/// The last of sequence points at or before an address.
fn last_before(points: &[Point], address: u32) -> Option<Point>
    ensures { result ≡ last_before address points.now }
{
    for at in (0..points.len()).rev() {
        if points[at].address <= address {
            return Some(points[at]);
        }
    }
    None
}

/// The file of a number.
pub(crate) fn source_of<'a>(sources: &[Source<'a>], index: u32) -> Option<Source<'a>>
    ensures { result ≡ source_of sources.now index }
{
    sources.iter().copied().find(|source| source.index == index)
}

/// The first of sequence points on a line of a file.
fn point_on(points: &[Point], file: u32, line: u32) -> Option<Point>
    ensures { result ≡ find (is_on file line) points.now }
{
    points.iter().copied().find(|point| point.is_on(file, line))
}

/// The first of a kind and a value, of things that have a place in the source.
fn given_named<'a>(named: &[Named<'a>], kind: Kind, value: u32) -> Option<Named<'a>>
    ensures { result ≡ find (is_given kind value) named.now }
{
    named
        .iter()
        .copied()
        .find(|named| named.is_given(kind, value))
}

/// The first of a kind and a value, of things.
fn first_named<'a>(named: &[Named<'a>], kind: Kind, value: u32) -> Option<Named<'a>>
    ensures { result ≡ find (is_thing kind value) named.now }
{
    named.iter().copied().find(|named| named.is(kind, value))
}

impl<'a> Names<'a> {
    /// The names in a debugging file of Inform, in its XML form of version 1.0.
    ///
    /// Refused with `Damaged` where the file is damaged, at a place that is wrong, and with `Memory` where there
    /// is no memory for them.
    pub fn read(alloc: Global, bytes: &'a [u8]) -> Result<Names<'a>, ReadError>
        ensures document { IfOk result (λ n. IsSomeDocument bytes.now) }
        ensures prefix { IfOk result (λ n. length n.prefix.items ≡ 64) }
        ensures said { IfOk result (λ n. (elements : List Element) × IsDocument bytes.now elements × Says elements n) }
    {
        let elements = elements_in(alloc, bytes)?;
        let elements = elements.as_slice();
        let sources = sources_in(alloc, elements)?;
        let named = named_in(alloc, elements)?;
        let arrays = arrays_in(alloc, elements)?;
        let prefix = prefix_in(alloc, elements)?;
        let Routines {
            routines,
            points,
            locals,
        } = routines_in(alloc, elements)?;
        let names = Names {
            sources,
            routines,
            points,
            named,
            arrays,
            locals,
            prefix,
        };
        match names.lack() {
            Some(wrong) => Err(damaged(bytes.len(), wrong)),
            None => Ok(names),
        }
    }

    /// What they lack, if they have not the first bytes of the story, or a source file that a place is in.
    fn lack(&self) -> Option<Wrong>
        ensures { IfNone result (length self.now.prefix.items ≡ 64) }
    {
        if self.prefix.len() != 64 {
            Some(Wrong::Prefix)
        } else if self.has_all_sources() {
            None
        } else {
            Some(Wrong::Place)
        }
    }

    /// Whether a place is in a source file that is there, if it is one.
    fn is_there(&self, place: Option<Place>) -> bool {
        match place {
            Some(place) => self.source(place.file).is_some(),
            None => true,
        }
    }

    /// Whether each place is in a source file that is there.
    fn has_all_sources(&self) -> bool {
        self.routines
            .iter()
            .all(|routine| self.is_there(routine.place))
            && self
                .points
                .iter()
                .all(|point| self.is_there(Some(point.place)))
            && self.named.iter().all(|named| self.is_there(named.place))
            && self.arrays.iter().all(|array| self.is_there(array.place))
    }

    /// Whether the file is of a story that begins with these bytes.
    pub fn is_of(&self, story: &[u8]) -> bool
        ensures { result ≡ starts_with ◌==◌ story.now self.now.prefix.items }
    {
        story.starts_with(self.prefix.as_slice())
    }

    /// The routine that an address lies in.
    pub fn routine_at(&self, address: u32) -> Option<Routine<'a>>
        ensures { result ≡ routine_at self.now.routines.items address }
    {
        self.routines
            .iter()
            .copied()
            .find(|routine| routine.has(address))
    }

    /// The sequence points of a routine.
    pub fn points_of(&self, routine: &Routine<'_>) -> &[Point]
        ensures { result.now ≡ points_of self.now routine.now }
    {
        part(self.points.as_slice(), routine.first_point, routine.points)
    }

    /// The local variables of a routine.
    pub fn locals_of(&self, routine: &Routine<'_>) -> &[Local<'a>]
        ensures { result.now ≡ locals_of self.now routine.now }
    {
        part(self.locals.as_slice(), routine.first_local, routine.locals)
    }

    /// Where an address stands in the source: the last sequence point at or before it, of the routine that it lies in.
    pub fn place_at(&self, address: u32) -> Option<Place>
        ensures { result ≡ place_at self.now address }
    {
        let routine = self.routine_at(address)?;
        let point = last_before(self.points_of(&routine), address)?;
        Some(point.place)
    }

    /// The file of a number.
    pub fn source(&self, index: u32) -> Option<Source<'a>>
        ensures { result ≡ source_of self.now.sources.items index }
    {
        source_of(self.sources.as_slice(), index)
    }

    /// The routine whose byte address it is.
    pub fn routine_from(&self, address: u32) -> Option<Routine<'a>>
        ensures { result ≡ routine_from self.now.routines.items address }
    {
        self.routines
            .iter()
            .copied()
            .find(|routine| routine.address == address)
    }

    /// The first routine of a name, in the file's bytes.
    pub fn routine_named(&self, name: &[u8]) -> Option<Routine<'a>>
        ensures { result ≡ routine_named self.now.routines.items name.now }
    {
        self.routines
            .iter()
            .copied()
            .find(|routine| routine.name == name)
    }

    /// The least byte address of a statement on a line of a source file, by its number: none where no code begins.
    pub fn address_on(&self, file: u32, line: u32) -> Option<u32>
        ensures { result ≡ address_on self.now.points.items file line }
    {
        match point_on(self.points.as_slice(), file, line) {
            Some(point) => Some(point.address),
            None => None,
        }
    }

    /// What a value of a kind is called: the first that the source gives, or else the first of the compiler's own.
    pub fn named(&self, kind: Kind, value: u32) -> Option<Named<'a>>
        ensures { result ≡ named_of self.now.named.items kind value }
    {
        let named = self.named.as_slice();
        match given_named(named, kind, value) {
            Some(given) => Some(given),
            None => first_named(named, kind, value),
        }
    }

    /// The first array in which a byte address lies.
    pub fn array_at(&self, address: u32) -> Option<Array<'a>>
        ensures { result ≡ array_at self.now.arrays.items address }
    {
        self.arrays.iter().copied().find(|array| array.has(address))
    }

    /// The first array whose byte address it is.
    pub fn array_from(&self, address: u32) -> Option<Array<'a>>
        ensures { result ≡ array_from self.now.arrays.items address }
    {
        self.arrays
            .iter()
            .copied()
            .find(|array| array.address == address)
    }
}
