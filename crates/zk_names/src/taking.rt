// What the elements of a debugging file say.

ghost use Rattle.std.specs.Prelude.{◌≡◌, Some, codes, is_some, map, IfOk, IfSome};
ghost use Rattle.std.specs.Str.{bytes_eq};
ghost use Rattle.base64.specs.Engines.{standard};
ghost use Rattle.base64.specs.GeneralPurpose.{decode_of};
ghost use Rattle.zk_names.specs.Documents.{element_of};
ghost use Rattle.zk_names.specs.Nodes.{as_node, is_child, nodes};
ghost use Rattle.zk_names.specs.Said.{IsPlace, IsSourceTag, SayEach, SaysArray, SaysPlace, SaysPrefix};
ghost use Rattle.zk_names.specs.Said.{SaysSource, SaysThing, kind_of, thing_kind, value_name};

use crate::damage::{ReadError, Wrong, damaged, put};
use crate::document::{Element, name_of};
use crate::named::{Array, Kind, Named};
use crate::names::{Place, Source, source_of};
use crate::section::{Section, section_at};
use crate::text::number_in;
use base64::DecodeAllocError;
use base64::engine::general_purpose::STANDARD;
use std::alloc::Global;

/// The place in the source that an element is.
fn location_in(section: &Section<'_, '_>) -> Option<Place>
    ensures { IfSome result (IsPlace (as_node section.now)) }
{
    let Some(file) = section.number(b"file-index") else {
        return None;
    };
    let Some(line) = section.number(b"line") else {
        return None;
    };
    Some(Place { file, line })
}

/// The place in the source that an element has, if it has one.
pub(crate) fn place_in(section: &Section<'_, '_>) -> Result<Option<Place>, ReadError>
    ensures { IfOk result (SaysPlace (as_node section.now)) }
{
    match section.child(b"source-code-location") {
        Some(location) => match location_in(&location) {
            Some(place) => Ok(Some(place)),
            None => Err(damaged(location.element.at, Wrong::Place)),
        },
        None => Ok(None),
    }
}

/// The number in the attribute of a tag that has one alone.
fn index_in(tag: &[u8]) -> Option<u32>
    ensures { IfSome result (IsSourceTag tag.now) }
{
    let Some(value) = tag.strip_prefix(b"source index=\"") else {
        return None;
    };
    match value.strip_suffix(b"\"") {
        Some(digits) => number_in(digits),
        None => None,
    }
}

/// The file of the source that an element is.
fn source_in<'a>(section: &Section<'_, 'a>) -> Option<Source<'a>>
    ensures { IfSome result (SaysSource (as_node section.now)) }
{
    let Some(index) = index_in(section.element.tag) else {
        return None;
    };
    let Some(given) = section.text(b"given-path") else {
        return None;
    };
    let resolved = section.text(b"resolved-path");
    Some(Source {
        index,
        given,
        resolved,
    })
}

/// The files of the source, each of a number of its own.
pub(crate) fn sources_in<'a>(
    alloc: Global,
    elements: &[Element<'a>],
) -> Result<Vec<Source<'a>>, ReadError>
    ensures { IfOk result (λ v. SayEach SaysSource
        (nodes (is_child 0 (codes "source")) (map element_of elements.now)) v.items) }
{
    let mut sources = Vec::new(alloc);
    for at in 0..elements.len() {
        if elements[at].is_child(0, b"source") {
            let section = section_at(elements, at);
            let Some(source) = source_in(&section) else {
                return Err(damaged(elements[at].at, Wrong::Source));
            };
            if source_of(sources.as_slice(), source.index).is_some() {
                return Err(damaged(elements[at].at, Wrong::Source));
            }
            put(&mut sources, source)?;
        }
    }
    Ok(sources)
}

/// Whether bytes are those of a text.
fn is_text(bytes: &[u8], text: &[u8]) -> bool
    ensures { result ≡ bytes_eq bytes.now text.now }
{
    bytes == text
}

/// The kind of thing that an element of a name is.
fn kind_of(name: &[u8]) -> Option<Kind>
    ensures { result ≡ kind_of name.now }
{
    if is_text(name, b"global-variable") {
        Some(Kind::Global)
    } else if is_text(name, b"object") {
        Some(Kind::Object)
    } else if is_text(name, b"class") {
        Some(Kind::Object)
    } else if is_text(name, b"property") {
        Some(Kind::Property)
    } else if is_text(name, b"attribute") {
        Some(Kind::Attribute)
    } else {
        None
    }
}

impl Element<'_> {
    /// The kind of thing that it is, directly in the outermost element.
    fn thing_kind(&self) -> Option<Kind>
        ensures { result ≡ thing_kind (element_of self.now) }
    {
        if self.depth == 1 {
            kind_of(name_of(self.tag))
        } else {
            None
        }
    }
}

/// The name of the element that has what a thing of a kind stands for.
fn value_name(kind: Kind) -> &'static [u8]
    ensures { result.now ≡ value_name kind }
{
    match kind {
        Kind::Global => b"address",
        _ => b"value",
    }
}

/// The thing of a kind that an element is.
fn thing_in<'a>(kind: Kind, section: &Section<'_, 'a>) -> Result<Named<'a>, ReadError>
    requires { thing_kind (element_of section.now.element) ≡ Some kind }
    ensures { IfOk result (SaysThing (as_node section.now)) }
{
    let Some(name) = section.text(b"identifier") else {
        return Err(damaged(section.element.at, Wrong::Named));
    };
    let Some(value) = section.number(value_name(kind)) else {
        return Err(damaged(section.element.at, Wrong::Named));
    };
    let place = place_in(section)?;
    Ok(Named {
        kind,
        name,
        value,
        place,
    })
}

/// The things that have names, beside routines and arrays.
pub(crate) fn named_in<'a>(
    alloc: Global,
    elements: &[Element<'a>],
) -> Result<Vec<Named<'a>>, ReadError>
    ensures { IfOk result (λ v. SayEach SaysThing
        (nodes (λ e. is_some (thing_kind e)) (map element_of elements.now)) v.items) }
{
    let mut named = Vec::new(alloc);
    for at in 0..elements.len() {
        if let Some(kind) = elements[at].thing_kind() {
            let section = section_at(elements, at);
            put(&mut named, thing_in(kind, &section)?)?;
        }
    }
    Ok(named)
}

/// The array that an element is.
fn array_in<'a>(section: &Section<'_, 'a>) -> Result<Array<'a>, ReadError>
    ensures { IfOk result (SaysArray (as_node section.now)) }
{
    let wrong = damaged(section.element.at, Wrong::Array);
    let Some(name) = section.text(b"identifier") else {
        return Err(wrong);
    };
    let Some(address) = section.number(b"value") else {
        return Err(wrong);
    };
    let Some(length) = section.number(b"byte-count") else {
        return Err(wrong);
    };
    let Some(element) = section.number(b"bytes-per-element") else {
        return Err(wrong);
    };
    if element != 1 && element != 2 {
        return Err(wrong);
    }
    let place = place_in(section)?;
    Ok(Array {
        name,
        address,
        length,
        element,
        place,
    })
}

/// The arrays.
pub(crate) fn arrays_in<'a>(
    alloc: Global,
    elements: &[Element<'a>],
) -> Result<Vec<Array<'a>>, ReadError>
    ensures { IfOk result (λ v. SayEach SaysArray
        (nodes (is_child 0 (codes "array")) (map element_of elements.now)) v.items) }
{
    let mut arrays = Vec::new(alloc);
    for at in 0..elements.len() {
        if elements[at].is_child(0, b"array") {
            let section = section_at(elements, at);
            put(&mut arrays, array_in(&section)?)?;
        }
    }
    Ok(arrays)
}

/// The bytes that the text of an element is in base 64.
fn decoded(alloc: Global, element: Element<'_>) -> Result<Vec<u8>, ReadError>
    ensures { IfOk result (λ v. decode_of standard element.entry.text.now ≡ Ok v.items) }
{
    match STANDARD.decode(alloc, element.text) {
        Ok(prefix) => Ok(prefix),
        Err(DecodeAllocError::OutOfMemory) => Err(ReadError::Memory),
        Err(_) => Err(damaged(element.at, Wrong::Prefix)),
    }
}

/// The first bytes of the story.
pub(crate) fn prefix_in(alloc: Global, elements: &[Element<'_>]) -> Result<Vec<u8>, ReadError>
    ensures { IfOk result (λ v. SaysPrefix (map element_of elements.now) v.items) }
{
    for at in 0..elements.len() {
        if elements[at].is_child(0, b"story-file-prefix") {
            let section = section_at(elements, at);
            return decoded(alloc, section.element);
        }
    }
    Err(damaged(0, Wrong::Prefix))
}
