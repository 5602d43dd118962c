// The elements of an XML document, as Inform writes it.

ghost use Rattle.std.specs.Prelude.{◌≡◌, ◌≤◌, ◌==◌, ◌++◌, ◌∷◌, [], codes, false, length, map, true, IfOk, IfSome, OnOk};
ghost use Rattle.std.specs.List.{starts_with};
ghost use Rattle.zk_names.specs.Documents.{Begins, IsDocument, IsPiece, Reads, ReadsAll, element_of, is_blank};
ghost use Rattle.zk_names.specs.Documents.{length_before, name_of, nothing, pieces, progress_of};

use crate::damage::{ReadError, Wrong, damaged, put};
use crate::text::{has_known_entities, no_text_at};
use std::alloc::Global;

/// What a document begins with, up to the tag of its outermost element.
const DECLARATION: &[u8] = b"<?xml version=\"1.0\" encoding=\"UTF-8\"?><";

/// The tag of the outermost element, before the compiler's version.
const OUTERMOST: &[u8] =
    b"inform-story-file version=\"1.0\" content-creator=\"Inform\" content-creator-version=\"";

/// An element of a document.
#[derive(Clone, Copy, Drop)]
pub(crate) struct Element<'a> {
    /// The byte of the file at which its tag begins.
    pub at: usize,
    /// How many elements it lies in.
    pub depth: usize,
    /// Its name, and the attributes behind it.
    pub tag: &'a [u8],
    /// The text behind its tag, up to the next one.
    pub text: &'a [u8],
}

/// How many bytes stand before the first of a kind, or how many there are.
fn length_before(stop: u8, bytes: &[u8]) -> usize
    ensures value { result ≡ length_before stop bytes.now }
    ensures within { result ≤ length bytes.now }
{
    for at in 0..bytes.len() {
        if bytes[at] == stop {
            return at;
        }
    }
    bytes.len()
}

/// The name that a tag begins with.
pub(crate) fn name_of(tag: &[u8]) -> &[u8]
    ensures { result.now ≡ name_of tag.now }
{
    &tag[..length_before(b' ', tag)]
}

/// Whether a text has spaces and line ends alone.
fn is_blank(text: &[u8]) -> bool
    ensures { result ≡ is_blank text.now }
{
    text.iter().all(|byte| byte.is_ascii_whitespace())
}

/// Whether bytes are a name: letters, digits and hyphens behind a letter.
fn is_name(name: &[u8]) -> bool {
    match name.first() {
        Some(first) => {
            first.is_ascii_alphabetic()
                && name
                    .iter()
                    .all(|byte| byte.is_ascii_alphanumeric() || *byte == b'-')
        }
        None => false,
    }
}

/// Whether bytes are the value of an attribute up to its end: letters, digits and full stops, and a quotation mark.
fn is_value(value: &[u8]) -> bool {
    match value.strip_suffix(b"\"") {
        Some(text) => text
            .iter()
            .all(|byte| byte.is_ascii_alphanumeric() || *byte == b'.'),
        None => false,
    }
}

/// Whether a tag is one that Inform begins an element with: a name, and behind it at most one attribute.
fn is_tag(tag: &[u8]) -> bool {
    if let Some(version) = tag.strip_prefix(OUTERMOST) {
        return is_value(version);
    }
    let name = name_of(tag);
    let Some(attribute) = tag.get(name.len()..).unwrap_or(&[]).strip_prefix(b" ") else {
        return is_name(name);
    };
    let key = length_before(b'=', attribute);
    let value = attribute.get(key..).unwrap_or(&[]);
    let value = value.strip_prefix(b"=\"").unwrap_or(&[]);
    is_name(name) && is_name(&attribute[..key]) && is_value(value)
}

/// A tag and the text behind it.
#[derive(Clone, Copy, Drop)]
struct Piece<'a> {
    tag: &'a [u8],
    text: &'a [u8],
}

/// The tag and the text of what stands between one `<` and the next one.
fn cut_tag(piece: &[u8]) -> Option<Piece<'_>>
    ensures { IfSome result (λ p. IsPiece piece.now p.tag.now p.text.now) }
{
    let end = length_before(b'>', piece);
    if end == piece.len() {
        return None;
    }
    Some(Piece {
        tag: &piece[..end],
        text: &piece[end + 1..],
    })
}

/// What was read so far.
#[derive(Drop)]
struct Reading<'a> {
    /// The names of the elements that are open, the outermost first.
    names: Vec<&'a [u8]>,
    elements: Vec<Element<'a>>,
}

impl<'a> Reading<'a> {
    /// Takes the tag that an element begins with.
    fn begin(&mut self, at: usize, piece: Piece<'a>) -> Result<(), ReadError>
        requires { starts_with ◌==◌ piece.tag.now (codes "/") ≡ false }
        ensures { OnOk result
            (Begins (progress_of self.old) piece.entry.tag.now piece.entry.text.now (progress_of self.new)) }
    {
        let Piece { tag, text } = piece;
        let depth = self.names.len();
        if depth == 0 && !(self.elements.is_empty() && tag.starts_with(OUTERMOST)) {
            return Err(damaged(at, Wrong::Outermost));
        }
        if !is_tag(tag) {
            return Err(damaged(at, Wrong::Tag));
        }
        if !has_known_entities(text) {
            return Err(damaged(at, Wrong::Entity));
        }
        let element = Element {
            at,
            depth,
            tag,
            text,
        };
        put(&mut self.names, name_of(tag))?;
        put(&mut self.elements, element)
    }

    /// Takes the tag that an element ends with.
    fn end(&mut self, at: usize, name: &[u8], text: &[u8]) -> Result<(), ReadError>
        ensures names { OnOk result ((progress_of self.old).names
            ≡ (progress_of self.new).names ++ (name.now ∷ [])) }
        ensures elements { OnOk result (self.new.elements ≡ self.old.elements) }
        ensures blank { OnOk result (is_blank text.now ≡ true) }
    {
        match self.names.pop() {
            Some(open) if open == name => {}
            _ => return Err(damaged(at, Wrong::End)),
        }
        if !is_blank(text) {
            return Err(damaged(at, Wrong::StrayText));
        }
        Ok(())
    }

    /// Takes what stands between one `<` and the next one.
    fn take(&mut self, at: usize, piece: &'a [u8]) -> Result<(), ReadError>
        ensures { OnOk result (Reads (progress_of self.old) piece.now (progress_of self.new)) }
    {
        let Some(piece) = cut_tag(piece) else {
            return Err(damaged(at, Wrong::Tag));
        };
        if piece.tag.starts_with(b"/") {
            self.end(at, &piece.tag[1..], piece.text)
        } else {
            self.begin(at, piece)
        }
    }
}

/// Reads pieces, one after another, each of which stands behind a `<`.
fn read_pieces(alloc: Global, body: &[u8]) -> Result<Reading<'_>, ReadError>
    ensures { IfOk result (λ r. ReadsAll nothing (pieces body.now) (progress_of r)) }
{
    let mut reading = Reading {
        names: Vec::new(alloc),
        elements: Vec::new(alloc),
    };
    let mut at = DECLARATION.len() - 1;
    let mut rest = body;
    let mut end = length_before(b'<', rest);
    while end < rest.len() {
        reading.take(at, &rest[..end])?;
        at = at.saturating_add(end).saturating_add(1);
        rest = &rest[end + 1..];
        end = length_before(b'<', rest);
    }
    reading.take(at, rest)?;
    Ok(reading)
}

/// The elements of a document, each before those in it.
pub(crate) fn elements_in(alloc: Global, bytes: &[u8]) -> Result<Vec<Element<'_>>, ReadError>
    ensures { IfOk result (λ v. IsDocument bytes.now (map element_of v.items)) }
{
    if let Some(at) = no_text_at(bytes) {
        return Err(damaged(at, Wrong::NoText));
    }
    let Some(body) = bytes.strip_prefix(DECLARATION) else {
        return Err(damaged(0, Wrong::Declaration));
    };
    let reading = read_pieces(alloc, body)?;
    if reading.names.is_empty() {
        Ok(reading.elements)
    } else {
        Err(damaged(bytes.len(), Wrong::Unclosed))
    }
}
