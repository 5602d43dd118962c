// The page of a story: that of zkit, with the story in it.

ghost use Rattle.std.specs.Prelude.{◌≡◌, ◌++◌, IfOk, IfSome, OnOk};
ghost use Rattle.std.specs.List.{flat_map};
ghost use Rattle.zk_page.specs.Pages.{IsPageOf, TitlesAreText};
ghost use Rattle.zk_page.specs.Pages.{byte_text, part_start, part_text, parts_text, title_text};

use base64::engine::general_purpose::STANDARD;
use std::alloc::{AllocError, Global};

/// Where the title stands in zkit's page.
const TITLE_PLACE: &[u8] = b"<title>zkit</title>";

/// Where the parts of a story stand in zkit's page.
const PARTS_PLACE: &[u8] = b"<script type=\"text/plain\" id=\"own\"></script>";

/// Something of a story that its page has: the bytes of its file, the text of its title.
#[derive(Clone, Copy, Drop)]
pub struct Part<'a> {
    /// Letters.
    pub name: &'a str,
    pub content: &'a [u8],
}

/// Why there is no page of a story.
#[derive(Clone, Copy, PartialEq, Eq, Drop)]
pub enum PageError {
    /// The bytes are no page of zkit: a place for the title or for the story is missing.
    NoPage,
    /// There is no memory for it.
    Memory,
}

impl From<AllocError> for PageError {
    fn from(_error: AllocError) -> PageError {
        PageError::Memory
    }
}

/// The bytes before a piece, and those behind it, where it stands first.
fn split_at_piece<'a>(bytes: &'a [u8], piece: &[u8]) -> Option<(&'a [u8], &'a [u8])>
    ensures { IfSome result (λ parts. bytes.now ≡ parts.0.now ++ (piece.now ++ parts.1.now)) }
{
    for at in 0..bytes.len() {
        if let Some(after) = bytes[at..].strip_prefix(piece) {
            return Some((&bytes[..at], after));
        }
    }
    None
}

/// Adds a byte of a text to a page, or what stands for it there.
fn push_byte(page: &mut Vec<u8>, byte: u8) -> Result<(), AllocError>
    ensures { OnOk result (page.new.items ≡ page.old.items ++ byte_text byte) }
{
    match byte {
        b'&' => page.extend_from_slice(b"&amp;"),
        b'<' => page.extend_from_slice(b"&lt;"),
        b'>' => page.extend_from_slice(b"&gt;"),
        _ => page.extend_from_slice(&[byte]),
    }
}

/// Adds a text to a page.
fn push_text(page: &mut Vec<u8>, text: &str) -> Result<(), AllocError>
    ensures { OnOk result (page.new.items ≡ page.old.items ++ flat_map byte_text text.now) }
{
    for byte in text.as_bytes() {
        push_byte(page, *byte)?;
    }
    Ok(())
}

/// Adds a title to a page.
fn push_title(page: &mut Vec<u8>, title: &str) -> Result<(), AllocError>
    ensures { OnOk result (page.new.items ≡ page.old.items ++ title_text title.now) }
{
    page.extend_from_slice(b"<title>")?;
    push_text(page, title)?;
    page.extend_from_slice(b"</title>")
}

/// Adds bytes to a page, with others around them.
fn push_within(
    page: &mut Vec<u8>,
    before: &[u8],
    bytes: &[u8],
    after: &[u8],
) -> Result<(), AllocError>
    ensures { OnOk result
        (page.new.items ≡ page.old.items ++ (before.now ++ (bytes.now ++ after.now))) }
{
    page.extend_from_slice(before)?;
    page.extend_from_slice(bytes)?;
    page.extend_from_slice(after)
}

/// Adds to a page how the part of a name begins.
fn push_start(page: &mut Vec<u8>, name: &str) -> Result<(), AllocError>
    ensures { OnOk result (page.new.items ≡ page.old.items ++ part_start name.now) }
{
    push_within(
        page,
        b"<script type=\"text/plain\" id=\"own-",
        name.as_bytes(),
        b"\">",
    )
}

/// Adds a part of a story to a page.
#[tactic(auto, unfolding(crate::specs::Pages::part_text))]
fn push_part(alloc: Global, page: &mut Vec<u8>, part: Part<'_>) -> Result<(), AllocError>
    ensures { OnOk result (page.new.items ≡ page.old.items ++ part_text part.entry) }
{
    push_start(page, part.name)?;
    let content = STANDARD.encode(alloc, part.content)?;
    page.extend_from_slice(content.as_bytes())?;
    page.extend_from_slice(b"</script>")
}

/// Adds parts of a story to a page.
#[tactic(auto, using(crate::proofs::Parts::one_more))]
fn push_parts(alloc: Global, page: &mut Vec<u8>, parts: &[Part<'_>]) -> Result<(), AllocError>
    ensures { OnOk result (page.new.items ≡ page.old.items ++ parts_text parts.now) }
{
    for part in parts {
        push_part(alloc, page, *part)?;
    }
    Ok(())
}

/// The page of a story: zkit's page, with this title and these parts in their places.
pub fn page_of(
    alloc: Global,
    template: &[u8],
    title: &str,
    parts: &[Part<'_>],
) -> Result<Vec<u8>, PageError>
    ensures { IfOk result (λ page. IsPageOf template.now title.now parts.now page.items) }
{
    let Some((before, rest)) = split_at_piece(template, TITLE_PLACE) else {
        return Err(PageError::NoPage);
    };
    let Some((between, after)) = split_at_piece(rest, PARTS_PLACE) else {
        return Err(PageError::NoPage);
    };
    let mut page = Vec::new(alloc);
    page.extend_from_slice(before)?;
    push_title(&mut page, title)?;
    page.extend_from_slice(between)?;
    push_parts(alloc, &mut page, parts)?;
    page.extend_from_slice(after)?;
    Ok(page)
}

/// Titles with bytes that HTML would read as its own.
pub fn titles_by_example()
    ensures { TitlesAreText }
{}
