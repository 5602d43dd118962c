// The parts of a saved game.

ghost use Rattle.std.specs.Prelude.{◌≡◌, ◌≤◌, ◌&&◌, ◌||◌, List, ◌∷◌, length, take, codes, Ok, Err, IfSome, MatchResult};
ghost use Rattle.std.specs.Prelude.{option_map};
ghost use Rattle.std.specs.Str.{bytes_eq};
ghost use Rattle.zk_save.specs.Quetzal.{Chunk};
ghost use Rattle.zk_save.specs.Reading.{bytes_behind, chunks_in};
ghost use Rattle.zk_save.specs.Loading.{or_refuse, loaded_by, form_in, parts_of};
ghost use Rattle.zk_save.specs.Counted.{chunk_cut, noted, none_noted, found_seen, parts_cut};
ghost use Rattle.zk_save.specs.declared.restore.RestoreError.TheVariants.{Truncated};

use crate::reading::{ChunkView, chunk_at_front, number};
use crate::restore::RestoreError;

/// Whether a file says that it is a saved game.
fn says_saved_game(file: &[u8]) -> bool
    requires { 12 ≤ length file.now }
    ensures { result ≡ (bytes_eq (take 4 file.now) (codes "FORM") && bytes_eq
        (bytes_behind 8 4 file.now) (codes "IFZS")) }
{
    let form = &file[..4] == b"FORM".as_slice();
    let kind = &file[8..12] == b"IFZS".as_slice();
    form && kind
}

/// The bytes of the chunks in a saved game's form (Quetzal 1.4, sections 2 and 8).
pub(crate) fn form(file: &[u8]) -> Result<&[u8], RestoreError>
    ensures { MatchResult result (λ form. form_in file.now ≡ Ok form.now)
        (λ e. form_in file.now ≡ Err e) }
{
    if file.len() < 12 {
        return Err(RestoreError::Truncated);
    }
    if !says_saved_game(file) {
        return Err(RestoreError::NotQuetzal);
    }
    let size = number(&file[4..8]) as usize;
    if size < 4 || file.len() < 8 + size {
        return Err(RestoreError::Truncated);
    }
    Ok(&file[12..8 + size])
}

/// What was found of the parts: the content of the first `IFhd`, the first chunk of memory, and the content
/// of the first `Stks`.
#[derive(Clone, Copy, Drop)]
pub(crate) struct Found<'a> {
    pub story: Option<&'a [u8]>,
    pub memory: Option<ChunkView<'a>>,
    pub stack: Option<&'a [u8]>,
}

/// Whether a chunk of a name has memory, packed or as it is (Quetzal 1.4, section 3).
fn is_memory(name: &[u8]) -> bool
    ensures { result ≡ (bytes_eq name.now (codes "CMem") || bytes_eq name.now (codes "UMem")) }
{
    let packed = name == b"CMem".as_slice();
    let plain = name == b"UMem".as_slice();
    packed || plain
}

/// Notes a chunk where it is the first of its kind.
fn note<'a>(found: Found<'a>, chunk: ChunkView<'a>) -> Found<'a>
    ensures { (cs : List Chunk) → noted (found_seen result) cs
        ≡ noted (found_seen found.entry) (chunk_cut chunk.entry ∷ cs) }
{
    if chunk.name == b"IFhd".as_slice() {
        return Found {
            story: found.story.or(Some(chunk.content)),
            ..found
        };
    }
    if is_memory(chunk.name) {
        return Found {
            memory: found.memory.or(Some(chunk)),
            ..found
        };
    }
    if chunk.name == b"Stks".as_slice() {
        return Found {
            stack: found.stack.or(Some(chunk.content)),
            ..found
        };
    }
    found
}

/// What is found in a form; none where a chunk passes its end.
#[tactic(auto, using(crate::proofs::Chunks::of_find))]
fn find(form: &[u8]) -> Option<Found<'_>>
    ensures { option_map found_seen result ≡ option_map (noted none_noted) (chunks_in form.now) }
{
    let mut found = Found {
        story: None,
        memory: None,
        stack: None,
    };
    let mut rest = form;
    while !rest.is_empty() {
        let Some(chunk) = chunk_at_front(rest) else {
            return None;
        };
        found = note(found, chunk);
        rest = chunk.rest;
    }
    Some(found)
}

/// The parts of a saved game: what says the story and the program counter, the chunk of memory, and the frames.
#[derive(Clone, Copy, Drop)]
pub(crate) struct Parts<'a> {
    pub story: &'a [u8],
    pub memory: ChunkView<'a>,
    pub stack: &'a [u8],
}

/// The parts in a form; none where a chunk passes its end, where a part is missing, or where the first
/// `IFhd` has fewer than 13 bytes.
pub(crate) fn parts_in(form: &[u8]) -> Option<Parts<'_>>
    ensures value { or_refuse Truncated (option_map parts_cut result)
        ≡ loaded_by (or_refuse Truncated (chunks_in form.now)) parts_of }
    ensures story { IfSome result (λ p. 13 ≤ length p.story.now) }
{
    let Some(found) = find(form) else {
        return None;
    };
    let Some(story) = found.story else {
        return None;
    };
    if story.len() < 13 {
        return None;
    }
    let Some(memory) = found.memory else {
        return None;
    };
    let Some(stack) = found.stack else {
        return None;
    };
    Some(Parts {
        story,
        memory,
        stack,
    })
}
