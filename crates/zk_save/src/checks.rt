// What a saved game has to be before anything is changed.

ghost use Rattle.std.specs.Prelude.{◌≡◌, ◌<◌, ◌≤◌, ◌+◌, ◌*◌, ◌&&◌, length, take, is_some, option_map, IfSome};
ghost use Rattle.std.specs.Str.{bytes_eq};
ghost use Rattle.zk_save.specs.Quetzal.{bytes_2};
ghost use Rattle.zk_save.specs.Reading.{bytes_behind, frames_read};
ghost use Rattle.zk_save.specs.Unpacking.{unpacked};
ghost use Rattle.zk_save.specs.Loading.{is_checksum_of, is_of_story, dynamic_in};
ghost use Rattle.zk_save.specs.Counted.{chunk_cut, frame_cut, first_written, sizes_in, counted};

use crate::reading::{ChunkView, FrameBytes, frame_at_front, number};
use crate::save::checksum_of;
use zk_mem::header::Header;
use zk_mem::memory::Memory;

/// Whether a saved game has the release and the serial number of a header.
fn has_release(header: &Header, story: &[u8]) -> bool
    requires { 13 ≤ length story.now }
    ensures { result ≡ (bytes_eq (take 2 story.now) (bytes_2 header.now.release) && bytes_eq
        (bytes_behind 2 6 story.now) header.now.serial) }
{
    let bytes = [(header.release >> 8) as u8, (header.release & 0xff) as u8];
    let release = &story[..2] == bytes.as_slice();
    let serial = &story[2..8] == header.serial.as_slice();
    release && serial
}

/// Whether a checksum is the story's. Where the header has none, none is taken too.
fn is_checksum(memory: &Memory, checksum: u32) -> bool
    ensures { result ≡ is_checksum_of memory.now.file checksum }
{
    let same = checksum == checksum_of(memory) as u32;
    let none = memory.header().checksum == 0;
    let zero = checksum == 0;
    same || none && zero
}

/// Whether a saved game is of this story: its release, its serial number and its checksum are the story's
/// (Quetzal 1.4, section 5).
#[tactic(auto, unfolding(crate::specs::Loading::is_of_story))]
pub(crate) fn is_of_story(memory: &Memory, story: &[u8]) -> bool
    requires { 13 ≤ length story.now }
    ensures { result ≡ is_of_story memory.now.file story.now }
{
    let release = has_release(&memory.header(), story);
    let checksum = is_checksum(memory, number(&story[8..10]));
    release && checksum
}

/// Whether packed bytes give at most so many, and don't end in a lone zero (Quetzal 1.4, section 3).
fn unpacks(packed: &[u8], most: usize) -> bool
    requires { most < 65536 }
    ensures { result ≡ is_some (unpacked most packed.now) }
{
    let mut at: usize = 0;
    let mut run = false;
    for byte in packed {
        if at > most {
            return false;
        }
        if run {
            at += *byte as usize + 1;
            run = false;
            continue;
        }
        if *byte == 0 {
            run = true;
            continue;
        }
        at += 1;
    }
    !run && at <= most
}

/// Whether a chunk of memory fits the story's dynamic memory.
pub(crate) fn memory_fits(memory: &Memory, chunk: &ChunkView) -> bool
    ensures { result ≡ is_some (dynamic_in memory.now (chunk_cut chunk.now)) }
{
    let size = memory.dynamic().len();
    if chunk.name == b"UMem".as_slice() {
        return chunk.content.len() == size;
    }
    unpacks(chunk.content, size)
}

/// The first frame, whose first six bytes are zeros, since it stands outside of all routines.
pub(crate) fn first_frame(stack: &[u8]) -> Option<FrameBytes<'_>>
    ensures value { option_map frame_cut result ≡ first_written stack.now }
    ensures len { IfSome result
        (λ f. length f.locals.now + length f.words.now + length f.rest.now + 8 ≡ length stack.now) }
{
    if stack.len() < 8 {
        return None;
    }
    if &stack[..6] == [0, 0, 0, 0, 0, 0].as_slice() {
        return frame_at_front(stack);
    }
    None
}

/// How many frames there are, and how many words in them together.
#[derive(Clone, Copy, Drop)]
pub(crate) struct Sizes {
    pub frames: usize,
    pub words: usize,
}

/// How many frames there are, the first among them, and how many words in them; none where the frames are
/// bad.
pub(crate) fn count(stack: &[u8]) -> Option<Sizes>
    ensures { option_map counted result ≡ option_map sizes_in (frames_read stack.now) }
{
    let Some(first) = first_frame(stack) else {
        return None;
    };
    let mut frames = 1;
    let mut words = first.words.len() / 2;
    let mut rest = first.rest;
    while !rest.is_empty() {
        let Some(frame) = frame_at_front(rest) else {
            return None;
        };
        frames += 1;
        words += frame.locals.len() / 2 + frame.words.len() / 2;
        rest = frame.rest;
    }
    Some(Sizes { frames, words })
}
