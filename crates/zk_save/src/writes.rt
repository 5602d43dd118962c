// Memory and frames of a saved game, put in the place of others.

ghost use Rattle.std.specs.Prelude.{◌≡◌, ◌<◌, ◌≤◌, ◌+◌, ◌/◌, ◌^◌, ℕ, List, ◌++◌, length, take, drop, reverse, is_some};
ghost use Rattle.std.specs.Prelude.{true, Some};
ghost use Rattle.zk_mem.specs.Again.{with_bytes, again};
ghost use Rattle.zk_state.specs.Frames.{Frame, frames_of, total_of, with_words, with_frames, bounds_of};
ghost use Rattle.zk_save.specs.Reading.{words_of, frames_read};
ghost use Rattle.zk_save.specs.Loading.{dynamic_in};
ghost use Rattle.zk_save.specs.Counted.{chunk_cut, frame_seen, frames_rest, FindRoom, FindPlace};

use crate::checks::first_frame;
use crate::packing::turn;
use crate::reading::{ChunkView, FrameBytes, frame_at_front};
use zk_mem::memory::Memory;
use zk_state::frames::Frames;

/// Writes bytes over dynamic memory.
fn put_bytes(memory: &mut Memory, bytes: &[u8])
    requires { length bytes.now ≡ memory.old.static_base }
    ensures { memory.new
        ≡ with_bytes memory.old (bytes.now ++ drop (length bytes.now) memory.old.bytes) }
{
    let _ = memory.dynamic();
    memory.len();
    for i in 0..bytes.len() {
        let _ = memory.set_byte(i as u32, bytes[i]);
    }
}

/// Puts the dynamic memory of a chunk in the place of memory's. Bits 0 and 1 of Flags 2 stay, and the
/// header's fields that an interpreter sets are set again (Standard, section 6.1.2).
pub(crate) fn put_memory(memory: &mut Memory, chunk: &ChunkView)
    requires { is_some (dynamic_in memory.old (chunk_cut chunk.now)) ≡ true }
    ensures { (dynamic : List ℕ) → dynamic_in memory.old (chunk_cut chunk.now) ≡ Some dynamic
        → memory.new ≡ again memory.old (dynamic ++ drop (length dynamic) memory.old.file) }
{
    let _ = memory.dynamic();
    let flags = memory.flags();
    memory.reset();
    if chunk.name == b"UMem".as_slice() {
        put_bytes(memory, chunk.content);
        memory.settle(flags);
        return;
    }
    turn(chunk.content, memory);
    memory.settle(flags);
}

/// The words that bytes spell, at the front of fifteen.
fn words_at_front(bytes: &[u8]) -> [u16; 15]
    requires { length bytes.now ≤ 30 }
    ensures { take (length bytes.now / 2) result ≡ words_of bytes.now }
{
    let mut words = [0u16; 15];
    for i in 0..bytes.len() / 2 {
        words[i] = 256 * bytes[2 * i] as u16 + bytes[2 * i + 1] as u16;
    }
    words
}

/// Pushes the words that bytes spell, for which there is room.
fn push_words(frames: &mut Frames, bytes: &[u8])
    requires { total_of frames.old + length bytes.now / 2 ≤ frames.old.most_words }
    ensures { frames.new ≡ with_words frames.old (frames.old.current.words ++ words_of bytes.now) }
{
    frames.is_bounded();
    for i in 0..bytes.len() / 2 {
        let _ = frames.push(256 * bytes[2 * i] as u16 + bytes[2 * i + 1] as u16);
    }
}

/// Puts a frame above the others, for which there is room.
fn put_frame(frames: &mut Frames, frame: &FrameBytes)
    requires locals { length frame.now.locals.now ≤ 30 }
    requires pc { frame.now.pc < 2 ^ 24 }
    requires supplied { frame.now.supplied ≤ 7 }
    requires few_frames { length (frames_of frames.old) + 1 ≤ frames.old.most_frames }
    requires few_words { total_of frames.old
        + (length frame.now.locals.now / 2 + length frame.now.words.now / 2)
        ≤ frames.old.most_words }
    ensures { frames.new ≡ record frames.old {
      current = frame_seen frame.now.locals.now
          frame.now.words.now frame.now.pc frame.now.result frame.now.supplied;
      callers = frames_of frames.old;
    } }
{
    let words = words_at_front(frame.locals);
    let locals = &words[..frame.locals.len() / 2];
    let _ = frames.call(locals, frame.pc, 0, frame.result, frame.supplied);
    push_words(frames, frame.words);
}

/// Puts the frames that bytes spell above the others, for which there is room.
fn put_rest(frames: &mut Frames, bytes: &[u8])
    requires { FindRoom (frames_rest bytes.now) frames.old }
    ensures { (fs : List Frame) → frames_rest bytes.now ≡ Some fs
        → frames.new ≡ with_frames frames.old (reverse fs ++ frames_of frames.old) }
{
    let mut rest = bytes;
    while !rest.is_empty() {
        let Some(frame) = frame_at_front(rest) else {
            return;
        };
        put_frame(frames, &frame);
        rest = frame.rest;
    }
}

/// Puts the frames of a saved game in the place of all, within the bounds.
pub(crate) fn put_stack(frames: &mut Frames, stack: &[u8])
    requires { FindPlace (frames_read stack.now) frames.old }
    ensures { (fs : List Frame) → frames_read stack.now ≡ Some fs
        → frames.new ≡ with_frames frames.old (reverse fs) }
{
    let Some(first) = first_frame(stack) else {
        return;
    };
    frames.restart();
    push_words(frames, first.words);
    put_rest(frames, first.rest);
}
