// Saved games.

ghost use Rattle.std.specs.Prelude.{◌≡◌, ◌+◌, ◌*◌, ◌^◌, ◌<◌, ◌≤◌, ◌++◌, length, reverse, IfOk, OnOk};
ghost use Rattle.zk_mem.specs.Header.{header_of};
ghost use Rattle.zk_state.specs.Frames.{frames_of, total_of, IsFrame};
ghost use Rattle.zk_save.specs.Quetzal.{bytes_2, bytes_3, bytes_4, words_bytes, chunk_bytes, story_checksum};
ghost use Rattle.zk_save.specs.Quetzal.{story_content, drop_flag, variable_of, frame_bytes, first_bytes, stack_content};
ghost use Rattle.zk_save.specs.Quetzal.{memory_part, saved};

use crate::packing::pack_difference;
use std::alloc::{AllocError, Global};
use zk_mem::memory::Memory;
use zk_state::frames::{FrameView, Frames};

/// Writes a number of two bytes, high byte first.
fn put_2(out: &mut Vec<u8>, number: u16) -> Result<(), AllocError>
    ensures { OnOk result (out.new.items ≡ out.old.items ++ bytes_2 number) }
{
    out.extend_from_slice(&[(number >> 8) as u8, (number & 0xff) as u8])?;
    Ok(())
}

/// Writes a number of three bytes, high byte first.
fn put_3(out: &mut Vec<u8>, number: u32) -> Result<(), AllocError>
    requires { number < 2 ^ 24 }
    ensures { OnOk result (out.new.items ≡ out.old.items ++ bytes_3 number) }
{
    out.extend_from_slice(&[
        (number / 65536) as u8,
        (number / 256 % 256) as u8,
        (number % 256) as u8,
    ])?;
    Ok(())
}

/// Writes a number of four bytes, high byte first.
fn put_4(out: &mut Vec<u8>, number: u32) -> Result<(), AllocError>
    ensures { OnOk result (out.new.items ≡ out.old.items ++ bytes_4 number) }
{
    out.extend_from_slice(&[
        (number / 16_777_216) as u8,
        (number / 65536 % 256) as u8,
        (number / 256 % 256) as u8,
        (number % 256) as u8,
    ])?;
    Ok(())
}

/// Writes words, high byte first.
fn put_words(out: &mut Vec<u8>, words: &[u16]) -> Result<(), AllocError>
    ensures { OnOk result (out.new.items ≡ out.old.items ++ words_bytes words.now) }
{
    for word in words {
        put_2(out, *word)?;
    }
    Ok(())
}

/// Writes a chunk: its name, the length of its content, the content, and a zero where the length is odd
/// (Quetzal 1.4, section 8).
#[tactic(auto, unfolding(crate::specs::Quetzal::chunk_bytes))]
fn put_chunk(out: &mut Vec<u8>, name: &[u8], content: &[u8]) -> Result<(), AllocError>
    requires { length content.now < 2 ^ 32 }
    ensures { OnOk result (out.new.items
        ≡ out.old.items ++ chunk_bytes (record { name = name.now; content = content.now })) }
{
    out.extend_from_slice(name)?;
    put_4(out, content.len() as u32)?;
    out.extend_from_slice(content)?;
    if content.len() % 2 != 0 {
        out.push(0)?;
    }
    Ok(())
}

/// Writes how many words a frame's evaluation stack has, its local variables and these words.
fn put_stack(out: &mut Vec<u8>, frame: &FrameView) -> Result<(), AllocError>
    requires { length frame.now.words.now ≤ 65535 }
    ensures { OnOk result (out.new.items ≡ out.old.items ++ bytes_2 (length frame.now.words.now)
        ++ words_bytes frame.now.locals.now ++ words_bytes frame.now.words.now) }
{
    put_2(out, frame.words.len() as u16)?;
    put_words(out, frame.locals)?;
    put_words(out, frame.words)?;
    Ok(())
}

/// A frame's flags: the number of its local variables, and 16 where its result is dropped.
fn flags_byte(store: Option<u8>, locals: u8) -> u8
    requires { locals ≤ 15 }
    ensures { result ≡ drop_flag store + locals }
{
    match store {
        None => 16 + locals,
        Some(_) => locals,
    }
}

/// The variable that takes a frame's result, 0 where it is dropped.
fn variable_byte(store: Option<u8>) -> u8
    ensures { result ≡ variable_of store }
{
    match store {
        None => 0,
        Some(variable) => variable,
    }
}

/// Writes a frame (Quetzal 1.4, section 4).
#[tactic(auto, unfolding(crate::specs::Quetzal::frame_bytes))]
fn put_frame(out: &mut Vec<u8>, frame: &FrameView) -> Result<(), AllocError>
    requires is_frame { IsFrame (record {
      locals = frame.now.locals.now;
      words = frame.now.words.now;
      pc = frame.now.pc;
      result = frame.now.result;
      supplied = frame.now.supplied;
    }) }
    requires words { length frame.now.words.now ≤ 65535 }
    ensures { OnOk result (out.new.items ≡ out.old.items ++ frame_bytes
        (record {
          locals = frame.now.locals.now;
          words = frame.now.words.now;
          pc = frame.now.pc;
          result = frame.now.result;
          supplied = frame.now.supplied;
        })) }
{
    put_3(out, frame.pc)?;
    out.push(flags_byte(frame.result, frame.locals.len() as u8))?;
    out.push(variable_byte(frame.result))?;
    out.push((1 << frame.supplied) - 1)?;
    put_stack(out, frame)?;
    Ok(())
}

/// Writes the first frame, whose head is zeros (Quetzal 1.4, section 4).
#[tactic(auto, unfolding(crate::specs::Quetzal::first_bytes))]
fn put_first(out: &mut Vec<u8>, frame: &FrameView) -> Result<(), AllocError>
    requires { length frame.now.words.now ≤ 65535 }
    ensures { OnOk result (out.new.items ≡ out.old.items ++ first_bytes
        (record {
          locals = frame.now.locals.now;
          words = frame.now.words.now;
          pc = frame.now.pc;
          result = frame.now.result;
          supplied = frame.now.supplied;
        })) }
{
    out.extend_from_slice(&[0, 0, 0, 0, 0, 0])?;
    put_stack(out, frame)?;
    Ok(())
}

/// All frames, the first before the others.
#[tactic(auto, using(crate::proofs::Saves::of_stack_of))]
fn stack_of(alloc: Global, frames: &Frames) -> Result<Vec<u8>, AllocError>
    ensures value { IfOk result (λ v. v.items ≡ stack_content (reverse (frames_of frames.now))) }
    ensures len { IfOk result
        (λ v. length v.items ≤ 8 * frames.now.most_frames + 2 * total_of frames.now) }
    ensures few { total_of frames.now ≤ 65535 }
    ensures frames { (frames.now.most_frames ≤ 65535)
        × (total_of frames.now ≤ frames.now.most_words) }
{
    let _ = frames.words();
    let depth = frames.depth();
    let mut out = Vec::new(alloc);
    put_first(&mut out, &frames.frame(0))?;
    for number in 0..depth {
        put_frame(&mut out, &frames.frame(number + 1))?;
    }
    Ok(out)
}

/// What the story's file is known by: the checksum of its header, and where that is 0, its sum.
#[tactic(auto, unfolding(crate::specs::Quetzal::story_checksum))]
pub(crate) fn checksum_of(memory: &Memory) -> u16
    ensures { result ≡ story_checksum memory.now.file }
{
    let checksum = memory.header().checksum;
    if checksum == 0 {
        return memory.sum();
    }
    checksum
}

/// The story and the address where the run goes on (Quetzal 1.4, section 5).
#[tactic(auto, unfolding(crate::specs::Quetzal::story_content))]
fn story_of(alloc: Global, memory: &Memory, pc: u32) -> Result<Vec<u8>, AllocError>
    requires { pc < 2 ^ 24 }
    ensures value { IfOk result (λ v. v.items ≡ story_content memory.now.file pc) }
    ensures len { IfOk result (λ v. length v.items ≡ 13) }
{
    let header = memory.header();
    let mut out = Vec::new(alloc);
    put_2(&mut out, header.release)?;
    out.extend_from_slice(&header.serial)?;
    put_2(&mut out, checksum_of(memory))?;
    put_3(&mut out, pc)?;
    Ok(out)
}

/// Writes the chunk of memory: what differs from the story's file, packed, or dynamic memory as it is, where
/// that is shorter (Quetzal 1.4, section 3).
#[tactic(auto, unfolding(crate::specs::Quetzal::memory_part))]
fn put_memory(alloc: Global, out: &mut Vec<u8>, memory: &Memory) -> Result<(), AllocError>
    ensures value { OnOk result
        (out.new.items ≡ out.old.items ++ chunk_bytes (memory_part memory.now)) }
    ensures short { length (memory_part memory.now).content ≤ memory.now.static_base }
    ensures small { memory.now.static_base < 65536 }
{
    let dynamic = memory.dynamic();
    let difference = pack_difference(alloc, dynamic, memory.original())?;
    if difference.len() <= dynamic.len() {
        put_chunk(out, b"CMem", difference.as_slice())?;
        return Ok(());
    }
    put_chunk(out, b"UMem", dynamic)?;
    Ok(())
}

/// The file of a saved game (Quetzal 1.4): a form of the chunks `IFhd`, `CMem` or `UMem`, whichever is shorter,
/// and `Stks`, for a memory and frames that go on at an address. The address is that of the branch data of `save` in
/// version 3, and of its store byte from version 4 on.
pub fn save(alloc: Global, memory: &Memory, frames: &Frames, pc: u32) -> Result<Vec<u8>, AllocError>
    requires { pc < 2 ^ 24 }
    ensures value { IfOk result (λ v. v.items ≡ saved memory.now frames.now pc) }
    ensures len { IfOk result (λ v. length v.items ≤ 51 + memory.now.static_base
        + 8 * frames.now.most_frames + 2 * frames.now.most_words) }
    ensures short { OnOk result (length (memory_part memory.now).content ≤ memory.now.static_base) }
{
    let story = story_of(alloc, memory, pc)?;
    let stack = stack_of(alloc, frames)?;
    let mut chunks = Vec::new(alloc);
    chunks.extend_from_slice(b"IFZS")?;
    put_chunk(&mut chunks, b"IFhd", story.as_slice())?;
    put_memory(alloc, &mut chunks, memory)?;
    put_chunk(&mut chunks, b"Stks", stack.as_slice())?;
    let mut file = Vec::new(alloc);
    put_chunk(&mut file, b"FORM", chunks.as_slice())?;
    Ok(file)
}
