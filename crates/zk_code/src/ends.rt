// Where texts end, for whoever asks of many.

ghost use Rattle.std.specs.Prelude.{◌≡◌, ◌≤◌, ◌<◌, [], IfOk, IfSome, length};
ghost use Rattle.zk_mem.specs.Map.{MemoryMap};
ghost use Rattle.zk_mem.specs.Words.{text_end_at};
ghost use Rattle.zk_code.specs.Ends.{AreEnds, IsOfBlock, KnowsEnds};

use std::alloc::{AllocError, Global};
use zk_mem::memory::Memory;

/// The words from one address whose end is known to the next, and one more.
const MOST_WORDS: u32 = 129;

/// The ends of the texts at the first two addresses of a block of 256 bytes.
#[derive(Clone, Copy)]
pub(crate) struct BlockEnds {
    even: Option<u32>,
    odd: Option<u32>,
}

/// The end of the text at an address, where that is known.
fn known_end(blocks: &[Option<BlockEnds>], address: u32) -> Option<Option<u32>>
    ensures { (m : MemoryMap) → AreEnds m blocks.now
        → IfSome result (λ end. end ≡ text_end_at m address) }
{
    let place = address % 256;
    if place > 1 {
        return None;
    }
    match blocks.get((address / 256) as usize) {
        Some(Some(ends)) => {
            if place == 0 {
                Some(ends.even)
            } else {
                Some(ends.odd)
            }
        }
        _ => None,
    }
}

/// The address after the text at an address (see `Memory::text_end`), by what is known of blocks.
pub(crate) fn text_end(memory: &Memory, blocks: &[Option<BlockEnds>], address: u32) -> Option<u32>
    requires { AreEnds memory.now blocks.now }
    ensures value { result ≡ text_end_at memory.now address }
    ensures within { IfSome result (λ end. end ≤ length memory.now.bytes) }
{
    let mut at = address;
    for _i in 0..MOST_WORDS {
        if let Some(end) = known_end(blocks, at) {
            return end;
        }
        let Some(word) = memory.code_word(at) else {
            return None;
        };
        at += 2;
        if word >= 0x8000 {
            return Some(at);
        }
    }
    memory.text_end(at)
}

/// The ends of a block's texts, by those of the blocks after it.
fn block_ends(memory: &Memory, blocks: &[Option<BlockEnds>], block: u32) -> BlockEnds
    requires known { AreEnds memory.now blocks.now }
    requires near { block < 2049 }
    ensures { IsOfBlock memory.now block result }
{
    BlockEnds {
        even: text_end(memory, blocks, 256 * block),
        odd: text_end(memory, blocks, 256 * block + 1),
    }
}

/// Nothing is known yet of so many blocks.
fn unknown(alloc: Global, count: usize) -> Result<Vec<Option<BlockEnds>>, AllocError>
    ensures known { IfOk result (λ blocks. (m : MemoryMap) → AreEnds m blocks.items) }
    ensures size { IfOk result (λ blocks. length blocks.items ≡ count) }
{
    let blocks = vec![in alloc; None; count]?;
    Ok(blocks)
}

/// Where the texts of a story end: of the texts at the first two addresses of each 256 bytes, so that no more than 129
/// words are read for any other.
#[derive(Drop)]
pub struct TextEnds {
    pub(crate) blocks: Vec<Option<BlockEnds>>,
}

impl TextEnds {
    /// Refused for lack of memory alone.
    pub fn find(alloc: Global, memory: &Memory) -> Result<TextEnds, AllocError>
        ensures { IfOk result (KnowsEnds memory.now) }
    {
        let count = memory.len() as usize / 256 + 1;
        let mut blocks = unknown(alloc, count)?;
        for behind in 0..count {
            let block = count - 1 - behind;
            blocks[block] = Some(block_ends(memory, blocks.as_slice(), block as u32));
        }
        Ok(TextEnds { blocks })
    }

    /// The byte address after the text at an address, where it has an end: `Memory::text_end`.
    pub fn text_end(&self, memory: &Memory, address: u32) -> Option<u32>
        requires { KnowsEnds memory.now self.now }
        ensures value { result ≡ text_end_at memory.now address }
        ensures within { IfSome result (λ end. end ≤ length memory.now.bytes) }
    {
        text_end(memory, self.blocks.as_slice(), address)
    }
}
