// Bytes and words of a story, by their distance from an address.

ghost use Rattle.std.specs.Prelude.{◌≡◌, ◌+◌, unwrap_or};
ghost use Rattle.zk_mem.specs.Map.{cell_at, code_word_at};

use zk_mem::memory::Memory;

/// The byte that stands so many bytes after an address, or 0 where the story has ended.
pub(crate) fn byte_after(memory: &Memory, address: u32, offset: u32) -> u8
    ensures { result ≡ unwrap_or (cell_at memory.now (address + offset)) 0 }
{
    // no story has a byte at an address that 32 bits don't hold
    memory.len();
    match address.checked_add(offset) {
        Some(address) => memory.cell(address).unwrap_or(0),
        None => 0,
    }
}

/// The word that stands so many bytes after an address, or 0 where the story has ended.
pub(crate) fn word_after(memory: &Memory, address: u32, offset: u32) -> u16
    ensures { result ≡ unwrap_or (code_word_at memory.now (address + offset)) 0 }
{
    memory.len();
    match address.checked_add(offset) {
        Some(address) => memory.code_word(address).unwrap_or(0),
        None => 0,
    }
}
