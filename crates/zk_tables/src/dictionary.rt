// Dictionaries.

ghost use Rattle.std.specs.Prelude.{◌≡◌, ◌≤◌, ◌<◌, ◌+◌, ◌*◌, IfOk, true, length, get_or, ℕ};
ghost use Rattle.zk_mem.specs.Map.{readable_end};
ghost use Rattle.zk_tables.specs.Dictionaries.{key_length, dictionary_byte, dictionary_word, dictionary_by};
ghost use Rattle.zk_tables.specs.Dictionaries.{dictionary_at, IsDictionaryOf, begins_with, is_above, do_not_fall};
ghost use Rattle.zk_tables.specs.Dictionaries.{bytes_from, front_at, number_at, keys_from, entry_start, has_key};
ghost use Rattle.zk_tables.specs.Dictionaries.{found_from, found_in};
ghost use Rattle.zk_tables.specs.Halves.{LinkPlace, entry_key, halved_whole, compared_to_end, compared_by_halves};

use crate::signed::magnitude;
use zk_mem::fault::Fault;
use zk_mem::memory::Memory;

/// A dictionary of the story, which lies whole in readable data (Z-Machine Standards Document 1.1,
/// section 13.2). It says where its parts stand; what they are is what memory holds.
#[derive(Clone, Copy, PartialEq, Eq, Drop)]
pub struct Dictionary {
    /// Its byte address.
    pub address: u32,
    /// How many separators it has.
    pub separators: u8,
    /// The length of an entry, in bytes.
    pub entry_length: u8,
    /// How many entries it has.
    pub entries: u16,
    /// Whether the story says that its entries are sorted by their keys.
    pub is_sorted: bool,
    /// Whether it can be searched by halves: it lies whole at or above the static base, where nothing is
    /// written, the story says that it is sorted, and no key is above the one after it.
    pub allows_halves: bool,
}

#[tactic(auto, unfolding(crate::specs::Dictionaries::dictionary_byte))]
fn read_byte(memory: &Memory, address: u32) -> Result<u8, Fault>
    ensures value { result ≡ dictionary_byte memory.now address }
    ensures bound { IfOk result (λ _. address < 65536) }
{
    if address >= memory.data_end() {
        return Err(Fault::BadDictionary);
    }
    memory.byte(address)
}

#[tactic(auto, unfolding(crate::specs::Dictionaries::dictionary_word))]
fn read_word(memory: &Memory, address: u32) -> Result<u16, Fault>
    requires { address < 4294967295 }
    ensures { result ≡ dictionary_word memory.now address }
{
    if address + 1 >= memory.data_end() {
        return Err(Fault::BadDictionary);
    }
    memory.word(address)
}

/// The bytes of a key: 4 up to version 3, 6 from version 4 on.
fn key_bytes(memory: &Memory) -> u8
    ensures { result ≡ key_length memory.now.version }
{
    if memory.version() < 4 { 4 } else { 6 }
}

/// Four bytes from an index on as one number, the first the highest.
fn front_of(bytes: &[u8], index: usize) -> u32
    requires { index + 3 < length bytes.now }
    ensures { result ≡ front_at bytes.now index }
{
    bytes[index] as u32 * 16_777_216
        + bytes[index + 1] as u32 * 65_536
        + bytes[index + 2] as u32 * 256
        + bytes[index + 3] as u32
}

/// Two bytes from an index on as one number.
fn back_of(bytes: &[u8], index: usize) -> u16
    requires { index + 1 < length bytes.now }
    ensures { result ≡ get_or bytes.now index 0 * 256 + get_or bytes.now (index + 1) 0 }
{
    bytes[index] as u16 * 256 + bytes[index + 1] as u16
}

/// The key from an index on as one number, so that keys are compared at once.
#[tactic(auto, unfolding(crate::specs::Dictionaries::number_at))]
fn number_of(bytes: &[u8], index: usize, version: u8) -> u64
    requires { index + key_length version ≤ length bytes.now }
    ensures value { result ≡ number_at version bytes.now index }
    ensures bytes { (i : ℕ) → get_or bytes.now i 0 < 256 }
{
    let front = front_of(bytes, index) as u64;
    if version < 4 {
        front
    } else {
        front * 65_536 + back_of(bytes, index + 4) as u64
    }
}

/// Whether no key of so many entries of a length, from an address on, is above the one after it.
#[tactic(auto, using(crate::proofs::Numbers::of_keys_do_not_fall, crate::proofs::Ordering::of_keys_do_not_fall))]
fn keys_do_not_fall(memory: &Memory, first: u32, entry_length: u8, entries: u16) -> bool
    requires room { key_length memory.now.version ≤ entry_length }
    requires inside { first + entry_length * entries ≤ readable_end memory.now }
    ensures { result ≡ do_not_fall (keys_from memory.now first entry_length entries) }
{
    if entries == 0 {
        return true;
    }
    let mut address = first;
    let mut before = number_of(memory.current(), address as usize, memory.version());
    for index in 1..entries {
        address += entry_length as u32;
        let key = number_of(memory.current(), address as usize, memory.version());
        if key < before {
            return false;
        }
        before = key;
    }
    true
}

#[tactic(auto, unfolding(crate::specs::Dictionaries::dictionary_by))]
fn dictionary_with(
    memory: &Memory,
    address: u32,
    separators: u8,
    entry_length: u8,
    count: u16,
) -> Result<Dictionary, Fault>
    requires { address < 65536 }
    ensures { result ≡ dictionary_by memory.now address separators entry_length count }
{
    let entries = magnitude(count);
    let first = address + separators as u32 + 4;
    let end = first + entry_length as u32 * entries as u32;
    if entry_length < key_bytes(memory) || memory.data_end() < end {
        return Err(Fault::BadDictionary);
    }
    let is_sorted = count < 0x8000;
    Ok(Dictionary {
        address,
        separators,
        entry_length,
        entries,
        is_sorted,
        allows_halves: memory.dynamic().len() <= address as usize
            && is_sorted
            && keys_do_not_fall(memory, first, entry_length, entries),
    })
}

#[tactic(auto, unfolding(crate::specs::Dictionaries::dictionary_at))]
fn read_dictionary(memory: &Memory, address: u32) -> Result<Dictionary, Fault>
    ensures { result ≡ dictionary_at memory.now address }
{
    let separators = read_byte(memory, address)?;
    let end = address + separators as u32;
    let entry_length = read_byte(memory, end + 1)?;
    let count = read_word(memory, end + 2)?;
    dictionary_with(memory, address, separators, entry_length, count)
}

impl Dictionary {
    /// The dictionary at an address. `BadDictionary` where it does not lie whole in readable data, each entry
    /// with all its bytes, or where its entries have no room for a key (Standard, sections 13.2 to 13.4).
    #[tactic(auto, using(crate::proofs::Finding::dictionary_stands))]
    pub fn at(memory: &Memory, address: u32) -> Result<Dictionary, Fault>
        ensures value { result ≡ dictionary_at memory.now address }
        ensures stands { IfOk result (λ d. IsDictionaryOf memory.now d) }
    {
        read_dictionary(memory, address)
    }

    /// The byte address of an entry, counted from 0.
    #[tactic(auto, using(crate::proofs::Finding::entry_inside, crate::proofs::Finding::dictionary_inside))]
    pub fn start_of(&self, memory: &Memory, index: u16) -> u32
        requires stands { IsDictionaryOf memory.now self.now }
        requires index { index < self.now.entries }
        ensures value { result ≡ entry_start self.now index }
        ensures inside { result + key_length memory.now.version ≤ 65536 }
        ensures some { 0 < result }
    {
        self.address + self.separators as u32 + 4 + self.entry_length as u32 * index as u32
    }

    /// The key of an entry, counted from 0, as one number.
    #[tactic(auto, using(crate::proofs::Finding::entry_inside))]
    fn key_of(&self, memory: &Memory, index: u16) -> u64
        requires stands { IsDictionaryOf memory.now self.now }
        requires index { index < self.now.entries }
        ensures value { result ≡ number_at memory.now.version memory.now.bytes (entry_start self.now index) }
        ensures bytes { (i : ℕ) → get_or memory.now.bytes i 0 < 256 }
    {
        let start = self.start_of(memory, index) as usize;
        number_of(memory.current(), start, memory.version())
    }

    /// Whether the key of an entry, counted from 0, is above that of another (Standard, section 13.5).
    #[tactic(auto, using(crate::proofs::Numbers::entries_by_number))]
    pub fn is_key_above(&self, memory: &Memory, index: u16, other: u16) -> bool
        requires stands { IsDictionaryOf memory.now self.now }
        requires index { index < self.now.entries }
        requires other { other < self.now.entries }
        ensures { result
            ≡ is_above (entry_key memory.now self.now index) (entry_key memory.now self.now other) }
    {
        self.key_of(memory, other) < self.key_of(memory, index)
    }

    /// The first entry, counted from 0, whose key is not below another, or the number of entries where there
    /// is none; and how many keys were compared with it, each by halves.
    #[tactic(auto, unfolding(crate::proofs::Opened::in_first_not_below), using(crate::proofs::Numbers::halving))]
    fn first_not_below(&self, memory: &Memory, key: &[u8]) -> (u16, u32)
        requires stands { IsDictionaryOf memory.now self.now }
        requires key { length key.now ≡ key_length memory.now.version }
        ensures entry { result.0 ≡ (halved_whole memory.now self.now key.now).entry }
        ensures compared { result.1 ≡ (halved_whole memory.now self.now key.now).compared }
        ensures few { result.1 ≤ 15 }
    {
        let wanted = number_of(key, 0, memory.version());
        let mut first = 0;
        let mut left = self.entries;
        for compared in 0..15 {
            if left == 0 {
                return (first, compared);
            }
            let half = left / 2;
            if self.key_of(memory, first + half) < wanted {
                first += half + 1;
                left -= half + 1;
            } else {
                left = half;
            }
        }
        (first, 15)
    }

    /// The address of the first entry whose first bytes are a key, or 0 where there is none, and how many
    /// keys were compared: at most 16. The entry is found by halves (Standard, section 13.5). A key of another
    /// length than 4 bytes up to version 3, or 6 from version 4 on, is not found, and is compared with none.
    #[tactic(auto, unfolding(crate::specs::Dictionaries::found_in, crate::specs::Halves::compared_by_halves))]
    pub fn halves(&self, memory: &Memory, key: &[u8]) -> (u16, u32)
        requires stands { IsDictionaryOf memory.now self.now }
        requires ordered { self.now.allows_halves ≡ true }
        ensures address { result.0 ≡ found_in memory.now self.now key.now }
        ensures compared { result.1 ≡ compared_by_halves memory.now self.now key.now }
        ensures bound { result.1 ≤ 16 }
    {
        if key.len() != key_bytes(memory) as usize {
            return (0, 0);
        }
        self.halve(memory, key)
    }

    /// The same, for a key of that length.
    #[tactic(auto, using(crate::proofs::Halving::of_halve, crate::proofs::Numbers::numbers))]
    fn halve(&self, memory: &Memory, key: &[u8]) -> (u16, u32)
        requires stands { IsDictionaryOf memory.now self.now }
        requires key { length key.now ≡ key_length memory.now.version }
        requires ordered { self.now.allows_halves ≡ true }
        ensures address { result.0 ≡ found_from memory.now self.now key.now self.now.entries 0 }
        ensures compared { result.1 ≡ compared_to_end memory.now self.now key.now }
        ensures bound { result.1 ≤ 16 }
    {
        let (index, compared) = self.first_not_below(memory, key);
        if index >= self.entries {
            return (0, compared);
        }
        if self.key_of(memory, index) != number_of(key, 0, memory.version()) {
            return (0, compared + 1);
        }
        (self.start_of(memory, index) as u16, compared + 1)
    }

    /// The address of the first entry whose first bytes are a key, or 0 where there is none: one entry after
    /// the other (Standard, section 13.5). The key has the length of one.
    #[tactic(auto, using(crate::proofs::Finding::of_walk, crate::proofs::Numbers::numbers))]
    fn walk(&self, memory: &Memory, key: &[u8]) -> u16
        requires stands { IsDictionaryOf memory.now self.now }
        requires key { length key.now ≡ key_length memory.now.version }
        ensures { result ≡ found_from memory.now self.now key.now self.now.entries 0 }
    {
        let wanted = number_of(key, 0, memory.version());
        for index in 0..self.entries {
            if self.key_of(memory, index) == wanted {
                return self.start_of(memory, index) as u16;
            }
        }
        0
    }

    /// The address of the first entry whose first bytes are a key, or 0 where there is none (Standard,
    /// section 13.5). It is found by halves where the dictionary allows it. A key of another length than 4
    /// bytes up to version 3, or 6 from version 4 on, is not found.
    #[tactic(auto, unfolding(crate::specs::Dictionaries::found_in))]
    pub fn find(&self, memory: &Memory, key: &[u8]) -> u16
        requires stands { IsDictionaryOf memory.now self.now }
        ensures { result ≡ found_in memory.now self.now key.now }
    {
        if self.allows_halves {
            let (address, _) = self.halves(memory, key);
            return address;
        }
        if key.len() != key_bytes(memory) as usize {
            return 0;
        }
        self.walk(memory, key)
    }
}
