// What is wrong with the dictionary.

ghost use Rattle.std.specs.Prelude.{◌≡◌, ◌≢◌, ◌<◌, ℕ, Ok, IfOk, MatchOption};
ghost use Rattle.zk_mem.specs.Header.{header_of};
ghost use Rattle.zk_tables.specs.Dictionaries.{IsDictionaryOf, dictionary_at};
ghost use Rattle.zk_inspect.specs.Findings.{Finds};
ghost use Rattle.zk_inspect.specs.Keys.{Falls};
ghost use Rattle.zk_inspect.specs.Lists.{IsListOf};

use crate::check::finding::Number;
use crate::reach::code::Addresses;
use std::alloc::{AllocError, Global};
use zk_mem::memory::Memory;
use zk_tables::dictionary::Dictionary;

/// The address of the dictionary, if it does not lie whole in readable data.
pub(crate) fn find_bad_dictionary(alloc: Global, memory: &Memory) -> Result<Addresses, AllocError>
    ensures { IfOk result (IsListOf (Finds memory.now Number.DictionaryExtent)) }
{
    memory.has_bytes();
    let address = memory.header().dictionary as u32;
    let is_bad = address != 0 && Dictionary::at(memory, address).is_err();
    Addresses::only_if(alloc, is_bad, address)
}

/// The first entry, counted from 0, whose key does not come before the next one.
fn find_fall(memory: &Memory, dictionary: Dictionary) -> Option<u16>
    requires { IsDictionaryOf memory.now dictionary }
    ensures { MatchOption result ((i : ℕ) → Falls memory.now dictionary i → ⊥)
        (λ n. Falls memory.now dictionary n
        × ((i : ℕ) → i < n → Falls memory.now dictionary i → ⊥)) }
{
    for index in 0..dictionary.entries.saturating_sub(1) {
        if !dictionary.is_key_above(memory, index + 1, index) {
            return Some(index);
        }
    }
    None
}

/// The address of the first entry that does not come after the one before it, in a dictionary that says that it is
/// sorted.
fn list_fall(
    alloc: Global,
    memory: &Memory,
    dictionary: Dictionary,
) -> Result<Addresses, AllocError>
    requires named { (header_of memory.now.file).dictionary ≢ 0 }
    requires stands { dictionary_at memory.now (header_of memory.now.file).dictionary
        ≡ Ok dictionary }
    requires whole { IsDictionaryOf memory.now dictionary }
    ensures { IfOk result (IsListOf (Finds memory.now Number.DictionaryOrder)) }
{
    let mut list = Addresses::new(alloc);
    if !dictionary.is_sorted {
        return Ok(list);
    }
    match find_fall(memory, dictionary) {
        Some(index) => {
            list.push(dictionary.start_of(memory, index + 1))?;
            Ok(list)
        }
        None => Ok(list),
    }
}

/// The address of the first entry that does not come after the one before it, in a dictionary that says that it is
/// sorted and lies whole in readable data.
pub(crate) fn find_unordered(alloc: Global, memory: &Memory) -> Result<Addresses, AllocError>
    ensures { IfOk result (IsListOf (Finds memory.now Number.DictionaryOrder)) }
{
    let address = memory.header().dictionary as u32;
    if address == 0 {
        return Ok(Addresses::new(alloc));
    }
    match Dictionary::at(memory, address) {
        Ok(dictionary) => { list_fall(alloc, memory, dictionary) }
        Err(_) => Ok(Addresses::new(alloc)),
    }
}
