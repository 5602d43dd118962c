// The keys that end a line.

ghost use Rattle.std.specs.Prelude.{◌≡◌};
ghost use Rattle.std.specs.List.{list_any};
ghost use Rattle.zk_step.specs.Terminating.{is_terminating, is_among, is_function_key, stands_for, terminating_at};

use zk_mem::memory::Memory;

/// Whether a key is a function key (Z-Machine Standards Document 1.1, section 3.8.4).
fn is_function_key(key: u8) -> bool
    ensures { result ≡ is_function_key key }
{
    matches!(key, 129..=154 | 252..=254)
}

/// Whether a code stands for a key: it is the key's, or 255, which stands for all function keys.
fn stands_for(key: u8, code: u8) -> bool
    ensures { result ≡ stands_for key code }
{
    code == key || code == 255
}

/// Whether a key is among codes up to the first 0.
fn is_among(key: u8, bytes: &[u8]) -> bool
    ensures { result ≡ is_among key bytes.now }
{
    for byte in bytes {
        if *byte == 0 {
            return false;
        }
        if stands_for(key, *byte) {
            return true;
        }
    }
    false
}

/// Whether a key is in the table of terminating characters at an address; 0 is no address.
#[tactic(auto, unfolding(crate::specs::Terminating::terminating_at), using(std::proofs::lemmas::List::drop_min))]
fn is_in_table(memory: &Memory, address: u16, key: u8) -> bool
    ensures { result ≡ list_any (stands_for key) (terminating_at memory.now address) }
{
    if address == 0 {
        return false;
    }
    let readable = &memory.current()[..memory.data_end() as usize];
    is_among(key, &readable[readable.len().min(address as usize)..])
}

/// Whether the key of a code ends a line: a new line does (13), and from version 5 on each function key in the story's
/// table of terminating characters, as memory has it now (Z-Machine Standards Document 1.1, section 10.5.2.1).
#[tactic(auto, unfolding(crate::specs::Terminating::is_terminating))]
pub fn is_terminating(memory: &Memory, key: u8) -> bool
    ensures { result ≡ is_terminating memory.now key }
{
    let address = memory.header().terminating_characters;
    key == 13 || is_function_key(key) && is_in_table(memory, address, key)
}
