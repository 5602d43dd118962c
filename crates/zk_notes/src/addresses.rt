// Addresses in lines.

ghost use Rattle.std.specs.Prelude.{◌≡◌, ◌++◌, OnOk, option_to_list};
ghost use Rattle.std.specs.List.{list_all};
ghost use Rattle.zk_notes.specs.Addresses.{address_of, is_hex_digit};

use std::alloc::AllocError;

/// Whether a word has hexadecimal digits alone.
fn is_hexadecimal(word: &str) -> bool
    ensures { result ≡ list_all is_hex_digit word.now }
{
    word.as_bytes()
        .iter()
        .all(|byte| (*byte as char).is_digit(16))
}

/// The address that a word is: five hexadecimal digits at least.
#[tactic(auto, using(crate::proofs::AddressWords::of_address_of))]
pub(crate) fn address_of(word: &str) -> Option<u32>
    ensures { result ≡ address_of word.now }
{
    if word.len() < 5 {
        return None;
    }
    if !is_hexadecimal(word) {
        return None;
    }
    u32::from_str_radix(word, 16).ok()
}

/// Puts an item behind others, where there is one.
pub(crate) fn push_found<T: Drop>(list: &mut Vec<T>, found: Option<T>) -> Result<(), AllocError>
    ensures { OnOk result (list.new.items ≡ list.old.items ++ option_to_list found) }
{
    if let Some(item) = found {
        list.push(item)?;
    }
    Ok(())
}
