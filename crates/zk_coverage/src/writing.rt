// The texts that reports are made of.

ghost use Rattle.std.specs.Prelude.{◌≡◌, ◌++◌, IfOk, OnOk, decimal, string_bytes};
ghost use Rattle.std.specs.List.{flat_map};
ghost use Rattle.zk_coverage.specs.Reports.{address_digits, share_of};

use crate::ran::Share;
use itoa::Buffer;
use std::alloc::{AllocError, Global};

/// Adds texts, one after another.
pub(crate) fn push_all(out: &mut Vec<u8>, texts: &[&[u8]]) -> Result<(), AllocError>
    ensures { OnOk result (out.new.items ≡ out.old.items ++ flat_map (λ t. t.now) texts.now) }
{
    for text in texts {
        out.extend_from_slice(*text)?;
    }
    Ok(())
}

/// Adds a number, and a text behind it.
pub(crate) fn push_number(out: &mut Vec<u8>, number: usize, text: &[u8]) -> Result<(), AllocError>
    ensures { OnOk result (out.new.items ≡ out.old.items ++ (decimal number ++ text.now)) }
{
    let mut buffer = Buffer::new();
    push_all(out, &[buffer.format(number).as_bytes(), text])
}

/// Adds how many of what is listed ran, and a text behind it.
pub(crate) fn push_share(out: &mut Vec<u8>, share: Share, text: &[u8]) -> Result<(), AllocError>
    ensures { OnOk result (out.new.items ≡ out.old.items ++ share_of share text.now) }
{
    push_number(out, share.ran, b" of ")?;
    push_number(out, share.listed, text)
}

/// The digits of an address, as listings have it: five hexadecimal ones at least.
pub(crate) fn address_digits(alloc: Global, address: u32) -> Result<String, AllocError>
    ensures { IfOk result (λ s. string_bytes s ≡ address_digits address) }
{
    format!(in alloc; "{address:05x}")
}
