// Bytes with their runs of zeros written short.

ghost use Rattle.std.specs.Prelude.{◌≡◌, ℕ, ◌+◌, ◌*◌, ◌^◌, ◌<◌, ◌≤◌, List, ◌∷◌, ◌++◌, length, drop, Some, IfOk, IsTrue};
ghost use Rattle.std.specs.Prelude.{OnOk};
ghost use Rattle.zk_mem.specs.Again.{with_bytes};
ghost use Rattle.zk_save.specs.Packing.{Zeros, pairs, spelled, packed};
ghost use Rattle.zk_save.specs.Unpacking.{unpacked, xored, AreAlike};
ghost use Rattle.zk_save.specs.Counted.{packed_after};

use std::alloc::{AllocError, Global};
use zk_mem::memory::Memory;

/// So many bytes are looked at together, since most of memory is as the file has it.
const BLOCK: usize = 64;

/// Writes so many zeros: pairs of a zero and how many come after it, of 256 zeros as long as these fit.
#[tactic(auto, using(crate::proofs::Packs::of_put_zeros))]
fn put_zeros(out: &mut Vec<u8>, zeros: usize) -> Result<(), AllocError>
    ensures { OnOk result (out.new.items ≡ out.old.items ++ spelled (Zeros zeros)) }
{
    for _i in 0..zeros / 256 {
        out.push(0)?;
        out.push(255)?;
    }
    let rest = (zeros % 256) as u8;
    if rest > 0 {
        out.push(0)?;
        out.push(rest - 1)?;
    }
    Ok(())
}

/// Takes a byte after so many zeros that wait, and tells how many wait then. A zero is counted; another
/// byte is written after those that waited.
fn put_byte(out: &mut Vec<u8>, zeros: usize, byte: u8) -> Result<usize, AllocError>
    requires { zeros < 2 ^ 63 }
    ensures value { IfOk result (λ z. (rest : List ℕ) → out.new.items ++ packed_after z rest
        ≡ out.old.items ++ packed_after zeros (byte ∷ rest)) }
    ensures few { IfOk result (λ z. z ≤ zeros + 1) }
{
    if byte == 0 {
        return Ok(zeros + 1);
    }
    put_zeros(out, zeros)?;
    out.push(byte)?;
    Ok(0)
}

/// Bytes, packed: without the zeros at their end, each other run of zeros in pairs of a zero and how many
/// come after it, at most 255, and each other byte as it is (Quetzal 1.4, section 3).
pub fn pack(alloc: Global, bytes: &[u8]) -> Result<Vec<u8>, AllocError>
    ensures value { IfOk result (λ v. v.items ≡ packed bytes.now) }
    ensures short { IfOk result (λ v. 2 * length v.items ≤ 3 * length bytes.now) }
{
    let mut out = Vec::new(alloc);
    let mut zeros: usize = 0;
    for byte in bytes {
        zeros = put_byte(&mut out, zeros, *byte)?;
    }
    Ok(out)
}

/// Whether a block of bytes is as a file has it. All of it is looked at, which takes words of the processor at a time.
fn is_alike(bytes: &[u8], file: &[u8], start: usize) -> bool
    requires { (start + 64 ≤ length bytes.now) × (length bytes.now ≤ length file.now) }
    ensures { IsTrue result → AreAlike bytes.now file.now start (start + 64) }
{
    let mut turned: u8 = 0;
    for k in start..start + BLOCK {
        turned |= bytes[k] ^ file[k];
    }
    turned == 0
}

/// Takes what bytes from one index up to another differ in from those of a file, after so many zeros that wait, and
/// tells how many wait then.
fn put_part(
    out: &mut Vec<u8>,
    zeros: usize,
    bytes: &[u8],
    file: &[u8],
    start: usize,
    end: usize,
) -> Result<usize, AllocError>
    requires inside { (start ≤ end) × (end ≤ length bytes.now)
        × (length bytes.now ≤ length file.now) }
    requires few { zeros ≤ start }
    ensures value { IfOk result (λ z. out.new.items
        ++ packed_after z (drop end (xored bytes.now file.now))
        ≡ out.old.items ++ packed_after zeros (drop start (xored bytes.now file.now))) }
    ensures few { IfOk result (λ z. z ≤ end) }
{
    let mut zeros = zeros;
    for i in start..end {
        zeros = put_byte(out, zeros, bytes[i] ^ file[i])?;
    }
    Ok(zeros)
}

/// What bytes differ in from those of a file, packed.
pub(crate) fn pack_difference(
    alloc: Global,
    bytes: &[u8],
    file: &[u8],
) -> Result<Vec<u8>, AllocError>
    requires { length bytes.now ≤ length file.now }
    ensures value { IfOk result (λ v. v.items ≡ packed (xored bytes.now file.now)) }
    ensures short { IfOk result (λ v. 2 * length v.items ≤ 3 * length bytes.now) }
{
    let mut out = Vec::new(alloc);
    let mut zeros: usize = 0;
    let blocks = bytes.len() / BLOCK;
    for block in 0..blocks {
        let start = block * BLOCK;
        if is_alike(bytes, file, start) {
            zeros += BLOCK;
        } else {
            zeros = put_part(&mut out, zeros, bytes, file, start, start + BLOCK)?;
        }
    }
    put_part(&mut out, zeros, bytes, file, blocks * BLOCK, bytes.len())?;
    Ok(out)
}

/// Turns the bytes of dynamic memory by a difference, which is packed.
pub fn turn(packed: &[u8], memory: &mut Memory)
    ensures turned { (ds : List ℕ) → unpacked (length ds) packed.now ≡ Some ds
        → length ds ≡ memory.old.static_base
        → memory.new ≡ with_bytes memory.old (xored memory.old.bytes ds) }
    ensures base { memory.new.static_base ≡ memory.old.static_base }
    ensures story { (memory.new.file ≡ memory.old.file)
        × (memory.new.setup ≡ memory.old.setup) }
{
    let end = memory.dynamic().len();
    let mut at: usize = 0;
    let mut run = false;
    for byte in packed {
        if run {
            at += (*byte as usize + 1).min(end - at);
            run = false;
            continue;
        }
        if *byte == 0 {
            run = true;
            continue;
        }
        if at >= end {
            continue;
        }
        memory.flip(at as u32, *byte);
        at += 1;
    }
}
