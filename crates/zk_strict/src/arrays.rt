// Accesses of arrays that go past their ends.

ghost use Rattle.std.specs.Prelude.{◌≡◌, ◌≤◌, ◌<◌, Some};
ghost use Rattle.zk_strict.specs.Arrays.{accessed, array_from, has_bytes, outside, outside_of, size_of};

use crate::misuse::{Extent, Outside};
use zk_code::opcode::Array;

/// The byte address of what an opcode reads or writes of an array at an index, a sum of 16 bits (Z-Machine Standards
/// Document 1.1, section 15).
fn accessed(operation: Array, array: u16, index: u16) -> u32
    ensures { result ≡ accessed operation array index }
{
    match operation {
        Array::Loadw | Array::Storew => (array as u32 + 2 * index as u32) & 0xffff,
        Array::Loadb | Array::Storeb => array.wrapping_add(index) as u32,
    }
}

/// How many bytes it reads or writes.
fn size_of(operation: Array) -> u32
    ensures { result ≡ size_of operation }
{
    match operation {
        Array::Loadw | Array::Storew => 2,
        Array::Loadb | Array::Storeb => 1,
    }
}

/// Whether so many bytes from a byte address on lie in an array.
fn has_bytes(array: Extent, address: u32, count: u32) -> bool
    ensures { result ≡ has_bytes array address count }
{
    array.address <= address
        && count <= array.length
        && address - array.address <= array.length - count
}

/// The first array that a byte address lies in, and its number from 0. `None` where it lies in none.
#[tactic(auto, unfolding(crate::specs::Arrays::array_from))]
fn array_at(arrays: &[Extent], address: u32) -> Option<(usize, Extent)>
    ensures { result ≡ array_from 0 arrays.now address }
{
    for number in 0..arrays.len() {
        let array = arrays[number];
        if has_bytes(array, address, 1) {
            return Some((number, array));
        }
    }
    None
}

/// What an opcode reads or writes outside of the array that its first operand is in, by the values of its first two
/// operands. `None` where the first lies in no array, and where all that is read or written lies in that array.
#[tactic(auto, unfolding(crate::specs::Arrays::outside))]
pub(crate) fn outside(
    arrays: &[Extent],
    operation: Array,
    array: u16,
    index: u16,
) -> Option<Outside>
    ensures { result ≡ outside arrays.now operation array index }
{
    let (number, extent) = array_at(arrays, array as u32)?;
    let address = accessed(operation, array, index);
    if has_bytes(extent, address, size_of(operation)) {
        return None;
    }
    Some(Outside {
        array: number,
        address,
    })
}
