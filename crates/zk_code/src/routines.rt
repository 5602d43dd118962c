// The headers of routines.

ghost use Rattle.std.specs.Prelude.{◌≡◌, ◌≤◌, ◌<◌, ◌^◌, IfSome, OnSome};
ghost use Rattle.zk_code.specs.Routines.{code_start, count_at, values_length};

use zk_mem::memory::Memory;

/// How many bytes the initial values of so many local variables take.
pub fn length_of_values(memory: &Memory, count: u8) -> u32
    ensures value { result ≡ values_length memory.now count }
    ensures bound { result ≤ 510 }
{
    if memory.version() < 5 {
        2 * count as u32
    } else {
        0
    }
}

/// How many local variables the routine at a byte address has: at most 15. There is no routine where its count is more,
/// or where it or one of the initial values lies outside the story (Standard, section 5.2).
#[tactic(auto, unfolding(crate::specs::Routines::count_at))]
pub fn local_count(memory: &Memory, address: u32) -> Option<u8>
    ensures value { result ≡ count_at memory.now address }
    ensures few { IfSome result (λ n. n ≤ 15) }
    ensures within { OnSome result (address < 524288) }
{
    let count = memory.cell(address)?;
    if count > 15 || address + 1 + length_of_values(memory, count) > memory.len() {
        None
    } else {
        Some(count)
    }
}

/// The byte address of the first instruction of the routine at a byte address, where there is a routine (Standard,
/// section
/// 5.3). It may be the story's end.
#[tactic(auto, unfolding(crate::specs::Routines::code_start))]
pub fn code_start(memory: &Memory, address: u32) -> Option<u32>
    ensures value { result ≡ code_start memory.now address }
    ensures near { IfSome result (λ a. a < 2 ^ 21) }
{
    match local_count(memory, address) {
        Some(count) => Some(address + 1 + length_of_values(memory, count)),
        None => None,
    }
}
