// Where code ends, and which routine stands after it.

ghost use Rattle.std.specs.Prelude.{◌≡◌, ◌↔◌, ◌≤◌, ◌<◌, ◌+◌, ◌^◌, ℕ, true, None, Some, IfSome};
ghost use Rattle.zk_code.specs.Ends.{KnowsEnds};
ghost use Rattle.zk_code.specs.Extent.{FollowsCode, IsExtent, IsNeighbour, IsRoutine, LeadsBelow, next_packed};
ghost use Rattle.zk_code.specs.Grammar.{IsInstruction};
ghost use Rattle.zk_mem.specs.Header.{unit_length};

use crate::decode::decode_by;
use crate::ends::TextEnds;
use crate::instr::Instr;
use crate::routines::code_start;
use crate::ways::goes_on;
use zk_mem::header::unpack;
use zk_mem::memory::Memory;

/// The later one of an address and the one after a target.
fn past_target(address: u64, target: Option<u32>) -> u64
    ensures { (e : ℕ) → (result ≤ e) ↔ ((address ≤ e) × ((t : ℕ) → target ≡ Some t → t < e)) }
{
    match target {
        Some(target) => address.max(target as u64 + 1),
        None => address,
    }
}

/// The later one of an address and the one after all that an instruction leads to.
fn past_targets(memory: &Memory, instr: &Instr, address: u64) -> u64
    requires { instr.now.next ≤ 2 ^ 20 }
    ensures { (e : ℕ) → (result ≤ e) ↔ ((address ≤ e) × LeadsBelow memory.now e instr.now) }
{
    let past = past_target(address, instr.branch_address());
    past_target(past, instr.jump_address(memory))
}

/// The address after the code that begins at another one, where it has an end: the least address after an instruction
/// that does not go on, past which none of the branches and of the jumps by a constant of the code leads (Z-Machine
/// Standards Document 1.1, sections 4.7 and 15). There is none where an instruction before it can't be decoded.
pub fn extent(memory: &Memory, ends: &TextEnds, start: u32) -> Option<u32>
    requires { KnowsEnds memory.now ends.now }
    ensures found { IfSome result (IsExtent memory.now start) }
    ensures none { result ≡ None → (e : ℕ) → IsExtent memory.now start e → ⊥ }
    ensures near { IfSome result (λ e. e ≤ 2 ^ 20) }
{
    let mut at = start;
    let mut past: u64 = 0;
    for _step in 0..memory.len() {
        let Ok(instr) = decode_by(memory, ends, at) else {
            return None;
        };
        past = past_targets(memory, &instr, past);
        if !goes_on(instr.opcode) && past <= instr.next as u64 {
            return Some(instr.next);
        }
        at = instr.next;
    }
    None
}

/// The least byte address at or after another that a packed address stands for (Z-Machine Standards Document 1.1,
/// section
/// 1.2.3).
#[tactic(auto, unfolding(crate::specs::Extent::next_packed, zk_mem::specs::Header::unit_length))]
pub fn next_packed(memory: &Memory, address: u32) -> u32
    requires { address ≤ 2 ^ 20 }
    ensures { result ≡ next_packed memory.now address }
{
    let unit = unpack(memory.version(), 1);
    (address + unit - 1) / unit * unit
}

/// Whether a routine stands at a byte address: a count of at most 15 local variables, and code that has an end
/// (Z-Machine Standards Document 1.1, sections 5.2 and 5.3).
pub fn is_routine(memory: &Memory, ends: &TextEnds, address: u32) -> bool
    requires { KnowsEnds memory.now ends.now }
    ensures { (result ≡ true) ↔ IsRoutine memory.now address }
{
    match code_start(memory, address) {
        Some(start) => extent(memory, ends, start).is_some(),
        None => false,
    }
}

/// The byte address of the routine that stands at the least packed address at or after the end of the code at an
/// address.
fn routine_after(memory: &Memory, ends: &TextEnds, start: u32) -> Option<u32>
    requires { KnowsEnds memory.now ends.now }
    ensures found { IfSome result (FollowsCode memory.now start) }
    ensures none { result ≡ None → (n : ℕ) → FollowsCode memory.now start n → ⊥ }
{
    let Some(end) = extent(memory, ends, start) else {
        return None;
    };
    let next = next_packed(memory, end);
    if is_routine(memory, ends, next) {
        Some(next)
    } else {
        None
    }
}

/// The neighbour of the code at an address: the routine that stands at the least packed address at or after the code's
/// end; or, where none stands there, the one after the end of the code that does.
pub fn neighbour(memory: &Memory, ends: &TextEnds, start: u32) -> Option<u32>
    requires { KnowsEnds memory.now ends.now }
    ensures found { IfSome result (IsNeighbour memory.now start) }
    ensures only { (n : ℕ) → IsNeighbour memory.now start n → result ≡ Some n }
{
    if let Some(routine) = routine_after(memory, ends, start) {
        return Some(routine);
    }
    match extent(memory, ends, start) {
        Some(end) => routine_after(memory, ends, end),
        None => None,
    }
}
