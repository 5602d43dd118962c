// The code that lies in a story.

ghost use Rattle.std.specs.Prelude.{◌≡◌, ◌++◌, ◌+◌, ◌<◌, ◌≤◌, ◌↔◌, ◌⊎◌, ℕ, IfOk, OnOk, Some, length};
ghost use Rattle.std.specs.List.{Contains};
ghost use Rattle.zk_code.specs.Ends.{KnowsEnds};
ghost use Rattle.zk_code.specs.Extent.{IsNeighbour};
ghost use Rattle.zk_mem.specs.Header.{header_of};
ghost use Rattle.zk_inspect.specs.Beside.{IsNamedCode, IsNextRoutine, IsWhole, LiesBeside, inside, roots_of, starts};
ghost use Rattle.zk_inspect.specs.Codes.{IsRoutineAt};
ghost use Rattle.zk_inspect.specs.Lists.{IsAmong, IsListOf, IsMarked};

use crate::reach::address_set::{AddressSet, unmarked};
use crate::reach::code::{Addresses, Code};
use crate::reach::{mark_routines, reach_from};
use std::alloc::{AllocError, Global};
use zk_code::ends::TextEnds;
use zk_code::extent::neighbour;
use zk_code::routines::code_start;
use zk_mem::memory::Memory;

/// Adds those of some addresses that lie in the story.
#[tactic(auto, unfolding(crate::specs::Beside::inside))]
fn add_inside(roots: &mut Addresses, memory: &Memory, addresses: &[u32]) -> Result<(), AllocError>
    ensures { OnOk result (roots.new ≡ roots.old ++ inside memory.now addresses.now) }
{
    for address in addresses {
        if *address < memory.len() {
            roots.push(*address)?;
        }
    }
    Ok(())
}

/// Adds the first instructions of some routines.
#[tactic(auto, unfolding(crate::specs::Beside::starts))]
fn add_starts(roots: &mut Addresses, memory: &Memory, routines: &[u32]) -> Result<(), AllocError>
    ensures { OnOk result (roots.new ≡ roots.old ++ starts memory.now routines.now) }
{
    for routine in routines {
        if let Some(start) = code_start(memory, *routine) {
            roots.push(start)?;
        }
    }
    Ok(())
}

/// Where a search begins.
fn roots_of(
    alloc: Global,
    memory: &Memory,
    addresses: &[u32],
    routines: &[u32],
) -> Result<Addresses, AllocError>
    ensures all { IfOk result
        (λ roots. roots ≡ roots_of memory.now addresses.now routines.now) }
    ensures first { (header_of memory.now.file).first_instruction < 65536 }
{
    let mut roots = Addresses::new(alloc);
    roots.push(memory.header().first_instruction as u32)?;
    add_inside(&mut roots, memory, addresses)?;
    add_starts(&mut roots, memory, routines)?;
    Ok(roots)
}

/// The code of a story, as `reach` has it, where the byte addresses of further instructions and of routines are named:
/// what is reached from the first instruction, from those, and from the first instructions of these; and these
/// routines, and those that are called there by a constant. An address outside the story is left out, and so is that of
/// a routine where none is.
///
/// Refused for lack of memory alone.
pub fn reach_named(
    alloc: Global,
    memory: &Memory,
    addresses: &[u32],
    routines: &[u32],
) -> Result<Code, AllocError>
    ensures { IfOk result (IsNamedCode memory.now addresses.now routines.now) }
{
    let roots = roots_of(alloc, memory, addresses, routines)?;
    reach_from(alloc, memory, roots.as_slice(), routines)
}

/// The code that lies in a story.
#[derive(Drop)]
pub struct Whole {
    pub code: Code,
    /// Marks on the routines that are reached without the others.
    pub(crate) reached: AddressSet,
}

/// Marks the neighbour of the code at an address, where it has one.
fn mark_neighbour(marks: &mut AddressSet, memory: &Memory, ends: &TextEnds, start: u32)
    requires ends { KnowsEnds memory.now ends.now }
    requires size { length memory.now.bytes ≤ length marks.old }
    ensures size { length marks.new ≡ length marks.old }
    ensures exact { (r : ℕ) → IsMarked marks.new r
        ↔ (IsMarked marks.old r ⊎ IsNeighbour memory.now start r) }
{
    if let Some(routine) = neighbour(memory, ends, start) {
        marks.mark(routine);
    }
}

/// Marks the neighbour of the routine at an address, where there is one that has one.
fn mark_next(marks: &mut AddressSet, memory: &Memory, ends: &TextEnds, routine: u32)
    requires ends { KnowsEnds memory.now ends.now }
    requires size { length memory.now.bytes ≤ length marks.old }
    ensures size { length marks.new ≡ length marks.old }
    ensures exact { (r : ℕ) → IsMarked marks.new r
        ↔ (IsMarked marks.old r ⊎ IsNextRoutine memory.now routine r) }
{
    if let Some(start) = code_start(memory, routine) {
        mark_neighbour(marks, memory, ends, start);
    }
}

/// Marks, with each routine that is marked, its neighbour.
fn mark_all_next(marks: &mut AddressSet, memory: &Memory, ends: &TextEnds)
    requires ends { KnowsEnds memory.now ends.now }
    requires size { length marks.old ≡ length memory.now.bytes }
    ensures size { length marks.new ≡ length marks.old }
    ensures exact { (r : ℕ) → IsMarked marks.new r
        ↔ IsAmong (IsMarked marks.old) (IsNextRoutine memory.now) r }
{
    // a neighbour lies after its routine
    for address in 0..memory.len() {
        if marks.has(address) {
            mark_next(marks, memory, ends, address);
        }
    }
}

/// The routines that lie beside some: these, the neighbour of the first code, and the neighbour of each one that does.
fn lie_beside(alloc: Global, memory: &Memory, routines: &[u32]) -> Result<Addresses, AllocError>
    ensures { IfOk result (IsListOf (LiesBeside memory.now routines.now)) }
{
    let ends = TextEnds::find(alloc, memory)?;
    let mut marks = unmarked(alloc, memory.len())?;
    mark_routines(&mut marks, memory, routines);
    let first = memory.header().first_instruction as u32;
    mark_neighbour(&mut marks, memory, &ends, first);
    mark_all_next(&mut marks, memory, &ends);
    marks.list(alloc)
}

/// Marks on the routines of a list.
fn marks_of(alloc: Global, memory: &Memory, routines: &[u32]) -> Result<AddressSet, AllocError>
    ensures { IfOk result
        (λ marks. (r : ℕ) → IsMarked marks r ↔ IsRoutineAt memory.now routines.now r) }
{
    let mut marks = unmarked(alloc, memory.len())?;
    mark_routines(&mut marks, memory, routines);
    Ok(marks)
}

/// The code that lies in a story, where byte addresses of instructions and of routines are named: the code that is
/// reached, as `reach_named` has it, from these and from the routines that lie beside those. A routine lies beside
/// another one that stands at the least packed address at or after its end, or after the code there that nothing leads
/// to (Z-Machine Standards Document
/// 1.1, sections 1.2.3 and 5). That a routine lies there says nothing about runs.
///
/// Refused for lack of memory alone.
pub fn find_whole(
    alloc: Global,
    memory: &Memory,
    addresses: &[u32],
    routines: &[u32],
) -> Result<Whole, AllocError>
    ensures { IfOk result (IsWhole memory.now addresses.now routines.now) }
{
    let near = reach_named(alloc, memory, addresses, routines)?;
    let reached = marks_of(alloc, memory, near.routines.as_slice())?;
    let beside = lie_beside(alloc, memory, near.routines.as_slice())?;
    let code = reach_named(alloc, memory, addresses, beside.as_slice())?;
    Ok(Whole { code, reached })
}
