// The code that a run can come to.

ghost use Rattle.std.specs.Prelude.{◌≡◌, ◌↔◌, ◌≤◌, ◌<◌, ◌+◌, ◌^◌, ◌⊎◌, ℕ, [], ◌∷◌, true, IfOk, OnOk, Some, Ok, length};
ghost use Rattle.std.specs.Prelude.{max};
ghost use Rattle.std.specs.List.{Contains};
ghost use Rattle.zk_code.specs.Reach.{IsReachedFrom, branch_address, constant_call, goes_on, jump_address};
ghost use Rattle.zk_code.specs.Routines.{code_start};
ghost use Rattle.zk_code.specs.Ends.{KnowsEnds};
ghost use Rattle.zk_code.specs.Grammar.{IsInstruction};
ghost use Rattle.zk_mem.specs.Map.{HasBytes};
ghost use Rattle.zk_inspect.specs.Codes.{AreNear, IsCodeFrom, IsCodeOf, IsRoutineAt};
ghost use Rattle.zk_inspect.specs.Lists.{IsMarked};
ghost use Rattle.zk_inspect.specs.Search.{Grows, IsExpanded, IsOnItsWay, IsSearch};

pub(crate) mod address_set;
pub mod code;
pub mod disassembly;
pub(crate) mod notes;
pub(crate) mod operands;

use crate::reach::address_set::AddressSet;
use crate::reach::code::{Addresses, Code};
use std::alloc::{AllocError, Global};
use zk_code::decode::decode_by;
use zk_code::ends::TextEnds;
use zk_code::instr::Instr;
use zk_code::routines::code_start;
use zk_code::ways::goes_on;
use zk_mem::memory::Memory;

/// What was found so far.
#[derive(Drop)]
struct Search {
    marks: AddressSet,
    routines: AddressSet,
    /// The marked addresses, in the order in which they were found.
    found: Addresses,
}

impl Search {
    /// Nothing was found yet, of the addresses below a bound.
    fn begun(
        alloc: Global,
        memory: &Memory,
        roots: &[u32],
        bound: usize,
    ) -> Result<Search, AllocError>
        requires { length memory.now.bytes < bound }
        ensures search { IfOk result (λ s. IsSearch memory.now roots.now s) }
        ensures size { IfOk result (λ s. length s.marks ≡ bound) }
        ensures routine_size { IfOk result (λ s. length s.routines ≡ bound) }
    {
        let marks = AddressSet::none(alloc, bound)?;
        let routines = AddressSet::none(alloc, bound)?;
        Ok(Search {
            marks,
            routines,
            found: Addresses::new(alloc),
        })
    }

    /// An address is reached.
    fn find(&mut self, memory: &Memory, roots: &[u32], address: u32) -> Result<(), AllocError>
        requires search { IsSearch memory.now roots.now self.old }
        requires reached { IsReachedFrom memory.now roots.now address }
        requires within { address < length self.old.marks }
        ensures search { OnOk result (IsSearch memory.now roots.now self.new) }
        ensures grows { OnOk result (Grows self.old self.new) }
        ensures found { OnOk result (IsMarked self.new.marks address) }
    {
        if self.marks.has(address) {
            return Ok(());
        }
        self.marks.mark(address);
        self.found.push(address)?;
        Ok(())
    }

    /// What stands after an instruction is reached, where the instruction goes on.
    fn follow_behind(
        &mut self,
        memory: &Memory,
        roots: &[u32],
        address: u32,
        instr: &Instr,
    ) -> Result<(), AllocError>
        requires search { IsSearch memory.now roots.now self.old }
        requires reached { IsReachedFrom memory.now roots.now address }
        requires stands { IsInstruction memory.now address instr.now instr.now.next }
        ensures search { OnOk result (IsSearch memory.now roots.now self.new) }
        ensures grows { OnOk result (Grows self.old self.new) }
        ensures found { OnOk result
            (goes_on instr.now.opcode ≡ true → IsMarked self.new.marks instr.now.next) }
    {
        if !goes_on(instr.opcode) {
            return Ok(());
        }
        self.find(memory, roots, instr.next)
    }

    /// Where the branch of an instruction leads is reached, where that is in the story.
    fn follow_branch(
        &mut self,
        memory: &Memory,
        roots: &[u32],
        address: u32,
        instr: &Instr,
    ) -> Result<(), AllocError>
        requires search { IsSearch memory.now roots.now self.old }
        requires reached { IsReachedFrom memory.now roots.now address }
        requires stands { IsInstruction memory.now address instr.now instr.now.next }
        ensures search { OnOk result (IsSearch memory.now roots.now self.new) }
        ensures grows { OnOk result (Grows self.old self.new) }
        ensures found { OnOk result
            ((c : ℕ) → branch_address instr.now ≡ Some c → IsMarked self.new.marks c) }
    {
        match instr.branch_address() {
            Some(target) => self.find(memory, roots, target),
            None => Ok(()),
        }
    }

    /// Where an instruction jumps to by a constant is reached, where that is in the story.
    fn follow_jump(
        &mut self,
        memory: &Memory,
        roots: &[u32],
        address: u32,
        instr: &Instr,
    ) -> Result<(), AllocError>
        requires search { IsSearch memory.now roots.now self.old }
        requires reached { IsReachedFrom memory.now roots.now address }
        requires stands { IsInstruction memory.now address instr.now instr.now.next }
        requires near { instr.now.next ≤ 2 ^ 20 }
        ensures search { OnOk result (IsSearch memory.now roots.now self.new) }
        ensures grows { OnOk result (Grows self.old self.new) }
        ensures found { OnOk result
            ((c : ℕ) → jump_address memory.now instr.now ≡ Some c → IsMarked self.new.marks c) }
    {
        match instr.jump_address(memory) {
            Some(target) => self.find(memory, roots, target),
            None => Ok(()),
        }
    }

    /// An instruction calls the routine at an address by a constant, if there is one.
    fn follow_routine(
        &mut self,
        memory: &Memory,
        roots: &[u32],
        address: u32,
        instr: &Instr,
        routine: u32,
    ) -> Result<(), AllocError>
        requires search { IsSearch memory.now roots.now self.old }
        requires reached { IsReachedFrom memory.now roots.now address }
        requires stands { IsInstruction memory.now address instr.now instr.now.next }
        requires called { constant_call memory.now instr.now ≡ Some routine }
        ensures search { OnOk result (IsSearch memory.now roots.now self.new) }
        ensures grows { OnOk result (Grows self.old self.new) }
        ensures found { OnOk result ((c : ℕ) → code_start memory.now routine ≡ Some c
            → IsMarked self.new.routines routine × IsMarked self.new.marks c) }
    {
        let Some(start) = code_start(memory, routine) else {
            return Ok(());
        };
        self.routines.mark(routine);
        self.find(memory, roots, start)?;
        Ok(())
    }

    /// The routine that an instruction calls by a constant is called, and its first instruction is reached.
    fn follow_call(
        &mut self,
        memory: &Memory,
        roots: &[u32],
        address: u32,
        instr: &Instr,
    ) -> Result<(), AllocError>
        requires search { IsSearch memory.now roots.now self.old }
        requires reached { IsReachedFrom memory.now roots.now address }
        requires stands { IsInstruction memory.now address instr.now instr.now.next }
        ensures search { OnOk result (IsSearch memory.now roots.now self.new) }
        ensures grows { OnOk result (Grows self.old self.new) }
        ensures found { OnOk result ((r c : ℕ) → constant_call memory.now instr.now ≡ Some r
            → code_start memory.now r ≡ Some c
            → IsMarked self.new.routines r × IsMarked self.new.marks c) }
    {
        match instr.constant_call(memory) {
            Some(routine) => {
                self.follow_routine(memory, roots, address, instr, routine)?;
                Ok(())
            }
            None => Ok(()),
        }
    }

    /// All ways on from an instruction are reached.
    fn follow(
        &mut self,
        memory: &Memory,
        roots: &[u32],
        address: u32,
        instr: &Instr,
    ) -> Result<(), AllocError>
        requires search { IsSearch memory.now roots.now self.old }
        requires reached { IsReachedFrom memory.now roots.now address }
        requires stands { IsInstruction memory.now address instr.now instr.now.next }
        requires near { instr.now.next ≤ 2 ^ 20 }
        ensures search { OnOk result (IsSearch memory.now roots.now self.new) }
        ensures grows { OnOk result (Grows self.old self.new) }
        ensures expanded { OnOk result (IsExpanded memory.now self.new address) }
    {
        self.follow_behind(memory, roots, address, instr)?;
        self.follow_branch(memory, roots, address, instr)?;
        self.follow_jump(memory, roots, address, instr)?;
        self.follow_call(memory, roots, address, instr)?;
        Ok(())
    }

    /// All ways on from an address are reached, where there is an instruction.
    fn expand(
        &mut self,
        memory: &Memory,
        roots: &[u32],
        ends: &TextEnds,
        address: u32,
    ) -> Result<(), AllocError>
        requires ends { KnowsEnds memory.now ends.now }
        requires search { IsSearch memory.now roots.now self.old }
        requires reached { IsReachedFrom memory.now roots.now address }
        ensures search { OnOk result (IsSearch memory.now roots.now self.new) }
        ensures grows { OnOk result (Grows self.old self.new) }
        ensures expanded { OnOk result (IsExpanded memory.now self.new address) }
    {
        memory.has_bytes();
        match decode_by(memory, ends, address) {
            Ok(instr) => self.follow(memory, roots, address, &instr),
            Err(_) => Ok(()),
        }
    }
}

/// The roots are reached.
fn find_roots(search: &mut Search, memory: &Memory, roots: &[u32]) -> Result<(), AllocError>
    requires search { IsSearch memory.now roots.now search.old }
    requires within { (a : ℕ) → Contains roots.now a → a < length search.old.marks }
    ensures search { OnOk result (IsSearch memory.now roots.now search.new) }
    ensures grows { OnOk result (Grows search.old search.new) }
    ensures found { OnOk result
        ((a : ℕ) → Contains roots.now a → IsMarked search.new.marks a) }
{
    for index in 0..roots.len() {
        search.find(memory, roots, roots[index])?;
    }
    Ok(())
}

/// A search that has found the roots, and nothing else.
fn search_from(alloc: Global, memory: &Memory, roots: &[u32]) -> Result<Search, AllocError>
    requires { AreNear memory.now roots.now }
    ensures search { IfOk result (λ s. IsOnItsWay memory.now roots.now s 0) }
    ensures small { IfOk result (λ s. length s.marks ≡ max (length memory.now.bytes) 65535 + 1) }
    ensures routines_small { IfOk result (λ s. length s.routines ≡ max (length memory.now.bytes) 65535 + 1) }
{
    let bound = memory.len().max(65535) as usize + 1;
    let mut search = Search::begun(alloc, memory, roots, bound)?;
    find_roots(&mut search, memory, roots)?;
    Ok(search)
}

/// All that is reached.
fn find_all(alloc: Global, memory: &Memory, roots: &[u32]) -> Result<Search, AllocError>
    requires { AreNear memory.now roots.now }
    ensures search { IfOk result (λ s. IsOnItsWay memory.now roots.now s (length s.found)) }
    ensures small { IfOk result (λ s. length s.marks ≤ 2 ^ 20) }
    ensures routines_small { IfOk result (λ s. length s.routines ≤ 2 ^ 20) }
{
    let ends = TextEnds::find(alloc, memory)?;
    let mut search = search_from(alloc, memory, roots)?;
    // no address is found twice
    for index in 0..memory.len().max(65535) as usize + 1 {
        match search.found.get(index) {
            Some(address) => search.expand(memory, roots, &ends, address)?,
            None => return Ok(search),
        }
    }
    Ok(search)
}

/// Marks an address where a routine stands.
fn mark_routine(marks: &mut AddressSet, memory: &Memory, routine: u32)
    requires { length memory.now.bytes ≤ length marks.old }
    ensures size { length marks.new ≡ length marks.old }
    ensures exact { (r : ℕ) → IsMarked marks.new r
        ↔ (IsMarked marks.old r ⊎ IsRoutineAt memory.now (routine ∷ []) r) }
{
    if code_start(memory, routine).is_some() {
        marks.mark(routine);
    }
}

/// Marks those of some addresses where routines stand.
pub(crate) fn mark_routines(marks: &mut AddressSet, memory: &Memory, routines: &[u32])
    requires { length memory.now.bytes ≤ length marks.old }
    ensures size { length marks.new ≡ length marks.old }
    ensures exact { (r : ℕ) → IsMarked marks.new r
        ↔ (IsMarked marks.old r ⊎ IsRoutineAt memory.now routines.now r) }
{
    for routine in routines {
        mark_routine(marks, memory, *routine);
    }
}

/// The code that is reached from some addresses: these and, from each instruction at one that is reached, what stands
/// after it unless it returns, jumps, throws, quits or restarts, where its branch or its jump by a constant leads
/// inside the story, and the first instruction of a routine that it calls by a constant other than 0; and these
/// routines, and those that are named (Z-Machine Standards Document 1.1, sections 4.7, 5 and 15). Code that only
/// computed addresses lead to is not found.
///
/// Refused for lack of memory alone.
pub(crate) fn reach_from(
    alloc: Global,
    memory: &Memory,
    roots: &[u32],
    named: &[u32],
) -> Result<Code, AllocError>
    requires { AreNear memory.now roots.now }
    ensures { IfOk result (λ code. IsCodeFrom memory.now roots.now named.now code) }
{
    let mut search = find_all(alloc, memory, roots)?;
    drop(search.found);
    let addresses = search.marks.list(alloc)?;
    mark_routines(&mut search.routines, memory, named);
    let routines = search.routines.list(alloc)?;
    Ok(Code {
        addresses,
        routines,
    })
}

/// The reachable code of a story: what is reached from its first instruction (Z-Machine Standards Document 1.1, section
/// 5.5).
///
/// Refused for lack of memory alone.
pub fn reach(alloc: Global, memory: &Memory) -> Result<Code, AllocError>
    ensures { IfOk result (λ code. IsCodeOf memory.now code) }
{
    let first = memory.header().first_instruction as u32;
    reach_from(alloc, memory, &[first], &[])
}
