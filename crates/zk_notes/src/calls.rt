// The routines of a listing, and the calls by constants in its code.

ghost use Rattle.std.specs.Prelude.{◌≡◌, IfOk};
ghost use Rattle.zk_notes.specs.Calls.{call_in, called_at, calls_of, listed_routine, listed_routines};

use crate::addresses::push_found;
use std::alloc::{AllocError, Global};
use zk_code::decode::decode;
use zk_code::routines::local_count;
use zk_facts::outcome::Facts;
use zk_inspect::fact::Fact;
use zk_mem::memory::Memory;

/// A routine that is listed.
#[derive(Clone, Copy, Drop)]
pub struct Routine {
    /// Its byte address.
    pub address: u32,
    /// Whether nothing that is reached calls it by a constant.
    pub beside: bool,
}

/// A call of a routine by a constant.
#[derive(Clone, Copy, Drop)]
pub struct Call {
    /// The byte address of the instruction that calls.
    pub at: u32,
    /// That of the routine that is called.
    pub called: u32,
}

/// The routine that is listed.
fn routine_of(fact: Fact) -> Option<Routine>
    ensures { result ≡ listed_routine fact }
{
    match fact {
        Fact::Routine(address) => Some(Routine {
            address,
            beside: false,
        }),
        Fact::LyingRoutine(address, reached) => Some(Routine {
            address,
            beside: !reached,
        }),
        _ => None,
    }
}

/// The routines that are listed, in their order.
pub fn listed_routines(alloc: Global, facts: &[Fact]) -> Result<Vec<Routine>, AllocError>
    ensures { IfOk result (λ v. v.items ≡ listed_routines facts.now) }
{
    let mut routines = Vec::new(alloc);
    for fact in facts {
        push_found(&mut routines, routine_of(*fact))?;
    }
    Ok(routines)
}

/// The last routine whose address is below another, where routines ascend.
pub fn routine_below(routines: &[Routine], address: u32) -> Option<u32> {
    let count = routines.partition_point(|routine| routine.address < address);
    let last = routines[..count].last()?;
    Some(last.address)
}

/// The routine that the instruction at an address calls by a constant (Z-Machine Standards Document 1.1, section 6.4).
fn called_at(memory: &Memory, address: u32) -> Option<u32>
    ensures { result ≡ called_at memory.now address }
{
    let Ok(instr) = decode(memory, address) else {
        return None;
    };
    let called = instr.constant_call(memory)?;
    local_count(memory, called)?;
    Some(called)
}

/// The call that is listed, where an instruction is that calls a routine by a constant.
fn call_in(memory: &Memory, fact: Fact) -> Option<Call>
    ensures { result ≡ call_in memory.now fact }
{
    match fact {
        Fact::Instruction(at) => {
            let called = called_at(memory, at)?;
            Some(Call { at, called })
        }
        _ => None,
    }
}

/// The calls of routines by constants, in the order of their instructions.
pub fn calls_of(alloc: Global, facts: &Facts<'_>) -> Result<Vec<Call>, AllocError>
    ensures { IfOk result (λ v. v.items ≡ calls_of facts.now.memory.now facts.now.list.now) }
{
    let mut calls = Vec::new(alloc);
    for fact in facts.list {
        push_found(&mut calls, call_in(facts.memory, *fact))?;
    }
    Ok(calls)
}
