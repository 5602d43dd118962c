// What a check of a story promises of its runs.

ghost use Rattle.std.specs.Prelude.{◌≡◌, [], IfOk};
ghost use Rattle.zk_code.specs.Clean.{IsClean};
ghost use Rattle.zk_code.specs.Reach.{IsReached};
ghost use Rattle.zk_inspect.specs.Findings.{AreFindings};
ghost use Rattle.zk_vm.specs.Inside.{StaysClean, StopsRead};
ghost use Rattle.zk_program.specs.Verdict.{CleanWhereNone, IsStart};

use std::alloc::{AllocError, Global};
use zk_inspect::check::check;
use zk_inspect::check::finding::Finding;
use zk_mem::memory::Memory;

/// What is wrong with a story (see `check`), by its memory at the start. Where nothing is, the addresses that its code
/// reaches are clean, and each state of its runs, whatever the seed, the limits, the view and the answers are, is at
/// one of them, up to a call or a jump by a variable and up to a saved game that is restored: its program counter,
/// those that its routines return to, and the states to go back to. And no step at an address that is reached is ever
/// refused because there is no instruction there, nor does any run stop there for that.
///
/// Refused for lack of memory alone.
#[tactic(auto, using(crate::proofs::Verdicts::has_clean_runs, crate::proofs::Verdicts::stops_where_none))]
pub fn verdict(alloc: Global, memory: &Memory) -> Result<Vec<Finding>, AllocError>
    requires { IsStart memory.now }
    ensures findings { IfOk result (λ list. AreFindings memory.now list.items) }
    ensures clean { IfOk result (λ list. list.items ≡ [] →
        IsClean memory.now (IsReached memory.now)
        × StaysClean memory.now.file (IsReached memory.now)) }
    ensures stops { IfOk result
        (λ list. list.items ≡ [] → StopsRead memory.now.file (IsReached memory.now)) }
{
    memory.has_bytes();
    check(alloc, memory)
}

/// Where nothing is wrong with a story, what its code reaches is clean, and so are its runs, and they stop nowhere that
/// its code reaches because there is no instruction there.
pub fn clean_where_none()
    ensures { CleanWhereNone }
{}
