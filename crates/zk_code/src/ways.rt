// Where an instruction leads to by what stands in it.

ghost use Rattle.std.specs.Prelude.{◌≡◌, ◌≤◌, ◌<◌, ◌*◌, ◌^◌, IfSome};
ghost use Rattle.zk_code.specs.Reach.{address_in, branch_address, called_at, constant_call, constant_jump};
ghost use Rattle.zk_code.specs.Reach.{first_constant, goes_on, is_call, is_jump, jump_address, printing_goes_on};
ghost use Rattle.zk_code.specs.Reach.{routine_goes_on, saving_goes_on};

use crate::branch::{BranchTarget, jump_target};
use crate::instr::Instr;
use crate::opcode::{Control, Opcode, Printing, Routine, Saving};
use zk_mem::header::unpack;
use zk_mem::memory::Memory;

fn routine_goes_on(operation: Routine) -> bool
    ensures { result ≡ routine_goes_on operation }
{
    matches!(operation, Routine::Catch | Routine::CheckArgCount)
}

fn printing_goes_on(operation: Printing) -> bool
    ensures { result ≡ printing_goes_on operation }
{
    !matches!(operation, Printing::PrintRet)
}

fn saving_goes_on(operation: Saving) -> bool
    ensures { result ≡ saving_goes_on operation }
{
    !matches!(operation, Saving::Restart)
}

/// Whether an opcode is `jump`.
pub fn is_jump(opcode: Opcode) -> bool
    ensures { result ≡ is_jump opcode }
{
    matches!(opcode, Opcode::Control(Control::Jump))
}

fn is_call(opcode: Opcode) -> bool
    ensures { result ≡ is_call opcode }
{
    matches!(opcode, Opcode::Call(_))
}

/// Whether what stands after an instruction of an opcode may be carried out after it: not after a return, `throw`,
/// `jump`, `quit` and `restart` (Standard, section 15).
#[tactic(auto, unfolding(crate::specs::Reach::goes_on))]
pub fn goes_on(opcode: Opcode) -> bool
    ensures { result ≡ goes_on opcode }
{
    match opcode {
        Opcode::Routine(operation) => routine_goes_on(operation),
        Opcode::Control(_) => false,
        Opcode::Printing(operation) => printing_goes_on(operation),
        Opcode::Saving(operation) => saving_goes_on(operation),
        _ => true,
    }
}

impl BranchTarget {
    /// The byte address of a target inside the story.
    pub fn address(self) -> Option<u32>
        ensures { result ≡ address_in self }
    {
        match self {
            BranchTarget::At(address) => Some(address),
            _ => None,
        }
    }
}

/// The first operand of an instruction, where it is a constant.
pub fn first_constant(instr: &Instr) -> Option<u16>
    ensures { result ≡ first_constant instr.now.operands }
{
    match instr.operands.as_slice() {
        [] => None,
        [first, ..] => first.constant(),
    }
}

impl Instr {
    /// The byte address where the branch leads, where that is one in the story (Standard, section 4.7).
    #[tactic(auto, unfolding(crate::specs::Reach::branch_address))]
    pub fn branch_address(&self) -> Option<u32>
        ensures { result ≡ branch_address self.now }
    {
        match self.branch {
            Some(branch) => branch.target.address(),
            None => None,
        }
    }

    /// Where a `jump` by a constant leads (Standard, section 15).
    #[tactic(auto, unfolding(crate::specs::Reach::constant_jump))]
    pub fn constant_jump(&self, memory: &Memory) -> Option<BranchTarget>
        requires { self.now.next ≤ 2 ^ 20 }
        ensures { result ≡ constant_jump memory.now self.now }
    {
        if !is_jump(self.opcode) {
            return None;
        }
        match first_constant(self) {
            Some(offset) => Some(jump_target(memory.len(), self.next, offset)),
            None => None,
        }
    }

    /// The byte address where a `jump` by a constant leads, where that is one in the story.
    #[tactic(auto, unfolding(crate::specs::Reach::jump_address))]
    pub fn jump_address(&self, memory: &Memory) -> Option<u32>
        requires { self.now.next ≤ 2 ^ 20 }
        ensures { result ≡ jump_address memory.now self.now }
    {
        match self.constant_jump(memory) {
            Some(target) => target.address(),
            None => None,
        }
    }

    /// The byte address that is called by a constant other than 0 (Standard, section 6.4): there need be no routine.
    #[tactic(auto, unfolding(crate::specs::Reach::constant_call))]
    pub fn constant_call(&self, memory: &Memory) -> Option<u32>
        ensures value { result ≡ constant_call memory.now self.now }
        ensures near { IfSome result (λ a. a ≤ 8 * 65535) }
    {
        if !is_call(self.opcode) {
            return None;
        }
        match first_constant(self) {
            None | Some(0) => None,
            Some(packed) => Some(unpack(memory.version(), packed)),
        }
    }
}
