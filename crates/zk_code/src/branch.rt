// Branches, and where they and jumps lead.

ghost use Rattle.std.specs.Prelude.{◌≡◌, ◌≤◌, ◌<◌, ◌+◌, ◌^◌};
ghost use Rattle.zk_code.specs.Targets.{landing, offset_target, branch_target, jump_target};

/// Where a branch or a jump leads (Standard, sections 4.7.1 and 4.7.2).
#[derive(Clone, Copy, PartialEq, Eq, Drop)]
pub enum BranchTarget {
    /// The routine returns false.
    ReturnFalse,
    /// The routine returns true.
    ReturnTrue,
    /// A byte address inside the story.
    At(u32),
    /// So many bytes before the story's first one.
    Below(u32),
    /// A byte address at or past the story's end.
    Past(u32),
}

/// The branch of an instruction (Standard, section 4.7).
#[derive(Clone, Copy, PartialEq, Eq, Drop)]
pub struct Branch {
    /// Whether it is taken where the condition holds, or else where it does not hold.
    pub on: bool,
    pub target: BranchTarget,
}

/// The place `up` less `down` of a story.
fn place(length: u32, up: u32, down: u32) -> BranchTarget
    ensures { result ≡ landing length up down }
{
    if up < down {
        return BranchTarget::Below(down - up);
    }
    let address = up - down;
    if address < length {
        BranchTarget::At(address)
    } else {
        BranchTarget::Past(address)
    }
}

/// Where an offset leads that has so many values in two's complement.
#[tactic(auto, unfolding(crate::specs::Targets::offset_target))]
fn by_offset(length: u32, values: u32, from: u32, offset: u16) -> BranchTarget
    requires from { from ≤ 2 ^ 20 }
    requires values { values ≤ 2 ^ 16 }
    ensures { result ≡ offset_target length values from offset }
{
    let up = from + offset as u32;
    if (offset as u32) < values / 2 {
        place(length, up, 2)
    } else {
        place(length, up, values + 2)
    }
}

/// Where a branch leads, by its offset of 14 bits, from the address after it.
#[tactic(auto, unfolding(crate::specs::Targets::branch_target))]
pub(crate) fn target_of_branch(length: u32, after: u32, offset: u16) -> BranchTarget
    requires { after ≤ 2 ^ 20 }
    ensures { result ≡ branch_target length after offset }
{
    match offset {
        0 => BranchTarget::ReturnFalse,
        1 => BranchTarget::ReturnTrue,
        _ => by_offset(length, 0x4000, after, offset),
    }
}

/// Where `jump` leads by the value of its operand, in a story of `length` bytes, from the address
/// `next` after the instruction (Standard, section 15). It never returns.
#[tactic(auto, unfolding(crate::specs::Targets::jump_target))]
pub fn jump_target(length: u32, next: u32, offset: u16) -> BranchTarget
    requires { next ≤ 2 ^ 20 }
    ensures { result ≡ jump_target length next offset }
{
    by_offset(length, 0x1_0000, next, offset)
}
