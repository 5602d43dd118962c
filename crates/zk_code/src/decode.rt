// From bytes to an instruction.

ghost use Rattle.std.specs.Prelude.{ℕ, [], Ok, Err, IfErr, MatchResult, ◌≡◌, ◌≤◌, ◌<◌, ◌+◌, ◌^◌, length, IfOk, OnOk};
ghost use Rattle.zk_mem.specs.declared.fault.Fault.{Fault};
ghost use Rattle.zk_code.specs.declared.instr.Instr.{Instr};
ghost use Rattle.zk_code.specs.Grammar.{IsInstruction, IsRefusal};
ghost use Rattle.zk_code.specs.Ends.{AreEnds, KnowsEnds};
ghost use Rattle.zk_code.specs.Reading.{operand_at, operands_at, store_at, branch_by, branch_here, branch_at, text_at};
ghost use Rattle.zk_code.specs.Reading.{instr_at};

use crate::branch::{Branch, target_of_branch};
use crate::bytes::{read_byte, read_word};
use crate::ends::{BlockEnds, TextEnds, text_end};
use crate::head::read_head;
use crate::instr::Instr;
use crate::operands::{Operand, OperandType, Operands};
use crate::table::Follows;
use zk_mem::fault::Fault;
use zk_mem::memory::Memory;

#[tactic(auto, unfolding(crate::specs::Reading::operand_at))]
fn read_operand(
    memory: &Memory,
    operand_type: OperandType,
    address: u32,
) -> Result<(Operand, u32), Fault>
    requires { address ≤ 2 ^ 20 }
    ensures value { result ≡ operand_at memory.now operand_type address }
    ensures near { IfOk result (λ x. x.1 ≤ 2 ^ 20) }
{
    match operand_type {
        OperandType::LargeConstant => Ok((
            Operand::Large(read_word(memory, address)?),
            address + 2,
        )),
        OperandType::SmallConstant => Ok((
            Operand::Small(read_byte(memory, address)?),
            address + 1,
        )),
        OperandType::VariableNumber => Ok((
            Operand::Variable(read_byte(memory, address)?),
            address + 1,
        )),
        OperandType::Omitted => Ok((Operand::Small(0), address)),
    }
}

/// Puts the operands of some types, which stand from a byte address on, into a list: the address after them.
#[tactic(auto, using(crate::proofs::OperandSteps::of_read_operands))]
#[inline(never)]
fn read_operands(
    memory: &Memory,
    types: &[OperandType],
    address: u32,
    operands: &mut Operands,
) -> Result<u32, Fault>
    requires near { address ≤ 2 ^ 20 }
    requires few { length types.now ≤ 8 }
    requires none { operands.old ≡ [] }
    ensures value { MatchResult result
        (λ next. operands_at memory.now types.now address ≡ Ok (operands.new, next))
        (λ e. operands_at memory.now types.now address ≡ Err e) }
    ensures near { IfOk result (λ next. next ≤ 2 ^ 20) }
{
    let mut at = address;
    for operand_type in types {
        if operand_type.is_omitted() {
            return Ok(at);
        }
        let (operand, next) = read_operand(memory, *operand_type, at)?;
        operands.push(operand);
        at = next;
    }
    Ok(at)
}

#[tactic(auto, unfolding(crate::specs::Reading::store_at))]
fn read_store(memory: &Memory, follows: Follows, address: u32) -> Result<(Option<u8>, u32), Fault>
    requires { address ≤ 2 ^ 20 }
    ensures value { result ≡ store_at memory.now follows address }
    ensures near { IfOk result (λ x. x.1 ≤ 2 ^ 20) }
{
    if follows.stores() {
        Ok((Some(read_byte(memory, address)?), address + 1))
    } else {
        Ok((None, address))
    }
}

#[tactic(auto, unfolding(crate::specs::Reading::branch_by))]
fn read_branch_by(memory: &Memory, address: u32, first: u8) -> Result<(Branch, u32), Fault>
    requires { address < 524288 }
    ensures value { result ≡ branch_by memory.now address first }
    ensures near { IfOk result (λ x. x.1 ≤ 2 ^ 20) }
{
    let on = first >= 0x80;
    let length = memory.len();
    if first % 128 < 64 {
        let low = read_byte(memory, address + 1)?;
        let offset = 256 * (first % 64) as u16 + low as u16;
        let target = target_of_branch(length, address + 2, offset);
        Ok((Branch { on, target }, address + 2))
    } else {
        let target = target_of_branch(length, address + 1, (first % 64) as u16);
        Ok((Branch { on, target }, address + 1))
    }
}

/// The branch whose bytes begin at a byte address, and the address after it (Z-Machine Standards Document 1.1,
/// section 4.7). Where one of its bytes lies outside the story this is `CodePastEnd`.
#[tactic(auto, unfolding(crate::specs::Reading::branch_here))]
pub fn decode_branch(memory: &Memory, address: u32) -> Result<(Branch, u32), Fault>
    ensures value { result ≡ branch_here memory.now address }
    ensures near { IfOk result (λ x. x.1 ≤ 2 ^ 20) }
{
    let first = read_byte(memory, address)?;
    read_branch_by(memory, address, first)
}

#[tactic(auto, unfolding(crate::specs::Reading::branch_at))]
fn read_branch(
    memory: &Memory,
    follows: Follows,
    address: u32,
) -> Result<(Option<Branch>, u32), Fault>
    requires { address ≤ 2 ^ 20 }
    ensures value { result ≡ branch_at memory.now follows address }
    ensures near { IfOk result (λ x. x.1 ≤ 2 ^ 20) }
{
    if follows.branches() {
        let (branch, next) = decode_branch(memory, address)?;
        Ok((Some(branch), next))
    } else {
        Ok((None, address))
    }
}

#[tactic(auto, unfolding(crate::specs::Reading::text_at))]
fn read_text(
    memory: &Memory,
    blocks: &[Option<BlockEnds>],
    follows: Follows,
    address: u32,
) -> Result<(Option<u32>, u32), Fault>
    requires near { address ≤ 2 ^ 20 }
    requires known { AreEnds memory.now blocks.now }
    ensures value { result ≡ text_at memory.now follows address }
    ensures near { IfOk result (λ x. x.1 ≤ 2 ^ 20) }
{
    if follows.has_text() {
        // the end lies inside the story
        memory.len();
        let end = text_end(memory, blocks, address).ok_or(Fault::CodePastEnd)?;
        Ok((Some(address), end))
    } else {
        Ok((None, address))
    }
}

/// Reads an instruction into one that has no operands yet, so that it is not moved part by part.
#[tactic(auto, unfolding(crate::specs::Reading::instr_at))]
#[inline(never)]
fn fill_instr(
    memory: &Memory,
    blocks: &[Option<BlockEnds>],
    address: u32,
    instr: &mut Instr,
) -> Result<(), Fault>
    requires known { AreEnds memory.now blocks.now }
    requires none { instr.old.operands ≡ [] }
    ensures value { MatchResult result (λ _. instr_at memory.now address ≡ Ok instr.new)
        (λ e. instr_at memory.now address ≡ Err e) }
    ensures near { OnOk result (instr.new.next ≤ 2 ^ 20) }
{
    let head = read_head(memory, address)?;
    let follows = head.entry.follows;
    let at = read_operands(memory, &head.types, head.next, &mut instr.operands)?;
    let (store, at) = read_store(memory, follows, at)?;
    let (branch, at) = read_branch(memory, follows, at)?;
    let (text, next) = read_text(memory, blocks, follows, at)?;
    if instr.operands.len() < head.entry.least as usize {
        return Err(Fault::MissingOperand);
    }
    instr.opcode = head.entry.opcode;
    instr.store = store;
    instr.branch = branch;
    instr.text = text;
    instr.next = next;
    Ok(())
}

fn read_instr(memory: &Memory, blocks: &[Option<BlockEnds>], address: u32) -> Result<Instr, Fault>
    requires { AreEnds memory.now blocks.now }
    ensures value { result ≡ instr_at memory.now address }
    ensures near { IfOk result (λ i. i.next ≤ 2 ^ 20) }
{
    let mut instr = Instr::empty();
    match fill_instr(memory, blocks, address, &mut instr) {
        Ok(()) => Ok(instr),
        Err(fault) => Err(fault),
    }
}

/// The instruction at an address (Standard, section 4).
///
/// `BadOpcode` where the bytes of an opcode are there, and the story's version has no such opcode.
/// Else `CodePastEnd` where a byte of the instruction, its text included, lies past the story's end.
/// `MissingOperand`, looked for last, where it has fewer operands than its opcode takes.
#[tactic(auto, using(crate::proofs::Whole::is_found, crate::proofs::Whole::is_only, crate::proofs::Cut::is_refused))]
pub fn decode(memory: &Memory, address: u32) -> Result<Instr, Fault>
    // What is answered is spelled there.
    ensures found { IfOk result (λ i. IsInstruction memory.now address i i.next) }
    // What is spelled there is answered, so it is the only one.
    ensures only { (i : Instr) (b : ℕ) → IsInstruction memory.now address i b
        → (result ≡ Ok i) × (i.next ≡ b) }
    // A refusal has its reason.
    ensures refused { IfErr result (IsRefusal memory.now address) }
    // Where a refusal's reason is there, it is the answer.
    ensures refuses { (d : Fault) → IsRefusal memory.now address d → result ≡ Err d }

    ensures value { result ≡ instr_at memory.now address }
    ensures near { IfOk result (λ i. i.next ≤ 2 ^ 20) }
{
    memory.has_bytes();
    read_instr(memory, &[], address)
}

/// The instruction at an address, as `decode` has it, by what is known of where texts end: so a text is not read to its
/// end for each instruction that it belongs to.
#[tactic(auto, using(crate::proofs::Whole::is_found, crate::proofs::Whole::is_only, crate::proofs::Cut::is_refused))]
pub fn decode_by(memory: &Memory, ends: &TextEnds, address: u32) -> Result<Instr, Fault>
    requires { KnowsEnds memory.now ends.now }
    ensures found { IfOk result (λ i. IsInstruction memory.now address i i.next) }
    ensures only { (i : Instr) (b : ℕ) → IsInstruction memory.now address i b
        → (result ≡ Ok i) × (i.next ≡ b) }
    ensures value { result ≡ instr_at memory.now address }
    ensures near { IfOk result (λ i. i.next ≤ 2 ^ 20) }
{
    memory.has_bytes();
    read_instr(memory, ends.blocks.as_slice(), address)
}
