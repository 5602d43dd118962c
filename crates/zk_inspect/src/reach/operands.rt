// Operands, store variables and branches of a disassembly.

ghost use Rattle.std.specs.Prelude.{◌≡◌, ◌≤◌, ◌^◌, ◌∷◌, ◌++◌};
ghost use Rattle.std.specs.List.{flat_map};
ghost use Rattle.zk_code.specs.Operands.{constant_of};
ghost use Rattle.zk_inspect.specs.Listing.{branch_text, first_text, further_text, jump_text, names_variable};
ghost use Rattle.zk_inspect.specs.Listing.{operand_text, operands_text, reference_text, store_text, takes_variable};
ghost use Rattle.zk_inspect.specs.Listing.{target_text, variable_text};

use crate::listing::writing::{write_byte, write_word};
use zk_code::branch::{Branch, BranchTarget as Destination};
use zk_code::instr::Instr;
use zk_code::opcode::{Assignment, Opcode};
use zk_code::operands::Operand;
use zk_code::ways::is_jump;
use zk_mem::memory::Memory;
use zk_term::line_writer::LineWriter;
use zk_term::writing::{write_address, write_decimal, write_texts};

/// Writes a variable after a text.
#[tactic(auto, unfolding(crate::specs::Listing::variable_text))]
fn write_variable<P: LineWriter>(writer: &mut P, before: &[u8], number: u8)
    ensures { P.wrote writer.old writer.new (before.now ++ variable_text number) }
{
    if number == 0 {
        write_texts(writer, &[before, b"sp"]);
    } else if number < 16 {
        writer.write(before);
        write_decimal(writer, b"l", number as u32);
    } else {
        writer.write(before);
        write_decimal(writer, b"g", (number - 16) as u32);
    }
}

/// Writes an operand after a text.
#[tactic(auto, unfolding(crate::specs::Listing::operand_text))]
fn write_operand<P: LineWriter>(writer: &mut P, before: &[u8], operand: Operand)
    ensures { P.wrote writer.old writer.new (before.now ++ operand_text operand) }
{
    match operand {
        Operand::Large(value) => write_word(writer, before, value),
        Operand::Small(value) => write_byte(writer, before, value),
        Operand::Variable(number) => write_variable(writer, before, number),
    }
}

/// Writes the variable that takes a result, where there is one.
#[tactic(auto, unfolding(crate::specs::Listing::store_text))]
pub(crate) fn write_store<P: LineWriter>(writer: &mut P, store: Option<u8>)
    ensures { P.wrote writer.old writer.new (store_text store) }
{
    match store {
        Some(number) => write_variable(writer, b" -> ", number),
        None => {}
    }
}

/// Writes where a branch leads, after a text.
#[tactic(auto, unfolding(crate::specs::Listing::target_text))]
fn write_destination<P: LineWriter>(writer: &mut P, before: &[u8], destination: Destination)
    ensures { P.wrote writer.old writer.new (before.now ++ target_text destination) }
{
    match destination {
        Destination::ReturnFalse => write_texts(writer, &[before, b"rfalse"]),
        Destination::ReturnTrue => write_texts(writer, &[before, b"rtrue"]),
        Destination::At(address) => write_address(writer, before, address),
        Destination::Below(distance) => {
            writer.write(before);
            write_address(writer, b"-", distance);
        }
        Destination::Past(address) => write_address(writer, before, address),
    }
}

/// Writes a branch, where there is one.
#[tactic(auto, unfolding(crate::specs::Listing::branch_text))]
pub(crate) fn write_branch<P: LineWriter>(writer: &mut P, branch: Option<Branch>)
    ensures { P.wrote writer.old writer.new (branch_text branch) }
{
    match branch {
        Some(branch) if branch.on => write_destination(writer, b" ?", branch.target),
        Some(branch) => write_destination(writer, b" ?~", branch.target),
        None => {}
    }
}

/// Whether the first operand of an operation on variables is the number of one.
fn takes_variable(operation: Assignment) -> bool
    ensures { result ≡ takes_variable operation }
{
    !matches!(operation, Assignment::Pop)
}

/// Whether the first operand of an opcode is the number of a variable.
pub(crate) fn names_variable(opcode: Opcode) -> bool
    ensures { result ≡ names_variable opcode }
{
    match opcode {
        Opcode::Assignment(operation) => takes_variable(operation),
        _ => false,
    }
}

/// Writes an operand that is the number of a variable, after a space.
fn write_reference<P: LineWriter>(writer: &mut P, operand: Operand)
    ensures { P.wrote writer.old writer.new (32 ∷ reference_text operand (constant_of operand)) }
{
    match operand.constant() {
        Some(number) => {
            if number < 256 {
                write_variable(writer, b" &", number as u8)
            } else {
                write_operand(writer, b" ", operand)
            }
        }
        None => write_operand(writer, b" ", operand),
    }
}

/// Writes the operand of a jump after a space.
fn write_jump<P: LineWriter>(writer: &mut P, operand: Operand, destination: Option<u32>)
    ensures { P.wrote writer.old writer.new (32 ∷ jump_text operand destination) }
{
    match destination {
        Some(address) => write_address(writer, b" ", address),
        None => write_operand(writer, b" ", operand),
    }
}

/// Writes the first operand of an instruction after a space.
#[tactic(auto, unfolding(crate::specs::Listing::first_text))]
fn write_first<P: LineWriter>(memory: &Memory, instr: &Instr, operand: Operand, writer: &mut P)
    requires { instr.now.next ≤ 2 ^ 20 }
    ensures { P.wrote writer.old writer.new (32 ∷ first_text memory.now instr.now operand) }
{
    if names_variable(instr.opcode) {
        write_reference(writer, operand)
    } else if is_jump(instr.opcode) {
        write_jump(writer, operand, instr.jump_address(memory))
    } else {
        write_operand(writer, b" ", operand)
    }
}

/// Writes the operands after the first, each after a space.
fn write_further<P: LineWriter>(writer: &mut P, operands: &[Operand])
    ensures { P.wrote writer.old writer.new (flat_map further_text operands.now) }
{
    for operand in operands {
        write_operand(writer, b" ", *operand);
    }
}

/// Writes the operands of an instruction, each after a space.
#[tactic(auto, unfolding(crate::specs::Listing::operands_text))]
pub(crate) fn write_operands<P: LineWriter>(memory: &Memory, instr: &Instr, writer: &mut P)
    requires { instr.now.next ≤ 2 ^ 20 }
    ensures { P.wrote writer.old writer.new (operands_text memory.now instr.now instr.now.operands) }
{
    match instr.operands.as_slice() {
        [] => {}
        [first, rest @ ..] => {
            write_first(memory, instr, *first, writer);
            write_further(writer, rest);
        }
    }
}
