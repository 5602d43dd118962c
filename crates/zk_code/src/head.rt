// What comes before the operands: the opcode, and the types of the operands.

ghost use Rattle.std.specs.Prelude.{◌≡◌, ◌≤◌, ◌<◌, ◌^◌, IfOk};
ghost use Rattle.zk_code.specs.Reading.{type_by_bits, type_by_bit, types_at, with_types, with_type_bytes, extended_at};
ghost use Rattle.zk_code.specs.Reading.{head_by, head_at};

use crate::bytes::read_byte;
use crate::operands::OperandType;
use crate::table::{
    OpcodeRow, extended_of, one_operand_of, two_operand_of, two_type_bytes, variable_operand_of,
    zero_operand_of,
};
use zk_mem::fault::Fault;
use zk_mem::memory::Memory;

/// The opcode of an instruction, the types of its operands, and the address of the first of them.
#[derive(Drop)]
pub(crate) struct Head {
    pub entry: OpcodeRow,
    /// Filled up with `Omitted`.
    pub types: [OperandType; 8],
    pub next: u32,
}

fn type_of_bits(bits: u8) -> OperandType
    ensures { result ≡ type_by_bits bits }
{
    match bits {
        0 => OperandType::LargeConstant,
        1 => OperandType::SmallConstant,
        2 => OperandType::VariableNumber,
        _ => OperandType::Omitted,
    }
}

fn type_of_bit(bit: u8) -> OperandType
    ensures { result ≡ type_by_bit bit }
{
    if bit == 0 {
        OperandType::SmallConstant
    } else {
        OperandType::VariableNumber
    }
}

#[tactic(auto, unfolding(crate::specs::Reading::types_at))]
fn read_types(memory: &Memory, two: bool, address: u32) -> Result<([OperandType; 8], u32), Fault>
    requires { address ≤ 2 ^ 20 }
    ensures value { result ≡ types_at memory.now two address }
    ensures near { IfOk result (λ x. x.1 ≤ 2 ^ 20) }
{
    let none = OperandType::Omitted;
    let byte = read_byte(memory, address)?;
    let first = type_of_bits(byte / 64);
    let second = type_of_bits(byte / 16 % 4);
    let third = type_of_bits(byte / 4 % 4);
    let fourth = type_of_bits(byte % 4);
    if two {
        let more = read_byte(memory, address + 1)?;
        let fifth = type_of_bits(more / 64);
        let sixth = type_of_bits(more / 16 % 4);
        let seventh = type_of_bits(more / 4 % 4);
        let eighth = type_of_bits(more % 4);
        Ok((
            [first, second, third, fourth, fifth, sixth, seventh, eighth],
            address + 2,
        ))
    } else {
        Ok((
            [first, second, third, fourth, none, none, none, none],
            address + 1,
        ))
    }
}

/// The head whose opcode byte has the types.
#[tactic(auto, unfolding(crate::specs::Reading::with_types))]
fn head_of(
    entry: Option<OpcodeRow>,
    first: OperandType,
    second: OperandType,
    address: u32,
) -> Result<Head, Fault>
    requires { address ≤ 2 ^ 20 }
    ensures value { result ≡ with_types entry first second address }
    ensures near { IfOk result (λ h. h.next ≤ 2 ^ 20) }
{
    let none = OperandType::Omitted;
    let entry = entry.ok_or(Fault::BadOpcode)?;
    Ok(Head {
        entry,
        types: [first, second, none, none, none, none, none, none],
        next: address,
    })
}

/// The head whose types stand in type bytes, from `address` on.
#[tactic(auto, unfolding(crate::specs::Reading::with_type_bytes))]
fn read_head_of(
    memory: &Memory,
    entry: Option<OpcodeRow>,
    two: bool,
    address: u32,
) -> Result<Head, Fault>
    requires { address ≤ 2 ^ 20 }
    ensures value { result ≡ with_type_bytes memory.now entry two address }
    ensures near { IfOk result (λ h. h.next ≤ 2 ^ 20) }
{
    let entry = entry.ok_or(Fault::BadOpcode)?;
    let (types, next) = read_types(memory, two, address)?;
    Ok(Head { entry, types, next })
}

#[tactic(auto, unfolding(crate::specs::Reading::extended_at))]
fn read_extended(memory: &Memory, address: u32) -> Result<Head, Fault>
    requires { address ≤ 524288 }
    ensures value { result ≡ extended_at memory.now address }
    ensures near { IfOk result (λ h. h.next ≤ 2 ^ 20) }
{
    let number = read_byte(memory, address)?;
    read_head_of(
        memory,
        extended_of(number, memory.version()),
        false,
        address + 1,
    )
}

/// The head whose first byte, at `address`, is known.
#[tactic(auto, unfolding(crate::specs::Reading::head_by))]
fn read_head_by(memory: &Memory, address: u32, byte: u8) -> Result<Head, Fault>
    requires { address < 524288 }
    ensures value { result ≡ head_by memory.now address byte }
    ensures near { IfOk result (λ h. h.next ≤ 2 ^ 20) }
{
    let version = memory.version();
    let none = OperandType::Omitted;
    if byte < 0x80 {
        let first = type_of_bit(byte / 64 % 2);
        let second = type_of_bit(byte / 32 % 2);
        head_of(
            two_operand_of(byte % 32, version),
            first,
            second,
            address + 1,
        )
    } else if byte < 0xb0 {
        let first = type_of_bits(byte / 16 % 4);
        head_of(one_operand_of(byte % 16, version), first, none, address + 1)
    } else if byte == 0xbe && version >= 5 {
        read_extended(memory, address + 1)
    } else if byte < 0xc0 {
        head_of(zero_operand_of(byte % 16, version), none, none, address + 1)
    } else if byte < 0xe0 {
        read_head_of(
            memory,
            two_operand_of(byte % 32, version),
            false,
            address + 1,
        )
    } else {
        let two = two_type_bytes(byte % 32);
        read_head_of(
            memory,
            variable_operand_of(byte % 32, version),
            two,
            address + 1,
        )
    }
}

#[tactic(auto, unfolding(crate::specs::Reading::head_at))]
pub(crate) fn read_head(memory: &Memory, address: u32) -> Result<Head, Fault>
    ensures value { result ≡ head_at memory.now address }
    ensures near { IfOk result (λ h. h.next ≤ 2 ^ 20) }
{
    let byte = read_byte(memory, address)?;
    read_head_by(memory, address, byte)
}
