// Which misuse an instruction is.

ghost use Rattle.std.specs.Prelude.{◌≡◌};
ghost use Rattle.zk_strict.specs.Misuses.{access_misuse, array_misuse, call_misuse, constant_at, insert_misuse};
ghost use Rattle.zk_strict.specs.Misuses.{misuse_at, misuse_by, misuse_next, misuse_of_constants, misuse_of_values};
ghost use Rattle.zk_strict.specs.Misuses.{watched_by, watched_change};

use crate::arrays::outside;
use crate::values::{first_value, second_value};
use zk_code::decode::decode;
use zk_code::instr::Instr;
use zk_code::opcode::{Array, ObjectChange, Opcode};
use zk_code::operands::Operands;
use zk_mem::memory::Memory;
use zk_step::state::game_state::GameState;

/// Where an array lies.
#[derive(Clone, Copy, PartialEq, Drop)]
pub struct Extent {
    /// Its byte address.
    pub address: u32,
    /// How many bytes it has.
    pub length: u32,
}

/// What lies outside of an array.
#[derive(Clone, Copy, PartialEq, Drop)]
pub struct Outside {
    /// The number of the array in the list of them, from 0.
    pub array: usize,
    /// The byte address that is read or written.
    pub address: u32,
}

/// What the Standard lets pass, and an author hardly means.
#[derive(Clone, Copy, PartialEq, Drop)]
pub enum Misuse {
    /// A byte or a word is read that lies outside of the array that the first operand is in.
    Read(Outside),
    /// A byte or a word is written that lies outside of it.
    Written(Outside),
    /// Routine 0 is called, which does nothing and returns false (Z-Machine Standards Document 1.1, section 6.4.3).
    CallOfZero,
    /// An object is inserted into itself.
    IntoItself(u16),
}

/// What an instruction does that may be a misuse.
#[derive(Clone, Copy, Drop)]
pub(crate) enum Watched {
    /// Reads or writes an array.
    Access(Array),
    /// Calls a routine.
    Call,
    /// Inserts an object into another.
    Insert,
}

fn watched_change(change: ObjectChange) -> Option<Watched>
    ensures { result ≡ watched_change change }
{
    match change {
        ObjectChange::InsertObj => Some(Watched::Insert),
        _ => None,
    }
}

/// What an opcode does that may be a misuse, if it does.
fn watched_by(opcode: Opcode) -> Option<Watched>
    ensures { result ≡ watched_by opcode }
{
    match opcode {
        Opcode::Array(operation) => Some(Watched::Access(operation)),
        Opcode::Call(_) => Some(Watched::Call),
        Opcode::ObjectChange(change) => watched_change(change),
        _ => None,
    }
}

fn access_misuse(operation: Array, found: Outside) -> Misuse
    ensures { result ≡ access_misuse operation found }
{
    match operation {
        Array::Loadw | Array::Loadb => Misuse::Read(found),
        Array::Storew | Array::Storeb => Misuse::Written(found),
    }
}

fn array_misuse(
    arrays: &[Extent],
    operation: Array,
    first: Option<u16>,
    second: Option<u16>,
) -> Option<Misuse>
    ensures { result ≡ array_misuse arrays.now operation first second }
{
    let found = outside(arrays, operation, first?, second?)?;
    Some(access_misuse(operation, found))
}

fn call_misuse(first: Option<u16>) -> Option<Misuse>
    ensures { result ≡ call_misuse first }
{
    if first? == 0 {
        Some(Misuse::CallOfZero)
    } else {
        None
    }
}

fn insert_misuse(first: Option<u16>, second: Option<u16>) -> Option<Misuse>
    ensures { result ≡ insert_misuse first second }
{
    let object = first?;
    let parent = second?;
    if object == parent && object != 0 {
        Some(Misuse::IntoItself(object))
    } else {
        None
    }
}

/// The misuse that an instruction is, by what it does and the values of its first two operands, as far as they are
/// known.
fn misuse_by(
    arrays: &[Extent],
    what: Watched,
    first: Option<u16>,
    second: Option<u16>,
) -> Option<Misuse>
    ensures { result ≡ misuse_by arrays.now what first second }
{
    match what {
        Watched::Access(operation) => array_misuse(arrays, operation, first, second),
        Watched::Call => call_misuse(first),
        Watched::Insert => insert_misuse(first, second),
    }
}

/// The value of the operand at an index, where it is a constant.
fn constant_at(operands: &Operands, index: usize) -> Option<u16>
    ensures { result ≡ constant_at operands.now index }
{
    match operands.get(index) {
        Some(operand) => operand.constant(),
        None => None,
    }
}

/// The misuse that an instruction is by its constant operands.
#[tactic(auto, unfolding(crate::specs::Misuses::misuse_of))]
fn misuse_of_constants(arrays: &[Extent], instr: &Instr) -> Option<Misuse>
    ensures { result ≡ misuse_of_constants arrays.now instr.now }
{
    let what = watched_by(instr.opcode)?;
    let first = constant_at(&instr.operands, 0);
    let second = constant_at(&instr.operands, 1);
    misuse_by(arrays, what, first, second)
}

/// The misuse that an instruction is by the values that a step takes for its operands.
#[tactic(auto, unfolding(crate::specs::Misuses::misuse_of))]
fn misuse_of_values(arrays: &[Extent], game: &GameState, instr: &Instr) -> Option<Misuse>
    ensures { result ≡ misuse_of_values arrays.now game.now instr.now }
{
    let what = watched_by(instr.opcode)?;
    let operands = instr.operands.as_slice();
    let first = first_value(game, operands);
    let second = second_value(game, operands);
    misuse_by(arrays, what, first, second)
}

/// The misuse that the instruction at a byte address is, as far as its constant operands tell it without a run. `None`
/// where they tell none, and where no instruction is spelled there.
pub fn misuse_at(memory: &Memory, arrays: &[Extent], address: u32) -> Option<Misuse>
    ensures { result ≡ misuse_at memory.now arrays.now address }
{
    match decode(memory, address) {
        Ok(instr) => misuse_of_constants(arrays, &instr),
        Err(_) => None,
    }
}

/// The misuse that the instruction at a byte address is, where a run carries it out next, by the values that its first
/// two operands have there. `None` where they tell none, and where no instruction is spelled there. An operand whose
/// variable isn't there, or that finds the evaluation stack empty, has no value: a step stops at it.
pub fn misuse_next(game: &GameState, arrays: &[Extent], address: u32) -> Option<Misuse>
    ensures { result ≡ misuse_next game.now arrays.now address }
{
    match decode(&game.memory, address) {
        Ok(instr) => misuse_of_values(arrays, game, &instr),
        Err(_) => None,
    }
}
