// Notes on the instructions of a disassembly.

ghost use Rattle.std.specs.Prelude.{◌≡◌, ◌<◌, ◌+◌, ◌++◌, ◌≤◌, ◌^◌, codes, decimal};
ghost use Rattle.std.specs.List.{flat_map, list_any, range_with_len};
ghost use Rattle.zk_code.specs.Operands.{constant_of};
ghost use Rattle.zk_text.specs.Meaning.{text_units};
ghost use Rattle.zk_tables.specs.Properties.{name_of};
ghost use Rattle.zk_inspect.specs.Listing.{names_variable};
ghost use Rattle.zk_inspect.specs.ObjectLines.{name_text};
ghost use Rattle.zk_inspect.specs.Notes.{asked_meaning, asked_second, changed_second, constant_note, first_meaning};
ghost use Rattle.zk_inspect.specs.Notes.{global_note, has_variable, is_number, is_variable, notes, operand_note};
ghost use Rattle.zk_inspect.specs.Notes.{operand_notes, place_note, printed_meaning, refers_to, routine_note};
ghost use Rattle.zk_inspect.specs.Notes.{second_meaning, second_note, short_text};

use crate::listing::global_lines::write_place;
use crate::listing::object_lines::write_name;
use crate::listing::shortening::write_short;
use crate::reach::operands::names_variable;
use zk_code::instr::Instr;
use zk_code::opcode::{ObjectChange, ObjectQuestion, Opcode, Printing};
use zk_code::operands::Operand;
use zk_code::routines::local_count;
use zk_mem::header::unpack;
use zk_mem::memory::Memory;
use zk_term::line_writer::LineWriter;
use zk_term::writing::{write_address, write_decimal};

/// What a constant operand stands for (Z-Machine Standards Document 1.1, section 15).
#[derive(Clone, Copy, Drop)]
pub(crate) enum Meaning {
    Number,
    /// The packed address of a routine.
    Routine,
    /// The packed address of a text.
    PackedText,
    /// The byte address of a text.
    Text,
    Object,
}

fn printed_meaning(operation: Printing) -> Meaning
    ensures { result ≡ printed_meaning operation }
{
    match operation {
        Printing::PrintAddr => Meaning::Text,
        Printing::PrintPaddr => Meaning::PackedText,
        Printing::PrintObj => Meaning::Object,
        _ => Meaning::Number,
    }
}

fn asked_meaning(question: ObjectQuestion) -> Meaning
    ensures { result ≡ asked_meaning question }
{
    match question {
        ObjectQuestion::GetPropLen => Meaning::Number,
        _ => Meaning::Object,
    }
}

/// What a constant that is the first operand of an opcode stands for.
fn first_meaning(opcode: Opcode) -> Meaning
    ensures { result ≡ first_meaning opcode }
{
    match opcode {
        Opcode::Call(_) => Meaning::Routine,
        Opcode::Printing(operation) => printed_meaning(operation),
        Opcode::ObjectChange(_) => Meaning::Object,
        Opcode::ObjectQuestion(question) => asked_meaning(question),
        _ => Meaning::Number,
    }
}

fn changed_second(change: ObjectChange) -> Meaning
    ensures { result ≡ changed_second change }
{
    match change {
        ObjectChange::InsertObj => Meaning::Object,
        _ => Meaning::Number,
    }
}

fn asked_second(question: ObjectQuestion) -> Meaning
    ensures { result ≡ asked_second question }
{
    match question {
        ObjectQuestion::Jin => Meaning::Object,
        _ => Meaning::Number,
    }
}

/// What a constant that is the second operand of an opcode stands for.
fn second_meaning(opcode: Opcode) -> Meaning
    ensures { result ≡ second_meaning opcode }
{
    match opcode {
        Opcode::ObjectChange(change) => changed_second(change),
        Opcode::ObjectQuestion(question) => asked_second(question),
        _ => Meaning::Number,
    }
}

/// Writes the byte address that a call leads to, and whether a routine stands there.
#[tactic(auto, unfolding(crate::specs::Notes::routine_note))]
fn write_routine_note<P: LineWriter>(writer: &mut P, memory: &Memory, address: u32)
    ensures { P.wrote writer.old writer.new (routine_note memory.now address) }
{
    if local_count(memory, address).is_some() {
        write_address(writer, b"  ; routine ", address);
    } else {
        write_address(writer, b"  ; ", address);
    }
}

/// Writes what the text at a byte address prints, shortened, as a note.
fn write_text_note<P: LineWriter>(writer: &mut P, memory: &Memory, address: u32)
    ensures { P.wrote writer.old writer.new
        (codes "  ; " ++ short_text memory.now (text_units memory.now address)) }
{
    writer.write(b"  ; ");
    write_short(writer, memory, address);
}

/// Writes the short name of an object as a note.
fn write_name_note<P: LineWriter>(writer: &mut P, memory: &Memory, object: u16)
    ensures { P.wrote writer.old writer.new
        (codes "  ; " ++ name_text memory.now (name_of memory.now object)) }
{
    writer.write(b"  ; ");
    write_name(writer, memory, object);
}

/// Writes the short name of an object as a note, where it is one.
#[tactic(auto, unfolding(crate::specs::Notes::constant_note))]
fn write_object_note<P: LineWriter>(writer: &mut P, memory: &Memory, object: u16)
    ensures { P.wrote writer.old writer.new (constant_note memory.now Meaning.Object object) }
{
    if object == 0 {
        return;
    }
    write_name_note(writer, memory, object);
}

/// Writes what a call of a packed address leads to as a note.
#[tactic(auto, unfolding(crate::specs::Notes::constant_note))]
fn write_call_note<P: LineWriter>(writer: &mut P, memory: &Memory, packed: u16)
    ensures { P.wrote writer.old writer.new (constant_note memory.now Meaning.Routine packed) }
{
    if packed == 0 {
        return;
    }
    write_routine_note(writer, memory, unpack(memory.version(), packed));
}

/// Writes what a constant stands for.
#[tactic(auto, unfolding(crate::specs::Notes::constant_note))]
fn write_constant_note<P: LineWriter>(writer: &mut P, memory: &Memory, meaning: Meaning, value: u16)
    ensures { P.wrote writer.old writer.new (constant_note memory.now meaning value) }
{
    match meaning {
        Meaning::Number => {}
        Meaning::Routine => write_call_note(writer, memory, value),
        Meaning::PackedText => write_text_note(writer, memory, unpack(memory.version(), value)),
        Meaning::Text => write_text_note(writer, memory, value as u32),
        Meaning::Object => write_object_note(writer, memory, value),
    }
}

/// Writes what an operand stands for, where it is a constant.
fn write_operand_note<P: LineWriter>(
    writer: &mut P,
    memory: &Memory,
    meaning: Meaning,
    operand: Operand,
)
    ensures { P.wrote writer.old writer.new (operand_note memory.now meaning (constant_of operand)) }
{
    match operand.constant() {
        Some(value) => write_constant_note(writer, memory, meaning, value),
        None => {}
    }
}

/// Writes what the second operand stands for, the first of those after another.
fn write_second_note<P: LineWriter>(
    writer: &mut P,
    memory: &Memory,
    instr: &Instr,
    rest: &[Operand],
)
    ensures { P.wrote writer.old writer.new (second_note memory.now instr.now rest.now) }
{
    match rest {
        [] => {}
        [second, ..] => {
            write_operand_note(writer, memory, second_meaning(instr.opcode), *second)
        }
    }
}

/// Writes what the operands stand for.
#[tactic(auto, unfolding(crate::specs::Notes::operand_notes))]
fn write_operand_notes<P: LineWriter>(writer: &mut P, memory: &Memory, instr: &Instr)
    ensures { P.wrote writer.old writer.new
        (operand_notes memory.now instr.now instr.now.operands) }
{
    match instr.operands.as_slice() {
        [] => {}
        [first, rest @ ..] => {
            write_operand_note(writer, memory, first_meaning(instr.opcode), *first);
            write_second_note(writer, memory, instr, rest);
        }
    }
}

/// Whether an operand is a variable.
fn is_variable(number: u8, operand: Operand) -> bool
    ensures { result ≡ is_variable number operand }
{
    match operand {
        Operand::Variable(other) => other == number,
        _ => false,
    }
}

/// Whether one of some operands is a variable.
fn have_variable(number: u8, operands: &[Operand]) -> bool
    ensures { result ≡ list_any (is_variable number) operands.now }
{
    for operand in operands {
        if is_variable(number, *operand) {
            return true;
        }
    }
    false
}

/// Whether the first of some operands names a variable by a constant.
fn refer_to(opcode: Opcode, number: u8, operands: &[Operand]) -> bool
    ensures { result ≡ refers_to opcode number operands.now }
{
    match operands {
        [] => false,
        [first, ..] => names_variable(opcode) && is_constant(number, *first),
    }
}

/// Whether an operand is a constant with a value.
fn is_constant(number: u8, operand: Operand) -> bool
    ensures { result ≡ is_number number (constant_of operand) }
{
    match operand.constant() {
        None => false,
        Some(value) => value == number as u16,
    }
}

/// Whether a result goes to a variable.
fn is_stored(number: u8, store: Option<u8>) -> bool
    ensures { result ≡ is_number number store }
{
    match store {
        None => false,
        Some(other) => other == number,
    }
}

/// Whether an instruction reads a variable, stores to it, or names it.
fn has_variable(instr: &Instr, number: u8) -> bool
    ensures { result ≡ has_variable instr.now number }
{
    let operands = instr.operands.as_slice();
    is_stored(number, instr.store)
        || have_variable(number, operands)
        || refer_to(instr.opcode, number, operands)
}

/// Writes where the value of a global variable stands.
fn write_place_note<P: LineWriter>(writer: &mut P, memory: &Memory, number: u8)
    ensures { P.wrote writer.old writer.new (place_note memory.now number) }
{
    write_decimal(writer, b"  ; g", number as u32);
    writer.write(b" at ");
    write_place(writer, memory, number);
}

/// Writes where the value of a global variable stands, where an instruction has it.
fn write_global_note<P: LineWriter>(writer: &mut P, memory: &Memory, instr: &Instr, number: u8)
    requires { number < 240 }
    ensures { P.wrote writer.old writer.new (global_note memory.now instr.now number) }
{
    if has_variable(instr, number + 16) {
        write_place_note(writer, memory, number);
    }
}

/// Writes where the values of the global variables stand that an instruction has.
fn write_global_notes<P: LineWriter>(writer: &mut P, memory: &Memory, instr: &Instr)
    ensures { P.wrote writer.old writer.new
        (flat_map (global_note memory.now instr.now) (range_with_len 0 240)) }
{
    for number in 0..240 {
        write_global_note(writer, memory, instr, number);
    }
}

/// Writes the notes on an instruction.
#[tactic(auto, unfolding(crate::specs::Notes::notes))]
pub(crate) fn write_notes<P: LineWriter>(writer: &mut P, memory: &Memory, instr: &Instr)
    ensures { P.wrote writer.old writer.new (notes memory.now instr.now) }
{
    write_operand_notes(writer, memory, instr);
    write_global_notes(writer, memory, instr);
}
