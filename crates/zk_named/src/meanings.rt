// What the words of an instruction's line stand for.

ghost use Rattle.std.specs.Prelude.{◌≡◌};
ghost use Rattle.zk_named.specs.Meanings.{asked_first, asked_second, by_place, changed_second, kind_of};
ghost use Rattle.zk_named.specs.Meanings.{names_variable, printed_first, takes_variable};

use zk_code::opcode::{Assignment, ObjectChange, ObjectQuestion, Opcode, Printing};

/// What a constant operand is a number or an address of (Z-Machine Standards Document 1.1, section 15).
#[derive(Clone, Copy, PartialEq, Eq, Drop)]
pub enum OperandKind {
    /// Nothing that has a name.
    Number,
    /// The packed address of a routine.
    Routine,
    Object,
    Property,
    Attribute,
    /// The byte address of an array.
    Array,
}

/// The second operand of a change of an object.
fn changed_second(change: ObjectChange) -> OperandKind
    ensures { result ≡ changed_second change }
{
    match change {
        ObjectChange::InsertObj => OperandKind::Object,
        ObjectChange::SetAttr | ObjectChange::ClearAttr => OperandKind::Attribute,
        ObjectChange::PutProp => OperandKind::Property,
        ObjectChange::RemoveObj => OperandKind::Number,
    }
}

/// The first operand of a question about an object.
fn asked_first(question: ObjectQuestion) -> OperandKind
    ensures { result ≡ asked_first question }
{
    match question {
        // the address of a property's data
        ObjectQuestion::GetPropLen => OperandKind::Number,
        _ => OperandKind::Object,
    }
}

/// The second operand of a question about an object.
fn asked_second(question: ObjectQuestion) -> OperandKind
    ensures { result ≡ asked_second question }
{
    match question {
        ObjectQuestion::Jin => OperandKind::Object,
        ObjectQuestion::TestAttr => OperandKind::Attribute,
        ObjectQuestion::GetProp | ObjectQuestion::GetPropAddr | ObjectQuestion::GetNextProp => {
            OperandKind::Property
        }
        _ => OperandKind::Number,
    }
}

/// The operand of an opcode that prints.
fn printed_first(operation: Printing) -> OperandKind
    ensures { result ≡ printed_first operation }
{
    match operation {
        Printing::PrintObj => OperandKind::Object,
        _ => OperandKind::Number,
    }
}

/// One of two operands, by their place, from 0.
fn by_place(first: OperandKind, second: OperandKind, place: usize) -> OperandKind
    ensures { result ≡ by_place first second place }
{
    match place {
        0 => first,
        1 => second,
        _ => OperandKind::Number,
    }
}

/// What a constant operand of an opcode is, by its place, from 0. Tables of bytes and words that are read, searched or
/// filled are arrays.
pub fn kind_of(opcode: Opcode, place: usize) -> OperandKind
    ensures { result ≡ kind_of opcode place }
{
    let none = OperandKind::Number;
    let array = OperandKind::Array;
    match opcode {
        Opcode::Call(_) => by_place(OperandKind::Routine, none, place),
        Opcode::Printing(operation) => by_place(printed_first(operation), none, place),
        Opcode::ObjectChange(change) => {
            by_place(OperandKind::Object, changed_second(change), place)
        }
        Opcode::ObjectQuestion(question) => {
            by_place(asked_first(question), asked_second(question), place)
        }
        Opcode::Array(_) => by_place(array, none, place),
        Opcode::Reading(_) | Opcode::Words(_) | Opcode::Table(_) => by_place(array, array, place),
        _ => none,
    }
}

/// Whether the first operand of an opcode is the number of a variable (section 15).
pub fn names_variable(opcode: Opcode) -> bool
    ensures { result ≡ names_variable opcode }
{
    match opcode {
        Opcode::Assignment(operation) => takes_variable(operation),
        _ => false,
    }
}

/// Whether an opcode on variables takes the number of one: all but `pop`.
fn takes_variable(operation: Assignment) -> bool
    ensures { result ≡ takes_variable operation }
{
    match operation {
        Assignment::Pop => false,
        _ => true,
    }
}
