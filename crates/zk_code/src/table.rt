// The opcode tables: which opcode a number is in a version, and what belongs to it.

ghost use Rattle.std.specs.Prelude.{◌≡◌, Some};
ghost use Rattle.zk_code.specs.Table.{two_operand, one_operand, zero_operand, variable_operand, extended, stores};
ghost use Rattle.zk_code.specs.Table.{branches, has_text, has_two_type_bytes};

use crate::opcode::{
    Arithmetic, Array, Assignment, Call, Comparison, Control, Idle, ObjectChange, ObjectQuestion,
    Opcode, Printing, Reading, Routine, Saving, Stream, Table, Window, Words,
};

/// What follows the operands of an instruction.
#[derive(Clone, Copy, Drop)]
pub enum Follows {
    Nothing,
    Stores,
    Branches,
    StoresBranches,
    Text,
}

impl Follows {
    pub fn stores(self) -> bool
        ensures { result ≡ stores self }
    {
        matches!(self, Follows::Stores | Follows::StoresBranches)
    }

    pub fn branches(self) -> bool
        ensures { result ≡ branches self }
    {
        matches!(self, Follows::Branches | Follows::StoresBranches)
    }

    pub fn has_text(self) -> bool
        ensures { result ≡ has_text self }
    {
        matches!(self, Follows::Text)
    }
}

/// What the opcode tables say of an opcode.
#[derive(Clone, Copy, Drop)]
pub struct OpcodeRow {
    pub opcode: Opcode,
    /// The least number of operands.
    pub least: u8,
    pub follows: Follows,
}

fn listed(opcode: Opcode, least: u8, follows: Follows) -> Option<OpcodeRow>
    ensures { result ≡ Some (record { opcode = opcode; least = least; follows = follows }) }
{
    Some(OpcodeRow {
        opcode,
        least,
        follows,
    })
}

/// The two-operand opcode (2OP) of a number.
#[tactic(auto, unfolding(crate::specs::Table::two_operand))]
pub(crate) fn two_operand_of(number: u8, version: u8) -> Option<OpcodeRow>
    ensures { result ≡ two_operand version number }
{
    match number {
        1 => listed(Opcode::Comparison(Comparison::Je), 2, Follows::Branches),
        2 => listed(Opcode::Comparison(Comparison::Jl), 2, Follows::Branches),
        3 => listed(Opcode::Comparison(Comparison::Jg), 2, Follows::Branches),
        4 => listed(Opcode::Assignment(Assignment::DecChk), 2, Follows::Branches),
        5 => listed(Opcode::Assignment(Assignment::IncChk), 2, Follows::Branches),
        6 => listed(
            Opcode::ObjectQuestion(ObjectQuestion::Jin),
            2,
            Follows::Branches,
        ),
        7 => listed(Opcode::Comparison(Comparison::Test), 2, Follows::Branches),
        8 => listed(Opcode::Arithmetic(Arithmetic::Or), 2, Follows::Stores),
        9 => listed(Opcode::Arithmetic(Arithmetic::And), 2, Follows::Stores),
        10 => listed(
            Opcode::ObjectQuestion(ObjectQuestion::TestAttr),
            2,
            Follows::Branches,
        ),
        11 => listed(
            Opcode::ObjectChange(ObjectChange::SetAttr),
            2,
            Follows::Nothing,
        ),
        12 => listed(
            Opcode::ObjectChange(ObjectChange::ClearAttr),
            2,
            Follows::Nothing,
        ),
        13 => listed(Opcode::Assignment(Assignment::Store), 2, Follows::Nothing),
        14 => listed(
            Opcode::ObjectChange(ObjectChange::InsertObj),
            2,
            Follows::Nothing,
        ),
        15 => listed(Opcode::Array(Array::Loadw), 2, Follows::Stores),
        16 => listed(Opcode::Array(Array::Loadb), 2, Follows::Stores),
        17 => listed(
            Opcode::ObjectQuestion(ObjectQuestion::GetProp),
            2,
            Follows::Stores,
        ),
        18 => listed(
            Opcode::ObjectQuestion(ObjectQuestion::GetPropAddr),
            2,
            Follows::Stores,
        ),
        19 => listed(
            Opcode::ObjectQuestion(ObjectQuestion::GetNextProp),
            2,
            Follows::Stores,
        ),
        20 => listed(Opcode::Arithmetic(Arithmetic::Add), 2, Follows::Stores),
        21 => listed(Opcode::Arithmetic(Arithmetic::Sub), 2, Follows::Stores),
        22 => listed(Opcode::Arithmetic(Arithmetic::Mul), 2, Follows::Stores),
        23 => listed(Opcode::Arithmetic(Arithmetic::Div), 2, Follows::Stores),
        24 => listed(Opcode::Arithmetic(Arithmetic::Mod), 2, Follows::Stores),
        25 if version >= 4 => listed(Opcode::Call(Call::Call2s), 2, Follows::Stores),
        26 if version >= 5 => listed(Opcode::Call(Call::Call2n), 2, Follows::Nothing),
        27 if version >= 5 => listed(Opcode::Idle(Idle::SetColour), 2, Follows::Nothing),
        28 if version >= 5 => listed(Opcode::Routine(Routine::Throw), 2, Follows::Nothing),
        _ => None,
    }
}

/// The one-operand opcode (1OP) of a number.
#[tactic(auto, unfolding(crate::specs::Table::one_operand))]
pub(crate) fn one_operand_of(number: u8, version: u8) -> Option<OpcodeRow>
    ensures { result ≡ one_operand version number }
{
    match number {
        0 => listed(Opcode::Comparison(Comparison::Jz), 1, Follows::Branches),
        1 => listed(
            Opcode::ObjectQuestion(ObjectQuestion::GetSibling),
            1,
            Follows::StoresBranches,
        ),
        2 => listed(
            Opcode::ObjectQuestion(ObjectQuestion::GetChild),
            1,
            Follows::StoresBranches,
        ),
        3 => listed(
            Opcode::ObjectQuestion(ObjectQuestion::GetParent),
            1,
            Follows::Stores,
        ),
        4 => listed(
            Opcode::ObjectQuestion(ObjectQuestion::GetPropLen),
            1,
            Follows::Stores,
        ),
        5 => listed(Opcode::Assignment(Assignment::Inc), 1, Follows::Nothing),
        6 => listed(Opcode::Assignment(Assignment::Dec), 1, Follows::Nothing),
        7 => listed(Opcode::Printing(Printing::PrintAddr), 1, Follows::Nothing),
        8 if version >= 4 => listed(Opcode::Call(Call::Call1s), 1, Follows::Stores),
        9 => listed(
            Opcode::ObjectChange(ObjectChange::RemoveObj),
            1,
            Follows::Nothing,
        ),
        10 => listed(Opcode::Printing(Printing::PrintObj), 1, Follows::Nothing),
        11 => listed(Opcode::Routine(Routine::Ret), 1, Follows::Nothing),
        12 => listed(Opcode::Control(Control::Jump), 1, Follows::Nothing),
        13 => listed(Opcode::Printing(Printing::PrintPaddr), 1, Follows::Nothing),
        14 => listed(Opcode::Assignment(Assignment::Load), 1, Follows::Stores),
        15 if version <= 4 => listed(Opcode::Arithmetic(Arithmetic::Not), 1, Follows::Stores),
        15 if version >= 5 => listed(Opcode::Call(Call::Call1n), 1, Follows::Nothing),
        _ => None,
    }
}

/// The zero-operand opcode (0OP) of a number.
#[tactic(auto, unfolding(crate::specs::Table::zero_operand))]
pub(crate) fn zero_operand_of(number: u8, version: u8) -> Option<OpcodeRow>
    ensures { result ≡ zero_operand version number }
{
    match number {
        0 => listed(Opcode::Routine(Routine::Rtrue), 0, Follows::Nothing),
        1 => listed(Opcode::Routine(Routine::Rfalse), 0, Follows::Nothing),
        2 => listed(Opcode::Printing(Printing::Print), 0, Follows::Text),
        3 => listed(Opcode::Printing(Printing::PrintRet), 0, Follows::Text),
        4 => listed(Opcode::Idle(Idle::Nop), 0, Follows::Nothing),
        5 if version <= 3 => listed(Opcode::Saving(Saving::SaveBranch), 0, Follows::Branches),
        5 if version == 4 => listed(Opcode::Saving(Saving::SaveStore), 0, Follows::Stores),
        6 if version <= 3 => listed(Opcode::Saving(Saving::RestoreBranch), 0, Follows::Branches),
        6 if version == 4 => listed(Opcode::Saving(Saving::RestoreStore), 0, Follows::Stores),
        7 => listed(Opcode::Saving(Saving::Restart), 0, Follows::Nothing),
        8 => listed(Opcode::Routine(Routine::RetPopped), 0, Follows::Nothing),
        9 if version <= 4 => listed(Opcode::Assignment(Assignment::Pop), 0, Follows::Nothing),
        9 if version >= 5 => listed(Opcode::Routine(Routine::Catch), 0, Follows::Stores),
        10 => listed(Opcode::Control(Control::Quit), 0, Follows::Nothing),
        11 => listed(Opcode::Printing(Printing::NewLine), 0, Follows::Nothing),
        12 => listed(Opcode::Window(Window::ShowStatus), 0, Follows::Nothing),
        13 => listed(Opcode::Saving(Saving::Verify), 0, Follows::Branches),
        15 if version >= 5 => listed(Opcode::Idle(Idle::Piracy), 0, Follows::Branches),
        _ => None,
    }
}

/// The variable-operand opcode (VAR) of a number.
#[tactic(auto, unfolding(crate::specs::Table::variable_operand))]
pub(crate) fn variable_operand_of(number: u8, version: u8) -> Option<OpcodeRow>
    ensures { result ≡ variable_operand version number }
{
    match number {
        0 => listed(Opcode::Call(Call::CallVs), 1, Follows::Stores),
        1 => listed(Opcode::Array(Array::Storew), 3, Follows::Nothing),
        2 => listed(Opcode::Array(Array::Storeb), 3, Follows::Nothing),
        3 => listed(
            Opcode::ObjectChange(ObjectChange::PutProp),
            3,
            Follows::Nothing,
        ),
        4 if version <= 4 => listed(Opcode::Reading(Reading::Sread), 2, Follows::Nothing),
        4 if version >= 5 => listed(Opcode::Reading(Reading::Aread), 1, Follows::Stores),
        5 => listed(Opcode::Printing(Printing::PrintChar), 1, Follows::Nothing),
        6 => listed(Opcode::Printing(Printing::PrintNum), 1, Follows::Nothing),
        7 => listed(Opcode::Random, 1, Follows::Stores),
        8 => listed(Opcode::Push, 1, Follows::Nothing),
        9 => listed(Opcode::Assignment(Assignment::Pull), 1, Follows::Nothing),
        10 => listed(Opcode::Window(Window::SplitWindow), 1, Follows::Nothing),
        11 => listed(Opcode::Window(Window::SetWindow), 1, Follows::Nothing),
        12 if version >= 4 => listed(Opcode::Call(Call::CallVs2), 1, Follows::Stores),
        13 if version >= 4 => listed(Opcode::Window(Window::EraseWindow), 1, Follows::Nothing),
        14 if version >= 4 => listed(Opcode::Window(Window::EraseLine), 1, Follows::Nothing),
        15 if version >= 4 => listed(Opcode::Window(Window::SetCursor), 2, Follows::Nothing),
        16 if version >= 4 => listed(Opcode::Window(Window::GetCursor), 1, Follows::Nothing),
        17 if version >= 4 => listed(Opcode::Window(Window::SetTextStyle), 1, Follows::Nothing),
        18 if version >= 4 => listed(Opcode::Idle(Idle::BufferMode), 1, Follows::Nothing),
        19 => listed(Opcode::Stream(Stream::OutputStream), 1, Follows::Nothing),
        20 => listed(Opcode::Stream(Stream::InputStream), 1, Follows::Nothing),
        21 => listed(Opcode::Window(Window::SoundEffect), 0, Follows::Nothing),
        22 if version >= 4 => listed(Opcode::Reading(Reading::ReadChar), 0, Follows::Stores),
        23 if version >= 4 => listed(Opcode::Table(Table::ScanTable), 3, Follows::StoresBranches),
        24 if version >= 5 => listed(Opcode::Arithmetic(Arithmetic::Not), 1, Follows::Stores),
        25 if version >= 5 => listed(Opcode::Call(Call::CallVn), 1, Follows::Nothing),
        26 if version >= 5 => listed(Opcode::Call(Call::CallVn2), 1, Follows::Nothing),
        27 if version >= 5 => listed(Opcode::Words(Words::Tokenise), 2, Follows::Nothing),
        28 if version >= 5 => listed(Opcode::Words(Words::EncodeText), 4, Follows::Nothing),
        29 if version >= 5 => listed(Opcode::Table(Table::CopyTable), 3, Follows::Nothing),
        30 if version >= 5 => listed(Opcode::Table(Table::PrintTable), 2, Follows::Nothing),
        31 if version >= 5 => listed(
            Opcode::Routine(Routine::CheckArgCount),
            1,
            Follows::Branches,
        ),
        _ => None,
    }
}

/// The extended opcode (EXT) of a number.
#[tactic(auto, unfolding(crate::specs::Table::extended))]
pub(crate) fn extended_of(number: u8, version: u8) -> Option<OpcodeRow>
    ensures { result ≡ extended version number }
{
    match number {
        0 if version >= 5 => listed(Opcode::Saving(Saving::Save), 0, Follows::Stores),
        1 if version >= 5 => listed(Opcode::Saving(Saving::Restore), 0, Follows::Stores),
        2 if version >= 5 => listed(Opcode::Arithmetic(Arithmetic::LogShift), 2, Follows::Stores),
        3 if version >= 5 => listed(Opcode::Arithmetic(Arithmetic::ArtShift), 2, Follows::Stores),
        4 if version >= 5 => listed(Opcode::Window(Window::SetFont), 1, Follows::Stores),
        9 if version >= 5 => listed(Opcode::Saving(Saving::SaveUndo), 0, Follows::Stores),
        10 if version >= 5 => listed(Opcode::Saving(Saving::RestoreUndo), 0, Follows::Stores),
        11 if version >= 5 => listed(
            Opcode::Printing(Printing::PrintUnicode),
            1,
            Follows::Nothing,
        ),
        12 if version >= 5 => listed(Opcode::Idle(Idle::CheckUnicode), 1, Follows::Stores),
        13 if version >= 5 => listed(Opcode::Idle(Idle::SetTrueColour), 2, Follows::Nothing),
        _ => None,
    }
}

/// Whether a number of VAR has a second byte of operand types.
pub(crate) fn two_type_bytes(number: u8) -> bool
    ensures { result ≡ has_two_type_bytes number }
{
    number == 12 || number == 26
}
