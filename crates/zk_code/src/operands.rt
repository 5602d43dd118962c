// The operands of an instruction, as they stand in the code.

ghost use Rattle.std.specs.Prelude.{◌≡◌, ◌↔◌, ◌<◌, ◌≤◌, [], ◌∷◌, ◌++◌, length, slice_get, IsTrue};

use arrayvec::ArrayVec;
use std::marker::Model;

/// How an operand is given (Standard, section 4.2).
#[derive(Clone, Copy, Drop)]
pub enum OperandType {
    /// A constant of two bytes.
    LargeConstant,
    /// A constant of one byte.
    SmallConstant,
    /// The number of a variable, in one byte.
    VariableNumber,
    /// No operand.
    Omitted,
}

impl OperandType {
    ghost use Rattle.zk_code.specs.Operands.{is_omitted};

    pub(crate) fn is_omitted(self) -> bool
        ensures { result ≡ is_omitted self }
    {
        matches!(self, OperandType::Omitted)
    }
}

/// An operand.
#[derive(Clone, Copy, PartialEq, Eq, Drop)]
pub enum Operand {
    /// A constant given in two bytes.
    Large(u16),
    /// A constant given in one byte.
    Small(u8),
    /// The number of a variable.
    Variable(u8),
}

impl Default for Operand {
    ghost use Rattle.std.specs.Prelude.{◌≡◌};
    ghost use Rattle.zk_code.specs.declared.operands.Operand.TheVariants.{Small};

    ghost is_default = { λ o. o ≡ Small 0 };

    fn default() -> Operand {
        Operand::Small(0)
    }
}

impl Operand {
    ghost use Rattle.zk_code.specs.Operands.{constant_of};

    /// The value of a constant, and `None` for a variable.
    pub fn constant(self) -> Option<u16>
        ensures { result ≡ constant_of self }
    {
        match self {
            Operand::Large(value) => Some(value),
            Operand::Small(value) => Some(value as u16),
            Operand::Variable(_) => None,
        }
    }
}

/// The operands of an instruction in their order, at most eight (Standard, section 4.5.1).
#[derive(Drop)]
pub struct Operands {
    list: ArrayVec<Operand, 8>,
}

impl Model for Operands {
    ghost use Rattle.std.specs.Prelude.{List};
    ghost use Rattle.zk_code.specs.declared.operands.Operand.{Operand};

    ghost Value = { List Operand };

    ghost view = { λ o. o.list.items };
}

impl Operands {
    pub(crate) fn new() -> Operands
        ensures { result ≡ [] }
    {
        Operands {
            list: ArrayVec::new(),
        }
    }

    pub(crate) fn push(&mut self, operand: Operand)
        requires { length self.old < 8 }
        ensures { self.new ≡ self.old ++ operand ∷ [] }
    {
        self.list.push(operand);
    }

    pub fn len(&self) -> usize
        ensures value { result ≡ length self.now }
        ensures bound { length self.now ≤ 8 }
    {
        self.list.len()
    }

    pub fn is_empty(&self) -> bool
        ensures { IsTrue result ↔ (length self.now ≡ 0) }
    {
        self.list.is_empty()
    }

    /// The operand at an index, counted from 0.
    pub fn get(&self, index: usize) -> Option<Operand>
        ensures { result ≡ slice_get self.now index }
    {
        self.list.get(index).copied()
    }

    pub fn as_slice(&self) -> &[Operand]
        ensures value { result.now ≡ self.now }
        ensures bound { length result.now ≤ 8 }
    {
        self.list.as_slice()
    }
}
