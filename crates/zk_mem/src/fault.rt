// What a story may do wrong.

ghost use Rattle.std.specs.Prelude.{◌≡◌};
ghost use Rattle.zk_mem.specs.Faults.{fault_number};

use std::fmt::{self, Display, Formatter, Write};
use thiserror::Error;

/// Why an instruction can't be carried out.
#[derive(Clone, Copy, Debug, PartialEq, Eq, Drop, Error)]
pub enum Fault {
    CodePastEnd,
    BadOpcode,
    MissingOperand,
    StackEmpty,
    NoSuchLocal,
    BadAddress,
    ReadOnly,
    DivisionByZero,
    BadObject,
    BadProperty,
    BadTree,
    TextPastEnd,
    NestedAbbreviation,
    StreamDepth,
    BadFrame,
    ReturnFromMain,
    BadTarget,
    BadDictionary,
}

impl Fault {
    /// The number that reports name the fault by.
    pub fn number(self) -> u8
        ensures { result ≡ fault_number self }
    {
        match self {
            Fault::CodePastEnd => 1,
            Fault::BadOpcode => 2,
            Fault::MissingOperand => 3,
            Fault::StackEmpty => 4,
            Fault::NoSuchLocal => 5,
            Fault::BadAddress => 6,
            Fault::ReadOnly => 7,
            Fault::DivisionByZero => 8,
            Fault::BadObject => 9,
            Fault::BadProperty => 10,
            Fault::BadTree => 11,
            Fault::TextPastEnd => 12,
            Fault::NestedAbbreviation => 13,
            Fault::StreamDepth => 14,
            Fault::BadFrame => 15,
            Fault::ReturnFromMain => 16,
            Fault::BadTarget => 17,
            Fault::BadDictionary => 18,
        }
    }

    /// What is wrong, in words.
    pub fn text(self) -> &'static str {
        match self {
            Fault::CodePastEnd => "the instruction runs past the end of the story",
            Fault::BadOpcode => "no such opcode in this version",
            Fault::MissingOperand => "too few operands",
            Fault::StackEmpty => "the evaluation stack of the frame is empty",
            Fault::NoSuchLocal => "the routine has no such local variable",
            Fault::BadAddress => "the address lies outside readable memory",
            Fault::ReadOnly => "the address lies in static memory",
            Fault::DivisionByZero => "division by zero",
            Fault::BadObject => "no such object",
            Fault::BadProperty => "no such property, or a property list without an end",
            Fault::BadTree => "the object tree goes round in a circle, or misses the object",
            Fault::TextPastEnd => "a text runs past the end of the story",
            Fault::NestedAbbreviation => "an abbreviation inside an abbreviation",
            Fault::StreamDepth => "too many open tables of output stream 3",
            Fault::BadFrame => "no such frame",
            Fault::ReturnFromMain => "a return from the first frame",
            Fault::BadTarget => "a branch, jump or call that leads out of the story",
            Fault::BadDictionary =>
                "the dictionary lies outside readable memory, or its entries are too short",
        }
    }
}

impl Display for Fault {
    fn fmt<W: Write>(&self, f: &mut Formatter<W>) -> fmt::Result {
        f.write_str(self.text())
    }
}
