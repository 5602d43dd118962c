// Why a call is refused.

ghost use Rattle.std.specs.Prelude.{◌≡◌};
ghost use Rattle.zk_state.specs.Limits.{limit_number};

use std::fmt::{self, Display, Formatter, Write};
use thiserror::Error;
use zk_mem::fault::Fault;

/// A bound of the interpreter that a story has reached.
#[derive(Clone, Copy, Debug, PartialEq, Eq, Drop, Error)]
pub enum Limit {
    Frames,
    Words,
    Steps,
    Reads,
}

impl Limit {
    /// The number that reports name the limit by.
    pub fn number(self) -> u8
        ensures { result ≡ limit_number self }
    {
        match self {
            Limit::Frames => 1,
            Limit::Words => 2,
            Limit::Steps => 3,
            Limit::Reads => 4,
        }
    }

    /// What there is too much of, in words.
    pub fn text(self) -> &'static str {
        match self {
            Limit::Frames => "too many frames",
            Limit::Words => "too many words in the frames",
            Limit::Steps => "too many instructions since the last read",
            Limit::Reads => "too many reads",
        }
    }
}

impl Display for Limit {
    fn fmt<W: Write>(&self, f: &mut Formatter<W>) -> fmt::Result {
        f.write_str(self.text())
    }
}

/// A fault of the story, or a limit of the interpreter.
#[derive(Clone, Copy, Debug, PartialEq, Eq, Drop, Error)]
pub enum Refusal {
    Fault(Fault),
    Limit(Limit),
}

impl Display for Refusal {
    fn fmt<W: Write>(&self, f: &mut Formatter<W>) -> fmt::Result {
        let text = match self {
            Refusal::Fault(fault) => fault.text(),
            Refusal::Limit(limit) => limit.text(),
        };
        f.write_str(text)
    }
}

impl From<Fault> for Refusal {
    ghost use Rattle.std.specs.Prelude.{◌≡◌};
    ghost use Rattle.zk_state.specs.declared.refusal.Refusal.TheVariants as refusal;

    ghost from_gives = { λ fault made. made ≡ refusal.Fault fault };

    fn from(fault: Fault) -> Refusal {
        Refusal::Fault(fault)
    }
}
