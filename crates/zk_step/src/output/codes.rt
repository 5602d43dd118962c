// The codes of one step for a table of stream 3.

ghost use Rattle.std.specs.Prelude.{◌≡◌, ◌≤◌, [], ◌∷◌, ◌++◌, length, IfOk, OnOk, OnErr};

use std::alloc::{AllocError, Global};
use std::marker::Model;

/// So many codes fit, more than any table takes.
const MOST_CODES: usize = 65_536;

/// The list of codes that one step gives a table. All of its room is taken when it is made.
#[derive(Drop)]
pub struct Codes {
    list: Vec<u8>,
}

/// There is no room for a code.
#[derive(Clone, Copy, Drop)]
pub(crate) struct Full;

impl Model for Codes {
    ghost use Rattle.std.specs.Prelude.{List, ℕ, ◌≤◌, length};
    ghost use Rattle.std.specs.Vec.{vec_capacity};

    ghost Value = { List ℕ };

    ghost view = { λ c. c.list.items };

    ghost invariant = { λ c. (65536 ≤ vec_capacity c.list) × (length c.list.items ≤ 65536) };
}

impl Codes {
    /// An empty list.
    pub fn new(alloc: Global) -> Result<Codes, AllocError>
        ensures { IfOk result (λ c. c ≡ []) }
    {
        let list = Vec::with_capacity(alloc, MOST_CODES)?;
        Ok(Codes { list })
    }

    /// Forgets all codes.
    pub(crate) fn clear(&mut self)
        ensures { self.new ≡ [] }
    {
        self.list.truncate(0);
    }

    /// Adds a code, where there is room.
    #[inline(always)]
    pub(crate) fn push(&mut self, code: u8) -> Result<(), Full>
        ensures ok { OnOk result (self.new ≡ self.old ++ code ∷ []) }
        ensures err { OnErr result ((self.new ≡ self.old) × (length self.old ≡ 65536)) }
    {
        if self.list.len() >= MOST_CODES {
            return Err(Full);
        }
        self.list.push_reserved(code);
        Ok(())
    }

    /// The codes, in order.
    pub(crate) fn as_slice(&self) -> &[u8]
        ensures value { result.now ≡ self.now }
        ensures few { length result.now ≤ 65536 }
    {
        self.list.as_slice()
    }
}
