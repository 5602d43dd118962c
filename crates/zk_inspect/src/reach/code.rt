// The code of a story.

ghost use Rattle.std.specs.Prelude.{◌≡◌, [], ◌∷◌, ◌++◌, IfOk, OnOk, reverse, slice_get, if◌then◌else◌};

use std::alloc::{AllocError, Global};
use std::marker::Model;

/// A list of byte addresses.
#[derive(Drop)]
pub struct Addresses {
    list: Vec<u32>,
}

impl Model for Addresses {
    ghost use Rattle.std.specs.Prelude.{List, ℕ};

    ghost Value = { List ℕ };

    ghost view = { λ a. a.list.items };
}

impl Addresses {
    pub(crate) fn new(alloc: Global) -> Addresses
        ensures { result ≡ [] }
    {
        Addresses {
            list: Vec::new(alloc),
        }
    }

    /// An address alone, where something holds.
    pub(crate) fn only_if(alloc: Global, holds: bool, address: u32) -> Result<Addresses, AllocError>
        ensures { IfOk result (λ list. list ≡ (if holds then address ∷ [] else [])) }
    {
        let mut list = Addresses::new(alloc);
        if holds {
            list.push(address)?;
        }
        Ok(list)
    }

    pub(crate) fn push(&mut self, address: u32) -> Result<(), AllocError>
        ensures { OnOk result (self.new ≡ self.old ++ address ∷ []) }
    {
        self.list.push(address)?;
        Ok(())
    }

    /// The same addresses, the last one first.
    pub(crate) fn reversed(&self, alloc: Global) -> Result<Addresses, AllocError>
        ensures { IfOk result (λ list. list ≡ reverse self.now) }
    {
        let list = self.list.iter().rev().copied().collect(alloc)?;
        Ok(Addresses { list })
    }

    /// The address at an index, counted from 0.
    pub fn get(&self, index: usize) -> Option<u32>
        ensures { result ≡ slice_get self.now index }
    {
        self.list.get(index).copied()
    }

    pub fn as_slice(&self) -> &[u32]
        ensures { result.now ≡ self.now }
    {
        self.list.as_slice()
    }
}

/// The reachable code of a story: what a run comes to from its first instruction on by what stands in the instructions,
/// and the routines that are called there by a constant. Both lists ascend, and have each address once.
#[derive(Drop)]
pub struct Code {
    /// The byte addresses of instructions. There need be none: code may lead to data, or to the story's end.
    pub addresses: Addresses,
    /// The byte addresses of routines.
    pub routines: Addresses,
}
