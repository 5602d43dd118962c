// Which instructions were carried out, by their byte addresses.

ghost use Rattle.std.specs.Prelude.{◌≡◌, ◌<◌, ℕ, [], ◌∷◌, false, IfOk, IsTrue, replicate};

use std::alloc::{AllocError, Global};
use std::marker::Model;

/// Takes the byte addresses of instructions.
pub trait Places {
    ghost use Rattle.std.specs.Prelude.{List, ℕ, [], ◌++◌};

    // what came of one that was given addresses
    ghost noted: { Self → Self → List ℕ → Type 0 };

    // an address for which there is room
    ghost fits: { Self → ℕ → Type 0 };

    /// Notes an address, where there is room for it.
    fn note(&mut self, address: u32)
        ensures { noted self.old self.new (address ∷ []) };

    /// Notes an address for which there is room.
    fn note_fitting(&mut self, address: usize)
        requires { fits self.old address }
        ensures { noted self.old self.new (address ∷ []) };

    /// Whether there is room for all addresses below one.
    fn fits_below(&self, end: u32) -> bool
        ensures { IsTrue result → (address : ℕ) → address < end → fits self.now address };

    ghost nothing: { (a : Self) → noted a a [] };

    ghost still_fits: { (a b : Self) (s : List ℕ) (address : ℕ) → noted a b s → fits a address
        → fits b address };

    ghost twice: { (a b c : Self) (s t : List ℕ) → noted a b s → noted b c t
        → noted a c (s ++ t) };
}

/// Notes nothing.
#[derive(Clone, Copy, Drop)]
pub struct Unnoted;

impl Places for Unnoted {
    ghost noted = { λ _ _ _. Unit {0} };

    ghost fits = { λ _ _. Unit {0} };

    #[inline(always)]
    fn note(&mut self, _address: u32) {}

    #[inline(always)]
    fn note_fitting(&mut self, _address: usize) {}

    #[inline(always)]
    fn fits_below(&self, _end: u32) -> bool {
        true
    }

    ghost nothing = { λ _. tt };

    ghost still_fits = { λ _ _ _ _ _ _. tt };

    ghost twice = { λ _ _ _ _ _ _ _. tt };
}

/// The set of the addresses below a bound that were noted.
#[derive(Drop)]
pub struct Cover {
    marks: Vec<bool>,
}

impl Model for Cover {
    ghost use Rattle.std.specs.Prelude.{Bool, List};

    ghost Value = { List Bool };

    ghost view = { λ m. m.marks.items };
}

impl Cover {
    /// None of the addresses below a bound.
    pub fn new(alloc: Global, bound: usize) -> Result<Cover, AllocError>
        ensures { IfOk result (λ m. m ≡ replicate bound false) }
    {
        let marks = vec![in alloc; false; bound]?;
        Ok(Cover { marks })
    }

    /// Whether each address was noted, from 0 up to the bound.
    pub fn marks(&self) -> &[bool]
        ensures { result.now ≡ self.now }
    {
        self.marks.as_slice()
    }
}

impl Places for Cover {
    ghost use Rattle.zk_fast.specs.Covers.{Covers, IsBelowBound, covers_nothing, covers_twice, still_fits};

    ghost noted = { Covers };

    ghost fits = { IsBelowBound };

    #[inline(always)]
    fn note(&mut self, address: u32) {
        let at = address as usize;
        if at < self.marks.len() {
            self.marks[at] = true;
        }
    }

    #[inline(always)]
    fn note_fitting(&mut self, address: usize) {
        self.marks[address] = true;
    }

    #[inline(always)]
    fn fits_below(&self, end: u32) -> bool {
        end as usize <= self.marks.len()
    }

    ghost nothing = { covers_nothing };

    ghost still_fits = { still_fits };

    ghost twice = { covers_twice };
}
