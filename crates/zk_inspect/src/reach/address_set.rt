// Marks on addresses.

ghost use Rattle.std.specs.Prelude.{◌≡◌, ◌<◌, ◌≤◌, ◌^◌, ℕ, true, false, IfOk, length, get_or, replicate, slice_set};
ghost use Rattle.zk_inspect.specs.Lists.{IsListOf, IsMarked};

use crate::reach::code::Addresses;
use std::alloc::{AllocError, Global};
use std::marker::Model;

/// Which addresses below a bound are marked.
#[derive(Drop)]
pub(crate) struct AddressSet {
    bits: Vec<bool>,
}

impl Model for AddressSet {
    ghost use Rattle.std.specs.Prelude.{Bool, List};

    ghost Value = { List Bool };

    ghost view = { λ m. m.bits.items };
}

impl AddressSet {
    /// None of the addresses below a bound.
    pub fn none(alloc: Global, bound: usize) -> Result<AddressSet, AllocError>
        ensures { IfOk result (λ m. m ≡ replicate bound false) }
    {
        let bits = vec![in alloc; false; bound]?;
        Ok(AddressSet { bits })
    }

    /// Whether an address is marked.
    pub fn has(&self, address: u32) -> bool
        requires { address < length self.now }
        ensures { result ≡ get_or self.now address false }
    {
        self.bits[address as usize]
    }

    /// Whether an address is marked. At or above the bound none is.
    pub fn is_marked(&self, address: u32) -> bool
        ensures { result ≡ get_or self.now address false }
    {
        self.bits.get(address as usize).copied().unwrap_or(false)
    }

    /// Marks an address.
    pub fn mark(&mut self, address: u32)
        requires { address < length self.old }
        ensures { self.new ≡ slice_set self.old address true }
    {
        self.bits[address as usize] = true;
    }

    /// The marked addresses.
    pub fn list(&self, alloc: Global) -> Result<Addresses, AllocError>
        requires { length self.now ≤ 2 ^ 20 }
        ensures { IfOk result (λ list. IsListOf (IsMarked self.now) list) }
    {
        list_marked(alloc, self.bits.as_slice())
    }
}

fn list_marked(alloc: Global, bits: &[bool]) -> Result<Addresses, AllocError>
    requires { length bits.now ≤ 2 ^ 20 }
    ensures { IfOk result (λ list. IsListOf (IsMarked bits.now) list) }
{
    let mut list = Addresses::new(alloc);
    for i in 0..bits.len() {
        if bits[i] {
            list.push(i as u32)?;
        }
    }
    Ok(list)
}

/// No marks, below a bound.
pub(crate) fn unmarked(alloc: Global, bound: u32) -> Result<AddressSet, AllocError>
    ensures size { IfOk result (λ marks. length marks ≡ bound) }
    ensures none { IfOk result (λ marks. (a : ℕ) → IsMarked marks a → ⊥) }
{
    AddressSet::none(alloc, bound as usize)
}
