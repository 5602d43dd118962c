// Addresses that were named, and at which nothing is listed.

use crate::addresses::push_found;
use crate::cover::{decoded_of, routine_of};
use std::alloc::{AllocError, Global};
use zk_facts::outcome::Facts;

/// Those of some addresses that are not among others, which ascend.
fn others(alloc: Global, addresses: &[u32], listed: &[u32]) -> Result<Vec<u32>, AllocError> {
    let mut missing = Vec::new(alloc);
    for address in addresses {
        if listed.binary_search(address).is_err() {
            missing.push(*address)?;
        }
    }
    Ok(missing)
}

/// Those of some addresses at which no instruction is listed, or a question mark in place of one.
pub fn without_instruction(
    alloc: Global,
    facts: &Facts<'_>,
    addresses: &[u32],
) -> Result<Vec<u32>, AllocError> {
    let mut listed = Vec::new(alloc);
    for fact in facts.list {
        push_found(&mut listed, decoded_of(facts.memory, *fact))?;
    }
    listed.sort_unstable();
    others(alloc, addresses, listed.as_slice())
}

/// Those of some addresses at which no routine is listed.
pub fn without_routine(
    alloc: Global,
    facts: &Facts<'_>,
    addresses: &[u32],
) -> Result<Vec<u32>, AllocError> {
    let mut listed = Vec::new(alloc);
    for fact in facts.list {
        push_found(&mut listed, routine_of(*fact))?;
    }
    listed.sort_unstable();
    others(alloc, addresses, listed.as_slice())
}
