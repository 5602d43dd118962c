// Snapshots: a machine that waits for a line or a character is kept as bytes, and goes on from them later.
#![tactic(auto)]

pub mod laws;
pub mod opening;
mod reading;
pub mod snapshot;
mod states;
mod sums;
mod writing;
