// Saved games, and states to go back to.
#![tactic(auto)]

mod checks;
pub mod examples;
pub mod laws;
mod packed_state;
pub mod packing;
mod parts;
mod reading;
pub mod restore;
pub mod save;
pub mod undo;
mod writes;
