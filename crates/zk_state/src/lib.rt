// The frames of the routines that have called one another, within bounds.
#![tactic(auto)]

pub mod examples;
pub mod frames;
mod records;
pub mod refusal;
