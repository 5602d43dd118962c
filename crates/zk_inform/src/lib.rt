// The names that a story has itself, as a debugging file of Inform.
#![tactic(auto)]

mod bytes;
pub mod document;
pub mod examples;
mod last;
mod markup;
mod naming;
mod table;
