// A page of its own for a story.
#![tactic(auto)]

pub mod page;
