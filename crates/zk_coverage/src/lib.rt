// Reports of what ran of a story, by the lines of its source.
#![tactic(auto)]

pub mod examples;
pub mod html;
pub mod lcov;
pub mod lines;
pub mod ran;
pub mod summary;
pub(crate) mod tally;
pub(crate) mod writing;
