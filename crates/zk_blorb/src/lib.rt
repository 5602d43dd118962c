// Finds the story in a Blorb file, and tells what another file is by its first bytes.
#![tactic(auto)]

mod chunk;
pub mod examples;
mod index;
pub mod looks;
pub mod story;
