// What a run does next: what the Standard lets pass and an author hardly means, and which texts it prints by addresses.
#![tactic(auto)]

mod arrays;
pub mod examples;
pub mod laws;
pub mod misuse;
mod stack;
pub mod texts;
mod values;
