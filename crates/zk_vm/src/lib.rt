// The machine that runs a story.
#![tactic(auto)]

pub mod examples;
pub mod laws;
pub mod limits;
pub mod machine;
pub mod play;
pub mod saving_examples;
pub mod slot;
pub mod stop;
mod transcript;
mod waiting;
