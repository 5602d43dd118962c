// Walkthroughs of stories, and what differs from a play that was kept.
#![tactic(auto)]

pub mod difference;
pub mod examples;
pub mod kinds;
mod lines;
pub mod search;
mod settings;
pub mod walkthrough;
