// Listings with notes, counts, marks and pictures.
#![tactic(auto)]

mod addresses;
pub mod calls;
pub mod counts;
pub mod cover;
pub mod examples;
pub mod findings;
pub mod graph;
pub mod info_notes;
pub mod lines;
pub mod listed_texts;
pub mod missing;
pub mod picture;
pub mod pieces;
