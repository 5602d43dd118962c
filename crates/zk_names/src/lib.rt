// Inform's debugging files, and the names that they give to what stands in a story.
#![tactic(auto)]

pub mod damage;
pub(crate) mod document;
pub mod examples;
pub mod named;
pub mod names;
pub(crate) mod routines;
pub(crate) mod section;
pub(crate) mod taking;
pub mod text;
