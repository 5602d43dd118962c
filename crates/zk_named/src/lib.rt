// Listings by the names that a story's source has.
#![tactic(auto)]

pub mod code;
pub mod examples;
mod headings;
pub mod labels;
pub mod meanings;
pub mod places;
mod plain;
pub mod source_lines;
pub mod tables;
mod words;
