// Facts about stories, in forms for other programs: rows of fields, and JSON.
#![tactic(auto)]

pub mod document;
pub mod examples;
mod members;
pub mod objects;
pub mod outcome;
pub mod rows;
pub mod texts;
mod values;
