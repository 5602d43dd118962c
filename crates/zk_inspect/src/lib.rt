// Lists, disassembles and checks stories, without running them.
#![tactic(auto)]

pub mod check;
pub mod examples;
pub mod fact;
pub mod laws;
pub mod line_text;
pub mod listing;
pub mod objects;
pub mod plain_text;
pub mod reach;
pub mod section;
pub mod texts;
pub mod whole;
