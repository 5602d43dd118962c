// The tables of a story: its objects with their tree, attributes and properties, and its dictionaries.
#![tactic(auto)]

pub mod arrays;
pub mod attributes;
mod chain;
pub mod dictionary;
pub mod examples;
pub mod laws;
mod layout;
pub mod links;
pub mod lists;
pub mod parsing;
pub mod properties;
mod signed;
mod tokens;
pub mod tree;
pub mod words;
