// The text of a story: Z-characters, ZSCII, Unicode and the keys of words.
#![tactic(auto)]

mod abbreviations;
pub mod alphabet;
pub mod buffer;
mod checking;
pub mod examples;
pub mod extra;
pub mod key;
pub mod laws;
pub mod pieces;
pub mod printing;
pub mod shown;
pub mod sink;
pub mod sweep;
pub mod text;
pub mod unit;
pub mod walked;
