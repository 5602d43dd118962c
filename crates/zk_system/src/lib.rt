// What the program does with the system's files and its terminal: saved games, transcripts, records and lists of paths;
// questions, pages and lines that are held back.
#![tactic(auto)]

pub mod asking;
mod beside;
pub mod files;
pub mod held_prompt;
pub mod keeping;
mod no_game;
pub mod paged;
pub mod reason;
pub mod record;
pub mod same_file;
pub mod save_file;
pub mod script;
pub mod shown;
pub mod style_codes;
pub mod style_marks;
pub mod terminal;
pub mod typed_bytes;
pub mod watched;
