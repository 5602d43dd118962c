// Playing a story by calls, each of which is answered by numbers and bytes: what the library for C exports.
#![tactic(auto)]

mod bounded;
mod collected;
pub mod drawing;
pub mod examples;
pub mod facts;
pub mod files;
pub mod handle;
pub mod laws;
pub mod listing;
mod listing_run;
pub mod looking;
mod loose;
pub mod marks;
mod name;
pub mod numbers;
pub mod options;
pub mod play;
pub mod reasons;
pub mod text;
mod typed;
