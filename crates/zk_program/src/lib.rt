// The commands: stories are opened and played, listed and checked, tested and unpacked, and put into pages, and it is
// told how that ended.
#![tactic(auto)]

pub mod about;
mod bad_destination;
pub mod boxes;
mod calls;
pub mod clean;
pub mod cover;
pub mod coverage;
pub mod exit;
mod facts;
pub mod heading;
pub mod list;
mod listed;
pub mod listing;
mod misuses;
pub mod names;
pub mod opening;
pub mod play;
pub mod playing;
mod readable;
pub mod report;
mod roots;
mod session;
mod sources;
pub mod story_page;
mod strict;
pub mod suite;
pub mod told;
pub mod unpack;
