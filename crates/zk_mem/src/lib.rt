// A story file in memory: what may be opened, read and written.
#![tactic(auto)]

mod checksum;
pub mod examples;
pub mod fault;
pub mod header;
pub mod laws;
pub mod memory;
pub mod story;
