// The devices that a story is played on.
#![tactic(auto)]

pub mod buffered_screen;
pub mod byte_buffer;
pub mod echo;
pub mod examples;
pub mod io_device;
pub mod laws;
pub mod line_writer;
pub mod lines;
pub mod nothing;
pub mod open_line;
pub mod screen;
pub mod source;
pub mod style;
pub mod target;
pub mod windows;
pub mod wrapped;
pub mod writing;
