// Arrays of bytes and words in memory: copied, searched, given as rectangles.

pub mod copying;
pub mod examples;
pub mod laws;
pub mod rectangle;
pub mod runs;
pub mod scanning;
