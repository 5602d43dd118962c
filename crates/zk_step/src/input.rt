// What is read, and the words of a line.

pub mod inputs;
pub mod story_words;
pub mod terminating;
pub mod text_buffers;
