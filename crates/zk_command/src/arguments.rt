// The arguments of a command line.

use std::alloc::{AllocError, Global};

/// What stands for a byte that is no part of a text: no path has it, so nothing is opened or made by such an argument.
pub const NO_TEXT: char = '\0';

/// An argument of the command line, by its bytes. What is no UTF-8 in it is `NO_TEXT`.
pub fn argument_of(alloc: Global, bytes: &[u8]) -> Result<String, AllocError> {
    let mut argument = String::new(alloc);
    for chunk in bytes.utf8_chunks() {
        argument.push_str(chunk.valid())?;
        if !chunk.invalid().is_empty() {
            argument.push(NO_TEXT)?;
        }
    }
    Ok(argument)
}
