// Texts of others, as they are shown.

use std::fmt::{self, Display, Formatter, Write};

/// A text that is no part of the program, as a path: each control character is shown as `?`, so that none of them
/// reaches a terminal.
#[derive(Drop)]
pub struct Shown<'a>(pub &'a str);

impl Display for Shown<'_> {
    fn fmt<W: Write>(&self, f: &mut Formatter<W>) -> fmt::Result {
        for c in self.0.chars() {
            f.write_char(if c.is_control() { '?' } else { c })?;
        }
        Ok(())
    }
}
