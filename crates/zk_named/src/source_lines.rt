// The lines of a source file.

ghost use Rattle.std.specs.Prelude.{◌≡◌, option_map};
ghost use Rattle.zk_named.specs.SourceLines.{line_at};

use std::alloc::{AllocError, Global};

/// The lines of a source file. They borrow nothing, so that what shows them need not live as long as the file's text.
#[derive(Drop)]
pub struct SourceLines {
    lines: Vec<Vec<u8>>,
}

impl SourceLines {
    /// The lines of a text.
    pub fn of(alloc: Global, text: &[u8]) -> Result<SourceLines, AllocError> {
        let mut lines = Vec::new(alloc);
        for line in text.split(|byte| *byte == b'\n') {
            lines.push(Vec::from_slice(alloc, line)?)?;
        }
        Ok(SourceLines { lines })
    }

    /// The line of a number, from 1, if there is one.
    pub fn line(&self, number: u32) -> Option<&[u8]>
        ensures { option_map (λ l. l.now) result
            ≡ option_map (λ v. v.items) (line_at self.now.lines.items number) }
    {
        let index = number.checked_sub(1)?;
        let line = self.lines.get(index as usize)?;
        Some(line.as_slice())
    }
}
