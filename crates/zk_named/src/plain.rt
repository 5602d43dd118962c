// The lines of facts without names.

use std::alloc::{AllocError, Global};
use zk_facts::outcome::Facts;
use zk_inspect::fact::Fact;
use zk_mem::memory::Memory;
use zk_notes::lines::plain_lines;
use zk_notes::pieces::TextBuilder;

/// The line of a fact, with its end, and with notes or without them.
pub(crate) fn plain_line(
    alloc: Global,
    memory: &Memory,
    notes: bool,
    fact: Fact,
) -> Result<String, AllocError> {
    let list = [fact];
    let facts = Facts {
        memory,
        list: &list,
    };
    let line = plain_lines(alloc, &facts, notes)?;
    String::from_utf8_lossy(alloc, line.as_slice())
}

/// Adds the line of a fact, without its end.
pub(crate) fn push_line(
    alloc: Global,
    out: &mut TextBuilder,
    memory: &Memory,
    notes: bool,
    fact: Fact,
) {
    match plain_line(alloc, memory, notes, fact) {
        Ok(line) => out.text(line.as_str().trim_end_matches('\n')),
        Err(_) => out.note(true),
    }
}
