// Lines of text in memory.

ghost use Rattle.std.specs.Prelude.{◌≡◌, ◌++◌, [], codes, false, IfOk};
ghost use Rattle.std.specs.List.{flat_map};
ghost use Rattle.zk_inspect.specs.Facts.{Collected};
ghost use Rattle.zk_inspect.specs.Lines.{fact_line, lines_of};

use std::alloc::{AllocError, Global};
use zk_facts::outcome::Facts;
use zk_inspect::fact::Fact;
use zk_inspect::plain_text::write_fact;
use zk_mem::memory::Memory;
use zk_term::line_writer::LineWriter;

/// Lines of text in memory. They remember whether memory was short.
#[derive(Drop)]
pub(crate) struct Lines {
    bytes: Vec<u8>,
    is_short: bool,
}

impl Lines {
    /// No lines.
    pub(crate) fn new(alloc: Global) -> Lines
        ensures bytes { result.bytes.items ≡ [] }
        ensures short { result.is_short ≡ false }
    {
        Lines {
            bytes: Vec::new(alloc),
            is_short: false,
        }
    }

    /// The lines, if memory was never short.
    pub(crate) fn finish(self) -> Result<Vec<u8>, AllocError>
        ensures { IfOk result (λ v. (self.is_short ≡ false) × (v ≡ self.bytes)) }
    {
        if self.is_short {
            Err(AllocError)
        } else {
            Ok(self.bytes)
        }
    }
}

impl LineWriter for Lines {
    ghost use Rattle.zk_inspect.specs.Facts.{Collected, collected_none, collected_then};
    ghost use Rattle.zk_notes.specs.Lines.{collected_late};

    ghost wrote = { λ a b s. Collected a.is_short b.is_short a.bytes.items b.bytes.items s };

    ghost ended = { λ a. a.is_short };

    fn write(&mut self, bytes: &[u8]) {
        if self.is_short {
            return;
        }
        match self.bytes.extend_from_slice(bytes) {
            Ok(()) => {}
            Err(_) => self.is_short = true,
        }
    }

    fn has_ended(&self) -> bool {
        self.is_short
    }

    ghost nothing = { λ a. collected_none a.is_short a.bytes.items };

    ghost twice = { λ a b c s t h k. collected_then _ _ _ _ _ _ s t h k };

    ghost late = { λ a s h. collected_late a.is_short a.bytes.items s h };
}

/// Writes the line of a fact.
fn write_line<P: LineWriter>(out: &mut P, memory: &Memory, notes: bool, fact: Fact)
    ensures { P.wrote out.old out.new (fact_line notes memory.now fact ++ codes "\n") }
{
    write_fact(out, memory, notes, fact);
    out.write(b"\n");
}

/// Writes facts as lines.
#[tactic(auto, unfolding(zk_inspect::specs::Lines::lines_of))]
fn write_all<P: LineWriter>(out: &mut P, facts: &Facts<'_>, notes: bool)
    ensures { P.wrote out.old out.new (lines_of notes facts.now.memory.now facts.now.list.now) }
{
    for fact in facts.list {
        write_line(out, facts.memory, notes, *fact);
    }
}

/// Facts as lines, with notes after instructions or without them.
pub fn plain_lines(alloc: Global, facts: &Facts<'_>, notes: bool) -> Result<Vec<u8>, AllocError>
    ensures { IfOk result (λ v. v.items ≡ lines_of notes facts.now.memory.now facts.now.list.now) }
{
    let mut out = Lines::new(alloc);
    write_all(&mut out, facts, notes);
    out.finish()
}
