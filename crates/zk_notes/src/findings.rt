// Findings with what they mean.

ghost use Rattle.std.specs.Prelude.{◌≡◌, IfOk};
ghost use Rattle.std.specs.List.{flat_map};
ghost use Rattle.zk_notes.specs.Findings.{explained, note_of, object_words};

use crate::lines::Lines;
use std::alloc::{AllocError, Global};
use zk_facts::objects::object_of;
use zk_facts::outcome::Facts;
use zk_inspect::fact::Fact;
use zk_inspect::plain_text::write_fact;
use zk_mem::memory::Memory;
use zk_term::line_writer::LineWriter;
use zk_term::writing::write_decimal;

/// Writes the words for an object, where there is one.
fn write_object<P: LineWriter>(out: &mut P, object: Option<u32>)
    ensures { P.wrote out.old out.new (object_words object) }
{
    if let Some(number) = object {
        write_decimal(out, b"object ", number);
        out.write(b": ");
    }
}

/// Writes what a fact means, where it is a finding.
fn write_note<P: LineWriter>(out: &mut P, memory: &Memory, fact: Fact)
    ensures { P.wrote out.old out.new (note_of memory.now fact) }
{
    if let Fact::Finding(finding) = fact {
        out.write(b"  ; ");
        write_object(out, object_of(memory, finding));
        out.write(finding.number.meaning().as_bytes());
    }
}

/// Writes the line of a fact, with what it means where it is a finding.
fn write_explained<P: LineWriter>(out: &mut P, memory: &Memory, fact: Fact)
    ensures { P.wrote out.old out.new (explained memory.now fact) }
{
    write_fact(out, memory, false, fact);
    write_note(out, memory, fact);
    out.write(b"\n");
}

/// Writes the lines of facts with what they mean.
fn write_all<P: LineWriter>(out: &mut P, facts: &Facts<'_>)
    ensures { P.wrote out.old out.new (flat_map (explained facts.now.memory.now) facts.now.list.now) }
{
    for fact in facts.list {
        write_explained(out, facts.memory, *fact);
    }
}

/// The lines of `check`, each with two spaces, `; ` and a note after it: what its finding means, as a sentence, and
/// before that `object 12: ` where the address is that of an object's entry. A fact that is no finding has its line
/// alone.
pub fn explain(alloc: Global, facts: &Facts<'_>) -> Result<Vec<u8>, AllocError>
    ensures { IfOk result (λ v. v.items ≡ flat_map (explained facts.now.memory.now) facts.now.list.now) }
{
    let mut out = Lines::new(alloc);
    write_all(&mut out, facts);
    out.finish()
}
