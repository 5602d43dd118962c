// Listings of `info`, with notes.

ghost use Rattle.std.specs.Prelude.{◌≡◌, option_map};
ghost use Rattle.zk_notes.specs.Compilers.{compiler_of, is_version};

use crate::lines::Lines;
use std::alloc::{AllocError, Global};
use std::str;
use zk_facts::outcome::Facts;
use zk_facts::texts::{Text, characters_of};
use zk_inspect::fact::{Fact, Field};
use zk_inspect::listing::abbreviation_lines::write_meaning_of;
use zk_inspect::plain_text::write_fact;
use zk_inspect::section::Section;
use zk_mem::fault::Fault;
use zk_mem::memory::Memory;
use zk_term::line_writer::LineWriter;
use zk_term::writing::write_decimal;

/// Whether bytes are the version of a compiler, as `6.12`.
fn is_version(bytes: &[u8]) -> bool
    ensures { result ≡ is_version bytes.now }
{
    match bytes {
        [major, b'.', tens, ones] => {
            major.is_ascii_digit() && tens.is_ascii_digit() && ones.is_ascii_digit()
        }
        _ => false,
    }
}

/// The version of Inform that compiled a story, by the bytes that the story begins with: a digit, a full stop and two
/// digits, at
/// $3C to $3F; none where something else stands there.
#[tactic(auto, using(crate::proofs::Versions::short_is_none, crate::proofs::Versions::other_is_none))]
pub fn compiler_in(header: &[u8]) -> Option<&str>
    ensures { option_map (λ v. v.now) result ≡ compiler_of header.now }
{
    if header.len() < 64 {
        return None;
    }
    let version = &header[60..64];
    if !is_version(version) {
        return None;
    }
    str::from_utf8(version).ok()
}

/// A bit of a word of flags, and what it means where it is set.
type Flag = (u16, &'static str);

/// The first flags of version 3 (Standard, section 11.1), but for the kind of its status line.
const FLAGS_1_OF_3: [Flag; 5] = [
    (4, "story file split over two discs"),
    (8, "Tandy"),
    (16, "status line not available"),
    (32, "screen-splitting available"),
    (64, "variable-pitch font by default"),
];

/// The first flags from version 4 on.
const FLAGS_1: [Flag; 7] = [
    (1, "colours available"),
    (2, "pictures available"),
    (4, "boldface available"),
    (8, "italic available"),
    (16, "fixed-space style available"),
    (32, "sound effects available"),
    (128, "timed input available"),
];

/// The second flags.
const FLAGS_2: [Flag; 8] = [
    (1, "transcripting is on"),
    (2, "fixed-pitch printing forced"),
    (8, "wants pictures"),
    (16, "wants UNDO"),
    (32, "wants a mouse"),
    (64, "wants colours"),
    (128, "wants sound effects"),
    (256, "wants menus"),
];

/// The bit of the first flags of version 3 that says which status line the story wants.
const HOURS: u16 = 2;

/// Writes the words of flags that are set, with commas between them, after some that stand there or not; `none` where
/// there are none.
fn write_flags(out: &mut Lines, flags: &[Flag], set: u16, first: &str) {
    out.write(b"  ; ");
    out.write(first.as_bytes());
    let mut none = first.is_empty();
    for (bit, words) in flags {
        if set & *bit != 0 {
            out.write(if none { b"" } else { b", " });
            out.write(words.as_bytes());
            none = false;
        }
    }
    if none {
        out.write(b"none");
    }
}

/// Writes the first flags, by the version of the story.
fn write_first_flags(out: &mut Lines, version: u8, set: u16) {
    if version != 3 {
        return write_flags(out, &FLAGS_1, set, "");
    }
    let status_line = if set & HOURS != 0 {
        "status line shows hours and minutes"
    } else {
        "status line shows score and turns"
    };
    write_flags(out, &FLAGS_1_OF_3, set, status_line);
}

/// Abbreviations one after another that have one text.
#[derive(Drop)]
struct Alike {
    first: u8,
    last: u8,
    text: Result<String, Fault>,
}

/// A listing that gets its notes fact by fact.
#[derive(Drop)]
struct Notes<'a> {
    out: Lines,
    memory: &'a Memory,
    section: Option<Section>,
    /// The abbreviations that the next one may be like.
    alike: Option<Alike>,
}

impl Notes<'_> {
    /// Writes the line of a fact.
    fn line(&mut self, fact: Fact) {
        write_fact(&mut self.out, self.memory, false, fact);
        self.out.write(b"\n");
    }

    /// Writes the abbreviations that have waited for the next one.
    fn end_alike(&mut self) {
        let (first, last) = match &self.alike {
            Some(alike) => (alike.first, alike.last),
            None => return,
        };
        self.alike = None;
        if first == last {
            return self.line(Fact::Abbreviation(first));
        }
        write_decimal(&mut self.out, b"", first as u32);
        write_decimal(&mut self.out, b" to ", last as u32);
        self.out.write(b" ");
        write_meaning_of(&mut self.out, self.memory, first);
        write_decimal(
            &mut self.out,
            b"  ; ",
            (last as u32).saturating_sub(first as u32) + 1,
        );
        self.out.write(b" alike\n");
    }

    /// Writes what is still to come of a section.
    fn end_section(&mut self) {
        self.end_alike();
        if let (Some(Section::Header), Some(compiler)) = (
            self.section,
            compiler_in(self.memory.original()),
        ) {
            self.out.write(b"compiler Inform ");
            self.out.write(compiler.as_bytes());
            self.out.write(b"\n");
        }
    }

    /// Writes a field of the header.
    fn field(&mut self, field: Field) {
        let header = self.memory.header();
        write_fact(&mut self.out, self.memory, false, Fact::Field(field));
        match field {
            Field::Flags1 => {
                write_first_flags(&mut self.out, header.version, header.flags_1 as u16);
            }
            Field::Flags2 => write_flags(&mut self.out, &FLAGS_2, header.flags_2, ""),
            _ => {}
        }
        self.out.write(b"\n");
    }

    /// Takes an abbreviation, which waits for the next.
    fn abbreviation(&mut self, alloc: Global, number: u8) -> Result<(), AllocError> {
        let text = characters_of(alloc, self.memory, Text::Abbreviation(number))?;
        if let Some(alike) = &mut self.alike
            && alike.text == text
        {
            alike.last = number;
            return Ok(());
        }
        self.end_alike();
        self.alike = Some(Alike {
            first: number,
            last: number,
            text,
        });
        Ok(())
    }

    /// Takes a fact.
    fn take(&mut self, alloc: Global, fact: Fact) -> Result<(), AllocError> {
        match fact {
            Fact::Title(section) => {
                self.end_section();
                self.section = Some(section);
                self.line(fact);
            }
            Fact::Field(field) => self.field(field),
            Fact::Abbreviation(number) => self.abbreviation(alloc, number)?,
            fact => self.line(fact),
        }
        Ok(())
    }
}

/// Sections of `info` with notes. After the flags of the header stand two spaces, `; ` and what is set, with commas
/// between, or `none`; after the header's last line stands `compiler Inform 6.12`, where the story has its compiler's
/// version. Abbreviations one after another with one text are a line, as `0 to 95 " " ; 96 alike`. All other lines are
/// as they were.
pub fn explain(alloc: Global, facts: &Facts<'_>) -> Result<Vec<u8>, AllocError> {
    let mut notes = Notes {
        out: Lines::new(alloc),
        memory: facts.memory,
        section: None,
        alike: None,
    };
    for fact in facts.list {
        notes.take(alloc, *fact)?;
    }
    notes.end_section();
    notes.out.finish()
}
