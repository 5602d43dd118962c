// Code, part by part, with a heading before each, and with the names and the lines of its source.

use crate::headings::{Headings, Part, Parts};
use crate::places::{push_place, push_shown};
use crate::plain::{plain_line, push_line};
use crate::source_lines::SourceLines;
use crate::words::NamedStory;
use std::alloc::{AllocError, Global};
use zk_facts::outcome::Facts;
use zk_inspect::fact::Fact;
use zk_names::names::{Names, Place};
use zk_notes::pieces::TextBuilder;

/// Code that is listed, and what is shown beside it.
#[derive(Clone, Copy, Drop)]
pub struct CodeView<'a, 'n> {
    pub alloc: Global,
    pub facts: Facts<'a>,
    pub names: Option<&'a Names<'n>>,
    /// The source files, in the order of the names: none where one was not found. Where there are no files at all, the
    /// lines of the source are not shown.
    pub sources: &'a [Option<SourceLines>],
    /// Whether notes stand after instructions.
    pub notes: bool,
    /// The byte addresses of the instructions that ran, ascending, where they are marked.
    pub covered: Option<&'a [u32]>,
    /// The byte addresses of routines and instructions, where nothing is shown but the parts that have them.
    pub only: Option<&'a [u32]>,
}

/// The parts of a listing, and its instructions, by their addresses.
#[derive(Drop)]
struct Code {
    parts: Parts,
    instructions: Vec<u32>,
}

impl Code {
    /// Those of a listing.
    fn of(alloc: Global, facts: &Facts<'_>) -> Result<Code, AllocError> {
        let parts = Parts::of(alloc, facts)?;
        let instructions = instructions_of(alloc, facts)?;
        Ok(Code {
            parts,
            instructions,
        })
    }

    /// Whether an address is that of a part, or of an instruction in it, by the part's number.
    fn has(&self, number: usize, address: u32) -> bool {
        self.parts.part_of(address) == Some(number)
            && (self.parts.begins_at(number, address)
                || self.instructions.binary_search(&address).is_ok())
    }

    /// Whether a part is shown, by its number and the addresses that are asked for.
    fn is_asked(&self, number: usize, only: Option<&[u32]>) -> bool {
        match only {
            Some(addresses) => addresses.iter().any(|address| self.has(number, *address)),
            None => true,
        }
    }
}

/// Those facts of a listing of code that are in the parts which have one of these addresses.
pub fn facts_of(
    alloc: Global,
    facts: &Facts<'_>,
    addresses: &[u32],
) -> Result<Vec<Fact>, AllocError> {
    let code = Code::of(alloc, facts)?;
    let mut list = Vec::new(alloc);
    for fact in facts.list {
        let (Fact::Instruction(address) | Fact::Routine(address) | Fact::LyingRoutine(address, _)) =
            *fact
        else {
            continue;
        };
        if let Some(number) = code.parts.part_of(address)
            && code.is_asked(number, Some(addresses))
        {
            list.push(*fact)?;
        }
    }
    Ok(list)
}

/// The instructions of a listing, by their addresses.
fn instructions_of(alloc: Global, facts: &Facts<'_>) -> Result<Vec<u32>, AllocError> {
    let mut addresses = Vec::new(alloc);
    for fact in facts.list {
        if let Fact::Instruction(address) = *fact {
            addresses.push(address)?;
        }
    }
    Ok(addresses)
}

impl CodeView<'_, '_> {
    /// Adds the text of a line of the source, by the number of its file among the names.
    fn push_source_line(&self, out: &mut TextBuilder, file: usize, line: u32) {
        let Some(Some(lines)) = self.sources.get(file) else {
            return;
        };
        out.text("  ");
        let line = lines.line(line).unwrap_or(b"").trim_ascii();
        match String::from_utf8_lossy(self.alloc, line) {
            Ok(line) => push_shown(out, line.as_str()),
            Err(_) => out.note(true),
        }
    }

    /// Adds the line of the source at a place.
    fn push_source(&self, out: &mut TextBuilder, names: &Names<'_>, place: Place) {
        out.text("; ");
        push_place(self.alloc, out, names, place);
        let file = names
            .sources
            .iter()
            .position(|source| source.index == place.file);
        if let Some(file) = file {
            self.push_source_line(out, file, place.line);
        }
        out.text("\n");
    }

    /// Adds the lines of the source whose code begins at an address.
    fn push_sources(&self, out: &mut TextBuilder, names: &Names<'_>, address: u32) {
        let first = names
            .points
            .partition_point(|point| point.address < address);
        let end = names
            .points
            .partition_point(|point| point.address <= address);
        for point in names.points.as_slice().get(first..end).unwrap_or(&[]) {
            self.push_source(out, names, point.place);
        }
    }

    /// Adds the mark of an instruction, where code is marked.
    fn push_mark(&self, out: &mut TextBuilder, address: u32) {
        match self.covered {
            Some(covered) if covered.binary_search(&address).is_ok() => out.text("+ "),
            Some(_) => out.text("  "),
            None => {}
        }
    }

    /// Adds the line of the instruction at an address by its names.
    fn push_named(&self, out: &mut TextBuilder, names: &Names<'_>, address: u32) {
        if !self.sources.is_empty() {
            self.push_sources(out, names, address);
        }
        self.push_mark(out, address);
        let story = NamedStory {
            alloc: self.alloc,
            memory: self.facts.memory,
            names,
        };
        match plain_line(
            self.alloc,
            self.facts.memory,
            self.notes,
            Fact::Instruction(address),
        ) {
            Ok(line) => story.push_line(out, address, line.as_str().trim_end_matches('\n')),
            Err(_) => out.note(true),
        }
        out.text("\n");
    }

    /// Adds the line of the instruction at an address.
    fn push_instruction(&self, out: &mut TextBuilder, address: u32) {
        if let Some(names) = self.names {
            self.push_named(out, names, address);
            return;
        }
        self.push_mark(out, address);
        let fact = Fact::Instruction(address);
        push_line(self.alloc, out, self.facts.memory, self.notes, fact);
        out.text("\n");
    }

    /// Adds a part: its heading, and its instructions.
    fn push_part(
        &self,
        out: &mut TextBuilder,
        headings: &Headings<'_, '_>,
        part: Part,
        addresses: &[u32],
    ) {
        headings.push(out, part);
        for address in addresses {
            self.push_instruction(out, *address);
        }
    }

    /// Adds the parts that are shown, with an empty line between them.
    fn push_parts(&self, out: &mut TextBuilder, headings: &Headings<'_, '_>, code: &Code) {
        let mut is_first = true;
        for (number, part) in code.parts.list.iter().enumerate() {
            if code.is_asked(number, self.only) {
                out.text(if is_first { "" } else { "\n" });
                is_first = false;
                let addresses = code.parts.within(number, code.instructions.as_slice());
                self.push_part(out, headings, *part, addresses);
            }
        }
    }

    /// The text of the listing: each part of the code, with an empty line before all but the first.
    pub fn text(&self) -> Result<Vec<u8>, AllocError> {
        let code = Code::of(self.alloc, &self.facts)?;
        let headings = Headings {
            alloc: self.alloc,
            memory: self.facts.memory,
            names: self.names,
            parts: &code.parts,
        };
        let mut out = TextBuilder::new(self.alloc);
        self.push_parts(&mut out, &headings, &code);
        out.finish()
    }
}
