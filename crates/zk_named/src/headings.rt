// Parts of code, each with a heading: its routine, and where that is called from.

use crate::places::{push_name, push_place};
use crate::plain::push_line;
use std::alloc::{AllocError, Global};
use zk_code::routines::code_start;
use zk_facts::outcome::Facts;
use zk_inspect::fact::Fact;
use zk_mem::memory::Memory;
use zk_names::names::{Local, Names, Routine};
use zk_notes::calls::{Call, calls_of};
use zk_notes::pieces::{Piece, TextBuilder};

/// A part of code, up to the next one.
#[derive(Clone, Copy, Drop)]
pub(crate) struct Part {
    /// The byte address of its routine, or of the story's first instruction.
    pub address: u32,
    /// Its routine as it is listed; none where it is the code that the story begins with.
    pub routine: Option<Fact>,
}

/// The address of a routine that is listed.
fn routine_address(fact: Fact) -> Option<u32> {
    match fact {
        Fact::Routine(address) | Fact::LyingRoutine(address, _) => Some(address),
        _ => None,
    }
}

/// Whether the code that a story begins with is that of a routine which is listed (Z-Machine Standards Document 1.1,
/// section 5.5).
fn begins_in_routine(facts: &Facts<'_>) -> bool {
    let start = facts.memory.header().first_instruction as u32;
    facts
        .list
        .iter()
        .filter_map(|fact| routine_address(*fact))
        .any(|routine| code_start(facts.memory, routine) == Some(start))
}

/// The parts of a listing: that which the story begins with, unless it is a routine's, and the routines.
fn parts_in(alloc: Global, facts: &Facts<'_>) -> Result<Vec<Part>, AllocError> {
    let mut list = Vec::new(alloc);
    if !begins_in_routine(facts) {
        list.push(Part {
            address: facts.memory.header().first_instruction as u32,
            routine: None,
        })?;
    }
    for fact in facts.list {
        if let Some(address) = routine_address(*fact) {
            list.push(Part {
                address,
                routine: Some(*fact),
            })?;
        }
    }
    Ok(list)
}

/// The parts of a listing, by their addresses, and the calls in its code, by the routines that are called.
#[derive(Drop)]
pub(crate) struct Parts {
    pub list: Vec<Part>,
    calls: Vec<(u32, u32)>,
}

impl Parts {
    /// The parts of a listing.
    pub fn of(alloc: Global, facts: &Facts<'_>) -> Result<Parts, AllocError> {
        let mut list = parts_in(alloc, facts)?;
        list.sort_unstable_by_key(|part| part.address);
        let mut calls = Vec::new(alloc);
        for Call { at, called } in &calls_of(alloc, facts)? {
            calls.push((*called, *at))?;
        }
        calls.sort_unstable();
        Ok(Parts { list, calls })
    }

    /// The number of the part that an address lies in, from 0: the last that begins at or before it.
    pub fn part_of(&self, address: u32) -> Option<usize> {
        self.list
            .partition_point(|part| part.address <= address)
            .checked_sub(1)
    }

    /// The addresses of a list, which ascend, that lie in the part of a number.
    pub fn within<'s>(&self, number: usize, addresses: &'s [u32]) -> &'s [u32] {
        let Some(part) = self.list.get(number) else {
            return &[];
        };
        let first = addresses.partition_point(|address| *address < part.address);
        let last = match self.list.get(number.saturating_add(1)) {
            Some(next) => addresses.partition_point(|address| *address < next.address),
            None => addresses.len(),
        };
        addresses.get(first..last).unwrap_or(&[])
    }

    /// Whether the part of a number begins at an address.
    pub fn begins_at(&self, number: usize, address: u32) -> bool {
        match self.list.get(number) {
            Some(part) => part.address == address,
            None => false,
        }
    }

    /// The part of a number.
    fn part(&self, number: Option<usize>) -> Option<Part> {
        self.list.get(number?).copied()
    }

    /// The calls of a routine, each by the address of the routine and of the instruction that calls.
    fn calls_to(&self, routine: u32) -> &[(u32, u32)] {
        let start = self.calls.partition_point(|call| call.0 < routine);
        let end = self.calls.partition_point(|call| call.0 <= routine);
        self.calls.as_slice().get(start..end).unwrap_or(&[])
    }
}

/// What headings are made of.
#[derive(Clone, Copy, Drop)]
pub(crate) struct Headings<'a, 'n> {
    pub alloc: Global,
    pub memory: &'a Memory,
    pub names: Option<&'a Names<'n>>,
    pub parts: &'a Parts,
}

impl<'n> Headings<'_, 'n> {
    /// The routine that the names have for a part.
    fn named(&self, part: Part) -> Option<Routine<'n>> {
        match part.routine {
            Some(_) => self.names?.routine_from(part.address),
            None => self.names?.routine_at(part.address),
        }
    }

    /// Adds the names of local variables.
    fn push_locals(&self, out: &mut TextBuilder, locals: &[Local<'_>]) {
        out.text("(");
        for (index, local) in locals.iter().enumerate() {
            out.text(if index > 0 { ", " } else { "" });
            push_name(self.alloc, out, local.name);
        }
        out.text(")");
    }

    /// Adds a routine by its names: ` CanSee(thing) at cave.inf:14`.
    fn push_routine(&self, out: &mut TextBuilder, names: &Names<'_>, routine: &Routine<'_>) {
        out.text(" ");
        push_name(self.alloc, out, routine.name);
        self.push_locals(out, names.locals_of(routine));
        if let Some(place) = routine.place {
            out.text(" at ");
            push_place(self.alloc, out, names, place);
        }
    }

    /// Adds how a part is called where it calls another one: by its routine's name or address.
    fn push_caller(&self, out: &mut TextBuilder, part: Part) {
        out.text("\n  called from ");
        match (self.named(part), part.routine) {
            (Some(routine), _) => push_name(self.alloc, out, routine.name),
            (None, Some(_)) => out.pieces(&[
                Piece::Text("routine "),
                Piece::Address(part.address as u64),
            ]),
            (None, None) => out.text("the start"),
        }
        out.text(" at");
    }

    /// Adds the place of a call: its address, and its line in the source, if that is known.
    fn push_call(&self, out: &mut TextBuilder, at: u32) {
        out.pieces(&[Piece::Text(" "), Piece::Address(at as u64)]);
        if let Some(names) = self.names
            && let Some(place) = names.place_at(at)
        {
            out.pieces(&[Piece::Text(" line "), Piece::Number(place.line as u64)]);
        }
    }

    /// Adds where a routine is called from: a line for each part that calls it.
    fn push_calls(&self, out: &mut TextBuilder, routine: u32) {
        let mut last = None;
        for (_, at) in self.parts.calls_to(routine) {
            let number = self.parts.part_of(*at);
            if number == last {
                out.text(",");
            } else if let Some(part) = self.parts.part(number) {
                self.push_caller(out, part);
            }
            last = number;
            self.push_call(out, *at);
        }
        if last.is_none() {
            out.text("\n  not called by an instruction that is listed");
        }
        out.text("\n");
    }

    /// Adds the line of a part, without its end.
    fn push_part(&self, out: &mut TextBuilder, part: Part) {
        match part.routine {
            Some(fact) => push_line(self.alloc, out, self.memory, false, fact),
            None => out.pieces(&[Piece::Text("start "), Piece::Address(part.address as u64)]),
        }
    }

    /// Adds the heading of a part.
    pub fn push(&self, out: &mut TextBuilder, part: Part) {
        self.push_part(out, part);
        if let (Some(names), Some(routine)) = (self.names, self.named(part)) {
            self.push_routine(out, names, &routine);
        }
        match part.routine {
            Some(_) => self.push_calls(out, part.address),
            None => out.text("\n"),
        }
    }
}
