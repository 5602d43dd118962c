// Tables and findings, with the names of the source.

use crate::places::{push_name, push_source};
use crate::words::{is_own, stands_as_word};
use std::alloc::{AllocError, Global};
use zk_facts::outcome::Facts;
use zk_inspect::fact::Fact;
use zk_inspect::listing::global_lines::global_place;
use zk_names::named::{Kind, Named};
use zk_names::names::Names;
use zk_notes::lines::plain_lines;
use zk_notes::pieces::TextBuilder;
use zk_notes::{findings, info_notes};

/// A listing of tables or of findings, and what is shown beside it.
#[derive(Clone, Copy, Drop)]
pub struct TableView<'a, 'n> {
    pub alloc: Global,
    pub facts: Facts<'a>,
    pub names: &'a Names<'n>,
    /// Whether notes stand beside what is listed.
    pub notes: bool,
}

/// What the numbers behind a word of an object's line are of.
fn kind_behind(word: &str) -> Option<Kind> {
    match word {
        "parent" | "sibling" | "child" => Some(Kind::Object),
        "attributes" => Some(Kind::Attribute),
        "properties" => Some(Kind::Property),
        _ => None,
    }
}

/// Whether the name of a thing stands in place of its number: object 0 is none.
fn is_shown(named: &Named<'_>) -> bool {
    stands_as_word(named.name) && !named.is(Kind::Object, 0)
}

/// A text up to the first of a character, and what is left with that.
fn cut(text: &str, at: Option<usize>) -> (&str, &str) {
    match at {
        Some(at) => text.split_at_checked(at).unwrap_or((text, "")),
        None => (text, ""),
    }
}

impl<'n> TableView<'_, 'n> {
    /// What stands for a number.
    fn named(&self, kind: Kind, number: &str) -> Option<Named<'n>> {
        let value = number.parse::<u32>().ok()?;
        self.names.named(kind, value)
    }

    /// Adds the name of what has a number, or the number where it has none.
    fn push_number(&self, out: &mut TextBuilder, kind: Kind, number: &str) {
        match self.named(kind, number) {
            Some(named) if is_shown(&named) => push_name(self.alloc, out, named.name),
            _ => out.text(number),
        }
    }

    /// Adds a list of numbers with commas between them, each by its name; behind a colon stands what stays.
    fn push_numbers(&self, out: &mut TextBuilder, kind: Kind, list: &str) {
        for (index, item) in list.split(',').enumerate() {
            out.text(if index > 0 { "," } else { "" });
            let (number, rest) = cut(item, item.find(':'));
            self.push_number(out, kind, number);
            out.text(rest);
        }
    }

    /// Adds the words behind an object's name, with the names of other objects, of attributes and of properties.
    fn push_links(&self, out: &mut TextBuilder, words: &str) {
        let mut kind = None;
        for (index, word) in words.split(' ').enumerate() {
            out.text(if index > 0 { " " } else { "" });
            match kind {
                Some(kind) => self.push_numbers(out, kind, word),
                None => out.text(word),
            }
            kind = kind_behind(word);
        }
    }

    /// Adds an object's number with its name behind it, and what follows, which begins with the story's own name of it.
    fn push_object(&self, out: &mut TextBuilder, object: u16, line: &str) {
        let (number, rest) = cut(line, line.find('"'));
        out.text(number);
        if let Some(named) = self.names.named(Kind::Object, object as u32)
            && !is_own(named.name)
        {
            push_name(self.alloc, out, named.name);
            out.text(" ");
        }
        out.text(rest);
    }

    /// Adds the line of an object.
    fn push_object_line(&self, out: &mut TextBuilder, object: u16, line: &str) {
        let (name, links) = cut(line, line.rfind('"'));
        self.push_object(out, object, name);
        self.push_links(out, links);
    }

    /// Adds the line of a property: its object and its number by their names.
    fn push_property(&self, out: &mut TextBuilder, line: &str) {
        for (index, word) in line.split(' ').enumerate() {
            out.text(if index > 0 { " " } else { "" });
            match index {
                0 => self.push_number(out, Kind::Object, word),
                1 => self.push_number(out, Kind::Property, word),
                _ => out.text(word),
            }
        }
    }

    /// Adds a line with the name of a global variable behind it.
    fn push_global(&self, out: &mut TextBuilder, number: u8, line: &str) {
        out.text(line);
        let place = global_place(self.facts.memory, number);
        if let Some(named) = self.names.named(Kind::Global, place) {
            out.text(" ");
            push_name(self.alloc, out, named.name);
        }
    }

    /// Adds a line with the place in the source behind it, where an address lies in a routine.
    fn push_placed(&self, out: &mut TextBuilder, address: u32, line: &str) {
        out.text(line);
        if self.names.routine_at(address).is_some() {
            out.text("  ; ");
            push_source(self.alloc, out, self.names, address);
        }
    }

    /// Adds the first line of a fact.
    fn push_named(&self, out: &mut TextBuilder, fact: Fact, line: &str) {
        match fact {
            Fact::Object(object) => self.push_object_line(out, object, line),
            Fact::Node(node) => self.push_object(out, node.object, line),
            Fact::Property(_, _) | Fact::NoProperties(_, _) => self.push_property(out, line),
            Fact::Global(number) => self.push_global(out, number, line),
            Fact::Finding(finding) => self.push_placed(out, finding.address, line),
            _ => out.text(line),
        }
    }

    /// The lines of a fact without names.
    fn lines_of(&self, fact: Fact) -> Result<Vec<u8>, AllocError> {
        let list = [fact];
        let facts = Facts {
            memory: self.facts.memory,
            list: &list,
        };
        match fact {
            Fact::Finding(_) if self.notes => findings::explain(self.alloc, &facts),
            _ if self.notes => info_notes::explain(self.alloc, &facts),
            _ => plain_lines(self.alloc, &facts, false),
        }
    }

    /// Adds the lines of a fact.
    fn push(&self, out: &mut TextBuilder, fact: Fact) -> Result<(), AllocError> {
        let lines = self.lines_of(fact)?;
        let text = String::from_utf8_lossy(self.alloc, lines.as_slice())?;
        let (line, rest) = cut(text.as_str(), text.find('\n'));
        self.push_named(out, fact, line);
        out.text(rest);
        Ok(())
    }

    /// The text of the listing.
    pub fn text(&self) -> Result<Vec<u8>, AllocError> {
        let mut out = TextBuilder::new(self.alloc);
        for fact in self.facts.list {
            let pushed = self.push(&mut out, *fact);
            out.note(pushed.is_err());
        }
        out.finish()
    }
}
