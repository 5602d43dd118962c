// Graphs of the objects and of the calls of a story, for Graphviz.

ghost use Rattle.std.specs.Prelude.{◌≡◌, ◌==◌, option_map, string_bytes};
ghost use Rattle.std.specs.List.{find};

use crate::calls::{Call, Routine, calls_of, listed_routines, routine_below};
use crate::pieces::{Piece, TextBuilder};
use std::alloc::{AllocError, Global};
use zk_facts::outcome::Facts;
use zk_facts::texts::{Text, characters_of};
use zk_inspect::fact::{Fact, Node};
use zk_mem::fault::Fault;
use zk_mem::memory::Memory;

/// How an object or a routine is called in a graph.
#[derive(Drop)]
pub struct Label {
    /// The object's number, or the routine's byte address.
    pub number: u32,
    pub name: String,
}

/// Which calls a graph shows: those from a routine and to it.
#[derive(Clone, Copy, Drop)]
pub struct Around {
    /// The routine's byte address.
    pub routine: u32,
    /// How many calls away from it code is shown.
    pub depth: u8,
}

/// How an object or a routine is called, if it has a label.
fn label_of(labels: &[Label], number: u32) -> Option<&str>
    ensures { option_map (λ s. s.now) result
        ≡ option_map (λ l. string_bytes l.name) (find (λ l. l.number == number) labels.now) }
{
    let label = labels.iter().find(|label| label.number == number)?;
    Some(label.name.as_str())
}

/// Adds a character of a label between quotes. Control characters are left out, but for a new line.
fn add_character(out: &mut TextBuilder, shown: char) {
    match shown {
        '\n' => out.text("\\n"),
        '"' => out.text("\\\""),
        '\\' => out.text("\\\\"),
        shown if shown.is_control() => {}
        shown => out.character(shown),
    }
}

/// Adds the characters of a text in a label.
fn add_characters(out: &mut TextBuilder, text: &str) {
    for shown in text.chars() {
        add_character(out, shown);
    }
}

/// Adds the node of an object with its label, if it has one, and its name, or why it has none.
fn add_object(
    out: &mut TextBuilder,
    number: u16,
    label: Option<&str>,
    name: &Result<String, Fault>,
) {
    out.pieces(&[
        Piece::Text("  o"),
        Piece::Number(number as u64),
        Piece::Text(" [label=\""),
        Piece::Number(number as u64),
    ]);
    if let Some(label) = label {
        out.text(" ");
        add_characters(out, label);
    }
    match name {
        Ok(name) => {
            out.text(if label.is_some() { "\\n" } else { " " });
            add_characters(out, name.as_str());
        }
        Err(fault) => out.pieces(&[Piece::Text(" ! F"), Piece::Number(fault.number() as u64)]),
    }
    out.text("\"];\n");
}

/// A graph of objects.
#[derive(Drop)]
struct Tree<'a> {
    labels: &'a [Label],
    out: TextBuilder,
    /// Objects, one below the other: those that the next one may lie below.
    path: Vec<u16>,
}

impl Tree<'_> {
    /// Adds the edge to an object at a level, from the one above it.
    fn add_edge(&mut self, level: usize, object: u16) {
        self.path.truncate(level);
        if let Some(parent) = self.path.last() {
            self.out.pieces(&[
                Piece::Text("  o"),
                Piece::Number(*parent as u64),
                Piece::Text(" -> o"),
                Piece::Number(object as u64),
                Piece::Text(";\n"),
            ]);
        }
    }

    /// Adds an object: a node where it was not listed before.
    fn add(&mut self, alloc: Global, memory: &Memory, node: Node) -> Result<(), AllocError> {
        if !node.again {
            let name = characters_of(alloc, memory, Text::Name(node.object))?;
            let label = label_of(self.labels, node.object as u32);
            add_object(&mut self.out, node.object, label, &name);
        }
        self.add_edge(node.level, node.object);
        self.path.push(node.object)?;
        Ok(())
    }
}

/// The tree of objects as a graph for Graphviz: a node for each object, with its number, its label and its name, and an
/// edge to each from the object above it.
pub fn tree_graph(
    alloc: Global,
    facts: &Facts<'_>,
    labels: &[Label],
) -> Result<Vec<u8>, AllocError> {
    let mut tree = Tree {
        labels,
        out: TextBuilder::new(alloc),
        path: Vec::new(alloc),
    };
    tree.out.text("digraph tree {\n  rankdir=LR; node [shape=box, fontname=\"sans-serif\"];\n");
    for fact in facts.list {
        if let Fact::Node(node) = *fact {
            tree.add(alloc, facts.memory, node)?;
        }
    }
    tree.out.text("}\n");
    tree.out.finish()
}

/// The code that calls: a routine by its byte address, or none where it lies in no routine, as that which a story
/// begins with; and the routine that is called.
type Edge = (Option<u32>, u32);

/// The edges of calls, each once.
fn edges_of(alloc: Global, calls: &[Call], routines: &[Routine]) -> Result<Vec<Edge>, AllocError> {
    let mut edges = Vec::new(alloc);
    for call in calls {
        edges.push((routine_below(routines, call.at), call.called))?;
    }
    edges.sort_unstable();
    edges.dedup();
    Ok(edges)
}

/// Whether an instruction lies in no routine.
fn has_start(facts: &[Fact], routines: &[Routine]) -> bool {
    for fact in facts {
        if let Fact::Instruction(address) = *fact
            && routine_below(routines, address).is_none()
        {
            return true;
        }
    }
    false
}

/// Code that is near a routine: those that call it, and those that they call in turn, or the other way round.
#[derive(Drop)]
struct Near {
    /// Code, as in an edge; the routine itself stands first.
    code: Vec<Option<u32>>,
}

impl Near {
    /// Adds code, unless it is there.
    fn add(&mut self, code: Option<u32>) -> Result<(), AllocError> {
        if self.code.contains(&code) {
            return Ok(());
        }
        self.code.push(code)?;
        Ok(())
    }

    /// Adds what calls the first ones, or what these call.
    fn grow(&mut self, edges: &[Edge], first: usize, callers: bool) -> Result<(), AllocError> {
        for edge in edges {
            let (caller, called) = (edge.0, Some(edge.1));
            let (from, to) = if callers {
                (called, caller)
            } else {
                (caller, called)
            };
            if self
                .code
                .as_slice()
                .get(..first)
                .unwrap_or(&[])
                .contains(&from)
            {
                self.add(to)?;
            }
        }
        Ok(())
    }

    /// What calls a routine, or what it calls, up to so many calls away.
    fn of(
        alloc: Global,
        edges: &[Edge],
        around: Around,
        callers: bool,
    ) -> Result<Near, AllocError> {
        let mut near = Near {
            code: Vec::new(alloc),
        };
        near.add(Some(around.routine))?;
        for _ in 0..around.depth {
            let first = near.code.len();
            near.grow(edges, first, callers)?;
        }
        Ok(near)
    }
}

/// The code that a graph shows.
#[derive(Drop)]
struct Shown {
    /// What calls a routine and what it calls, or nothing where all is shown.
    near: Option<(Near, Near)>,
}

impl Shown {
    fn of(alloc: Global, edges: &[Edge], around: Option<Around>) -> Result<Shown, AllocError> {
        let Some(around) = around else {
            return Ok(Shown { near: None });
        };
        let callers = Near::of(alloc, edges, around, true)?;
        let called = Near::of(alloc, edges, around, false)?;
        Ok(Shown {
            near: Some((callers, called)),
        })
    }

    /// Whether code is shown.
    fn has(&self, code: Option<u32>) -> bool {
        match &self.near {
            Some((callers, called)) => {
                callers.code.contains(&code) || called.code.contains(&code)
            }
            None => true,
        }
    }
}

/// Adds the node of a routine, with its label, if it has one.
fn add_routine(out: &mut TextBuilder, routine: Routine, label: Option<&str>) {
    out.pieces(&[
        Piece::Text("  \""),
        Piece::Address(routine.address as u64),
        Piece::Text("\""),
    ]);
    if let Some(label) = label {
        out.text(" [label=\"");
        add_characters(out, label);
        out.pieces(&[
            Piece::Text("\\n"),
            Piece::Address(routine.address as u64),
            Piece::Text("\"]"),
        ]);
    }
    out.text(if routine.beside {
        " [style=dashed];\n"
    } else {
        ";\n"
    });
}

/// Adds the edge of a call.
fn add_edge(out: &mut TextBuilder, edge: Edge) {
    let (caller, routine) = edge;
    match caller {
        Some(address) => out.pieces(&[
            Piece::Text("  \""),
            Piece::Address(address as u64),
            Piece::Text("\""),
        ]),
        None => out.text("  start"),
    }
    out.pieces(&[
        Piece::Text(" -> \""),
        Piece::Address(routine as u64),
        Piece::Text("\";\n"),
    ]);
}

/// Adds the nodes of the routines that are shown.
fn add_routines(out: &mut TextBuilder, routines: &[Routine], labels: &[Label], shown: &Shown) {
    for routine in routines {
        if shown.has(Some(routine.address)) {
            add_routine(out, *routine, label_of(labels, routine.address));
        }
    }
}

/// Adds the edges of calls between what is shown.
fn add_edges(out: &mut TextBuilder, edges: &[Edge], shown: &Shown) {
    for edge in edges {
        if shown.has(edge.0) && shown.has(Some(edge.1)) {
            add_edge(out, *edge);
        }
    }
}

/// The calls by constants in code as a graph for Graphviz: a node for each routine that is listed, with its label, if
/// it has one, dashed where it is one beside; `start` for the code that lies in none; and an edge from each routine to
/// each that it calls. Around a routine only what is near it is shown.
pub fn code_graph(
    alloc: Global,
    facts: &Facts<'_>,
    labels: &[Label],
    around: Option<Around>,
) -> Result<Vec<u8>, AllocError> {
    let routines = listed_routines(alloc, facts.list)?;
    let calls = calls_of(alloc, facts)?;
    let edges = edges_of(alloc, calls.as_slice(), routines.as_slice())?;
    let shown = Shown::of(alloc, edges.as_slice(), around)?;
    let mut out = TextBuilder::new(alloc);
    out.text("digraph calls {\n  rankdir=LR; node [shape=box, fontname=\"sans-serif\"];\n");
    if has_start(facts.list, routines.as_slice()) && shown.has(None) {
        out.text("  start;\n");
    }
    add_routines(&mut out, routines.as_slice(), labels, &shown);
    add_edges(&mut out, edges.as_slice(), &shown);
    out.text("}\n");
    out.finish()
}
