// A picture of a story's map.

use crate::pieces::{Piece, TextBuilder};
use std::alloc::{AllocError, Global};
use zk_facts::outcome::Facts;
use zk_inspect::fact::{Fact, Field};
use zk_inspect::listing::header_lines::{Value, value_of};
use zk_mem::memory::Memory;

/// How many pixels wide the bar is, and how many there are to its left and to its right.
const BAR: u64 = 860;

const MARGIN: u64 = 20;

/// Where the list below the bar begins, and how high each of its rows is.
const LIST_TOP: u64 = 130;

const ROW_HEIGHT: u64 = 22;

/// The fills of parts, one after the other and again from the first.
const FILLS: [&str; 10] = [
    "#4e79a7", "#f28e2b", "#e15759", "#76b7b2", "#59a14f", "#edc948", "#b07aa1", "#ff9da7",
    "#9c755f", "#bab0ac",
];

/// A part of a story.
#[derive(Clone, Copy, Drop)]
struct Part {
    address: u64,
    name: &'static str,
}

/// The parts of a story.
#[derive(Drop)]
struct Map {
    parts: Vec<Part>,
    /// The bytes of the file, or as many as the header states.
    size: u64,
}

impl Map {
    /// The byte address after the last part: where the file ends, or where the last part begins if that lies beyond.
    fn end(&self) -> u64 {
        let mut end = self.size.max(1);
        for part in &self.parts {
            end = end.max(part.address);
        }
        end
    }
}

/// The bytes of a story's file, or as many as its header states.
fn size_of(memory: &Memory) -> u64 {
    let stated = match value_of(memory, Field::Length) {
        Value::Number(length) => length,
        _ => 0,
    };
    memory.len().max(stated) as u64
}

/// The map in a listing.
fn map_in(alloc: Global, facts: &Facts<'_>) -> Result<Map, AllocError> {
    let mut map = Map {
        parts: Vec::new(alloc),
        size: size_of(facts.memory),
    };
    for fact in facts.list {
        if let Fact::Part(place) = *fact {
            map.parts.push(Part {
                address: place.address as u64,
                name: place.part.name(),
            })?;
        }
    }
    Ok(map)
}

/// Hundredths of a pixel along the bar, for bytes of so many.
fn along(bytes: u64, end: u64) -> u64 {
    bytes.saturating_mul(BAR * 100) / end.max(1)
}

/// A part with its place in the picture.
#[derive(Clone, Copy, Drop)]
struct Placed {
    part: Part,
    /// How many bytes it has.
    size: u64,
    fill: &'static str,
    /// Where its row of the list begins, from above.
    row: u64,
}

/// Adds the rectangle of a part in the bar, for a story that ends at an address.
fn add_rectangle(out: &mut TextBuilder, placed: &Placed, end: u64) {
    let left = along(placed.part.address, end);
    let right = along(placed.part.address.saturating_add(placed.size), end);
    out.pieces(&[
        Piece::Text("<rect x=\""),
        Piece::Hundredths(left.saturating_add(MARGIN * 100)),
        Piece::Text("\" y=\"40\" width=\""),
        Piece::Hundredths(right.saturating_sub(left)),
        Piece::Text("\" height=\"60\" fill=\""),
        Piece::Text(placed.fill),
        Piece::Text("\"/>\n"),
    ]);
}

/// Adds the row of a part in the list.
fn add_row(out: &mut TextBuilder, placed: &Placed) {
    let unit = if placed.size == 1 {
        " byte</text>\n"
    } else {
        " bytes</text>\n"
    };
    out.pieces(&[
        Piece::Text("<rect x=\"20\" y=\""),
        Piece::Number(placed.row),
        Piece::Text("\" width=\"14\" height=\"14\" fill=\""),
        Piece::Text(placed.fill),
        Piece::Text("\"/>\n<text x=\"44\" y=\""),
        Piece::Number(placed.row.saturating_add(12)),
        Piece::Text("\">"),
        Piece::Address(placed.part.address),
        Piece::Text(" "),
        Piece::Text(placed.part.name),
        Piece::Text(", "),
        Piece::Number(placed.size),
        Piece::Text(unit),
    ]);
}

/// Adds the head of a picture of so many parts, with the addresses at both ends of the bar.
fn add_head(out: &mut TextBuilder, count: usize, end: u64) {
    let height = (count as u64)
        .saturating_mul(ROW_HEIGHT)
        .saturating_add(LIST_TOP);
    out.pieces(&[
        Piece::Text("<?xml version=\"1.0\" encoding=\"UTF-8\"?>\n"),
        Piece::Text(
            "<svg xmlns=\"http://www.w3.org/2000/svg\" version=\"1.1\" width=\"900\" height=\"",
        ),
        Piece::Number(height),
        Piece::Text("\" font-family=\"sans-serif\" font-size=\"14\">\n"),
        Piece::Text("<rect width=\"100%\" height=\"100%\" fill=\"#ffffff\"/>\n"),
        Piece::Text("<text x=\"20\" y=\"30\">00000</text>\n"),
        Piece::Text("<text x=\"880\" y=\"30\" text-anchor=\"end\">"),
        Piece::Address(end),
        Piece::Text("</text>\n"),
    ]);
}

/// The fill of a part, by its place among the parts.
fn fill_of(at: usize) -> &'static str {
    FILLS[at % 10]
}

/// Adds the rectangle and the row of each part.
fn add_parts(out: &mut TextBuilder, map: &Map, end: u64) {
    for (at, part) in map.parts.iter().enumerate() {
        let next = match map.parts.get(at + 1) {
            Some(next) => next.address,
            None => end,
        };
        let placed = Placed {
            part: *part,
            size: next.saturating_sub(part.address),
            fill: fill_of(at),
            row: (at as u64)
                .saturating_mul(ROW_HEIGHT)
                .saturating_add(LIST_TOP),
        };
        add_rectangle(out, &placed, end);
        add_row(out, &placed);
    }
}

/// The map of a story as a picture, an SVG 1.1 of 900 pixels: a bar with a rectangle for each part, to scale, from its
/// address to the next one's, and the last to the end of the file; below it each part's address, name and bytes, with a
/// swatch of its fill.
pub fn map_picture(alloc: Global, facts: &Facts<'_>) -> Result<Vec<u8>, AllocError> {
    let map = map_in(alloc, facts)?;
    let end = map.end();
    let mut out = TextBuilder::new(alloc);
    add_head(&mut out, map.parts.len(), end);
    add_parts(&mut out, &map, end);
    out.text("</svg>\n");
    out.finish()
}
