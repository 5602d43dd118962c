// Texts that are put together of pieces.

use std::alloc::{AllocError, Global};
use std::fmt::Write;

/// A piece of a text.
#[derive(Clone, Copy, Drop)]
pub enum Piece<'a> {
    Text(&'a str),
    Number(u64),
    /// A byte address, as five hexadecimal digits at least.
    Address(u64),
    /// A number of hundredths, with two digits after a full stop.
    Hundredths(u64),
}

/// Adds a piece.
fn add_piece(out: &mut String, piece: Piece<'_>) -> Result<(), AllocError> {
    match piece {
        Piece::Text(text) => out.push_str(text),
        Piece::Number(number) => write!(out, "{number}"),
        Piece::Address(address) => write!(out, "{address:05x}"),
        Piece::Hundredths(hundredths) => {
            let whole = hundredths / 100;
            let rest = hundredths % 100;
            write!(out, "{whole}.{rest:02}")
        }
    }
}

/// A text that is put together. It remembers whether memory was short, and `finish` tells that: so what adds to it need
/// not.
#[derive(Drop)]
pub struct TextBuilder {
    text: String,
    is_short: bool,
}

impl TextBuilder {
    /// No text.
    pub fn new(alloc: Global) -> TextBuilder {
        TextBuilder {
            text: String::new(alloc),
            is_short: false,
        }
    }

    /// Remembers whether memory was short for something.
    pub fn note(&mut self, is_short: bool) {
        self.is_short |= is_short;
    }

    /// Adds a text.
    pub fn text(&mut self, text: &str) {
        let done = self.text.push_str(text);
        self.note(done.is_err());
    }

    /// Adds a line.
    pub fn line(&mut self, line: &str) {
        self.text(line);
        self.text("\n");
    }

    /// Adds a character.
    pub fn character(&mut self, shown: char) {
        let done = self.text.push(shown);
        self.note(done.is_err());
    }

    /// Adds pieces, one after the other.
    pub fn pieces(&mut self, pieces: &[Piece<'_>]) {
        for piece in pieces {
            let done = add_piece(&mut self.text, *piece);
            self.note(done.is_err());
        }
    }

    /// The text, if memory was never short.
    pub fn finish_text(self) -> Result<String, AllocError> {
        if self.is_short {
            Err(AllocError)
        } else {
            Ok(self.text)
        }
    }

    /// The bytes of the text, if memory was never short.
    pub fn finish(self) -> Result<Vec<u8>, AllocError> {
        Ok(self.finish_text()?.into_bytes())
    }
}
