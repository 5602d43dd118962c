// Where two texts differ.

ghost use Rattle.std.specs.Prelude.{◌≡◌, IfNone, IfSome};
ghost use Rattle.std.specs.Str.Lines.{lines};
ghost use Rattle.zk_suite.specs.Texts.{DifferFirstAt};

use crate::lines::cut_line;
use std::fmt::{self, Display, Formatter, Write};

/// How many lines that are the same are shown before a difference.
const LINES_BEFORE: usize = 3;

/// How many lines of each text are compared from a difference on.
const WINDOW: usize = 6;

/// How many lines that are the same are shown after a difference.
const LINES_BEHIND: usize = 3;

/// The first line in which two texts differ, from 1, if they do: one that is not the same, or that stands in one of
/// them alone. The last line may have a new line after it or not, and a carriage return before a new line is no part of
/// a line.
pub fn first_difference(wanted: &[u8], played: &[u8]) -> Option<usize>
    ensures none { IfNone result (lines wanted.now ≡ lines played.now) }
    ensures some { IfSome result (λ n. DifferFirstAt (lines wanted.now) (lines played.now) n) }
{
    let mut left = wanted;
    let mut right = played;
    let mut number = 1;
    while let Some(line) = cut_line(left) {
        let Some(other) = cut_line(right) else {
            return Some(number);
        };
        if line.line != other.line {
            return Some(number);
        }
        number += 1;
        left = line.rest;
        right = other.rest;
    }
    match cut_line(right) {
        Some(_) => Some(number),
        None => None,
    }
}

/// The lines around the first difference of two texts, as `diff -u` shows them: up to three lines that are the same,
/// with a space before each, and then up to six of each text: with `-` those that the wanted one has alone, with `+`
/// those that the played one has alone. The next three that are the same end them. Bytes that are no UTF-8 and control
/// characters are shown as `?`.
#[derive(Clone, Copy, Drop)]
pub struct Difference<'a> {
    wanted: &'a [u8],
    played: &'a [u8],
    line: usize,
}

impl<'a> Difference<'a> {
    /// The first difference of two texts; none where their lines are the same.
    pub fn of(wanted: &'a [u8], played: &'a [u8]) -> Option<Difference<'a>>
        ensures none { IfNone result (lines wanted.now ≡ lines played.now) }
        ensures some { IfSome result
            (λ d. DifferFirstAt (lines wanted.now) (lines played.now) d.line) }
    {
        match first_difference(wanted, played) {
            Some(line) => Some(Difference {
                wanted,
                played,
                line,
            }),
            None => None,
        }
    }

    /// The first line that differs, from 1.
    pub fn line(&self) -> usize
        ensures { result ≡ self.now.line }
    {
        self.line
    }
}

/// A letter, or `?` for a control character.
fn shown(letter: char) -> char {
    if letter.is_control() { '?' } else { letter }
}

/// Shows a text, with `?` for control characters.
fn show_text<W: Write>(f: &mut Formatter<W>, text: &str) -> fmt::Result {
    for letter in text.chars() {
        f.write_char(shown(letter))?;
    }
    Ok(())
}

/// Shows bytes that are no text, each as `?`.
fn show_unknown<W: Write>(f: &mut Formatter<W>, bytes: &[u8]) -> fmt::Result {
    for _byte in bytes {
        f.write_str("?")?;
    }
    Ok(())
}

/// Shows the bytes of a line, with `?` for what can't be shown.
fn show_bytes<W: Write>(f: &mut Formatter<W>, bytes: &[u8]) -> fmt::Result {
    for chunk in bytes.utf8_chunks() {
        show_text(f, chunk.valid())?;
        show_unknown(f, chunk.invalid())?;
    }
    Ok(())
}

/// Shows a line, with a mark before it.
fn show_line<W: Write>(f: &mut Formatter<W>, mark: &str, line: &[u8]) -> fmt::Result {
    f.write_str(mark)?;
    show_bytes(f, line)?;
    f.write_str("\n")
}

/// Shows the lines of a text from one number on and before another, as lines that are the same.
fn show_lines<W: Write>(f: &mut Formatter<W>, text: &[u8], from: usize, end: usize) -> fmt::Result {
    let mut rest = text;
    for number in 1..end {
        let Some(cut) = cut_line(rest) else {
            return Ok(());
        };
        if from <= number {
            show_line(f, " ", cut.line)?;
        }
        rest = cut.rest;
    }
    Ok(())
}

/// Some lines of a text that follow one another.
#[derive(Clone, Copy, Drop)]
struct Window<'a> {
    lines: [Option<&'a [u8]>; WINDOW],
}

impl<'a> Window<'a> {
    /// The lines of a text from one number on.
    fn of(text: &'a [u8], from: usize) -> Window<'a> {
        let mut lines = [None; WINDOW];
        let mut rest = text;
        let mut number = 1usize;
        while let Some(cut) = cut_line(rest) {
            if let Some(index) = number.checked_sub(from) {
                match lines.get_mut(index) {
                    Some(line) => *line = Some(cut.line),
                    None => break,
                }
            }
            number = number.saturating_add(1);
            rest = cut.rest;
        }
        Window { lines }
    }

    /// The line after so many others, if there is one.
    fn line(&self, others: usize) -> Option<&'a [u8]> {
        self.lines.get(others).copied().flatten()
    }

    /// Whether there may be more lines in the text.
    fn is_full(&self) -> bool {
        self.line(WINDOW - 1).is_some()
    }
}

/// What becomes of a line of two texts.
#[derive(Clone, Copy, PartialEq, Eq, Drop)]
enum Change {
    Same,
    Removed,
    Added,
}

impl Change {
    /// What stands before the line.
    fn mark(self) -> &'static str {
        match self {
            Change::Same => " ",
            Change::Removed => "-",
            Change::Added => "+",
        }
    }
}

/// Two texts that are compared, and how many lines they have in common, in order, after so many lines of each.
#[derive(Drop)]
struct Comparison<'a> {
    wanted: Window<'a>,
    played: Window<'a>,
    common: [[usize; WINDOW + 1]; WINDOW + 1],
}

impl<'a> Comparison<'a> {
    /// Compares two texts from a line of each on.
    fn of(wanted: Window<'a>, played: Window<'a>) -> Comparison<'a> {
        let mut comparison = Comparison {
            wanted,
            played,
            common: [[0; WINDOW + 1]; WINDOW + 1],
        };
        for left in (0..WINDOW).rev() {
            comparison.count_from(left);
        }
        comparison
    }

    /// Counts what is common after so many lines of the wanted text, where it is known for one more.
    fn count_from(&mut self, left: usize) {
        for right in (0..WINDOW).rev() {
            let count = self.count(left, right);
            if let Some(row) = self.common.get_mut(left) {
                if let Some(cell) = row.get_mut(right) {
                    *cell = count;
                }
            }
        }
    }

    /// How many lines are common after so many of each text, where it is known for one more of either.
    fn count(&self, left: usize, right: usize) -> usize {
        let (below, beside) = (left.saturating_add(1), right.saturating_add(1));
        match (self.wanted.line(left), self.played.line(right)) {
            (Some(line), Some(other)) if line == other => {
                self.common(below, beside).saturating_add(1)
            }
            _ => self.common(below, right).max(self.common(left, beside)),
        }
    }

    /// How many lines are common after so many of each text.
    fn common(&self, left: usize, right: usize) -> usize {
        match self.common.get(left) {
            Some(row) => row.get(right).copied().unwrap_or(0),
            None => 0,
        }
    }

    /// What becomes of the next line, after so many of each text.
    fn next(&self, left: usize, right: usize) -> Option<(Change, &'a [u8])> {
        match (self.wanted.line(left), self.played.line(right)) {
            (Some(line), Some(other)) if line == other => Some((Change::Same, line)),
            (Some(line), Some(other)) => {
                let below = self.common(left.saturating_add(1), right);
                if below >= self.common(left, right.saturating_add(1)) {
                    Some((Change::Removed, line))
                } else {
                    Some((Change::Added, other))
                }
            }
            (Some(line), None) => Some((Change::Removed, line)),
            (None, Some(other)) => Some((Change::Added, other)),
            (None, None) => None,
        }
    }

    /// Whether nothing is known of what becomes of lines, after so many of each text: one of the texts goes on where
    /// the other one is compared no further.
    fn is_past(&self, left: usize, right: usize) -> bool {
        (left == WINDOW && self.wanted.is_full()) || (right == WINDOW && self.played.is_full())
    }

    /// Shows what becomes of the lines.
    fn show<W: Write>(&self, f: &mut Formatter<W>) -> fmt::Result {
        let (mut left, mut right) = (0usize, 0usize);
        let (mut same, mut meets) = (0usize, false);
        for _step in 0..2 * WINDOW {
            let Some((change, line)) = self.next(left, right) else {
                return Ok(());
            };
            same = match change {
                Change::Same => same.saturating_add(1),
                _ => 0,
            };
            // lines that are the same have put the texts side by side
            if same > LINES_BEHIND || (meets && self.is_past(left, right)) {
                return Ok(());
            }
            meets |= change == Change::Same;
            show_line(f, change.mark(), line)?;
            left = left.saturating_add(usize::from(change != Change::Added));
            right = right.saturating_add(usize::from(change != Change::Removed));
        }
        Ok(())
    }
}

impl Display for Difference<'_> {
    fn fmt<W: Write>(&self, f: &mut Formatter<W>) -> fmt::Result {
        let line = self.line;
        show_lines(f, self.wanted, line.saturating_sub(LINES_BEFORE), line)?;
        let wanted = Window::of(self.wanted, line);
        let played = Window::of(self.played, line);
        Comparison::of(wanted, played).show(f)
    }
}
