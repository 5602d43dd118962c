// The line that is open while a text is wrapped at words.

ghost use Rattle.std.specs.Prelude.{◌≡◌, ◌<◌, ◌≤◌, ◌||◌, ◌++◌, [], ◌∷◌, length, nat_eq, if◌then◌else◌, Some, is_err};
ghost use Rattle.std.specs.Prelude.{true, false, IfOk, OnOk, OnErr};
ghost use Rattle.std.specs.Io.KnownBytes.{Appends};
ghost use Rattle.zk_term.specs.Devices.{TookPart};
ghost use Rattle.zk_term.specs.OpenLines.{Begins, BreaksLine, EndsLine, HoldsBy, HoldsOn, IsFullFor, IsOpen};
ghost use Rattle.zk_term.specs.OpenLines.{kind_after, rest_of_text, Takes, TakesAmongWords, TakesInLine};
ghost use Rattle.zk_term.specs.WrappedTargets.{HasTaken};
ghost use Rattle.zk_term.specs.Wrapping.{columns, is_space, wrapped};

use crate::line_writer::{LineWriter, TargetWriter};
use crate::target::{Failed, Target, write_all};
use arrayvec::ArrayVec;

/// What has come of an open line: nothing, the front of a row of the upper window, words, or words and a space behind
/// them that has gone out.
#[derive(Clone, Copy, Drop)]
pub enum LineKind {
    Empty,
    Row,
    Words,
    AfterSpace,
}

/// The open line of a text that is wrapped. The last word that has come is held back with the space before it, if that
/// has not gone out, as long as it fits in the line: the first word never is. `room` is how many columns are left after
/// it.
#[derive(Drop)]
pub struct Line {
    width: usize,
    kind: LineKind,
    room: usize,
    held: ArrayVec<u8, 1024>,
}

/// How many columns a byte takes: none inside a character or in a style.
fn columns_of(byte: u8) -> usize
    ensures value { result ≡ columns (byte ∷ []) }
    ensures few { result ≤ 1 }
{
    if byte < 128 || 193 < byte { 1 } else { 0 }
}

/// How many columns bytes take.
fn all_columns_of(bytes: &[u8]) -> usize
    ensures value { result ≡ columns bytes.now }
    ensures within { result ≤ length bytes.now }
{
    bytes
        .iter()
        .filter(|byte| **byte < 128 || 193 < **byte)
        .count()
}

/// What a line is that begins with a byte.
fn kind_by(byte: u8) -> LineKind
    ensures { result ≡ (if nat_eq byte 124 then LineKind.Row else LineKind.Words) }
{
    if byte == b'|' {
        LineKind::Row
    } else {
        LineKind::Words
    }
}

/// What a line is of which all that was held back has gone out.
fn kind_after_flush(kind: LineKind, held: &[u8]) -> LineKind
    ensures { result ≡ kind_after kind held.now }
{
    match kind {
        LineKind::Words if held.len() == 1 => LineKind::AfterSpace,
        LineKind::AfterSpace if !held.is_empty() => LineKind::Words,
        other => other,
    }
}

impl Line {
    /// A line of which nothing has come.
    pub fn new(width: usize) -> Line
        ensures open { IsOpen (wrapped width) result [] [] }
        ensures width { result.width ≡ width }
    {
        Line {
            width,
            kind: LineKind::Empty,
            room: width,
            held: ArrayVec::new(),
        }
    }

    /// Takes a space: the word that is held back goes out, and the space is held back in its place. Where there is no
    /// room for it, a new line goes out.
    fn take_space<P: LineWriter>(&mut self, writer: &mut P)
        ensures width { self.new.width ≡ self.old.width }
        ensures taken { TakesAmongWords P.wrote self.old self.new writer.old writer.new 32 }
    {
        writer.write(self.held.as_slice());
        self.held.clear();
        if self.room == 0 {
            writer.write(b"\n");
            self.room = self.width;
            return;
        }
        self.held.push(b' ');
        self.room -= 1;
    }

    /// Holds a byte back behind a word that is held back, if the word still fits. `false` says that it does not.
    fn hold(&mut self, byte: u8) -> bool
        ensures held { result ≡ true → HoldsOn self.old self.new byte }
        ensures full { result ≡ false → IsFullFor self.old self.new byte }
    {
        let columns = columns_of(byte);
        if self.room < columns {
            return false;
        }
        match self.held.try_push(byte) {
            Ok(()) => {
                self.room -= columns;
                true
            }
            Err(_) => false,
        }
    }

    /// Gives out a word that is held back in a line of its own, with the byte after it.
    fn break_line<P: LineWriter>(&mut self, writer: &mut P, byte: u8)
        requires { 0 < length self.old.held.items }
        ensures { BreaksLine P.wrote self.old self.new writer.old writer.new byte }
    {
        let word = &self.held.as_slice()[1..];
        let taken = all_columns_of(word) + columns_of(byte);
        writer.write(b"\n");
        writer.write(word);
        writer.write(&[byte]);
        self.held.clear();
        self.room = self.width.saturating_sub(taken);
    }

    /// Takes a byte of a word.
    fn take_letter<P: LineWriter>(&mut self, writer: &mut P, byte: u8)
        ensures width { self.new.width ≡ self.old.width }
        ensures taken { is_space byte ≡ false
            → TakesAmongWords P.wrote self.old self.new writer.old writer.new byte }
    {
        if self.held.is_empty() {
            self.room = self.room.saturating_sub(columns_of(byte));
            writer.write(&[byte]);
            return;
        }
        if !self.hold(byte) {
            self.break_line(writer, byte);
        }
    }

    /// Takes a byte of a line of words.
    fn take_among_words<P: LineWriter>(&mut self, writer: &mut P, byte: u8)
        ensures width { self.new.width ≡ self.old.width }
        ensures taken { TakesAmongWords P.wrote self.old self.new writer.old writer.new byte }
    {
        if byte == b' ' {
            self.take_space(writer);
        } else {
            self.take_letter(writer, byte);
        }
    }

    /// Takes a byte behind a space that has gone out, or behind the front of a word that stands there and is held back.
    /// Where the word does not fit, a new line goes out before it.
    fn take_after_space<P: LineWriter>(&mut self, writer: &mut P, byte: u8)
        ensures width { self.new.width ≡ self.old.width }
        ensures taken { self.old.kind ≡ LineKind.AfterSpace
            → TakesInLine P.wrote self.old self.new writer.old writer.new byte }
    {
        if byte != b' ' {
            if self.hold(byte) {
                return;
            }
            writer.write(b"\n");
            let taken = all_columns_of(self.held.as_slice());
            self.room = self.width.saturating_sub(taken);
        }
        writer.write(self.held.as_slice());
        self.held.clear();
        self.kind = LineKind::Words;
        self.take_among_words(writer, byte);
    }

    /// Looks at the first byte of a line, whether it is a bar.
    fn begin(&mut self, byte: u8)
        ensures width { self.new.width ≡ self.old.width }
        ensures taken { HoldsBy self.old.kind self.old.held.items → Begins self.old self.new byte }
    {
        if let LineKind::Empty = self.kind {
            self.room = self.width;
            self.kind = kind_by(byte);
        }
    }

    /// Takes a byte that is no new line.
    fn take_in_line<P: LineWriter>(&mut self, writer: &mut P, byte: u8)
        ensures width { self.new.width ≡ self.old.width }
        ensures taken { TakesInLine P.wrote self.old self.new writer.old writer.new byte }
    {
        self.begin(byte);
        match self.kind {
            LineKind::Row => writer.write(&[byte]),
            LineKind::AfterSpace => self.take_after_space(writer, byte),
            LineKind::Empty | LineKind::Words => self.take_among_words(writer, byte),
        }
    }

    /// Takes a new line: what is held back goes out before it.
    fn take_new_line<P: LineWriter>(&mut self, writer: &mut P)
        ensures { EndsLine P.wrote self.old self.new writer.old writer.new }
    {
        writer.write(self.held.as_slice());
        writer.write(b"\n");
        self.held.clear();
        self.kind = LineKind::Empty;
    }

    /// Takes a byte.
    fn take<P: LineWriter>(&mut self, writer: &mut P, byte: u8)
        ensures width { self.new.width ≡ self.old.width }
        ensures taken { Takes P.wrote self.old self.new writer.old writer.new (byte ∷ []) }
    {
        if byte == b'\n' {
            self.take_new_line(writer);
        } else {
            self.take_in_line(writer, byte);
        }
    }

    /// Takes bytes.
    fn take_all<P: LineWriter>(&mut self, writer: &mut P, bytes: &[u8])
        ensures width { self.new.width ≡ self.old.width }
        ensures taken { Takes P.wrote self.old self.new writer.old writer.new bytes.now }
    {
        for byte in bytes {
            self.take(writer, *byte);
        }
    }

    /// Takes bytes of a text, and gives a target what goes out, or where a write fails a first part of it.
    pub fn write_to<T: Target>(&mut self, target: &mut T, bytes: &[u8]) -> Result<usize, Failed>
        ensures count { IfOk result (λ n. n ≡ length bytes.now) }
        ensures width { self.new.width ≡ self.old.width }
        ensures written { HasTaken (Some self.old) (Some self.new) (T.taken target.old)
            (T.taken target.new) result bytes.now }
        ensures failed { T.failed target.new ≡ (is_err result || T.failed target.old) }
    {
        let mut writer = TargetWriter::new(target);
        self.take_all(&mut writer, bytes);
        match writer.finish() {
            Ok(()) => Ok(bytes.len()),
            Err(Failed) => Err(Failed),
        }
    }

    /// Gives a target what is held back, or where a write fails a first part. The line goes on: a word of which
    /// something has gone out stays in it, and one behind a space that has gone out begins a new line if it does not
    /// fit.
    pub fn flush<T: Target>(&mut self, target: &mut T) -> Result<(), Failed>
        ensures width { self.new.width ≡ self.old.width }
        ensures kind { OnOk result
            (self.new.kind ≡ kind_after self.old.kind self.old.held.items) }
        ensures same { OnErr result (self.new.kind ≡ self.old.kind) }
        ensures room { self.new.room ≡ self.old.room }
        ensures all { OnOk result
            (Appends (T.taken target.old) (T.taken target.new) self.old.held.items) }
        ensures none { OnOk result (self.new.held.items ≡ []) }
        ensures open { OnOk result (IsOpen (rest_of_text self.new) self.new [] []) }
        ensures part { OnErr result
            (TookPart (T.taken target.old) (T.taken target.new) self.old.held.items) }
        ensures failed { T.failed target.new ≡ (is_err result || T.failed target.old) }
    {
        match write_all(target, self.held.as_slice()) {
            Ok(()) => {
                self.kind = kind_after_flush(self.kind, self.held.as_slice());
                self.held.clear();
                Ok(())
            }
            Err(Failed) => Err(Failed),
        }
    }

    /// The next text begins a line, since this one was ended elsewhere. Nothing is held back.
    pub fn restart(&mut self)
        requires { self.old.held.items ≡ [] }
        ensures width { self.new.width ≡ self.old.width }
        ensures none { self.new.held.items ≡ [] }
        ensures open { IsOpen (wrapped self.new.width) self.new [] [] }
    {
        self.kind = LineKind::Empty;
    }
}
