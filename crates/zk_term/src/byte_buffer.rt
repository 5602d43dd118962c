// Bytes on their way to a target.

ghost use Rattle.std.specs.Prelude.{◌≡◌, [], ◌++◌, ◌||◌, is_err, OnOk, OnErr, encode_utf8};
ghost use Rattle.std.specs.Io.KnownBytes.{Appends};
ghost use Rattle.zk_term.specs.Devices.{HasJust, PassedOn, TookPart};

use crate::style::Style;
use crate::target::{Failed, Target, write_all};
use arrayvec::ArrayVec;
use std::marker::Model;

/// Bytes that wait to be given to a target, at most 1,024: they go out together where there is no more room, before
/// another style, and at `flush`.
#[derive(Drop)]
pub struct ByteBuffer {
    waiting: ArrayVec<u8, 1024>,
    /// The style that the target was told last.
    style: Style,
}

impl Model for ByteBuffer {
    ghost use Rattle.std.specs.Prelude.{List, ℕ};

    ghost Value = { List ℕ };

    ghost view = { λ o. o.waiting.items };
}

impl ByteBuffer {
    /// No bytes.
    pub fn new() -> ByteBuffer
        ensures { result ≡ [] }
    {
        ByteBuffer {
            waiting: ArrayVec::new(),
            style: Style::roman(),
        }
    }

    /// Gives all bytes that wait to a target, or where a write fails a first part of them. `Failed` says that the last
    /// write failed.
    pub fn flush<T: Target>(&mut self, target: &mut T) -> Result<(), Failed>
        ensures all { OnOk result (Appends (T.taken target.old) (T.taken target.new) self.old) }
        ensures none { OnOk result (self.new ≡ []) }
        ensures part { OnErr result (TookPart (T.taken target.old) (T.taken target.new) self.old) }
        ensures failed { T.failed target.new ≡ (is_err result || T.failed target.old) }
        ensures fails { OnErr result (HasJust T.fails target.new) }
    {
        match write_all(target, self.waiting.as_slice()) {
            Ok(()) => {
                self.waiting.clear();
                Ok(())
            }
            Err(Failed) => Err(Failed),
        }
    }

    /// Has a target that shows styles show what comes next in one, if that is another than before. What waits goes out
    /// first, or where a write fails a first part of it. `Failed` says that the last write failed.
    fn restyle<T: Target>(&mut self, target: &mut T, style: Style) -> Result<(), Failed>
        ensures all { OnOk result
            (PassedOn (T.taken target.old) (T.taken target.new) self.old self.new) }
        ensures part { OnErr result (TookPart (T.taken target.old) (T.taken target.new) self.old) }
        ensures failed { T.failed target.new ≡ (is_err result || T.failed target.old) }
        ensures fails { OnErr result (HasJust T.fails target.new) }
    {
        if !target.shows_styles() || style == self.style {
            return Ok(());
        }
        self.flush(target)?;
        target.show_in(style)?;
        self.style = style;
        Ok(())
    }

    /// Gives all bytes that wait to a target, which then holds nothing back, and shows roman text again; or where a
    /// write fails a first part of them. `Failed` says that the last write failed.
    pub fn end<T: Target>(&mut self, target: &mut T) -> Result<(), Failed>
        ensures all { OnOk result (Appends (T.taken target.old) (T.taken target.new) self.old) }
        ensures none { OnOk result (self.new ≡ []) }
        ensures whole { OnOk result (T.whole target.new) }
        ensures part { OnErr result (TookPart (T.taken target.old) (T.taken target.new) self.old) }
        ensures failed { T.failed target.new ≡ (is_err result || T.failed target.old) }
        ensures fails { OnErr result (HasJust T.fails target.new) }
    {
        self.restyle(target, Style::roman())?;
        self.flush(target)?;
        target.flush()
    }

    /// Adds the UTF-8 of a character to the bytes that wait, to be shown in a style. Where there is no room for it
    /// these go out first, or where a write fails a first part of them. `Failed` says that the last write failed.
    pub fn put_in<T: Target>(&mut self, target: &mut T, c: char, style: Style) -> Result<(), Failed>
        ensures all { OnOk result (PassedOn (T.taken target.old) (T.taken target.new)
            (self.old ++ encode_utf8 c) self.new) }
        ensures part { OnErr result (TookPart (T.taken target.old) (T.taken target.new) self.old) }
        ensures failed { T.failed target.new ≡ (is_err result || T.failed target.old) }
        ensures fails { OnErr result (HasJust T.fails target.new) }
    {
        self.restyle(target, style)?;
        self.put(target, c)
    }

    /// Adds the UTF-8 of a character to the bytes that wait. Where there is no room for it these go out first, or
    /// where a write fails a first part of them. `Failed` says that the last write failed.
    pub fn put<T: Target>(&mut self, target: &mut T, c: char) -> Result<(), Failed>
        ensures all { OnOk result (PassedOn (T.taken target.old) (T.taken target.new)
            (self.old ++ encode_utf8 c) self.new) }
        ensures part { OnErr result (TookPart (T.taken target.old) (T.taken target.new) self.old) }
        ensures failed { T.failed target.new ≡ (is_err result || T.failed target.old) }
        ensures fails { OnErr result (HasJust T.fails target.new) }
    {
        let mut buffer = [0u8; 4];
        let bytes = c.encode_utf8(&mut buffer).as_bytes();
        if self.waiting.remaining_capacity() < bytes.len() {
            self.flush(target)?;
        }
        match self.waiting.try_extend_from_slice(bytes) {
            Ok(()) => Ok(()),
            Err(_) => unreachable!(),
        }
    }
}
