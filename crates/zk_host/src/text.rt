// Text that waits to be taken.

ghost use Rattle.std.specs.Prelude.{◌≡◌, ◌≤◌, ◌+◌, ◌++◌, [], drop, false, length, min, slice_get, take};
ghost use Rattle.zk_host.specs.Marks.{so_marked};
ghost use Rattle.zk_host.specs.Collecting.{no_text};
ghost use Rattle.zk_host.specs.Exports.{IsPut};
ghost use Rattle.zk_host.specs.Texts.{IsPutInFront, IsTaken};

use std::alloc::Global;
use std::collections::VecDeque;
use std::io::{BufRead, Write};
use std::marker::Model;
use zk_term::target::{Failed, Target};

/// The buffer has no room for a file.
const NO_ROOM: u32 = 3;

/// What is shown at once has fewer bytes, but for a long row of a table, or the upper window as text.
const PART: usize = 4096;

/// UTF-8 that was written and is not taken yet. Contracts see the bytes that wait, and whether there was no memory for
/// more.
#[derive(Drop)]
pub struct Text {
    bytes: VecDeque<u8>,
    failed: bool,
}

impl Model for Text {
    ghost use Rattle.zk_host.specs.Texts.{Unread};

    ghost Value = { Unread };

    ghost view = { λ t. record { bytes = t.bytes.items; failed = t.failed } };
}

/// Puts as many bytes at the front of a buffer as it has room for, and says how many.
pub fn put_front(bytes: &[u8], buffer: &mut [u8]) -> usize
    ensures { IsPutInFront bytes.now buffer.old buffer.new result }
{
    let count = bytes.len().min(buffer.len());
    buffer[..count].copy_from_slice(&bytes[..count]);
    count
}

/// Puts a file at the front of a buffer and tells its length; where there is no room for it the buffer stays.
pub fn put_file(file: &[u8], buffer: &mut [u8], length: &mut usize) -> u32
    ensures { IsPut file.now buffer.old buffer.new length.old length.new result }
{
    *length = file.len();
    if file.len() > buffer.len() {
        return NO_ROOM;
    }
    buffer[..file.len()].copy_from_slice(file);
    0
}

impl Text {
    /// No text.
    pub fn new(alloc: Global) -> Text
        ensures { result ≡ no_text }
    {
        Text {
            bytes: VecDeque::new(alloc),
            failed: false,
        }
    }

    /// How many bytes wait.
    pub fn len(&self) -> usize
        ensures { result ≡ length self.now.bytes }
    {
        self.bytes.len()
    }

    /// Whether there was no memory for some text.
    pub fn has_failed(&self) -> bool
        ensures { result ≡ self.now.failed }
    {
        self.failed
    }

    /// Makes room for what is shown at once. Says whether there is memory for it.
    pub fn make_room(&mut self) -> bool
        ensures { self.new ≡ self.old }
    {
        let waiting = self.bytes.len();
        if self.bytes.capacity() - waiting >= PART {
            return true;
        }
        self.bytes.reserve(waiting.max(PART) + PART).is_ok()
    }

    /// The first byte that waits.
    pub(crate) fn first(&self) -> Option<u8>
        ensures { result ≡ slice_get self.now.bytes 0 }
    {
        self.bytes.get(0).copied()
    }

    /// How many bytes from an index on are the same as one, up to the first that is another.
    pub(crate) fn same_from(&self, from: usize, byte: u8) -> usize
        requires { from ≤ length self.now.bytes }
        ensures value { result ≡ so_marked byte (drop from self.now.bytes) }
        ensures within { from + result ≤ length self.now.bytes }
    {
        let mut count = 0;
        while from + count < self.bytes.len() {
            match self.bytes.get(from + count) {
                Some(x) => {
                    if *x != byte {
                        return count;
                    }
                    count += 1;
                }
                None => unreachable!(),
            }
        }
        count
    }

    /// Passes over bytes at the front.
    pub(crate) fn pass(&mut self, count: usize)
        ensures { self.new ≡ record self.old { bytes = drop count self.old.bytes } }
    {
        for _i in 0..count {
            let _ = self.bytes.pop_front();
        }
    }

    /// Takes bytes from the front into a buffer, at most as many as it has room for, and says how many: none where none
    /// wait or there is no room. The bytes after them in the buffer stay as they were.
    pub fn take(&mut self, buffer: &mut [u8]) -> usize
        ensures { IsTaken self.old self.new buffer.old buffer.new result }
    {
        let (first, _) = self.bytes.as_slices();
        let count = put_front(first, buffer);
        self.bytes.consume(count);
        count
    }
}

impl Target for Text {
    ghost use Rattle.std.specs.Prelude.{◌≡◌, Some, true};

    ghost taken = { λ t. Some t.bytes };

    ghost failed = { λ t. t.failed };

    ghost fails = { λ _ t. t.failed ≡ true };

    ghost whole = { λ _. Unit {0} };

    fn write(&mut self, bytes: &[u8]) -> Result<usize, Failed> {
        match self.bytes.write(bytes) {
            Ok(count) => Ok(count),
            Err(_) => {
                self.failed = true;
                Err(Failed)
            }
        }
    }

    fn flush(&mut self) -> Result<(), Failed> {
        Ok(())
    }
}
