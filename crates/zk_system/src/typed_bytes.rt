// What is typed.

ghost use Rattle.std.specs.Prelude.{◌≤◌, length};
ghost use Rattle.std.specs.Io.{ReadsAtMost};

use crate::watched::DeviceNotes;
use std::alloc::{AllocError, Global};
use std::cell::Cell;
use std::io::{self, Read};
use std::rt::Stdin;

/// Copies as many bytes as there is room for, and tells how many these are.
fn copy_to(buffer: &mut [u8], bytes: &[u8]) -> usize
    ensures given { result ≤ length bytes.now }
    ensures room { result ≤ length buffer.new }
{
    let count = bytes.len().min(buffer.len());
    buffer[..count].copy_from_slice(&bytes[..count]);
    count
}

/// What is known of standard input, by all that read it.
#[derive(Drop)]
pub struct InputNotes {
    pub device: DeviceNotes,
    /// What was read too early, and is to be read again, and how much of it was.
    kept: Cell<Option<Vec<u8>>>,
    given: Cell<usize>,
}

impl InputNotes {
    pub fn new() -> InputNotes {
        InputNotes {
            device: DeviceNotes::new(),
            kept: Cell::new(None),
            given: Cell::new(0),
        }
    }

    /// Keeps bytes that were read for a later read, behind those that are kept.
    pub fn keep(&self, alloc: Global, bytes: &[u8]) -> Result<(), AllocError> {
        let mut kept = self.kept.take().unwrap_or(Vec::new(alloc));
        let added = kept.extend_from_slice(bytes);
        self.kept.set(Some(kept));
        Ok(added?)
    }

    /// Gives the first bytes that are kept, as many as there is room for, and tells how many these are.
    pub fn give(&self, buffer: &mut [u8]) -> usize
        ensures { result ≤ length buffer.new }
    {
        let Some(kept) = self.kept.take() else {
            return 0;
        };
        let from = self.given.get().min(kept.len());
        let count = copy_to(buffer, &kept[from..]);
        if from + count < kept.len() {
            self.given.set(from + count);
            self.kept.set(Some(kept));
        } else {
            self.given.set(0);
        }
        count
    }
}

/// Standard input, behind what was read too early.
#[derive(Drop)]
pub struct TypedBytes<'a> {
    input: Stdin,
    notes: &'a InputNotes,
}

impl<'a> TypedBytes<'a> {
    pub fn new(input: Stdin, notes: &'a InputNotes) -> TypedBytes<'a> {
        TypedBytes { input, notes }
    }

    /// Reads what is kept, and then the input.
    fn read_on(&mut self, buffer: &mut [u8]) -> io::Result<usize>
        ensures { ReadsAtMost result buffer.new }
    {
        match self.notes.give(buffer) {
            0 => self.input.read(buffer),
            count => Ok(count),
        }
    }
}

impl Read for TypedBytes<'_> {
    fn read(&mut self, buffer: &mut [u8]) -> io::Result<usize> {
        let read = self.read_on(buffer);
        if let Err(error) = &read {
            self.notes.device.note(error);
        }
        read
    }
}
