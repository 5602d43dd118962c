// Readers and writers that note how they went, for the lines in words.

ghost use Rattle.std.specs.Prelude.{◌≡◌, ◌≤◌, length, IfOk};

use std::cell::Cell;
use std::io::{self, Read, Write};

/// What is noted of a device: whether it failed, the system's number for that, and whether it stands at the start of a
/// line.
#[derive(Drop)]
pub struct DeviceNotes {
    failed: Cell<bool>,
    number: Cell<Option<i32>>,
    begins_line: Cell<bool>,
}

impl DeviceNotes {
    pub fn new() -> DeviceNotes {
        DeviceNotes {
            failed: Cell::new(false),
            number: Cell::new(None),
            begins_line: Cell::new(true),
        }
    }

    pub fn has_failed(&self) -> bool {
        self.failed.get()
    }

    /// Why the device failed, where the system has a number for that.
    pub fn failure(&self) -> Option<io::Error> {
        match self.number.get() {
            Some(number) => Some(io::Error::from_raw_os_error(number)),
            None => None,
        }
    }

    pub fn begins_line(&self) -> bool {
        self.begins_line.get()
    }

    /// Notes a failure.
    pub fn note(&self, error: &io::Error) {
        self.failed.set(true);
        self.number.set(error.raw_os_error());
    }
}

/// A reader or a writer whose failures are noted, and where its text stands.
#[derive(Drop)]
pub struct Watched<'a, T> {
    inner: T,
    notes: &'a DeviceNotes,
}

impl<'a, T> Watched<'a, T> {
    pub fn new(inner: T, notes: &'a DeviceNotes) -> Watched<'a, T> {
        Watched { inner, notes }
    }
}

impl<R: Read> Read for Watched<'_, R> {
    fn read(&mut self, buffer: &mut [u8]) -> io::Result<usize> {
        match self.inner.read(buffer) {
            Ok(count) => Ok(count),
            Err(error) => {
                self.notes.note(&error);
                Err(error)
            }
        }
    }
}

impl<W: Write> Write for Watched<'_, W> {
    fn write(&mut self, bytes: &[u8]) -> io::Result<usize> {
        match self.inner.write(bytes) {
            Ok(count) => {
                if let Some(last) = bytes[..count].last() {
                    self.notes.begins_line.set(*last == b'\n');
                }
                Ok(count)
            }
            Err(error) => {
                self.notes.note(&error);
                Err(error)
            }
        }
    }

    fn flush(&mut self) -> io::Result<()> {
        self.inner.flush()
    }
}
