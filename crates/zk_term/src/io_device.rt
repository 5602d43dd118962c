// Sources and targets over std's readers and writers.

ghost use Rattle.std.specs.Prelude.{◌≡◌, false, true};
ghost use Rattle.std.specs.Io.KnownBytes.{Consumes, IsAtEnd};

use crate::source::Source;
use crate::target::{Failed, Target};
use std::io::{Read, Write};

/// A source over a reader, or a target over a writer. Each error of it is a failure, and so is a write
/// that takes none of some bytes. A writer may hold bytes back until it is flushed: `flushed` says that it was, and
/// that nothing was written since.
#[derive(Drop)]
pub struct IoDevice<T> {
    inner: T,
    failed: bool,
    flushed: bool,
}

impl<T> IoDevice<T> {
    pub fn new(inner: T) -> IoDevice<T>
        ensures { result ≡ record { inner = inner; failed = false; flushed = false } }
    {
        IoDevice {
            inner,
            failed: false,
            flushed: false,
        }
    }

    /// The reader or writer.
    pub fn into_inner(self) -> T
        ensures { result ≡ self.inner }
    {
        self.inner
    }
}

impl<R: Read> Source for IoDevice<R> {
    ghost left = { λ o. R.remaining o.inner };

    ghost failed = { λ o. o.failed };

    ghost fails = { λ _ o. o.failed ≡ true };

    ghost gives = { λ a b bytes. Consumes (R.remaining a.inner) (R.remaining b.inner) bytes };

    ghost ends = { λ _ o. IsAtEnd (R.remaining o.inner) };

    fn read(&mut self, buffer: &mut [u8]) -> Result<usize, Failed> {
        match self.inner.read(buffer) {
            Ok(n) => Ok(n),
            Err(_) => {
                self.failed = true;
                Err(Failed)
            }
        }
    }
}

impl<W: Write> Target for IoDevice<W> {
    ghost taken = { λ o. W.contents o.inner };

    ghost failed = { λ o. o.failed };

    ghost fails = { λ _ o. o.failed ≡ true };

    ghost whole = { λ o. o.flushed ≡ true };

    fn write(&mut self, bytes: &[u8]) -> Result<usize, Failed> {
        self.flushed = false;
        match self.inner.write(bytes) {
            Ok(n) if n > 0 || bytes.is_empty() => Ok(n),
            _ => {
                self.failed = true;
                Err(Failed)
            }
        }
    }

    fn flush(&mut self) -> Result<(), Failed> {
        match self.inner.flush() {
            Ok(()) => {
                self.flushed = true;
                Ok(())
            }
            Err(_) => {
                self.failed = true;
                Err(Failed)
            }
        }
    }
}
