// Bytes that are put together in memory.

ghost use Rattle.std.specs.Prelude.{◌≡◌, [], false, IfOk};

use std::alloc::{AllocError, Global};
use zk_mem::memory::Memory;
use zk_term::line_writer::LineWriter;

/// Bytes in memory. They remember whether memory was short.
#[derive(Drop)]
pub(crate) struct Bytes {
    bytes: Vec<u8>,
    is_short: bool,
}

impl Bytes {
    /// No bytes.
    pub(crate) fn new(alloc: Global) -> Bytes
        ensures bytes { result.bytes.items ≡ [] }
        ensures short { result.is_short ≡ false }
    {
        Bytes {
            bytes: Vec::new(alloc),
            is_short: false,
        }
    }

    /// The bytes, if memory was never short.
    pub(crate) fn finish(self) -> Result<Vec<u8>, AllocError>
        ensures { IfOk result (λ v. (self.is_short ≡ false) × (v ≡ self.bytes)) }
    {
        if self.is_short {
            Err(AllocError)
        } else {
            Ok(self.bytes)
        }
    }
}

impl LineWriter for Bytes {
    ghost use Rattle.zk_inspect.specs.Facts.{Collected, collected_none, collected_then};
    ghost use Rattle.zk_inform.specs.Bytes.{collected_late};

    ghost wrote = { λ a b s. Collected a.is_short b.is_short a.bytes.items b.bytes.items s };

    ghost ended = { λ a. a.is_short };

    fn write(&mut self, bytes: &[u8]) {
        if self.is_short {
            return;
        }
        match self.bytes.extend_from_slice(bytes) {
            Ok(()) => {}
            Err(_) => self.is_short = true,
        }
    }

    fn has_ended(&self) -> bool {
        self.is_short
    }

    ghost nothing = { λ a. collected_none a.is_short a.bytes.items };

    ghost twice = { λ a b c s t h k. collected_then _ _ _ _ _ _ s t h k };

    ghost late = { λ a s h. collected_late a.is_short a.bytes.items s h };
}
