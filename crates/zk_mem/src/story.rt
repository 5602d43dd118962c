// Opening a story file.

ghost use Rattle.std.specs.Prelude.{◌≡◌, ◌⊎◌, IfOk, IfErr, Some, None};
ghost use Rattle.zk_mem.specs.Story.{greatest_length, refusal, refusal_number};
ghost use Rattle.zk_mem.specs.Header.{header_of};
ghost use Rattle.zk_mem.specs.Checksum.{has_right_sum};

use crate::checksum::is_right;
use crate::header::{Header, header_at_front, word_of};
use std::alloc::{AllocError, Global};
use std::marker::Model;
use std::sync::ArcSlice;
use thiserror::Error;

/// Why a file is no story, in the order in which it is looked for.
#[derive(Clone, Copy, Debug, PartialEq, Eq, Drop, Error)]
pub enum OpenError {
    /// The file is shorter than the header, 64 bytes.
    #[error("the file is shorter than a header")]
    TooShort,
    /// A version that is not played, by its number.
    #[error("version {0} is not played")]
    Version(u8),
    /// The file is longer than its version allows: 131,072 bytes in version 3, 262,144 in versions 4
    /// and 5, 524,288 in version 8.
    #[error("the file is too long for its version")]
    TooLong,
    /// Static memory begins inside the header or past the file.
    #[error("static memory begins inside the header or past the file")]
    StaticBase,
    /// The first instruction lies at or past the end of the file.
    #[error("the first instruction lies past the file")]
    FirstInstruction,
    /// There is no memory for the story.
    #[error("out of memory")]
    OutOfMemory,
}

impl OpenError {
    /// The number by which reports name the refusal.
    pub fn number(self) -> u8
        ensures { result ≡ refusal_number self }
    {
        match self {
            OpenError::TooShort => 1,
            OpenError::Version(_) => 2,
            OpenError::TooLong => 3,
            OpenError::StaticBase => 4,
            OpenError::FirstInstruction => 5,
            OpenError::OutOfMemory => 6,
        }
    }
}

/// A story file: bytes that are a story (Z-Machine Standards Document 1.1, sections 1 and 11). Any number of machines
/// may share it.
#[derive(Drop)]
pub struct Story {
    pub(crate) bytes: ArcSlice<u8, Global>,
}

impl Model for Story {
    ghost use Rattle.std.specs.Prelude.{List, ℕ, ◌≡◌, None};

    ghost Value = { List ℕ };

    ghost use Rattle.zk_mem.specs.Story.{refusal};

    ghost view = { λ s. s.bytes.items.value.items };

    ghost invariant = { λ s. refusal s.bytes.items.value.items ≡ None };
}

impl Story {
    /// Takes a copy of a story file's bytes, or says the first reason why they are no story. Want of
    /// memory is looked for last.
    pub fn open(alloc: Global, file: &[u8]) -> Result<Story, OpenError>
        ensures ok { IfOk result (λ s. (s ≡ file.now) × (refusal file.now ≡ None)) }
        ensures err { IfErr result (λ e. (refusal file.now ≡ Some e)
            ⊎ ((e ≡ OpenError.OutOfMemory) × (refusal file.now ≡ None))) }
    {
        if let Some(e) = refusal_of(file) {
            return Err(e);
        }
        match ArcSlice::from_slice(alloc, file) {
            Ok(bytes) => Ok(Story { bytes }),
            Err(_) => Err(OpenError::OutOfMemory),
        }
    }

    /// The story of a file's bytes, which it keeps and doesn't copy, or the first reason why they are no story. Want
    /// of memory is looked for last.
    pub fn of(file: Vec<u8>) -> Result<Story, OpenError>
        ensures ok { IfOk result (λ s. (s ≡ file.items) × (refusal file.items ≡ None)) }
        ensures err { IfErr result (λ e. (refusal file.items ≡ Some e)
            ⊎ ((e ≡ OpenError.OutOfMemory) × (refusal file.items ≡ None))) }
    {
        if let Some(e) = refusal_of(file.as_slice()) {
            return Err(e);
        }
        match ArcSlice::from_vec(file) {
            Ok(bytes) => Ok(Story { bytes }),
            Err(_) => Err(OpenError::OutOfMemory),
        }
    }

    /// The same story once more, over the same bytes.
    pub fn try_clone(&self) -> Result<Story, AllocError>
        ensures { IfOk result (λ s. s ≡ self.now) }
    {
        let bytes = self.bytes.clone()?;
        Ok(Story { bytes })
    }

    /// What the file's header says.
    #[tactic(auto, using(crate::proofs::Bounds::none_bounds))]
    pub fn header(&self) -> Header
        ensures { result ≡ header_of self.now }
    {
        header_at_front(self.bytes.as_slice())
    }

    /// Whether the stated length lies in the file, and the sum of its bytes after the header is the one
    /// that the header states (Standard, section 15, `verify`).
    #[tactic(auto, using(crate::proofs::Bounds::none_bounds))]
    pub fn checksum_ok(&self) -> bool
        ensures { result ≡ has_right_sum self.now }
    {
        let file = self.bytes.as_slice();
        is_right(file, &header_at_front(file))
    }
}

/// The greatest length of a story file of a version, of those that are played.
fn greatest_length_of(version: u8) -> Option<usize>
    ensures { result ≡ greatest_length version }
{
    match version {
        3 => Some(131_072),
        4 | 5 => Some(262_144),
        8 => Some(524_288),
        _ => None,
    }
}

/// The first reason why a file is no story, but for lack of memory.
#[tactic(auto, unfolding(crate::specs::Story::refusal))]
fn refusal_of(file: &[u8]) -> Option<OpenError>
    ensures { result ≡ refusal file.now }
{
    if file.len() < 64 {
        return Some(OpenError::TooShort);
    }
    let Some(most) = greatest_length_of(file[0]) else {
        return Some(OpenError::Version(file[0]));
    };
    if file.len() > most {
        return Some(OpenError::TooLong);
    }
    let static_base = word_of(file, 0x0e) as usize;
    if static_base < 64 || static_base > file.len() {
        return Some(OpenError::StaticBase);
    }
    if word_of(file, 0x06) as usize >= file.len() {
        return Some(OpenError::FirstInstruction);
    }
    None
}
