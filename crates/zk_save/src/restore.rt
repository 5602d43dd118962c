// Saved games are restored.

ghost use Rattle.std.specs.Prelude.{◌≡◌, ◌<◌, ◌≤◌, ◌^◌, length, Ok, Err, IfOk, IfErr, MatchResult};
ghost use Rattle.std.specs.Result.{result_err};
ghost use Rattle.zk_state.specs.Frames.{bounds_of};
ghost use Rattle.zk_save.specs.Loading.{restored};
ghost use Rattle.zk_save.specs.Counted.{parts_cut, CanRestore};

use crate::checks::{count, is_of_story, memory_fits};
use crate::parts::{Parts, form, parts_in};
use crate::reading::number;
use crate::writes::{put_memory, put_stack};
use std::fmt::{self, Display, Formatter, Write};
use thiserror::Error;
use zk_mem::memory::Memory;
use zk_state::frames::Frames;
use zk_state::refusal::Limit;

/// Why a file is not restored, in the order in which it is looked for. A file of less than 12 bytes is
/// truncated, whatever it begins with.
#[derive(Clone, Copy, Debug, PartialEq, Eq, Drop, Error)]
pub enum RestoreError {
    /// The file is no saved game: no form of the kind `IFZS`.
    NotQuetzal,
    /// The file ends too early, or lacks a part.
    Truncated,
    /// The saved game is of another story.
    OtherStory,
    /// The memory does not fit the story.
    BadMemory,
    /// The frames can't be read.
    BadStack,
    /// There are more frames or words than there may be.
    Limit(Limit),
}

impl RestoreError {
    /// What is wrong with the file, in words.
    pub fn text(self) -> &'static str {
        match self {
            RestoreError::NotQuetzal => "the file is no saved game",
            RestoreError::Truncated => "the saved game is cut off",
            RestoreError::OtherStory => "the saved game is of another story",
            RestoreError::BadMemory => "the memory of the saved game is bad",
            RestoreError::BadStack => "the frames of the saved game are bad",
            RestoreError::Limit(limit) => limit.text(),
        }
    }
}

impl Display for RestoreError {
    fn fmt<W: Write>(&self, f: &mut Formatter<W>) -> fmt::Result {
        f.write_str(self.text())
    }
}

/// The parts of a saved game that can be restored, or why it can't be. Nothing is changed.
#[tactic(auto, unfolding(crate::specs::Loading::restored))]
fn checked<'a>(file: &'a [u8], memory: &Memory, frames: &Frames) -> Result<Parts<'a>, RestoreError>
    ensures ok { IfOk result (λ p. CanRestore file.now memory.now frames.now (parts_cut p)) }
    ensures err { IfErr result (λ e. restored file.now memory.now frames.now ≡ Err e) }
    ensures story { IfOk result (λ p. 13 ≤ length p.story.now) }
{
    let form = form(file)?;
    let Some(parts) = parts_in(form) else {
        return Err(RestoreError::Truncated);
    };
    if !is_of_story(memory, parts.story) {
        return Err(RestoreError::OtherStory);
    }
    if !memory_fits(memory, &parts.memory) {
        return Err(RestoreError::BadMemory);
    }
    let Some(sizes) = count(parts.stack) else {
        return Err(RestoreError::BadStack);
    };
    if sizes.frames > frames.most_frames() as usize {
        return Err(RestoreError::Limit(Limit::Frames));
    }
    if sizes.words > frames.most_words() as usize {
        return Err(RestoreError::Limit(Limit::Words));
    }
    Ok(parts)
}

/// Why a file would not be restored, if so (see `restore`).
pub fn refusal(file: &[u8], memory: &Memory, frames: &Frames) -> Option<RestoreError>
    ensures { result ≡ result_err (restored file.now memory.now frames.now) }
{
    match checked(file, memory, frames) {
        Ok(_) => None,
        Err(error) => Some(error),
    }
}

/// Restores a saved game (Quetzal 1.4; Standard, section 15, `restore`): its dynamic memory and its frames
/// take the place of these, and the address is told where the run goes on: the address of the branch data of
/// `save` in version 3, of its store byte from version 4 on. Bits 0 and 1 of Flags 2 stay, and the header's
/// fields that an interpreter sets are set again (Standard, section 6.1.2). No memory is asked for.
///
/// The chunks may come in any order; the first of each name counts, and of `CMem` and `UMem` the first of
/// both. Other chunks, and bytes after the form, are passed over.
///
/// Nothing changes where the file is refused. The refusals, in the order in which they are looked for:
/// `Truncated` where the file has fewer than 12 bytes; `NotQuetzal` where it is no form of the kind `IFZS`;
/// `Truncated` where the form is longer than the file or shorter than its kind, where a chunk passes the
/// form's end, or where `IFhd` with 13 bytes, a chunk of memory, or `Stks` is missing; `OtherStory` where the
/// release, the serial number or the checksum is not the story's; `BadMemory` where packed memory ends in a
/// lone zero or gives more bytes than there are below the static base, or plain memory has another number of
/// them; `BadStack` where the frames don't begin with one whose first six bytes are zeros, where one is cut
/// off, or where bits are set that have no meaning; `Limit` where there are more frames, or else more words,
/// than there may be.
pub fn restore(file: &[u8], memory: &mut Memory, frames: &mut Frames) -> Result<u32, RestoreError>
    ensures value { MatchResult result
        (λ pc. restored file.now memory.old frames.old ≡ Ok (memory.new, frames.new, pc))
        (λ e. (restored file.now memory.old frames.old ≡ Err e) × (memory.new ≡ memory.old)
        × (frames.new ≡ frames.old)) }
    ensures pc { IfOk result (λ pc. pc < 2 ^ 24) }
    ensures base { memory.new.static_base ≡ memory.old.static_base }
    ensures story { (memory.new.file ≡ memory.old.file)
        × (memory.new.setup ≡ memory.old.setup) }
    ensures bounds { bounds_of frames.new ≡ bounds_of frames.old }
{
    let parts = checked(file, memory, frames)?;
    put_memory(memory, &parts.memory);
    put_stack(frames, parts.stack);
    Ok(number(&parts.story[10..13]))
}
