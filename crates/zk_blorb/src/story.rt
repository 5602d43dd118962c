// The story in a Blorb file.

ghost use Rattle.std.specs.Prelude.{◌≡◌, ◌^◌, ◌<◌, ◌≤◌, length, Ok, Err, MatchResult};
ghost use Rattle.zk_blorb.specs.Blorb.{begins_as_blorb, form_in, story_of, zcode_at};

use crate::chunk::{chunk_at, number};
use crate::index::{executable_in, index_in};
use thiserror::Error;

/// Why a file gives no story, in the order in which it is looked for.
#[derive(Clone, Copy, Debug, PartialEq, Eq, Drop, Error)]
pub enum BlorbError {
    /// The file does not begin as a Blorb file: with `FORM`, four bytes for a length, and `IFRS`.
    #[error("the file is no Blorb file")]
    NoBlorb,
    /// The form is longer than the file, or the first chunk, or that of the story, goes past the form's end.
    #[error("the Blorb file is cut off")]
    CutOff,
    /// The first chunk is no index of resources, or one of another length than its count of rows says.
    #[error("the Blorb file has no index of resources")]
    NoIndex,
    /// No row of the index is of an executable.
    #[error("the Blorb file has no story")]
    NoStory,
    /// The first executable is not for the Z-machine.
    #[error("the story in the Blorb file is not for the Z-machine")]
    NotZcode,
}

/// Whether a file begins as a Blorb file.
pub(crate) fn begins_as_blorb(file: &[u8]) -> bool
    requires { 8 ≤ length file.now }
    ensures { result ≡ begins_as_blorb file.now }
{
    file.starts_with(b"FORM") && file[8..].starts_with(b"IFRS")
}

/// The form that a file begins with, from the file's beginning.
#[tactic(auto, unfolding(crate::specs::Blorb::form_in))]
fn form_in(file: &[u8]) -> Result<&[u8], BlorbError>
    ensures { MatchResult result (λ form. form_in file.now ≡ Ok form.now)
        (λ e. form_in file.now ≡ Err e) }
{
    if file.len() < 8 || !begins_as_blorb(file) {
        return Err(BlorbError::NoBlorb);
    }
    let end = 8 + number(&file[4..8]);
    if file.len() < end {
        return Err(BlorbError::CutOff);
    }
    Ok(&file[..end])
}

/// The story at an offset of a form.
#[tactic(auto, unfolding(crate::specs::Blorb::zcode_at))]
fn zcode_at(form: &[u8], start: usize) -> Result<&[u8], BlorbError>
    requires { start < 2 ^ 32 }
    ensures { MatchResult result (λ story. zcode_at form.now start ≡ Ok story.now)
        (λ e. zcode_at form.now start ≡ Err e) }
{
    let Some(chunk) = chunk_at(form, start) else {
        return Err(BlorbError::CutOff);
    };
    if chunk.kind == b"ZCOD".as_slice() {
        Ok(chunk.content)
    } else {
        Err(BlorbError::NotZcode)
    }
}

/// The story of a Blorb file (Blorb 2.0.4): the bytes of its first executable, in the order of the index, which is that
/// of a `ZCOD` chunk. No other chunk is read but the index, and what stands after the form does not count.
///
/// The refusals, in the order in which they are looked for: `NoBlorb` where the file does not begin with `FORM`, four
/// bytes and `IFRS`; `CutOff` where the form is longer than the file, or its first chunk goes past its end; `NoIndex`
/// where that chunk is not `RIdx`, or has another length than 4 bytes and 12 for each row that it counts; `NoStory`
/// where no row has the usage `Exec`; `CutOff` where the chunk of the first such row goes past the form's end;
/// `NotZcode` where that is not `ZCOD`.
#[tactic(auto, unfolding(crate::specs::Blorb::story_of))]
pub fn story_in(file: &[u8]) -> Result<&[u8], BlorbError>
    ensures { MatchResult result (λ story. story_of file.now ≡ Ok story.now)
        (λ e. story_of file.now ≡ Err e) }
{
    let form = form_in(file)?;
    let rows = index_in(form)?;
    let start = executable_in(rows)?;
    zcode_at(form, start)
}
