// The status line.

ghost use Rattle.std.specs.Prelude.{◌≡◌, Err, IsOk, IfOk, IfErr, OnOk, MatchResult};
ghost use Rattle.zk_step.specs.Status.{named, is_time_game, status_units, IsLineOf};

use crate::state::variables::global_of;
use zk_mem::fault::Fault;
use zk_mem::memory::Memory;
use zk_tables::properties::name;
use zk_text::text::check_text;

/// What the status line of version 3 is made of.
#[derive(Clone, Copy, Drop)]
pub struct StatusLine {
    /// The byte address of the text of an object's short name, if it has one.
    pub name: Option<u32>,
    /// The score, or the hours.
    pub first: u16,
    /// The turns, or the minutes.
    pub second: u16,
    /// The figures are a time.
    pub is_time: bool,
}

/// Whether an object's short name can be shown.
fn check_name(memory: &Memory, name: Option<u32>) -> Result<(), Fault>
    ensures { MatchResult result (λ _. IsOk (named memory.now name))
        (λ e. named memory.now name ≡ Err e) }
{
    match name {
        None => Ok(()),
        Some(address) => match check_text(memory, address) {
            Ok(_end) => Ok(()),
            Err(fault) => Err(fault),
        },
    }
}

/// Whether a story of version 3 shows a time: a bit of Flags 1 (Standard, section 8.2.3.2).
fn is_time_game(memory: &Memory) -> bool
    ensures { result ≡ is_time_game memory.now }
{
    match memory.byte(1) {
        Ok(flags) => flags / 2 % 2 == 1,
        Err(_) => false,
    }
}

/// What the status line is made of (Z-Machine Standards Document 1.1, section 8.2). Its object and figures are global
/// variables: it is `BadAddress` where one lies outside readable data, `BadObject` where the object has no entry, and
/// the fault of the object's short name where that has no meaning.
#[tactic(auto, unfolding(crate::specs::Status::status_units))]
pub fn status_line(memory: &Memory) -> Result<StatusLine, Fault>
    ensures ok { IfOk result (λ s. IsLineOf memory.now s) }
    ensures ready { OnOk result (IsOk (status_units memory.now)) }
    ensures err { IfErr result (λ e. status_units memory.now ≡ Err e) }
{
    let object = memory.word(global_of(memory, 16))?;
    let name = name(memory, object)?;
    check_name(memory, name)?;
    let first = memory.word(global_of(memory, 17))?;
    let second = memory.word(global_of(memory, 18))?;
    Ok(StatusLine {
        name,
        first,
        second,
        is_time: is_time_game(memory),
    })
}
