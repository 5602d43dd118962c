// The lines of a file that have code, and those that ran.

ghost use Rattle.std.specs.Prelude.{◌≡◌, ◌≢◌, ◌+◌, ◌-◌, ◌≤◌, ℕ, IfOk, OnOk, length, max, vec_len};
ghost use Rattle.zk_coverage.specs.Coverage.{AreInOrder};
ghost use Rattle.zk_coverage.specs.Lines.{file_share, index_in, line_state, lines_share, lowest_line};
ghost use Rattle.zk_coverage.specs.Lines.{state_at, with_point};

use crate::ran::{Ran, Share};
use std::alloc::{AllocError, Global};
use zk_names::names::{Place, Point};

/// Lines of larger numbers do not count: no source has so many.
const LAST_LINE: u32 = 1_000_000;

/// Whether a line of the source has code, and ran.
#[derive(Clone, Copy, PartialEq, Eq, Drop)]
pub enum LineState {
    NoCode,
    Missed,
    Ran,
}

/// The lines of a file from a first one on.
#[derive(Clone, Copy, Drop)]
pub(crate) struct Lines {
    pub file: u32,
    pub first: u32,
}

impl Lines {
    /// How many lines before a place there are, if it is on one of them.
    fn index_of(self, place: Place) -> Option<usize>
        ensures { result ≡ index_in self place }
    {
        if place.file == self.file && self.first <= place.line && place.line <= LAST_LINE {
            Some((place.line - self.first) as usize)
        } else {
            None
        }
    }
}

/// The state of a line that has a sequence point more, by whether that ran.
fn with_point(state: LineState, ran: bool) -> LineState
    ensures { result ≡ with_point state ran }
{
    if ran || state == LineState::Ran {
        LineState::Ran
    } else {
        LineState::Missed
    }
}

/// Adds lines without code, until there are so many.
fn fill(states: &mut Vec<LineState>, count: usize) -> Result<(), AllocError>
    ensures filled { OnOk result (count ≤ vec_len states.new) }
    ensures bound { OnOk result
        (length states.new.items ≤ max (length states.old.items) count) }
    ensures states { OnOk result
        ((k : ℕ) → state_at states.new.items k ≡ state_at states.old.items k) }
{
    for _ in states.len()..count {
        states.push(LineState::NoCode)?;
    }
    Ok(())
}

/// Notes a sequence point on a line, by whether it ran.
fn note_point(states: &mut Vec<LineState>, index: usize, ran: bool) -> Result<(), AllocError>
    requires { index ≤ 1000000 }
    ensures bound { OnOk result
        (length states.new.items ≤ max (length states.old.items) (index + 1)) }
    ensures point { OnOk result
        (state_at states.new.items index ≡ with_point (state_at states.old.items index) ran) }
    ensures others { OnOk result
        ((k : ℕ) → k ≢ index → state_at states.new.items k ≡ state_at states.old.items k) }
{
    fill(states, index + 1)?;
    states[index] = with_point(states[index], ran);
    Ok(())
}

/// The states of lines, up to the last one that has one of these sequence points.
pub(crate) fn states_of(
    alloc: Global,
    ran: &Ran<'_>,
    points: &[Point],
    lines: Lines,
) -> Result<Vec<LineState>, AllocError>
    ensures bound { IfOk result (λ v. length v.items ≤ 1000001 - lines.first) }
    ensures states { IfOk result (λ v. AreInOrder ran.now → (k : ℕ) → lines.first + k ≤ 1000000
        → state_at v.items k ≡ line_state ran.now.covered.now points.now lines.file (lines.first + k)) }
{
    let mut states = Vec::new(alloc);
    for point in points {
        if let Some(index) = lines.index_of(point.place) {
            note_point(&mut states, index, ran.has_run(point.address))?;
        }
    }
    Ok(states)
}

/// The lowest line of sequence points; the highest number where there are none.
pub(crate) fn lowest_line(points: &[Point]) -> u32
    ensures { result ≡ lowest_line points.now }
{
    let mut lowest = u32::MAX;
    for point in points {
        lowest = lowest.min(point.place.line);
    }
    lowest
}

/// How many lines of a file have code, by these sequence points, and how many of them ran.
pub(crate) fn count_lines(
    alloc: Global,
    ran: &Ran<'_>,
    points: &[Point],
    lines: Lines,
) -> Result<Share, AllocError>
    ensures { IfOk result (λ s. AreInOrder ran.now
        → s ≡ file_share ran.now.covered.now points.now lines) }
{
    let states = states_of(alloc, ran, points, lines)?;
    Ok(share_of(states.as_slice()))
}

/// How many of the lines that have code ran.
pub(crate) fn share_of(states: &[LineState]) -> Share
    ensures { result ≡ lines_share states.now }
{
    let mut ran = 0;
    let mut listed = 0;
    for state in states {
        ran += usize::from(*state == LineState::Ran);
        listed += usize::from(*state != LineState::NoCode);
    }
    Share { ran, listed }
}
