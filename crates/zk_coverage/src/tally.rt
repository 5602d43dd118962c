// What ran of the files and the routines of a source.

ghost use Rattle.std.specs.Prelude.{◌≡◌, ◌+◌, ◌<◌, ℕ, IfOk, filter, map};
ghost use Rattle.zk_coverage.specs.Coverage.{AreInOrder, all_routines, is_of, never_ran, placed, placed_share};
ghost use Rattle.zk_coverage.specs.Coverage.{routines_share, span_of};
ghost use Rattle.zk_coverage.specs.Lines.{line_state, lowest_line, state_at};
ghost use Rattle.zk_coverage.specs.Tallies.{all_tally, file_tally, is_empty, routine_share};

use crate::lines::{LineState, Lines, count_lines, lowest_line, states_of};
use crate::ran::{Ran, Share, Span, Text, within};
use std::alloc::{AllocError, Global};
use zk_names::names::{Names, Place, Routine};

/// A text, and where it stands in the source.
#[derive(Clone, Copy, Drop)]
pub(crate) struct PlacedText<'a> {
    pub text: Text<'a>,
    pub place: Option<Place>,
}

/// What ran of a part of the source.
#[derive(Clone, Copy, Drop)]
pub(crate) struct Tally {
    pub lines: Share,
    pub routines: Share,
    pub texts: Share,
}

impl Tally {
    /// Whether there are no lines with code and no routines.
    pub fn is_empty(&self) -> bool
        ensures { result ≡ is_empty self.now }
    {
        self.lines.listed == 0 && self.routines.listed == 0
    }
}

/// What a report by the lines of the source is made of.
#[derive(Clone, Copy, Drop)]
pub(crate) struct Report<'r, 'n, 'm> {
    pub alloc: Global,
    pub ran: Ran<'r>,
    pub names: &'n Names<'m>,
}

/// Whether a place is in a file; or there is no place, where no file is asked for.
pub(crate) fn is_of(file: Option<u32>, place: Option<Place>) -> bool
    ensures { result ≡ is_of file place }
{
    match (file, place) {
        (None, None) => true,
        (Some(file), Some(place)) => place.file == file,
        _ => false,
    }
}

/// Where the instructions of a routine lie.
pub(crate) fn span_of(routine: &Routine<'_>) -> Span
    ensures { result ≡ span_of routine.now }
{
    let start = u64::from(routine.address);
    Span {
        low: start + 1,
        high: start + u64::from(routine.length),
    }
}

/// Texts with their places.
pub(crate) fn placed_texts<'a>(
    alloc: Global,
    texts: &[Text<'a>],
    names: &Names<'_>,
) -> Result<Vec<PlacedText<'a>>, AllocError>
    ensures { IfOk result (λ v. v.items ≡ map (placed names.now) texts.now) }
{
    let mut placed = Vec::new(alloc);
    for text in texts {
        let place = names.place_at(text.address);
        placed.push(PlacedText { text: *text, place })?;
    }
    Ok(placed)
}

/// How many routines of a file were entered, or of those that have no place.
pub(crate) fn routines_of(ran: &Ran<'_>, routines: &[Routine<'_>], file: Option<u32>) -> Share
    ensures { AreInOrder ran.now → result ≡ routines_share ran.now file routines.now }
{
    let mut share = Share { ran: 0, listed: 0 };
    for routine in routines {
        if is_of(file, routine.place) {
            share.ran += usize::from(ran.was_entered(span_of(routine)));
            share.listed += 1;
        }
    }
    share
}

/// Whether a routine of the source was not entered.
fn never_ran(ran: &Ran<'_>, routine: &Routine<'_>) -> bool
    ensures { AreInOrder ran.now → result ≡ never_ran ran.now routine.now }
{
    routine.place.is_some() && !ran.was_entered(span_of(routine))
}

/// The routines of the source that were not entered.
pub(crate) fn routines_never_ran<'m>(
    alloc: Global,
    ran: &Ran<'_>,
    routines: &[Routine<'m>],
) -> Result<Vec<Routine<'m>>, AllocError>
    ensures { IfOk result (λ v. AreInOrder ran.now
        → v.items ≡ filter (never_ran ran.now) routines.now) }
{
    let mut missed = Vec::new(alloc);
    for routine in routines {
        if never_ran(ran, routine) {
            missed.push(*routine)?;
        }
    }
    Ok(missed)
}

/// How many routines were entered.
pub(crate) fn all_routines(ran: &Ran<'_>, routines: &[Routine<'_>]) -> Share
    ensures { AreInOrder ran.now → result ≡ all_routines ran.now routines.now }
{
    let mut entered = 0;
    for routine in routines {
        entered += usize::from(ran.was_entered(span_of(routine)));
    }
    Share {
        ran: entered,
        listed: routines.len(),
    }
}

/// How many texts of a file were shown, or of those that have no place.
pub(crate) fn texts_of(ran: &Ran<'_>, texts: &[PlacedText<'_>], file: Option<u32>) -> Share
    ensures { AreInOrder ran.now → result ≡ placed_share ran.now.covered.now file texts.now }
{
    let mut share = Share { ran: 0, listed: 0 };
    for placed in texts {
        if is_of(file, placed.place) {
            share.ran += usize::from(ran.has_run(placed.text.address));
            share.listed += 1;
        }
    }
    share
}

impl Report<'_, '_, '_> {
    /// The states of the lines of a file, from line 1 on.
    pub fn file_states(&self, file: u32) -> Result<Vec<LineState>, AllocError>
        ensures { IfOk result (λ v. AreInOrder self.now.ran → (k : ℕ) → k < 1000000
            → state_at v.items k ≡ line_state self.now.ran.covered.now self.now.names.now.points.items
            file (1 + k)) }
    {
        let lines = Lines { file, first: 1 };
        states_of(self.alloc, &self.ran, self.names.points.as_slice(), lines)
    }

    /// How many routines of a file were entered, or of those that have no place.
    pub fn routines_of(&self, file: Option<u32>) -> Share
        ensures { AreInOrder self.now.ran → result
            ≡ routines_share self.now.ran file self.now.names.now.routines.items }
    {
        routines_of(&self.ran, self.names.routines.as_slice(), file)
    }

    /// What ran of a file.
    pub fn file_tally(&self, texts: &[PlacedText<'_>], file: u32) -> Result<Tally, AllocError>
        ensures { IfOk result (λ t. AreInOrder self.now.ran
            → t ≡ file_tally self.now.ran self.now.names.now texts.now file) }
    {
        let points = self.names.points.as_slice();
        let lines = count_lines(self.alloc, &self.ran, points, Lines { file, first: 1 })?;
        Ok(Tally {
            lines,
            routines: self.routines_of(Some(file)),
            texts: texts_of(&self.ran, texts, Some(file)),
        })
    }

    /// What ran of all, by what ran of its lines.
    pub fn all(&self, lines: Share) -> Tally
        ensures { AreInOrder self.now.ran → result
            ≡ all_tally self.now.ran self.now.names.now lines }
    {
        Tally {
            lines,
            routines: all_routines(&self.ran, self.names.routines.as_slice()),
            texts: self.ran.shown_of(self.ran.texts),
        }
    }

    /// How many of a routine's lines in a file ran.
    pub fn routine_lines(&self, routine: &Routine<'_>, file: u32) -> Result<Share, AllocError>
        ensures { IfOk result (λ s. AreInOrder self.now.ran
            → s ≡ routine_share self.now.ran self.now.names.now routine.now file) }
    {
        let points = self.names.points_of(routine);
        let first = lowest_line(points);
        count_lines(self.alloc, &self.ran, points, Lines { file, first })
    }
}
