// What ran of a story, in lines for readers.

ghost use Rattle.std.specs.Prelude.{◌≡◌, ◌++◌, IfOk, IsNone, OnOk};
ghost use Rattle.zk_coverage.specs.Coverage.{AreInOrder};
ghost use Rattle.zk_coverage.specs.Reports.{address_lines, routine_line, span_line, start_line};
ghost use Rattle.zk_coverage.specs.Reports.{strings_line, summary_by_address, tally_line};
ghost use Rattle.zk_coverage.specs.Tallies.{rest_line};

use crate::ran::{Ran, Share, Span};
use crate::tally::{PlacedText, Report, Tally, placed_texts, span_of, texts_of};
use crate::writing::{address_digits, push_all, push_number, push_share};
use std::alloc::{AllocError, Global};
use zk_names::names::{Names, Routine, Source};
use zk_names::text::plain_text;

/// Adds how many lines, routines and texts ran.
#[tactic(auto, unfolding(crate::specs::Reports::tally_line))]
fn push_tally(out: &mut Vec<u8>, tally: Tally) -> Result<(), AllocError>
    ensures { OnOk result (out.new.items ≡ out.old.items ++ tally_line tally) }
{
    push_share(out, tally.lines, b" lines, ")?;
    push_share(out, tally.routines, b" routines, ")?;
    push_share(out, tally.texts, b" texts\n")
}

/// What ran of a routine.
#[derive(Clone, Copy, Drop)]
struct RoutineTally {
    lines: Share,
    texts: Share,
}

/// Adds the line of a routine, which begins at a line of its file.
#[tactic(auto, unfolding(crate::specs::Reports::routine_line))]
fn push_routine(
    out: &mut Vec<u8>,
    name: &str,
    line: u32,
    tally: RoutineTally,
) -> Result<(), AllocError>
    ensures { OnOk result (out.new.items ≡ out.old.items ++ routine_line name.now line tally) }
{
    push_all(out, &[b"  ", name.as_bytes(), b" at line "])?;
    push_number(out, line as usize, b": ")?;
    push_share(out, tally.lines, b" lines, ")?;
    push_share(out, tally.texts, b" texts\n")
}

/// Adds the line of a routine of a file.
fn push_routine_of(
    out: &mut Vec<u8>,
    report: &Report<'_, '_, '_>,
    routine: &Routine<'_>,
    file: u32,
) -> Result<(), AllocError> {
    let Some(place) = routine.place else {
        return Ok(());
    };
    if place.file != file {
        return Ok(());
    }
    let tally = RoutineTally {
        lines: report.routine_lines(routine, file)?,
        texts: report.ran.texts_in(span_of(routine)),
    };
    let name = plain_text(report.alloc, routine.name)?;
    push_routine(out, name.as_str(), place.line, tally)
}

/// Adds the lines of the routines of a file.
fn push_routines(
    out: &mut Vec<u8>,
    report: &Report<'_, '_, '_>,
    file: u32,
) -> Result<(), AllocError> {
    for routine in report.names.routines.as_slice() {
        push_routine_of(out, report, routine, file)?;
    }
    Ok(())
}

/// Adds the lines of a file and of its routines, if it has any.
fn push_file(
    out: &mut Vec<u8>,
    report: &Report<'_, '_, '_>,
    source: &Source<'_>,
    tally: Tally,
) -> Result<(), AllocError> {
    if tally.is_empty() {
        return Ok(());
    }
    let path = plain_text(report.alloc, source.given)?;
    push_all(out, &[path.as_bytes(), b": "])?;
    push_tally(out, tally)?;
    push_routines(out, report, source.index)
}

/// Adds the lines of all files, and counts the lines that ran.
fn push_files(
    out: &mut Vec<u8>,
    report: &Report<'_, '_, '_>,
    texts: &[PlacedText<'_>],
) -> Result<Share, AllocError> {
    let mut lines = Share { ran: 0, listed: 0 };
    for source in report.names.sources.as_slice() {
        let tally = report.file_tally(texts, source.index)?;
        lines = lines.and(tally.lines);
        push_file(out, report, source, tally)?;
    }
    Ok(lines)
}

/// Adds the line of what has no place in the source.
fn push_rest(
    out: &mut Vec<u8>,
    report: &Report<'_, '_, '_>,
    texts: &[PlacedText<'_>],
) -> Result<(), AllocError>
    ensures { OnOk result (AreInOrder report.now.ran
        → out.new.items ≡ out.old.items ++ rest_line report.now.ran report.now.names.now texts.now) }
{
    let routines = report.routines_of(None);
    let texts = texts_of(&report.ran, texts, None);
    out.extend_from_slice(b"without a source: ")?;
    push_share(out, routines, b" routines, ")?;
    push_share(out, texts, b" texts\n")
}

/// Adds the line of the texts that lie apart from code, if there are any.
#[tactic(auto, unfolding(crate::specs::Reports::strings_line))]
fn push_strings(out: &mut Vec<u8>, ran: &Ran<'_>) -> Result<(), AllocError>
    ensures { OnOk result
        (AreInOrder ran.now → out.new.items ≡ out.old.items ++ strings_line ran.now) }
{
    if ran.strings.is_empty() {
        return Ok(());
    }
    out.extend_from_slice(b"strings: ")?;
    push_share(out, ran.shown_of(ran.strings), b" texts\n")
}

/// The lines of a story whose source is known.
fn summary_by_source(report: &Report<'_, '_, '_>) -> Result<Vec<u8>, AllocError> {
    let texts = placed_texts(report.alloc, report.ran.texts, report.names)?;
    let mut out = Vec::new(report.alloc);
    let lines = push_files(&mut out, report, texts.as_slice())?;
    push_rest(&mut out, report, texts.as_slice())?;
    out.extend_from_slice(b"all: ")?;
    push_tally(&mut out, report.all(lines))?;
    push_strings(&mut out, &report.ran)?;
    Ok(out)
}

/// Adds how many instructions and texts of a span ran.
#[tactic(auto, unfolding(crate::specs::Reports::span_line))]
fn push_span(out: &mut Vec<u8>, ran: &Ran<'_>, span: Span) -> Result<(), AllocError>
    ensures { OnOk result
        (AreInOrder ran.now → out.new.items ≡ out.old.items ++ span_line ran.now span) }
{
    push_share(out, ran.instructions_in(span), b" instructions, ")?;
    push_share(out, ran.texts_in(span), b" texts\n")
}

/// Adds the line of the instructions before the first routine, if there are any.
fn push_start(out: &mut Vec<u8>, ran: &Ran<'_>) -> Result<(), AllocError>
    ensures { OnOk result
        (AreInOrder ran.now → out.new.items ≡ out.old.items ++ start_line ran.now) }
{
    let span = ran.span_of_start();
    if ran.instructions_in(span).listed == 0 {
        return Ok(());
    }
    out.extend_from_slice(b"start: ")?;
    push_span(out, ran, span)
}

/// Adds the lines of the routines, by their addresses.
fn push_addresses(out: &mut Vec<u8>, alloc: Global, ran: &Ran<'_>) -> Result<(), AllocError>
    ensures { OnOk result (AreInOrder ran.now
        → out.new.items ≡ out.old.items ++ address_lines ran.now ran.now.routines.now) }
{
    for index in 0..ran.routines.len() {
        let digits = address_digits(alloc, ran.routines[index])?;
        push_all(out, &[b"routine ", digits.as_bytes(), b": "])?;
        push_span(out, ran, ran.span_at(index))?;
    }
    Ok(())
}

/// The lines of a story whose source is not known.
#[tactic(auto, unfolding(crate::specs::Reports::summary_by_address))]
fn summary_by_address(alloc: Global, ran: &Ran<'_>) -> Result<Vec<u8>, AllocError>
    ensures { IfOk result (λ v. AreInOrder ran.now → v.items ≡ summary_by_address ran.now) }
{
    let mut out = Vec::new(alloc);
    push_start(&mut out, ran)?;
    push_addresses(&mut out, alloc, ran)?;
    out.extend_from_slice(b"all: ")?;
    push_share(&mut out, ran.shown_of(ran.texts), b" texts\n")?;
    push_strings(&mut out, ran)?;
    Ok(out)
}

/// What ran of a story, in lines: where its names are known by files and their routines, and otherwise by routines.
/// `AllocError` where there is no memory for it.
pub fn summary(
    alloc: Global,
    ran: &Ran<'_>,
    names: Option<&Names<'_>>,
) -> Result<Vec<u8>, AllocError>
    ensures by_address { IfOk result
        (λ v. IsNone names.entry → AreInOrder ran.now → v.items ≡ summary_by_address ran.now) }
{
    match names {
        Some(names) => {
            let report = Report {
                alloc,
                ran: *ran,
                names,
            };
            summary_by_source(&report)
        }
        None => summary_by_address(alloc, ran),
    }
}
