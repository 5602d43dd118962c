// What ran of a story, as a trace file of lcov.

ghost use Rattle.std.specs.Prelude.{◌≡◌, ◌++◌, OnOk, codes, count_by, map};
ghost use Rattle.std.specs.Str.{bytes_eq};
ghost use Rattle.zk_coverage.specs.Lines.{lines_share};
ghost use Rattle.zk_coverage.specs.Reports.{count_records, function_records, line_record, lines_records, record_byte};

use crate::lines::{LineState, share_of};
use crate::ran::{Ran, Share};
use crate::tally::{Report, span_of};
use crate::writing::{address_digits, push_all, push_number};
use std::alloc::{AllocError, Global};
use zk_names::names::{Names, Routine};
use zk_names::text::plain_text;

/// A byte of a name in a record, where a comma and a line end have a meaning of their own.
fn record_byte(byte: u8) -> u8
    ensures { result ≡ record_byte byte }
{
    match byte {
        b',' => b';',
        b'\n' | b'\r' => b' ',
        _ => byte,
    }
}

/// Adds a name to a record.
fn push_name(out: &mut Vec<u8>, name: &[u8]) -> Result<(), AllocError>
    ensures { OnOk result (out.new.items ≡ out.old.items ++ map record_byte name.now) }
{
    for byte in name {
        out.push(record_byte(*byte))?;
    }
    Ok(())
}

/// How many routines have a name.
fn count_named(routines: &[Routine<'_>], name: &[u8]) -> usize
    ensures { result ≡ count_by (λ r. bytes_eq r.name.now name.now) routines.now }
{
    let mut count = 0;
    for routine in routines {
        count += usize::from(routine.name == name);
    }
    count
}

/// The name of a routine in records: with its address, if other routines have the same name.
fn record_name(report: &Report<'_, '_, '_>, routine: &Routine<'_>) -> Result<Vec<u8>, AllocError> {
    let plain = plain_text(report.alloc, routine.name)?;
    let mut name = Vec::new(report.alloc);
    push_name(&mut name, plain.as_bytes())?;
    if count_named(report.names.routines.as_slice(), routine.name) > 1 {
        let digits = address_digits(report.alloc, routine.address)?;
        push_all(&mut name, &[b"@", digits.as_bytes()])?;
    }
    Ok(name)
}

/// Adds the records of a routine.
#[tactic(auto, unfolding(crate::specs::Reports::function_records))]
fn push_function(out: &mut Vec<u8>, line: u32, name: &[u8], entered: bool) -> Result<(), AllocError>
    ensures { OnOk result (out.new.items ≡ out.old.items ++ function_records line name.now entered) }
{
    out.extend_from_slice(b"FN:")?;
    push_number(out, line as usize, b",")?;
    push_all(out, &[name, b"\nFNDA:"])?;
    push_number(out, usize::from(entered), b",")?;
    push_all(out, &[name, b"\n"])
}

/// Adds the records of a routine, if it is in a file.
fn push_function_of(
    out: &mut Vec<u8>,
    report: &Report<'_, '_, '_>,
    routine: &Routine<'_>,
    file: u32,
) -> Result<(), AllocError> {
    let Some(place) = routine.place else {
        return Ok(());
    };
    if place.file != file {
        return Ok(());
    }
    let name = record_name(report, routine)?;
    let entered = report.ran.was_entered(span_of(routine));
    push_function(out, place.line, name.as_slice(), entered)
}

/// Adds how many of what is listed there are, and how many ran.
fn push_counts(out: &mut Vec<u8>, found: &[u8], hit: &[u8], share: Share) -> Result<(), AllocError>
    ensures { OnOk result
        (out.new.items ≡ out.old.items ++ count_records found.now hit.now share) }
{
    out.extend_from_slice(found)?;
    push_number(out, share.listed, b"\n")?;
    out.extend_from_slice(hit)?;
    push_number(out, share.ran, b"\n")
}

/// Adds the record of a line, if it has code.
fn push_line(out: &mut Vec<u8>, line: usize, state: LineState) -> Result<(), AllocError>
    ensures { OnOk result (out.new.items ≡ out.old.items ++ line_record line state) }
{
    if state == LineState::NoCode {
        return Ok(());
    }
    out.extend_from_slice(b"DA:")?;
    push_number(out, line, b",")?;
    push_number(out, usize::from(state == LineState::Ran), b"\n")
}

/// Adds the records of the lines of a file, from line 1 on.
fn push_lines(out: &mut Vec<u8>, states: &[LineState]) -> Result<(), AllocError>
    ensures { OnOk result (out.new.items ≡ out.old.items ++ lines_records 1 states.now
        ++ count_records (codes "LF:") (codes "LH:") (lines_share states.now)) }
{
    for index in 0..states.len() {
        push_line(out, index + 1, states[index])?;
    }
    push_counts(out, b"LF:", b"LH:", share_of(states))
}

/// Adds the records of the routines of a file.
fn push_functions(
    out: &mut Vec<u8>,
    report: &Report<'_, '_, '_>,
    file: u32,
) -> Result<(), AllocError> {
    for routine in report.names.routines.as_slice() {
        push_function_of(out, report, routine, file)?;
    }
    push_counts(out, b"FNF:", b"FNH:", report.routines_of(Some(file)))
}

/// Adds the records of a file, if it has lines with code or routines.
fn push_file(
    out: &mut Vec<u8>,
    report: &Report<'_, '_, '_>,
    file: u32,
    path: &[u8],
) -> Result<(), AllocError> {
    let states = report.file_states(file)?;
    if states.is_empty() && report.routines_of(Some(file)).listed == 0 {
        return Ok(());
    }
    push_all(out, &[b"TN:\nSF:", path, b"\n"])?;
    push_functions(out, report, file)?;
    push_lines(out, states.as_slice())?;
    out.extend_from_slice(b"end_of_record\n")
}

/// What ran of a story, as a trace file of lcov: of each file with lines of code or routines, these, with 1 for what
/// ran and 0 for what did not. `paths` are those of the files of `names.sources`, in their order; where there is none,
/// the path is the one that the source gives. Routines of one name have their addresses behind it. `AllocError` where
/// there is no memory for it.
pub fn trace(
    alloc: Global,
    ran: &Ran<'_>,
    names: &Names<'_>,
    paths: &[&str],
) -> Result<Vec<u8>, AllocError> {
    let report = Report {
        alloc,
        ran: *ran,
        names,
    };
    let mut out = Vec::new(alloc);
    for (index, source) in names.sources.iter().enumerate() {
        let given = plain_text(alloc, source.given)?;
        let path = match paths.get(index) {
            Some(path) => *path,
            None => given.as_str(),
        };
        push_file(&mut out, &report, source.index, path.as_bytes())?;
    }
    Ok(out)
}
