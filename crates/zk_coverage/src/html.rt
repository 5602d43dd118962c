// What ran of a story, as a page.

ghost use Rattle.std.specs.Prelude.{◌≡◌, ◌++◌, OnOk, decimal};
ghost use Rattle.zk_coverage.specs.Page.{byte_text, cell, escaped, line_row, row_sign, row_start};

use crate::lines::LineState;
use crate::ran::{Ran, Share};
use crate::tally::{PlacedText, Report, Tally, placed_texts, routines_never_ran, texts_of};
use crate::writing::{address_digits, push_all, push_number, push_share};
use std::alloc::{AllocError, Global};
use zk_names::names::{Names, Place};
use zk_names::text::plain_text;

/// How each page begins, up to its title.
const HEAD: &[u8] = b"<!DOCTYPE html>
<html lang=\"en\">
<head>
<meta charset=\"utf-8\">
<meta name=\"viewport\" content=\"width=device-width, initial-scale=1\">
<style>
:root { color-scheme: light dark; --ran: #dff3e0; --missed: #fbe0dc; --rule: #8886; }
@media (prefers-color-scheme: dark) { :root { --ran: #12361c; --missed: #4a1c17; } }
body { font: 1rem/1.5 system-ui, sans-serif; margin: 0 auto; max-width: 70rem; padding: 0 1rem 2rem; }
h2 { border-top: 1px solid var(--rule); margin-top: 2rem; padding-top: 1rem; overflow-wrap: anywhere; }
table { border-collapse: collapse; }
th, td { padding: .2rem .8rem .2rem 0; text-align: left; vertical-align: top; }
td:first-child { overflow-wrap: anywhere; }
@media (max-width: 40rem) {
  tr { display: grid; grid-template-columns: repeat(3, 1fr); padding-bottom: .6rem; }
  th:first-child, td:first-child { grid-column: 1 / -1; }
}
meter { display: block; width: 6rem; max-width: 100%; }
ul { padding-left: 1.2rem; }
li { overflow-wrap: anywhere; }
q { font-family: ui-monospace, monospace; quotes: none; }
.code { border: 1px solid var(--rule); font: .85rem/1.4 ui-monospace, monospace; overflow-x: auto; tab-size: 4; }
.code div { min-width: max-content; padding-right: 1rem; white-space: pre; }
.code span { display: inline-block; min-width: 5ch; opacity: .7; text-align: right; }
.code b { display: inline-block; text-align: center; width: 3ch; }
.code div:target { outline: 2px solid Highlight; outline-offset: -2px; }
.ran { background: var(--ran); }
.missed { background: var(--missed); }
</style>
<title>";

/// Adds a byte of a text to a page, or what stands for it there.
fn push_byte(page: &mut Vec<u8>, byte: u8) -> Result<(), AllocError>
    ensures { OnOk result (page.new.items ≡ page.old.items ++ byte_text byte) }
{
    match byte {
        b'&' => page.extend_from_slice(b"&amp;"),
        b'<' => page.extend_from_slice(b"&lt;"),
        b'>' => page.extend_from_slice(b"&gt;"),
        b'"' => page.extend_from_slice(b"&quot;"),
        b'\'' => page.extend_from_slice(b"&#39;"),
        _ => page.extend_from_slice(&[byte]),
    }
}

/// Adds a text to a page.
fn push_text(page: &mut Vec<u8>, text: &[u8]) -> Result<(), AllocError>
    ensures { OnOk result (page.new.items ≡ page.old.items ++ escaped text.now) }
{
    for byte in text {
        push_byte(page, *byte)?;
    }
    Ok(())
}

/// Adds a text to a page, with others around it that are HTML.
fn push_within(
    page: &mut Vec<u8>,
    before: &[u8],
    text: &[u8],
    after: &[u8],
) -> Result<(), AllocError>
    ensures { OnOk result
        (page.new.items ≡ page.old.items ++ (before.now ++ (escaped text.now ++ after.now))) }
{
    page.extend_from_slice(before)?;
    push_text(page, text)?;
    page.extend_from_slice(after)
}

/// Adds a number to a page, with texts around it that are HTML.
fn push_count(
    page: &mut Vec<u8>,
    before: &[u8],
    number: usize,
    after: &[u8],
) -> Result<(), AllocError>
    ensures { OnOk result
        (page.new.items ≡ page.old.items ++ (before.now ++ (decimal number ++ after.now))) }
{
    page.extend_from_slice(before)?;
    push_number(page, number, after)
}

/// The heads of the columns of the table of files, and of that of routines.
const FILES: &[u8] = b"<table>
<tr><th>File</th><th>Lines</th><th>Routines</th><th>Texts</th></tr>
";

const ROUTINES: &[u8] = b"<table>
<tr><th>Routine</th><th>Instructions</th><th>Texts</th></tr>
";

const TABLE_END: &[u8] = b"</table>\n";

/// How the list of what never ran begins, and that of texts.
const NEVER_RAN: &[u8] = b"<h2>What never ran</h2>\n<ul>\n";

const NEVER_SHOWN: &[u8] = b"<h2>Texts that no test has shown</h2>\n<ul>\n";

const NEVER_PRINTED: &[u8] = b"<h2>Strings that no test has shown</h2>\n<ul>\n";

/// A file of the source, as a page has it.
#[derive(Drop)]
struct PageFile<'s> {
    /// Its number on the page, and that in places.
    number: usize,
    index: u32,
    path: String,
    /// Its text, if it was found.
    text: Option<&'s [u8]>,
}

/// Adds how much ran, as a bar and in numbers, in a cell of a table.
fn push_cell(page: &mut Vec<u8>, share: Share) -> Result<(), AllocError>
    ensures { OnOk result (page.new.items ≡ page.old.items ++ cell share) }
{
    push_count(page, b"<td><meter value=\"", share.ran, b"\" max=\"")?;
    push_number(page, share.listed, b"\"></meter>")?;
    push_share(page, share, b"</td>")
}

/// Adds the cells of a part of the source, and ends its row of a table.
fn push_tally(page: &mut Vec<u8>, tally: Tally) -> Result<(), AllocError> {
    push_cell(page, tally.lines)?;
    push_cell(page, tally.routines)?;
    push_cell(page, tally.texts)?;
    page.extend_from_slice(b"</tr>\n")
}

/// Adds the row of a file.
fn push_row(page: &mut Vec<u8>, file: &PageFile<'_>, tally: Tally) -> Result<(), AllocError> {
    push_count(page, b"<tr><td><a href=\"#f", file.number, b"\">")?;
    push_within(page, b"", file.path.as_bytes(), b"</a></td>")?;
    push_tally(page, tally)
}

/// Adds the rows of what has no place in the source, and of all, and ends the table.
fn push_last_rows(
    page: &mut Vec<u8>,
    report: &Report<'_, '_, '_>,
    texts: &[PlacedText<'_>],
    lines: Share,
) -> Result<(), AllocError> {
    page.extend_from_slice(b"<tr><td>without a source</td><td></td>")?;
    push_cell(page, report.routines_of(None))?;
    push_cell(page, texts_of(&report.ran, texts, None))?;
    page.extend_from_slice(b"</tr>\n<tr><td>all</td>")?;
    push_tally(page, report.all(lines))?;
    page.extend_from_slice(TABLE_END)
}

/// Adds the table of files.
fn push_files(
    page: &mut Vec<u8>,
    report: &Report<'_, '_, '_>,
    files: &[PageFile<'_>],
) -> Result<(), AllocError> {
    let texts = placed_texts(report.alloc, report.ran.texts, report.names)?;
    let mut lines = Share { ran: 0, listed: 0 };
    page.extend_from_slice(FILES)?;
    for file in files {
        let tally = report.file_tally(texts.as_slice(), file.index)?;
        lines = lines.and(tally.lines);
        push_row(page, file, tally)?;
    }
    push_last_rows(page, report, texts.as_slice(), lines)
}

/// Adds a link to a line of a file, or to the file, where its text was not found.
fn push_link(page: &mut Vec<u8>, file: &PageFile<'_>, line: u32) -> Result<(), AllocError> {
    push_count(page, b", <a href=\"#f", file.number, b"")?;
    if file.text.is_some() {
        push_count(page, b"-", line as usize, b"")?;
    }
    push_within(page, b"\">", file.path.as_bytes(), b", line ")?;
    push_number(page, line as usize, b"</a>")
}

/// Adds where something stands in the source, if that is known, and ends its item of a list.
fn push_place(
    page: &mut Vec<u8>,
    files: &[PageFile<'_>],
    place: Option<Place>,
) -> Result<(), AllocError> {
    if let Some(place) = place {
        for file in files {
            if file.index == place.file {
                push_link(page, file, place.line)?;
            }
        }
    }
    page.extend_from_slice(b"</li>\n")
}

/// Adds the list of the routines of the source that were not entered.
fn push_never_ran(
    page: &mut Vec<u8>,
    report: &Report<'_, '_, '_>,
    files: &[PageFile<'_>],
) -> Result<(), AllocError> {
    page.extend_from_slice(NEVER_RAN)?;
    let missed = routines_never_ran(report.alloc, &report.ran, report.names.routines.as_slice())?;
    for routine in missed.as_slice() {
        let name = plain_text(report.alloc, routine.name)?;
        push_within(page, b"<li>", name.as_bytes(), b"")?;
        push_place(page, files, routine.place)?;
    }
    page.extend_from_slice(b"</ul>\n")
}

/// Adds the list of the texts that lie apart from code and were not shown, if there are such texts.
fn push_never_printed(page: &mut Vec<u8>, alloc: Global, ran: &Ran<'_>) -> Result<(), AllocError> {
    if ran.strings.is_empty() {
        return Ok(());
    }
    page.extend_from_slice(NEVER_PRINTED)?;
    let missed = ran.never_shown(alloc, ran.strings)?;
    for text in missed.as_slice() {
        push_within(page, b"<li><q>", text.shown, b"</q></li>\n")?;
    }
    page.extend_from_slice(b"</ul>\n")
}

/// Adds the list of the texts that were not shown.
fn push_never_shown(
    page: &mut Vec<u8>,
    alloc: Global,
    ran: &Ran<'_>,
    names: Option<&Names<'_>>,
    files: &[PageFile<'_>],
) -> Result<(), AllocError> {
    page.extend_from_slice(NEVER_SHOWN)?;
    let missed = ran.never_shown(alloc, ran.texts)?;
    for text in missed.as_slice() {
        let place = match names {
            Some(names) => names.place_at(text.address),
            None => None,
        };
        push_within(page, b"<li><q>", text.shown, b"</q>")?;
        push_place(page, files, place)?;
    }
    page.extend_from_slice(b"</ul>\n")?;
    push_never_printed(page, alloc, ran)
}

/// How the row of a line begins in a listing, and its sign.
fn row_of(state: LineState) -> (&'static str, &'static str)
    ensures start { result.0.now ≡ row_start state }
    ensures sign { result.1.now ≡ row_sign state }
{
    match state {
        LineState::NoCode => ("<div id=\"f", " "),
        LineState::Missed => ("<div class=\"missed\" id=\"f", "-"),
        LineState::Ran => ("<div class=\"ran\" id=\"f", "+"),
    }
}

/// Adds a line of a listing, by the number of its file and its own.
#[tactic(auto, unfolding(crate::specs::Page::line_row))]
fn push_line(
    page: &mut Vec<u8>,
    file: usize,
    number: usize,
    state: LineState,
    line: &[u8],
) -> Result<(), AllocError>
    ensures { OnOk result
        (page.new.items ≡ page.old.items ++ line_row file number state line.now) }
{
    let (start, sign) = row_of(state);
    push_count(page, start.as_bytes(), file, b"-")?;
    push_number(page, number, b"\"><span>")?;
    push_number(page, number, b"</span><b>")?;
    push_all(page, &[sign.as_bytes(), b"</b>"])?;
    push_within(page, b"", line, b"</div>\n")
}

/// Adds the lines of a file, by its number. They end with a new line, before which a carriage return may stand.
fn push_lines(
    page: &mut Vec<u8>,
    file: usize,
    text: &[u8],
    states: &[LineState],
) -> Result<(), AllocError> {
    let body = text.strip_suffix(b"\n").unwrap_or(text);
    page.extend_from_slice(b"<div class=\"code\">\n")?;
    for (index, line) in body.split(|byte| *byte == b'\n').enumerate() {
        let line = line.strip_suffix(b"\r").unwrap_or(line);
        let state = states.get(index).copied().unwrap_or(LineState::NoCode);
        push_line(page, file, index.saturating_add(1), state, line)?;
    }
    page.extend_from_slice(b"</div>\n")
}

/// Adds the listing of a file.
fn push_listing(
    page: &mut Vec<u8>,
    report: &Report<'_, '_, '_>,
    file: &PageFile<'_>,
) -> Result<(), AllocError> {
    push_count(page, b"<h2 id=\"f", file.number, b"\">")?;
    push_within(page, b"", file.path.as_bytes(), b"</h2>\n")?;
    let Some(text) = file.text else {
        return page.extend_from_slice(b"<p>This file was not found.</p>\n");
    };
    let states = report.file_states(file.index)?;
    push_lines(page, file.number, text, states.as_slice())
}

/// The files that a page has: those with lines of code or routines.
fn files_of<'s>(
    report: &Report<'_, '_, '_>,
    sources: &[Option<&'s [u8]>],
) -> Result<Vec<PageFile<'s>>, AllocError> {
    let mut files = Vec::new(report.alloc);
    for (number, source) in report.names.sources.iter().enumerate() {
        if !report.file_tally(&[], source.index)?.is_empty() {
            files.push(PageFile {
                number,
                index: source.index,
                path: plain_text(report.alloc, source.given)?,
                text: sources.get(number).copied().flatten(),
            })?;
        }
    }
    Ok(files)
}

/// Adds what a page has where the names of a story are known.
fn push_by_source(
    page: &mut Vec<u8>,
    report: &Report<'_, '_, '_>,
    sources: &[Option<&[u8]>],
) -> Result<(), AllocError> {
    let files = files_of(report, sources)?;
    push_files(page, report, files.as_slice())?;
    push_never_ran(page, report, files.as_slice())?;
    push_never_shown(
        page,
        report.alloc,
        &report.ran,
        Some(report.names),
        files.as_slice(),
    )?;
    page.extend_from_slice(
        b"<p>In the files, <b>+</b> is a line that ran, and <b>-</b> one that never did.</p>\n",
    )?;
    for file in files.as_slice() {
        push_listing(page, report, file)?;
    }
    Ok(())
}

/// Adds the table of routines, by their addresses.
fn push_routines(page: &mut Vec<u8>, alloc: Global, ran: &Ran<'_>) -> Result<(), AllocError> {
    page.extend_from_slice(ROUTINES)?;
    for index in 0..ran.routines.len() {
        let digits = address_digits(alloc, ran.routines[index])?;
        let span = ran.span_at(index);
        push_all(page, &[b"<tr><td>", digits.as_bytes(), b"</td>"])?;
        push_cell(page, ran.instructions_in(span))?;
        push_cell(page, ran.texts_in(span))?;
        page.extend_from_slice(b"</tr>\n")?;
    }
    page.extend_from_slice(TABLE_END)
}

/// Adds what a page has where the names of a story are not known.
fn push_by_address(page: &mut Vec<u8>, alloc: Global, ran: &Ran<'_>) -> Result<(), AllocError> {
    push_routines(page, alloc, ran)?;
    page.extend_from_slice(NEVER_RAN)?;
    for index in 0..ran.routines.len() {
        if !ran.was_entered(ran.span_at(index)) {
            let digits = address_digits(alloc, ran.routines[index])?;
            push_all(page, &[b"<li>", digits.as_bytes(), b"</li>\n"])?;
        }
    }
    page.extend_from_slice(b"</ul>\n")?;
    push_never_shown(page, alloc, ran, None, &[])
}

/// What ran of a story, as one page in HTML that needs nothing else. Where the story's names are known, it has its
/// files, and the lines of those whose text is given: `sources` are the texts of the files of `names.sources`, in their
/// order. Otherwise it has the routines, by their addresses. `AllocError` where there is no memory for it.
pub fn page(
    alloc: Global,
    title: &str,
    ran: &Ran<'_>,
    names: Option<&Names<'_>>,
    sources: &[Option<&[u8]>],
) -> Result<Vec<u8>, AllocError> {
    let mut page = Vec::new(alloc);
    push_within(
        &mut page,
        HEAD,
        title.as_bytes(),
        b"</title>\n</head>\n<body>\n",
    )?;
    push_within(&mut page, b"<h1>", title.as_bytes(), b"</h1>\n")?;
    match names {
        Some(names) => {
            let report = Report {
                alloc,
                ran: *ran,
                names,
            };
            push_by_source(&mut page, &report, sources)?;
        }
        None => push_by_address(&mut page, alloc, ran)?,
    }
    page.extend_from_slice(b"</body>\n</html>\n")?;
    Ok(page)
}
