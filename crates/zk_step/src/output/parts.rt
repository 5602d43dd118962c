// Parts of what an instruction prints: a long text, or many rows, can be shown one part after the other.

ghost use Rattle.std.specs.Prelude.{◌≡◌, ◌≤◌, ◌<◌, ◌++◌, [], true, false, List, ℕ, None, Ok, Err, IsOk, IfOk, IfErr};
ghost use Rattle.std.specs.Prelude.{OnErr, MatchResult};
ghost use Rattle.zk_state.specs.Frames.{bounds_of};
ghost use Rattle.zk_text.specs.declared.unit.Unit.{Unit};
ghost use Rattle.zk_text.specs.Extra.{own_characters};
ghost use Rattle.zk_text.specs.Shown.{shown_all};
ghost use Rattle.zk_term.specs.Windows.{printed};
ghost use Rattle.zk_text.specs.Places.{Gives, IsPlace, Refuses, left, rest_on as place_on};
ghost use Rattle.zk_tables.specs.Rectangles.{rows_of, row_at};
ghost use Rattle.zk_step.specs.Halves.{GivesSome, IsRest, line_end, rest_on, rest_rows, rest_units, row_line, row_rest};
ghost use Rattle.zk_step.specs.Halves.{upper_rest, upper_rows, whole_of};
ghost use Rattle.zk_step.specs.Printed.{Collected, Printed};
ghost use Rattle.zk_step.specs.Printing.{units_or_none};
ghost use Rattle.zk_step.specs.Routing.{stored_all};

use crate::output::codes::Codes;
use crate::output::printer::{Collector, Printer, Selected, WindowPrinter};
use crate::output::routing::print_row_if;
use crate::state::ending::{Effect, Output};
use zk_mem::memory::Memory;
use zk_tables::arrays::rectangle::{Rectangle, give_line, give_row};
use zk_term::screen::Screen;
use zk_term::windows::Windows;
use zk_text::extra::Extra;
use zk_text::printing::{Place, print_part};
use zk_text::sink::{Sink, SinkFault};
use zk_text::unit::Unit;

/// What is still to come of what an instruction prints.
#[derive(Clone, Copy, Drop)]
pub enum Rest {
    /// A text from a place on, and whether a new line follows it.
    Text(Place, bool),
    /// The rows of a rectangle from a row on.
    Rows(Rectangle, u16),
}

/// An instruction in the middle of what it prints.
#[derive(Clone, Copy, Drop)]
pub struct Half {
    pub effect: Effect,
    pub rest: Rest,
    /// The last character that the screen got is a new line.
    pub at_line_start: bool,
}

impl Rest {
    /// All of an output, where it may be long: a text, or rows.
    pub fn of(output: Output) -> Option<Rest>
        ensures { result ≡ whole_of output }
    {
        match output {
            Output::Text(address) => Some(Rest::Text(Place::at(address), false)),
            Output::Line(address) => Some(Rest::Text(Place::at(address), true)),
            Output::Rows(rectangle) => Some(Rest::Rows(rectangle, 0)),
            _ => None,
        }
    }
}

/// Gives a sink all that is still to come of a text.
fn give_text_rest<K: Sink>(
    memory: &Memory,
    place: &mut Place,
    sink: &mut K,
) -> Result<bool, SinkFault>
    requires stands { IsPlace place.old }
    requires means { IsOk (left memory.now place.old) }
    ensures ok { IfOk result (λ on. (on ≡ false)
        × Gives K.gave sink.old sink.new (left memory.now place.old) (Ok [])) }
    ensures err { OnErr result (Refuses K.refused sink.old sink.new (left memory.now place.old)) }
{
    loop {
        match print_part(memory, place, sink, u32::MAX) {
            Ok(true) => {}
            Ok(false) => return Ok(false),
            Err(fault) => return Err(fault),
        }
    }
}

/// Gives a sink so many words of a text at most, or all of it. Says whether more is to come.
fn give_words<K: Sink>(
    memory: &Memory,
    place: &mut Place,
    sink: &mut K,
    words: Option<u32>,
) -> Result<bool, SinkFault>
    requires stands { IsPlace place.old }
    requires means { IsOk (left memory.now place.old) }
    ensures ok { IfOk result (λ on. Gives K.gave sink.old sink.new (left memory.now place.old)
        (place_on memory.now on place.new)) }
    ensures stands { IfOk result (λ on. on ≡ true → IsPlace place.new) }
    ensures whole { words ≡ None → IfOk result (λ on. on ≡ false) }
    ensures err { OnErr result (Refuses K.refused sink.old sink.new (left memory.now place.old)) }
{
    match words {
        Some(most) => print_part(memory, place, sink, most),
        None => give_text_rest(memory, place, sink),
    }
}

/// Gives a sink so many words of a text at most, and after its end a new line, if one follows. Says whether more is to
/// come.
fn give_text_part<K: Sink>(
    memory: &Memory,
    place: &mut Place,
    line: bool,
    sink: &mut K,
    words: Option<u32>,
) -> Result<bool, SinkFault>
    requires stands { IsPlace place.old }
    requires means { IsOk (left memory.now place.old) }
    ensures on { IfOk result (λ on. on ≡ true → GivesSome K.gave sink.old sink.new
        (units_or_none (left memory.now place.old) ++ line_end line)
        (units_or_none (left memory.now place.new) ++ line_end line)) }
    ensures stands { IfOk result (λ on. on ≡ true → IsPlace place.new × IsOk (left memory.now place.new)) }
    ensures off { IfOk result (λ on. on ≡ false → K.gave sink.old sink.new
        (units_or_none (left memory.now place.old) ++ line_end line)) }
    ensures whole { words ≡ None → IfOk result (λ on. on ≡ false) }
    ensures err { OnErr result (K.refused sink.old sink.new
        (units_or_none (left memory.now place.old) ++ line_end line)) }
{
    match give_words(memory, place, sink, words) {
        Ok(true) => Ok(true),
        Ok(false) => give_line_end(line, sink),
        Err(fault) => Err(fault),
    }
}

/// Gives a sink a new line, if there is one. No more is to come.
fn give_line_end<K: Sink>(line: bool, sink: &mut K) -> Result<bool, SinkFault>
    ensures off { IfOk result (λ on. (on ≡ false) × K.gave sink.old sink.new (line_end line)) }
    ensures err { OnErr result (K.refused sink.old sink.new (line_end line)) }
{
    if !line {
        return Ok(false);
    }
    match sink.put(Unit::Code(13)) {
        Ok(()) => Ok(false),
        Err(fault) => Err(fault),
    }
}

/// Gives a sink a row of a rectangle, and before each but the first a new line.
fn give_next_row<K: Sink>(
    memory: &Memory,
    rectangle: Rectangle,
    row: u16,
    sink: &mut K,
) -> Result<(), SinkFault>
    requires stands { IsOk (rows_of memory.now rectangle) }
    requires within { row < rectangle.height }
    ensures { MatchResult result
        (λ _. (codes : List ℕ) → row_at memory.now rectangle row ≡ Ok codes
        → K.gave sink.old sink.new (row_line row codes))
        (λ _. (codes : List ℕ) (more : List Unit) → row_at memory.now rectangle row ≡ Ok codes
        → K.refused sink.old sink.new (row_line row codes ++ more)) }
{
    match row {
        0 => give_row(memory, rectangle, 0, sink),
        row => give_line(memory, rectangle, row, sink),
    }
}

/// Gives a sink so many rows of a rectangle at most. Says whether more are to come.
fn give_some_rows<K: Sink>(
    memory: &Memory,
    rectangle: Rectangle,
    row: &mut u16,
    sink: &mut K,
    most: u32,
) -> Result<bool, SinkFault>
    requires stands { IsOk (rows_of memory.now rectangle) }
    requires within { row.old ≤ rectangle.height }
    ensures ok { IfOk result (λ on. GivesSome K.gave sink.old sink.new
        (row_rest row.old (rest_rows memory.now rectangle row.old))
        (row_rest row.new (rest_rows memory.now rectangle row.new))) }
    ensures within { row.new ≤ rectangle.height }
    ensures off { IfOk result (λ on. on ≡ false → row.new ≡ rectangle.height) }
    ensures whole { 65535 ≤ most → IfOk result (λ on. on ≡ false) }
    ensures err { OnErr result (K.refused sink.old sink.new
        (row_rest row.old (rest_rows memory.now rectangle row.old))) }
{
    for _i in 0..most {
        if *row >= rectangle.height {
            return Ok(false);
        }
        match give_next_row(memory, rectangle, *row, sink) {
            Ok(()) => *row += 1,
            Err(fault) => return Err(fault),
        }
    }
    Ok(*row < rectangle.height)
}

/// How many rows of a rectangle have as many Z-characters as so many words, at least one; or as many as there may be.
fn rows_in(words: Option<u32>, width: u16) -> u32
    ensures { words ≡ None → 65535 ≤ result }
{
    match words {
        Some(words) => (words.saturating_mul(3) / (width as u32 + 1)).max(1),
        None => 65_535,
    }
}

/// Gives a sink a part of what is still to come: so many words of a text, or rows as long, at most, or all. Says
/// whether more is to come.
fn give_part<K: Sink>(
    memory: &Memory,
    rest: &mut Rest,
    sink: &mut K,
    words: Option<u32>,
) -> Result<bool, SinkFault>
    requires { IsRest memory.now rest.old }
    ensures ok { IfOk result (λ on. GivesSome K.gave sink.old sink.new (rest_units memory.now rest.old)
        (rest_on memory.now on rest.new)) }
    ensures stands { IfOk result (λ on. on ≡ true → IsRest memory.now rest.new) }
    ensures whole { words ≡ None → IfOk result (λ on. on ≡ false) }
    ensures err { OnErr result (K.refused sink.old sink.new (rest_units memory.now rest.old)) }
{
    match *rest {
        Rest::Text(mut place, line) => match give_text_part(memory, &mut place, line, sink, words) {
            Ok(on) => {
                *rest = Rest::Text(place, line);
                Ok(on)
            }
            Err(fault) => Err(fault),
        },
        Rest::Rows(rectangle, mut row) => {
            let most = rows_in(words, rectangle.width);
            match give_some_rows(memory, rectangle, &mut row, sink, most) {
                Ok(on) => {
                    *rest = Rest::Rows(rectangle, row);
                    Ok(on)
                }
                Err(fault) => Err(fault),
            }
        }
    }
}

/// Shows a part of what is still to come on the screen and in the transcript, while they are on. Says whether more is
/// to come.
pub(crate) fn show_part<S: Screen>(
    memory: &Memory,
    selected: Selected,
    rest: &mut Rest,
    at_line_start: &mut bool,
    screen: &mut S,
    words: Option<u32>,
) -> bool
    requires { IsRest memory.now rest.old }
    ensures text { GivesSome
        (λ a b us. Printed S.shows (own_characters memory.now) selected a b at_line_start.old at_line_start.new us)
        screen.old screen.new (rest_units memory.now rest.old) (rest_on memory.now result rest.new) }
    ensures stands { result ≡ true → IsRest memory.now rest.new }
    ensures whole { words ≡ None → result ≡ false }
{
    // where neither gets it, the text is not walked
    if !selected.screen && !selected.script {
        return false;
    }
    let extra = Extra::of(memory);
    let mut printer = Printer {
        screen,
        extra: &extra,
        selected,
        at_line_start: *at_line_start,
    };
    match give_part(memory, rest, &mut printer, words) {
        Ok(on) => {
            *at_line_start = printer.at_line_start;
            on
        }
        Err(_) => unreachable!(),
    }
}

/// Collects a part of the codes that a table gets, as many as there is room for. Says whether more are to come.
pub(crate) fn collect_part(
    memory: &Memory,
    rest: &mut Rest,
    codes: &mut Codes,
    words: Option<u32>,
) -> bool
    requires { IsRest memory.now rest.old }
    ensures on { result ≡ true → codes.new ++ stored_all (own_characters memory.now) (rest_units memory.now rest.new)
        ≡ codes.old ++ stored_all (own_characters memory.now) (rest_units memory.now rest.old) }
    ensures stands { result ≡ true → IsRest memory.now rest.new }
    ensures whole { words ≡ None → result ≡ false }
    ensures off { result ≡ false → Collected codes.new
        (codes.old ++ stored_all (own_characters memory.now) (rest_units memory.now rest.old)) }
{
    let extra = Extra::of(memory);
    let mut collector = Collector {
        codes,
        extra: &extra,
    };
    match give_part(memory, rest, &mut collector, words) {
        Ok(on) => on,
        Err(_) => false,
    }
}

/// Prints so many rows of a rectangle at most in the upper window, each but the first from a column on. Says whether
/// more are to come.
fn print_some_rows(
    memory: &Memory,
    windows: &mut Windows,
    rectangle: Rectangle,
    row: &mut u16,
    column: u16,
    on: bool,
    most: u32,
) -> bool
    requires stands { IsOk (rows_of memory.now rectangle) }
    requires within { row.old ≤ rectangle.height }
    requires from { 1 ≤ column }
    requires to { column ≤ 256 }
    ensures value { upper_rows on (own_characters memory.now) column row.new (rest_rows memory.now rectangle row.new)
        windows.new
        ≡ upper_rows on (own_characters memory.now) column row.old (rest_rows memory.now rectangle row.old)
        windows.old }
    ensures within { row.new ≤ rectangle.height }
    ensures off { result ≡ false → row.new ≡ rectangle.height }
    ensures whole { 65535 ≤ most → result ≡ false }
{
    for _i in 0..most {
        if *row >= rectangle.height {
            return false;
        }
        if *row > 0 {
            windows.start_row(column);
        }
        print_row_if(windows, memory, rectangle, *row, on);
        *row += 1;
    }
    *row < rectangle.height
}

/// Prints so many words of a text at most in the upper window, and after its end a new line, if one follows. Says
/// whether more is to come.
fn print_text_part(
    memory: &Memory,
    windows: &mut Windows,
    place: &mut Place,
    line: bool,
    words: Option<u32>,
) -> bool
    requires stands { IsPlace place.old }
    requires means { IsOk (left memory.now place.old) }
    ensures on { result ≡ true → GivesSome (λ a b us. b ≡ printed (shown_all (own_characters memory.now) us) a)
        windows.old windows.new (units_or_none (left memory.now place.old) ++ line_end line)
        (units_or_none (left memory.now place.new) ++ line_end line) }
    ensures stands { result ≡ true → IsPlace place.new × IsOk (left memory.now place.new) }
    ensures whole { words ≡ None → result ≡ false }
    ensures off { result ≡ false → windows.new ≡ printed (shown_all (own_characters memory.now)
        (units_or_none (left memory.now place.old) ++ line_end line)) windows.old }
{
    let extra = Extra::of(memory);
    let mut printer = WindowPrinter {
        windows,
        extra: &extra,
    };
    match give_text_part(memory, place, line, &mut printer, words) {
        Ok(on) => on,
        Err(_) => unreachable!(),
    }
}

/// Prints a part of what is still to come in the upper window, while stream 1 is on. Says whether more is to come.
#[tactic(auto, unfolding(crate::specs::Halves::upper_rest))]
pub(crate) fn print_upper_part(
    memory: &Memory,
    windows: &mut Windows,
    rest: &mut Rest,
    column: u16,
    on: bool,
    words: Option<u32>,
) -> bool
    requires stands { IsRest memory.now rest.old }
    requires from { 1 ≤ column }
    requires to { column ≤ 256 }
    ensures on { result ≡ true → upper_rest on memory.now column rest.new windows.new
        ≡ upper_rest on memory.now column rest.old windows.old }
    ensures stands { result ≡ true → IsRest memory.now rest.new }
    ensures whole { words ≡ None → result ≡ false }
    ensures off { result ≡ false → windows.new ≡ upper_rest on memory.now column rest.old windows.old }
{
    match *rest {
        Rest::Text(mut place, line) => {
            if !on {
                return false;
            }
            let more = print_text_part(memory, windows, &mut place, line, words);
            *rest = Rest::Text(place, line);
            more
        }
        Rest::Rows(rectangle, mut row) => {
            let most = rows_in(words, rectangle.width);
            let more = print_some_rows(memory, windows, rectangle, &mut row, column, on, most);
            *rest = Rest::Rows(rectangle, row);
            more
        }
    }
}
