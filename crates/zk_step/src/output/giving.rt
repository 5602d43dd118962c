// What an instruction prints, given to a sink as units.

ghost use Rattle.std.specs.Prelude.{◌≡◌, ◌∷◌, [], ◌++◌, List, map, ℕ, Ok, IsOk, OnOk, OnErr};
ghost use Rattle.zk_text.specs.declared.unit.Unit.{Unit};
ghost use Rattle.zk_text.specs.Meaning.{text_units};
ghost use Rattle.zk_text.specs.declared.unit.Unit.TheVariants as unit;
ghost use Rattle.std.specs.Int.{cast_signed, w16};
ghost use Rattle.std.specs.Fmt.{decimal, signed_decimal};
ghost use Rattle.zk_tables.specs.Rectangles.{rows_of, joined_rows};
ghost use Rattle.zk_step.specs.Printing.{units_of, units_or_none, rows_or_none, IsReady};
ghost use Rattle.zk_step.specs.Status.{code_units, two_digits, figures, named, line_units};

use crate::output::status::StatusLine;
use crate::state::ending::Output;
use itoa::Buffer;
use zk_mem::memory::Memory;
use zk_tables::arrays::rectangle::{Rectangle, give_rectangle};
use zk_text::sink::{Sink, SinkFault};
use zk_text::text::print_text;
use zk_text::unit::Unit;

/// Gives ZSCII codes to a sink.
pub fn give_codes<K: Sink>(sink: &mut K, codes: &[u8]) -> Result<(), SinkFault>
    ensures ok { OnOk result (K.gave sink.old sink.new (code_units codes.now)) }
    ensures err { OnErr result
        ((more : List Unit) → K.refused sink.old sink.new (code_units codes.now ++ more)) }
{
    for code in codes {
        sink.put(Unit::Code(*code as u16))?;
    }
    Ok(())
}

/// Gives a signed number to a sink.
pub fn give_number<K: Sink>(sink: &mut K, word: u16) -> Result<(), SinkFault>
    ensures ok { OnOk result
        (K.gave sink.old sink.new (code_units (signed_decimal (cast_signed w16 word)))) }
    ensures err { OnErr result ((more : List Unit) → K.refused sink.old sink.new
        (code_units (signed_decimal (cast_signed w16 word)) ++ more)) }
{
    let mut buffer = Buffer::new();
    give_codes(sink, buffer.format(word.cast_signed()).as_bytes())
}

/// Gives a text to a sink.
pub fn give_text<K: Sink>(sink: &mut K, memory: &Memory, a: u32) -> Result<(), SinkFault>
    requires { IsOk (text_units memory.now a) }
    ensures ok { OnOk result (K.gave sink.old sink.new (units_or_none (text_units memory.now a))) }
    ensures err { OnErr result
        (K.refused sink.old sink.new (units_or_none (text_units memory.now a))) }
{
    print_text(memory, a, sink)
}

/// Gives what an instruction prints to a sink, whose refusal ends every text that begins with what it refused.
#[tactic(auto, unfolding(crate::specs::Printing::units_of))]
pub fn give_output<K: Sink>(memory: &Memory, output: Output, sink: &mut K) -> Result<(), SinkFault>
    requires ready { IsReady memory.now output }
    requires longer { (a b : K) (us more : List Unit) → K.refused a b us
        → K.refused a b (us ++ more) }
    ensures ok { OnOk result (K.gave sink.old sink.new (units_of memory.now output)) }
    ensures err { OnErr result (K.refused sink.old sink.new (units_of memory.now output)) }
{
    match output {
        Output::Nothing | Output::Status | Output::Erasure | Output::Bleep(_) => Ok(()),
        Output::Code(code) => sink.put(Unit::Code(code)),
        Output::Character(character) => sink.put(Unit::Character(character)),
        Output::Number(word) => give_number(sink, word),
        Output::Text(a) => give_text(sink, memory, a),
        Output::Line(a) => {
            give_text(sink, memory, a)?;
            sink.put(Unit::Code(13))
        }
        Output::Rows(rectangle) => give_rows(sink, memory, rectangle),
    }
}

/// Gives the rows of a rectangle to a sink.
fn give_rows<K: Sink>(sink: &mut K, memory: &Memory, rectangle: Rectangle) -> Result<(), SinkFault>
    requires { IsOk (rows_of memory.now rectangle) }
    ensures ok { OnOk result
        (K.gave sink.old sink.new (joined_rows (rows_or_none (rows_of memory.now rectangle)))) }
    ensures err { OnErr result
        (K.refused sink.old sink.new (joined_rows (rows_or_none (rows_of memory.now rectangle)))) }
{
    give_rectangle(memory, rectangle, sink)
}

/// Gives ZSCII codes to a sink that refuses no unit.
fn give_all<K: Sink>(sink: &mut K, codes: &[u8])
    requires { (a b : K) (us : List Unit) → K.refused a b us → ⊥ }
    ensures { K.gave sink.old sink.new (code_units codes.now) }
{
    match give_codes(sink, codes) {
        Ok(()) => {}
        Err(_) => unreachable!(),
    }
}

/// Gives a number without a sign.
fn give_decimal<K: Sink>(sink: &mut K, number: u16)
    requires { (a b : K) (us : List Unit) → K.refused a b us → ⊥ }
    ensures { K.gave sink.old sink.new (code_units (decimal number)) }
{
    let mut buffer = Buffer::new();
    give_all(sink, buffer.format(number).as_bytes());
}

/// Gives a number with at least two digits.
fn give_two_digits<K: Sink>(sink: &mut K, number: u16)
    requires { (a b : K) (us : List Unit) → K.refused a b us → ⊥ }
    ensures { K.gave sink.old sink.new (code_units (two_digits number)) }
{
    if number >= 10 {
        give_decimal(sink, number);
        return;
    }
    give_all(sink, b"0");
    give_decimal(sink, number);
}

/// Gives a signed number.
fn give_signed<K: Sink>(sink: &mut K, number: u16)
    requires { (a b : K) (us : List Unit) → K.refused a b us → ⊥ }
    ensures { K.gave sink.old sink.new (code_units (signed_decimal (cast_signed w16 number))) }
{
    let mut buffer = Buffer::new();
    give_all(sink, buffer.format(number.cast_signed()).as_bytes());
}

/// Gives the score and the turns, or hours and minutes.
fn give_figures<K: Sink>(sink: &mut K, time: bool, a: u16, b: u16)
    requires { (a b : K) (us : List Unit) → K.refused a b us → ⊥ }
    ensures { K.gave sink.old sink.new (code_units (figures time a b)) }
{
    if time {
        give_two_digits(sink, a);
        give_all(sink, b":");
        give_two_digits(sink, b);
        return;
    }
    give_signed(sink, a);
    give_all(sink, b"/");
    give_signed(sink, b);
}

/// Gives an object's short name.
fn give_name<K: Sink>(sink: &mut K, memory: &Memory, name: Option<u32>)
    requires sure { (a b : K) (us : List Unit) → K.refused a b us → ⊥ }
    requires ready { IsOk (named memory.now name) }
    ensures { (units : List Unit) → named memory.now name ≡ Ok units
        → K.gave sink.old sink.new units }
{
    match name {
        None => {}
        Some(a) => match give_text(sink, memory, a) {
            Ok(()) => {}
            Err(_) => unreachable!(),
        },
    }
}

/// Gives a status line to a sink that refuses no unit.
pub fn give_status<K: Sink>(memory: &Memory, line: StatusLine, sink: &mut K)
    requires sure { (a b : K) (us : List Unit) → K.refused a b us → ⊥ }
    requires ready { IsOk (named memory.now line.name) }
    ensures { (units : List Unit) → named memory.now line.name ≡ Ok units
        → K.gave sink.old sink.new (line_units units line.is_time line.first line.second) }
{
    give_all(sink, b"[");
    give_name(sink, memory, line.name);
    give_all(sink, b"] ");
    give_figures(sink, line.is_time, line.first, line.second);
}
