// Texts between quotes.

ghost use Rattle.std.specs.Prelude.{◌≡◌, ◌∷◌, ◌++◌, [], List, Ok, Err, OnOk, OnErr, codes, IsOk};
ghost use Rattle.zk_text.specs.declared.unit.Unit.{Unit};
ghost use Rattle.zk_text.specs.Meaning.{text_units};
ghost use Rattle.zk_text.specs.Extra.{own_characters};
ghost use Rattle.zk_inspect.specs.Listing.{quoted_bytes, quoted_character, units_text, text_text};
ghost use Rattle.zk_inspect.specs.Quoted.{quoted_units, units_or_none};

use zk_mem::memory::Memory;
use zk_term::line_writer::LineWriter;
use zk_term::writing::{write_decimal, write_texts};
use zk_text::extra::Extra;
use zk_text::shown::Shown;
use zk_text::sink::{Sink, SinkFault};
use zk_text::text::{check_text, print_text};
use zk_text::unit::Unit;

/// A character as it stands between quotes.
fn quoted(c: char) -> char
    ensures { result ≡ quoted_character c }
{
    match c {
        '\n' => '^',
        '"' => '~',
        _ => c,
    }
}

/// Writes a character as it stands between quotes.
#[tactic(auto, unfolding(crate::specs::Listing::quoted_bytes))]
pub(crate) fn write_character<P: LineWriter>(writer: &mut P, c: char)
    ensures { P.wrote writer.old writer.new (quoted_bytes (c ∷ [])) }
{
    let mut buffer = [0u8; 4];
    writer.write(quoted(c).encode_utf8(&mut buffer).as_bytes());
}

/// Writes units of text as they stand between quotes, by the extra characters in force.
#[derive(Drop)]
pub(crate) struct Quoting<'a, P> {
    writer: &'a mut P,
    extra: &'a Extra<'a>,
}

impl<'a, P> Quoting<'a, P> {
    pub(crate) fn new(writer: &'a mut P, extra: &'a Extra<'a>) -> Quoting<'a, P>
        ensures writer { result.writer ≡ writer.entry }
        ensures extra { result.extra.now ≡ extra.now }
    {
        Quoting { writer, extra }
    }
}

impl<'a, P: LineWriter> Quoting<'a, P> {
    /// Writes a character.
    fn write_one(&mut self, c: char)
        ensures kept { (self.new.writer.ghost_name ≡ self.old.writer.ghost_name)
            × (self.new.extra.now ≡ self.old.extra.now) }
        ensures text { P.wrote self.old.writer.now self.new.writer.now (quoted_bytes (c ∷ [])) }
    {
        write_character(self.writer, c);
    }

    /// Writes two spaces.
    #[tactic(auto, unfolding(crate::specs::Listing::quoted_bytes))]
    fn write_two_spaces(&mut self)
        ensures kept { (self.new.writer.ghost_name ≡ self.old.writer.ghost_name)
            × (self.new.extra.now ≡ self.old.extra.now) }
        ensures text { P.wrote self.old.writer.now self.new.writer.now (quoted_bytes (32 ∷ 32 ∷ [])) }
    {
        self.writer.write(b"  ");
    }
}

impl<'a, P: LineWriter> Sink for Quoting<'a, P> {
    ghost use Rattle.std.specs.Prelude.{◌≡◌, List, refl};
    ghost use Rattle.std.proofs.Common.{◌∙◌};
    ghost use Rattle.zk_inspect.specs.Quoted.{quoted_nothing, quoted_twice, quoted_units};

    ghost gave = { λ a b us. (b.writer.ghost_name ≡ a.writer.ghost_name)
        × (b.extra.now ≡ a.extra.now)
        × P.wrote a.writer.now b.writer.now (quoted_units a.extra.now us) };

    // once a write has failed: nothing is done with what is given
    ghost refused = { λ a b us. (b.writer.ghost_name ≡ a.writer.ghost_name)
        × (b.extra.now ≡ a.extra.now)
        × P.wrote a.writer.now b.writer.now (quoted_units a.extra.now us) };

    fn put(&mut self, unit: Unit) -> Result<(), SinkFault> {
        if self.writer.has_ended() {
            return Err(SinkFault);
        }
        match Shown::of(self.extra, unit) {
            Shown::Nothing => Ok(()),
            Shown::One(c) => {
                self.write_one(c);
                Ok(())
            }
            Shown::TwoSpaces => {
                self.write_two_spaces();
                Ok(())
            }
        }
    }

    ghost nothing = { λ a. (
      refl,
      refl,
      quoted_nothing P.wrote a.extra.now a.writer.now (P.nothing a.writer.now),
    ) };

    ghost twice = { λ a b c s t h k. (
      k.0 ∙ h.0,
      k.1 ∙ h.1,
      quoted_twice P.wrote P.twice
          a.extra.now b.extra.now a.writer.now b.writer.now c.writer.now s t h.1 h.2 k.2,
    ) };

    ghost late = { λ a b c s t h k. (
      k.0 ∙ h.0,
      k.1 ∙ h.1,
      quoted_twice P.wrote P.twice
          a.extra.now b.extra.now a.writer.now b.writer.now c.writer.now s t h.1 h.2 k.2,
    ) };
}

/// Writes a ZSCII code as it stands between quotes.
pub(crate) fn write_code<P: LineWriter>(writer: &mut P, memory: &Memory, code: u16)
    ensures { P.wrote writer.old writer.new
        (quoted_units (own_characters memory.now) (Unit.Code code ∷ [])) }
{
    let extra = Extra::of(memory);
    let mut quoting = Quoting::new(writer, &extra);
    match quoting.put(Unit::Code(code)) {
        Ok(()) => {}
        Err(SinkFault) => {}
    }
}

/// Writes the units of a text that has a meaning, as they stand between quotes.
fn write_units<P: LineWriter>(writer: &mut P, memory: &Memory, address: u32)
    requires { IsOk (text_units memory.now address) }
    ensures { P.wrote writer.old writer.new
        (quoted_units (own_characters memory.now) (units_or_none (text_units memory.now address))) }
{
    let extra = Extra::of(memory);
    let mut quoting = Quoting::new(writer, &extra);
    match print_text(memory, address, &mut quoting) {
        Ok(()) => {}
        Err(SinkFault) => {}
    }
}

/// Writes a text that has a meaning between quotes.
pub(crate) fn write_meaning<P: LineWriter>(writer: &mut P, memory: &Memory, address: u32)
    requires { IsOk (text_units memory.now address) }
    ensures { P.wrote writer.old writer.new (units_text memory.now (text_units memory.now address)) }
{
    writer.write(b"\"");
    write_units(writer, memory, address);
    writer.write(b"\"");
}

/// Writes what a text prints between quotes, or why it has no meaning. Once a write has failed no text is looked at.
pub(crate) fn write_quoted<P: LineWriter>(writer: &mut P, memory: &Memory, address: u32)
    ensures { P.wrote writer.old writer.new (units_text memory.now (text_units memory.now address)) }
{
    if writer.has_ended() {
        return;
    }
    match check_text(memory, address) {
        Ok(_) => write_meaning(writer, memory, address),
        Err(fault) => write_decimal(writer, b"! F", fault.number() as u32),
    }
}
