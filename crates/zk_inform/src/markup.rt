// Texts of a story as XML has them.

ghost use Rattle.std.specs.Prelude.{◌≡◌, ◌∷◌, [], IsOk};
ghost use Rattle.std.specs.List.{flat_map};
ghost use Rattle.zk_text.specs.Extra.{own_characters};
ghost use Rattle.zk_text.specs.Meaning.{text_units};
ghost use Rattle.zk_inspect.specs.Quoted.{units_or_none};
ghost use Rattle.zk_inform.specs.Markup.{markup, marked_units, plain, text_of};

use zk_mem::memory::Memory;
use zk_term::line_writer::LineWriter;
use zk_text::extra::Extra;
use zk_text::shown::Shown;
use zk_text::sink::{Sink, SinkFault};
use zk_text::text::{check_text, print_text};
use zk_text::unit::Unit;

/// A character of a name: a space for a new line, and `?` for what is no character of XML (XML 1.0, section 2.2).
fn plain(c: char) -> char
    ensures { result ≡ plain c }
{
    match c {
        '\n' => ' ',
        '\u{fffe}' => '?',
        '\u{ffff}' => '?',
        _ => c,
    }
}

/// Writes a character, or the entity that stands for it (XML 1.0, section 4.6).
#[tactic(auto, unfolding(crate::specs::Markup::markup))]
fn write_character<P: LineWriter>(writer: &mut P, c: char)
    ensures { P.wrote writer.old writer.new (markup c) }
{
    match c {
        '&' => writer.write(b"&amp;"),
        '<' => writer.write(b"&lt;"),
        '>' => writer.write(b"&gt;"),
        '"' => writer.write(b"&quot;"),
        _ => {
            let mut buffer = [0u8; 4];
            writer.write(plain(c).encode_utf8(&mut buffer).as_bytes());
        }
    }
}

/// Writes units of text as XML has them, by the extra characters in force.
#[derive(Drop)]
struct Marking<'a, P> {
    writer: &'a mut P,
    extra: &'a Extra<'a>,
}

impl<'a, P> Marking<'a, P> {
    fn new(writer: &'a mut P, extra: &'a Extra<'a>) -> Marking<'a, P>
        ensures writer { result.writer ≡ writer.entry }
        ensures extra { result.extra.now ≡ extra.now }
    {
        Marking { writer, extra }
    }
}

impl<'a, P: LineWriter> Marking<'a, P> {
    /// Writes a character.
    fn write_one(&mut self, c: char)
        ensures kept { (self.new.writer.ghost_name ≡ self.old.writer.ghost_name)
            × (self.new.extra.now ≡ self.old.extra.now) }
        ensures text { P.wrote self.old.writer.now self.new.writer.now (flat_map markup (c ∷ [])) }
    {
        write_character(self.writer, c);
    }

    /// Writes two spaces.
    #[tactic(auto, unfolding(crate::specs::Markup::markup))]
    fn write_two_spaces(&mut self)
        ensures kept { (self.new.writer.ghost_name ≡ self.old.writer.ghost_name)
            × (self.new.extra.now ≡ self.old.extra.now) }
        ensures text { P.wrote self.old.writer.now self.new.writer.now (flat_map markup (32 ∷ 32 ∷ [])) }
    {
        self.writer.write(b"  ");
    }
}

impl<'a, P: LineWriter> Sink for Marking<'a, P> {
    ghost use Rattle.std.specs.Prelude.{◌≡◌, List, refl};
    ghost use Rattle.std.proofs.Common.{◌∙◌};
    ghost use Rattle.zk_inform.specs.Markup.{marked_nothing, marked_twice, marked_units};

    ghost gave = { λ a b us. (b.writer.ghost_name ≡ a.writer.ghost_name)
        × (b.extra.now ≡ a.extra.now)
        × P.wrote a.writer.now b.writer.now (marked_units a.extra.now us) };

    // once memory was short: nothing is done with what is given
    ghost refused = { λ a b us. (b.writer.ghost_name ≡ a.writer.ghost_name)
        × (b.extra.now ≡ a.extra.now)
        × P.wrote a.writer.now b.writer.now (marked_units a.extra.now us) };

    fn put(&mut self, unit: Unit) -> Result<(), SinkFault> {
        if self.writer.has_ended() {
            return Err(SinkFault);
        }
        match Shown::of(self.extra, unit) {
            Shown::Nothing => Ok(()),
            Shown::One(c) => {
                self.write_one(c);
                Ok(())
            }
            Shown::TwoSpaces => {
                self.write_two_spaces();
                Ok(())
            }
        }
    }

    ghost nothing = { λ a. (
      refl,
      refl,
      marked_nothing P.wrote a.extra.now a.writer.now (P.nothing a.writer.now),
    ) };

    ghost twice = { λ a b c s t h k. (
      k.0 ∙ h.0,
      k.1 ∙ h.1,
      marked_twice P.wrote P.twice
          a.extra.now b.extra.now a.writer.now b.writer.now c.writer.now s t h.1 h.2 k.2,
    ) };

    ghost late = { λ a b c s t h k. (
      k.0 ∙ h.0,
      k.1 ∙ h.1,
      marked_twice P.wrote P.twice
          a.extra.now b.extra.now a.writer.now b.writer.now c.writer.now s t h.1 h.2 k.2,
    ) };
}

/// Writes the units of a text that has a meaning.
fn write_units<P: LineWriter>(writer: &mut P, memory: &Memory, address: u32)
    requires { IsOk (text_units memory.now address) }
    ensures { P.wrote writer.old writer.new
        (marked_units (own_characters memory.now) (units_or_none (text_units memory.now address))) }
{
    let extra = Extra::of(memory);
    let mut marking = Marking::new(writer, &extra);
    match print_text(memory, address, &mut marking) {
        Ok(()) => {}
        Err(SinkFault) => {}
    }
}

/// Writes what the text at a byte address prints, and nothing where it has no meaning (Z-Machine Standards Document
/// 1.1, section 3).
#[tactic(auto, unfolding(crate::specs::Markup::text_of))]
pub(crate) fn write_text<P: LineWriter>(writer: &mut P, memory: &Memory, address: u32)
    ensures { P.wrote writer.old writer.new (text_of memory.now address) }
{
    match check_text(memory, address) {
        Ok(_) => write_units(writer, memory, address),
        Err(_) => writer.write(b""),
    }
}
