// Texts between quotes, shortened.

ghost use Rattle.std.specs.Prelude.{◌≡◌, ◌++◌, ◌∷◌, ◌≤◌, [], List, ℕ, Ok, take, length, nat_le, if◌then◌else◌, codes};
ghost use Rattle.std.specs.Prelude.{IsOk};
ghost use Rattle.zk_text.specs.Extra.{own_characters};
ghost use Rattle.zk_text.specs.Meaning.{text_units};
ghost use Rattle.zk_text.specs.Shown.{shown_all};
ghost use Rattle.zk_inspect.specs.Listing.{quoted_bytes};
ghost use Rattle.zk_inspect.specs.Notes.{short_text, shortened};
ghost use Rattle.zk_inspect.specs.Quoted.{units_or_none};

use crate::listing::quoting::write_character;
use crate::listing::writing::write_fault;
use arrayvec::ArrayVec;
use zk_mem::memory::Memory;
use zk_term::line_writer::LineWriter;
use zk_text::extra::Extra;
use zk_text::shown::Shown;
use zk_text::sink::{Sink, SinkFault};
use zk_text::text::{check_text, print_text};
use zk_text::unit::Unit;

/// The most characters of a text that are shown.
const MOST: usize = 60;

/// Keeps the first characters of a text, one more than are shown, by the extra characters in force.
#[derive(Drop)]
struct Beginning<'a> {
    characters: ArrayVec<char, 61>,
    extra: &'a Extra<'a>,
}

impl Beginning<'_> {
    /// Keeps a character where there is room.
    fn keep(&mut self, c: char)
        ensures kept { self.new.extra.now ≡ self.old.extra.now }
        ensures first { (all : List ℕ) → self.old.characters.items ≡ take 61 all
            → self.new.characters.items ≡ take 61 (all ++ c ∷ []) }
    {
        if self.characters.len() < MOST + 1 {
            self.characters.push(c);
        }
    }
}

impl Sink for Beginning<'_> {
    ghost use Rattle.std.specs.Prelude.{◌≡◌, ◌++◌, List, ℕ, take, refl};
    ghost use Rattle.std.proofs.Common.{◌∙◌};
    ghost use Rattle.zk_text.specs.Shown.{shown_all};
    ghost use Rattle.zk_inspect.specs.Beginnings.{kept_nothing, kept_twice};

    ghost gave = { λ a b us. (b.extra.now ≡ a.extra.now)
        × ((all : List ℕ) → a.characters.items ≡ take 61 all
        → b.characters.items ≡ take 61 (all ++ shown_all a.extra.now us)) };

    ghost refused = { λ a b us. ⊥ };

    fn put(&mut self, unit: Unit) -> Result<(), SinkFault> {
        match Shown::of(self.extra, unit) {
            Shown::Nothing => Ok(()),
            Shown::One(c) => {
                self.keep(c);
                Ok(())
            }
            Shown::TwoSpaces => {
                self.keep(' ');
                self.keep(' ');
                Ok(())
            }
        }
    }

    ghost nothing = { λ a. (refl, λ all h. kept_nothing a.extra.now all a.characters.items h) };

    ghost twice = { λ a b c s t h k. (
      k.0 ∙ h.0,
      λ all e. kept_twice a.extra.now b.extra.now all s t c.characters.items h.0 (k.1 _ (h.1 all e)),
    ) };

    ghost late = { λ a b c s t h k. k };
}

/// The first characters of a text that has a meaning, one more than are shown.
fn beginning_of(memory: &Memory, address: u32) -> ArrayVec<char, 61>
    requires { IsOk (text_units memory.now address) }
    ensures { result.items ≡ take 61 (shown_all (own_characters memory.now)
        (units_or_none (text_units memory.now address))) }
{
    let extra = Extra::of(memory);
    let mut beginning = Beginning {
        characters: ArrayVec::new(),
        extra: &extra,
    };
    match print_text(memory, address, &mut beginning) {
        Ok(()) => {}
        Err(SinkFault) => {}
    }
    beginning.characters
}

/// Writes characters as they stand between quotes.
fn write_characters<P: LineWriter>(writer: &mut P, characters: &[char])
    ensures { P.wrote writer.old writer.new (quoted_bytes characters.now) }
{
    for c in characters {
        write_character(writer, *c);
    }
}

/// The characters that are shown.
fn shown_of<'a>(beginning: &'a [char]) -> &'a [char]
    ensures { result.now ≡ take 60 beginning.now }
{
    if beginning.len() <= MOST {
        beginning
    } else {
        &beginning[..MOST]
    }
}

/// The closing quote, and dots where there are more characters.
fn end_of(beginning: &[char]) -> &'static [u8]
    ensures { result.now ≡ (if nat_le (length beginning.now) 60 then codes "\"" else codes "\"...") }
{
    if beginning.len() <= MOST {
        b"\""
    } else {
        b"\"..."
    }
}

/// Writes a text by its first characters.
fn write_shortened<P: LineWriter>(writer: &mut P, beginning: &[char])
    ensures { (cs : List ℕ) → beginning.now ≡ take 61 cs
        → P.wrote writer.old writer.new (shortened cs) }
{
    writer.write(b"\"");
    write_characters(writer, shown_of(beginning));
    writer.write(end_of(beginning));
}

/// Writes a text that has a meaning, shortened.
fn write_short_meaning<P: LineWriter>(writer: &mut P, memory: &Memory, address: u32)
    requires { IsOk (text_units memory.now address) }
    ensures { P.wrote writer.old writer.new (short_text memory.now (text_units memory.now address)) }
{
    let beginning = beginning_of(memory, address);
    write_shortened(writer, beginning.as_slice());
}

/// Writes what a text prints, shortened, or why it has no meaning. Once a write has failed no text is looked at.
pub(crate) fn write_short<P: LineWriter>(writer: &mut P, memory: &Memory, address: u32)
    ensures { P.wrote writer.old writer.new (short_text memory.now (text_units memory.now address)) }
{
    if writer.has_ended() {
        return;
    }
    match check_text(memory, address) {
        Ok(_) => write_short_meaning(writer, memory, address),
        Err(fault) => write_fault(writer, fault),
    }
}
