// What a text of a story is, as a name.

ghost use Rattle.std.specs.Prelude.{◌≡◌, ◌∷◌, [], IsOk};
ghost use Rattle.std.specs.List.{list_all};
ghost use Rattle.zk_text.specs.Meaning.{text_units};
ghost use Rattle.zk_inspect.specs.Quoted.{units_or_none};
ghost use Rattle.zk_inform.specs.Names.{first_or, first_unit, is_mark, is_name_unit, naming_at, naming_by};
ghost use Rattle.zk_inform.specs.Names.{naming_of_word, object_naming, shown_by, shown_naming, spelling_of};

use zk_mem::fault::Fault;
use zk_mem::header::unpack;
use zk_mem::memory::Memory;
use zk_tables::properties::name;
use zk_text::sink::{Sink, SinkFault};
use zk_text::text::{check_text, print_text};
use zk_text::unit::Unit;
use zk_text::walked::words_walked;

/// The most words that the text of a name has, with those of each abbreviation that it uses (Z-Machine Standards
/// Document 1.1, section 12.4).
const MOST_WORDS: u32 = 255;

/// What stands for a name.
#[derive(Clone, Copy, Drop)]
pub(crate) enum Naming {
    /// There is none.
    Unnamed,
    /// A name, by the byte address of its text.
    Named(u32),
    /// It is nothing that Inform would leave there.
    Wrong,
}

/// Whether a unit of text is one of an identifier, or the stroke between two names of one thing.
fn is_name_unit(unit: Unit) -> bool
    ensures { result ≡ is_name_unit unit }
{
    match unit {
        Unit::Code(code) => code >= 97 && code <= 122
            || code >= 65 && code <= 90
            || code >= 47 && code <= 57
            || code == 95,
        Unit::Character(_) => false,
    }
}

/// Whether a unit is `<`, with which no identifier begins.
fn is_mark(unit: Unit) -> bool
    ensures { result ≡ is_mark unit }
{
    match unit {
        Unit::Code(code) => code == 60,
        Unit::Character(_) => false,
    }
}

/// The first of units, where one more comes behind those that were there.
fn first_or(first: Option<Unit>, unit: Unit) -> Option<Unit>
    ensures { result ≡ first_or first (unit ∷ []) }
{
    match first {
        Some(before) => Some(before),
        None => Some(unit),
    }
}

/// How a text is spelled.
#[derive(Clone, Copy, Drop)]
pub(crate) struct Spelling {
    /// Its first unit.
    pub first: Option<Unit>,
    /// Whether all its units are those of an identifier.
    pub is_name: bool,
}

impl Sink for Spelling {
    ghost use Rattle.std.specs.Prelude.{◌≡◌, ◌&&◌, refl};
    ghost use Rattle.std.specs.List.{list_all};
    ghost use Rattle.zk_inform.specs.Names.{all_nothing, all_twice, first_nothing, first_or, first_twice, is_name_unit};

    ghost gave = { λ a b us. (b.first ≡ first_or a.first us)
        × (b.is_name ≡ (a.is_name && list_all is_name_unit us)) };

    // no unit is refused
    ghost refused = { λ a b us. ⊥ };

    fn put(&mut self, unit: Unit) -> Result<(), SinkFault> {
        self.first = first_or(self.first, unit);
        self.is_name = self.is_name && is_name_unit(unit);
        Ok(())
    }

    ghost nothing = { λ a. (first_nothing a.first, all_nothing a.is_name) };

    ghost twice = { λ a b c s t h k. (
      first_twice a.first b.first c.first s t h.0 k.0,
      all_twice a.is_name b.is_name c.is_name s t h.1 k.1,
    ) };

    ghost late = { λ a b c s t h k. k };
}

/// How a text is spelled that has a meaning.
fn spell(memory: &Memory, address: u32) -> Spelling
    requires { IsOk (text_units memory.now address) }
    ensures first { result.first ≡ first_unit (units_or_none (text_units memory.now address)) }
    ensures all { result.is_name ≡ list_all is_name_unit (units_or_none (text_units memory.now address)) }
{
    let mut spelling = Spelling {
        first: None,
        is_name: true,
    };
    match print_text(memory, address, &mut spelling) {
        Ok(()) => {}
        Err(SinkFault) => {}
    }
    spelling
}

/// How the text at a byte address is spelled. `None` where it has no meaning (Standard, section 3), or is too long for
/// a name.
#[tactic(auto, unfolding(crate::specs::Names::spelling_of))]
fn spelling_of(memory: &Memory, address: u32) -> Option<Spelling>
    ensures { result ≡ spelling_of memory.now address }
{
    if words_walked(memory, address, MOST_WORDS + 1) > MOST_WORDS {
        return None;
    }
    match check_text(memory, address) {
        Ok(_) => Some(spell(memory, address)),
        Err(_) => None,
    }
}

/// What a text at a byte address is, by its spelling, where Inform leaves identifier names: a text that begins with `<`
/// stands where there is none.
fn naming_by(address: u32, spelling: Spelling) -> Naming
    ensures { result ≡ naming_by address spelling }
{
    match spelling.first {
        None => Naming::Wrong,
        Some(first) => {
            if is_mark(first) {
                Naming::Unnamed
            } else if spelling.is_name {
                Naming::Named(address)
            } else {
                Naming::Wrong
            }
        }
    }
}

/// What the text at a byte address is, where Inform leaves identifier names.
#[tactic(auto, unfolding(crate::specs::Names::naming_at))]
fn naming_at(memory: &Memory, address: u32) -> Naming
    ensures { result ≡ naming_at memory.now address }
{
    match spelling_of(memory, address) {
        None => Naming::Wrong,
        Some(spelling) => naming_by(address, spelling),
    }
}

/// What a word is that was read where Inform leaves the packed addresses of identifier names: there is none where it
/// is 0.
#[tactic(auto, unfolding(crate::specs::Names::naming_of))]
pub(crate) fn naming_of(memory: &Memory, word: Result<u16, Fault>) -> Naming
    ensures { result ≡ naming_of_word memory.now word }
{
    match word {
        Err(_) => Naming::Wrong,
        Ok(0) => Naming::Unnamed,
        Ok(packed) => naming_at(memory, unpack(memory.version(), packed)),
    }
}

/// What a text at a byte address is, by its spelling, as a short name: none where it has no units.
fn shown_by(address: u32, spelling: Spelling) -> Naming
    ensures { result ≡ shown_by address spelling }
{
    match spelling.first {
        None => Naming::Unnamed,
        Some(_) => Naming::Named(address),
    }
}

/// What the text at a byte address is as a short name: none where it is damaged, too long or empty.
#[tactic(auto, unfolding(crate::specs::Names::shown_naming))]
fn shown_naming(memory: &Memory, address: u32) -> Naming
    ensures { result ≡ shown_naming memory.now address }
{
    match spelling_of(memory, address) {
        None => Naming::Unnamed,
        Some(spelling) => shown_by(address, spelling),
    }
}

/// The short name of an object (Standard, section 12.4).
#[tactic(auto, unfolding(crate::specs::Names::object_naming))]
pub(crate) fn object_naming(memory: &Memory, object: u16) -> Naming
    ensures { result ≡ object_naming memory.now object }
{
    match name(memory, object) {
        Ok(Some(address)) => shown_naming(memory, address),
        Ok(None) => Naming::Unnamed,
        Err(_) => Naming::Unnamed,
    }
}
