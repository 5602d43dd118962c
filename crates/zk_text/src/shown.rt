// What units show.

ghost use Rattle.std.specs.Prelude.{◌≡◌};
ghost use Rattle.zk_text.specs.Extra.{character};
ghost use Rattle.zk_text.specs.Shown.{visible, visible_or_mark, shown, characters_shown};

use crate::extra::Extra;
use crate::unit::Unit;

/// The characters that a unit shows.
#[derive(Clone, Copy, PartialEq, Eq, Drop)]
pub enum Shown {
    /// Of the null code.
    Nothing,
    One(char),
    /// Of a sentence space.
    TwoSpaces,
}

/// A character, or `?` for a control character and for half of a surrogate pair.
fn visible_char(character: u16) -> char
    ensures { result ≡ visible character }
{
    match character {
        0..=31 | 127..=159 => '?',
        _ => char::from_u32(character as u32).unwrap_or('?'),
    }
}

/// What a ZSCII code of a character shows.
fn code_char(extra: &Extra<'_>, code: u16) -> char
    ensures { result ≡ visible_or_mark (character extra.now code) }
{
    match extra.to_char(code) {
        None => '?',
        Some(c) => visible_char(c),
    }
}

impl Shown {
    /// What a unit shows, by the extra characters in force (Z-Machine Standards Document 1.1,
    /// sections 3.8 and 7.1): a new line is the character 10, and `?` stands for whatever has no
    /// character.
    #[tactic(auto, unfolding(crate::specs::Shown::shown))]
    pub fn of(extra: &Extra<'_>, unit: Unit) -> Shown
        ensures { characters_shown result ≡ shown extra.now unit }
    {
        match unit {
            Unit::Code(0) => Shown::Nothing,
            Unit::Code(9) => Shown::One(' '),
            Unit::Code(11) => Shown::TwoSpaces,
            Unit::Code(13) => Shown::One('\n'),
            Unit::Code(code) => Shown::One(code_char(extra, code)),
            Unit::Character(c) => Shown::One(visible_char(c)),
        }
    }
}
