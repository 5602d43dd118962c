// How characters are shown.

ghost use Rattle.std.specs.Prelude.{◌≡◌};
ghost use Rattle.zk_term.specs.Styles.{roman, style_set};

/// How a character is shown (Z-Machine Standards Document 1.1, section 8.7.1): roman, where it is none of these.
#[derive(Clone, Copy, PartialEq, Eq, Drop)]
pub struct Style {
    pub reverse: bool,
    pub bold: bool,
    pub italic: bool,
    /// With a fixed pitch.
    pub fixed: bool,
}

/// A short sound (Standard, section 9.1).
#[derive(Clone, Copy, PartialEq, Eq, Drop)]
pub enum Bleep {
    High,
    Low,
}

impl Style {
    /// None of the styles.
    pub fn roman() -> Style
        ensures { result ≡ roman }
    {
        Style {
            reverse: false,
            bold: false,
            italic: false,
            fixed: false,
        }
    }

    /// The style once another is set by its number: 0 is roman, and the others are added to what is set, 1 reverse,
    /// 2 bold, 4 italic and 8 with a fixed pitch (Standard, section 15, set_text_style).
    pub fn set(self, number: u16) -> Style
        ensures { result ≡ style_set number self }
    {
        if number == 0 {
            return Style::roman();
        }
        Style {
            reverse: self.reverse || number % 2 == 1,
            bold: self.bold || number / 2 % 2 == 1,
            italic: self.italic || number / 4 % 2 == 1,
            fixed: self.fixed || number / 8 % 2 == 1,
        }
    }
}
