// What a printed text is made of.

/// A unit of printed text.
#[derive(Clone, Copy, PartialEq, Eq, Drop)]
pub enum Unit {
    /// A ZSCII code (Z-Machine Standards Document 1.1, section 3.8). A text has codes below 1024;
    /// the operand of print_char may be any number, and one over 255 is no character's code.
    Code(u16),
    /// A Unicode character of 16 bits, as print_unicode names it. It may be half of a surrogate
    /// pair, which is no character.
    Character(u16),
}

impl Default for Unit {
    ghost use Rattle.std.specs.Prelude.{◌≡◌};
    ghost use Rattle.zk_text.specs.declared.unit.Unit.TheVariants.{Code};

    ghost is_default = { λ u. u ≡ Code 0 };

    /// The null code, which shows nothing.
    fn default() -> Unit {
        Unit::Code(0)
    }
}
