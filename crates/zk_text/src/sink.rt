// Where the units of a text go.

ghost use Rattle.std.specs.Prelude.{◌∷◌, [], List, OnOk, OnErr};

use crate::unit::Unit;

/// A sink refuses a unit, and takes no more of the text.
#[derive(Clone, Copy, Drop)]
pub struct SinkFault;

/// Takes the units of a text, one by one, until it refuses one.
///
/// A sink says by two relations what comes of it: `gave a b us`, where a sink `a` was given `us`,
/// took them all and is `b` then, and `refused a b us`, where it took a first part of `us`, refused
/// the next and is `b` then. Three laws join the parts of a text: `nothing` changes nothing, what
/// is given `twice` is given at once, and what is refused `late` is refused in the whole.
pub trait Sink {
    ghost use Rattle.std.specs.Prelude.{List, [], ◌++◌};
    ghost use Rattle.zk_text.specs.declared.unit.Unit.{Unit};

    ghost gave: { Self → Self → List Unit → Type 0 };

    ghost refused: { Self → Self → List Unit → Type 0 };

    /// Takes a unit, or refuses it. A unit that is refused ends every text that begins with it.
    fn put(&mut self, unit: Unit) -> Result<(), SinkFault>
        ensures ok { OnOk result (gave self.old self.new (unit ∷ [])) }
        ensures err { OnErr result ((more : List Unit) → refused self.old self.new (unit ∷ more)) };

    ghost nothing: { (a : Self) → gave a a [] };

    ghost twice: { (a b c : Self) (s t : List Unit) →
        gave a b s → gave b c t → gave a c (s ++ t) };

    ghost late: { (a b c : Self) (s t : List Unit) →
        gave a b s → refused b c t → refused a c (s ++ t) };
}
