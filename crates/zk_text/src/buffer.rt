// Units that are kept.

ghost use Rattle.std.specs.Prelude.{◌≡◌, []};

use crate::sink::{Sink, SinkFault};
use crate::unit::Unit;
use arrayvec::ArrayVec;
use std::marker::Model;

/// Keeps the units that it is given, up to `N` of them: it refuses the next. Contracts see it as the
/// list of its units.
#[derive(Drop)]
pub struct UnitBuffer<const N: usize> {
    units: ArrayVec<Unit, N>,
}

impl<const N: usize> Model for UnitBuffer<N> {
    ghost use Rattle.std.specs.Prelude.{◌≤◌, List, length};
    ghost use Rattle.zk_text.specs.declared.unit.Unit.{Unit};

    ghost Value = { List Unit };

    ghost view = { λ b. b.units.items };

    ghost invariant = { λ b. length b.units.items ≤ N };
}

impl<const N: usize> UnitBuffer<N> {
    /// A buffer with no unit.
    pub fn new() -> UnitBuffer<N>
        ensures { result ≡ [] }
    {
        UnitBuffer {
            units: ArrayVec::new(),
        }
    }

    /// The units, in the order in which they came.
    pub fn as_slice(&self) -> &[Unit]
        ensures { result.now ≡ self.now }
    {
        self.units.as_slice()
    }
}

impl<const N: usize> Sink for UnitBuffer<N> {
    ghost use Rattle.zk_text.specs.Buffers.{Holds, HoldsFirst, holds_nothing, holds_twice, holds_late};

    ghost gave = { Holds };

    ghost refused = { HoldsFirst N };

    fn put(&mut self, unit: Unit) -> Result<(), SinkFault> {
        self.units.try_push(unit).map_err(|_| SinkFault)
    }

    ghost nothing = { holds_nothing };

    ghost twice = { holds_twice };

    ghost late = { holds_late N };
}
