// Tests of words.

ghost use Rattle.std.specs.Prelude.{◌≡◌, ◌==◌, slice_index};
ghost use Rattle.std.specs.List.{list_any};
ghost use Rattle.zk_step.specs.Comparison.{equals_another, comparison};

use zk_code::opcode::Comparison;

#[inline(always)]
fn contains(values: &[u16], x: u16) -> bool
    ensures { result ≡ list_any (λ v. v == x) values.now }
{
    values.iter().any(|v| *v == x)
}

/// Whether one of the values after the first is the first.
#[inline(always)]
#[tactic(auto, unfolding(crate::specs::Comparison::equals_another))]
fn equals_another(values: &[u16]) -> bool
    ensures { result ≡ equals_another values.now }
{
    match values {
        [] => false,
        [first, others @ ..] => contains(others, *first),
    }
}

/// The value at an index, or 0 where there is none.
#[inline(always)]
pub fn value_at(values: &[u16], index: usize) -> u16
    ensures { result ≡ slice_index values.now index }
{
    values.get(index).copied().unwrap_or(0)
}

/// What an opcode tests of the values of its operands.
#[inline(always)]
#[tactic(auto, unfolding(crate::specs::Comparison::comparison))]
pub fn compare(operation: Comparison, values: &[u16]) -> bool
    ensures { result ≡ comparison operation values.now }
{
    let (x, y) = (value_at(values, 0), value_at(values, 1));
    match operation {
        Comparison::Je => equals_another(values),
        Comparison::Jl => x.cast_signed() < y.cast_signed(),
        Comparison::Jg => y.cast_signed() < x.cast_signed(),
        Comparison::Jz => x == 0,
        Comparison::Test => x & y == y,
    }
}
