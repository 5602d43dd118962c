// Comparisons as calls, since what it takes to prove a test grows with the square of the asserts that stand in it.

ghost use Rattle.std.specs.Prelude.{◌≡◌, true};

use std::process::Abort;

/// Ends the test run where a value is not the one that is wanted.
pub fn same<T: PartialEq + Drop>(rt: &impl Abort, told: T, wanted: T) {
    assert!(*rt; told == wanted);
}

/// Ends the test run where a condition does not hold.
pub fn demand(rt: &impl Abort, holds: bool)
    ensures { holds ≡ true }
{
    assert!(*rt; holds);
}
