// Laws of the code of a story, and of what is wrong with it.

ghost use Rattle.zk_inspect.specs.Beside.{NothingNamedAddsNothing};
ghost use Rattle.zk_inspect.specs.Codes.{OneCode};
ghost use Rattle.zk_inspect.specs.FindingLaws.{FindingsAreAll, OneListOfFindings};

/// A story has one list of addresses that are reached, and one of routines that are called.
pub fn one_code()
    ensures { OneCode }
{}

/// Where no address and no routine is named, the code is what is reached from the first instruction, and the routines
/// that are called there.
pub fn nothing_named_adds_nothing()
    ensures { NothingNamedAddsNothing }
{}

/// The findings of a story are all that is wrong with it, each once, by number and then by address; a story has none
/// exactly where nothing is wrong.
pub fn findings_are_all()
    ensures { FindingsAreAll }
{}

/// A story has one list of findings.
pub fn one_list_of_findings()
    ensures { OneListOfFindings }
{}
