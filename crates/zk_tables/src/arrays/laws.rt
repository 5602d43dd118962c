// Laws of tables.

ghost use Rattle.zk_tables.specs.CopyLaws.{CopiesAreWhole, ClearsAreWhole, ForwardsIsAtOnce};
ghost use Rattle.zk_tables.specs.Scanning.{ScansAreFirst};

/// What a scan finds is the first entry that begins with the value. Where it finds none, each entry begins with
/// another; where it is refused, the entry that can't be read stands after others alone.
pub fn scans_are_first()
    ensures { ScansAreFirst }
{}

/// A copy as if at once gives each byte what the byte that it comes from held before, however the tables overlap;
/// clearing makes bytes zero; and neither changes another byte.
pub fn copies_are_whole()
    ensures copied { CopiesAreWhole }
    ensures cleared { ClearsAreWhole }
{}

/// Where two tables do not overlap, a copy forwards is one as if at once.
pub fn forwards_is_at_once()
    ensures { ForwardsIsAtOnce }
{}
