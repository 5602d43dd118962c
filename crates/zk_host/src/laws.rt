// What always holds of the definitions.

ghost use Rattle.zk_host.specs.ListingRuns.{PartsMakeTheListing};
ghost use Rattle.zk_host.specs.guards.MarkLaws.{BeforeIsToldOnce, BytesHaveMarks};

/// Each byte of the screen's text gets a mark.
pub fn bytes_have_marks()
    ensures { BytesHaveMarks }
{}

/// Once a run was told, what came before it is not told again.
pub fn before_is_told_once()
    ensures { BeforeIsToldOnce }
{}

/// The parts of a listing are the listing.
pub fn parts_make_the_listing()
    ensures { PartsMakeTheListing }
{}
