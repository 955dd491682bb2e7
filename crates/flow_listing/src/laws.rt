//! Laws on the texts of solutions, about definitions alone: functions without a body.
#![tactic(auto)]

ghost use Rattle.flow_listing.specs.Laws.{ListingIsUnique, NamedAsListed};

/// A system has one text, whichever of its least solutions is listed.
pub fn listing_is_unique()
    ensures { ListingIsUnique }
{}

/// The variable of each line has the name that it has in the program's listing.
pub fn named_as_listed()
    ensures { NamedAsListed }
{}
