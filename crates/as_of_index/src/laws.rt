//! Laws of the definitions, each the contract of a function that does nothing.

ghost use Rattle.as_of_index.specs.Places.{PlacesOfLists, ListsMore, ListsMerged};

/// If each list of rows is in ascending order and no two share a key, this also holds of their
/// places.
pub fn places_of_lists()
    // promise: the_index_has_every_row
    ensures { PlacesOfLists }
{}

/// An index that lists the places of some lists of rows still does so after a list of rows and the
/// list of its places are added.
pub fn lists_more()
    // promise: the_index_has_every_row
    ensures { ListsMore }
{}

/// It still does so after a list of rows replaces two, and the list of its places replaces theirs.
pub fn lists_merged()
    // promise: the_index_has_every_row
    ensures { ListsMerged }
{}
