//! Laws of the definitions, each the contract of a function that does nothing.

ghost use Rattle.links.specs.Laws.{PushedOneByOne, EdgesMore, EdgesMerged};
ghost use Rattle.links.specs.MergedEdges.{AnyMergeBegins, PostingsAreFew, MergedArePosted};

/// Pushing rows one by one gives the postings of the rows.
pub fn pushed_one_by_one()
    // promise: the_index_has_every_row
    ensures { PushedOneByOne }
{}

/// The lists are still the postings of their rows after a list is added.
pub fn edges_more()
    // promise: the_index_has_every_row
    ensures { EdgesMore }
{}

/// The lists are still the postings of their rows after one replaces two.
pub fn edges_merged()
    // promise: the_index_has_every_row
    ensures { EdgesMerged }
{}

/// A merge of any postings may begin with nothing merged.
pub fn any_merge_begins()
    // promise: the_index_has_every_row
    ensures { AnyMergeBegins }
{}

/// Rows have at most as many postings of a kind as there are rows.
pub fn postings_are_few()
    // promise: the_index_has_every_row
    ensures { PostingsAreFew }
{}

/// Once no posting of two segments is left, the merged postings are those of the rows of both.
pub fn merged_are_posted()
    // promise: the_index_has_every_row
    ensures { MergedArePosted }
{}
