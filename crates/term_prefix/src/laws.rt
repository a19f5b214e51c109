//! Laws of the definitions, each the contract of a function that does nothing.

ghost use Rattle.term_prefix.specs.Pushed.{PostedTermsAreFew, PostedTermsMore, PostedTermsMerged};
ghost use Rattle.term_prefix.specs.Merged.{MergedTermsArePosted};

/// The postings of rows have at most as many terms as there are rows.
pub fn posted_terms_are_few()
    ensures { PostedTermsAreFew }
{}

/// The lists are still the postings of their rows after a list is added.
pub fn posted_terms_more()
    // promise: the_index_has_every_row
    ensures { PostedTermsMore }
{}

/// The lists are still the postings of their rows after one replaces two.
pub fn posted_terms_merged()
    // promise: the_index_has_every_row
    ensures { PostedTermsMerged }
{}

/// Once a merge has taken all terms, its result has the postings of the rows of both lists.
pub fn merged_terms_are_posted()
    ensures { MergedTermsArePosted }
{}
