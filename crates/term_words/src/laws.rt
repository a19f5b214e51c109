//! Laws of the definitions, each the contract of a function that does nothing.

ghost use Rattle.std.specs.Prelude.{◌≡◌, ◌≤◌, ℕ, List, length, Some, slice_get};
ghost use Rattle.term_prefix.specs.Terms.{TermAt};
ghost use Rattle.term_words.specs.Posted.{PostedWordsMore, PostedWordsMerged, MergedWordsArePosted};
ghost use Rattle.term_words.specs.Laid.{IsWordKey, AreParted, seen_in};

/// The lists are still the postings of their rows after a list is added.
pub fn posted_words_more()
    // promise: the_index_has_every_row
    ensures { PostedWordsMore }
{}

/// The lists are still the postings of their rows after one replaces two.
pub fn posted_words_merged()
    // promise: the_index_has_every_row
    ensures { PostedWordsMerged }
{}

/// Once a merge has taken all postings, its result has the postings of the rows of both lists.
pub fn merged_words_are_posted()
    ensures { MergedWordsArePosted }
{}

/// In a list that is stored in two parts each posting by a word is behind all of those by length and
/// type, so a search looks for words in the second part alone.
pub fn words_are_behind()
    ensures { (sizes words : List TermAt) → AreParted sizes words → (i : ℕ) (t : TermAt)
        → slice_get (seen_in sizes words) i ≡ Some t → IsWordKey t.folded → length sizes ≤ i }
{}
