//! Laws of the definitions, each the contract of a function that does nothing.

ghost use Rattle.word_model.specs.Laws.{WordsAreAll, FoundByABeginning, TermsAreFoundByWords};

/// Exactly the rows at the date that have the words are found.
pub fn words_are_all()
    // promise: nothing_is_left_out_of_an_answer
    ensures { WordsAreAll }
{}

/// What is found by the words of a text is found by those of each beginning of the text.
pub fn found_by_a_beginning()
    // promise: nothing_is_left_out_of_an_answer
    ensures { FoundByABeginning }
{}

/// What is found by the beginning of its term is found by the words of that beginning.
pub fn terms_are_found_by_words()
    // promise: nothing_is_left_out_of_an_answer
    ensures { TermsAreFoundByWords }
{}
