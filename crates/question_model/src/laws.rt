//! Laws of the questions, each the contract of a function that does nothing.

ghost use Rattle.question_model.specs.Laws.{RowsStay, IdsStay, RowsAscend, IdsAscend};
ghost use Rattle.question_model.specs.Laws.{OneListOfIds, RowsAreOfKinds};
ghost use Rattle.question_model.specs.Laws.{PageAndTheRest, ShortPageIsLast, PagesAreAll, PagesEnd};

/// The rows that a question asks for at a pin aren't changed by later imports.
pub fn rows_stay()
    // promise: a_pin_shows_the_same_for_ever
    ensures { RowsStay }
{}

/// The identifiers that a question asks for at a pin aren't changed by later imports.
pub fn ids_stay()
    // promise: a_pin_shows_the_same_for_ever
    ensures { IdsStay }
{}

/// Each answer of rows is in its order, without duplicates.
pub fn rows_ascend()
    // promise: nothing_is_left_out_of_an_answer
    ensures { RowsAscend }
{}

/// Each answer of identifiers ascends.
pub fn ids_ascend()
    // promise: nothing_is_left_out_of_an_answer
    ensures { IdsAscend }
{}

/// Each row of an answer is of one of the kinds of the question: so an answer has members only to a
/// question that needs them.
pub fn rows_are_of_kinds()
    // promise: members_need_layout_3
    ensures { RowsAreOfKinds }
{}

/// A question for identifiers has one answer, and no other.
pub fn one_list_of_ids()
    // promise: nothing_is_left_out_of_an_answer
    ensures { OneListOfIds }
{}

/// All rows are an answer of any limit, followed by all rows after its last one.
pub fn page_and_the_rest()
    // promise: pages_are_the_whole
    ensures { PageAndTheRest }
{}

/// There are no rows after an answer that has fewer rows than its limit.
pub fn short_page_is_last()
    // promise: pages_are_the_whole
    ensures { ShortPageIsLast }
{}

/// Answers of any limit, each from after the last row of the one before, give all rows.
pub fn pages_are_all()
    // promise: pages_are_the_whole
    ensures { PagesAreAll }
{}

/// The sequence of such answers ends.
pub fn pages_end()
    // promise: pages_are_the_whole
    ensures { PagesEnd }
{}
