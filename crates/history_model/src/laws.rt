//! Laws of the definitions, each the contract of a function that does nothing.

ghost use Rattle.history_model.specs.Laws.{EachChainIsAHistory, EachHistoryIsAChain};
ghost use Rattle.history_model.specs.Laws.{OneHistoryForAChain};
ghost use Rattle.history_model.specs.Laws.{OrderIsFree, PinnedStays, ReleaseAddsItsRows};
ghost use Rattle.history_model.specs.Laws.{ReleaseLeavesAHistory};
ghost use Rattle.history_model.specs.Laws.{EachReleaseHasAReceipt, NewRowsAreUnknown};
ghost use Rattle.history_model.specs.Laws.{OneReceiptForARelease, ReceiptCountsTheUnknown};
ghost use Rattle.history_model.specs.Laws.{MergeLeavesListed, ReleaseIsOneList};
ghost use Rattle.history_model.specs.Laws.{ChildrenAreAll, OneRowOfAComponent};
ghost use Rattle.history_model.specs.Laws.{ReplacementsAreAll, WhatIsShownAscends};
ghost use Rattle.history_model.specs.Laws.{AboutIsAll, EachIsAboutOne};
ghost use Rattle.history_model.specs.Laws.{SearchFromTheFirst};
ghost use Rattle.history_model.specs.Laws.{BothReceiptsCountTheSame, EachImportHasAReceipt};
ghost use Rattle.history_model.specs.Laws.{ImportReceiptStays};
ghost use Rattle.history_model.specs.Laws.{OneReceiptForAnImport, ReceiptsCountTheRows};
ghost use Rattle.history_model.specs.Laws.{ReceiptsCountWhatIsShown};
ghost use Rattle.history_model.specs.Hierarchy.{ParentsHaveChildren, AncestorsHaveDescendants};
ghost use Rattle.history_model.specs.Hierarchy.{ChildrenAreDescendants, DescendantsOfDescendants};
ghost use Rattle.history_model.specs.Audit.{DeltaIsWhatDiffers, DeltaHasTheLaterRow};
ghost use Rattle.history_model.specs.Audit.{DeltaFromTheFirst, DeltaBackwardsIsEmpty};
ghost use Rattle.history_model.specs.Audit.{TwoDeltasCoverBoth};
ghost use Rattle.history_model.specs.Audit.{TimelineIsAll, TimelineHasWhatIsAbout};
ghost use Rattle.history_model.specs.Audit.{ReplacesAreAll, BothEndsAreOne};
ghost use Rattle.history_model.specs.Audit.{DatesAreThoseOfVersions, DatesAscend, DatesStay};
ghost use Rattle.history_model.specs.Membership.{MembersAreOfTheKind, EachIsOfOneSet};
ghost use Rattle.history_model.specs.Membership.{ValuesAreAll};
ghost use Rattle.history_model.specs.Membership.{ValuesAreTheActiveMembers};
ghost use Rattle.history_model.specs.Membership.{ValuesAreTheFirstWithTies};
ghost use Rattle.history_model.specs.Membership.{ValuesFillTheLimit};
ghost use Rattle.history_model.specs.Membership.{CalledAreNames};
ghost use Rattle.history_model.specs.Membership.{CalledAreAmongValues};
ghost use Rattle.history_model.specs.Relationships.{SourcesAreAll, ChildrenAreSources};
ghost use Rattle.history_model.specs.Relationships.{PagesOfSourcesAreAll, PagesOfSourcesEnd};
ghost use Rattle.history_model.specs.Exports.{KindsAreAll, AddedAscend, AddedAreShown, AddedStay};
ghost use Rattle.history_model.specs.Exports.{ReceiptCountsTheAdded};

/// A history is a chain of row sets, each contained in the next.
pub fn each_history_is_a_chain()
    // promise: the_order_of_releases_is_free
    ensures { EachHistoryIsAChain }
{}

/// Each such chain is that of a history.
pub fn each_chain_is_a_history()
    // promise: the_order_of_releases_is_free
    ensures { EachChainIsAHistory }
{}

/// No two histories have the same chain.
pub fn one_history_for_a_chain()
    // promise: the_order_of_releases_is_free
    ensures { OneHistoryForAChain }
{}

/// A history after a release is a history.
pub fn release_leaves_a_history()
    // promise: a_release_is_taken_whole_or_not_at_all
    ensures { ReleaseLeavesAHistory }
{}

/// An accepted release adds its rows, and no others.
pub fn release_adds_its_rows()
    // promise: a_release_is_taken_whole_or_not_at_all
    ensures { ReleaseAddsItsRows }
{}

/// What a pin shows isn't changed by later imports.
pub fn pinned_stays()
    // promise: a_pin_shows_the_same_for_ever
    ensures { PinnedStays }
{}

/// Releases that are accepted one after the other are accepted in any order, with the same rows at
/// the end.
pub fn order_is_free()
    // promise: the_order_of_releases_is_free
    ensures { OrderIsFree }
{}

/// There is a receipt for each release.
pub fn each_release_has_a_receipt()
    // promise: a_receipt_counts_the_new_rows
    ensures { EachReleaseHasAReceipt }
{}

/// No release has two receipts.
pub fn one_receipt_for_a_release()
    // promise: a_receipt_counts_the_new_rows
    ensures { OneReceiptForARelease }
{}

/// The rows that get the number of a release are those that the history lacked.
pub fn new_rows_are_unknown()
    // promise: a_receipt_counts_the_new_rows
    ensures { NewRowsAreUnknown }
{}

/// The receipt of a release says how many rows the history lacked.
pub fn receipt_counts_the_unknown()
    // promise: a_receipt_counts_the_new_rows
    ensures { ReceiptCountsTheUnknown }
{}

/// The new rows of a release can be added as one list.
pub fn release_is_one_list()
    // promise: a_release_is_taken_whole_or_not_at_all
    ensures { ReleaseIsOneList }
{}

/// Replacing two lists by one with the rows of both doesn't change the rows of all lists.
pub fn merge_leaves_listed()
    // promise: a_merge_changes_no_row
    ensures { MergeLeavesListed }
{}

/// What a pin shows is in key order.
pub fn what_is_shown_ascends()
    // promise: nothing_is_left_out_of_an_answer
    ensures { WhatIsShownAscends }
{}

/// The Snapshot has at most one row of a component.
pub fn one_row_of_a_component()
    // promise: nothing_is_left_out_of_an_answer
    ensures { OneRowOfAComponent }
{}

/// No child is missing.
pub fn children_are_all()
    // promise: nothing_is_left_out_of_an_answer
    ensures { ChildrenAreAll }
{}

/// No replacement is missing.
pub fn replacements_are_all()
    // promise: nothing_is_left_out_of_an_answer
    ensures { ReplacementsAreAll }
{}

/// What is about a component are the active rows whose subject it is.
pub fn about_is_all()
    // promise: nothing_is_left_out_of_an_answer
    ensures { AboutIsAll }
{}

/// Each active row, except a concept's, is about exactly one component.
pub fn each_is_about_one()
    // promise: nothing_is_left_out_of_an_answer
    ensures { EachIsAboutOne }
{}

/// A search from the first id on finds the same rows as `terms`.
pub fn search_from_the_first()
    // promise: pages_are_the_whole
    ensures { SearchFromTheFirst }
{}

/// The receipt of an import isn't changed by later imports.
pub fn import_receipt_stays()
    // promise: a_pin_shows_the_same_for_ever
    ensures { ImportReceiptStays }
{}

/// There is a receipt for each import.
pub fn each_import_has_a_receipt()
    // promise: a_receipt_counts_the_new_rows
    ensures { EachImportHasAReceipt }
{}

/// No import has two receipts.
pub fn one_receipt_for_an_import()
    // promise: a_receipt_counts_the_new_rows
    ensures { OneReceiptForAnImport }
{}

/// The receipt of a release and that of its import count the same rows.
pub fn both_receipts_count_the_same()
    // promise: a_receipt_counts_the_new_rows
    ensures { BothReceiptsCountTheSame }
{}

/// The receipts of the imports that a pin shows count the rows that it shows.
pub fn receipts_count_what_is_shown()
    // promise: a_receipt_counts_the_new_rows
    ensures { ReceiptsCountWhatIsShown }
{}

/// The receipts of all imports count all rows.
pub fn receipts_count_the_rows()
    // promise: a_receipt_counts_the_new_rows
    ensures { ReceiptsCountTheRows }
{}

/// A concept is a parent of another exactly if the other is its child.
pub fn parents_have_children()
    // promise: nothing_is_left_out_of_an_answer
    ensures { ParentsHaveChildren }
{}

/// A concept is an ancestor of another exactly if the other is its descendant.
pub fn ancestors_have_descendants()
    // promise: nothing_is_left_out_of_an_answer
    ensures { AncestorsHaveDescendants }
{}

/// Each child is a descendant.
pub fn children_are_descendants()
    // promise: nothing_is_left_out_of_an_answer
    ensures { ChildrenAreDescendants }
{}

/// The descendants of a descendant are descendants.
pub fn descendants_of_descendants()
    // promise: nothing_is_left_out_of_an_answer
    ensures { DescendantsOfDescendants }
{}

/// A Delta has the components whose rows at the two dates differ.
pub fn delta_is_what_differs()
    // promise: nothing_is_left_out_of_an_answer
    ensures { DeltaIsWhatDiffers }
{}

/// For each component that changed, a Delta has the row at the later date.
pub fn delta_has_the_later_row()
    // promise: nothing_is_left_out_of_an_answer
    ensures { DeltaHasTheLaterRow }
{}

/// A Delta from before all rows is a page.
pub fn delta_from_the_first()
    // promise: nothing_is_left_out_of_an_answer
    ensures { DeltaFromTheFirst }
{}

/// Nothing changes from a date to an earlier one.
pub fn delta_backwards_is_empty()
    // promise: nothing_is_left_out_of_an_answer
    ensures { DeltaBackwardsIsEmpty }
{}

/// Two Deltas, of which one begins where the other ends, cover the Delta over both.
pub fn two_deltas_cover_both()
    // promise: nothing_is_left_out_of_an_answer
    ensures { TwoDeltasCoverBoth }
{}

/// A timeline has all versions of the components that were about the component at some date, and
/// nothing else.
pub fn timeline_is_all()
    // promise: nothing_is_left_out_of_an_answer
    ensures { TimelineIsAll }
{}

/// What is about a component at any date is in its timeline.
pub fn timeline_has_what_is_about()
    // promise: nothing_is_left_out_of_an_answer
    ensures { TimelineHasWhatIsAbout }
{}

/// No association whose target is the component is missing.
pub fn replaces_are_all()
    // promise: nothing_is_left_out_of_an_answer
    ensures { ReplacesAreAll }
{}

/// What replaces a component and what it replaces are the same associations, from two ends.
pub fn both_ends_are_one()
    // promise: nothing_is_left_out_of_an_answer
    ensures { BothEndsAreOne }
{}

/// The dates are the effective times of all versions.
pub fn dates_are_those_of_versions()
    // promise: nothing_is_left_out_of_an_answer
    ensures { DatesAreThoseOfVersions }
{}

/// The dates are ascending, without duplicates.
pub fn dates_ascend()
    // promise: nothing_is_left_out_of_an_answer
    ensures { DatesAscend }
{}

/// The dates at a pin aren't changed by later imports.
pub fn dates_stay()
    // promise: a_pin_shows_the_same_for_ever
    ensures { DatesStay }
{}

/// The members of a reference set are those of all members that belong to it.
pub fn members_are_of_the_kind()
    // promise: nothing_is_left_out_of_an_answer
    ensures { MembersAreOfTheKind }
{}

/// Each member belongs to exactly one reference set.
pub fn each_is_of_one_set()
    // promise: nothing_is_left_out_of_an_answer
    ensures { EachIsOfOneSet }
{}

/// No active member of a reference set is missing.
pub fn values_are_all()
    // promise: nothing_is_left_out_of_an_answer
    ensures { ValuesAreAll }
{}

/// The values of all reference sets together are the active members.
pub fn values_are_the_active_members()
    // promise: nothing_is_left_out_of_an_answer
    ensures { ValuesAreTheActiveMembers }
{}

/// Values are the first up to the limit, and all others that refer to the same components as these.
pub fn values_are_the_first_with_ties()
    // promise: pages_are_the_whole
    ensures { ValuesAreTheFirstWithTies }
{}

/// An answer has as many values as its limit, if there are as many.
pub fn values_fill_the_limit()
    // promise: pages_are_the_whole
    ensures { ValuesFillTheLimit }
{}

/// What a concept is called are the descriptions about it that have members of the reference
/// set, and these members.
pub fn called_are_names()
    // promise: nothing_is_left_out_of_an_answer
    ensures { CalledAreNames }
{}

/// The members that say what a concept is called are values of the reference set.
pub fn called_are_among_values()
    // promise: nothing_is_left_out_of_an_answer
    ensures { CalledAreAmongValues }
{}

/// No source of a relationship is missing, and there are no others.
pub fn sources_are_all()
    // promise: nothing_is_left_out_of_an_answer
    ensures { SourcesAreAll }
{}

/// The children of a concept are the sources of "is a".
pub fn children_are_sources()
    // promise: nothing_is_left_out_of_an_answer
    ensures { ChildrenAreSources }
{}

/// Answers of any limit, each from after the last source of the one before, give all sources.
pub fn pages_of_sources_are_all()
    // promise: pages_are_the_whole
    ensures { PagesOfSourcesAreAll }
{}

/// The sequence of such answers ends.
pub fn pages_of_sources_end()
    // promise: pages_are_the_whole
    ensures { PagesOfSourcesEnd }
{}

/// The rows of all kinds, one kind after the other, are all rows.
pub fn kinds_are_all()
    // promise: pages_are_the_whole
    ensures { KindsAreAll }
{}

/// What an import added is in key order.
pub fn added_ascend()
    // promise: nothing_is_left_out_of_an_answer
    ensures { AddedAscend }
{}

/// What the first imports added, together, is what a pin to them shows, each row once.
pub fn added_are_shown()
    // promise: a_receipt_counts_the_new_rows
    ensures { AddedAreShown }
{}

/// The receipt of an import counts the rows that it added.
pub fn receipt_counts_the_added()
    // promise: a_receipt_counts_the_new_rows
    ensures { ReceiptCountsTheAdded }
{}

/// What an import added isn't changed by later imports.
pub fn added_stay()
    // promise: a_pin_shows_the_same_for_ever
    ensures { AddedStay }
{}
