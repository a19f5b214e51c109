//! Laws of the definitions, each the contract of a function that does nothing.

ghost use Rattle.line_server.specs.Laws.{PinnedIsUndisturbed, PinnedReceiptIsUndisturbed};
ghost use Rattle.line_server.specs.Laws.{LinesAreCalls, OneReply};
ghost use Rattle.line_server.specs.Sources.{source_view};
ghost use Rattle.line_server.specs.Laws.{OkIsImported, RefusedIsNotImported, ImportedIsOk};
ghost use Rattle.line_server.specs.Laws.{RunNeedsNoSource};
ghost use Rattle.line_server.specs.Laws.{CheckForetells, DamageHoldsBack, HonestMeetsNoDamage};
ghost use Rattle.line_server.specs.Laws.{OnlyMembersNeedLater, OnlyWordsAreNotKept};
ghost use Rattle.line_server.specs.Laws.{ReadingHasNoChange, ReadingWritesNothing};
ghost use Rattle.line_server.specs.Laws.{RunKeepsPin, PinnedSeesItsImports, PinnedSeesItsReceipts};
ghost use Rattle.line_server.specs.Laws.{PinnedRunsAreUndisturbed, PinnedReceiptsAreUndisturbed};

use crate::source::Source;
use disk_model::Disk;

/// A question about the same imports is answered alike, whether the session is pinned to them or AT
/// names them, unless it needs a later layout.
pub fn pinned_is_undisturbed<D: Disk>()
    // promise: a_session_is_not_disturbed
    ensures { PinnedIsUndisturbed D D.view }
{}

/// A RECEIPT asked of the same imports is answered alike, if the import brought the same rows.
pub fn pinned_receipt_is_undisturbed<D: Disk>()
    // promise: a_session_is_not_disturbed
    ensures { PinnedReceiptIsUndisturbed D D.view }
{}

/// Answered lines are calls on the store, to which the laws of a store's life apply.
pub fn lines_are_calls<S: Source, D: Disk>()
    // promise: a_confirmed_import_survives, ok_is_only_said_of_what_was_done
    ensures { (source : S) → LinesAreCalls (source_view (S.is_honest source) (S.releases source))
        D.view }
{}

/// A line has one reply, unless memory runs out or the disk fails.
pub fn one_reply<D: Disk>()
    // promise: each_line_gets_one_reply
    ensures { OneReply D D.view }
{}

/// An IMPORT gets the reply that a CHECK of the same release just got, unless memory runs out or
/// the disk fails.
pub fn check_foretells<D: Disk>()
    // promise: a_check_foretells_the_import
    ensures { CheckForetells D D.view }
{}

/// Once a line was answered 8, later imports, checks, merges and publications are answered 8 too.
pub fn damage_holds_back<D: Disk>()
    // promise: nothing_is_confirmed_after_damage
    ensures { DamageHoldsBack D D.view }
{}

/// On an honest disk no damage is found.
pub fn honest_meets_no_damage<D: Disk>()
    // promise: nothing_is_confirmed_after_damage
    ensures { HonestMeetsNoDamage D D.view }
{}

/// A server that only reads writes nothing, on any disk.
pub fn reading_writes_nothing<D: Disk>()
    // promise: a_question_changes_nothing
    ensures { ReadingWritesNothing D D.view }
{}

/// A server that only reads has none of the commands that may change the store.
pub fn reading_has_no_change<D: Disk>()
    // promise: a_question_changes_nothing
    ensures { ReadingHasNoChange D D.view }
{}

/// If the source gives no members of reference sets when it is asked for the basic files, exactly
/// the questions that need members are answered 14, where the store keeps none.
pub fn only_members_need_later<D: Disk>()
    // promise: members_need_layout_3
    ensures { OnlyMembersNeedLater D D.view }
{}

/// Exactly the questions for words are answered 16 by a store that leaves words out.
pub fn only_words_are_not_kept<D: Disk>()
    // promise: a_refusal_names_its_cause
    ensures { OnlyWordsAreNotKept D D.view }
{}

/// An import that was answered OK is the one that its turn imported.
pub fn ok_is_imported<D: Disk>()
    // promise: ok_is_only_said_of_what_was_done
    ensures { OkIsImported D D.view }
{}

/// A line that was refused imported nothing.
pub fn refused_is_not_imported<D: Disk>()
    // promise: ok_is_only_said_of_what_was_done
    ensures { RefusedIsNotImported D D.view }
{}

/// A release that a line imported is one that it asked to import, and the reply was OK.
pub fn imported_is_ok<D: Disk>()
    // promise: ok_is_only_said_of_what_was_done
    ensures { ImportedIsOk D D.view }
{}

/// The laws about runs assume nothing about the source's releases: what serving promises of a run
/// with an honest source is all that they need.
pub fn run_needs_no_source<S: Source, D: Disk>()
    // promise: ok_is_only_said_of_what_was_done
    ensures { (source : S) → RunNeedsNoSource (source_view (S.is_honest source) (S.releases source))
        D.view }
{}

/// Lines of other sessions change neither a session's pin nor the history up to it.
pub fn run_keeps_pin<D: Disk>()
    // promise: a_session_is_not_disturbed
    ensures { RunKeepsPin D D.view }
{}

/// A pinned session sees what its pin showed at first, whatever lines were answered since then.
pub fn pinned_sees_its_imports<D: Disk>()
    // promise: a_session_is_not_disturbed
    ensures { PinnedSeesItsImports D D.view }
{}

/// A RECEIPT in a pinned session says what it would have said when the session was pinned.
pub fn pinned_sees_its_receipts<D: Disk>()
    // promise: a_session_is_not_disturbed
    ensures { PinnedSeesItsReceipts D D.view }
{}

/// A pinned session gets the same answers in any two runs, whatever the other sessions do.
pub fn pinned_runs_are_undisturbed<D: Disk>()
    // promise: a_session_is_not_disturbed
    ensures { PinnedRunsAreUndisturbed D D.view }
{}

/// A RECEIPT in a pinned session gets the same answer in any two runs, if the import brought the
/// same rows.
pub fn pinned_receipts_are_undisturbed<D: Disk>()
    // promise: a_session_is_not_disturbed
    ensures { PinnedReceiptsAreUndisturbed D D.view }
{}
