//! Answers questions about the first imports, up to a pin.

ghost use Rattle.std.specs.Prelude.{◌≤◌, ℕ, List, Option};
ghost use Rattle.std.specs.Prelude.{◌↔◌, IsTrue, MatchOption};
ghost use Rattle.line_commands.specs.Commands.{At};
ghost use Rattle.line_commands.specs.Requests.{command_of};
ghost use Rattle.question_model.specs.Questions.{question_of};
ghost use Rattle.history_store.specs.declared.refusal.Refusal.{Refusal};
ghost use Rattle.history_store.specs.declared.refusal.Refusal.TheVariants as refusals;
ghost use Rattle.line_server.specs.Replies.{NeedsMembers, Lacks, LacksAny, LacksFor};
ghost use Rattle.line_server.specs.Private.{IsCarriedOut, IsQueried, QuestionCanBeAsked};

use crate::queries::{
    answer_added, answer_dates, answer_digest, answer_ids, answer_receipt, answer_rows,
};
use crate::refusal::LineRefusal;
use crate::reply::Reply;
use disk_model::Disk;
use history_store::{Refusal, Store, Words};
use import_check::Scope;
use line_commands::Command;
use question_model::{Question, RowQuestion};
use rf2_rows::Kind;
use std::alloc::Global;

/// Whether a row of the answer may be a member of a reference set.
fn needs_members(question: &Question<'_>) -> bool
    ensures { IsTrue result ↔ NeedsMembers (question_of question.now) }
{
    match question {
        Question::ForRows(rows) => rows.may_have(Kind::Member),
        Question::Added { kind, .. } => *kind == Kind::Member,
        _ => false,
    }
}

/// Whether the question is for words, and the store leaves them out.
fn lacks_words<D: Disk>(question: &Question<'_>, store: &Store<D>) -> bool
    ensures { IsTrue result ↔ LacksFor (question_of question.now) store.now refusals.NotKept }
{
    match question {
        Question::ForRows(RowQuestion::Words { .. }) => store.keeps_words() == Words::LeftOut,
        _ => false,
    }
}

/// Whether the question needs members, and the store's layout keeps none.
fn lacks_members<D: Disk>(question: &Question<'_>, store: &Store<D>) -> bool
    ensures { IsTrue result ↔ LacksFor (question_of question.now) store.now refusals.LaterVersion }
{
    store.scope() == Scope::Basic && needs_members(question)
}

/// What the store lacks for the question, as it is refused.
#[tactic(auto, using(crate::proofs::Lacking::none_lacking))]
fn lack_for<D: Disk>(question: &Question<'_>, store: &Store<D>) -> Option<Refusal>
    ensures { MatchOption result
        ((lack : Refusal) → LacksFor (question_of question.now) store.now lack → ⊥)
        (LacksFor (question_of question.now) store.now) }
{
    if lacks_members(question, store) {
        Some(Refusal::LaterVersion)
    } else if lacks_words(question, store) {
        Some(Refusal::NotKept)
    } else {
        None
    }
}

/// What the store lacks for the command, as it is refused.
pub(crate) fn lack_of<D: Disk>(command: &Command<'_>, store: &Store<D>) -> Option<Refusal>
    ensures { MatchOption result
        ((lack : Refusal) → Lacks (command_of command.now) store.now lack → ⊥)
        (Lacks (command_of command.now) store.now) }
{
    match command {
        Command::Ask(question) => lack_for(question, store),
        Command::At { number, question } if *number <= store.imports() => {
            lack_for(question, store)
        }
        _ => None,
    }
}

/// Answers a question about the first `pin` imports.
pub(crate) fn ask<D: Disk>(
    alloc: Global,
    question: &Question<'_>,
    pin: u32,
    store: &mut Store<D>,
) -> Result<Reply, LineRefusal>
    requires asked { QuestionCanBeAsked (question_of question.now) }
    requires within { pin ≤ store.old.history.imports }
    ensures { IsQueried result D.view (question_of question.now) pin store.old store.new }
{
    match question {
        Question::ForRows(rows) => answer_rows(alloc, rows, pin, store),
        Question::ForIds(ids) => answer_ids(alloc, ids, pin, store),
        Question::Dates => answer_dates(alloc, pin, store),
        Question::Digest => answer_digest(alloc, pin, store),
        Question::Receipt { number } => answer_receipt(alloc, *number, pin, store),
        Question::Added {
            number,
            kind,
            after,
            limit,
        } => answer_added(alloc, *number, *kind, *after, *limit, pin, store),
    }
}

/// Answers a question as it is answered in a session that is pinned to the first `number` imports.
pub(crate) fn ask_at<D: Disk>(
    alloc: Global,
    number: u32,
    question: &Question<'_>,
    store: &mut Store<D>,
) -> Result<Reply, LineRefusal>
    requires asked { QuestionCanBeAsked (question_of question.now) }
    requires has_all { LacksAny (At number (question_of question.now)) store.old → ⊥ }
    ensures { IsCarriedOut result D.view
        (At number (question_of question.now)) store.old store.new }
{
    if number > store.imports() {
        return Err(LineRefusal::PinRange);
    }
    ask(alloc, question, number, store)
}
