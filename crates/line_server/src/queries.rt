//! The questions: replies with what the store returns, by kind of answer.

ghost use Rattle.std.specs.Prelude.{◌≤◌, ◌↔◌, IsTrue};
ghost use Rattle.question_model.specs.Questions.{ForRows, ForIds, Dates, Digest, Receipt, Added};
ghost use Rattle.question_model.specs.Questions.{row_question_of, id_question_of};
ghost use Rattle.line_server.specs.Replies.{IsNumber};
ghost use Rattle.line_server.specs.Private.{IsQueried};

use crate::refusal::LineRefusal;
use crate::reply::Reply;
use crate::wording::{reply_dates, reply_digest, reply_ids, reply_receipt, reply_rows};
use disk_model::Disk;
use history_store::Store;
use question_model::{IdQuestion, RowQuestion};
use rf2_rows::{Key, Kind};
use std::alloc::Global;
use store_digest::digest;

/// The rows that a question asks for.
pub(crate) fn answer_rows<D: Disk>(
    alloc: Global,
    question: &RowQuestion<'_>,
    pin: u32,
    store: &mut Store<D>,
) -> Result<Reply, LineRefusal>
    requires { pin ≤ store.old.history.imports }
    ensures { IsQueried result D.view (ForRows (row_question_of question.now)) pin
        store.old store.new }
{
    let found = store.select(question, pin)?;
    Ok(reply_rows(alloc, &found)?)
}

/// The identifiers that a question asks for.
pub(crate) fn answer_ids<D: Disk>(
    alloc: Global,
    question: &IdQuestion,
    pin: u32,
    store: &mut Store<D>,
) -> Result<Reply, LineRefusal>
    requires { pin ≤ store.old.history.imports }
    ensures { IsQueried result D.view (ForIds (id_question_of question.now)) pin
        store.old store.new }
{
    let found = store.ids(question, pin)?;
    Ok(reply_ids(alloc, &found)?)
}

/// The effective times of all rows.
pub(crate) fn answer_dates<D: Disk>(
    alloc: Global,
    pin: u32,
    store: &mut Store<D>,
) -> Result<Reply, LineRefusal>
    requires { pin ≤ store.old.history.imports }
    ensures { IsQueried result D.view Dates pin store.old store.new }
{
    let found = store.dates(pin)?;
    Ok(reply_dates(alloc, &found)?)
}

/// The digest of all rows.
pub(crate) fn answer_digest<D: Disk>(
    alloc: Global,
    pin: u32,
    store: &mut Store<D>,
) -> Result<Reply, LineRefusal>
    requires { pin ≤ store.old.history.imports }
    ensures { IsQueried result D.view Digest pin store.old store.new }
{
    let found = digest(alloc, store, pin)?;
    Ok(reply_digest(alloc, found)?)
}

/// The receipt of an import, unless the session doesn't see that import.
pub(crate) fn answer_receipt<D: Disk>(
    alloc: Global,
    number: u32,
    pin: u32,
    store: &Store<D>,
) -> Result<Reply, LineRefusal>
    requires first { 1 ≤ number }
    requires within { pin ≤ store.now.history.imports }
    ensures { IsQueried result D.view (Receipt number) pin
        store.now store.now }
{
    if number > pin {
        return Err(LineRefusal::PinRange);
    }
    let receipt = store.receipt(number)?;
    Ok(reply_receipt(alloc, number, receipt))
}

/// Whether the number is that of one of the first `pin` imports.
fn is_seen(number: u32, pin: u32) -> bool
    ensures { IsTrue result ↔ IsNumber pin number }
{
    1 <= number && number <= pin
}

/// The rows of a kind that an import was the first to bring, unless the session doesn't see that
/// import, or the number is 0.
pub(crate) fn answer_added<D: Disk>(
    alloc: Global,
    number: u32,
    kind: Kind,
    after: Option<Key>,
    limit: u32,
    pin: u32,
    store: &mut Store<D>,
) -> Result<Reply, LineRefusal>
    requires { pin ≤ store.old.history.imports }
    ensures { IsQueried result D.view (Added number kind after limit) pin store.old store.new }
{
    if is_seen(number, pin) {
        let found = store.added(number, kind, after, limit)?;
        return Ok(reply_rows(alloc, &found)?);
    }
    Err(LineRefusal::PinRange)
}
