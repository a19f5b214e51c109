//! The rows that a store shows at a date, as a comparison with a Snapshot reads them.

ghost use Rattle.std.specs.Prelude.{◌≡◌};
ghost use Rattle.question_model.specs.Questions.{row_question_of};
ghost use Rattle.question_model.specs.Wanted.{rows_for};
ghost use Rattle.command_line.specs.Private.Verifying.{IsPlain, IsAsked, read_fault_of};

use disk_model::Disk;
use fault_counts::ReadFault;
use history_store::{Refusal, Store};
use question_model::RowQuestion;
use rf2_rows::{EffectiveTime, Kind, Row};
use snapshot_check::Shown;
use std::alloc::Global;

/// The rows that all imports of a store show at a date.
#[derive(Drop)]
pub(crate) struct StoreAt<'a, D: Disk> {
    pub store: &'a mut Store<D>,
    pub date: EffectiveTime,
}

/// Why a row can't be read, of which a question was refused. A store that failed before refuses
/// each.
fn read_fault_of(refusal: Refusal) -> ReadFault
    ensures { result ≡ read_fault_of refusal }
{
    match refusal {
        Refusal::OutOfMemory => ReadFault::OutOfMemory,
        Refusal::Damaged => ReadFault::Damaged,
        _ => ReadFault::DiskFault,
    }
}

impl<D: Disk> StoreAt<'_, D> {
    /// The rows that a question finds.
    fn select(&mut self, question: &RowQuestion<'_>) -> Result<Vec<Row>, ReadFault>
        requires { IsPlain (row_question_of question.now) }
        ensures asked { IsAsked D.view (rows_for (row_question_of question.now)) result
            (λ rows. rows.items) self.old.store.now self.new.store.now }
        ensures date { self.new.date ≡ self.old.date }
        ensures store { self.new.store.ghost_name ≡ self.old.store.ghost_name }
    {
        let pin = self.store.imports();
        match self.store.select(question, pin) {
            Ok(rows) => Ok(rows),
            Err(refusal) => Err(read_fault_of(refusal)),
        }
    }
}

impl<D: Disk> Shown for StoreAt<'_, D> {
    ghost use Rattle.std.specs.Prelude.{◌≡◌};
    ghost use Rattle.rf2_values.specs.Row.{RowValue};
    ghost use Rattle.history_store.specs.StoreValue.{StoreValue};
    ghost use Rattle.command_line.specs.Verifying.{rows_shown, MayBeReadFor};
    ghost use Rattle.command_line.specs.Private.Verifying.{OnlyAsked, HasFailed};
    ghost use Rattle.std.proofs.Common.{refl, ◌∙◌};
    ghost use Rattle.command_line.specs.Private.ShownAt.{exactly, keyed_so, same_rows, steady_so};
    ghost use Rattle.command_line.specs.Private.ShownAt.{still, asked_on, failed_on};

    ghost at_date = { λ s. rows_shown s.store.now s.date };

    ghost is_honest = { λ s. (D.view s.store.now.disk).is_honest };

    ghost reads = { λ s read wanted. MayBeReadFor D.view s.store.now read wanted };

    ghost stays = { λ a b. OnlyAsked D.view a.store.now b.store.now × (b.date ≡ a.date)
        × (b.store.ghost_name ≡ a.store.ghost_name) };

    ghost fails = { λ e a b. HasFailed D.view e a.store.now b.store.now
        × (b.store.ghost_name ≡ a.store.ghost_name) };

    ghost exact = { λ a honest read wanted may. exactly D.view a.store.now honest read wanted may };

    ghost keyed = { λ a read wanted may. keyed_so D.view a.store.now read wanted may };

    ghost same = { λ a b on. same_rows D.view a.store.now b.store.now a.date b.date on.0 on.1 };

    ghost steady = { λ a b on read wanted may.
        steady_so D.view a.store.now b.store.now on.0 read wanted may };

    ghost stays_still = { λ a. (still D.view a.store.now, refl, refl) };

    ghost stays_on = { λ a b c ab bc.
        (asked_on D.view a.store.now b.store.now c.store.now ab.0 bc.0, bc.1 ∙ ab.1, bc.2 ∙ ab.2) };

    ghost fails_on = { λ e a b c ab bc.
        (failed_on D.view e a.store.now b.store.now c.store.now ab.0 bc.0, bc.1 ∙ ab.2) };

    fn row(&mut self, _alloc: Global, kind: Kind, id: u128) -> Result<Option<Row>, ReadFault> {
        let date = self.date;
        let mut rows = self.select(&RowQuestion::Get { kind, id, date })?;
        Ok(rows.pop())
    }

    fn page(
        &mut self,
        _alloc: Global,
        kind: Kind,
        after: Option<u128>,
        limit: u32,
    ) -> Result<Vec<Row>, ReadFault> {
        let date = self.date;
        self.select(&RowQuestion::Page {
            kind,
            date,
            after,
            limit,
        })
    }
}
