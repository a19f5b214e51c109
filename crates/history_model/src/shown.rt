//! A list that only clauses can see.

ghost use Rattle.std.specs.Prelude.{◌≡◌, List};
ghost use Rattle.std.specs.Borrow.{ftrue};
ghost use Rattle.history_model.specs.declared.stamped.StampedRow.{StampedRow};

use std::marker::{Model, PhantomData};

/// Rows that only clauses can see. It has no size at run time.
#[derive(Drop)]
pub(crate) struct ShownRows {
    marker: PhantomData<()>,
    pub ghost rows: { List StampedRow },
}

impl Model for ShownRows {
    ghost also_owns = { λ _. ftrue };
}

impl ShownRows {
    /// The rows that the caller's proof names, made from what `of` shows.
    pub(crate) fn any<T>(of: &T) -> ShownRows
        ghost rows: { List StampedRow }
        ensures { result.rows ≡ rows }
    {
        let _ = of;
        ShownRows {
            marker: PhantomData,
        }
    }
}
