//! Computes one digest over the rows of a store.

ghost use Rattle.std.specs.Prelude.{◌++◌, ◌≤◌, ℕ, List, OnOk};
ghost use Rattle.sha2.specs.Hashers.{Holds256};
ghost use Rattle.history_model.specs.History.{IsHistory};
ghost use Rattle.store_digest.specs.Digest.{text_line, IsDigestQuery};
ghost use Rattle.store_digest.specs.Private.{IsNextAdded};

use crate::text::put_line;
use disk_model::Disk;
use history_store::{Refusal, Store};
use rf2_rows::{Key, Row};
use sha2::{Digest, Sha256};
use std::alloc::{AllocError, Global};

/// Hashes the line of a row, after what was hashed before.
fn add_row(alloc: Global, row: &Row, hasher: &mut Sha256) -> Result<(), AllocError>
    ensures { (m : List ℕ) → Holds256 hasher.old m
        → OnOk result (Holds256 hasher.new (m ++ text_line row.now)) }
{
    let mut line = Vec::new(alloc);
    put_line(row, &mut line)?;
    hasher.update(line.as_slice());
    Ok(())
}

/// Hashes the next row after a key, or the first row if no key is given, and returns the row's key;
/// none if no row is left.
fn add_next<D: Disk>(
    alloc: Global,
    store: &mut Store<D>,
    after: Option<Key>,
    pin: u32,
    hasher: &mut Sha256,
) -> Result<Option<Key>, Refusal>
    requires { pin ≤ store.old.history.imports }
    ensures added { IsNextAdded result after pin hasher.old hasher.new D.view store.old store.new }
    ensures history { IsHistory store.old.history }
{
    let rows = store.rows_after(after, 1, pin)?;
    match rows.first() {
        Some(row) => {
            add_row(alloc, row, hasher)?;
            Ok(Some(row.key()))
        }
        None => Ok(None),
    }
}

/// The digest of all rows that the first `pin` imports brought: the SHA-256 of their lines, in the
/// order of kind, identifier and time. Only one row is in memory at a time.
pub fn digest<D: Disk>(alloc: Global, store: &mut Store<D>, pin: u32) -> Result<[u8; 32], Refusal>
    requires { pin ≤ store.old.history.imports }
    // promise: a_digest_is_that_of_the_rows
    ensures answer { IsDigestQuery result pin D.view store.old store.new }
{
    let mut hasher = Sha256::new();
    let mut last = None;
    'rows: while let Some(key) = add_next(alloc, store, last, pin, &mut hasher)? {
        last = Some(key);
    }
    Ok(hasher.finalize())
}
