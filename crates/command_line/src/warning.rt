//! Warnings about a release beside what a store has, once the reply was written.

ghost use Rattle.command_line.specs.OnlyRead.{IsOnlyRead};

use crate::outline::{Outline, raise};
use disk_model::Disk;
use history_store::{Refusal, Store};
use question_model::RowQuestion;
use rf2_values::{EffectiveTime, Kind, Row, Sctid};
use std::alloc::{AllocFailed, Global};
use std::collections::{BTreeMap, BTreeSet};
use std::io::{self, Write};

/// A year, as a difference of dates that are written as numbers of eight digits.
const YEAR: u32 = 10_000;

/// The most modules that a warning names.
const MOST_NAMED: usize = 10;

/// The core module of the International Edition, and the one of what releases are made of. Every
/// release builds on both, and they are only published together.
const CORE: u64 = 900000000000207008;

const MODEL: u64 = 900000000000012004;

/// The reference set of rows that say which modules build on others.
const DEPENDENCIES: u64 = 900000000000534007;

/// The last day of which there may be rows.
const LAST_DAY: u32 = 99991231;

/// The days that a release is compared with.
#[derive(Clone, Copy)]
pub(crate) struct Days {
    /// Today, if the host tells it.
    pub today: Option<u32>,
    /// The greatest effective time of a row of the store before the release was imported, if it had
    /// a row.
    pub before: Option<EffectiveTime>,
}

/// Warns of times in a release that are far later than those that the store had, of modules whose
/// concepts nobody has, and of versions of modules on which it builds and that nobody has. There
/// are no warnings of times and of modules for a store that had no rows. The release may have been
/// imported: what counts is what the store and the release have.
pub(crate) fn tell_warnings<D: Disk, E: Write>(
    alloc: Global,
    outline: &Outline,
    days: &Days,
    store: &mut Store<D>,
    faults: &mut E,
)
    ensures { IsOnlyRead D.view store.old.disk store.new.disk }
{
    warn_of_time(outline.latest(), days, faults);
    match unknown_modules(alloc, outline, days, store) {
        Ok(modules) => {
            let _ = warn_of_modules(&modules, faults);
        }
        Err(_) => tell_uncompared(faults),
    }
    if warn_of_bases(alloc, outline, days, store, faults).is_err() {
        tell_uncompared(faults);
    }
}

/// Warns that the release couldn't be compared in this way, or not completely.
pub(crate) fn tell_uncompared<E: Write>(faults: &mut E) {
    let _ = writeln!(
        faults,
        "sctd: warning: not all dates and modules could be compared with the store's"
    );
}

/// Warns of a time that is more than a year later than all times that the store had, unless it is
/// after today, of which people were warned.
fn warn_of_time<E: Write>(time: Option<u32>, days: &Days, faults: &mut E) {
    let (Some(time), Some(before)) = (time, days.before) else {
        return;
    };
    let before = before.value();
    if time > before.saturating_add(YEAR) && days.today.is_none_or(|today| time <= today) {
        let _ = writeln!(
            faults,
            "sctd: warning: an effectiveTime is {time}, more than a year later than all that the \
store has, up to {before}"
        );
    }
}

/// The modules of a release whose concepts neither the store nor the release has. Those of the
/// International Edition are known everywhere, and all are to a store that had no rows.
fn unknown_modules<D: Disk>(
    alloc: Global,
    outline: &Outline,
    days: &Days,
    store: &mut Store<D>,
) -> Result<BTreeSet<u64>, Refusal>
    ensures { IsOnlyRead D.view store.old.disk store.new.disk }
{
    let mut unknown = BTreeSet::new(alloc);
    if days.before.is_none() {
        return Ok(unknown);
    }
    for module in outline.modules.keys() {
        if is_unknown(*module, outline, store)? {
            unknown.insert(*module)?;
        }
    }
    Ok(unknown)
}

/// Whether neither the store nor the release has the concept of a module, and it isn't one of the
/// International Edition.
fn is_unknown<D: Disk>(
    module: u64,
    outline: &Outline,
    store: &mut Store<D>,
) -> Result<bool, Refusal>
    ensures { IsOnlyRead D.view store.old.disk store.new.disk }
{
    if is_international(module) || outline.with_concepts.contains(&module) {
        return Ok(false);
    }
    Ok(!has_concept(module, store)?)
}

/// Whether it is a module of the International Edition that every release builds on.
fn is_international(module: u64) -> bool {
    module == CORE || module == MODEL
}

/// Whether the store has a concept.
fn has_concept<D: Disk>(concept: u64, store: &mut Store<D>) -> Result<bool, Refusal>
    ensures { IsOnlyRead D.view store.old.disk store.new.disk }
{
    let pin = store.imports();
    let versions = RowQuestion::History {
        kind: Kind::Concept,
        id: u128::from(concept),
    };
    let rows = store.select(&versions, pin)?;
    Ok(!rows.is_empty())
}

/// Warns of modules, and names the first of them.
fn warn_of_modules<E: Write>(modules: &BTreeSet<u64>, faults: &mut E) -> io::Result<()> {
    if modules.is_empty() {
        return Ok(());
    }
    write!(
        faults,
        "sctd: warning: modules of which neither the store nor the release has the concept: "
    )?;
    write_first(modules, faults)?;
    let more = modules.len().saturating_sub(MOST_NAMED);
    if more > 0 {
        write!(faults, ", and {more} more")?;
    }
    writeln!(faults)
}

/// Writes the first of some modules, separated by commas.
fn write_first<E: Write>(modules: &BTreeSet<u64>, faults: &mut E) -> io::Result<()> {
    for (i, module) in modules.iter().take(MOST_NAMED).enumerate() {
        if i > 0 {
            write!(faults, ", ")?;
        }
        write!(faults, "{module}")?;
    }
    Ok(())
}

/// Warns of each version of a module on which the release builds and that neither the store nor the
/// release reaches.
fn warn_of_bases<D: Disk, E: Write>(
    alloc: Global,
    outline: &Outline,
    days: &Days,
    store: &mut Store<D>,
    faults: &mut E,
) -> Result<(), Refusal>
    ensures { IsOnlyRead D.view store.old.disk store.new.disk }
{
    let needed = outline.needed()?;
    if needed.is_empty() {
        return Ok(());
    }
    let reached = reached_by(alloc, outline, store)?;
    for (module, time) in needed.iter() {
        let latest = latest_of(*module, &reached, days, store)?;
        if latest.is_none_or(|latest| latest < *time) {
            let _ = warn_of_base(*module, *time, latest, faults);
        }
    }
    Ok(())
}

/// The modules of the release's rows and of the store's rows of dependencies, each with the
/// greatest effective time of these rows.
fn reached_by<D: Disk>(
    alloc: Global,
    outline: &Outline,
    store: &mut Store<D>,
) -> Result<BTreeMap<u64, u32>, Refusal>
    ensures { IsOnlyRead D.view store.old.disk store.new.disk }
{
    let mut reached = BTreeMap::new(alloc);
    for (module, time) in outline.modules.iter() {
        raise(&mut reached, *module, *time)?;
    }
    let rows = dependencies(alloc, store)?;
    raise_by(&mut reached, &rows)?;
    Ok(reached)
}

/// The store's rows that say which modules build on others.
fn dependencies<D: Disk>(alloc: Global, store: &mut Store<D>) -> Result<Vec<Row>, Refusal>
    ensures { IsOnlyRead D.view store.old.disk store.new.disk }
{
    let (Some(refset), Some(date)) = (Sctid::of(DEPENDENCIES), EffectiveTime::of(LAST_DAY)) else {
        return Ok(Vec::new(alloc));
    };
    let members = RowQuestion::Members {
        refset,
        date,
        after: None,
        limit: u32::MAX,
    };
    let pin = store.imports();
    store.select(&members, pin)
}

/// Notes the effective times of rows, each for the module of its row.
fn raise_by(reached: &mut BTreeMap<u64, u32>, rows: &[Row]) -> Result<(), AllocFailed<(u64, u32)>> {
    for row in rows {
        raise(reached, row.module_id.value(), row.time.value())?;
    }
    Ok(())
}

/// The latest time of a module. If no row of dependencies is in it, but the store has its concept,
/// all rows that the store had count.
fn latest_of<D: Disk>(
    module: u64,
    reached: &BTreeMap<u64, u32>,
    days: &Days,
    store: &mut Store<D>,
) -> Result<Option<u32>, Refusal>
    ensures { IsOnlyRead D.view store.old.disk store.new.disk }
{
    let latest = reached_time(module, reached);
    if latest.is_some() || !has_concept(module, store)? {
        return Ok(latest);
    }
    Ok(days.before.map(|before| before.value()))
}

/// The time that is known of a module, or of one that is only published together with it.
fn reached_time(module: u64, reached: &BTreeMap<u64, u32>) -> Option<u32> {
    let own = reached.get(&module).copied();
    if module == MODEL {
        own.max(reached.get(&CORE).copied())
    } else {
        own
    }
}

/// Warns of a version of a module, of which this is the latest that is there.
fn warn_of_base<E: Write>(
    module: u64,
    time: u32,
    latest: Option<u32>,
    faults: &mut E,
) -> io::Result<()> {
    write!(
        faults,
        "sctd: warning: this release builds on {time} of module {module}, of which the store has \
nothing"
    )?;
    match latest {
        Some(latest) => writeln!(faults, " later than {latest}"),
        None => writeln!(faults),
    }
}
