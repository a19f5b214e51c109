//! What the rows of a release say of times and modules, which warnings rest on.

use crate::differing::without_end;
use import_check::ReleaseFile;
use rf2_values::{EffectiveTime, Kind, Sctid};
use std::alloc::{AllocError, AllocFailed, Global};
use std::collections::{BTreeMap, BTreeSet};

/// What the names of files begin with that say which modules build on others.
const DEPENDENCIES: &[u8] = b"der2_ssRefset_ModuleDependency";

/// A module, and what it builds on: another one, or an earlier version of itself.
pub(crate) type Pair = (u64, u64);

/// What the latest row says of a pair of modules.
#[derive(Clone, Copy)]
pub(crate) struct Base {
    /// The effective time of the row.
    since: u32,
    /// The version on which the first module builds; none if the row is inactive.
    time: Option<u32>,
}

/// What the warnings are based on.
#[derive(Drop)]
pub(crate) struct Outline {
    alloc: Global,
    /// The modules of the release's rows, each with the greatest effective time of its rows.
    pub modules: BTreeMap<u64, u32>,
    /// Those of the modules whose concepts the release has.
    pub with_concepts: BTreeSet<u64>,
    /// What each module builds on.
    bases: BTreeMap<Pair, Base>,
}

/// The outline of a release.
pub(crate) fn outline_of(alloc: Global, files: &[ReleaseFile]) -> Result<Outline, AllocError> {
    let mut outline = Outline {
        alloc,
        modules: BTreeMap::new(alloc),
        with_concepts: BTreeSet::new(alloc),
        bases: BTreeMap::new(alloc),
    };
    outline.note_rows(files)?;
    outline.note_concepts(files)?;
    Ok(outline)
}

impl Outline {
    /// The greatest effective time of the rows, if there is one.
    pub(crate) fn latest(&self) -> Option<u32> {
        let mut latest = None;
        for time in self.modules.values() {
            latest = latest.max(Some(*time));
        }
        latest
    }

    /// The versions of modules that others build on, the greatest of each module.
    pub(crate) fn needed(&self) -> Result<BTreeMap<u64, u32>, AllocError> {
        let mut needed = BTreeMap::new(self.alloc);
        for (pair, base) in self.bases.iter() {
            if let Some(time) = base.time {
                raise(&mut needed, pair.1, time)?;
            }
        }
        Ok(needed)
    }

    /// Adds what the rows of files say of modules.
    fn note_rows(&mut self, files: &[ReleaseFile]) -> Result<(), AllocError> {
        for file in files {
            self.note_times(&file.bytes)?;
            if file.name.as_bytes().starts_with(DEPENDENCIES) {
                self.note_bases(&file.bytes)?;
            }
        }
        Ok(())
    }

    /// Adds the modules whose concepts are among those of files.
    fn note_concepts(&mut self, files: &[ReleaseFile]) -> Result<(), AllocError> {
        for file in files {
            if file.kind == Kind::Concept {
                self.note_concepts_in(&file.bytes)?;
            }
        }
        Ok(())
    }

    /// Adds the modules of a file's lines, after its column names, and their effective times.
    fn note_times(&mut self, bytes: &[u8]) -> Result<(), AllocError> {
        for line in bytes.split(|byte| *byte == b'\n').skip(1) {
            if let Some((time, module)) = time_and_module(line) {
                raise(&mut self.modules, module, time)?;
            }
        }
        Ok(())
    }

    /// Adds the modules whose concepts a file has.
    fn note_concepts_in(&mut self, bytes: &[u8]) -> Result<(), AllocError> {
        for line in bytes.split(|byte| *byte == b'\n').skip(1) {
            if let Some(concept) = number_in(line, 0) {
                if self.modules.contains_key(&concept) {
                    self.with_concepts.insert(concept)?;
                }
            }
        }
        Ok(())
    }

    /// Adds what the lines of a file say that modules build on.
    fn note_bases(&mut self, bytes: &[u8]) -> Result<(), AllocError> {
        for line in bytes.split(|byte| *byte == b'\n').skip(1) {
            if let Some(dependency) = dependency_in(line) {
                let Dependency { module, target, .. } = dependency;
                self.note_base((module, module), dependency.base(dependency.source_time))?;
                self.note_base((module, target), dependency.base(dependency.target_time))?;
            }
        }
        Ok(())
    }

    /// Adds what a row says of a pair of modules, unless a later row was added.
    fn note_base(&mut self, pair: Pair, base: Base) -> Result<(), AllocError> {
        match self.bases.get(&pair) {
            Some(noted) if noted.since > base.since => Ok(()),
            _ => {
                self.bases.insert(pair, base)?;
                Ok(())
            }
        }
    }
}

/// A row that says on which version of another module a version of a module builds.
#[derive(Clone, Copy)]
struct Dependency {
    since: u32,
    is_active: bool,
    module: u64,
    target: u64,
    source_time: u32,
    target_time: u32,
}

impl Dependency {
    /// What it says of one of its two versions.
    fn base(self, time: u32) -> Base {
        Base {
            since: self.since,
            time: if self.is_active { Some(time) } else { None },
        }
    }
}

/// The row of a line, if it is one of a dependency.
fn dependency_in(line: &[u8]) -> Option<Dependency> {
    let (since, module) = time_and_module(line)?;
    Some(Dependency {
        since,
        is_active: column(line, 2)? == b"1".as_slice(),
        module,
        target: number_in(line, 5)?,
        source_time: time_in(line, 6)?,
        target_time: time_in(line, 7)?,
    })
}

/// The second and the fourth column of a line, if they are an effective time and an SCTID.
fn time_and_module(line: &[u8]) -> Option<(u32, u64)> {
    let mut columns = line.split(|byte| *byte == b'\t').skip(1);
    let time = EffectiveTime::parse(columns.next()?)?;
    let module = Sctid::parse(columns.nth(1)?)?;
    Some((time.value(), module.value()))
}

/// A column of a line, counted from 0, without the end of the line.
fn column(line: &[u8], number: usize) -> Option<&[u8]> {
    without_end(line).split(|byte| *byte == b'\t').nth(number)
}

/// The SCTID in a column.
fn number_in(line: &[u8], number: usize) -> Option<u64> {
    Some(Sctid::parse(column(line, number)?)?.value())
}

/// The effective time in a column.
fn time_in(line: &[u8], number: usize) -> Option<u32> {
    Some(EffectiveTime::parse(column(line, number)?)?.value())
}

/// Makes the time of a module this one, unless it has a later one.
pub(crate) fn raise(
    times: &mut BTreeMap<u64, u32>,
    module: u64,
    time: u32,
) -> Result<(), AllocFailed<(u64, u32)>> {
    match times.get(&module) {
        Some(known) if *known >= time => Ok(()),
        _ => {
            times.insert(module, time)?;
            Ok(())
        }
    }
}
