//! The day of a package.

use release_folder::SnapshotFile;
use rf2_rows::EffectiveTime;

/// The day of a package: the greatest one with which a file's name ends.
pub(crate) fn day_of(files: &[SnapshotFile]) -> Option<EffectiveTime> {
    let mut greatest: Option<EffectiveTime> = None;
    for file in files {
        if let Some(day) = day_in(file.name.as_bytes()) {
            greatest = match greatest {
                Some(other) if other.value() >= day.value() => greatest,
                _ => Some(day),
            };
        }
    }
    greatest
}

/// The day with which a file's name ends, before `.txt`.
fn day_in(name: &[u8]) -> Option<EffectiveTime> {
    let stem = name.strip_suffix(b".txt".as_slice())?;
    let begin = stem.len().checked_sub(8)?;
    EffectiveTime::parse(stem.get(begin..)?)
}
