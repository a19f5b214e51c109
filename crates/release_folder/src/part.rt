//! The folders of a release that contain its reference sets.

use import_check::ReleaseFile;

/// A folder of a release's `Refset`.
#[derive(Drop)]
pub struct Part {
    /// Its name, such as `Content`.
    pub folder: String,
    /// Its release files.
    pub files: Vec<ReleaseFile>,
}
