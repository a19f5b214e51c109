//! Sources of releases.

ghost use Rattle.std.specs.Prelude.{◌≡◌, ℕ, List, Option};
ghost use Rattle.rf2_values.specs.declared.row.Kind.{Kind};
ghost use Rattle.line_server.specs.Sources.{Releases, IsGiven};

use history_store::Refusal;
use import_check::{Release, Scope};
use std::alloc::Global;
use thiserror::Error;

/// Why a source didn't return a release.
#[derive(Clone, Copy, Debug, PartialEq, Eq, Error)]
pub enum SourceFault {
    #[error("out of memory")]
    OutOfMemory,
    #[error("no release can be read from the folder")]
    NoFolder,
}

/// A source of releases, which it finds by their names.
pub trait Source {
    /// The source returns the releases that `releases` names, and these don't change.
    ghost is_honest: { Self → Type 0 };
    /// The release of each name: the kinds and bytes of those of its files that a scope includes.
    ghost releases: { Self → Releases };

    /// Returns the release of this name, with the files that the scope includes.
    fn release(&mut self, alloc: Global, name: &str, scope: Scope) -> Result<Release, SourceFault>
        ensures honesty { is_honest self.old → is_honest self.new }
        ensures stays { is_honest self.old → releases self.new ≡ releases self.old }
        ensures given { is_honest self.old → IsGiven result (releases self.old scope name.now) };

    /// Tells the source that the store refused, in an import or a check, the release that `release`
    /// returned for this name and scope. That release is no longer in memory: a source that reports
    /// to people may read it again to say why it was refused.
    fn note_refusal(&mut self, alloc: Global, name: &str, scope: Scope, refusal: Refusal)
        ensures honesty { is_honest self.old → is_honest self.new }
        ensures stays { is_honest self.old → releases self.new ≡ releases self.old };
}
