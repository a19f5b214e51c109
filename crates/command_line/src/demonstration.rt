//! The demonstration: the script that it serves, and the releases that the script imports.

use history_store::Refusal;
use import_check::{Release, Scope};
use line_server::{Source, SourceFault};
use samples::sample;
use std::alloc::Global;

/// Imports three releases, one of them during a merge; asks questions in two sessions, one of which
/// is pinned; and shows two refusals.
pub const SCRIPT: &[u8] = b"0 STATUS\n\
0 GET C 138875005 20230131\n\
0 IMPORT r1\n\
1 PIN\n\
0 IMPORT r2\n\
0 MERGE\n\
0 STEP 1\n\
1 IMPORT r3\n\
0 STEP 100\n\
0 PUBLISH\n\
0 STATUS\n\
0 GET C 1000004 20200831\n\
1 GET C 1000004 20200831\n\
0 HISTORY C 1000004\n\
0 CHILDREN 138875005 20210131\n\
0 TERMS 20200131 10 STRASS\n\
0 TERMS 20210131 10 STRASS\n\
0 REPLACED 1000004 20210131\n\
1 PIN 9\n\
0 IMPORT r9\n";

/// A source with the sample releases only.
#[derive(Clone, Copy)]
pub(crate) struct Samples;

// promise: files_are_taken_by_their_names
impl Source for Samples {
    ghost use Rattle.std.specs.Prelude.{⊤};
    ghost use Rattle.samples.specs.Sample.{sample_files};

    ghost is_honest = { λ _. ⊤ };

    ghost releases = { λ _ _ name. sample_files name };

    fn release(
        &mut self,
        alloc: Global,
        name: &str,
        _scope: Scope,
    ) -> Result<Release, SourceFault> {
        match sample(alloc, name) {
            Ok(Some(release)) => Ok(release),
            Ok(None) => Err(SourceFault::NoFolder),
            Err(_) => Err(SourceFault::OutOfMemory),
        }
    }

    fn note_refusal(&mut self, _alloc: Global, _name: &str, _scope: Scope, _refusal: Refusal) {}
}
