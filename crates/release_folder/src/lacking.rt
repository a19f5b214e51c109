//! Finds out which files are missing in a release with concepts.

ghost use Rattle.std.specs.Prelude.{◌↔◌, IsTrue, Any};
ghost use Rattle.release_folder.specs.Names.{IsOfConcepts, BeginsSo, Lacks};

use bstr::ByteSlice;
use import_check::ReleaseFile;
use rf2_values::Kind;

/// Whether a release has a file of concepts with this mark in its name, such as `Full`, and no file
/// whose name begins so. Each name has the mark of no bytes.
pub fn lacks(files: &[ReleaseFile], mark: &[u8], beginning: &[u8]) -> bool
    // promise: what_is_passed_over_is_told
    ensures { IsTrue result ↔ Lacks files.now mark.now beginning.now }
{
    has_concepts(files, mark) && !has_named(files, beginning)
}

/// Whether there is a file of concepts with this mark in its name.
fn has_concepts(files: &[ReleaseFile], mark: &[u8]) -> bool
    ensures { IsTrue result ↔ Any (IsOfConcepts mark.now) files.now }
{
    for file in files {
        if is_of_concepts(file, mark) {
            return true;
        }
    }
    false
}

/// Whether there is a file whose name begins so.
fn has_named(files: &[ReleaseFile], beginning: &[u8]) -> bool
    ensures { IsTrue result ↔ Any (BeginsSo beginning.now) files.now }
{
    for file in files {
        if begins_so(file, beginning) {
            return true;
        }
    }
    false
}

/// Whether the name of a file begins so.
fn begins_so(file: &ReleaseFile, beginning: &[u8]) -> bool
    ensures { IsTrue result ↔ BeginsSo beginning.now file.now }
{
    file.name.as_bytes().starts_with_str(beginning)
}

/// Whether it is a file of concepts with this mark in its name.
fn is_of_concepts(file: &ReleaseFile, mark: &[u8]) -> bool
    ensures { IsTrue result ↔ IsOfConcepts mark.now file.now }
{
    file.kind == Kind::Concept && file.name.as_bytes().contains_str(mark)
}
