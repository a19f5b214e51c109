//! Files that nearly every release with concepts has.

use import_check::{ReleaseFile, Scope};
use release_folder::lacks;
use std::io::Write;

/// A sort of files that nearly every release with concepts has.
#[derive(Clone, Copy)]
struct Usual {
    /// What the names of the files begin with.
    beginning: &'static str,
    /// What stands in the name of a file of concepts of a release that has to have such a file.
    mark: &'static str,
    /// Whether stores of all layouts keep such files.
    is_basic: bool,
    /// What is told where there is none.
    told: &'static str,
}

/// The sorts of files. A Delta that changes no description or relationship may do without files of
/// them.
const USUAL: [Usual; 6] = [
    Usual {
        beginning: "sct2_Description_",
        mark: "Full",
        is_basic: true,
        told: "a Full file of concepts was taken, and no Description file",
    },
    Usual {
        beginning: "sct2_Relationship_",
        mark: "Full",
        is_basic: true,
        told: "a Full file of concepts was taken, and no Relationship file",
    },
    Usual {
        beginning: "sct2_TextDefinition_",
        mark: "",
        is_basic: false,
        told: "a file of concepts was taken, and no TextDefinition file",
    },
    Usual {
        beginning: "der2_cRefset_Language",
        mark: "",
        is_basic: false,
        told: "a file of concepts was taken, and no Language file",
    },
    Usual {
        beginning: "der2_cRefset_Association",
        mark: "",
        is_basic: false,
        told: "a file of concepts was taken, and no Association file",
    },
    Usual {
        beginning: "der2_cRefset_AttributeValue",
        mark: "",
        is_basic: false,
        told: "a file of concepts was taken, and no AttributeValue file",
    },
];

/// Warns of the files that a release with concepts lacks, among those that belong to the scope.
pub(crate) fn warn_of_lacking<E: Write>(files: &[ReleaseFile], scope: Scope, faults: &mut E) {
    for usual in &USUAL {
        let is_kept = usual.is_basic || matches!(scope, Scope::Whole);
        if is_kept && lacks(files, usual.mark.as_bytes(), usual.beginning.as_bytes()) {
            let _ = writeln!(faults, "sctd: warning: {}", usual.told);
        }
    }
}
