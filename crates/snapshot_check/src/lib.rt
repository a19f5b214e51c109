//! Compares the rows of a package's Snapshot with the rows that a store shows at the package's day.
#![tactic(auto)]

mod comparing;
mod fault;
mod found;
mod more;
mod packaged;
mod seen;
mod shown;
mod told;

pub use comparing::compare;
pub use fault::{CompareFault, PackageFault};
pub use found::{Counts, Differences, DifferentRow};
pub use packaged::Package;
pub use shown::Shown;
pub use told::Told;
