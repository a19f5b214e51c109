//! Releases in unpacked folders.
#![tactic(auto)]

mod fault;
mod folder;
mod guards;
mod lacking;
mod listing;
mod names;
mod nearly;
mod obstacle;
mod part;
mod passed_over;
mod snapshot;
mod watcher;

pub use fault::FolderFault;
pub use folder::{read_folder, read_release, release_of};
pub use lacking::lacks;
pub use names::{kind_to_take, snapshot_kind};
pub use nearly::is_nearly_to_take;
pub use obstacle::{FolderReadFault, Obstacle};
pub use part::Part;
pub use snapshot::{SnapshotFile, read_part, snapshot_files};
pub use watcher::{Unwatched, Watcher};
