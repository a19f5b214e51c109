//! Answers queries at a date and a pin from lists of places; rows are read through a reader that
//! the caller passes.
#![tactic(auto)]

mod as_of;
mod chosen;
mod cursors;
mod dates;
mod heads;
mod hints;
mod index;
mod key_order;
pub mod laws;
mod merging;
mod number_table;
mod numbers;
mod per_list;
mod place_list;
mod place_list_builder;
mod reader;
mod search;
mod several;

pub use as_of::AsOf;
pub use chosen::{Chosen, read_all};
pub use fault_counts::ReadFault;
pub use hints::Hints;
pub use index::{Index, MAX_LISTS};
pub use merging::{MergedList, Posting, TakenCount, merge_on, reserve_left};
pub use number_table::NumberTable;
pub use numbers::Numbers;
pub use per_list::PerList;
pub use place_list::PlaceList;
pub use place_list_builder::PlaceListBuilder;
pub use reader::RowReader;
pub use search::{is_above, lent_at};
pub use segment::RowPlace;
