//! How cases write values: numbers, days, kinds, rows and bytes; calls on a disk; and results of a
//! sequence of tries. Nothing here has a clause.
#![tactic(auto)]

mod disks;
mod groups;
mod hex;
mod questions;
mod texts;
mod words;

pub use disks::{
    ask_disk, call_disk, choice_of, image, or_failed, or_fault, spell_done, spell_number,
    spell_option, spell_part, spell_yes, turned,
};
pub use groups::Groups;
pub use hex::{byte_of, read_hex, spell_block, spell_hex};
pub use questions::{Question, read_question};
pub use texts::{line_of, read_row, row_bytes, row_text, spell_id, spell_text};
pub use words::{
    day_of, first_word, kind_of, number, sctid_of, shape_of, split_prefix, three_words,
};
