//! The answers of the plain programs, about the rows that a pin shows.

use crate::told::{Request, told};
use case_files::Answer;
use case_values::Question;
use plain_history::{
    about, ancestors, called, children, dates, delta, descendants, get, members, page,
    replacements, replaces, rows_of_kind, search_terms, sources, terms, timeline, values, versions,
    words_found,
};
use rf2_values::Row;
use std::alloc::AllocError;

impl Request {
    /// The rows that are found, if the question asks for rows.
    fn find_shown<'a>(&self, shown: &'a [Row]) -> Result<Vec<&'a Row>, AllocError> {
        let (alloc, prefix) = (self.alloc, self.prefix.as_str());
        match self.question {
            Question::Get(kind, id, date) => get(shown, kind, id, date).into_iter().collect(alloc),
            Question::Versions(kind, id) => versions(alloc, shown, kind, id),
            Question::Replacements(id, date) => replacements(alloc, shown, id, date),
            Question::Replaces(id, date) => replaces(alloc, shown, id, date),
            Question::About(kind, id, date) => about(alloc, shown, kind, id, date),
            Question::Timeline(kind, id) => timeline(alloc, shown, kind, id),
            Question::Page(kind, date, after, limit) => page(
                alloc, shown, kind, date, after, limit,
            ),
            Question::Delta(kind, from, date, after, limit) => {
                delta(alloc, shown, kind, from, date, after, limit)
            }
            Question::Members(refset, date, after, limit) => {
                members(alloc, shown, refset, date, after, limit)
            }
            Question::Values(refset, date, after, limit) => {
                values(alloc, shown, refset, date, after, limit)
            }
            Question::Called(id, date, refset) => called(alloc, shown, id, date, refset),
            Question::Terms(date, limit) => terms(alloc, shown, prefix, date, limit),
            Question::Search(date, after, limit) => {
                search_terms(alloc, shown, prefix, date, after, limit)
            }
            Question::Words(date, wanted_type, offset, limit) => {
                words_found(alloc, shown, date, wanted_type, offset, limit, prefix)
            }
            Question::AllRows(kind, after, limit) => rows_of_kind(alloc, shown, kind, after, limit),
            _ => Ok(Vec::new(alloc)),
        }
    }

    /// The answer of the plain programs.
    pub fn ask_plainly(&self, shown: &[Row]) -> Answer {
        let alloc = self.alloc;
        match self.question {
            Question::Children(id, date) => told(alloc, children(alloc, shown, id, date)),
            Question::Descendants(id, date) => told(alloc, descendants(alloc, shown, id, date)),
            Question::Ancestors(id, date) => told(alloc, ancestors(alloc, shown, id, date)),
            Question::Sources(type_id, id, date, after, limit) => {
                told(
                    alloc,
                    sources(alloc, shown, type_id, id, date, after, limit),
                )
            }
            Question::Dates => told(alloc, dates(alloc, shown)),
            _ => told(alloc, self.find_shown(shown)),
        }
    }
}
