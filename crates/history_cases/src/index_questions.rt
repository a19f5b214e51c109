//! The answers of an index, and what comes if its reads fail.

use crate::indexed::Indexed;
use crate::told::{Request, told};
use crate::watched::Watched;
use as_of_index::{AsOf, ReadFault};
use case_files::{Answer, NoAnswer};
use case_values::Question;
use links::{
    about, ancestors, called, children, descendants, members, replacements, replaces, sources,
    timeline, values,
};
use rf2_values::Row;
use term_prefix::Search;
use term_words::WordSearch;

/// The ways in which a read fails.
const FAULTS: [ReadFault; 3] = [
    ReadFault::OutOfMemory,
    ReadFault::DiskFault,
    ReadFault::Damaged,
];

impl Request {
    /// The descriptions that are found by their terms, with ids greater than one, up to a limit.
    fn search(
        &self,
        made: &Indexed,
        reader: &mut Watched<'_>,
        (as_of, after, limit): (AsOf, Option<u128>, u32),
    ) -> Result<Vec<Row>, ReadFault> {
        let (terms, prefix) = (&made.posted.terms, self.prefix.as_str());
        let search = Search {
            as_of,
            after,
            limit,
        };
        term_prefix::find(self.alloc, terms, &made.index, reader, prefix, &search)
    }

    /// The rows that are found by links, if the question asks for these.
    fn find_linked(&self, made: &Indexed, reader: &mut Watched<'_>) -> Result<Vec<Row>, ReadFault> {
        let (alloc, links, index) = (self.alloc, &made.posted.links, &made.index);
        let at = |date| self.at(date);
        match self.question {
            Question::Replacements(id, date) => {
                replacements(alloc, links, index, reader, id, at(date))
            }
            Question::Replaces(id, date) => replaces(alloc, links, index, reader, id, at(date)),
            Question::About(kind, id, date) => {
                about(alloc, links, index, reader, kind, id, at(date))
            }
            Question::Timeline(kind, id) => {
                timeline(alloc, links, index, reader, kind, id, self.pin)
            }
            Question::Members(refset, date, after, limit) => {
                members(alloc, links, index, reader, refset, at(date), after, limit)
            }
            Question::Values(refset, date, after, limit) => {
                values(alloc, links, index, reader, refset, at(date), after, limit)
            }
            Question::Called(id, date, refset) => {
                called(alloc, links, index, reader, id, at(date), refset)
            }
            _ => Ok(Vec::new(alloc)),
        }
    }

    /// The rows that are found, if the question asks for rows.
    fn find(&self, made: &Indexed, reader: &mut Watched<'_>) -> Result<Vec<Row>, ReadFault> {
        let (index, pin, prefix) = (&made.index, self.pin, self.prefix.as_str());
        let at = |date| self.at(date);
        match self.question {
            Question::Get(kind, id, date) => {
                let found = index.get(reader, kind, id, at(date))?;
                Ok(found.into_iter().collect(self.alloc)?)
            }
            Question::Versions(kind, id) => index.versions(reader, kind, id, pin),
            Question::Page(kind, date, after, limit) => {
                index.page(reader, kind, at(date), after, limit)
            }
            Question::Delta(kind, from, date, after, limit) => {
                index.delta(reader, kind, from, at(date), after, limit)
            }
            Question::AllRows(kind, after, limit) => {
                index.rows_of_kind(reader, kind, after, limit, pin)
            }
            Question::Terms(date, limit) => self.search(made, reader, (at(date), None, limit)),
            Question::Search(date, after, limit) => {
                self.search(made, reader, (at(date), after, limit))
            }
            Question::Words(date, wanted_type, offset, limit) => {
                let search = WordSearch {
                    as_of: at(date),
                    wanted_type: wanted_type.map(|id| id.value()),
                    offset,
                    limit,
                };
                term_words::find(
                    self.alloc,
                    &made.posted.words,
                    index,
                    reader,
                    prefix,
                    &search,
                )
            }
            _ => self.find_linked(made, reader),
        }
    }

    /// The rows that are found. Only these have to be read, each once; a place without a row has to
    /// be counted once.
    fn ask_for_rows(&self, made: &Indexed) -> Answer {
        let mut reader = made.reader();
        let found = self.find(made, &mut reader);
        let (reads, _, damages) = reader.counts();
        let rows = match found {
            Ok(rows) => rows,
            Err(ReadFault::OutOfMemory) => return Err(NoAnswer::OutOfMemory),
            Err(fault) => return Ok(format!(in self.alloc; "{fault:?}, with {damages} damages")?),
        };
        let are_read = reads == rows.len() as u64 && damages == 0;
        let text = told(self.alloc, Ok(rows))?;
        if are_read {
            return Ok(text);
        }
        Ok(format!(in self.alloc; "{text}, with {reads} reads and {damages} damages")?)
    }

    /// The answer of the index.
    pub fn ask_index(&self, made: &Indexed) -> Answer {
        let (alloc, links, index) = (self.alloc, &made.posted.links, &made.index);
        let at = |date| self.at(date);
        match self.question {
            Question::Children(id, date) => {
                told(alloc, children(alloc, links, index, id, at(date)))
            }
            Question::Descendants(id, date) => {
                told(alloc, descendants(alloc, links, index, id, at(date)))
            }
            Question::Ancestors(id, date) => {
                told(alloc, ancestors(alloc, links, index, id, at(date)))
            }
            Question::Sources(type_id, id, date, after, limit) => {
                told(
                    alloc,
                    sources(alloc, links, index, type_id, id, at(date), after, limit),
                )
            }
            Question::Dates => told(alloc, index.dates(self.pin)),
            _ => self.ask_for_rows(made),
        }
    }

    /// How many rows the answer has.
    fn count(&self, made: &Indexed, reader: &mut Watched<'_>) -> Result<u64, ReadFault> {
        Ok(self.find(made, reader)?.len() as u64)
    }

    /// Whether the error of a read is returned at once and counted once, and the same reader
    /// answers with this many rows afterwards.
    fn hands_on(&self, made: &Indexed, answered: u64, read: u64, fault: ReadFault) -> bool {
        let mut reader = Watched::new(&made.lists, read, fault);
        let found = self.count(made, &mut reader);
        if read == 0 || read > answered {
            return found == Ok(answered) && reader.counts() == (answered, 0, 0);
        }
        let on_disk = u64::from(fault == ReadFault::DiskFault);
        let damaged = u64::from(fault == ReadFault::Damaged);
        found == Err(fault)
            && reader.counts() == (read, on_disk, damaged)
            && self.count(made, &mut reader) == Ok(answered)
    }

    /// Lets each read of a question fail in each way. As many rows have to be read as are in the
    /// answer, and each fault has to be returned.
    pub fn fail_each_read(&self, made: &Indexed) -> Answer {
        let Ok(answered) = self.count(made, &mut made.reader()) else {
            return Err(NoAnswer::NoQuestion);
        };
        for read in 0..=answered.saturating_add(1) {
            if !FAULTS
                .iter()
                .all(|fault| self.hands_on(made, answered, read, *fault))
            {
                return Ok(format!(in self.alloc; "a fault of read {read} isn't handed on")?);
            }
        }
        Ok(format!(in self.alloc; "{answered} reads")?)
    }
}
