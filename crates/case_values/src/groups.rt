//! Results of a sequence of tries, in which runs of equal results are written as one line.

use case_files::{Answer, NoAnswer};
use std::alloc::Global;
use std::mem;

/// The results of tries, which are numbered from 0 on: one line for each run of equal results, as
/// in `0 to 8: 2, yes`.
#[derive(Drop)]
pub struct Groups {
    alloc: Global,
    text: String,
    /// The last result, the number of the first one in its run, and how many results there are.
    last: String,
    first: u64,
    count: u64,
}

impl Groups {
    /// No results.
    pub fn new(alloc: Global) -> Groups {
        Groups {
            alloc,
            text: String::new(alloc),
            last: String::new(alloc),
            first: 0,
            count: 0,
        }
    }

    /// Adds the next result.
    pub fn put(&mut self, answer: String) -> Result<(), NoAnswer> {
        if self.count == 0 || answer != self.last {
            self.tell()?;
            self.last = answer;
            self.first = self.count;
        }
        self.count = self.count.saturating_add(1);
        Ok(())
    }

    /// Writes the line of the last run, if there is one.
    fn tell(&mut self) -> Result<(), NoAnswer> {
        let (first, last) = (self.first, self.count.saturating_sub(1));
        if self.count == 0 {
            return Ok(());
        }
        if !self.text.is_empty() {
            self.text.push('\n')?;
        }
        let line = if first == last {
            format!(in self.alloc; "{first}: {}", self.last)?
        } else {
            format!(in self.alloc; "{first} to {last}: {}", self.last)?
        };
        self.text.push_str(line.as_str())?;
        Ok(())
    }

    /// Ends the last run, and returns all lines.
    pub fn end(&mut self) -> Answer {
        self.tell()?;
        Ok(mem::replace(&mut self.text, String::new(self.alloc)))
    }
}
