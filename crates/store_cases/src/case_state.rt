//! The state of a case, and the tables of the questions by their first words.
//!
//! A question that begins with a number is a line of the protocol, such as `0 IMPORT r1`, which the
//! store's server answers; `test_support::Releases` has the releases that it names. `complete`
//! imports the samples that the store lacks, `new` begins with a new store of layout 2, as a case
//! itself does, and `new-in-three` with one of layout 3.

use crate::calls::{all_refusals, ask_contradictions, call, done, is_refused, spell_refusal};
use crate::copies::try_copies;
use crate::disks::{ask_disk, ask_kept};
use crate::named::{Named, ask_named, named_disk};
use crate::plain::{Plain, look_up, spell_sample};
use crate::runs::run;
use crate::scripts::{Line, holds, known, read_line, remember};
use crate::trials::{before_end, crashes, fails};
use crate::unwritten::run_unwritten;
use case_files::{Answer, Answers, NoAnswer, two_words};
use case_values::{first_word, number, spell_text};
use disk_model::MemDisk;
use history_store::{Layout, Refusal};
use std::alloc::Global;
use std::io::{Read, Write};
use std::rt::HostRuntime;
use test_support::{Example, Releases};

/// The lines that import the samples, in the order in which cases import them.
const SAMPLES: [&str; 3] = ["0 IMPORT r1", "0 IMPORT r2", "0 IMPORT r3"];

/// The releases and the lines of parts, and the state of a case.
#[derive(Drop)]
pub struct Case<'a> {
    rt: &'a HostRuntime,
    pub alloc: Global,
    releases: Releases,
    pub lines: Vec<Line>,
    plain: Plain,
    named: Named,
    store: Option<Example>,
    /// The bytes of the kept disk.
    pub kept: Vec<u8>,
    /// The remembered answers, and the replies of the last run.
    pub remembered: Vec<String>,
    pub last: Vec<u8>,
}

impl<'a> Case<'a> {
    /// With nothing that was given, and an empty kept disk.
    pub fn new(rt: &'a HostRuntime) -> Case<'a> {
        let alloc = rt.alloc();
        Case {
            rt,
            alloc,
            releases: Releases::new(alloc),
            lines: Vec::new(alloc),
            plain: Plain::new(alloc),
            named: named_disk(alloc, 0),
            store: None,
            kept: Vec::new(alloc),
            remembered: Vec::new(alloc),
            last: Vec::new(alloc),
        }
    }

    /// Takes a store in place of the present one, and prints `done`, or why there is none.
    pub fn put(&mut self, made: Result<Example, (Refusal, MemDisk)>) -> Answer {
        match made {
            Ok(store) => {
                self.store = Some(store);
                done(self.alloc)
            }
            Err((Refusal::OutOfMemory, _)) => Err(NoAnswer::OutOfMemory),
            Err((refusal, _)) => spell_refusal(self.alloc, refusal),
        }
    }

    /// Begins with a new store.
    pub fn begin_with(&mut self, layout: Layout) -> Answer {
        let disk = MemDisk::new(self.alloc);
        self.put(Example::create(self.alloc, disk, layout))
    }

    /// The store, a new one if there is none yet.
    pub fn store(&mut self) -> Result<&mut Example, NoAnswer> {
        if self.store.is_none() {
            self.begin_with(Layout::Two)?;
        }
        self.store.as_mut().ok_or(NoAnswer::NoQuestion)
    }

    /// Closes the store, and returns its disk.
    pub fn close(&mut self) -> Result<MemDisk, NoAnswer> {
        self.store()?;
        match self.store.take() {
            Some(store) => Ok(store.close()),
            None => Err(NoAnswer::NoQuestion),
        }
    }

    /// Lets the server of the store answer the lines of an input, and prints what it returns.
    pub fn serve<R: Read, W: Write>(
        &mut self,
        reads: u32,
        input: &mut R,
        output: &mut W,
    ) -> Answer {
        self.store()?;
        let Some(store) = &mut self.store else {
            return Err(NoAnswer::NoQuestion);
        };
        let answer = store.serve(&mut self.releases, reads, input, output);
        Ok(format!(in self.alloc; "{answer:?}")?)
    }

    /// The reply to a line of the protocol.
    pub fn reply(&mut self, line: &str) -> Answer {
        self.store()?;
        let Some(store) = &mut self.store else {
            return Err(NoAnswer::NoQuestion);
        };
        match store.reply(&mut self.releases, line) {
            Ok(reply) => spell_text(self.alloc, reply.strip_suffix(b"\n").unwrap_or(&reply)),
            Err(_) => Err(NoAnswer::OutOfMemory),
        }
    }

    /// Imports the samples that the store lacks.
    fn complete(&mut self) -> Answer {
        let imports = self.store()?.imports() as usize;
        for line in SAMPLES.iter().skip(imports) {
            let reply = self.reply(*line)?;
            if is_refused(&reply) {
                return Ok(reply);
            }
        }
        done(self.alloc)
    }

    /// Answers the question on a line.
    pub fn ask_line(&mut self, line: &str) -> Answer {
        let (word, rest) = two_words(line);
        self.ask(word, rest)
    }

    /// Answers a question about the store, given by its first word and the words after that.
    pub fn ask(&mut self, word: &str, rest: &str) -> Answer {
        match word {
            "contradictions" => {
                let (limit, words) = first_word(rest)?;
                let release = self.releases.find(words)?;
                ask_contradictions(self.alloc, self.store()?, number(limit)?, release)
            }
            "holds" => holds(self, rest),
            "complete" => self.complete(),
            "new" => self.begin_with(Layout::Two),
            "new-in-three" => self.begin_with(Layout::Three),
            "open"
            | "length"
            | "slot"
            | "bytes"
            | "turned"
            | "patch"
            | "break"
            | "torn"
            | "changes"
            | "crash"
            | "spoil"
            | "keep"
            | "same" => ask_disk(self, word, rest),
            _ if word.parse::<u16>().is_ok() => {
                let line = format!(in self.alloc; "{word} {rest}")?;
                self.reply(&line)
            }
            _ => call(self.alloc, self.store()?, word, rest),
        }
    }
}

impl Answers for Case<'_> {
    fn begin(&mut self) {
        self.plain = Plain::new(self.alloc);
        self.named = named_disk(self.alloc, 0);
        self.store = None;
        self.kept.clear();
        self.remembered.clear();
        self.last.clear();
    }

    fn give(&mut self, part: &str, word: &str, rest: &str) -> Result<(), NoAnswer> {
        match word {
            "call" | "at" | "bytes" | "later" | "row" => {
                self.lines.push(read_line(self.alloc, part, word, rest)?)?;
                Ok(())
            }
            _ => self.releases.give(part, word, rest),
        }
    }

    fn answer(&mut self, word: &str, rest: &str) -> Answer {
        match word {
            "crashes" => crashes(self, rest),
            "fails" => fails(self, rest),
            "before-end" => before_end(self, rest),
            "run" | "way" | "noted-way" => run(self, word, rest),
            "named" => ask_named(self.alloc, &mut self.named, rest),
            "unwritten" => run_unwritten(self.rt, rest),
            "refusals" => all_refusals(self.alloc),
            "remember" => remember(self, rest),
            "known" => known(self, rest),
            "sample" => spell_sample(self.alloc, rest),
            "fresh" => self.plain.fresh(self.releases.find(rest)?),
            "order" => self.plain.order(self.releases.find(rest)?),
            "lookups" => look_up(self.alloc, "none", self.releases.find(rest)?),
            "lost" => {
                let (fault, rest) = first_word(rest)?;
                look_up(self.alloc, fault, self.releases.find(rest)?)
            }
            "disk" | "put" | "store" | "create" | "cut" | "with" | "byte" => {
                ask_kept(self, word, rest)
            }
            _ if word.starts_with("copy") => try_copies(self, word, rest),
            _ => self.ask(word, rest),
        }
    }
}
