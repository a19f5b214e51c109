//! The terms of rows, in the order in which rows are pushed.

ghost use Rattle.std.specs.Prelude.{◌≡◌, ◌++◌, [], List, length, take, OnOk, OnErr, IfOk};
ghost use Rattle.std.specs.Prelude.{IsAscii};
ghost use Rattle.std.specs.List.Sorted.{IsPermutation};
ghost use Rattle.std.specs.Str.{IsUtf8};
ghost use Rattle.history_model.specs.Queries.{folded};
ghost use Rattle.term_prefix.specs.Terms.{TextsRise};
ghost use Rattle.term_prefix.specs.Pushed.{posted_term};
ghost use Rattle.term_prefix.specs.Laid.{terms_at, AreLaid, HaveHeads};
ghost use Rattle.term_prefix.specs.Private.{AddsTerm, IsCut};

use crate::folding::{extend_by_lower_case, folded};
use crate::sealed::Sealed;
use crate::sorting::sort;
use crate::text::{Term, head_of};
use history_model::StampedRow;
use rf2_values::Body;
use std::alloc::{AllocError, Global};
use std::marker::Model;

/// The terms of rows, in the order in which they were pushed. Their foldings are stored in one
/// text.
#[derive(Drop)]
pub struct Postings {
    text: Vec<u8>,
    terms: Vec<Term>,
    alloc: Global,
}

impl Model for Postings {
    ghost use Rattle.std.specs.Prelude.{List, length};
    ghost use Rattle.term_prefix.specs.Terms.{TermAt};
    ghost use Rattle.term_prefix.specs.Laid.{terms_at, AreLaid, HaveHeads};

    ghost Value = { List TermAt };

    ghost view = { λ a. terms_at a.text.items a.terms.items };

    ghost invariant = { λ a. AreLaid 0 a.terms.items (length a.text.items)
        × HaveHeads a.text.items a.terms.items };
}

/// Adds the folding of a term that is in ASCII. Fails if the term has 4 GiB or more. An `Err`
/// changes nothing.
fn push_ascii(
    text: &mut Vec<u8>,
    terms: &mut Vec<Term>,
    term: &[u8],
    row: u32,
) -> Result<(), AllocError>
    requires { IsAscii term.now }
    ensures ok { OnOk result (AddsTerm text.old.items terms.old.items (folded term.now) row
        text.new.items terms.new.items) }
    ensures err { OnErr result
        ((text.new.items ≡ text.old.items) × (terms.new.items ≡ terms.old.items)) }
{
    let Ok(len) = u32::try_from(term.len()) else {
        return Err(AllocError);
    };
    terms.reserve(1)?;
    let start = text.len();
    extend_by_lower_case(text, term)?;
    let head = head_of(&text[start..]);
    let Ok(()) = terms.push(Term {
        head,
        start,
        len,
        row,
    }) else {
        unreachable!()
    };
    Ok(())
}

/// Adds a folded term. Fails if the term has 4 GiB or more. An `Err` changes nothing.
pub(crate) fn push_term(
    text: &mut Vec<u8>,
    terms: &mut Vec<Term>,
    folded: &[u8],
    row: u32,
) -> Result<(), AllocError>
    ensures ok { OnOk result
        (AddsTerm text.old.items terms.old.items folded.now row text.new.items terms.new.items) }
    ensures err { OnErr result
        ((text.new.items ≡ text.old.items) × (terms.new.items ≡ terms.old.items)) }
{
    let Ok(len) = u32::try_from(folded.len()) else {
        return Err(AllocError);
    };
    terms.reserve(1)?;
    let start = text.len();
    text.extend_from_slice(folded)?;
    let head = head_of(folded);
    let Ok(()) = terms.push(Term {
        head,
        start,
        len,
        row,
    }) else {
        unreachable!()
    };
    Ok(())
}

/// Adds the folding of a term. Fails if it has 4 GiB or more. An `Err` changes nothing.
fn push_folded(
    alloc: Global,
    text: &mut Vec<u8>,
    terms: &mut Vec<Term>,
    term: &[u8],
    row: u32,
) -> Result<(), AllocError>
    requires { IsUtf8 term.now }
    ensures ok { OnOk result (AddsTerm text.old.items terms.old.items (folded term.now) row
        text.new.items terms.new.items) }
    ensures err { OnErr result
        ((text.new.items ≡ text.old.items) × (terms.new.items ≡ terms.old.items)) }
{
    if term.is_ascii() {
        return push_ascii(text, terms, term, row);
    }
    let folded = folded(alloc, term)?;
    push_term(text, terms, folded.as_slice(), row)
}

/// Keeps the first `len` terms and their text.
fn cut(text: &mut Vec<u8>, terms: &mut Vec<Term>, len: usize)
    ensures { AreLaid 0 terms.old.items (length text.old.items)
        → IsCut text.old.items terms.old.items len text.new.items terms.new.items }
{
    if len < terms.len() {
        let end = terms[len].start;
        terms.truncate(len);
        text.truncate(end);
    }
}

impl Postings {
    /// No terms. Allocates nothing.
    pub fn new(alloc: Global) -> Postings
        ensures { result ≡ [] }
    {
        Postings {
            text: Vec::new(alloc),
            terms: Vec::new(alloc),
            alloc,
        }
    }

    /// Adds the row's term, with the row's number in its list, if the row is an active description.
    pub fn push(&mut self, row: &StampedRow, number: u32) -> Result<(), AllocError>
        // promise: the_index_has_every_row
        ensures ok { OnOk result (self.new ≡ self.old ++ posted_term row.now.row number) }
        // promise: the_index_has_every_row
        ensures err { OnErr result (self.new ≡ self.old) }
    {
        match &row.row.body {
            Body::Description(description) if row.row.active => {
                let term = description.term.as_bytes();
                push_folded(self.alloc, &mut self.text, &mut self.terms, term, number)
            }
            _ => Ok(()),
        }
    }

    /// How many terms there are.
    pub fn len(&self) -> usize
        ensures { result ≡ length self.now }
    {
        self.terms.len()
    }

    /// Keeps the first `len` terms, which are those from when `len` returned that number.
    pub fn cut_to(&mut self, len: usize)
        ensures { self.new ≡ take len self.old }
    {
        cut(&mut self.text, &mut self.terms, len);
    }

    /// The terms in the order of their foldings. Allocates nothing.
    pub fn seal(self) -> Sealed
        ensures permutation { IsPermutation self result }
        ensures rising { TextsRise result }
    {
        let Postings {
            text,
            mut terms,
            ..
        } = self;
        sort(text.as_slice(), &mut terms);
        Sealed { text, terms }
    }
}
