//! The input, read in pieces.

ghost use Rattle.std.specs.Prelude.{ℕ, List, [], ◌∷◌, Option, None};
ghost use Rattle.std.specs.Io.{ReadsAtMost};
ghost use Rattle.std.specs.Io.KnownBytes.{ReadConsumes};
ghost use Rattle.line_server.specs.Reads.{Reading, Makes, reading};

use std::io::{self, Read};

/// An input that is read in pieces, by a single call. A record of what each read returned is kept
/// as a ghost: clauses can speak of it, but code can neither look at it nor change it.
pub trait PieceReader {
    /// The bytes that later reads will return, if they are known.
    ghost remaining: { Self → Option (List ℕ) };

    /// What each read returned so far, in order, if that is known.
    ghost reads: { Self → Option (List Reading) };

    /// Reads once: fills the front of `piece` with the next bytes of the input and returns their
    /// number. No bytes mean the end of the input, unless `piece` is empty.
    fn read(&mut self, piece: &mut [u8]) -> io::Result<usize>
        ensures bound { ReadsAtMost result piece.new }
        ensures bytes { ReadConsumes (remaining self.old) (remaining self.new) result piece.new }
        // promise: replies_come_in_the_order_of_lines
        ensures made { Makes (reads self.old) (reads self.new) (reading result piece.new ∷ []) };
}

/// Any reader of the standard library. Its bytes are known, but not what each read returned.
impl<R: Read> PieceReader for R {
    ghost remaining = { λ reader. R.remaining reader };

    ghost reads = { λ _. None };

    fn read(&mut self, piece: &mut [u8]) -> io::Result<usize> {
        Read::read(self, piece)
    }
}
