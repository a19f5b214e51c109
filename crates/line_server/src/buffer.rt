//! The buffer for the current line of the input.

ghost use Rattle.std.specs.Prelude.{◌≡◌, ◌++◌, [], ◌∷◌, IfOk};
ghost use Rattle.bstr.specs.Text.{no_cr};
ghost use Rattle.line_server.specs.Steps.{kept};

use line_commands::REQUEST_LIMIT;
use std::alloc::{AllocError, Global};
use std::marker::Model;

/// How many bytes of a line are kept: enough to distinguish the longest line, with a CR at its end,
/// from a longer one.
const ROOM: usize = REQUEST_LIMIT + 2;

/// The first bytes of the current line of the input.
#[derive(Drop)]
pub struct LineBuffer {
    bytes: Vec<u8>,
}

impl Model for LineBuffer {
    ghost use Rattle.std.specs.Prelude.{ℕ, List, ◌≤◌, length, vec_capacity};
    ghost use Rattle.line_server.specs.Steps.{room};

    ghost Value = { List ℕ };

    ghost view = { λ b. b.bytes.items };

    ghost invariant = { λ b. (room ≤ vec_capacity b.bytes) × (length b.bytes.items ≤ room) };
}

impl LineBuffer {
    /// An empty line. Allocates all its memory.
    pub fn new(alloc: Global) -> Result<LineBuffer, AllocError>
        ensures { IfOk result (λ line. line ≡ []) }
    {
        let bytes = Vec::with_capacity(alloc, ROOM)?;
        Ok(LineBuffer { bytes })
    }

    /// Appends the next byte of the line; a byte beyond the capacity is dropped.
    pub(crate) fn push(&mut self, byte: u8)
        ensures { self.new ≡ kept (self.old ++ byte ∷ []) }
    {
        if self.bytes.len() < ROOM {
            let Ok(()) = self.bytes.push(byte) else {
                unreachable!()
            };
        }
    }

    /// The first bytes of the line: enough of them to distinguish the longest line, with a CR at
    /// its end, from a longer one.
    pub fn as_bytes(&self) -> &[u8]
        ensures { result.now ≡ self.now }
    {
        &self.bytes
    }

    /// The line once an LF has ended it: without the CR that may be before the LF.
    pub(crate) fn ended(&self) -> &[u8]
        ensures { result.now ≡ no_cr self.now }
    {
        match self.bytes.as_slice() {
            [front @ .., b'\r'] => front,
            whole => whole,
        }
    }

    pub(crate) fn clear(&mut self)
        ensures { self.new ≡ [] }
    {
        self.bytes.clear();
    }
}
