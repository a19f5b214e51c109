//! The reply to a line.

ghost use Rattle.std.specs.Prelude.{◌≡◌, ◌≤◌, ◌<◌, ◌++◌, ◌∷◌, [], length, IfSome};
ghost use Rattle.arrayvec.specs.ArrayString.{array_string_len};
ghost use Rattle.line_server.specs.ReplyValue.{bytes_of};
ghost use Rattle.line_server.specs.Streams.{IsPut};

use crate::outgoing::{WriteFault, put_all};
use arrayvec::{ArrayString, ArrayVec};
use std::io::Write;
use std::marker::Model;

/// A reply of up to this many bytes is written in one piece.
const SHORT: usize = 1024;

/// The lines of a reply, each with its LF: those of rows, identifiers or dates, and a last one,
/// which needs no heap memory.
#[derive(Drop)]
pub struct Reply {
    body: Vec<u8>,
    last: ArrayString<128>,
}

impl Model for Reply {
    ghost use Rattle.line_server.specs.ReplyValue.{ReplyValue};

    ghost Value = { ReplyValue };

    ghost view = { λ r. record { body = r.body.items; last = r.last.bytes } };
}

impl Reply {
    /// The reply of these lines and a last one, to which its LF is added.
    pub(crate) fn of_lines(body: Vec<u8>, text: ArrayString<128>) -> Reply
        requires { array_string_len text < 128 }
        ensures { result ≡ record { body = body.items; last = text.bytes ++ 10 ∷ [] } }
    {
        let mut last = text;
        last.push_str("\n");
        Reply { body, last }
    }

    /// The lines before the last one. A refusal has none.
    pub fn body(&self) -> &[u8]
        ensures { result.now ≡ self.now.body }
    {
        &self.body
    }

    /// The last line.
    pub fn last(&self) -> &[u8]
        ensures value { result.now ≡ self.now.last }
        // promise: a_refusal_names_its_cause, each_line_gets_one_reply
        ensures short { length result.now ≤ 128 }
    {
        self.last.as_str().as_bytes()
    }

    /// The whole reply, if it is short.
    fn short(&self) -> Option<ArrayVec<u8, SHORT>>
        ensures { IfSome result (λ bytes. bytes.items ≡ bytes_of self.now) }
    {
        let mut bytes = ArrayVec::new();
        bytes.try_extend_from_slice(self.body()).ok()?;
        bytes.try_extend_from_slice(self.last()).ok()?;
        Some(bytes)
    }

    /// Writes the reply, in as many writes as the writer needs: a short reply in one, if the writer
    /// accepts it whole. A write that accepts no byte is a fault.
    pub fn write_to<W: Write>(&self, writer: &mut W) -> Result<(), WriteFault>
        ensures { IsPut result (W.contents writer.old) (W.contents writer.new)
            (bytes_of self.now) }
    {
        if let Some(bytes) = self.short() {
            return put_all(writer, bytes.as_slice());
        }
        put_all(writer, self.body())?;
        put_all(writer, self.last())
    }
}
