//! Writes bytes to the output.

ghost use Rattle.line_server.specs.Streams.{IsPut};

use std::io::Write;
use thiserror::Error;

/// The writer failed, or accepted no byte.
#[derive(Clone, Copy, Debug, PartialEq, Eq, Error)]
#[error("the output can't be written")]
pub struct WriteFault;

/// Writes all the bytes, or fails. A write that accepts no byte is a fault.
pub(crate) fn put_all<W: Write>(writer: &mut W, bytes: &[u8]) -> Result<(), WriteFault>
    ensures { IsPut result (W.contents writer.old) (W.contents writer.new) bytes.now }
{
    let mut done = 0;
    while done < bytes.len() {
        match writer.write(&bytes[done..]) {
            Ok(0) => return Err(WriteFault),
            Ok(n) => done += n,
            Err(_) => return Err(WriteFault),
        }
    }
    Ok(())
}
