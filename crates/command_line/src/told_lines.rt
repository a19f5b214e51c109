//! A text that is read line by line, and whose lines are shown as they are read.

ghost use Rattle.std.specs.Prelude.{◌≤◌};

use std::io::{self, Read, Write};

/// The rest of a text, and where its lines are shown.
#[derive(Drop)]
pub(crate) struct ToldLines<'a, E: Write> {
    pub rest: &'a [u8],
    pub told: &'a mut E,
}

impl<E: Write> Read for ToldLines<'_, E> {
    ghost use Rattle.std.specs.Prelude.{Some};

    ghost remaining = { λ s. Some s.rest.now };

    fn read(&mut self, buf: &mut [u8]) -> io::Result<usize> {
        let most = first_line_length(self.rest).min(buf.len());
        let count = self.rest.read(&mut buf[..most])?;
        let _ = tell_line(&buf[..count], self.told);
        Ok(count)
    }
}

/// The length of the first line of a text with its end, in bytes; 1 if the text is empty.
fn first_line_length(text: &[u8]) -> usize
    ensures { 1 ≤ result }
{
    match text.iter().position(|byte| *byte == b'\n') {
        Some(end) => end.saturating_add(1),
        None => text.len().max(1),
    }
}

/// Shows a line, or a part of one, after a prompt.
fn tell_line<E: Write>(line: &[u8], told: &mut E) -> io::Result<()> {
    if line.is_empty() {
        return Ok(());
    }
    told.write_all(b"> ")?;
    told.write_all(line)
}
