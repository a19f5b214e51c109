//! Parses lines as requests, or says why they are none.

ghost use Rattle.std.specs.Prelude.{◌≡◌, ◌+◌, ◌≤◌, length};
ghost use Rattle.line_commands.specs.Requests.{IsReading, request_limit, import_line, check_line};
ghost use Rattle.line_commands.specs.Private.{named_line, text_of_word};

use crate::command::{REQUEST_LIMIT, Request};
use crate::unread::Unread;
use crate::words::{Word, command_word, first_word};
use crate::{arguments, columns};

/// The request that the line spells, or the first reason why it spells none. The line is given
/// without its end; nothing else is removed.
pub fn parse(line: &[u8]) -> Result<Request<'_>, Unread>
    // promise: a_line_is_read_as_it_is_spelled
    ensures { IsReading line.now result }
{
    if line.len() > REQUEST_LIMIT {
        return Err(Unread::Long);
    }
    let (number, rest) = first_word(line);
    let Some(session) = columns::session_number(number) else {
        return Err(Unread::Session);
    };
    let Some(rest) = rest else {
        return Err(Unread::Command);
    };
    let (word, rest) = first_word(rest);
    let Some(word) = command_word(word) else {
        return Err(Unread::Command);
    };
    match arguments::command(word, rest) {
        Some(command) => Ok(Request { session, command }),
        None => Err(Unread::Arguments),
    }
}

/// The request in session 0 of a line with a command's word and the name of a release. `before` is
/// the number of bytes before the name.
fn named_request<'a>(word: Word, before: usize, name: &'a str) -> Result<Request<'a>, Unread>
    requires before { before ≡ 3 + length (text_of_word word) }
    requires short { before ≤ request_limit }
    ensures { IsReading (named_line (text_of_word word) name.now) result }
{
    if name.len() > REQUEST_LIMIT - before {
        return Err(Unread::Long);
    }
    match arguments::command(word, Some(name.as_bytes())) {
        Some(command) => Ok(Request {
            session: 0,
            command,
        }),
        None => Err(Unread::Arguments),
    }
}

/// The request in session 0 of the line that imports the release of this name.
pub fn import_request(name: &str) -> Result<Request<'_>, Unread>
    // promise: a_line_is_read_as_it_is_spelled
    ensures { IsReading (import_line name.now) result }
{
    named_request(Word::Import, "0 IMPORT ".len(), name)
}

/// The request in session 0 of the line that checks the release of this name.
pub fn check_request(name: &str) -> Result<Request<'_>, Unread>
    // promise: a_line_is_read_as_it_is_spelled
    ensures { IsReading (check_line name.now) result }
{
    named_request(Word::Check, "0 CHECK ".len(), name)
}
