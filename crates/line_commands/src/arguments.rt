//! Parses the arguments of each command. Each function takes what follows its command's word, and
//! returns none if that isn't such a command.

ghost use Rattle.std.specs.Prelude.{Some, codes, option_map};
ghost use Rattle.line_commands.specs.Private.{IsReadAs, text_of_word};

use crate::columns::{any_number, limit};
use crate::command::Command;
use crate::names::release_name;
use crate::questions::question;
use crate::words::{Word, cut, first_word, question_word};

fn at(text: &[u8]) -> Option<Command<'_>>
    ensures { IsReadAs (codes "AT") (Some text.now) result }
{
    let (number, rest) = cut(text)?;
    let number = any_number(number)?;
    let (word, rest) = first_word(rest);
    let word = question_word(word)?;
    match question(word, rest) {
        Some(question) => Some(Command::At { number, question }),
        None => None,
    }
}

fn import(text: &[u8]) -> Option<Command<'_>>
    ensures { IsReadAs (codes "IMPORT") (Some text.now) result }
{
    match release_name(text) {
        Some(name) => Some(Command::Import { name }),
        None => None,
    }
}

fn check(text: &[u8]) -> Option<Command<'_>>
    ensures { IsReadAs (codes "CHECK") (Some text.now) result }
{
    match release_name(text) {
        Some(name) => Some(Command::Check { name }),
        None => None,
    }
}

fn pin(text: &[u8]) -> Option<Command<'_>>
    ensures { IsReadAs (codes "PIN") (Some text.now) result }
{
    match any_number(text) {
        Some(number) => Some(Command::Pin {
            number: Some(number),
        }),
        None => None,
    }
}

fn step(text: &[u8]) -> Option<Command<'_>>
    ensures { IsReadAs (codes "STEP") (Some text.now) result }
{
    match limit(text, 100_000) {
        Some(rows) => Some(Command::Step { rows }),
        None => None,
    }
}

/// The command with this word, and with the text after it.
pub(crate) fn command<'a>(word: Word, rest: Option<&'a [u8]>) -> Option<Command<'a>>
    ensures { IsReadAs (text_of_word word) (option_map (λ text. text.now) rest.entry) result }
{
    if let Word::Question(word) = word {
        return match question(word, rest) {
            Some(question) => Some(Command::Ask(question)),
            None => None,
        };
    }
    match rest {
        Some(text) => match word {
            Word::At => at(text),
            Word::Import => import(text),
            Word::Check => check(text),
            Word::Pin => pin(text),
            Word::Step => step(text),
            _ => None,
        },
        None => match word {
            Word::Pin => Some(Command::Pin { number: None }),
            Word::Unpin => Some(Command::Unpin),
            Word::Merge => Some(Command::Merge),
            Word::Publish => Some(Command::Publish),
            Word::Abandon => Some(Command::Abandon),
            Word::Trim => Some(Command::Trim),
            Word::Status => Some(Command::Status),
            _ => None,
        },
    }
}
