//! The digest of a store.

ghost use Rattle.std.specs.Prelude.{Some};
ghost use Rattle.line_commands.specs.Requests.{Asks, command_of};
ghost use Rattle.line_server.specs.Sources.{no_releases};
ghost use Rattle.command_line.specs.Endings.{report};
ghost use Rattle.command_line.specs.Tasks.{IsLineTold, digest_line};

use crate::answering::answer_read;
use crate::endings::Ending;
use disk_model::Disk;
use history_store::{Refusal, Store};
use import_check::{Release, Scope};
use line_commands::{Command, Request};
use line_server::{ServeFault, Source, SourceFault};
use question_model::Question;
use std::alloc::Global;
use std::io::Write;

/// The command that asks for the digest of the first imports.
fn digest_at(number: u32) -> Command<'static>
    ensures { Asks (digest_line (Some number)) 0 (command_of result) }
{
    Command::At {
        number,
        question: Question::Digest,
    }
}

/// The command that asks for the digest of the first imports, or of all.
fn digest_command(imports: Option<u32>) -> Command<'static>
    ensures { Asks (digest_line imports) 0 (command_of result) }
{
    match imports {
        Some(number) => digest_at(number),
        None => Command::Ask(Question::Digest),
    }
}

/// A source without releases.
#[derive(Clone, Copy)]
struct NoReleases;

impl Source for NoReleases {
    ghost use Rattle.std.specs.Prelude.{⊤, None};

    ghost is_honest = { λ _. ⊤ };

    ghost releases = { λ _ _ _. None };

    fn release(
        &mut self,
        _alloc: Global,
        _name: &str,
        _scope: Scope,
    ) -> Result<Release, SourceFault> {
        Err(SourceFault::NoFolder)
    }

    fn note_refusal(&mut self, _alloc: Global, _name: &str, _scope: Scope, _refusal: Refusal) {}
}

/// Writes the digest of an open store.
pub(crate) fn digest<D: Disk + Drop, O: Write>(
    alloc: Global,
    imports: Option<u32>,
    store: &mut Store<D>,
    output: &mut O,
) -> Result<Ending, ServeFault>
    ensures { IsLineTold no_releases D.view (digest_line imports) store.old store.new.disk
        (report result (O.contents output.old) (O.contents output.new)) }
{
    let request = Request {
        session: 0,
        command: digest_command(imports),
    };
    answer_read(alloc, &Ok(request), &mut NoReleases, store, output)
}
