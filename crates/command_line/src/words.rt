//! Parses the command line.

ghost use Rattle.std.specs.Prelude.{◌≡◌, ◌↔◌, true, IfOk, IfErr, IfSome, Some, map};
ghost use Rattle.std.specs.Prelude.{codes, string_bytes};
ghost use Rattle.clap.specs.Matches.{found_of};
ghost use Rattle.clap.specs.Simple.{new_app, subcommand_rows_of};
ghost use Rattle.clap.specs.Walk.{rows_of};
ghost use Rattle.command_line.specs.Words.{IsAction, IsWork, IsNumber, Reads};
ghost use Rattle.command_line.specs.Words.{AskFor, AskForNone, IsGivenFlag, IsLayout};
ghost use Rattle.command_line.specs.Private.{IsArgument, IsCommand};
ghost use Rattle.command_line.specs.Words.{wanted, option, optional, flag, segments_option};
ghost use Rattle.command_line.specs.Words.{init_command, import_command, serve_command};
ghost use Rattle.command_line.specs.Words.{status_command, merge_command, demo_command};
ghost use Rattle.command_line.specs.Words.{layout_option, copy_layout_option};
ghost use Rattle.command_line.specs.Words.{TakesWords, without_option};
ghost use Rattle.clap.specs.Walk.{first_of};
ghost use Rattle.clap.specs.declared.builder.value_parser.ValueParser.{ValueParser};
ghost use Rattle.segment_index.specs.declared.words.Words.TheVariants as kept;
ghost use Rattle.command_line.specs.Words.{copy_command, digest_command, imports_option};
ghost use Rattle.command_line.specs.Words.{verify_command, list_option, prepare_command};
ghost use Rattle.command_line.specs.Words.{empty_program, program};

use crate::helps;
use crate::paths::folder_and_name;
use clap::builder::ValueParser;
use clap::error::ErrorKind;
use clap::{Arg, ArgAction, ArgMatches, Command, Error};
use directory::Layout;
use history_store::Words;
use std::alloc::{AllocError, Global};

/// The version of the program, and the layouts of stores that it opens.
const VERSION: &str = "1.0.0, opens layouts 1, 2 and 3";

/// A task of the program.
#[derive(Clone, Copy, Debug, PartialEq, Eq)]
pub enum Task<'a> {
    /// Do this with the file of a store.
    At {
        store: &'a str,
        action: Action<'a>,
    },
    /// Make a store of layout 3 in the file `to`, and import the release in the folder `name` below
    /// `releases` into it. If `quiet`, only print messages about what may be wrong.
    Prepare {
        to: &'a str,
        releases: &'a str,
        name: &'a str,
        quiet: bool,
    },
    /// Answer the lines of a script, with a store in memory.
    Demo,
}

/// What is done with the file of a store.
#[derive(Clone, Copy, Debug, PartialEq, Eq)]
pub enum Action<'a> {
    /// Make a store of this layout in it.
    Init {
        layout: Layout,
    },
    /// Copy the first imports of the store, or all if no number is given, to a new file, in this
    /// layout, or in the store's if none is given.
    Copy {
        to: &'a str,
        imports: Option<u32>,
        layout: Option<Layout>,
    },
    /// Open the store, and do this work.
    Use(Work<'a>),
}

/// What is done with an open store.
#[derive(Clone, Copy, Debug, PartialEq, Eq)]
pub enum Work<'a> {
    /// Import the release in the folder `name` below `releases`. If `quiet`, only print messages
    /// about what may be wrong.
    Import {
        releases: &'a str,
        name: &'a str,
        quiet: bool,
    },
    /// Say what an import of the release in the folder `name` below `releases` would reply. If
    /// `quiet`, only print messages about what may be wrong.
    Check {
        releases: &'a str,
        name: &'a str,
        quiet: bool,
    },
    /// Answer the lines of the input. Releases are folders below `releases`. If `read_only`, no line
    /// changes the store, and other programs may read its file meanwhile. `words` says whether the
    /// words of terms are kept, by which descriptions are found.
    Serve {
        releases: &'a str,
        read_only: bool,
        words: Words,
    },
    /// Write the numbers of imports, rows and segments.
    Status,
    /// Merge segments until there are at most this many.
    Merge {
        segments: u32,
    },
    /// Write the digest of the rows that the first imports brought, or all if no number is given.
    Digest {
        imports: Option<u32>,
    },
    /// Compare the store with the Snapshot in the folder `name` below `releases`, at its day. Of
    /// each sort of difference at most `list` are told.
    Verify {
        releases: &'a str,
        name: &'a str,
        list: u32,
    },
}

/// Why there is no task.
#[derive(Drop)]
pub enum Refused {
    OutOfMemory,
    /// The words are no command, or ask for help.
    Words(Error),
}

impl From<AllocError> for Refused {
    fn from(_: AllocError) -> Refused {
        Refused::OutOfMemory
    }
}

/// The task that the words ask for. The first word is the program's name.
pub fn task_of<'a>(alloc: Global, words: &'a [String]) -> Result<Task<'a>, Refused>
    ensures task { IfOk result (AskFor (map string_bytes words.now)) }
    ensures refused { IfErr result (AskForNone (map string_bytes words.now)) }
{
    let Ok(commands) = commands(alloc) else {
        return Err(Refused::OutOfMemory);
    };
    match commands.try_get_matches_from(words) {
        Ok(matches) => match task_in(&matches) {
            Some(task) => Ok(task),
            None => Err(Refused::OutOfMemory),
        },
        Err(error) => {
            if error.kind() == ErrorKind::OutOfMemory {
                Err(Refused::OutOfMemory)
            } else {
                Err(Refused::Words(error))
            }
        }
    }
}

/// The option that names the file of a store.
fn store<'a>(alloc: Global) -> Arg<'a>
    ensures { IsArgument (option (codes "store")) result }
{
    Arg::new(alloc, "store")
        .long("store")
        .value_name("FILE")
        .help("The file that holds the store")
        .required(true)
        .action(ArgAction::Set)
}

/// The option for the folder of releases.
fn releases<'a>(alloc: Global) -> Arg<'a>
    ensures { IsArgument (option (codes "releases")) result }
{
    Arg::new(alloc, "releases")
        .long("releases")
        .value_name("DIR")
        .help("The folder that holds a folder for each unpacked release")
        .required(true)
        .action(ArgAction::Set)
}

/// The option for the folder of releases, in a command that accepts a release's path instead of its
/// name.
fn releases_if_given<'a>(alloc: Global) -> Arg<'a>
    ensures { IsArgument (optional (codes "releases")) result }
{
    Arg::new(alloc, "releases")
        .long("releases")
        .value_name("DIR")
        .help("The folder that holds the release's folder, if NAME isn't its path")
        .action(ArgAction::Set)
}

/// The option to check a release without importing it.
fn check<'a>(alloc: Global) -> Arg<'a>
    ensures { IsArgument (flag (codes "check")) result }
{
    Arg::new(alloc, "check")
        .long("check")
        .help("Tells what the import would answer, and leaves the store as it is")
        .action(ArgAction::SetTrue)
}

/// The option to print only warnings and refusals for people.
fn quiet<'a>(alloc: Global) -> Arg<'a>
    ensures { IsArgument (flag (codes "quiet")) result }
{
    Arg::new(alloc, "quiet")
        .long("quiet")
        .help("Prints only warnings and refusals on standard error")
        .action(ArgAction::SetTrue)
}

/// The option to serve lines without changing the store.
fn read_only<'a>(alloc: Global) -> Arg<'a>
    ensures { IsArgument (flag (codes "read-only")) result }
{
    Arg::new(alloc, "read-only")
        .long("read-only")
        .help("Has no line that changes the store, and lets others read it meanwhile")
        .action(ArgAction::SetTrue)
}

/// The option to serve lines without what takes time to open and memory.
fn without<'a>(alloc: Global) -> Arg<'a>
    ensures { (parser : ValueParser) × TakesWords parser
        × IsArgument (without_option parser) result }
{
    Arg::new(alloc, "without")
        .long("without")
        .value_name("WHAT")
        .help("Opens in less time and memory, and refuses WORDS")
        .value_parser(ValueParser::Names(&["words"]))
        .action(ArgAction::Set)
}

/// The argument for a release: its name or its path.
fn name<'a>(alloc: Global) -> Arg<'a>
    ensures { IsArgument (wanted (codes "name")) result }
{
    Arg::new(alloc, "name")
        .value_name("NAME")
        .help("The release's folder: its name below DIR, or its path")
        .required(true)
        .action(ArgAction::Set)
}

/// The option for how many segments may be left.
fn segments<'a>(alloc: Global) -> Arg<'a>
    ensures { IsArgument segments_option result }
{
    Arg::new(alloc, "segments")
        .long("segments")
        .value_name("N")
        .help("How many segments may stay, 1 to 250")
        .value_parser(ValueParser::Unsigned(1, 250))
        .default_value("1")
        .action(ArgAction::Set)
}

/// The option for how many differences of a sort are told.
fn list<'a>(alloc: Global) -> Arg<'a>
    ensures { IsArgument list_option result }
{
    Arg::new(alloc, "list")
        .long("list")
        .value_name("N")
        .help("How many components of each sort of difference are told")
        .value_parser(ValueParser::Unsigned(0, 1_000_000))
        .default_value("10")
        .action(ArgAction::Set)
}

/// The option for the file of a copy.
fn to<'a>(alloc: Global) -> Arg<'a>
    ensures { IsArgument (option (codes "to")) result }
{
    Arg::new(alloc, "to")
        .long("to")
        .value_name("NEW")
        .help("The file that is made for the copy, which mustn't be there")
        .required(true)
        .action(ArgAction::Set)
}

/// The option for the file of a store that is prepared.
fn prepared<'a>(alloc: Global) -> Arg<'a>
    ensures { IsArgument (option (codes "to")) result }
{
    Arg::new(alloc, "to")
        .long("to")
        .value_name("FILE")
        .help("The new or empty file in which the store is made")
        .required(true)
        .action(ArgAction::Set)
}

/// The option for the number of imports.
fn imports<'a>(alloc: Global) -> Arg<'a>
    ensures { IsArgument imports_option result }
{
    Arg::new(alloc, "imports")
        .long("imports")
        .value_name("N")
        .help("How many imports count, from the first on; all if it isn't given")
        .value_parser(ValueParser::Unsigned(0, 4_294_967_295))
        .action(ArgAction::Set)
}

/// The option for the layout of a new store.
fn layout<'a>(alloc: Global) -> Arg<'a>
    ensures { IsArgument layout_option result }
{
    Arg::new(alloc, "layout")
        .long("layout")
        .value_name("N")
        .help("The store's layout: 3, or 2 without checksums, text definitions and members")
        .value_parser(ValueParser::Unsigned(2, 3))
        .default_value("3")
        .action(ArgAction::Set)
}

/// The option for the layout of a copy.
fn copy_layout<'a>(alloc: Global) -> Arg<'a>
    ensures { IsArgument copy_layout_option result }
{
    Arg::new(alloc, "layout")
        .long("layout")
        .value_name("N")
        .help("The copy's layout, 2 or 3, not below the store's; the store's if it isn't given")
        .value_parser(ValueParser::Unsigned(2, 3))
        .action(ArgAction::Set)
}

/// A command without arguments, with the beginning and the end of its help.
fn new_command<'a>(alloc: Global, name: &'a str, about: &'a str, examples: &'a str) -> Command<'a>
    ensures { IsCommand (new_app name.now) result }
{
    Command::new(alloc, name).about(about).after_help(examples)
}

fn init<'a>(alloc: Global) -> Result<Command<'a>, AllocError>
    ensures { IfOk result (IsCommand init_command) }
{
    let about = "Makes a store in a new or empty file";
    new_command(alloc, "init", about, helps::INIT)
        .arg(store(alloc))?
        .arg(layout(alloc))
}

fn import<'a>(alloc: Global) -> Result<Command<'a>, AllocError>
    ensures { IfOk result (IsCommand import_command) }
{
    let about = "Imports the Full and Delta files of an unpacked RF2 release";
    new_command(alloc, "import", about, helps::IMPORT)
        .arg(store(alloc))?
        .arg(releases_if_given(alloc))?
        .arg(check(alloc))?
        .arg(quiet(alloc))?
        .arg(name(alloc))
}

fn serve<'a>(alloc: Global) -> Result<Command<'a>, AllocError>
    ensures { IfOk result (λ command. (parser : ValueParser) × TakesWords parser
        × IsCommand (serve_command parser) command) }
{
    let about = "Answers the lines of standard input on standard output";
    new_command(alloc, "serve", about, helps::SERVE)
        .arg(store(alloc))?
        .arg(releases(alloc))?
        .arg(read_only(alloc))?
        .arg(without(alloc))
}

fn status<'a>(alloc: Global) -> Result<Command<'a>, AllocError>
    ensures { IfOk result (IsCommand status_command) }
{
    let about = "Opens a store, which checks it, and tells its imports, rows and segments";
    new_command(alloc, "status", about, helps::STATUS).arg(store(alloc))
}

fn merge<'a>(alloc: Global) -> Result<Command<'a>, AllocError>
    ensures { IfOk result (IsCommand merge_command) }
{
    let about =
        "Merges the smallest segments until at most N stand, and gives back what is behind them";
    new_command(alloc, "merge", about, helps::MERGE)
        .arg(store(alloc))?
        .arg(segments(alloc))
}

fn copy<'a>(alloc: Global) -> Result<Command<'a>, AllocError>
    ensures { IfOk result (IsCommand copy_command) }
{
    let about = "Copies a store into a new file, which checks it, with all imports or the first N";
    new_command(alloc, "copy", about, helps::COPY)
        .arg(store(alloc))?
        .arg(to(alloc))?
        .arg(imports(alloc))?
        .arg(copy_layout(alloc))
}

fn digest<'a>(alloc: Global) -> Result<Command<'a>, AllocError>
    ensures { IfOk result (IsCommand digest_command) }
{
    let about = "Tells the SHA-256 of all rows, or of those that the first N imports brought";
    new_command(alloc, "digest", about, helps::DIGEST)
        .arg(store(alloc))?
        .arg(imports(alloc))
}

fn verify<'a>(alloc: Global) -> Result<Command<'a>, AllocError>
    ensures { IfOk result (IsCommand verify_command) }
{
    let about = "Compares a store with the Snapshot files of an unpacked RF2 package, at its day";
    new_command(alloc, "verify", about, helps::VERIFY)
        .arg(store(alloc))?
        .arg(releases_if_given(alloc))?
        .arg(list(alloc))?
        .arg(name(alloc))
}

fn prepare<'a>(alloc: Global) -> Result<Command<'a>, AllocError>
    ensures { IfOk result (IsCommand prepare_command) }
{
    let about = "Makes a store of one release, in a new or empty file";
    new_command(alloc, "prepare", about, helps::PREPARE)
        .arg(prepared(alloc))?
        .arg(releases_if_given(alloc))?
        .arg(quiet(alloc))?
        .arg(name(alloc))
}

fn demo<'a>(alloc: Global) -> Command<'a>
    ensures { IsCommand demo_command result }
{
    let about = "Answers a short script on a store in memory, with three small sample releases";
    new_command(alloc, "demo", about, helps::DEMO)
}

/// The program, without its commands.
fn sctd<'a>(alloc: Global) -> Command<'a>
    ensures { IsCommand empty_program result }
{
    Command::new(alloc, "sctd")
        .version(VERSION)
        .about(
            "Answers what each component of a SNOMED CT terminology looked like on any past date",
        )
        .after_help(helps::PROGRAM)
        .subcommand_required(true)
}

/// All commands, with their helps.
fn commands<'a>(alloc: Global) -> Result<Command<'a>, AllocError>
    ensures { IfOk result (λ command. (parser : ValueParser) × TakesWords parser
        × IsCommand (program parser) command) }
{
    sctd(alloc)
        .subcommand(init(alloc)?)?
        .subcommand(import(alloc)?)?
        .subcommand(serve(alloc)?)?
        .subcommand(status(alloc)?)?
        .subcommand(merge(alloc)?)?
        .subcommand(copy(alloc)?)?
        .subcommand(digest(alloc)?)?
        .subcommand(verify(alloc)?)?
        .subcommand(prepare(alloc)?)?
        .subcommand(demo(alloc))
}

/// The task of the command that was parsed.
fn task_in<'a>(matches: &ArgMatches<'a>) -> Option<Task<'a>>
    ensures { IfSome result (Reads (subcommand_rows_of matches.now)) }
{
    let (command, found) = matches.subcommand()?;
    if command == "demo" {
        return Some(Task::Demo);
    }
    if command == "prepare" {
        return prepare_of(found);
    }
    let store = found.get_str("store")?;
    let action = action_in(command, found)?;
    Some(Task::At { store, action })
}

/// What the command with this name does with the file of a store.
fn action_in<'a>(command: &str, found: &ArgMatches<'a>) -> Option<Action<'a>>
    ensures { IfSome result (IsAction command.now (rows_of (found_of found.now))) }
{
    match command {
        "init" => Some(Action::Init {
            layout: layout_of(found)??,
        }),
        "copy" => Some(Action::Copy {
            to: found.get_str("to")?,
            imports: number_of(found, "imports")?,
            layout: layout_of(found)?,
        }),
        _ => {
            let work = work_in(command, found)?;
            Some(Action::Use(work))
        }
    }
}

/// What the command with this name does with an open store.
fn work_in<'a>(command: &str, found: &ArgMatches<'a>) -> Option<Work<'a>>
    ensures { IfSome result (IsWork command.now (rows_of (found_of found.now))) }
{
    match command {
        "import" => import_of(found),
        "serve" => Some(Work::Serve {
            releases: found.get_str("releases")?,
            read_only: is_set(found, "read-only"),
            words: words_of(found),
        }),
        "status" => Some(Work::Status),
        "merge" => Some(Work::Merge {
            segments: number_of(found, "segments")??,
        }),
        "digest" => Some(Work::Digest {
            imports: number_of(found, "imports")?,
        }),
        "verify" => verify_of(found),
        _ => None,
    }
}

/// An import, or the check of a release. If no folder of releases is given, it is the one that
/// contains the release's folder.
fn import_of<'a>(found: &ArgMatches<'a>) -> Option<Work<'a>>
    ensures { IfSome result (IsWork (codes "import") (rows_of (found_of found.now))) }
{
    let (releases, name) = folder_and_name(found.get_str("releases"), found.get_str("name")?);
    let quiet = is_set(found, "quiet");
    if is_set(found, "check") {
        Some(Work::Check {
            releases,
            name,
            quiet,
        })
    } else {
        Some(Work::Import {
            releases,
            name,
            quiet,
        })
    }
}

/// A comparison with a Snapshot.
fn verify_of<'a>(found: &ArgMatches<'a>) -> Option<Work<'a>>
    ensures { IfSome result (IsWork (codes "verify") (rows_of (found_of found.now))) }
{
    let list = number_of(found, "list")??;
    let path = found.get_str("name")?;
    let (releases, name) = folder_and_name(found.get_str("releases"), path);
    Some(Work::Verify {
        releases,
        name,
        list,
    })
}

/// The preparation of a store of one release. If no folder of releases is given, it is the one that
/// contains the release's folder.
fn prepare_of<'a>(found: &ArgMatches<'a>) -> Option<Task<'a>>
    ensures { IfSome result (Reads (Some (codes "prepare", rows_of (found_of found.now)))) }
{
    let to = found.get_str("to")?;
    let path = found.get_str("name")?;
    let (releases, name) = folder_and_name(found.get_str("releases"), path);
    let quiet = is_set(found, "quiet");
    Some(Task::Prepare {
        to,
        releases,
        name,
        quiet,
    })
}

/// The given number, if there is one. Nothing if what was given is no number of 32 bits.
fn number_of(found: &ArgMatches<'_>, id: &str) -> Option<Option<u32>>
    ensures { IfSome result (IsNumber id.now (rows_of (found_of found.now))) }
{
    match found.get_str(id) {
        Some(text) => match text.parse() {
            Ok(number) => Some(Some(number)),
            Err(_) => None,
        },
        None => Some(None),
    }
}

/// The given layout, if there is one. Nothing if stores can't be made in what was given.
fn layout_of(found: &ArgMatches<'_>) -> Option<Option<Layout>>
    ensures { IfSome result (IsLayout (rows_of (found_of found.now))) }
{
    match number_of(found, "layout")? {
        Some(2) => Some(Some(Layout::Two)),
        Some(3) => Some(Some(Layout::Three)),
        Some(_) => None,
        None => Some(None),
    }
}

/// Whether this value was given.
fn has_value(found: &ArgMatches<'_>, id: &str, value: &str) -> bool
    ensures { (result ≡ true)
        ↔ (first_of id.now (rows_of (found_of found.now)) ≡ Some value.now) }
{
    match found.get_str(id) {
        Some(text) => text == value,
        None => false,
    }
}

/// Whether the flag was given.
fn is_set(found: &ArgMatches<'_>, id: &str) -> bool
    ensures { (result ≡ true) ↔ IsGivenFlag id.now (rows_of (found_of found.now)) }
{
    has_value(found, id, "true")
}

/// Whether words are kept: always, unless they are to be left out.
fn words_of(found: &ArgMatches<'_>) -> Words
    ensures { (result ≡ kept.LeftOut)
        ↔ (first_of (codes "without") (rows_of (found_of found.now)) ≡ Some (codes "words")) }
{
    if has_value(found, "without", "words") {
        Words::LeftOut
    } else {
        Words::Kept
    }
}
