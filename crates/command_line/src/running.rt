//! Carries out the command line.

ghost use Rattle.std.specs.Prelude.{◌≡◌, ◌≤◌, ◌⊎◌, ℕ, map, string_bytes};
ghost use Rattle.line_server.specs.Streams.{streams};
ghost use Rattle.command_line.specs.Endings.{report};
ghost use Rattle.command_line.specs.Tasks.{IsWorkDone, IsWorkOnDisk, held_of, words_for};
ghost use Rattle.command_line.specs.Hosts.{MakesAsBefore};
ghost use Rattle.command_line.specs.declared.host.Mode.TheVariants.{Open};
ghost use Rattle.command_line.specs.Runs.{Does, IsActionDone, IsMadeAt, FindsFolder, IsUsed};
ghost use Rattle.command_line.specs.Runs.{IsDoneAt, IsNotOpened};
ghost use Rattle.command_line.specs.Runs.{mode_of, IsDemonstrated, IsDemonstration};
ghost use Rattle.command_line.specs.Runs.{IsRun, IsNoTask, IsExplained};
ghost use Rattle.history_store.specs.Answers.{IsReady};

use crate::check_source::CheckSource;
use crate::copying::copy_to;
use crate::demonstration::{SCRIPT, Samples};
use crate::digesting::digest;
use crate::endings::{Ending, Performed, fail, finish, refuse, tell_refusal};
use crate::folder_source::FolderSource;
use crate::host::{Host, Mode};
use crate::importing::{check, import};
use crate::inspecting::{figures_of, tell_status};
use crate::making::init;
use crate::merging::merge;
use crate::preparing::{Wanted, prepare};
use crate::serving::{serve_all, serve_new};
use crate::telling::{tell_end, tell_figures};
use crate::told_lines::ToldLines;
use crate::verifying::{Asked, verify};
use crate::words::{Action, Refused, Task, Work, task_of};
use directory::Layout;
use disk_model::MemDisk;
use history_store::{Refusal, Store, Words};
use line_server::{Held, LineRefusal, ServeFault};
use std::alloc::Global;
use std::io::{Read, Write};

/// Carries out a command line, whose first word is the program's name, and returns the exit status:
/// 0 if it was done; 1 if it was refused, or a stream or memory failed; 2 if the words are no
/// command. Also returns the disk of the task, as it was left, and the disk that was made for a
/// copy. `asked` counts how often the host was asked for one.
pub fn run<H: Host, I: Read, O: Write, E: Write>(
    host: &H,
    asked: &mut H::Asked,
    alloc: Global,
    words: &[String],
    input: &mut I,
    output: &mut O,
    faults: &mut E,
) -> (u8, Option<H::Disk>, Option<H::Disk>)
    // promise: a_command_does_what_its_words_say
    ensures status { result.0 ≤ 2 }
    // Words that are no command only cause a message.
    // promise: a_command_does_what_its_words_say
    ensures no_command { result.0 ≡ 2 → (input.new ≡ input.old) × (output.new ≡ output.old) }
    // promise: a_command_does_what_its_words_say
    ensures done { IsRun (H.view host.now) H.Disk.view SCRIPT.now (map string_bytes words.now)
        result.1 result.2 result.0 (streams (I.remaining input.old) (I.remaining input.new)
        (O.contents output.old) (O.contents output.new)) (H.count asked.old) (H.count asked.new)
        ⊎ IsNoTask (map string_bytes words.now) result.1 result.2 result.0
        (streams (I.remaining input.old) (I.remaining input.new)
        (O.contents output.old) (O.contents output.new)) (H.count asked.old) (H.count asked.new) }
{
    match task_of(alloc, words) {
        Ok(task) => {
            let (ended, left, made) = perform(host, asked, alloc, &task, input, output, faults);
            (finish(ended, output, faults), left, made)
        }
        Err(refused) => (explain(&refused, output, faults), None, None),
    }
}

/// Carries out a task. If it is refused, the reason goes to `faults`.
fn perform<H: Host, I: Read, O: Write, E: Write>(
    host: &H,
    asked: &mut H::Asked,
    alloc: Global,
    task: &Task<'_>,
    input: &mut I,
    output: &mut O,
    faults: &mut E,
) -> Performed<H::Disk>
    ensures { Does (H.view host.now) H.Disk.view SCRIPT.now task.now result.1 result.2 result.0
        (streams (I.remaining input.old) (I.remaining input.new)
        (O.contents output.old) (O.contents output.new)) (H.count asked.old) (H.count asked.new) }
{
    match task {
        Task::At { store, action } => {
            open_and_do(host, asked, alloc, *store, action, input, output, faults)
        }
        Task::Prepare {
            to,
            releases,
            name,
            quiet,
        } => {
            let wanted = Wanted {
                to: *to,
                releases: *releases,
                name: *name,
                quiet: *quiet,
            };
            prepare(host, asked, alloc, wanted, output, faults)
        }
        Task::Demo => (demo(alloc, output), None, None),
    }
}

/// Asks for the disk of this name, and does an action with it.
fn open_and_do<H: Host, I: Read, O: Write, E: Write>(
    host: &H,
    asked: &mut H::Asked,
    alloc: Global,
    path: &str,
    action: &Action<'_>,
    input: &mut I,
    output: &mut O,
    faults: &mut E,
) -> Performed<H::Disk>
    ensures { IsDoneAt (H.view host.now) H.Disk.view path.now action.now result.1 result.2 result.0
        (streams (I.remaining input.old) (I.remaining input.new)
        (O.contents output.old) (O.contents output.new)) (H.count asked.old) (H.count asked.new)
        ⊎ IsNotOpened (H.view host.now) path.now action.now result.1 result.2 result.0
        (streams (I.remaining input.old) (I.remaining input.new)
        (O.contents output.old) (O.contents output.new)) (H.count asked.old) (H.count asked.new) }
{
    let Some(disk) = host.open(asked, mode_of(action), path, faults) else {
        return (refuse(alloc, output, Refusal::DiskFault), None, None);
    };
    let (ended, left, made) = do_at(
        host, asked, alloc, path, action, disk, input, output, faults,
    );
    (ended, Some(left), made)
}

/// How an action asks for its disk.
fn mode_of(action: &Action<'_>) -> Mode
    // promise: a_command_does_what_its_words_say
    ensures { result ≡ mode_of action.now }
{
    match action {
        Action::Init { .. } => Mode::OpenOrMake,
        Action::Use(
            Work::Serve {
                read_only: true,
                ..
            },
        ) => Mode::OpenToRead,
        Action::Copy { .. } | Action::Use(_) => Mode::Open,
    }
}

/// Does an action with the disk of this name, and returns how it ended, the disk, and the one that
/// was made for a copy.
fn do_at<H: Host, I: Read, O: Write, E: Write>(
    host: &H,
    asked: &mut H::Asked,
    alloc: Global,
    path: &str,
    action: &Action<'_>,
    disk: H::Disk,
    input: &mut I,
    output: &mut O,
    faults: &mut E,
) -> (Result<Ending, ServeFault>, H::Disk, Option<H::Disk>)
    ensures { (before : ℕ)
        → (mode_of action.now ≡ Open
        → MakesAsBefore (H.view host.now) before (H.count asked.old))
        → IsActionDone (H.view host.now) H.Disk.view path.now action.now disk
        result.1 result.2 result.0 (streams (I.remaining input.old) (I.remaining input.new)
        (O.contents output.old) (O.contents output.new))
        before (H.count asked.old) (H.count asked.new) }
{
    match action {
        Action::Init { layout } => {
            let (ended, left) = init_at(host, alloc, path, *layout, disk, output, faults);
            tell_end(host, path, ended, &left, faults);
            (ended, left, None)
        }
        Action::Copy {
            to,
            imports,
            layout,
        } => copy_to(
            host, asked, alloc, path, *to, *imports, *layout, disk, output, faults,
        ),
        Action::Use(work) => {
            let (ended, left) = use_at(host, alloc, path, work, disk, input, output, faults);
            tell_end(host, path, ended, &left, faults);
            (ended, left, None)
        }
    }
}

/// Makes a store of this layout on the disk of this name. Before anything is written, it makes sure
/// that the name survives a crash, so that the store is found after one.
fn init_at<H: Host, O: Write, E: Write>(
    host: &H,
    alloc: Global,
    path: &str,
    layout: Layout,
    disk: H::Disk,
    output: &mut O,
    faults: &mut E,
) -> (Result<Ending, ServeFault>, H::Disk)
    ensures { IsMadeAt (H.view host.now) H.Disk.view path.now layout disk result.1
        (report result.0 (O.contents output.old) (O.contents output.new)) }
{
    if host.settle(alloc, path, faults) {
        init(alloc, disk, layout, output)
    } else {
        (refuse(alloc, output, Refusal::DiskFault), disk)
    }
}

/// Whether the folder of releases exists without which the work isn't begun. Only a server that may
/// import needs one: each import would be refused.
fn has_folder<H: Host, E: Write>(host: &H, work: &Work<'_>, faults: &mut E) -> bool
    ensures { FindsFolder (H.view host.now) work.now result }
{
    match work {
        Work::Serve {
            releases,
            read_only: false,
            ..
        } => host.has_folder(*releases, faults),
        _ => true,
    }
}

/// Opens the store of a disk, and works with it, unless a folder is missing that the work needs.
fn use_at<H: Host, I: Read, O: Write, E: Write>(
    host: &H,
    alloc: Global,
    path: &str,
    work: &Work<'_>,
    disk: H::Disk,
    input: &mut I,
    output: &mut O,
    faults: &mut E,
) -> (Result<Ending, ServeFault>, H::Disk)
    ensures { IsUsed (H.view host.now) H.Disk.view work.now disk result.1 result.0
        (streams (I.remaining input.old) (I.remaining input.new)
        (O.contents output.old) (O.contents output.new)) }
{
    if has_folder(host, work, faults) {
        open_and_work(host, alloc, path, work, disk, input, output, faults)
    } else {
        (tell_refusal(alloc, output, LineRefusal::NoFolder), disk)
    }
}

/// Whether the work needs the words of the store: a server does, unless they are to be left out.
fn words_for(work: &Work<'_>) -> Words
    ensures { result ≡ words_for work.now }
{
    match work {
        Work::Serve { words, .. } => *words,
        _ => Words::LeftOut,
    }
}

/// Opens the store of a disk, and works with it.
fn open_and_work<H: Host, I: Read, O: Write, E: Write>(
    host: &H,
    alloc: Global,
    path: &str,
    work: &Work<'_>,
    disk: H::Disk,
    input: &mut I,
    output: &mut O,
    faults: &mut E,
) -> (Result<Ending, ServeFault>, H::Disk)
    ensures { IsWorkOnDisk (H.view host.now) H.Disk.view work.now disk result.1 result.0
        (streams (I.remaining input.old) (I.remaining input.new)
        (O.contents output.old) (O.contents output.new)) }
{
    match Store::open(alloc, disk, words_for(work)) {
        Ok(store) => {
            let mut store = store;
            let ended = do_work(host, alloc, path, work, &mut store, input, output, faults);
            (ended, store.close())
        }
        Err((refusal, disk)) => (refuse(alloc, output, refusal), disk),
    }
}

/// What a server holds back from its start.
fn held_of(read_only: bool) -> Held
    ensures { result ≡ held_of read_only }
{
    if read_only {
        Held::Changing
    } else {
        Held::Nothing
    }
}

/// Works with an open store.
fn do_work<'a, H: Host, I: Read, O: Write, E: Write>(
    host: &'a H,
    alloc: Global,
    path: &str,
    work: &Work<'a>,
    store: &mut Store<H::Disk>,
    input: &mut I,
    output: &mut O,
    faults: &mut E,
) -> Result<Ending, ServeFault>
    requires { IsReady store.old }
    ensures { IsWorkDone (H.view host.now) H.Disk.view work.now store.old store.new.disk result
        (streams (I.remaining input.old) (I.remaining input.new)
        (O.contents output.old) (O.contents output.new)) }
{
    match work {
        Work::Import {
            releases,
            name,
            quiet,
        } => {
            let mut source = FolderSource::new(host, *releases, faults, "importing", *quiet);
            import(alloc, path, *name, &mut source, store, output)
        }
        Work::Check {
            releases,
            name,
            quiet,
        } => {
            let folder = FolderSource::new(host, *releases, faults, "checking", *quiet);
            let mut source = CheckSource {
                folder,
                refused: None,
            };
            check(alloc, *name, &mut source, store, output)
        }
        Work::Serve {
            releases,
            read_only,
            ..
        } => {
            let mut source = FolderSource::new(host, *releases, faults, "importing", true);
            serve_all(
                alloc,
                &mut source,
                store,
                input,
                output,
                held_of(*read_only),
            )
        }
        Work::Status => {
            let ended = tell_status(alloc, store, output);
            tell_figures(path, figures_of(store), host.size(path), faults);
            ended
        }
        Work::Merge { segments } => merge(alloc, path, *segments, store, output, faults),
        Work::Digest { imports } => digest(alloc, *imports, store, output),
        Work::Verify {
            releases,
            name,
            list,
        } => {
            let asked = Asked {
                releases: *releases,
                name: *name,
                list: *list,
            };
            verify(host, alloc, asked, store, output, faults)
        }
    }
}

/// Answers the lines of the script, with a store in memory.
fn demo<O: Write>(alloc: Global, output: &mut O) -> Result<Ending, ServeFault>
    ensures { IsDemonstrated SCRIPT.now
        (report result (O.contents output.old) (O.contents output.new)) }
{
    let mut script = SCRIPT;
    let disk = MemDisk::new(alloc);
    let (ended, _) = serve_new(alloc, disk, &mut Samples, &mut script, output);
    ended
}

/// Answers the lines of the script, with a store in memory, and returns the exit status. Each line
/// is shown on `faults` before its reply is written, as is useful on a terminal.
pub fn demonstrate<O: Write, E: Write>(alloc: Global, output: &mut O, faults: &mut E) -> u8
    // promise: a_command_does_what_its_words_say
    ensures status { result ≤ 1 }
    // promise: a_command_does_what_its_words_say
    ensures done { IsDemonstration SCRIPT.now result
        (O.contents output.old) (O.contents output.new) }
{
    let mut script = ToldLines {
        rest: SCRIPT,
        told: faults,
    };
    let disk = MemDisk::new(alloc);
    let (ended, _) = serve_new(alloc, disk, &mut Samples, &mut script, output);
    finish(ended, output, script.told)
}

/// Writes why the words are no task. A help that was asked for is no error.
fn explain<O: Write, E: Write>(refused: &Refused, output: &mut O, faults: &mut E) -> u8
    ensures status { result ≤ 2 }
    ensures no_command { result ≡ 2 → output.new ≡ output.old }
    ensures explained { IsExplained refused.now result
        (O.contents output.old) (O.contents output.new) }
{
    match refused {
        Refused::OutOfMemory => fail(ServeFault::OutOfMemory, faults),
        Refused::Words(error) if error.use_stderr() => {
            let _ = write!(faults, "{error}");
            2
        }
        Refused::Words(error) => {
            let ended = match write!(output, "{error}") {
                Ok(()) => Ok(Ending::Done),
                Err(_) => Err(ServeFault::Write),
            };
            finish(ended, output, faults)
        }
    }
}
