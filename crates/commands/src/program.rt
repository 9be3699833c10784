//! The program, between the words and the status.

ghost use Rattle.std.specs.Prelude.{◌≡◌, ◌*◌, [], None, map, if◌then◌else◌, IfOk, IfErr, IfSome, OnOk};
ghost use Rattle.std.specs.Duration.{as_nanos};
ghost use Rattle.command_files.specs.Answers.{IsEarlyFault};
ghost use Rattle.command_words.specs.Words.{AreNoTask, AreWordsOf};
ghost use Rattle.commands.specs.Program.{DoesNothing, DoesTask, DoesWords, PassesOn, shown};
ghost use Rattle.outputs.specs.Gathered.{taken_by, under, waiting};
ghost use Rattle.std.specs.Option.{option_map};
ghost use Rattle.serve_command.specs.Archived.{ArchivesEpochs};
ghost use Rattle.serve_command.specs.Found.{SaysFound};
ghost use Rattle.serve_command.specs.Served.{BeginsServing, ComesOfServing, ServesDatabase};

use crate::conclusion::conclude;
use crate::console::{Console, Given};
use crate::words::borrowed;
use command_files::{Fault, Source, Status, Verdict, put_answer};
use command_words::{Task, VERSION, WordFault, read_words};
use database_commands::{NewStore, audit_database, create_store, extend_store, tell_history};
use database_files::{Databases, TornWrites};
use key_commands::{tell_outcome, tell_prepared};
use outputs::Out;
use serve_command::{Archives, Serving, fault_of_archive, serve_database};
use serving::Additions;
use std::alloc::Global;
use std::io::Read;
use std::rt::Clock;
use std::sync::Wait;
use std::thread::Threads;
use std::time::Duration;
use store_commands::{Schedule, Work, audit_histories, audit_ordered, run_file, work_file};
use type_commands::{check_file, explain_file, make_family, make_tables_of};

/// Does what the words after the program's name ask for, with what is given, and answers the status; or says
/// why there are no words.
///
/// Standard error takes the line of a fault, and where a store is served a line that says what was found; else
/// nothing. What the status says of the words, of what is given and of what both took is `DoesWords`.
pub fn do_words<
    R: AllocGlobal + Clock + Threads + Wait + Sync,
    S: Source,
    D: Databases,
    K: Archives,
    N: Additions,
    I: Read,
    W: Out,
    E: Out,
>(
    rt: &R,
    words: Result<Vec<String>, Fault<'static>>,
    given: &mut Given<S, D, K, N, I>,
    console: Console<W, E>,
) -> (Status, Console<W, E>)
    requires out_takes { W.fault (under console.out) ≡ None }
    requires nothing_waits { waiting console.out ≡ [] }
    requires nothing_taken { IfSome (W.taken (under console.out)) (λ bytes. bytes ≡ []) }
    requires err_takes { E.fault console.err ≡ None }
    ensures does { IfOk words.entry (λ all. DoesWords (shown (S.holds given.old.source) (D.holds given.old.databases) (D.holds given.new.databases) (D.is_clean given.new.databases) (I.remaining given.old.input) (I.remaining given.new.input) (K.kept_in given.old.archives) (K.kept_in given.new.archives))
        (map (λ w. w.bytes.items) all.items) result.0 (W.taken (under console.out)) (W.taken (under result.1.out)) (E.taken console.err) (E.taken result.1.err)) }
    ensures no_words { IfErr words.entry (λ fault. DoesNothing fault result.0 (W.taken (under console.out)) (W.taken (under result.1.out))) }
{
    match words {
        Ok(words) => do_given(rt, &words, given, console),
        Err(fault) => conclude(rt.alloc(), Err(fault), console),
    }
}

/// Does what these words ask for.
fn do_given<
    R: AllocGlobal + Clock + Threads + Wait + Sync,
    S: Source,
    D: Databases,
    K: Archives,
    N: Additions,
    I: Read,
    W: Out,
    E: Out,
>(
    rt: &R,
    words: &[String],
    given: &mut Given<S, D, K, N, I>,
    console: Console<W, E>,
) -> (Status, Console<W, E>)
    requires out_takes { W.fault (under console.out) ≡ None }
    requires nothing_waits { waiting console.out ≡ [] }
    requires nothing_taken { IfSome (W.taken (under console.out)) (λ bytes. bytes ≡ []) }
    requires err_takes { E.fault console.err ≡ None }
    ensures { DoesWords (shown (S.holds given.old.source) (D.holds given.old.databases) (D.holds given.new.databases) (D.is_clean given.new.databases) (I.remaining given.old.input) (I.remaining given.new.input) (K.kept_in given.old.archives) (K.kept_in given.new.archives))
        (map (λ w. w.bytes.items) words.now) result.0 (W.taken (under console.out)) (W.taken (under result.1.out)) (E.taken console.err) (E.taken result.1.err) }
{
    let alloc = rt.alloc();
    match borrowed(alloc, words) {
        Ok(words) => do_read(rt, &words, given, console),
        Err(_) => conclude(alloc, Err(Fault::NoMemory), console),
    }
}

/// Reads the words and does their task.
fn do_read<
    R: AllocGlobal + Clock + Threads + Wait + Sync,
    S: Source,
    D: Databases,
    K: Archives,
    N: Additions,
    I: Read,
    W: Out,
    E: Out,
>(
    rt: &R,
    words: &[&str],
    given: &mut Given<S, D, K, N, I>,
    console: Console<W, E>,
) -> (Status, Console<W, E>)
    requires out_takes { W.fault (under console.out) ≡ None }
    requires nothing_waits { waiting console.out ≡ [] }
    requires nothing_taken { IfSome (W.taken (under console.out)) (λ bytes. bytes ≡ []) }
    requires err_takes { E.fault console.err ≡ None }
    ensures { DoesWords (shown (S.holds given.old.source) (D.holds given.old.databases) (D.holds given.new.databases) (D.is_clean given.new.databases) (I.remaining given.old.input) (I.remaining given.new.input) (K.kept_in given.old.archives) (K.kept_in given.new.archives))
        (map (λ w. w.now) words.now) result.0 (W.taken (under console.out)) (W.taken (under result.1.out)) (E.taken console.err) (E.taken result.1.err) }
{
    let alloc = rt.alloc();
    match task_of(alloc, words) {
        Ok(task) => {
            let (answer, console) = do_task(rt, task, given, console);
            conclude(alloc, answer, console)
        }
        Err(fault) => conclude(alloc, Err(fault), console),
    }
}

/// The task of words.
///
/// # Errors
///
/// They name none, or memory was refused.
fn task_of<'a>(alloc: Global, words: &'a [&'a str]) -> Result<Task<'a>, Fault<'a>>
    ensures taken { IfOk result (AreWordsOf (map (λ w. w.now) words.now)) }
    ensures refused { IfErr result (IsEarlyFault (AreNoTask (map (λ w. w.now) words.now))) }
{
    match read_words(alloc, words) {
        Ok(task) => Ok(task),
        Err(WordFault::Usage { text }) => Err(Fault::Usage { text }),
        Err(WordFault::NoMemory) => Err(Fault::NoMemory),
    }
}

/// How a store is to be served: `drain` is the seconds of `--drain`.
fn serving<'a>(
    path: &'a str,
    fast: bool,
    archive: Option<&'a str>,
    drain: u32,
    outcomes: u32,
) -> Serving<'a>
    ensures path { result.path ≡ path.entry }
    ensures torn { result.torn ≡ (if fast then TornWrites.OldOrNew else TornWrites.AnyBytes) }
    ensures archive { result.archive ≡ archive.entry }
    ensures drain { as_nanos result.drain ≡ drain * 1_000_000_000 }
    ensures outcomes { result.outcomes ≡ outcomes }
{
    let torn = if fast {
        TornWrites::OldOrNew
    } else {
        TornWrites::AnyBytes
    };
    Serving {
        path,
        torn,
        archive,
        drain: Duration::from_secs(u64::from(drain)),
        outcomes,
    }
}

/// Serves the store in the database at a path: its client gets the answers from the console's output.
fn do_serve<
    'a,
    R: AllocGlobal + Clock,
    S,
    D: Databases,
    K: Archives,
    N: Additions,
    I: Read,
    W: Out,
    E: Out,
>(
    rt: &R,
    asked: Serving<'a>,
    given: &mut Given<S, D, K, N, I>,
    console: Console<W, E>,
) -> (Result<Verdict, Fault<'a>>, Console<W, E>)
    requires out_takes { W.fault (under console.out) ≡ None }
    requires err_takes { E.fault console.err ≡ None }
    ensures comes { let path = asked.entry.path in ComesOfServing (BeginsServing asked.entry.outcomes (D.is_clean given.new.databases) (D.holds given.old.databases path.now) (D.holds given.new.databases path.now) (I.remaining given.old.input) (I.remaining given.new.input))
        (ServesDatabase asked.entry.outcomes (D.is_clean given.new.databases) (D.holds given.old.databases path.now) (D.holds given.new.databases path.now) (I.remaining given.old.input) (I.remaining given.new.input))
        result.0 (taken_by W.taken console.out) (taken_by W.taken result.1.out) }
    ensures source { given.new.source ≡ given.old.source }
    ensures archives { let path = asked.entry.path in let folder = option_map (λ f. f.now) asked.entry.archive in
        OnOk result.0 (ArchivesEpochs asked.entry.outcomes (D.is_clean given.new.databases) (D.holds given.old.databases path.now) (D.holds given.new.databases path.now) (K.kept_in given.old.archives folder) (K.kept_in given.new.archives folder)) }
    ensures says { OnOk result.0 (SaysFound (D.is_clean given.new.databases) (D.holds given.old.databases asked.entry.path.now) asked.entry.path.now (E.taken console.err) (E.taken result.1.err)) }
{
    let Console { out, mut err } = console;
    let mut archive = match given.archives.open(asked.archive) {
        Ok(archive) => archive,
        Err(fault) => {
            let folder = asked.archive.unwrap_or(asked.path);
            return (Err(fault_of_archive(folder, fault)), Console { out, err });
        }
    };
    let (answer, out) = serve_database(
        rt,
        rt.alloc(),
        asked,
        &mut given.databases,
        &mut given.additions,
        &mut archive,
        &mut given.input,
        out,
        &mut err,
    );
    given.archives.close(asked.archive, archive);
    (answer, Console { out, err })
}

/// Does a task: writes its answer. Where there is none, says why.
fn do_task<
    'a,
    R: AllocGlobal + Clock + Threads + Wait + Sync,
    S: Source,
    D: Databases,
    K: Archives,
    N: Additions,
    I: Read,
    W: Out,
    E: Out,
>(
    rt: &R,
    task: Task<'a>,
    given: &mut Given<S, D, K, N, I>,
    mut console: Console<W, E>,
) -> (Result<Verdict, Fault<'a>>, Console<W, E>)
    requires out_takes { W.fault (under console.out) ≡ None }
    requires err_takes { E.fault console.err ≡ None }
    ensures does { DoesTask (shown (S.holds given.old.source) (D.holds given.old.databases) (D.holds given.new.databases) (D.is_clean given.new.databases) (I.remaining given.old.input) (I.remaining given.new.input) (K.kept_in given.old.archives) (K.kept_in given.new.archives))
        task.entry result.0 (taken_by W.taken console.out) (taken_by W.taken result.1.out) }
    ensures err { PassesOn (shown (S.holds given.old.source) (D.holds given.old.databases) (D.holds given.new.databases) (D.is_clean given.new.databases) (I.remaining given.old.input) (I.remaining given.new.input) (K.kept_in given.old.archives) (K.kept_in given.new.archives))
        task.entry result.0 (E.taken console.err) (E.taken result.1.err) }
{
    let alloc = rt.alloc();
    let source = &mut given.source;
    let out = &mut console.out;
    match task {
        Task::Check { kind, path } => (check_file(rt, kind, path, source, out), console),
        Task::Explain { kind, path, pair } => {
            (explain_file(rt, kind, path, pair, source, out), console)
        }
        Task::Make {
            family,
            size,
            items,
        } => (make_family(alloc, family, size, &items, out), console),
        Task::Tables { path } => (make_tables_of(alloc, path, source, out), console),
        Task::Run { script, types } => (run_file(alloc, script, &types, source, out), console),
        Task::Work {
            jobs,
            types,
            workers,
            tries,
        } => {
            let work = Work {
                workers,
                tries,
                schedule: Schedule::SideBySide,
            };
            (work_file(rt, work, jobs, &types, source, out), console)
        }
        Task::Stress {
            jobs,
            types,
            workers,
            tries,
            seed,
        } => {
            let work = Work {
                workers,
                tries,
                schedule: Schedule::Drawn { seed },
            };
            (work_file(rt, work, jobs, &types, source, out), console)
        }
        Task::Audit {
            history,
            later,
            types,
        } => (
            audit_histories(alloc, history, &later, &types, source, out),
            console,
        ),
        Task::AuditOrdered {
            order,
            history,
            types,
        } => (
            audit_ordered(alloc, &order, history, &types, source, out),
            console,
        ),
        Task::Create {
            database,
            objects,
            types,
        } => {
            let asked = NewStore {
                database,
                objects,
                types: &types,
            };
            (
                create_store(alloc, asked, source, &mut given.databases, out),
                console,
            )
        }
        Task::Extend {
            database,
            objects,
            types,
        } => {
            let asked = NewStore {
                database,
                objects,
                types: &types,
            };
            (
                extend_store(alloc, asked, source, &mut given.databases, out),
                console,
            )
        }
        Task::History { database } => {
            (
                tell_history(alloc, database, &mut given.databases, out),
                console,
            )
        }
        Task::Prepared { database } => {
            (
                tell_prepared(alloc, database, &mut given.databases, out),
                console,
            )
        }
        Task::Outcome { database, key } => {
            (
                tell_outcome(alloc, database, key, &mut given.databases, out),
                console,
            )
        }
        Task::AuditDatabase { database } => {
            (
                audit_database(alloc, database, &mut given.databases, out),
                console,
            )
        }
        Task::Serve {
            database,
            fast,
            archive,
            drain,
            outcomes,
        } => {
            let asked = serving(database, fast, archive, drain, outcomes);
            do_serve(rt, asked, given, console)
        }
        Task::Help { topic } => {
            (
                put_answer(Verdict::Yes, topic.text().as_bytes(), out),
                console,
            )
        }
        Task::Version => (put_answer(Verdict::Yes, VERSION.as_bytes(), out), console),
    }
}
