//! The words of the command line.
ghost use Rattle.std.specs.Prelude.{◌≡◌, ◌≢◌, ◌<◌, ℕ, List, [], ◌∷◌, Option, None, Some, option_map, unwrap_or, IfOk, IfErr, IfNone, IfSome, IsSome, codes};
ghost use Rattle.clap.specs.Words.{found_of, kind_of, rows_of};
ghost use Rattle.clap.specs.Walk.{all_of, first_of, texts};
ghost use Rattle.clap.specs.declared.parser.matches.ArgMatches.{ArgMatches};
ghost use Rattle.command_words.specs.Program.{AskSomething, AreMatchesOf, HasAudit, HasNumber, HasRows, HasStoreRows, HasWork, IsEntryOf, Parses};
ghost use Rattle.command_words.specs.declared.task.Topic.{Topic};
ghost use Rattle.type_table.specs.Kind.{kind_word};
ghost use Rattle.type_table.specs.declared.kind.Kind.{Kind};
ghost use Rattle.command_words.specs.Words.{AreLeftToClap, AreNoTask, AreOfNoDirectTask, AreOfNoGivenOrder, AreOfNoServe, AreWordsOf, Asked, OnUsage, Text, asked_of, help_words, pair_of, pair_words};
ghost use Rattle.command_words.specs.Words as asked;
ghost use Rattle.command_words.specs.Lines.{Audit, Work};

use crate::ordered::read_ordered;
use crate::program::program;
use crate::serve::read_serve;
use crate::{Task, Topic, WordFault};
use clap::error::ErrorKind;
use clap::{ArgMatches, Error};
use std::alloc::{AllocError, Global};
use type_table::Kind;

/// Reads the words after the program's name. At `Ok` they are the task's, and those of a command may
/// have one `--` among them. The options of `audit`, `work` and `stress` may be anywhere before it, in
/// either form. A fault of the command line comes of no words of a task, where none of the paths,
/// FAMILY, SIZE, the ITEMs, P and Q begins with a hyphen; `--help` among the words is such a fault. Which
/// of the two faults comes is `clap`'s, but for `serve` and `audit --order`. After `audit --database` comes one word,
/// which is the path whatever it is; after `audit --order` come the transactions, HISTORY and the TYPEs, and no option.
pub fn read_words<'a>(alloc: Global, words: &'a [&'a str]) -> Result<Task<'a>, WordFault>
    ensures taken { IfOk result (AreWordsOf (texts words.now)) }
    ensures refused { IfErr result (λ fault. OnUsage fault (AreNoTask (texts words.now))) }
{
    match words {
        ["serve", rest @ ..] => read_serve(alloc, rest),
        _ => read_not_serve(alloc, words),
    }
}

/// The task of words that don't begin with `serve`.
fn read_not_serve<'a>(alloc: Global, words: &'a [&'a str]) -> Result<Task<'a>, WordFault>
    requires { AreOfNoServe (texts words.now) }
    ensures taken { IfOk result (AreWordsOf (texts words.now)) }
    ensures refused { IfErr result (λ fault. OnUsage fault (AreNoTask (texts words.now))) }
{
    match words {
        ["audit", "--order", rest @ ..] => read_ordered(alloc, rest),
        _ => read_other(alloc, words),
    }
}

/// The task of words that begin neither with `serve` nor with `audit --order`.
fn read_other<'a>(alloc: Global, words: &'a [&'a str]) -> Result<Task<'a>, WordFault>
    requires no_serve { AreOfNoServe (texts words.now) }
    requires no_order { AreOfNoGivenOrder (texts words.now) }
    ensures taken { IfOk result (AreWordsOf (texts words.now)) }
    ensures refused { IfErr result (λ fault. OnUsage fault (AreNoTask (texts words.now))) }
{
    match direct_task(words) {
        Some(task) => Ok(task),
        None => read_order(alloc, words),
    }
}

/// The task of words that ask for help, for the version or for the audit of a store.
fn direct_task<'a>(words: &[&'a str]) -> Option<Task<'a>>
    requires { AreOfNoServe (texts words.now) }
    ensures taken { IfSome result (AreWordsOf (texts words.now)) }
    ensures other { IfNone result (AreOfNoDirectTask (texts words.now)) }
{
    match *words {
        ["help"] => Some(help_on(Topic::Program)),
        ["help", name] => Some(help_on(topic_of(name)?)),
        ["audit", "--database", database] => Some(Task::AuditDatabase { database }),
        ["--version"] | ["-V"] => Some(Task::Version),
        _ => None,
    }
}

/// The topic of this name.
fn topic_of(name: &str) -> Option<Topic>
    ensures named { IfSome result (λ topic. codes "help" ∷ name.now ∷ [] ≡ help_words topic) }
    ensures other { IfNone result ((topic : Topic) → codes "help" ∷ name.now ∷ [] ≢ help_words topic) }
{
    match name {
        "check" => Some(Topic::Check),
        "explain" => Some(Topic::Explain),
        "make" => Some(Topic::Make),
        "tables" => Some(Topic::Tables),
        "run" => Some(Topic::Run),
        "audit" => Some(Topic::Audit),
        "work" => Some(Topic::Work),
        "stress" => Some(Topic::Stress),
        "create" => Some(Topic::Create),
        "extend" => Some(Topic::Extend),
        "serve" => Some(Topic::Serve),
        "history" => Some(Topic::History),
        "prepared" => Some(Topic::Prepared),
        "outcome" => Some(Topic::Outcome),
        "help" => Some(Topic::Help),
        "faults" => Some(Topic::Faults),
        _ => None,
    }
}

fn help_on<'a>(topic: Topic) -> Task<'a>
    ensures { asked_of result ≡ asked.help topic }
{
    Task::Help { topic }
}

/// The task of words that are left to `clap`.
fn read_order<'a>(alloc: Global, words: &'a [&'a str]) -> Result<Task<'a>, WordFault>
    requires { AreLeftToClap (texts words.now) }
    ensures taken { IfOk result (AreWordsOf (texts words.now)) }
    ensures refused { IfErr result (λ fault. OnUsage fault (AreNoTask (texts words.now))) }
{
    match parsed(alloc, words) {
        Ok(matches) => match task_of(alloc, &matches) {
            Ok(task) => Ok(task),
            Err(_) => Err(WordFault::NoMemory),
        },
        Err(error) => Err(fault_of(alloc, &error)),
    }
}

/// What `clap` makes of the words.
fn parsed<'a>(alloc: Global, words: &'a [&'a str]) -> Result<ArgMatches<'a>, Error>
    ensures { Parses (texts words.now) result }
{
    program(alloc)?.try_get_matches_from(words)
}

/// The task of matches that are those of a subcommand.
fn task_of<'a>(alloc: Global, matches: &ArgMatches<'a>) -> Result<Task<'a>, AllocError>
    requires { AskSomething matches.now }
    ensures { (a : Asked) → AreMatchesOf matches.now a → IfOk result (λ task. asked_of task ≡ a) }
{
    let (name, values) = matches.subcommand().unwrap();
    command_task(alloc, name, values)
}

/// The task of a command's name and of what was read behind it.
fn command_task<'a>(
    alloc: Global,
    name: &str,
    values: &ArgMatches<'a>,
) -> Result<Task<'a>, AllocError>
    requires { (a : Asked) × IsEntryOf (Some (name.now, rows_of (found_of values.now))) a }
    ensures { (a : Asked) → IsEntryOf (Some (name.now, rows_of (found_of values.now))) a → IfOk result (λ task. asked_of task ≡ a) }
{
    match name {
        "check" => Ok(check_task(values)),
        "explain" => Ok(explain_task(values)),
        "make" => make_task(alloc, values),
        "tables" => Ok(tables_task(values)),
        "run" => run_task(alloc, values),
        "audit" => audit_task(alloc, values),
        "work" => work_task(alloc, values),
        "stress" => stress_task(alloc, values),
        "create" => create_task(alloc, values),
        "extend" => extend_task(alloc, values),
        "history" => Ok(history_task(values)),
        "prepared" => Ok(prepared_task(values)),
        _ => Ok(outcome_task(values)),
    }
}

fn check_task<'a>(values: &ArgMatches<'a>) -> Task<'a>
    requires { (kind : Kind) × (path : Text) × HasRows values.now (asked.check kind path) }
    ensures { (kind : Kind) (path : Text) → HasRows values.now (asked.check kind path)
        → asked_of result ≡ asked.order (asked.check kind path) }
{
    Task::Check {
        kind: asked_kind(values),
        path: file_word(values),
    }
}

fn explain_task<'a>(values: &ArgMatches<'a>) -> Task<'a>
    requires { (kind : Kind) × (path : Text) × (pair : Option (Text × Text)) × HasRows values.now (asked.explain kind path pair) }
    ensures { (kind : Kind) (path : Text) (pair : Option (Text × Text)) → HasRows values.now (asked.explain kind path pair)
        → asked_of result ≡ asked.order (asked.explain kind path pair) }
{
    Task::Explain {
        kind: asked_kind(values),
        path: file_word(values),
        pair: asked_pair(values),
    }
}

fn make_task<'a>(alloc: Global, values: &ArgMatches<'a>) -> Result<Task<'a>, AllocError>
    requires { (family : Text) × (size : Text) × (items : List Text) × HasRows values.now (asked.make family size items) }
    ensures { (family size : Text) (items : List Text) → HasRows values.now (asked.make family size items)
        → IfOk result (λ task. asked_of task ≡ asked.order (asked.make family size items)) }
{
    let items = values.get_strs("items").unwrap_or(&[]);
    Ok(Task::Make {
        family: values.get_str("family").unwrap(),
        size: values.get_str("size").unwrap(),
        items: items.to_vec(alloc)?,
    })
}

fn tables_task<'a>(values: &ArgMatches<'a>) -> Task<'a>
    requires { (path : Text) × HasRows values.now (asked.tables path) }
    ensures { (path : Text) → HasRows values.now (asked.tables path) → asked_of result ≡ asked.order (asked.tables path) }
{
    Task::Tables {
        path: file_word(values),
    }
}

fn history_task<'a>(values: &ArgMatches<'a>) -> Task<'a>
    requires { (path : Text) × HasRows values.now (asked.history path) }
    ensures { (path : Text) → HasRows values.now (asked.history path) → asked_of result ≡ asked.order (asked.history path) }
{
    Task::History {
        database: file_word(values),
    }
}

fn prepared_task<'a>(values: &ArgMatches<'a>) -> Task<'a>
    requires { (path : Text) × HasRows values.now (asked.prepared path) }
    ensures { (path : Text) → HasRows values.now (asked.prepared path) → asked_of result ≡ asked.order (asked.prepared path) }
{
    Task::Prepared {
        database: file_word(values),
    }
}

fn outcome_task<'a>(values: &ArgMatches<'a>) -> Task<'a>
    requires { (path key : Text) × HasRows values.now (asked.outcome path key) }
    ensures { (path key : Text) → HasRows values.now (asked.outcome path key) → asked_of result ≡ asked.order (asked.outcome path key) }
{
    Task::Outcome {
        database: file_word(values),
        key: key_word(values),
    }
}

fn create_task<'a>(alloc: Global, values: &ArgMatches<'a>) -> Result<Task<'a>, AllocError>
    requires { (database : Text) × (objects : Text) × (types : List Text) × HasRows values.now (asked.create database objects types) }
    ensures { (database objects : Text) (types : List Text) → HasRows values.now (asked.create database objects types)
        → IfOk result (λ task. asked_of task ≡ asked.order (asked.create database objects types)) }
{
    let (objects, types) = store_words(alloc, values)?;
    Ok(Task::Create {
        database: database_word(values),
        objects,
        types,
    })
}

fn extend_task<'a>(alloc: Global, values: &ArgMatches<'a>) -> Result<Task<'a>, AllocError>
    requires { (database : Text) × (objects : Text) × (types : List Text) × HasRows values.now (asked.extend database objects types) }
    ensures { (database objects : Text) (types : List Text) → HasRows values.now (asked.extend database objects types)
        → IfOk result (λ task. asked_of task ≡ asked.order (asked.extend database objects types)) }
{
    let (objects, types) = store_words(alloc, values)?;
    Ok(Task::Extend {
        database: database_word(values),
        objects,
        types,
    })
}

fn run_task<'a>(alloc: Global, values: &ArgMatches<'a>) -> Result<Task<'a>, AllocError>
    requires { (script : Text) × (types : List Text) × HasRows values.now (asked.run script types) }
    ensures { (script : Text) (types : List Text) → HasRows values.now (asked.run script types)
        → IfOk result (λ task. asked_of task ≡ asked.order (asked.run script types)) }
{
    let (script, types) = store_words(alloc, values)?;
    Ok(Task::Run { script, types })
}

fn audit_task<'a>(alloc: Global, values: &ArgMatches<'a>) -> Result<Task<'a>, AllocError>
    requires { (a : Audit) × HasAudit values.now a }
    ensures { (a : Audit) → HasAudit values.now a → IfOk result (λ task. asked_of task ≡ asked.audit a) }
{
    let (history, types) = store_words(alloc, values)?;
    let later = values.get_strs("then").unwrap_or(&[]).to_vec(alloc)?;
    Ok(Task::Audit {
        history,
        later,
        types,
    })
}

fn work_task<'a>(alloc: Global, values: &ArgMatches<'a>) -> Result<Task<'a>, AllocError>
    requires { (w : Work) × (w.seed ≡ None) × HasWork values.now w }
    ensures { (w : Work) → w.seed ≡ None → HasWork values.now w → IfOk result (λ task. asked_of task ≡ asked.work w) }
{
    let (jobs, types) = store_words(alloc, values)?;
    Ok(Task::Work {
        jobs,
        types,
        workers: small_number(values, "workers"),
        tries: small_number(values, "tries"),
    })
}

fn stress_task<'a>(alloc: Global, values: &ArgMatches<'a>) -> Result<Task<'a>, AllocError>
    requires { (w : Work) × IsSome w.seed × HasWork values.now w }
    ensures { (w : Work) → IsSome w.seed → HasWork values.now w → IfOk result (λ task. asked_of task ≡ asked.work w) }
{
    let (jobs, types) = store_words(alloc, values)?;
    Ok(Task::Stress {
        jobs,
        types,
        workers: small_number(values, "workers"),
        tries: small_number(values, "tries"),
        seed: values.get_one("seed").unwrap(),
    })
}

/// The number of an option below 256.
fn small_number(values: &ArgMatches<'_>, id: &str) -> u8
    requires { (n : ℕ) × (n < 256) × HasNumber (rows_of (found_of values.now)) id.now n }
    ensures { (n : ℕ) → HasNumber (rows_of (found_of values.now)) id.now n → result ≡ n }
{
    values.get_one(id).unwrap()
}

/// The kind of recovery that a command is asked about.
fn asked_kind(values: &ArgMatches<'_>) -> Kind
    requires { (kind : Kind) × (first_of (codes "kind") (rows_of (found_of values.now)) ≡ Some (kind_word kind)) }
    ensures { (kind : Kind) → first_of (codes "kind") (rows_of (found_of values.now)) ≡ Some (kind_word kind) → result ≡ kind }
{
    Kind::of_word(values.get_str("kind").unwrap().as_bytes()).unwrap()
}

/// The words of the requested and the held operation, where they are given.
fn asked_pair<'a>(values: &ArgMatches<'a>) -> Option<(&'a str, &'a str)>
    ensures { (pair : Option (Text × Text)) → unwrap_or (all_of (codes "pair") (rows_of (found_of values.now))) [] ≡ pair_words pair
        → option_map pair_of result ≡ pair }
{
    let words = values.get_strs("pair")?;
    if words.len() == 2 {
        Some((words[0], words[1]))
    } else {
        None
    }
}

/// The first file of a command.
fn file_word<'a>(values: &ArgMatches<'a>) -> &'a str
    requires { (path : Text) × (first_of (codes "path") (rows_of (found_of values.now)) ≡ Some path) }
    ensures { (path : Text) → first_of (codes "path") (rows_of (found_of values.now)) ≡ Some path → result.now ≡ path }
{
    values.get_str("path").unwrap()
}

/// The path of a store's file, where it comes before another file.
fn database_word<'a>(values: &ArgMatches<'a>) -> &'a str
    requires { (path : Text) × (first_of (codes "database") (rows_of (found_of values.now)) ≡ Some path) }
    ensures { (path : Text) → first_of (codes "database") (rows_of (found_of values.now)) ≡ Some path → result.now ≡ path }
{
    values.get_str("database").unwrap()
}

/// The key of a transaction.
fn key_word<'a>(values: &ArgMatches<'a>) -> &'a str
    requires { (key : Text) × (first_of (codes "key") (rows_of (found_of values.now)) ≡ Some key) }
    ensures { (key : Text) → first_of (codes "key") (rows_of (found_of values.now)) ≡ Some key → result.now ≡ key }
{
    values.get_str("key").unwrap()
}

/// The words of a command over a store's objects: the first file, and those of the types.
fn store_words<'a>(
    alloc: Global,
    values: &ArgMatches<'a>,
) -> Result<(&'a str, Vec<&'a str>), AllocError>
    requires { (path : Text) × (types : List Text) × HasStoreRows (rows_of (found_of values.now)) path types }
    ensures { (path : Text) (types : List Text) → HasStoreRows (rows_of (found_of values.now)) path types
        → IfOk result (λ words. (words.0.now ≡ path) × (texts words.1.items ≡ types)) }
{
    let types = values.get_strs("types").unwrap_or(&[]);
    Ok((values.get_str("path").unwrap(), types.to_vec(alloc)?))
}

fn fault_of(alloc: Global, error: &Error) -> WordFault
    ensures { kind_of error.now ≡ ErrorKind.OutOfMemory → result ≡ WordFault.NoMemory }
{
    if error.kind() == ErrorKind::OutOfMemory {
        return WordFault::NoMemory;
    }
    match error.to_string(alloc) {
        Ok(text) => WordFault::Usage { text },
        Err(_) => WordFault::NoMemory,
    }
}
