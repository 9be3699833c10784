//! The words of `serve`.
ghost use Rattle.std.specs.Prelude.{◌≡◌, ◌<◌, ◌^◌, ℕ, Some, None, true, false, IfOk, IfErr, IfNone, IfSome, IsSome};
ghost use Rattle.clap.specs.Walk.{texts};
ghost use Rattle.command_words.specs.Lines.{SpellsNumber, IsPlain};
ghost use Rattle.command_words.specs.Serve.{AreWhole, ServeParts, Say, SayServe, Serve, said_by};
ghost use Rattle.command_words.specs.declared.serve.Parts.{Parts as Found};
ghost use Rattle.command_words.specs.Words.{OnUsage, asked_of};
ghost use Rattle.command_words.specs.Words as asked;

use crate::{Task, Topic, WordFault};
use std::alloc::Global;

/// How many seconds what is open may go on in an epoch that is full, where the words don't say it.
const DRAIN: u32 = 5;

/// How many of the last outcomes of keys stay at least, where the words don't say it.
const OUTCOMES: u32 = 1_000_000;

/// What is said of words after `serve` that aren't those of the command.
const USAGE: &str = "\
error: the words after serve are [--fast] [--archive FOLDER] [--drain S]
[--outcomes N] DATABASE, each at most once

Usage: colock serve [--fast] [--archive FOLDER] [--drain S] [--outcomes N]
                    DATABASE

For more information, try '--help'.
";

/// What some of the words say.
#[derive(Clone, Copy)]
struct Parts<'a> {
    database: Option<&'a str>,
    fast: bool,
    archive: Option<&'a str>,
    drain: Option<u32>,
    outcomes: Option<u32>,
}

/// Reads the words after `serve`.
pub(crate) fn read_serve<'a>(alloc: Global, words: &[&'a str]) -> Result<Task<'a>, WordFault>
    ensures taken { IfOk result (λ task. (s : Serve) × (asked_of task ≡ asked.serve s) × SayServe (texts words.now) s) }
    ensures refused { IfErr result (λ fault. OnUsage fault ((s : Serve) → ¬ (SayServe (texts words.now) s))) }
{
    match parts_of(words) {
        Some(parts) => match task_of(parts) {
            Some(task) => Ok(task),
            None => Err(fault_of(alloc, words)),
        },
        None => Err(fault_of(alloc, words)),
    }
}

/// The task of these parts, where they have the path of the store.
fn task_of(parts: Parts<'_>) -> Option<Task<'_>>
    ensures whole { IfSome result (λ task. (s : Serve) × (asked_of task ≡ asked.serve s) × AreWhole (said_by parts.entry) s) }
    ensures other { IfNone result (parts.entry.database ≡ None) }
{
    let Parts {
        database,
        fast,
        archive,
        drain,
        outcomes,
    } = parts;
    match database {
        Some(database) => Some(Task::Serve {
            database,
            fast,
            archive,
            drain: drain.unwrap_or(DRAIN),
            outcomes: outcomes.unwrap_or(OUTCOMES),
        }),
        None => None,
    }
}

/// What the words say, in any order.
fn parts_of<'a>(words: &[&'a str]) -> Option<Parts<'a>>
    ensures said { IfSome result (λ p. Say (texts words.now) (said_by p)) }
    ensures other { IfNone result ((p : ServeParts) → ¬ (Say (texts words.now) p)) }
{
    let Some((word, behind)) = words.split_first() else {
        return Some(Parts {
            database: None,
            fast: false,
            archive: None,
            drain: None,
            outcomes: None,
        });
    };
    if *word == "--fast" {
        return with_fast(parts_of(behind));
    }
    if is_plain(word) {
        return with_database(word, parts_of(behind));
    }
    let (value, rest) = behind.split_first()?;
    match *word {
        "--archive" => with_archive(value, parts_of(rest)),
        "--drain" => with_drain(value, parts_of(rest)),
        "--outcomes" => with_outcomes(value, parts_of(rest)),
        "--" => with_database(value, parts_of(rest)),
        _ => None,
    }
}

/// The same, with `--fast`.
fn with_fast(parts: Option<Parts<'_>>) -> Option<Parts<'_>>
    ensures said { IfSome result (λ p. (q : Found) × (parts.entry ≡ Some q) × (q.fast ≡ false) × (p ≡ record q { fast = true })) }
    ensures other { IfNone result (IfSome parts.entry (λ q. q.fast ≡ true)) }
{
    match parts {
        Some(parts) if !parts.fast => Some(Parts {
            fast: true,
            ..parts
        }),
        _ => None,
    }
}

/// The same, with the folder of an archive.
fn with_archive<'a>(folder: &'a str, parts: Option<Parts<'a>>) -> Option<Parts<'a>>
    ensures said { IfSome result (λ p. (q : Found) × (parts.entry ≡ Some q) × (q.archive ≡ None) × (p ≡ record q { archive = Some folder.entry })) }
    ensures other { IfNone result (IfSome parts.entry (λ q. IsSome q.archive)) }
{
    match parts {
        Some(parts) if parts.archive.is_none() => Some(Parts {
            archive: Some(folder),
            ..parts
        }),
        _ => None,
    }
}

/// The same, with these seconds to drain.
fn with_drain<'a>(seconds: &str, parts: Option<Parts<'a>>) -> Option<Parts<'a>>
    ensures said { IfSome result (λ p. (q : Found) × (n : ℕ) × (parts.entry ≡ Some q) × (q.drain ≡ None) × SpellsNumber seconds.now n × (n < 2 ^ 32) × (p ≡ record q { drain = Some n })) }
    ensures other { IfNone result (IfSome parts.entry (λ q. q.drain ≡ None → (n : ℕ) → n < 2 ^ 32 → ¬ (SpellsNumber seconds.now n))) }
{
    match parts {
        Some(parts) if parts.drain.is_none() => Some(Parts {
            drain: Some(number_of(seconds)?),
            ..parts
        }),
        _ => None,
    }
}

/// The same, with this number of outcomes that stay.
fn with_outcomes<'a>(least: &str, parts: Option<Parts<'a>>) -> Option<Parts<'a>>
    ensures said { IfSome result (λ p. (q : Found) × (n : ℕ) × (parts.entry ≡ Some q) × (q.outcomes ≡ None) × SpellsNumber least.now n × (n < 2 ^ 32) × (p ≡ record q { outcomes = Some n })) }
    ensures other { IfNone result (IfSome parts.entry (λ q. q.outcomes ≡ None → (n : ℕ) → n < 2 ^ 32 → ¬ (SpellsNumber least.now n))) }
{
    match parts {
        Some(parts) if parts.outcomes.is_none() => Some(Parts {
            outcomes: Some(number_of(least)?),
            ..parts
        }),
        _ => None,
    }
}

/// The number of a text.
fn number_of(text: &str) -> Option<u32>
    ensures number { IfSome result (SpellsNumber text.now) }
    ensures other { IfNone result ((n : ℕ) → n < 2 ^ 32 → ¬ (SpellsNumber text.now n)) }
{
    text.parse().ok()
}

/// The same, with the path of the store.
fn with_database<'a>(path: &'a str, parts: Option<Parts<'a>>) -> Option<Parts<'a>>
    ensures said { IfSome result (λ p. (q : Found) × (parts.entry ≡ Some q) × (q.database ≡ None) × (p ≡ record q { database = Some path.entry })) }
    ensures other { IfNone result (IfSome parts.entry (λ q. IsSome q.database)) }
{
    match parts {
        Some(parts) if parts.database.is_none() => Some(Parts {
            database: Some(path),
            ..parts
        }),
        _ => None,
    }
}

/// Whether the word begins with no hyphen.
pub(crate) fn is_plain(word: &str) -> bool
    ensures plain { result ≡ true → IsPlain word.now }
    ensures other { result ≡ false → ¬ (IsPlain word.now) }
{
    word.as_bytes().first() != Some(&b'-')
}

/// What is said of words that aren't those of the command.
fn fault_of(alloc: Global, words: &[&str]) -> WordFault {
    let text = if words.iter().any(|word| asks_help(word)) {
        Topic::Serve.text()
    } else {
        USAGE
    };
    match String::from_str(alloc, text) {
        Ok(text) => WordFault::Usage { text },
        Err(_) => WordFault::NoMemory,
    }
}

/// Whether the word calls for help.
pub(crate) fn asks_help(word: &str) -> bool {
    word == "--help" || word == "-h"
}
