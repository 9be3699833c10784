//! `outcome`: what became of the transaction that has a key.

ghost use Rattle.std.specs.Prelude.{◌≡◌, ⊤, Err, IfErr, IfNone, IfOk, IfSome, None, false, true};
ghost use Rattle.std.specs.List.{list_any};
ghost use Rattle.outputs.specs.Out.{Puts};
ghost use Rattle.transaction_key.specs.TransactionKey.{is_transaction_key};
ghost use Rattle.command_files.specs.Answers.{Comes, IsEarlyFault};
ghost use Rattle.command_files.specs.declared.fault.Fault.TheVariants.{BadParameter, NoMemory};
ghost use Rattle.key_commands.specs.Held.{has_key};
ghost use Rattle.key_commands.specs.Outcome.{TellsOutcome, committed_text, fate_by, fate_text, fate_verdict};
ghost use Rattle.key_commands.specs.Keys.{outcome_for};

use crate::reading::{Reading, read_at};
use command_files::{Fault, Verdict, put_answer};
use database_files::Databases;
use journal::{KeyedOutcome, Outcome, Prepared};
use outputs::{Out, OutFault, Sink, put, put_all};
use std::alloc::Global;
use transaction_key::TransactionKey;

/// What became of the transaction that has a key.
#[derive(Drop)]
pub(crate) enum Fate {
    /// It is prepared, and not decided.
    Prepared,
    /// It has ended so.
    Ended(Outcome),
    /// The file knows nothing of it.
    Unknown,
}

/// What is answered.
#[derive(Drop)]
struct Told {
    verdict: Verdict,
    text: Vec<u8>,
}

/// `outcome DATABASE KEY`: one line that says what became of the transaction that has this key. Nothing of the file
/// changes.
///
/// # Errors
///
/// `BadParameter` where KEY is none, and then nothing is opened; the database isn't opened or isn't one of a store, memory
/// was refused, or the output failed.
pub fn tell_outcome<'a, D: Databases, W: Out>(
    alloc: Global,
    path: &'a str,
    key: &str,
    databases: &mut D,
    out: &mut W,
) -> Result<Verdict, Fault<'a>>
    requires { W.fault out.old ≡ None }
    ensures comes { Comes (TellsOutcome (D.is_clean databases.new) (D.holds databases.old path.now) (D.holds databases.new path.now) key.now) ⊤ result (W.taken out.old) (W.taken out.new) }
    ensures no_key { is_transaction_key key.now ≡ false → result ≡ Err BadParameter }
{
    match key_of(key) {
        Some(key) => {
            let told = told_at(alloc, path, &key, databases)?;
            put_answer(told.verdict, &told.text, out)
        }
        None => Err(Fault::BadParameter),
    }
}

/// The key that a word is, where it is one.
fn key_of(word: &str) -> Option<TransactionKey>
    ensures found { IfSome result (λ key. (key ≡ word.now) × (is_transaction_key word.now ≡ true)) }
    ensures none { IfNone result (is_transaction_key word.now ≡ false) }
{
    TransactionKey::from_bytes(word.as_bytes())
}

/// What the store at a path says of a key.
fn told_at<'a, D: Databases>(
    alloc: Global,
    path: &'a str,
    key: &TransactionKey,
    databases: &mut D,
) -> Result<Told, Fault<'a>>
    requires { is_transaction_key key.now ≡ true }
    ensures told { IfOk result (λ told. TellsOutcome (D.is_clean databases.new) (D.holds databases.old path.now) (D.holds databases.new path.now) key.now told.verdict told.text.items) }
    ensures refused { IfErr result (IsEarlyFault ⊤) }
{
    let reading = read_at(alloc, path, Some(key), databases)?;
    let fate = fate_of(reading, key);
    let text = text_of(alloc, &fate)?;
    let verdict = verdict_of(&fate);
    Ok(Told { verdict, text })
}

/// What became of the transaction that has this key, by what was read.
fn fate_of(reading: Reading, key: &TransactionKey) -> Fate
    ensures { result ≡ fate_by (list_any (has_key key.now) reading.held.items) (outcome_for key.now reading.kept) }
{
    let Reading { held, kept, .. } = reading;
    if is_prepared(&held, key) {
        return Fate::Prepared;
    }
    match outcome_for(kept, key) {
        Some(outcome) => Fate::Ended(outcome),
        None => Fate::Unknown,
    }
}

/// Whether one of these is prepared under this key.
fn is_prepared(held: &[Prepared], key: &TransactionKey) -> bool
    ensures { result ≡ list_any (has_key key.now) held.now }
{
    held.iter().any(|one| one.key == *key)
}

/// What is kept at the key's place, where it is of this key.
fn outcome_for(kept: Option<KeyedOutcome>, key: &TransactionKey) -> Option<Outcome>
    ensures { result ≡ outcome_for key.now kept }
{
    let Some(kept) = kept else {
        return None;
    };
    if kept.key == *key {
        return Some(kept.outcome);
    }
    None
}

/// No where nothing is known.
fn verdict_of(fate: &Fate) -> Verdict
    ensures { result ≡ fate_verdict fate.now }
{
    match fate {
        Fate::Prepared | Fate::Ended(_) => Verdict::Yes,
        Fate::Unknown => Verdict::No,
    }
}

/// The line of it.
fn text_of<'a>(alloc: Global, fate: &Fate) -> Result<Vec<u8>, Fault<'a>>
    ensures text { IfOk result (λ text. text.items ≡ fate_text fate.now) }
    ensures failed { IfErr result (λ fault. fault ≡ NoMemory) }
{
    let mut text = Sink::new(Vec::new(alloc));
    match put_fate(&mut text, fate) {
        Ok(()) => Ok(text.into_inner()),
        Err(_) => Err(Fault::NoMemory),
    }
}

/// Writes the line of it.
fn put_fate<W: Out>(out: &mut W, fate: &Fate) -> Result<(), OutFault>
    requires { W.fault out.old ≡ None }
    ensures { Puts (W.taken out.old) (W.taken out.new) (W.fault out.new) (fate_text fate.now) result }
{
    match fate {
        Fate::Prepared => put(out, b"prepared\n"),
        Fate::Ended(Outcome::Committed(replies)) => put_committed(out, replies.as_bytes()),
        Fate::Ended(Outcome::Aborted) => put(out, b"aborted\n"),
        Fate::Unknown => put(out, b"unknown\n"),
    }
}

/// Writes that it is committed, and the replies, of which there may be none.
fn put_committed<W: Out>(out: &mut W, replies: &[u8]) -> Result<(), OutFault>
    requires { W.fault out.old ≡ None }
    ensures { Puts (W.taken out.old) (W.taken out.new) (W.fault out.new) (committed_text replies.now) result }
{
    if replies.is_empty() {
        return put_all(out, &[b"committed", b"\n"]);
    }
    put_all(out, &[b"committed", b" ", replies, b"\n"])
}
