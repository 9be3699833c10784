//! What became of a transaction that has a key, as a row.

ghost use Rattle.std.specs.Prelude.{◌≡◌, ◌+◌, ◌<◌, ◌^◌, false, IfOk, IfSome, OnOk};
ghost use Rattle.sqlite_value.specs.Order.{column};
ghost use Rattle.sqlite_value.specs.declared.value.Value.TheVariants.{Text};
ghost use Rattle.sqlite_trees.specs.Tree.{Trees, put_row};
ghost use Rattle.sqlite_trees.specs.View.{IsClean, KeepsSchema, SetsTree};
ghost use Rattle.journal.specs.OutcomeIndex.{outcome_numbered, numbered_from};
ghost use Rattle.journal.specs.OutcomeRow.{outcome_replies, outcome_row, outcome_told, outcome_word};

use crate::cells::{begin_row, is_text, long_number, rowid_of, text_in};
use crate::contents::OUTCOMES;
use crate::journal_error::JournalError;
use crate::table::MOST_ROWS;
use sqlite_trees::store::{Shape, Store};
use sqlite_value::row::Row;
use sqlite_value::value::ValueRef;
use std::alloc::{AllocError, Global};
use std::marker::Model;
use transaction_key::TransactionKey;

// the columns after that of the position
pub const KEY: usize = 2;

const HOW: usize = 3;

const REPLIES: usize = 4;

pub const NUMBER: usize = 5;

/// Places of keys are below it. The row of an outcome has the rowid of this and its number.
pub const NUMBERED_FROM: u64 = MOST_ROWS;

/// What became of a transaction that has a key.
#[derive(Drop)]
pub enum Outcome {
    /// It is committed, and these are the replies that its one call gave; none where it was committed alone.
    Committed(ReplyText),
    /// It is aborted.
    Aborted,
}

/// Replies, one space between two. Contracts see the bytes.
#[derive(Drop)]
pub struct ReplyText {
    text: Vec<u8>,
}

impl Model for ReplyText {
    ghost use Rattle.std.specs.Prelude.{ℕ, List};

    ghost Value = { List ℕ };

    ghost view = { λ t. t.text.items };
}

impl ReplyText {
    /// These bytes.
    pub fn new(text: Vec<u8>) -> ReplyText
        ensures { result ≡ text.items }
    {
        ReplyText { text }
    }

    /// The bytes.
    pub fn as_bytes(&self) -> &[u8]
        ensures { result.now ≡ self.now }
    {
        &self.text
    }
}

impl Outcome {
    /// The word of it.
    fn word(&self) -> &[u8]
        ensures { result.now ≡ outcome_word self.now }
    {
        match self {
            Outcome::Committed(_) => b"committed".as_slice(),
            Outcome::Aborted => b"aborted".as_slice(),
        }
    }

    /// The replies, of which there are none where it is aborted.
    fn replies(&self) -> &[u8]
        ensures { result.now ≡ outcome_replies self.now }
    {
        match self {
            Outcome::Committed(replies) => replies.as_bytes(),
            Outcome::Aborted => b"".as_slice(),
        }
    }
}

/// A key, and what became of the transaction that has it.
#[derive(Drop)]
pub struct KeyedOutcome {
    pub key: TransactionKey,
    pub outcome: Outcome,
}

/// What is kept of a transaction, and which it was of all that were ever kept in the file: the first is 1, and 0 says that a
/// program kept it which numbered none.
#[derive(Drop)]
pub struct KeptOutcome {
    pub kept: KeyedOutcome,
    pub number: u64,
}

/// Writes an outcome with this number behind those before it. A crash may still take it away.
///
/// # Errors
///
/// The store failed, or memory was refused.
pub fn put_outcome<S: Store>(
    store: &mut S,
    kept: &KeyedOutcome,
    number: u64,
    row: &mut Row,
) -> Result<(), JournalError>
    requires number { (0 < number) × (number < 2 ^ 62) }
    requires shape { IsClean (S.Store.view store.old) → (S.Store.view store.old).shape 6 ≡ Shape.Table }
    ensures ok { OnOk result (IsClean (S.Store.view store.new) → SetsTree (S.Store.view store.old) (S.Store.view store.new) 6 (put_row (outcome_row (numbered_from + number) (record { kept = kept.now; number = number })))) }
    ensures clean { IsClean (S.Store.view store.new) → IsClean (S.Store.view store.old) }
    ensures schema { KeepsSchema (S.Store.view store.old) (S.Store.view store.new) }
    ensures crash { (db : Trees) → S.Store.recovers store.new db → S.Store.recovers store.old db }
{
    fill_outcome(kept, number, row)?;
    store.put(OUTCOMES, row)?;
    Ok(())
}

/// Writes the row of an outcome with this number over `row`.
///
/// # Errors
///
/// Memory was refused.
fn fill_outcome(kept: &KeyedOutcome, number: u64, row: &mut Row) -> Result<(), AllocError>
    requires { (0 < number) × (number < 2 ^ 62) }
    ensures { OnOk result (row.new ≡ outcome_row (numbered_from + number) (record { kept = kept.now; number = number })) }
{
    begin_row(row, NUMBERED_FROM + number)?;
    row.push(ValueRef::Text(kept.key.as_bytes()))?;
    row.push(ValueRef::Text(kept.outcome.word()))?;
    row.push(ValueRef::Text(kept.outcome.replies()))?;
    row.push(ValueRef::Int(rowid_of(number)))
}

/// What a row says is kept, where a store writes such a row.
///
/// # Errors
///
/// Memory was refused.
pub fn read_outcome(alloc: Global, row: &Row) -> Result<Option<KeptOutcome>, AllocError>
    ensures { IfOk result (λ found. IfSome found (λ o. outcome_told row.now ≡ o)) }
{
    let (Some(key), Some(number)) = (key_in(row), long_number(row, NUMBER)) else {
        return Ok(None);
    };
    match outcome_in(alloc, row)? {
        Some(outcome) => {
            let kept = KeyedOutcome { key, outcome };
            Ok(Some(KeptOutcome { kept, number }))
        }
        None => Ok(None),
    }
}

/// The key that a row has, where it is one.
pub fn key_in(row: &Row) -> Option<TransactionKey>
    ensures { IfSome result (λ key. column row.now 2 ≡ Text key) }
{
    TransactionKey::from_bytes(text_in(row, KEY)?)
}

/// What a row says became of it, where it says that.
fn outcome_in(alloc: Global, row: &Row) -> Result<Option<Outcome>, AllocError>
    ensures { IfOk result (λ found. IfSome found (λ outcome. (column row.now 3 ≡ Text (outcome_word outcome)) × (column row.now 4 ≡ Text (outcome_replies outcome)))) }
{
    if is_text(row, HOW, b"aborted") && is_text(row, REPLIES, b"") {
        return Ok(Some(Outcome::Aborted));
    }
    let Some(replies) = text_in(row, REPLIES) else {
        return Ok(None);
    };
    if !is_text(row, HOW, b"committed") {
        return Ok(None);
    }
    let text = Vec::from_slice(alloc, replies)?;
    Ok(Some(Outcome::Committed(ReplyText { text })))
}

/// The outcome with this number, where it is there.
///
/// # Errors
///
/// `Foreign` where there is no such number, or the row is none that a store writes with it; the store failed, or memory was
/// refused.
pub fn numbered_at<S: Store>(
    alloc: Global,
    store: &mut S,
    number: u64,
    row: &mut Row,
) -> Result<Option<KeptOutcome>, JournalError>
    requires shape { IsClean (S.Store.view store.old) → (S.Store.view store.old).shape 6 ≡ Shape.Table }
    ensures found { IfOk result (λ found. IsClean (S.Store.view store.new) → found ≡ outcome_numbered ((S.Store.view store.old).trees 6) number) }
    ensures sound { OnOk result (IsClean (S.Store.view store.new) → (S.Store.view store.old).is_broken ≡ false) }
    ensures same { OnOk result (IsClean (S.Store.view store.new) → S.Store.view store.new ≡ S.Store.view store.old) }
    ensures clean { IsClean (S.Store.view store.new) → IsClean (S.Store.view store.old) }
    ensures schema { KeepsSchema (S.Store.view store.old) (S.Store.view store.new) }
    ensures crash { (db : Trees) → S.Store.recovers store.new db → S.Store.recovers store.old db }
{
    if number >= MOST_ROWS {
        return Err(JournalError::Foreign);
    }
    if !store.get(OUTCOMES, rowid_of(NUMBERED_FROM + number), row)? {
        return Ok(None);
    }
    match read_outcome(alloc, row)? {
        Some(found) => {
            if found.number != number {
                return Err(JournalError::Foreign);
            }
            Ok(Some(found))
        }
        None => Err(JournalError::Foreign),
    }
}
