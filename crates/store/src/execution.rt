//! What an answer changes.

ghost use Rattle.std.specs.Prelude.{◌≡◌, ℕ, ◌<◌, true, map, length, Some, slice_get, OnOk, OnErr};
ghost use Rattle.object_trait.specs.Meaning.{Meaning};
ghost use Rattle.object_trait.specs.Steps.{MayApply};
ghost use Rattle.open_transactions.specs.Transactions.{has_row};
ghost use Rattle.store.specs.Executed.{IsExecuted, IsCommittedAt, ExecutesAnswer};
ghost use Rattle.object_calls.specs.declared.answer.Answer.TheVariants as answered;

use object_calls::Answer;
use object_index::ObjectIndex;
use object_trait::Recovery;
use open_transactions::OpenTransactions;
use std::alloc::AllocError;
use type_table::Operation;

/// Does at object x what an answer to transaction t says: executes the operation of a reply, and nothing else.
///
/// # Errors
///
/// Memory was refused, and nothing has changed.
#[inline(always)]
pub(crate) fn do_answer<R: Recovery>(
    objects: &mut Vec<R>,
    transactions: &mut OpenTransactions,
    t: u32,
    x: ObjectIndex,
    answer: &Answer,
) -> Result<(), AllocError>
    requires inside { x < length objects.old.items }
    requires still_open { has_row transactions.old.rows t ≡ true }
    requires may { (k : ℕ) → answer.now ≡ answered.Reply k → (m : Meaning) → slice_get (map R.meaning objects.old.items) x ≡ Some m → MayApply m t k }
    ensures done { OnOk result (ExecutesAnswer answer.now t x (map R.meaning objects.old.items) (map R.meaning objects.new.items) transactions.old.rows transactions.new.rows) }
    ensures objects { OnErr result (map R.meaning objects.new.items ≡ map R.meaning objects.old.items) }
    ensures rows { OnErr result (transactions.new.rows ≡ transactions.old.rows) }
{
    match *answer {
        Answer::Reply(k) => execute(objects, transactions, t, x, k),
        Answer::Busy(_) | Answer::None => Ok(()),
    }
}

/// Executes operation k of transaction t at object x: one more entry there, and one more place in the
/// transaction's row. All room is made before the first change.
///
/// # Errors
///
/// Memory was refused, and nothing has changed.
#[inline(always)]
pub(crate) fn execute<R: Recovery>(
    objects: &mut Vec<R>,
    transactions: &mut OpenTransactions,
    t: u32,
    x: ObjectIndex,
    k: Operation,
) -> Result<(), AllocError>
    requires inside { x < length objects.old.items }
    requires still_open { has_row transactions.old.rows t ≡ true }
    requires may { (m : Meaning) → slice_get (map R.meaning objects.old.items) x ≡ Some m → MayApply m t k }
    ensures done { OnOk result (IsExecuted t x k (map R.meaning objects.old.items) (map R.meaning objects.new.items) transactions.old.rows transactions.new.rows) }
    ensures objects { OnErr result (map R.meaning objects.new.items ≡ map R.meaning objects.old.items) }
    ensures rows { OnErr result (transactions.new.rows ≡ transactions.old.rows) }
{
    transactions.reserve_place(t)?;
    objects[x.number() as usize].apply(t, k)?;
    transactions.push_place(t, x);
    Ok(())
}

/// Executes operation k of transaction t at object x, and commits t there.
///
/// # Errors
///
/// Memory was refused, and nothing has changed.
#[inline(always)]
pub(crate) fn commit_at<R: Recovery>(
    objects: &mut Vec<R>,
    t: u32,
    x: ObjectIndex,
    k: Operation,
) -> Result<(), AllocError>
    requires inside { x < length objects.old.items }
    requires may { (m : Meaning) → slice_get (map R.meaning objects.old.items) x ≡ Some m → MayApply m t k }
    ensures done { OnOk result (IsCommittedAt t x k (map R.meaning objects.old.items) (map R.meaning objects.new.items)) }
    ensures objects { OnErr result (map R.meaning objects.new.items ≡ map R.meaning objects.old.items) }
{
    objects[x.number() as usize].apply_and_commit(t, k)
}
