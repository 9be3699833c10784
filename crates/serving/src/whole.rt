//! A whole transaction, asked for by one line.

ghost use Rattle.std.specs.Prelude.{◌≡◌, List, [], ◌∷◌, false, Some, IfOk, OnOk};
ghost use Rattle.journal.specs.Journal.{Clean, written};
ghost use Rattle.durable_store.specs.Durable.{IsDurable};
ghost use Rattle.attempts.specs.Commands.{asked_call, asked_calls};
ghost use Rattle.request_text.specs.Requests.{calls_asked};
ghost use Rattle.request_text.specs.declared.request.AskedCall.{AskedCall as Asked};
ghost use Rattle.serving.specs.Does.{is_epoch_full};
ghost use Rattle.serving.specs.Follows.{LeavesWritten};
ghost use Rattle.serving.specs.Server.{KeepsAll, StaysInEpoch, begins_until};
ghost use Rattle.serving.specs.Several.{DoesDo, InTurn, IsCallAt, TellsAttempt, TellsReplies, ended_answer, found_reply, replies_of};

use crate::answer_line::AnswerLine;
use crate::names::Names;
use crate::reads::found_reply;
use crate::session::{Session, is_full};
use attempts::{Attempt, AttemptCall, Ending};
use journal::JournalError;
use objects::Object;
use request_text::{AskedCall, call_asked, calls_asked};
use sqlite_trees::store::Alter;
use std::alloc::{AllocError, Global};
use store::Store;
use type_table::Operation;

impl<S: Alter> Session<S> {
    /// Does the whole transaction that a line asks for.
    ///
    /// # Errors
    ///
    /// As `ask`.
    pub(crate) fn do_calls(
        &mut self,
        alloc: Global,
        line: &[u8],
    ) -> Result<AnswerLine, JournalError>
        requires { IsDurable S.Store self.old.store }
        ensures does { IfOk result (λ a. DoesDo (Clean S.Store self.new.store.journal) (begins_until self.old) self.old.names (written S.Store self.old.store.journal).objects self.old.store.store (calls_asked line.now) a self.new.store.store) }
        ensures keyless { OnOk result (KeepsAll S.Store self.old.store self.new.store) }
        ensures stays_in_epoch { OnOk result (StaysInEpoch S.Store self.old self.new) }
        ensures waits { self.new.waiting ≡ self.old.waiting }
        ensures clean { Clean S.Store self.new.store.journal → Clean S.Store self.old.store.journal }
        ensures crash { LeavesWritten S.Store self.old.store self.new.store }
    {
        // one call alone needs no memory
        if let Some(call) = call_asked(line) {
            return self.attempt(alloc, &[call]);
        }
        let calls = calls_asked(alloc, line)?;
        self.attempt(alloc, &calls)
    }

    /// Does a whole transaction of these calls, but for an epoch that is full where what is open can't go over. That it is done is to be answered only once it
    /// is settled.
    ///
    /// # Errors
    ///
    /// As `ask`.
    pub(crate) fn attempt(
        &mut self,
        alloc: Global,
        calls: &[AskedCall],
    ) -> Result<AnswerLine, JournalError>
        requires { IsDurable S.Store self.old.store }
        ensures does { IfOk result (λ a. DoesDo (Clean S.Store self.new.store.journal) (begins_until self.old) self.old.names (written S.Store self.old.store.journal).objects self.old.store.store calls.now a self.new.store.store) }
        ensures keyless { OnOk result (KeepsAll S.Store self.old.store self.new.store) }
        ensures stays_in_epoch { OnOk result (StaysInEpoch S.Store self.old self.new) }
        ensures waits { self.new.waiting ≡ self.old.waiting }
        ensures clean { Clean S.Store self.new.store.journal → Clean S.Store self.old.store.journal }
        ensures crash { LeavesWritten S.Store self.old.store self.new.store }
    {
        let limit = self.limit();
        if is_full(self.store.store(), limit) {
            return Ok(AnswerLine::Draining);
        }
        if let [call] = calls {
            let made = self.call_at(call);
            return self.attempt_at(alloc, &[made]);
        }
        let made = self.calls_at(alloc, calls)?;
        self.attempt_at(alloc, &made)
    }

    /// Does a whole transaction of these calls, in an epoch that isn't full.
    ///
    /// # Errors
    ///
    /// As `ask`.
    fn attempt_at(
        &mut self,
        alloc: Global,
        calls: &[AttemptCall],
    ) -> Result<AnswerLine, JournalError>
        requires { IsDurable S.Store self.old.store }
        ensures does { IfOk result (λ a. (asked : List Asked) → InTurn (IsCallAt (Clean S.Store self.old.store.journal) (written S.Store self.old.store.journal).objects) asked (asked_calls calls.now)
            → is_epoch_full (begins_until self.old) self.old.store.store ≡ false
            → DoesDo (Clean S.Store self.new.store.journal) (begins_until self.old) self.old.names (written S.Store self.old.store.journal).objects self.old.store.store asked a self.new.store.store) }
        ensures keyless { OnOk result (KeepsAll S.Store self.old.store self.new.store) }
        ensures stays_in_epoch { OnOk result (StaysInEpoch S.Store self.old self.new) }
        ensures waits { self.new.waiting ≡ self.old.waiting }
        ensures clean { Clean S.Store self.new.store.journal → Clean S.Store self.old.store.journal }
        ensures crash { LeavesWritten S.Store self.old.store self.new.store }
    {
        let came = self.store.attempt(alloc, calls)?;
        let answer = attempt_answer(alloc, self.store.store(), &self.names, calls, &came)?;
        Ok(answer)
    }

    /// This call at the object that its word says.
    fn call_at<'a>(&self, call: &'a AskedCall) -> AttemptCall<'a>
        requires { IsDurable S.Store self.now.store }
        ensures { IsCallAt (Clean S.Store self.now.store.journal) (written S.Store self.now.store.journal).objects call.now (asked_call result) }
    {
        AttemptCall {
            at: self.number_of(call.x),
            name: call.call.as_bytes(),
        }
    }

    /// These calls at the objects that their words say.
    ///
    /// # Errors
    ///
    /// Memory was refused.
    pub(crate) fn calls_at<'a>(
        &self,
        alloc: Global,
        calls: &'a [AskedCall],
    ) -> Result<Vec<AttemptCall<'a>>, AllocError>
        requires { IsDurable S.Store self.now.store }
        ensures { IfOk result (λ made. InTurn (IsCallAt (Clean S.Store self.now.store.journal) (written S.Store self.now.store.journal).objects) calls.now (asked_calls made.items)) }
    {
        let mut made = Vec::with_capacity(alloc, calls.len())?;
        for at in 0..calls.len() {
            made.push_reserved(AttemptCall {
                at: self.number_of(calls[at].x),
                name: calls[at].call.as_bytes(),
            });
        }
        Ok(made)
    }
}

/// What is told of what came of a whole transaction with these calls.
///
/// # Errors
///
/// Memory was refused.
fn attempt_answer(
    alloc: Global,
    store: &Store<Object>,
    names: &Names,
    calls: &[AttemptCall],
    came: &Attempt,
) -> Result<AnswerLine, AllocError>
    ensures { IfOk result (λ a. TellsAttempt store.now names.now (asked_calls calls.now) came.now a) }
{
    match came {
        Attempt::Done(operations) => done_answer(alloc, store, calls, operations),
        Attempt::Ended { at, how } => Ok(ended_answer(names, *at, *how)),
        Attempt::NotBegun(refusal) => Ok(AnswerLine::Refused { refusal: *refusal }),
    }
}

/// The replies of these operations, one for each call: of one alone it needs no memory.
///
/// # Errors
///
/// Memory was refused.
fn done_answer(
    alloc: Global,
    store: &Store<Object>,
    calls: &[AttemptCall],
    operations: &[Operation],
) -> Result<AnswerLine, AllocError>
    ensures { IfOk result (λ a. TellsReplies (replies_of store.now (asked_calls calls.now) operations.now) a) }
{
    if let [call] = calls
        && let [k] = operations
    {
        return Ok(reply_answer(store, call.at, *k));
    }
    replies_answer(alloc, store, calls, operations)
}

/// The reply of an operation at x.
fn reply_answer(store: &Store<Object>, x: u32, k: Operation) -> AnswerLine
    ensures { TellsReplies (found_reply store.now x (Some k) ∷ []) result }
{
    match found_reply(store, x, Some(k)) {
        Some(reply) => AnswerLine::CompletedOne { reply },
        None => AnswerLine::Nothing,
    }
}

/// The replies of these operations, one for each call.
///
/// # Errors
///
/// Memory was refused.
fn replies_answer(
    alloc: Global,
    store: &Store<Object>,
    calls: &[AttemptCall],
    operations: &[Operation],
) -> Result<AnswerLine, AllocError>
    ensures { IfOk result (λ a. TellsReplies (replies_of store.now (asked_calls calls.now) operations.now) a) }
{
    let count = calls.len().min(operations.len());
    let mut replies = Vec::with_capacity(alloc, count)?;
    for at in 0..count {
        match found_reply(store, calls[at].at, Some(operations[at])) {
            Some(reply) => replies.push_reserved(reply),
            None => return Ok(AnswerLine::Nothing),
        }
    }
    Ok(AnswerLine::Completed { replies })
}

/// What is answered where the call at this place ended it.
pub(crate) fn ended_answer(names: &Names, at: usize, how: Ending) -> AnswerLine
    ensures { result ≡ ended_answer names.now at how }
{
    match how {
        Ending::Busy(number) => AnswerLine::BusyAt {
            at,
            blocker: names.name_of(number),
        },
        Ending::None => AnswerLine::NothingAt { at },
        Ending::Refused(refusal) => AnswerLine::RefusedAt { at, refusal },
    }
}
