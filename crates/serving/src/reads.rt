//! What a client is answered of committed states.

ghost use Rattle.std.specs.Prelude.{◌≡◌, IfOk};
ghost use Rattle.journal.specs.Journal.{Clean, written};
ghost use Rattle.durable_store.specs.Durable.{IsDurable};
ghost use Rattle.serving.specs.Several.{DoesCommitted, DoesPeek, IsAnsweredThere, moment_of, found_reply};

use crate::answer_line::{AnswerLine, Moment};
use crate::session::Session;
use durable_store::op_at;
use journal::JournalError;
use objects::Object;
use request_text::{AskedCall, ObjectWord};
use serial_order::Refusal;
use sqlite_trees::store::Alter;
use std::alloc::Global;
use store::{PeekRefusal, Store};
use type_table::{Name, Operation};

impl<S: Alter> Session<S> {
    /// What these calls are answered to a transaction that only reads committed states, all of them at this moment. It is
    /// to be answered only once it is settled.
    ///
    /// # Errors
    ///
    /// Memory was refused.
    pub(crate) fn peek(
        &self,
        alloc: Global,
        calls: &[AskedCall],
    ) -> Result<AnswerLine, JournalError>
        requires { IsDurable S.Store self.now.store }
        ensures { IfOk result (λ a. DoesPeek (Clean S.Store self.now.store.journal) self.now.names.life (written S.Store self.now.store.journal).objects self.now.store.store calls.now a self.now.store.store) }
    {
        let mut replies = Vec::with_capacity(alloc, calls.len())?;
        for at in 0..calls.len() {
            match self.peek_at(calls[at]) {
                Ok(Some(reply)) => replies.push_reserved(reply),
                Ok(None) => return Ok(AnswerLine::NothingSeen { at }),
                Err(refusal) => return Ok(AnswerLine::Unseen { refusal }),
            }
        }
        Ok(AnswerLine::Seen {
            moment: self.moment(),
            replies,
        })
    }

    /// The same of one call: its reply, None where no operation is legal.
    ///
    /// # Errors
    ///
    /// Why it isn't answered.
    fn peek_at(&self, call: AskedCall) -> Result<Option<Name>, PeekRefusal>
        requires { IsDurable S.Store self.now.store }
        ensures { IsAnsweredThere (Clean S.Store self.now.store.journal) (written S.Store self.now.store.journal).objects self.now.store.store call result }
    {
        let x = self.number_of(call.x);
        let store = self.store.store();
        match store.peek_bytes(x, call.call.as_bytes()) {
            Ok(found) => Ok(found_reply(store, x, found)),
            Err(refusal) => Err(refusal),
        }
    }

    /// The committed states of these objects, all of them at this moment. It is to be answered only once it is settled.
    ///
    /// # Errors
    ///
    /// Memory was refused.
    pub(crate) fn committed(
        &self,
        alloc: Global,
        objects: &[ObjectWord],
    ) -> Result<AnswerLine, JournalError>
        requires { IsDurable S.Store self.now.store }
        ensures { IfOk result (λ a. DoesCommitted (Clean S.Store self.now.store.journal) self.now.names.life (written S.Store self.now.store.journal).objects self.now.store.store objects.now a self.now.store.store) }
    {
        let mut states = Vec::with_capacity(alloc, objects.len())?;
        for at in 0..objects.len() {
            match self.store.store().committed(self.number_of(objects[at])) {
                Some(state) => states.push_reserved(state),
                None => {
                    return Ok(AnswerLine::Refused {
                        refusal: Refusal::NoObject,
                    });
                }
            }
        }
        Ok(AnswerLine::SeenStates {
            moment: self.moment(),
            states,
        })
    }

    /// The present moment.
    fn moment(&self) -> Moment
        ensures { result ≡ moment_of self.now.names.life self.now.store.store }
    {
        Moment {
            life: self.names.life(),
            commits: self.store.store().commit_count(),
        }
    }
}

/// The reply of an operation of the object at x, where one was found.
pub(crate) fn found_reply(store: &Store<Object>, x: u32, found: Option<Operation>) -> Option<Name>
    ensures { result ≡ found_reply store.now x found }
{
    let op = op_at(store, x, found?)?;
    Some(op.reply)
}
