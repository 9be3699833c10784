ghost use Rattle.std.specs.Prelude.{◌≡◌};
ghost use Rattle.serving.specs.Told.{is_lasting};

use journal::{Outcome, Prepared, ReplyText, TypeText};
use object_trait::EventKind;
use request_text::{RequestFault, TransactionName};
use serial_order::Refusal;
use store::PeekRefusal;
use store_text::ObjectLine;
use type_table::Name;

/// What a request is answered: a line, or several, one after another.
#[derive(Drop)]
pub enum AnswerLine {
    /// It is done.
    Done,
    /// A commit is done, which is answered only once it is durable.
    Committed,
    /// A transaction began.
    Begun {
        t: TransactionName,
    },
    /// The state of an object.
    State {
        state: u32,
    },
    /// The reply of a call.
    Reply {
        reply: Name,
    },
    /// Each legal operation of a call conflicts with one that another transaction holds; this one holds what the
    /// first conflicts with.
    Busy {
        blocker: TransactionName,
    },
    /// No further transaction begins in this epoch.
    Draining,
    /// No operation of a call is legal.
    Nothing,
    /// How many events there are, how many transactions have begun, how many of these are open, and how many are prepared.
    Counts {
        events: u32,
        begun: u32,
        open: u32,
        prepared: usize,
    },
    /// The objects, in their order, and that these are all.
    Objects {
        objects: Vec<ObjectLine>,
    },
    /// The texts of the types, by their places, and that these are all.
    Types {
        texts: Vec<TypeText>,
    },
    /// Events one after another, and that these are all.
    Events {
        events: Vec<EventKind>,
    },
    /// Objects were added, which is answered only once it is durable; this is the number of the first.
    Extended {
        first: u32,
    },
    /// The number of the object of a name.
    Found {
        x: u32,
    },
    /// What calls are answered to a transaction that only reads, all at this moment: it is answered only once the commits
    /// before it are durable.
    Seen {
        moment: Moment,
        replies: Vec<Name>,
    },
    /// Committed states, all of this moment, which is answered only then too.
    SeenStates {
        moment: Moment,
        states: Vec<u32>,
    },
    /// No operation of the call at this place is legal there, which is answered only once what was seen is durable.
    NothingSeen {
        at: usize,
    },
    /// Such a transaction isn't answered.
    Unseen {
        refusal: PeekRefusal,
    },
    /// The replies of the calls of a whole transaction, which is answered only once it is durable.
    Completed {
        replies: Vec<Name>,
    },
    /// The same of one that has one call: its reply.
    CompletedOne {
        reply: Name,
    },
    /// The call at this place ended a whole transaction: each of its legal operations conflicts, as `Busy` says.
    BusyAt {
        at: usize,
        blocker: TransactionName,
    },
    /// No operation of the call at this place is legal, which ended one.
    NothingAt {
        at: usize,
    },
    /// The store refused the call at this place, which ended one.
    RefusedAt {
        at: usize,
        refusal: Refusal,
    },
    /// The replies of a whole transaction under a key, done now or before, which is answered only once it is durable.
    Replied {
        replies: ReplyText,
    },
    /// Nothing is done under a key, which is answered only once what is known of it is durable.
    KeyRefused {
        why: KeyRefusal,
    },
    /// What became of the transaction that has a key, where it is known, which is answered only once that is durable.
    OutcomeIs {
        outcome: Option<Outcome>,
    },
    /// A transaction is prepared under the key, of which that is asked: answered only once it is durable.
    OutcomePrepared,
    /// A transaction is prepared now, which is answered only once it is durable.
    Voted,
    /// It was prepared under this key before, which is answered only once that is durable.
    VotedBefore,
    /// It is decided so, now or before, which is answered only once that is durable.
    Decided,
    /// The transaction is prepared: only a decision ends it.
    IsPrepared,
    /// The transactions that are prepared, in the order in which they were, and that these are all: answered only once they
    /// are durable.
    Held {
        prepared: Vec<HeldTransaction>,
    },
    /// What was asked for isn't added.
    NotAdded {
        why: Vec<u8>,
    },
    /// What was asked for waits for another epoch. The client is told nothing of it before that.
    Waiting,
    /// The store refused it.
    Refused {
        refusal: Refusal,
    },
    /// The line is no request.
    Fault {
        fault: RequestFault,
    },
}

/// A transaction that is prepared, and the numbers of the objects at which it holds operations, ascending.
#[derive(Drop)]
pub struct HeldTransaction {
    pub prepared: Prepared,
    pub objects: Vec<u32>,
}

/// Why nothing is done under a key.
#[derive(Clone, Copy)]
pub enum KeyRefusal {
    /// Its transaction is aborted.
    Aborted,
    /// Its transaction has committed.
    Committed,
    /// Its transaction is prepared.
    Prepared,
    /// It was decided otherwise.
    Decided,
    /// Nobody is prepared under it.
    Unknown,
    /// Its place is another key's.
    Taken,
}

/// A moment of a store, between two commits. Of two of them that with the greater life is later, and in one life that with
/// more commits.
#[derive(Clone, Copy)]
pub struct Moment {
    /// The number of the store's life, as in the name of a transaction.
    pub life: u32,
    /// How many transactions have committed in this epoch.
    pub commits: u32,
}

/// An answer and the tag of its request, where that had one.
#[derive(Drop)]
pub struct Answered {
    pub tag: Option<Name>,
    pub answer: AnswerLine,
}

/// Whether it says that something is done which no crash takes away.
pub(crate) fn is_lasting(answer: &AnswerLine) -> bool
    ensures { result ≡ is_lasting answer.now }
{
    matches!(
        answer,
        AnswerLine::Committed
            | AnswerLine::Extended { .. }
            | AnswerLine::Seen { .. }
            | AnswerLine::SeenStates { .. }
            | AnswerLine::NothingSeen { .. }
            | AnswerLine::Completed { .. }
            | AnswerLine::CompletedOne { .. }
            | AnswerLine::Replied { .. }
            | AnswerLine::KeyRefused { .. }
            | AnswerLine::OutcomeIs { .. }
            | AnswerLine::OutcomePrepared
            | AnswerLine::Voted
            | AnswerLine::VotedBefore
            | AnswerLine::Decided
            | AnswerLine::Held { .. }
    )
}
