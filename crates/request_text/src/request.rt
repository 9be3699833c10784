use crate::fault::RequestFault;
use object_name::ObjectName;
use transaction_key::TransactionKey;
use type_table::Name;

/// What a transaction is called outside of its store: the life of the store that began it, and its number
/// in that life's history.
#[derive(Clone, Copy, Debug, PartialEq, Eq)]
pub struct TransactionName {
    pub life: u32,
    pub number: u32,
}

/// Which object is meant: by its number, or by its name.
#[derive(Clone, Copy)]
pub enum ObjectWord {
    Number { x: u32 },
    Name { name: ObjectName },
}

/// A call at an object, of a request that asks for several.
#[derive(Clone, Copy)]
pub struct AskedCall {
    pub x: ObjectWord,
    pub call: Name,
}

/// How a prepared transaction is to end.
#[derive(Clone, Copy)]
pub enum Decision {
    Commit,
    Abort,
}

/// What a client asks of a store.
#[derive(Clone, Copy)]
pub enum Request {
    Begin,
    Call {
        t: TransactionName,
        x: ObjectWord,
        call: Name,
    },
    Would {
        t: TransactionName,
        x: ObjectWord,
        call: Name,
    },
    Commit {
        t: TransactionName,
    },
    /// A commit under a key.
    CommitUnder {
        t: TransactionName,
        key: TransactionKey,
    },
    Abort {
        t: TransactionName,
    },
    Rollback {
        t: TransactionName,
        count: u32,
    },
    Kept {
        x: ObjectWord,
    },
    /// Calls are asked of a transaction that only reads: `calls_asked` are they.
    Peek,
    /// States are asked for: `objects_asked` are the objects.
    Committed,
    /// A whole transaction is asked for: `calls_asked` are its calls.
    Do,
    /// One under a key: `calls_asked` are its calls.
    DoUnder {
        key: TransactionKey,
    },
    /// What became of the transaction that has this key is asked for.
    Outcome {
        key: TransactionKey,
    },
    /// A transaction is to be prepared under a key. The store keeps `until` and doesn't look at it.
    Prepare {
        t: TransactionName,
        key: TransactionKey,
        until: u32,
    },
    /// The transaction that is prepared under this key is to end.
    Decide {
        key: TransactionKey,
        decision: Decision,
    },
    /// The transactions are asked for that are prepared and not decided.
    Prepared,
    /// The number is asked of the object that has this name.
    Find {
        name: ObjectName,
    },
    Objects,
    Types,
    Events {
        from: u32,
        count: u32,
    },
    Stats,
    /// More objects are asked for: `file_words` are the words behind the verb.
    Extend,
    End,
}

/// A line of a client: its tag, with which each line of the answer begins, and its request. A line that is too
/// long, not of ASCII or without a tag has none.
#[derive(Clone, Copy)]
pub struct Asked {
    pub tag: Option<Name>,
    pub request: Result<Request, RequestFault>,
}
