//! What the command line asks for, and why its words name no task.

use thiserror::Error as FaultText;
use type_table::Kind;

/// What the command line asks for.
#[derive(Drop)]
pub enum Task<'a> {
    /// Is the type file good for this kind of recovery?
    Check {
        /// The kind of recovery.
        kind: Kind,
        /// The path of the type file.
        path: &'a str,
    },
    /// Why do two operations of the type exclude each other?
    Explain {
        /// The kind of recovery.
        kind: Kind,
        /// The path of the type file.
        path: &'a str,
        /// The requested and the held operation, where this pair alone is asked for.
        pair: Option<(&'a str, &'a str)>,
    },
    /// What is the type file of a family at these parameters?
    Make {
        /// The name of the family.
        family: &'a str,
        /// The cap of an account, a counter or a stock, the capacity of a semiqueue or a queue, how many
        /// seats there are, `0` for a set.
        size: &'a str,
        /// The amounts or the elements.
        items: Vec<&'a str>,
    },
    /// What is the type file with made tables in place of its own?
    Tables {
        /// The path of the type file.
        path: &'a str,
    },
    /// What comes of a script at a store of its objects, and is its history serial?
    Run {
        /// The path of the script.
        script: &'a str,
        /// The paths of the type files, by whose places the script names its objects' types.
        types: Vec<&'a str>,
    },
    /// Is a history serial, with those that follow it?
    Audit {
        /// The path of the first history.
        history: &'a str,
        /// The paths of the histories that follow it, in their order.
        later: Vec<&'a str>,
        /// The paths of the type files, by whose places a history names its objects' types.
        types: Vec<&'a str>,
    },
    /// Is a history legal in this order of its committed transactions?
    AuditOrdered {
        /// The numbers of its committed transactions, in this order.
        order: Vec<u32>,
        /// The path of the history.
        history: &'a str,
        /// The paths of the type files, by whose places a history names its objects' types.
        types: Vec<&'a str>,
    },
    /// What comes of jobs that workers do side by side at a store, and is its history serial?
    Work {
        /// The path of the jobs.
        jobs: &'a str,
        /// The paths of the type files, by whose places the jobs name their objects' types.
        types: Vec<&'a str>,
        /// How many workers there are, from 1 to 16.
        workers: u8,
        /// How often a job is tried at most, from 1 to 100.
        tries: u8,
    },
    /// The same, where the workers take turns by a schedule that is drawn?
    Stress {
        /// The path of the jobs.
        jobs: &'a str,
        /// The paths of the type files, by whose places the jobs name their objects' types.
        types: Vec<&'a str>,
        /// How many workers there are, from 1 to 16.
        workers: u8,
        /// How often a job is tried at most, from 1 to 100.
        tries: u8,
        /// The seed of the schedule.
        seed: u64,
    },
    /// Is the file of a new store made, and of which objects?
    Create {
        /// The path at which it is made.
        database: &'a str,
        /// The path of the objects.
        objects: &'a str,
        /// The paths of the type files, by whose places the objects' types are named.
        types: Vec<&'a str>,
    },
    /// Does the store in a file get more objects, and which?
    Extend {
        /// The path of the store.
        database: &'a str,
        /// The path of the objects.
        objects: &'a str,
        /// The paths of the type files, by whose places the objects' types are named.
        types: Vec<&'a str>,
    },
    /// What does the store in a file answer to the requests on standard input?
    Serve {
        /// The path of the store.
        database: &'a str,
        /// Whether a torn write is supposed to leave each byte old or new.
        fast: bool,
        /// The folder where the histories of epochs that are over are kept, if any.
        archive: Option<&'a str>,
        /// How many seconds what is open may go on in an epoch that is full.
        drain: u32,
        /// How many of the last outcomes of keys stay at least.
        outcomes: u32,
    },
    /// What is the history of the present epoch of the store in a file?
    History {
        /// The path of the store.
        database: &'a str,
    },
    /// Which transactions are prepared in the store in a file, and not decided?
    Prepared {
        /// The path of the store.
        database: &'a str,
    },
    /// What became of the transaction of a key?
    Outcome {
        /// The path of the store.
        database: &'a str,
        /// The key, or what stands in its place.
        key: &'a str,
    },
    /// Is that history serial, from the states where the epoch began?
    AuditDatabase {
        /// The path of the store.
        database: &'a str,
    },
    /// How is the program used, or one of its commands?
    Help {
        /// The program or the command.
        topic: Topic,
    },
    /// Which version of the program is this?
    Version,
}

/// What a text of help is on.
#[derive(Clone, Copy, Debug, PartialEq, Eq)]
pub enum Topic {
    /// The program and its commands.
    Program,
    /// The command `check`.
    Check,
    /// The command `explain`.
    Explain,
    /// The command `make`.
    Make,
    /// The command `tables`.
    Tables,
    /// The command `run`.
    Run,
    /// The command `audit`.
    Audit,
    /// The command `work`.
    Work,
    /// The command `stress`.
    Stress,
    /// The command `create`.
    Create,
    /// The command `extend`.
    Extend,
    /// The command `serve`.
    Serve,
    /// The command `history`.
    History,
    /// The command `prepared`.
    Prepared,
    /// The command `outcome`.
    Outcome,
    /// The command `help`.
    Help,
    /// What the faults mean.
    Faults,
}

/// Why the words name no task.
#[derive(Debug, Drop, FaultText)]
pub enum WordFault {
    /// A fault of the command line, or a call for help by `--help` or `-h`.
    #[error("{text}")]
    Usage {
        /// What is said to the user, with its line ends.
        text: String,
    },
    /// A growth was refused.
    #[error("no memory")]
    NoMemory,
}
