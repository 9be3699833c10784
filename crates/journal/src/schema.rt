//! The tables of a file, as SQLite lists them.

use sqlite_trees::schema::Object;
use sqlite_trees::store::Shape;

/// The statement that makes the table of events. The columns of its rows fit that of the formats 1 to 4 too, which asks
/// for a text and a number, and stays in a file until its next epoch.
pub const EVENT_SQL: &str =
    "CREATE TABLE event (number INTEGER PRIMARY KEY, lines TEXT NOT NULL, events INTEGER NOT NULL)";

/// The statement that makes the table of prepared transactions. Formats 1 to 5 have another one, which is empty.
pub const PREPARED_SQL: &str =
    "CREATE TABLE prepared (position INTEGER PRIMARY KEY, key TEXT NOT NULL, s INTEGER NOT NULL, n INTEGER NOT NULL, number INTEGER NOT NULL, until INTEGER NOT NULL)";

/// The statement that makes the table of what became of transactions that have keys. Formats 1 to 5 have another one,
/// which is empty; that of the formats 6 and 7 has four columns, that of the format 8 has seven, and its rows stay, without
/// what they don't have, where it is listed anew.
pub const OUTCOME_SQL: &str =
    "CREATE TABLE outcome (place INTEGER PRIMARY KEY, key TEXT, how TEXT, replies TEXT, number INTEGER, first INTEGER, least INTEGER, awaiting INTEGER)";

/// The statement that makes the table of objects. Formats 1 to 3 have no column for a name.
pub const OBJECT_SQL: &str =
    "CREATE TABLE object (x INTEGER PRIMARY KEY, kind TEXT NOT NULL, type INTEGER NOT NULL, name TEXT)";

/// Each table's name and the statement that makes it, in the order of their numbers.
pub const TABLES: [(&str, &str); 7] = [
    ("event", EVENT_SQL),
    (
        "store",
        "CREATE TABLE store (position INTEGER PRIMARY KEY, format INTEGER NOT NULL, id BLOB NOT NULL, s INTEGER NOT NULL)",
    ),
    (
        "type",
        "CREATE TABLE type (number INTEGER PRIMARY KEY, text TEXT NOT NULL)",
    ),
    ("object", OBJECT_SQL),
    (
        "snapshot",
        "CREATE TABLE snapshot (x INTEGER PRIMARY KEY, state INTEGER NOT NULL)",
    ),
    ("prepared", PREPARED_SQL),
    ("outcome", OUTCOME_SQL),
];
