//! The texts of help on stores in files.

pub(crate) const CREATE: &str = "\
Make the file of a new store.

Usage: colock create DATABASE OBJECTS TYPE...

DATABASE is the path of the file, where nothing is yet. OBJECTS is the path of a
text that names the objects: a line object KIND F for each, as a script's, and
end. Each TYPE is the path of a type file or a number file, and F is the place
of the object's type among the TYPEs, from 0. There may be 256 objects, or N
where the first line is objects N, at most 65,536. The type of each object is
checked for its kind, as colock check does. Where the answer is no, the first
line says why, and no file is made.

Example: colock create hall.db examples/seats.objects examples/seats.type

Status: 0 made, 1 a type that isn't accepted, 2 a fault of the command line or
of a text, or no TYPE at a place, 3 a file that can't be read or made, something
that is at DATABASE already, refused memory, or an output that failed.
";

pub(crate) const EXTEND: &str = "\
Add objects to the store in a file.

Usage: colock extend DATABASE OBJECTS TYPE...

DATABASE is the path of the file of a store, as colock create makes it. OBJECTS
is the path of a text that names the objects, as for colock create, and F is the
place of an object's type among the TYPEs given here. The new objects come after
those that the store has, and begin at the initial states of their types. What
is open in the store is aborted, and its present epoch ends: what history would
write of it is let go. All of it is in one commit: where the machine stops, the
store has the new objects or it hasn't. Where the type of an object isn't
accepted the first line says why, with X counted in the whole store, and the
file stays as it is.

Example: colock extend hall.db examples/seats.objects examples/seats.type

Status: 0 added, 1 a type that isn't accepted, 2 a fault of the command line or
of a text, no TYPE at a place, more objects than a store may have, or a file
that is no store's, 3 a file that can't be opened or that failed, refused
memory, or an output that failed.
";

pub(crate) const SERVE: &str = "\
Answer requests at the store in a file.

Usage: colock serve [--fast] [--archive FOLDER] [--drain S] [--outcomes N]
                    DATABASE

DATABASE is the path of the file of a store, as colock create makes it. The
store is opened, and what was open in it is aborted. Then the requests on
standard input are answered, a line each, until the request end or the end of
the input. A commit is answered when it is durable. docs/formats.md has the
requests.

Options, each at most once, before DATABASE or after it. A DATABASE that begins
with a hyphen follows --.
  --fast             A write that is torn where the machine stops is supposed to
                     leave each byte old or new. A commit then syncs once, and
                     else twice.
  --archive FOLDER   Before an epoch ends, its history is written to a file of
                     FOLDER, ID-LIFE.history, where ID is the store's id in 32
                     hex digits, and LIFE the number of the epoch's last life.
  --drain S          How many seconds what is open may go on in an epoch that is
                     full, where the yes of some type is one-way: 0 to
                     4294967295, and 5 by default.
  --outcomes N       How many of the last outcomes of keys stay at least, where
                     as many are kept: the oldest go at an epoch's end. 0 to
                     4294967295, and 1000000 by default.

One line on standard error says what was found: how many events, how many
transactions were open and are aborted, and how many milliseconds it took.

Example: colock serve hall.db

Status: 0 ended, 2 a fault of the command line, or a file that is no store's, 3
a file that can't be opened or that failed, an input or an output that failed,
or refused memory.
";

pub(crate) const HISTORY: &str = "\
Write the present epoch of the store in a file, as the text of a history.

Usage: colock history DATABASE

DATABASE is the path of the file of a store, as colock create makes it. The text
names the types by their numbers in the file. The states where the epoch began
aren't in it: colock audit --database audits this history from them.

Example: colock history hall.db

Status: 0 done, 2 a fault of the command line, or a file that is no store's, 3 a
file that can't be opened or read, refused memory, or an output that failed.
";

pub(crate) const PREPARED: &str = "\
List the transactions that are prepared in the file of a store, and not decided.

Usage: colock prepared DATABASE

DATABASE is the path of the file of a store, as colock create makes it. Nothing
of it changes.

  KEY S.N UNTIL [X]..
      A transaction is prepared under KEY. Its name is S.N: it began as number
      N in the store's life S. UNTIL is the number that its client gave. Each X
      is the number of an object at which it holds operations; they ascend. The
      lines are in the order in which the transactions were prepared, and there
      is none where no transaction is.

Example: colock prepared hall.db

Status: 0 done, 2 a fault of the command line, or a file that is no store's, 3 a
file that can't be opened or read, refused memory, or an output that failed.
";

pub(crate) const OUTCOME: &str = "\
Say what became of the transaction of a key.

Usage: colock outcome DATABASE KEY

DATABASE is the path of the file of a store, as colock create makes it. Nothing
of it changes. KEY is 1 to 64 of a-z, A-Z, 0-9 and _ : - and the point.

One line is written:
  prepared            It is prepared, and not decided.
  committed REPLY..   It committed. The replies are there where it came in one
                      line, with all its calls.
  aborted             It was aborted.
  unknown             The file knows nothing of it.

Example: colock outcome hall.db order:1

Status: 0 done, 1 unknown, 2 a fault of the command line, a KEY that is none, or
a file that is no store's, 3 a file that can't be opened or read, refused
memory, or an output that failed.
";
