//! The texts of help and version.
ghost use Rattle.std.specs.Prelude.{◌≡◌};
ghost use Rattle.command_words.specs.Help.{EndsLine, text_of_topic};

use crate::Topic;
use crate::file_help::{CREATE, EXTEND, HISTORY, OUTCOME, PREPARED, SERVE};

/// The line that `--version` writes.
pub const VERSION: &str = "colock 0.2.0\n";

pub(crate) const PROGRAM: &str = "\
colock checks and makes conflict tables, by which a store locks the operations
of shared objects, runs scripts and workers at such a store, keeps a store in a
file, and audits histories.

Usage: colock COMMAND

Commands:
  check KIND FILE            Check a type file for a kind of recovery.
  explain KIND FILE [P Q]    Say why two operations exclude each other.
  make FAMILY SIZE ITEM...   Write the type file of a family of types.
  tables FILE                Write a type file with its tables made anew.
  run SCRIPT TYPE...         Run a script at a store, and audit its history.
  audit HISTORY [--then HISTORY]... TYPE...
                             Audit a history, and those that follow it.
  audit --order T,T,.. HISTORY TYPE...
                             Audit a history in an order of its transactions.
  audit --database DATABASE  Audit the history of the store in a file.
  work --workers N [--tries K] JOBS TYPE...
                             Run jobs in threads, and audit their history.
  stress --seed S --workers N [--tries K] JOBS TYPE...
                             Run jobs in turns that are drawn, and audit their
                             history.
  create DATABASE OBJECTS TYPE...
                             Make the file of a new store.
  extend DATABASE OBJECTS TYPE...
                             Add objects to the store in a file.
  serve [--fast] [--archive FOLDER] [--drain S] [--outcomes N] DATABASE
                             Answer requests at the store in a file.
  history DATABASE           Write the history of the store in a file.
  prepared DATABASE          List the transactions that are prepared in a file.
  outcome DATABASE KEY       Say what became of the transaction of a key.
  help [TOPIC]               Write this text, or the text on a command, on help
                             or on faults.

Options, in place of a command:
  -V, --version              Write the version.

Status:
  0   yes, or done
  1   no
  2   a fault of the command line or of a text (colock help faults)
  3   a file that can't be read, made or kept, refused memory, or an output that
      failed, as on a full disk

Answers and texts go to standard output, faults to standard error. With --help
or -h among the words, the text goes to standard error and the status is 2.
A word that begins with a hyphen, and is no option, follows the word --.
";

pub(crate) const CHECK: &str = "\
Check whether the conflict table of a type file holds enough pairs, or whether
its states are numbers that may be in escrow.

Usage: colock check KIND FILE

KIND is how objects of the type recover from aborts:
  undo         Update in place. An abort takes a transaction's operations out
               of the middle.
  intentions   Deferred update. A commit appends a transaction's operations to
               what was committed before.
  escrow       Deferred update of a number. Conflicts look at how far it is
               from its bounds; the conflict tables aren't looked at.

FILE is the path of a type file, or of a number file. That has no table: it is
for escrow alone, and the answer is yes strong.

One line is written. States and operations have the numbers of the file, from 0
in the order of its lines.
  yes strong
      Enough pairs conflict. All others may change places in both directions.
      For escrow: each operation moves all states in which it is legal by the
      same number, and is legal in each state between two of them.
  yes one-way
      The same for undo, but some others may change places in one direction
      only. What is kept may then allow less than the serial order does.
  no InitialOutside
      The initial state isn't in the set of states.
  no NotClosed S K
      From state S of the set, operation K leads out of it.
  no NotSimulation S T K
      State S is said to look like T, but operation K is legal in S and not
      in T, or leads to states of which the first isn't said to look like the
      second.
  no NotCommuting P Q S
      P, requested while Q is held, has to conflict with it: at state S they
      can't change places. The line conflict KIND P Q mends that pair, and
      colock tables makes all of them.
  no NotNumeric K S
      For escrow, and its only no: K is illegal in S and legal in a lower and
      in a higher state; or it is legal in S, and moves it otherwise than the
      least state in which it is legal.

Examples: colock check undo examples/ctr2.type
          colock check escrow examples/cents.type

Status: 0 yes, 1 no, 2 a fault of the command line or of the file's text, or a
number for another kind, 3 a file that can't be read, refused memory, or an
output that failed.
";

pub(crate) const EXPLAIN: &str = "\
Say why two operations of a type exclude each other: what breaks where a pair
isn't in the conflict table, and what mends the file.

Usage: colock explain KIND FILE [P Q]

KIND and FILE are as with colock check. P is a requested operation and Q one
that another transaction holds; each is the number of an operation in the file,
or CALL/REPLY. With them, only this pair is explained.

The first line is that of colock check. Then, for undo and intentions:
  row OP C..
      For a requested operation, written CALL/REPLY, a letter for each held one:
        N   Some run breaks, unless the pair is in the table.
        F   It fails by this file's set or relation alone.
        S   It fails in the stronger form alone, of which colock check says
            strong; for undo.
        U   It doesn't fail.
      A small letter is that of a pair that isn't in the table, and a point
      stands for a small u.
  pair OP OP C
      A requested and a held operation, and their letter if it is no point. The
      lines after it, up to the next pair, are on this pair.
  state S, lead OP.., tell OP..
      At N and n: in state S the two can't change places. The operations after
      lead lead there from the initial state; those after tell are legal after
      the two in one order, and not in the other.
  two spaces and a line of a history, up to end; fails T T T T
      A history that shows it, and the order of its transactions in which it
      isn't legal (colock audit --order).
  mend conflict KIND P Q, mend reach S, mend drop reach S, mend equi S T
      Lines that the file lacks, or has to drop, at n and f.

What has an upper U, S or F may go, all of it together, and no run breaks; but
without an S the yes is one-way, and without an F it is a no until the file is
mended. An N may not go. The history is one that the locks admit; a store, which
does the first legal operation of a call, may make no such history. With
intentions the order that isn't legal is another than that of the commits:
nothing is said of that one alone.

For escrow, after a yes and after a no:
  bounds OP LOW HIGH MOVE, bounds OP never
      OP is legal from LOW to HIGH, and moves the number by MOVE; or nowhere.
  gap OP LOW S HIGH
      OP is legal at LOW and HIGH, and not at S between them.
  moves OP LOW END S END
      It leads from LOW and from S to these ends, at different distances.

Example: colock explain undo examples/ctr2.type

Status: 0 yes, 1 no, 2 a fault of the command line or of the file's text, or a P
or Q that is no operation, 3 a file that can't be read, refused memory, or an
output that failed.
";

pub(crate) const MAKE: &str = "\
Write the type file of a family, with a relation and conflict tables that fit.

Usage: colock make FAMILY SIZE ITEM...

  account CAP AMOUNT...
      A balance from 0 to CAP. Each AMOUNT can be deposited (ok, or full) and
      withdrawn (ok, or short), and the balance can be asked. An operation for
      each balance counts: with one AMOUNT, CAP is at most 59.
  counter CAP AMOUNT...
      A number from 0 to CAP. Each AMOUNT can be counted up (inc) and down
      (dec), where the number stays in its range. It can't be asked. With more
      than 32 AMOUNTs it is too large.
  stock CAP AMOUNT...
      A number from 0 to CAP. Each AMOUNT can be given (ok, or full) and taken
      (ok, or short). It can't be asked. With more than 16 AMOUNTs it is too
      large.
  number MAX AMOUNT...
      The same from 0 to MAX, which is at most 4294967295, without a table and
      for escrow alone. What is written is a number file, which begins at 0.
  set 0 ELEMENT...
      A set of these elements. Each can be inserted and deleted, and asked for
      (member: true or false). With more than 10 elements it is too large.
  semiqueue CAPACITY ELEMENT...
      Up to CAPACITY elements in no order. Each can be put in (enq), and deq
      takes any one. A state for each number of each element counts: with two
      ELEMENTs, CAPACITY is at most 43.
  queue CAPACITY ELEMENT...
      Up to CAPACITY elements in a row. Each can be put in (enq), and deq takes
      the one that came first. A state for each row counts: with two ELEMENTs,
      CAPACITY is at most 9.
  seats COUNT
      Seats 1 to COUNT. Each can be held (ok, or taken), released or booked
      while it is held, and cancelled once it is booked. How many are free can
      be asked. There is no ITEM, and with more than 6 seats it is too large.

CAP, CAPACITY and COUNT are 1 to 1023. An AMOUNT is a number from 1 to CAP or
MAX, and the AMOUNTs ascend. An ELEMENT is a name of a-z, 0-9 and _ : - alone,
of at most 25 bytes in a set and 28 in a semiqueue or a queue. Where there are
AMOUNTs or ELEMENTs, there is at least one, and none comes twice. Those that
begin with a hyphen follow the word --.

Examples: colock make stock 1000 1 5
          colock make number 1000000 1 144
          colock make semiqueue 2 mail report
          colock make seats 3

Status: 0 done, 2 a fault of the command line or one of those below, 3 refused
memory, or an output that failed.
  colock: BadParameter   There is no such family, or SIZE or an ITEM isn't as
                         above.
  colock: TooLarge       The type has more than 64 operations or more than 1,024
                         states, or a number more than 16 amounts.
";

pub(crate) const TABLES: &str = "\
Write a type file with its relation and its conflict tables made anew.

Usage: colock tables FILE

FILE is the path of a type file, and not of a number file, which has no tables.
What is written has its operations, states and steps and its set of states. The
relation is made from the steps, and each conflict table has the pairs that
can't change places at a state of the set. So a file of your own needs no equi
and no conflict line.

Example: colock tables examples/ctr2.type

Status: 0 done, 2 a fault of the command line or of the file's text, 3 a file
that can't be read, refused memory, or an output that failed.
";

pub(crate) const RUN: &str = "\
Run a script at a store of its objects, write its history, and audit that.

Usage: colock run SCRIPT TYPE...

SCRIPT is the path of a script, and each TYPE that of a type file or a number
file. The script names the type of an object by its place among the TYPEs, from
0. It may have 256 objects, or N where its first line is objects N, at most
65,536. The type of each object is checked for its kind, as colock check does.

  # object X no ..
      The type of object X isn't accepted, with the reason as check writes it.
      No other line is written.
  object KIND F, begin W T, op W T X K, busy W T X C U, none W T X C,
  commit W T, abort W T, rollback W T N, end
      The history, a line for each object and for each event. W is the worker,
      which is 0, T and U are transactions, X is an object, K an operation, C
      the least operation of a call, and N how many operations are struck.
      What is open after the last command is aborted.
  # refused N Kind
      A command was refused: 1 NotOpen, there is no such open transaction;
      2 NoObject; 3 NoCall, the object's type has no such call; 4 TooManyOpen,
      1,024 are open; 5 HistoryFull; 6 NoMemory; 7 BadRollback, the transaction
      hasn't as many operations.
  # kept X S
      Object X is in state S.
  # audit yes, # commit T, # serial X S
      The committed transactions, run one after another in this order, give the
      same replies, and object X is in state S after them.

What is written is the text of a history, which colock audit reads.

Example: colock run examples/stock.script examples/stock.type

Status: 0 done, 1 a type that isn't accepted, 2 a fault of the command line or
of a text, or no TYPE at a place, 3 a file that can't be read, refused memory,
or an output that failed.
";

pub(crate) const AUDIT: &str = "\
Say whether the committed transactions of a history, run one after another in
the order of their commits, give the same replies.

Usage: colock audit HISTORY [--then HISTORY]... TYPE...
       colock audit --order T,T,.. HISTORY TYPE...
       colock audit --database DATABASE

HISTORY is the path of a history, as colock run writes it, and each TYPE that
of a type file or a number file. The history names the type of an object by its
place among the TYPEs, from 0. The types aren't checked for a kind.

Options, anywhere after audit and before any --:
  --then HISTORY   A history that follows, and begins at the states that the ones
                   before it end in. Its objects begin with those of the one
                   before it, and it may have more. It may come any number of
                   times, and they follow in this order.

After --order come all committed transactions, each once: they are run in this
order in place of that of their commits. No T may come after a U that executed
an operation after T's commit, unless it was struck: T precedes U. Where none is
committed, T,T,.. is the empty word ''. The words are in this order, and no path
begins with a hyphen.

DATABASE is the path of the file of a store. Its history is that which colock
history writes, and is audited with the file's own types, from the states where
the epoch began. The words are in this order, and DATABASE may be any word.

  # audit yes, # commit T, # serial X S
      They do, in this order, and object X is in state S after them.
  # audit no BadEvent AT
      No history has event AT, counted from 0, after those before it.
  # audit no IllegalOp I X J
      Of the I-th committed transaction, in the order of the commits or in that
      of --order, the J-th operation at object X isn't legal after those before
      it, where both are counted from 0 and struck operations don't count.

Where there is more than one history, a transaction is written N.T, for
transaction T of the N-th history, and an event N.AT, where histories and events
are counted from 0. The audit is one, and # serial X S is where the last ends.

Example: colock audit examples/hasty.history examples/credit.type

Status: 0 yes, 1 no, 2 a fault of the command line or of a text, no TYPE at a
place, an order that may not be asked for, or a file that is no store's, 3 a
file that can't be read, refused memory, or an output that failed.
";

pub(crate) const WORK: &str = "\
Run jobs at a store, each worker in a thread of its own, write the history, and
audit that.

Usage: colock work --workers N [--tries K] JOBS TYPE...

JOBS is the path of the jobs, and each TYPE that of a type file or a number
file. The jobs name the type of an object by its place among the TYPEs, from 0.
The type of each object is checked for its kind, as colock check does.

Options, each at most once, anywhere after work and before any --:
  --workers N   How many workers there are, 1 to 16.
  --tries K     How often a job is tried at most, 1 to 100, and 3 by default.

In JOBS a line job W begins a job of worker W, 0 to N - 1, and each line do X
CALL after it is one more call of that job. A W of N or more is OutOfRange.

A worker does its jobs in their order. A job begins a transaction, makes its
calls and commits. Where a call is answered busy or none, the transaction is
aborted, and the job is tried anew by another transaction, up to K tries in all.
Where the begin or a call is refused, the job isn't tried anew.

  # object X no .., object KIND F, .., end, # kept X S, # audit yes, ..
      As colock run writes them, but W is any worker, and no refusal has a line
      of its own. Which worker comes first is left to the threads.
  # job W I committed T
      Job I of worker W, both counted from 0, was done by transaction T.
  # job W I gaveup
      A call of it was answered busy or none in each of the K tries.
  # job W I refused N Kind
      Its begin or a call was refused, and what was open of it was aborted.
  # job W I notrun
      The thread of worker W wasn't started, as memory was refused.

What is written is the text of a history, which colock audit reads.

Example: colock work --workers 16 examples/up.jobs examples/tally.type

Status: 0 done, whatever came of the jobs, 1 a type that isn't accepted, 2 a
fault of the command line or of a text, or no TYPE at a place, 3 a file that
can't be read, refused memory, or an output that failed.
";

pub(crate) const STRESS: &str = "\
Run jobs at a store, where the workers take turns that are drawn from a seed,
write the history, and audit that. The same seed gives the same history.

Usage: colock stress --seed S --workers N [--tries K] JOBS TYPE...

JOBS and each TYPE are as with colock work, and so are the tries of a job and
the lines that are written (colock help work). There is one thread, and no job
is notrun.

Options, each at most once, anywhere after stress and before any --:
  --seed S      The seed, 0 to 18446744073709551615.
  --workers N   How many workers there are, 1 to 16.
  --tries K     How often a job is tried at most, 1 to 100, and 3 by default.

A turn is a begin, a call, a commit or an abort of one worker. Whose turn it is
is drawn anew each time, among the workers that have jobs left.

Example: colock stress --seed 7 --workers 16 examples/up.jobs examples/tally.type

Status: 0 done, whatever came of the jobs, 1 a type that isn't accepted, 2 a
fault of the command line or of a text, or no TYPE at a place, 3 a file that
can't be read, refused memory, or an output that failed.
";

pub(crate) const HELP: &str = "\
Write the text on the program, or on a topic.

Usage: colock help [TOPIC]

TOPIC is a command, or one of these:
  help     This text.
  faults   What each fault of a text and of the command line means.

colock --version, or -V, writes the version.

Example: colock help faults

Status: 0 done, 2 a fault of the command line, 3 refused memory, or an output
that failed.
";

pub(crate) const FAULTS: &str = "\
What the faults on standard error mean.

  colock: FILE: line N: KIND
      The first line of FILE that is refused. The kinds are below.
  colock: FILE: object X: no type F
      F isn't the place of one of the TYPEs, from 0.
  colock: FILE: number needs escrow, object X: number needs escrow
      A number has no conflict table, so it is for escrow alone.
  colock: FILE: object X: name taken
      Of extend: an object of the store has this name.
  colock: FILE: not the objects of HISTORY
      The objects of a history after --then don't begin with those of the one
      before it.
  colock: HISTORY: order: T not committed, T twice, T missing
      After --order come all committed transactions, each once.
  colock: HISTORY: order: T precedes U
      After T's commit U executed an operation that no rollback struck, so T
      comes before U.
  colock: BadParameter, colock: TooLarge
      Of make: see colock help make. Of explain: P or Q is no operation. Of
      extend: the store would have more than 65,536 objects.
  colock: OBJECTS: has events
      The text given to create or extend has more than objects.
  colock: DATABASE: not a store
      The file is no database, or one of something else.
  colock: FILE: cannot read
      There is no such file, or it isn't yours to read.
  colock: DATABASE: file exists
      create overwrites nothing.
  colock: DATABASE: no such file, in use, cannot open, cannot read or write
      What the system says of the file. In use: another process has it open.
  colock: FOLDER: file exists, cannot read or write
      The same of a history of serve --archive.
  colock: no memory
      Memory was refused.
  nothing, and status 3
      Standard output failed, as on a full disk.

A text is lines of at most 200 bytes that end in LF. There is no CR, no tab, no
byte order mark and no letter but those of ASCII. A line that begins with # is a
comment, also one after end. Words are separated by spaces. A number is 0, or up
to seven digits without a leading zero, and in a number file up to ten.
A name is 1 to 32 of a-z, 0-9 and _ : -, an object's name 1 to 64 of these, A-Z,
. and /. A text of a type whose first word is number is a number file, and any
other a type file.

KIND, by the first test that refuses the line:
  NotAscii       It has a byte that isn't 32 to 126: a CR before the LF, a tab,
                 a byte order mark.
  LineTooLong    It has more than 200 bytes.
  Unterminated   It is the last line, and no LF ends it.
  AfterEnd       It comes after end.
  UnknownWord    No line of this text begins so, or has so few or so many words;
                 or a name or a kind is none.
  BadNumber      A word isn't a number.
  OutOfOrder     It comes after lines that it should come before. The sections
                 of a type file: type, states, initial, op, step, reach, equi,
                 conflict undo, conflict intentions, end. Those of a number
                 file: number, max, initial, take, take any, give, give any,
                 atleast, value, end.
  Missing        A line that has to come before it is missing; without an end,
                 it is the line after the last.
  OutOfRange     A number is too large or too small, or there are too many such
                 lines: colock help make and docs/formats.md have the limits.
  OutOfOrder     The numbers of step, reach, equi or conflict, or the amounts of
                 take, give or atleast, don't ascend.
  TwiceOp        An operation with this call and reply came before.
  TwiceName      An object with this name came before.
  NoMemory       Memory was refused here.

docs/formats.md has an example of each.
";

impl Topic {
    /// The text of help on it, in whole lines.
    pub const fn text(self) -> &'static str
        ensures exact { result.now ≡ text_of_topic self }
        ensures lines { EndsLine result.now }
    {
        match self {
            Topic::Program => PROGRAM,
            Topic::Check => CHECK,
            Topic::Explain => EXPLAIN,
            Topic::Make => MAKE,
            Topic::Tables => TABLES,
            Topic::Run => RUN,
            Topic::Audit => AUDIT,
            Topic::Work => WORK,
            Topic::Stress => STRESS,
            Topic::Create => CREATE,
            Topic::Extend => EXTEND,
            Topic::Serve => SERVE,
            Topic::History => HISTORY,
            Topic::Prepared => PREPARED,
            Topic::Outcome => OUTCOME,
            Topic::Help => HELP,
            Topic::Faults => FAULTS,
        }
    }
}
