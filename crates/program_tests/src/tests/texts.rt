//! The readers of scripts, histories and jobs: what texts say, and what is answered where memory is refused. Texts
//! with faults are in `cases/`.

use history_text::read_history;
use jobs_text::read_jobs;
use script_text::{FaultKind, TextFault, read_script};
use std::alloc::Global;

/// Which reader reads a text; that of jobs is given the number of workers.
#[derive(Clone, Copy)]
enum Reader {
    Script,
    History,
    Jobs(u8),
}

/// A script over two objects. Its store refuses the last commands.
const SCRIPT: &[u8] = b"max 20
object undo 0
object intentions 255
begin
call 0 0 inc:1
call 0 1 inc:1
call 9999999 9999999 no
rollback 0 2
commit 0
abort 9999999
rollback 9999999 0
end
";

/// The script of most events and fewest lines.
const SHORT_SCRIPT: &[u8] = b"max 1000000
object intentions 0
end
";

/// A history of each kind of event.
pub const HISTORY: &[u8] = b"object undo 0
object intentions 0
begin 0 0
begin 0 1
op 0 0 0 0
op 0 1 0 0
op 0 0 1 0
busy 0 1 1 0 0
none 0 1 0 1
rollback 0 0 2
commit 0 1
abort 0 0
end
";

/// The greatest numbers of a history's lines.
pub const HIGH_HISTORY: &[u8] = b"object intentions 255
begin 255 999999
op 255 999999 255 63
busy 255 999999 255 63 999999
none 255 999999 255 63
rollback 255 999999 999999
commit 255 999999
abort 255 999999
end
";

/// The jobs of three workers in order, of whom one has none.
const JOBS: &[u8] = b"max 4
object undo 0
job 0
do 0 inc:1
do 255 dec:1
job 0
job 2
do 0 dec:1
end
";

/// The same jobs in another order of the workers.
const MIXED_JOBS: &[u8] = b"max 4
object undo 0
job 2
do 0 dec:1
job 0
do 0 inc:1
do 255 dec:1
job 0
end
";

/// Two jobs of the one worker, for a history that has room for one of them.
const TWO_JOBS: &[u8] = b"max 4
object undo 0
job 0
do 0 inc:1
job 0
do 0 inc:1
end
";

/// Jobs that wait for one another.
const THREE_JOBS: &[u8] = b"max 20
object undo 0
job 0
do 0 dec:1
job 0
do 0 inc:1
job 0
do 0 dec:1
end
";

/// A call and an object that aren't there.
const NO_CALL: &[u8] = b"max 20
object undo 0
job 0
do 0 nope
end
";

const NO_OBJECT: &[u8] = b"max 20
object undo 0
job 0
do 5 inc:1
end
";

/// A script that may have 300 objects. Its store has one, and refuses the call.
const SIZED_SCRIPT: &[u8] = b"objects 300
max 20
object undo 299
begin
call 0 300 inc:1
end
";

/// A history that may have 300 objects, since it has that many types.
pub const SIZED_HISTORY: &[u8] = b"objects 300
object undo 299
object escrow 0
begin 0 0
op 0 0 299 0
busy 0 0 299 0 0
none 0 0 256 0
end
";

/// The greatest numbers of a history that may have the most objects.
pub const WIDE_HISTORY: &[u8] = b"objects 65536
object intentions 65535
op 255 999999 65535 63
op 255 999999 65535 63 4294967295
busy 255 999999 65535 63 999999
none 255 999999 65535 63
end
";

/// Jobs at the last of 300 objects that there may be.
const SIZED_JOBS: &[u8] = b"objects 300
max 20
object undo 299
job 0
do 299 inc:1
end
";

/// Canonical texts, and how many lines each has.
static TEXTS: [(Reader, &[u8], usize); 13] = [
    (Reader::Script, SCRIPT, 12),
    (Reader::Script, SHORT_SCRIPT, 3),
    (Reader::History, HISTORY, 13),
    (Reader::History, HIGH_HISTORY, 9),
    (Reader::Jobs(3), JOBS, 9),
    (Reader::Jobs(1), TWO_JOBS, 7),
    (Reader::Jobs(1), THREE_JOBS, 9),
    (Reader::Jobs(1), NO_CALL, 5),
    (Reader::Jobs(1), NO_OBJECT, 5),
    (Reader::Script, SIZED_SCRIPT, 6),
    (Reader::History, SIZED_HISTORY, 8),
    (Reader::History, WIDE_HISTORY, 7),
    (Reader::Jobs(1), SIZED_JOBS, 6),
];

/// The fault that the reader names.
fn fault_of(alloc: Global, reader: Reader, text: &[u8]) -> Option<TextFault> {
    match reader {
        Reader::Script => read_script(alloc, text).err(),
        Reader::History => read_history(alloc, text).err(),
        Reader::Jobs(workers) => read_jobs(alloc, text, workers).err(),
    }
}

/// Workers that there are none of have no job.
#[test]
fn no_workers_have_no_job(rt: HostRuntime) {
    let text = b"max 2\nobject undo 0\njob 0\n";
    let kind = FaultKind::OutOfRange;
    assert!(rt; fault_of(rt.alloc(), Reader::Jobs(0), text) == Some(TextFault { line: 3, kind }));
}

/// What a text says: how many objects it may have, how many events, which a history doesn't say, how many objects it has, and
/// how many commands, events or lists of jobs.
type Said = (Option<u32>, u32, usize, usize);

/// Whether a text says so.
fn says(alloc: Global, reader: Reader, text: &[u8], said: &Said) -> bool {
    let (size, max, objects, count) = *said;
    match reader {
        Reader::Script => match read_script(alloc, text) {
            Ok(file) => {
                (file.size == size)
                    & (file.max == max)
                    & (file.objects.len() == objects)
                    & (file.commands.len() == count)
            }
            Err(_) => false,
        },
        Reader::History => match read_history(alloc, text) {
            Ok(file) => {
                (file.size == size) & (file.objects.len() == objects) & (file.events.len() == count)
            }
            Err(_) => false,
        },
        Reader::Jobs(workers) => match read_jobs(alloc, text, workers) {
            Ok(file) => {
                (file.size == size)
                    & (file.max == max)
                    & (file.objects.len() == objects)
                    & (file.jobs.len() == count)
            }
            Err(_) => false,
        },
    }
}

/// Texts, and what each says.
static SAID: [(Reader, &[u8], Said); 9] = [
    (Reader::Script, SCRIPT, (None, 20, 2, 8)),
    (Reader::History, HIGH_HISTORY, (None, 0, 1, 7)),
    (Reader::Jobs(3), JOBS, (None, 4, 1, 3)),
    (Reader::Jobs(3), MIXED_JOBS, (None, 4, 1, 3)),
    (Reader::Script, SIZED_SCRIPT, (Some(300), 20, 1, 2)),
    (Reader::History, SIZED_HISTORY, (Some(300), 0, 2, 4)),
    (Reader::History, WIDE_HISTORY, (Some(65_536), 0, 1, 4)),
    (Reader::Jobs(1), SIZED_JOBS, (Some(300), 20, 1, 1)),
    (
        Reader::History,
        b"# One.\n objects  1\nobject undo 0\nend\n",
        (Some(1), 0, 1, 0),
    ),
];

#[test]
fn texts_say_their_values(rt: HostRuntime) {
    for (reader, text, said) in &SAID {
        assert!(rt; says(rt.alloc(), *reader, text, said));
    }
}

/// Whether this is no fault, or refused memory at one of the first lines.
fn is_refused_memory(fault: Option<TextFault>, lines: usize) -> bool {
    match fault {
        Some(fault) => {
            (fault.kind == FaultKind::NoMemory) & (1 <= fault.line) & (fault.line <= lines)
        }
        None => true,
    }
}

#[test]
fn readers_say_that_memory_is_refused(rt: HostRuntime) {
    for (reader, text, lines) in &TEXTS {
        assert!(rt; is_refused_memory(fault_of(rt.alloc(), *reader, text), *lines));
    }
}
