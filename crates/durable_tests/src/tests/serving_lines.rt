//! A client that asks a durable store by lines: of two counters, or of two objects whose yes is one-way.

ghost use Rattle.std.specs.Prelude.{◌≡◌, None, OnOk};
ghost use Rattle.durable_store.specs.Durable.{IsDurable};
ghost use Rattle.outputs.specs.Gathered.{under};
ghost use Rattle.outputs.specs.Out.{sink_fault};

use super::counters::{NewTrees, has, new_store, one_way_store, restarted};
use durable_store::Durable;
use outputs::{Gathered, OutFault, Sink};
use serving::{Archive, Client, NoAdditions, NoArchive, ServeFault, Server};
use sqlite_trees::memory::MemStore;
use sqlite_trees::store::Alter;
use std::process::Abort;
use std::rt::Clock;
use std::time::Duration;
use test_support::sinks::{AtEnd, Narrow, narrow_sink};

/// What is asked, of the first life of a store.
const ASKED: &[u8] = b"a begin
b call 1.0 0 inc:1
c call 1.0 1 inc:1
d would 1.0 0 dec:1
e commit 1.0
f commit 1.0
g kept 0
h call 2.1 0 inc:1
i stats
j objects
k events 0 2
l nonsense
m kept 9
n begin
o begin
p call 1.1 0 dec:1
q call 1.2 0 inc:1
r rollback 1.1 1
s abort 1.1
t types
u end
v begin
";

/// What it is answered.
const ANSWERED: &[u8] = b"a ok 1.0
b reply ok
c reply ok
d reply ok
e ok
f refused NotOpen
g ok 1
h refused NotOpen
i ok events 4 begun 1 open 0 prepared 0
j object undo 0
j object intentions 0
j ok
k begin 0 0
k op 0 0 0 0
k ok
l fault UnknownVerb
m refused NoObject
n ok 1.1
o ok 1.2
p reply ok
q busy 1.1
r ok
s ok
t type counter
t states 3
t initial 0
t op inc:1 ok
t op dec:1 ok
t step 0 0 1
t step 1 0 2
t step 1 1 0
t step 2 1 1
t conflict undo 0 1
t conflict undo 1 0
t conflict intentions 0 0
t conflict intentions 1 1
t end
t \nt ok
";

/// What a client asks, how many bytes are read at a time, and how many of the answers its output takes; with how many events more than
/// it began with an epoch is full, and how many seconds what is open may go on then where a yes is one-way.
#[derive(Clone, Copy)]
pub struct Service {
    pub lines: &'static [u8],
    pub piece: usize,
    pub room: usize,
    pub most_events: u32,
    pub drain: u64,
}

/// An hour, which is never over.
pub const HOUR: u64 = 3_600;

/// An output that takes this many bytes, three at a time.
pub fn output(rt: &(impl Abort + AllocGlobal), room: usize) -> Gathered<Sink<Narrow>>
    ensures { sink_fault (under result) ≡ None }
{
    let sink = narrow_sink(rt.alloc(), 3, room, AtEnd::Fails);
    Gathered::new(rt.alloc(), sink).expect(rt, "no output")
}

/// What a client gets, how that ended, and the store after it.
pub fn told<S: Alter + Drop, A: Archive>(
    rt: &(impl Abort + AllocGlobal + Clock),
    store: Durable<S>,
    archive: &mut A,
    how: &Service,
) -> (Vec<u8>, Result<(), ServeFault>, Durable<S>)
    requires { IsDurable S.Store store }
    ensures { OnOk result.1 (IsDurable S.Store result.2) }
{
    let alloc = rt.alloc();
    let mut client = Client::new(output(rt, how.room));
    let server = match Server::new(alloc, store, how.most_events) {
        Ok(server) => server,
        Err(store) => return (Vec::new(alloc), Err(ServeFault::NoMemory), store),
    };
    let (mut input, mut buffer) = (how.lines, [0; 4096]);
    let piece = how.piece.max(1).min(4096);
    let (server, served) = server.run(
        rt,
        alloc,
        Duration::from_secs(how.drain),
        &mut NoAdditions,
        archive,
        &mut input,
        &mut buffer[..piece],
        &mut client,
    );
    let said = client.into_out().into_inner().into_inner().held;
    let (store, _) = server.into_parts();
    (said, served, store)
}

/// Where a yes is one-way no transaction begins in a full epoch, and where the last one has ended the next epoch begins in another life.
const DRAINED: &[u8] =
    b"a begin\nb call 1.0 0 p\nc begin\nd call 1.1 1 p\ne begin\nf stats\ng commit 1.0\n\
    h begin\ni commit 1.1\nj begin\nk commit 1.1\nl kept 0\nm stats\n";

const DRAINED_ANSWERS: &[u8] = b"a ok 1.0\nb reply ok\nc ok 1.1\nd reply ok\ne busy drain\n\
    f ok events 4 begun 2 open 2 prepared 0\ng ok\nh busy drain\ni ok\nj ok 2.0\nk refused NotOpen\nl ok 2\n\
    m ok events 1 begun 1 open 1 prepared 0\n";

/// What is open longer than it may is aborted.
const CUT_SHORT: &[u8] =
    b"a begin\nb call 1.0 0 p\nc begin\nd call 1.1 1 p\ne begin\nf commit 1.0\ng kept 0\n";

const CUT_SHORT_ANSWERS: &[u8] =
    b"a ok 1.0\nb reply ok\nc ok 1.1\nd reply ok\ne ok 2.0\nf refused NotOpen\ng ok 0\n";

/// Where each yes is strong the next epoch begins as soon as one is full, with all that is open, by its names: here with four events
/// each time, so that it is full with eight.
const CARRIED: &[u8] =
    b"a begin\nb call 1.0 0 inc:1\nc begin\nd call 1.1 1 inc:1\ne begin\nf call 2.2 0 dec:1\ng stats\nh commit 1.0\n\
    i call 2.2 0 dec:1\nj begin\nk call 3.2 1 inc:1\nl commit 1.1\nm commit 1.0\nn kept 0\no kept 1\np stats\n";

const CARRIED_ANSWERS: &[u8] = b"a ok 1.0\nb reply ok\nc ok 1.1\nd reply ok\ne ok 2.2\nf busy 1.0\n\
    g ok events 6 begun 3 open 3 prepared 0\nh ok\ni reply ok\nj ok 3.2\nk busy 1.1\nl ok\nm refused NotOpen\n\
    n ok 0\no ok 1\np ok events 7 begun 3 open 2 prepared 0\n";

/// What is asked of prepared transactions: in an epoch of six events, in the next one, into which two go over, and in the one
/// after that, into which one of them does and one that isn't prepared.
const HELD: &[u8] =
    b"a begin\nb prepare 1.0 k:1 7\nc prepare 1.0 k:1 8\nd prepare 1.0 k:2 7\ne call 1.0 0 inc:1\n\
    f would 1.0 0 inc:1\ng rollback 1.0 1\nh commit 1.0\ni abort 1.0\nj begin\nk prepare 1.1 k:1 7\n\
    l commit 1.1 k:1\nm call 1.1 1 inc:1\nn prepare 1.1 k:3 9\no prepared\np outcome k:1\nq do 0 inc:1\n\
    r commit 1.0\ns commit 1.0 k:9\nt begin\nu call 2.2 1 inc:1\nv prepare 1.0 k:1 7\nw prepared\nx do 1 inc:1\n\
    a decide k:1 commit\nb decide k:1 commit\nc decide k:1 abort\nd decide k:4 commit\ne decide k:4 abort\n\
    f prepare 2.2 k:4 0\ng prepare 2.2 k:1 0\nh stats\ni decide k:3 abort\nj outcome k:3\nk outcome k:1\n\
    l prepared\nm do =k:4 0 inc:1\nn prepare 9.9 k:5 0\no abort 2.2\np prepare 1.0 k:1 7\nq outcome k:1\n\
    r kept 0\ns kept 1\n";

const HELD_ANSWERS: &[u8] =
    b"a ok 1.0\nb ok\nc ok\nd refused Prepared\ne refused Prepared\nf refused Prepared\n\
    g refused Prepared\nh refused Prepared\ni refused Prepared\nj ok 1.1\nk refused KeyPrepared\n\
    l refused KeyPrepared\nm reply ok\nn ok\no k:1 1.0 7\no k:3 1.1 9 1\no ok\np prepared\nq done ok\n\
    r refused Prepared\ns refused Prepared\nt ok 2.2\nu busy 1.1\nv ok\nw k:1 1.0 7\nw k:3 1.1 9 1\nw ok\nx busy 0 1.1\n\
    a ok\nb ok\nc refused Decided\nd refused Unknown\ne ok\nf refused Aborted\ng refused Committed\n\
    h ok events 3 begun 2 open 2 prepared 1\ni ok\nj aborted\nk committed\nl ok\nm refused Aborted\n\
    n refused NotOpen\no ok\np refused NotOpen\nq committed\nr ok 1\ns ok 0\n";

/// A service; its answers, how it ended, and how many transactions had begun in the last epoch.
type Row = (Service, &'static [u8], Result<(), ServeFault>, u32);

/// What is asked above of two counters in pieces of three sizes; an output that stops after 20 bytes, so that nothing behind `events`
/// is done; epochs of four events more than they begin with, and epochs of six, in which transactions are prepared.
static ROWS: [Row; 6] = [
    (
        Service {
            lines: ASKED,
            piece: 4096,
            room: 10_000,
            most_events: u32::MAX,
            drain: 0,
        },
        ANSWERED,
        Ok(()),
        3,
    ),
    (
        Service {
            lines: ASKED,
            piece: 1,
            room: 10_000,
            most_events: u32::MAX,
            drain: 0,
        },
        ANSWERED,
        Ok(()),
        3,
    ),
    (
        Service {
            lines: ASKED,
            piece: 7,
            room: 10_000,
            most_events: u32::MAX,
            drain: 0,
        },
        ANSWERED,
        Ok(()),
        3,
    ),
    (
        Service {
            lines: ASKED,
            piece: 4096,
            room: 20,
            most_events: u32::MAX,
            drain: 0,
        },
        b"a ok 1.0\nb reply ok\n",
        Err(ServeFault::Output(OutFault::Device)),
        1,
    ),
    (
        Service {
            lines: CARRIED,
            piece: 1,
            room: 1_000,
            most_events: 4,
            drain: HOUR,
        },
        CARRIED_ANSWERS,
        Ok(()),
        3,
    ),
    (
        Service {
            lines: HELD,
            piece: 1,
            room: 2_000,
            most_events: 6,
            drain: HOUR,
        },
        HELD_ANSWERS,
        Ok(()),
        2,
    ),
];

/// Where each yes is one-way: epochs of four events, in which what is open may go on for an hour or not at all.
static ONE_WAY_ROWS: [Row; 2] = [
    (
        Service {
            lines: DRAINED,
            piece: 1,
            room: 1_000,
            most_events: 4,
            drain: HOUR,
        },
        DRAINED_ANSWERS,
        Ok(()),
        1,
    ),
    (
        Service {
            lines: CUT_SHORT,
            piece: 1,
            room: 1_000,
            most_events: 4,
            drain: 0,
        },
        CUT_SHORT_ANSWERS,
        Ok(()),
        1,
    ),
];

/// That this new store is so served. Each line is answered in its order, however many bytes are read at a time, and nothing
/// after the end is done. Where the output stops, the client gets a beginning.
fn is_answered<S: NewTrees + Drop, R: Abort + AllocGlobal + Clock>(
    rt: &R,
    store: Durable<S>,
    row: &Row,
)
    requires { IsDurable S.Store store }
{
    let (how, answers, ended, begun) = row;
    let (said, served, store) = told(rt, store, &mut NoArchive, how);
    let count = store.store().begun();
    let _ = store.into_trees();
    assert!(rt; (said.as_slice() == *answers) & (served == *ended) & (count == *begun));
}

/// A commit that is answered, and a transaction that stays open.
static COMMITTED: Service = Service {
    lines: b"a begin\nb call 1.0 0 inc:1\nc call 1.0 1 inc:1\nd begin\ne commit 1.0\n",
    piece: 4096,
    room: 10_000,
    most_events: u32::MAX,
    drain: 0,
};

/// That its answered commit is found after a crash.
fn is_found<S: NewTrees + Drop, R: Abort + AllocGlobal + Clock>(rt: &R) {
    let (_, served, store) = told(rt, new_store::<S, R>(rt), &mut NoArchive, &COMMITTED);
    match served {
        Ok(()) => has(rt, restarted(rt, store), 6, 1),
        Err(_) => {
            let _ = store.into_trees();
            panic!(rt; "it stopped");
        }
    }
}

/// That new stores are so served.
fn are_answered<S: NewTrees + Drop, R: Abort + AllocGlobal + Clock>(rt: &R) {
    for row in &ROWS {
        is_answered::<S, R>(rt, new_store::<S, R>(rt), row);
    }
    for row in &ONE_WAY_ROWS {
        is_answered::<S, R>(rt, one_way_store::<S, R>(rt), row);
    }
}

#[test]
fn lines_are_answered(rt: HostRuntime) {
    are_answered::<MemStore, HostRuntime>(&rt);
    is_found::<MemStore, HostRuntime>(&rt);
}
