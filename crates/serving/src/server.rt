//! A client is served, group by group: its lines are done, what they wrote becomes durable, and then it gets the answers.

ghost use Rattle.std.specs.Prelude.{◌≡◌, ◌≤◌, ◌+◌, None, OnOk, List, ℕ, true, IsSome, ◌<◌, length, MatchResult, IfErr, OnErr, [], ◌++◌, Option, IfOk, IsTrue, false};
ghost use Rattle.journal.specs.Journal.{Clean, ShowsCommit, durable, written};
ghost use Rattle.durable_store.specs.Durable.{IsDurable};
ghost use Rattle.serving.specs.declared.answer_line.Answered.{Answered as Told};
ghost use Rattle.serving.specs.declared.session.Session.{Session as Began};
ghost use Rattle.serving.specs.Follows.{LeavesMore, LeavesWritten};
ghost use Rattle.serving.specs.Lines.{is_end};
ghost use Rattle.serving.specs.Server.{DoesLine, StaysInEpoch, HasServed, MayEndNow, ServesBytes, TakesByte, full_at};
ghost use Rattle.std.specs.Io.KnownBytes.{Consumes, IsAtEnd};
ghost use Rattle.outputs.specs.Gathered.{taken_by, under};
ghost use Rattle.serving.specs.Acknowledged.{NoneLast, StopsSafely, TellsSafely};
ghost use Rattle.serving.specs.Left.{LeavesLines, Survives, began_at};
ghost use Rattle.serving.specs.Epochs.{LeavesEpochs, WritesEpochs};
ghost use Rattle.serving.specs.Group.{HasTold, IsUnasked, StopsTelling, IsMore, known_from};
ghost use Rattle.serving.specs.Does.{is_epoch_full};
ghost use Rattle.serving.specs.EpochEnd.{EndsEpoch};
ghost use Rattle.serving.specs.Requests.{LetsGo};
ghost use Rattle.serving.specs.Told.{has_lasting, is_lasting};
ghost use Rattle.serving.specs.Whole.{session_of};

use crate::additions::Additions;
use crate::answer_line::{AnswerLine, Answered, is_lasting};
use crate::archive::Archive;
use crate::client::Client;
use crate::extension::Extension;
use crate::names::Names;
use crate::serve_fault::ServeFault;
use crate::session::{Session, is_full};
use durable_store::Durable;
use journal::JournalError;
use outputs::Out;
use request_text::{Asked, Request, RequestFault, read_line};
use sqlite_trees::store::Alter;
use std::alloc::{AllocError, Global};
use std::io::Read;
use std::rt::Clock;
use std::time::{Duration, Instant};

/// The most bytes that are kept of a line.
const MOST_KEPT: usize = 4_096;

/// A session, and what its client has asked.
pub struct Server<S: Alter> {
    pub(crate) session: Session<S>,
    /// The first bytes, at most 4,096, of the line that isn't whole yet.
    pub(crate) line: Vec<u8>,
    /// The answers that the client didn't get yet.
    pub(crate) answers: Vec<Answered>,
    /// The line that asked for the end.
    pub(crate) end: Option<Asked>,
    /// When the epoch was first seen to be full, or what waits to be.
    pub(crate) full_since: Option<Instant>,
}

impl<S: Alter> Server<S> {
    /// A server of this store, which was asked nothing yet, with epochs that are full with this many events.
    ///
    /// # Errors
    ///
    /// Memory was refused: the store, as it was.
    pub fn new(alloc: Global, store: Durable<S>, most_events: u32) -> Result<Server<S>, Durable<S>>
        ensures fresh { IfOk result IsUnasked }
        ensures begun { IfOk result (λ server. server.session ≡ session_of most_events store) }
        ensures store { IfOk result (λ server. server.session.store ≡ store) }
        ensures refused { IfErr result (λ kept. kept ≡ store) }
    {
        let names = match Names::given(alloc, store.life(), store.prepared()) {
            Ok(names) => names,
            Err(AllocError) => return Err(store),
        };
        Ok(Server {
            session: Session {
                store,
                names,
                most_events,
                waiting: None,
            },
            line: Vec::new(alloc),
            answers: Vec::new(alloc),
            end: None,
            full_since: None,
        })
    }

    /// The line that asked for the end, where one did.
    pub fn end(&self) -> Option<Asked>
        ensures { result ≡ self.now.end }
    {
        self.end
    }

    /// Its store, and what waits to be added. What was asked of a line that isn't whole is let go.
    pub fn into_parts(self) -> (Durable<S>, Option<Extension>)
        ensures store { result.0 ≡ self.session.store }
        ensures waiting { result.1 ≡ self.session.waiting }
    {
        let Server {
            session,
            line: _,
            answers: _,
            end: _,
            full_since: _,
        } = self;
        let Session {
            store,
            names: _,
            most_events: _,
            waiting,
        } = session;
        (store, waiting)
    }

    /// Serves the client, group by group: what it asks is read into the buffer, as much as is there. An epoch that is full
    /// ends behind its group where each yes is strong, and all that is open goes over; else where nothing is open but what is
    /// prepared, or where what is open went on as long as the limits say. The archive keeps its history, where it asks for any,
    /// before the file begins anew. At `Ok` the client asked for the end, or the input has ended, and it got
    /// the answers to all whole lines before, in their order. However it ends, each commit that was answered survives a
    /// crash, where all that was written was durable as it began.
    ///
    /// # Errors
    ///
    /// The file, the archive, the input or the output failed, or memory was refused: the client got a beginning of the
    /// answers to some of its lines, and the server isn't to be used any more.
    pub fn run<C: Clock, N: Additions, A: Archive, R: Read, W: Out>(
        self,
        clock: &C,
        alloc: Global,
        drain: Duration,
        additions: &mut N,
        archive: &mut A,
        input: &mut R,
        buffer: &mut [u8],
        client: &mut Client<W>,
    ) -> (Server<S>, Result<(), ServeFault>)
        requires sound { IsDurable S.Store self.session.store }
        requires fresh { IsUnasked self }
        requires room { 0 < length buffer.old }
        requires out_takes { W.fault (under client.old.out) ≡ None }
        ensures told { OnOk result.1 (HasTold S.Store self.session (R.remaining input.old) (taken_by W.taken client.old.out) result.0 (R.remaining input.new) (taken_by W.taken client.new.out)) }
        ensures ended { OnOk result.1 (result.0.end ≡ None → IsAtEnd (R.remaining input.new)) }
        ensures stops { OnErr result.1 (StopsTelling S.Store self.session (R.remaining input.old) (taken_by W.taken client.old.out) result.0.session.store (taken_by W.taken client.new.out)) }
        ensures acknowledged { MatchResult result.1
            (λ done. TellsSafely S.Store self.session (R.remaining input.old) (taken_by W.taken client.old.out) result.0 (R.remaining input.new) (taken_by W.taken client.new.out))
            (λ fault. StopsSafely S.Store self.session (R.remaining input.old) (taken_by W.taken client.old.out) result.0.session.store (taken_by W.taken client.new.out)) }
        ensures out_takes { OnOk result.1 (W.fault (under client.new.out) ≡ None) }
        ensures archives { OnOk result.1 (WritesEpochs S.Store self.session.store result.0.session.store (A.kept archive.old) (A.kept archive.new)) }
        ensures clean { Clean S.Store result.0.session.store.journal → Clean S.Store self.session.store.journal }
        ensures crash { LeavesEpochs S.Store self.session.store result.0.session.store (A.kept archive.old) (A.kept archive.new) }
    {
        let mut server = self;
        for _turn in 0..u64::MAX {
            let (next, turned) = server.take_turn(
                clock, alloc, drain, additions, archive, input, buffer, client,
            );
            server = next;
            match turned {
                Ok(true) => {}
                Ok(false) => return (server, Ok(())),
                Err(fault) => return (server, Err(fault)),
            }
        }
        (server, Err(ServeFault::Input))
    }

    /// Serves a group, and begins another epoch where this one is over. Whether more may come.
    ///
    /// # Errors
    ///
    /// As `serve_group`, and as `end_epoch` where the client got all answers.
    pub(crate) fn take_turn<C: Clock, N: Additions, A: Archive, R: Read, W: Out>(
        self,
        clock: &C,
        alloc: Global,
        drain: Duration,
        additions: &mut N,
        archive: &mut A,
        input: &mut R,
        buffer: &mut [u8],
        client: &mut Client<W>,
    ) -> (Server<S>, Result<bool, ServeFault>)
        requires sound { IsDurable S.Store self.session.store }
        requires asked { self.end ≡ None }
        requires told { self.answers.items ≡ [] }
        requires room { 0 < length buffer.old }
        requires out_takes { W.fault (under client.old.out) ≡ None }
        ensures serves { OnOk result.1 ((began : Began S) (given taken : Option (List ℕ)) → TellsSafely S.Store began given taken self (R.remaining input.old) (taken_by W.taken client.old.out)
            → TellsSafely S.Store began given taken result.0 (R.remaining input.new) (taken_by W.taken client.new.out)) }
        ensures stops { OnErr result.1 ((began : Began S) (given taken : Option (List ℕ)) → TellsSafely S.Store began given taken self (R.remaining input.old) (taken_by W.taken client.old.out)
            → StopsSafely S.Store began given taken result.0.session.store (taken_by W.taken client.new.out)) }
        ensures more { IfOk result.1 (λ more. IsMore more result.0 (R.remaining input.new)) }
        ensures told { OnOk result.1 (result.0.answers.items ≡ []) }
        ensures sound { OnOk result.1 (IsDurable S.Store result.0.session.store) }
        ensures out_takes { OnOk result.1 (W.fault (under client.new.out) ≡ None) }
        ensures writes { OnOk result.1 (WritesEpochs S.Store self.session.store result.0.session.store (A.kept archive.old) (A.kept archive.new)) }
        ensures clean { Clean S.Store result.0.session.store.journal → Clean S.Store self.session.store.journal }
        ensures crash { LeavesEpochs S.Store self.session.store result.0.session.store (A.kept archive.old) (A.kept archive.new) }
    {
        let mut server = self;
        match server.serve_group(alloc, additions, input, buffer, client) {
            Ok(true) => server.next_epoch(clock, alloc, drain, archive, client),
            Ok(false) => (server, Ok(false)),
            Err(fault) => (server, Err(fault)),
        }
    }

    /// Takes what is there of the input, at most as many bytes as the buffer has, and does its whole lines, part by part.
    /// Whether more may come.
    ///
    /// # Errors
    ///
    /// The file, the input or the output failed, or memory was refused: the server isn't to be used any more.
    pub(crate) fn serve_group<N: Additions, R: Read, W: Out>(
        &mut self,
        alloc: Global,
        additions: &mut N,
        input: &mut R,
        buffer: &mut [u8],
        client: &mut Client<W>,
    ) -> Result<bool, ServeFault>
        requires sound { IsDurable S.Store self.old.session.store }
        requires asked { self.old.end ≡ None }
        requires told { self.old.answers.items ≡ [] }
        requires room { 0 < length buffer.old }
        requires out_takes { W.fault (under client.old.out) ≡ None }
        ensures serves { OnOk result ((began : Began S) (given taken : Option (List ℕ)) → TellsSafely S.Store began given taken self.old (R.remaining input.old) (taken_by W.taken client.old.out)
            → TellsSafely S.Store began given taken self.new (R.remaining input.new) (taken_by W.taken client.new.out)) }
        ensures stops { OnErr result ((began : Began S) (given taken : Option (List ℕ)) → TellsSafely S.Store began given taken self.old (R.remaining input.old) (taken_by W.taken client.old.out)
            → StopsSafely S.Store began given taken self.new.session.store (taken_by W.taken client.new.out)) }
        ensures more { IfOk result (λ more. IsMore more self.new (R.remaining input.new)) }
        ensures told { OnOk result (self.new.answers.items ≡ []) }
        ensures stays_in_epoch { OnOk result (StaysInEpoch S.Store self.old.session self.new.session) }
        ensures out_takes { OnOk result (W.fault (under client.new.out) ≡ None) }
        ensures clean { Clean S.Store self.new.session.store.journal → Clean S.Store self.old.session.store.journal }
        ensures crash { LeavesMore S.Store self.old.session.store self.new.session.store }
    {
        let count = match input.read(buffer) {
            Ok(count) => count,
            Err(_) => return Err(ServeFault::Input),
        };
        self.serve_parts(alloc, additions, &buffer[..count], client)?;
        Ok(count > 0 && self.end.is_none())
    }

    /// Serves these bytes of the input, part by part, up to the part with a line that asks for the end: what is answered
    /// in one part is in memory together.
    ///
    /// # Errors
    ///
    /// As `serve_group`.
    fn serve_parts<N: Additions, W: Out>(
        &mut self,
        alloc: Global,
        additions: &mut N,
        bytes: &[u8],
        client: &mut Client<W>,
    ) -> Result<(), ServeFault>
        requires sound { IsDurable S.Store self.old.session.store }
        requires asked { self.old.end ≡ None }
        requires told { self.old.answers.items ≡ [] }
        requires out_takes { W.fault (under client.old.out) ≡ None }
        ensures serves { OnOk result ((began : Began S) (given taken given_now given_new : Option (List ℕ)) → Consumes given_now given_new bytes.now
            → TellsSafely S.Store began given taken self.old given_now (taken_by W.taken client.old.out) → TellsSafely S.Store began given taken self.new given_new (taken_by W.taken client.new.out)) }
        ensures stops { OnErr result ((began : Began S) (given taken given_now given_new : Option (List ℕ)) → Consumes given_now given_new bytes.now
            → TellsSafely S.Store began given taken self.old given_now (taken_by W.taken client.old.out) → StopsSafely S.Store began given taken self.new.session.store (taken_by W.taken client.new.out)) }
        ensures told { OnOk result (self.new.answers.items ≡ []) }
        ensures stays_in_epoch { OnOk result (StaysInEpoch S.Store self.old.session self.new.session) }
        ensures out_takes { OnOk result (W.fault (under client.new.out) ≡ None) }
        ensures clean { Clean S.Store self.new.session.store.journal → Clean S.Store self.old.session.store.journal }
        ensures crash { LeavesMore S.Store self.old.session.store self.new.session.store }
    {
        let mut start = 0;
        for at in 0..bytes.len() {
            start = self.serve_ended(alloc, additions, bytes, start, at, client)?;
            let asked_end = self.end.is_some();
            if asked_end {
                return Ok(());
            }
        }
        self.serve_part(alloc, additions, &bytes[start..], client)
    }

    /// Serves the part that ends with the byte at `at`, where one does, of the bytes from `start` on. Where the next one
    /// begins.
    ///
    /// # Errors
    ///
    /// As `serve_group`.
    fn serve_ended<N: Additions, W: Out>(
        &mut self,
        alloc: Global,
        additions: &mut N,
        bytes: &[u8],
        start: usize,
        at: usize,
        client: &mut Client<W>,
    ) -> Result<usize, ServeFault>
        requires sound { IsDurable S.Store self.old.session.store }
        requires asked { self.old.end ≡ None }
        requires told { self.old.answers.items ≡ [] }
        requires out_takes { W.fault (under client.old.out) ≡ None }
        requires start { start ≤ at }
        requires inside { at < length bytes.now }
        ensures serves { IfOk result (λ next. (began : Began S) (given taken given_now given_new : Option (List ℕ)) → Consumes given_now given_new bytes.now
            → TellsSafely S.Store began given taken self.old (known_from start given_now) (taken_by W.taken client.old.out)
            → TellsSafely S.Store began given taken self.new (known_from next given_now) (taken_by W.taken client.new.out)) }
        ensures next { IfOk result (λ next. next ≤ at + 1) }
        ensures stops { OnErr result ((began : Began S) (given taken given_now given_new : Option (List ℕ)) → Consumes given_now given_new bytes.now
            → TellsSafely S.Store began given taken self.old (known_from start given_now) (taken_by W.taken client.old.out) → StopsSafely S.Store began given taken self.new.session.store (taken_by W.taken client.new.out)) }
        ensures told { OnOk result (self.new.answers.items ≡ []) }
        ensures stays_in_epoch { OnOk result (StaysInEpoch S.Store self.old.session self.new.session) }
        ensures out_takes { OnOk result (W.fault (under client.new.out) ≡ None) }
        ensures clean { Clean S.Store self.new.session.store.journal → Clean S.Store self.old.session.store.journal }
        ensures crash { LeavesMore S.Store self.old.session.store self.new.session.store }
    {
        if !ends_part(bytes, start, at) {
            return Ok(start);
        }
        self.serve_part(alloc, additions, &bytes[start..at + 1], client)?;
        Ok(at + 1)
    }

    /// Does the whole lines of a part. Where a commit is among them all that was written becomes durable. Then the client
    /// gets the answers, in their order.
    ///
    /// # Errors
    ///
    /// As `serve_group`. Where it wasn't the output, the client got nothing.
    fn serve_part<N: Additions, W: Out>(
        &mut self,
        alloc: Global,
        additions: &mut N,
        bytes: &[u8],
        client: &mut Client<W>,
    ) -> Result<(), ServeFault>
        requires sound { IsDurable S.Store self.old.session.store }
        requires asked { self.old.end ≡ None }
        requires told { self.old.answers.items ≡ [] }
        requires out_takes { W.fault (under client.old.out) ≡ None }
        ensures serves { OnOk result ((began : Began S) (given taken given_now given_new : Option (List ℕ)) → Consumes given_now given_new bytes.now
            → TellsSafely S.Store began given taken self.old given_now (taken_by W.taken client.old.out) → TellsSafely S.Store began given taken self.new given_new (taken_by W.taken client.new.out)) }
        ensures stops { OnErr result ((began : Began S) (given taken given_now given_new : Option (List ℕ)) → Consumes given_now given_new bytes.now
            → TellsSafely S.Store began given taken self.old given_now (taken_by W.taken client.old.out) → StopsSafely S.Store began given taken self.new.session.store (taken_by W.taken client.new.out)) }
        ensures told { OnOk result (self.new.answers.items ≡ []) }
        ensures stays_in_epoch { OnOk result (StaysInEpoch S.Store self.old.session self.new.session) }
        ensures out_takes { OnOk result (W.fault (under client.new.out) ≡ None) }
        ensures clean { Clean S.Store self.new.session.store.journal → Clean S.Store self.old.session.store.journal }
        ensures crash { LeavesMore S.Store self.old.session.store self.new.session.store }
    {
        self.take_bytes(alloc, additions, bytes)?;
        self.settle_lasting()?;
        client.tell(&self.session.store, &self.answers)?;
        self.answers.clear();
        Ok(())
    }

    /// Does the lines that these bytes end, one after another, up to one that asks for the end.
    ///
    /// # Errors
    ///
    /// The file failed, or memory was refused: the server isn't to be used any more.
    pub(crate) fn take_bytes<N: Additions>(
        &mut self,
        alloc: Global,
        additions: &mut N,
        bytes: &[u8],
    ) -> Result<(), ServeFault>
        requires sound { IsDurable S.Store self.old.session.store }
        requires asked { self.old.end ≡ None }
        ensures serves { OnOk result ((began : Began S) (told : List Told) (seen : List ℕ) → HasServed S.Store began told seen self.old
            → ServesBytes S.Store began told seen bytes.now self.new) }
        ensures stays_in_epoch { OnOk result (StaysInEpoch S.Store self.old.session self.new.session) }
        ensures clean { Clean S.Store self.new.session.store.journal → Clean S.Store self.old.session.store.journal }
        ensures left { OnOk result ((began : Began S) (told : List Told) (seen : List ℕ) → HasServed S.Store began told seen self.old
            → LeavesLines S.Store (began_at S.Store began) NoneLast seen told self.old.answers.items self.old.session.store
            → LeavesLines S.Store (began_at S.Store began) NoneLast (seen ++ bytes.now) told self.new.answers.items self.new.session.store) }
        ensures failed { OnErr result ((began : Began S) (told : List Told) (seen : List ℕ) → HasServed S.Store began told seen self.old
            → LeavesLines S.Store (began_at S.Store began) NoneLast seen told self.old.answers.items self.old.session.store → Survives S.Store (began_at S.Store began) NoneLast (seen ++ bytes.now) told self.new.session.store) }
        ensures crash { LeavesMore S.Store self.old.session.store self.new.session.store }
    {
        for b in bytes {
            self.take_byte(alloc, additions, *b)?;
            if self.end.is_some() {
                return Ok(());
            }
        }
        Ok(())
    }

    /// Takes a byte of a line, or does the line that it ends.
    ///
    /// # Errors
    ///
    /// As `take_bytes`.
    fn take_byte<N: Additions>(
        &mut self,
        alloc: Global,
        additions: &mut N,
        b: u8,
    ) -> Result<(), ServeFault>
        requires { IsDurable S.Store self.old.session.store }
        ensures takes { OnOk result (TakesByte S.Store self.old b self.new) }
        ensures clean { Clean S.Store self.new.session.store.journal → Clean S.Store self.old.session.store.journal }
        ensures crash { LeavesWritten S.Store self.old.session.store self.new.session.store }
    {
        if b == b'\n' {
            return self.do_line(alloc, additions);
        }
        if self.line.len() < MOST_KEPT {
            self.line.push(b)?;
        }
        Ok(())
    }

    /// Does the line that is whole now.
    ///
    /// # Errors
    ///
    /// As `take_bytes`.
    fn do_line<N: Additions>(&mut self, alloc: Global, additions: &mut N) -> Result<(), ServeFault>
        requires { IsDurable S.Store self.old.session.store }
        ensures does { OnOk result (DoesLine S.Store self.old self.new) }
        ensures clean { Clean S.Store self.new.session.store.journal → Clean S.Store self.old.session.store.journal }
        ensures crash { LeavesWritten S.Store self.old.session.store self.new.session.store }
    {
        let asked = read_line(alloc, &self.line)?;
        if asks_end(asked.request) {
            self.line.clear();
            self.end = Some(asked);
            return Ok(());
        }
        let answered = self.session.do_asked(alloc, additions, &self.line, asked)?;
        self.line.clear();
        self.answers.push(answered)?;
        Ok(())
    }

    /// Makes durable all that was written, where one of the answers says what no crash takes away.
    ///
    /// # Errors
    ///
    /// As `Session::settle`.
    pub(crate) fn settle_lasting(&mut self) -> Result<(), JournalError>
        requires { IsDurable S.Store self.old.session.store }
        ensures others { self.new ≡ record self.old { session = self.new.session } }
        ensures stays_in_epoch { OnOk result (StaysInEpoch S.Store self.old.session self.new.session) }
        ensures waits { self.new.session.waiting ≡ self.old.session.waiting }
        ensures lets_go { OnOk result (LetsGo self.old.session.store.store self.new.session.store.store) }
        ensures settled { OnOk result (has_lasting self.old.answers.items ≡ true → Clean S.Store self.new.session.store.journal
            → durable S.Store self.new.session.store.journal ≡ written S.Store self.new.session.store.journal) }
        ensures shows { OnOk result (has_lasting self.old.answers.items ≡ true → ShowsCommit S.Store self.new.session.store.journal) }
        ensures same { OnOk result (Clean S.Store self.new.session.store.journal → written S.Store self.new.session.store.journal ≡ written S.Store self.old.session.store.journal) }
        ensures clean { Clean S.Store self.new.session.store.journal → Clean S.Store self.old.session.store.journal }
        ensures crash { LeavesWritten S.Store self.old.session.store self.new.session.store }
    {
        if has_lasting(&self.answers) {
            self.session.settle()?;
        }
        Ok(())
    }

    /// Begins another epoch where this one is over, and answers the client to what waited for it. More may come.
    ///
    /// # Errors
    ///
    /// As `end_epoch`, or the output failed.
    fn next_epoch<C: Clock, A: Archive, W: Out>(
        self,
        clock: &C,
        alloc: Global,
        drain: Duration,
        archive: &mut A,
        client: &mut Client<W>,
    ) -> (Server<S>, Result<bool, ServeFault>)
        requires sound { IsDurable S.Store self.session.store }
        requires asked { self.end ≡ None }
        requires out_takes { W.fault (under client.old.out) ≡ None }
        ensures serves { OnOk result.1 ((began : Began S) (given taken given_now : Option (List ℕ)) → TellsSafely S.Store began given taken self given_now (taken_by W.taken client.old.out)
            → TellsSafely S.Store began given taken result.0 given_now (taken_by W.taken client.new.out)) }
        ensures stops { OnErr result.1 ((began : Began S) (given taken given_now : Option (List ℕ)) → TellsSafely S.Store began given taken self given_now (taken_by W.taken client.old.out)
            → StopsSafely S.Store began given taken result.0.session.store (taken_by W.taken client.new.out)) }
        ensures ends { OnOk result.1 (is_epoch_full (full_at self.session) self.session.store.store ≡ true → MayEndNow self.session
            → EndsEpoch S.Store self.session.store.strong self.session.waiting self.session.store result.0.session.store) }
        ensures more { IfOk result.1 (λ more. more ≡ true) }
        ensures asked { result.0.end ≡ None }
        ensures told { result.0.answers ≡ self.answers }
        ensures out_takes { OnOk result.1 (W.fault (under client.new.out) ≡ None) }
        ensures writes { OnOk result.1 (WritesEpochs S.Store self.session.store result.0.session.store (A.kept archive.old) (A.kept archive.new)) }
        ensures sound { OnOk result.1 (IsDurable S.Store result.0.session.store) }
        ensures clean { Clean S.Store result.0.session.store.journal → Clean S.Store self.session.store.journal }
        ensures crash { LeavesEpochs S.Store self.session.store result.0.session.store (A.kept archive.old) (A.kept archive.new) }
    {
        let mut server = self;
        if !server.is_over(clock, drain) {
            return (server, Ok(true));
        }
        let Server {
            session,
            line,
            answers,
            end,
            full_since: _,
        } = server;
        let (session, begun) = session.begin_epoch(alloc, archive);
        let next = Server {
            session,
            line,
            answers,
            end,
            full_since: None,
        };
        match begun {
            Ok(late) => match client.tell_last(&next.session.store, late, None) {
                Ok(()) => (next, Ok(true)),
                Err(fault) => (next, Err(ServeFault::Output(fault))),
            },
            Err(fault) => (next, Err(fault)),
        }
    }

    /// Whether the epoch is over: it is full or an extension waits, and what is open goes over, or nothing is but what is prepared,
    /// or the open ones had their time.
    fn is_over<C: Clock>(&mut self, clock: &C, drain: Duration) -> bool
        ensures full { result ≡ true → is_epoch_full (full_at self.old.session) self.old.session.store.store ≡ true }
        ensures over { is_epoch_full (full_at self.old.session) self.old.session.store.store ≡ true → MayEndNow self.old.session → result ≡ true }
        ensures others { self.new ≡ record self.old { full_since = self.new.full_since } }
    {
        let limit = self.session.full_at();
        let store = self.session.store.store();
        if !is_full(store, limit) {
            return false;
        }
        if self.session.store.is_strong() {
            return true;
        }
        if store.open_count() as usize <= self.session.store.prepared().len() {
            return true;
        }
        match self.full_since {
            None => {
                self.full_since = Instant::now(clock).ok();
                false
            }
            Some(since) => has_passed(clock, since, drain),
        }
    }
}

/// Whether a part of these bytes, which begins at `start`, ends with the byte at `at`: that is the LF of a line that asks
/// for an answer of many lines.
fn ends_part(bytes: &[u8], start: usize, at: usize) -> bool
    requires start { start ≤ at }
    requires inside { at < length bytes.now }
{
    bytes[at] == b'\n' && asks_much(last_line(&bytes[start..at]))
}

/// What follows the last LF of these bytes.
fn last_line(bytes: &[u8]) -> &[u8] {
    match bytes.iter().rposition(|b| *b == b'\n') {
        Some(at) => &bytes[at + 1..],
        None => bytes,
    }
}

/// Whether a line may ask for an answer of many lines, `events` or `types`.
fn asks_much(line: &[u8]) -> bool {
    match line.iter().position(|b| *b == b' ') {
        Some(at) => line[at + 1..].starts_with(b"events") || line[at + 1..].starts_with(b"types"),
        None => false,
    }
}

/// Whether a line asks for the end.
fn asks_end(asked: Result<Request, RequestFault>) -> bool
    ensures { result ≡ is_end asked }
{
    matches!(asked, Ok(Request::End))
}

/// Whether one of these answers says what no crash takes away.
fn has_lasting(answers: &[Answered]) -> bool
    ensures { result ≡ has_lasting answers.now }
{
    answers.iter().any(|a| is_lasting(&a.answer))
}

/// Whether this long has passed since then, by a clock; one that fails doesn't hold up what waits.
fn has_passed<C: Clock>(clock: &C, since: Instant, time: Duration) -> bool {
    match since.elapsed(clock) {
        Ok(passed) => time <= passed,
        Err(_) => true,
    }
}
