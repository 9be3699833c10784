//! The service of a client, from the greeting to the end.

ghost use Rattle.std.specs.Prelude.{◌≡◌, ◌<◌, ◌⊎◌, None, false, length, MatchResult, OnErr, OnOk};
ghost use Rattle.outputs.specs.Gathered.{taken_by, under};
ghost use Rattle.journal.specs.Journal.{Clean, ShowsCommit};
ghost use Rattle.durable_store.specs.Durable.{IsDurable};
ghost use Rattle.serving.specs.Acknowledged.{ServesSafely, StopsServingSafely};
ghost use Rattle.serving.specs.EpochEnd.{EndsEpoch, EndsServing, EndsInEpoch, LeavesClosed, LeavesEnd, last_answers};
ghost use Rattle.serving.specs.Follows.{LeavesMore, WritesMore};
ghost use Rattle.serving.specs.NextEpoch.{late_answer};
ghost use Rattle.serving.specs.Epochs.{LeavesEpochs, WritesEpochs};
ghost use Rattle.serving.specs.Told.{AppendsPart, answers_text};
ghost use Rattle.std.specs.Io.KnownBytes.{Appends};
ghost use Rattle.serving.specs.Whole.{ServesClient, StopsServing};

use crate::additions::Additions;
use crate::archive::Archive;
use crate::client::Client;
use crate::epoch::{end_epoch, stop_in_epoch};
use crate::epoch_limits::EpochLimits;
use crate::extension::Extension;
use crate::serve_fault::ServeFault;
use crate::server::Server;
use durable_store::Durable;
use outputs::Out;
use request_text::Asked;
use sqlite_trees::store::Alter;
use std::alloc::Global;
use std::io::Read;
use std::rt::Clock;

/// Serves a client: greets it, and writes it the answers to its lines, group by group as they are read into the buffer.
/// Where an epoch is full, as the limits say, or more objects were read that the client asks to be added, another one begins,
/// with these objects: at once where each yes is strong, with all that is open, and else no further transaction begins before
/// it. Where the client has asked for the end, or its input has ended, what is open and isn't prepared is aborted; and the file
/// begins another epoch, but where the input has ended and nothing waits. The history of each epoch that ends is kept by the
/// archive, where it asks for any, before the file begins anew. Then an extension is answered that waited, and the end, where
/// the client asked for it. However it ends, each commit that was answered survives a crash,
/// where all that was written was durable as it began.
///
/// # Errors
///
/// The file, the archive, the input or the output failed, or memory was refused. The client got a beginning of
/// what it gets otherwise, and each commit that was answered is durable.
pub fn serve<C: Clock, S: Alter, N: Additions, A: Archive, R: Read, W: Out>(
    clock: &C,
    alloc: Global,
    limits: EpochLimits,
    store: Durable<S>,
    additions: &mut N,
    archive: &mut A,
    input: &mut R,
    buffer: &mut [u8],
    client: &mut Client<W>,
) -> (Durable<S>, Result<(), ServeFault>)
    requires sound { IsDurable S.Store store }
    requires room { 0 < length buffer.old }
    requires out_takes { W.fault (under client.old.out) ≡ None }
    ensures told { OnOk result.1 (ServesClient S.Store limits.most_events store (R.remaining input.old) (taken_by W.taken client.old.out) result.0 (R.remaining input.new) (taken_by W.taken client.new.out)) }
    ensures stops { OnErr result.1 (StopsServing S.Store limits.most_events store (R.remaining input.old) (taken_by W.taken client.old.out) result.0 (taken_by W.taken client.new.out)) }
    ensures acknowledged { MatchResult result.1
        (λ done. ServesSafely S.Store limits.most_events store (R.remaining input.old) (taken_by W.taken client.old.out) result.0 (R.remaining input.new) (taken_by W.taken client.new.out))
        (λ fault. StopsServingSafely S.Store limits.most_events store (R.remaining input.old) (taken_by W.taken client.old.out) result.0 (R.remaining input.new) (taken_by W.taken client.new.out)) }
    ensures archives { OnOk result.1 (WritesEpochs S.Store store result.0 (A.kept archive.old) (A.kept archive.new)) }
    ensures shows { OnOk result.1 (ShowsCommit S.Store result.0.journal) }
    ensures sound { OnOk result.1 (IsDurable S.Store result.0) }
    ensures clean { Clean S.Store result.0.journal → Clean S.Store store.journal }
    ensures crash { LeavesEpochs S.Store store result.0 (A.kept archive.old) (A.kept archive.new) }
{
    if let Err(fault) = client.greet(store.life()) {
        return (store, Err(ServeFault::Output(fault)));
    }
    let server = match Server::new(alloc, store, limits.most_events) {
        Ok(server) => server,
        Err(store) => return (store, Err(ServeFault::NoMemory)),
    };
    let (server, served) = server.run(
        clock,
        alloc,
        limits.drain,
        additions,
        archive,
        input,
        buffer,
        client,
    );
    let end = server.end();
    let (store, waiting) = server.into_parts();
    match served {
        Ok(()) => end_serving(alloc, store, waiting, archive, end, client),
        Err(fault) => (store, Err(fault)),
    }
}

/// Ends what a client was served: what is open and isn't prepared is aborted. Where the end was asked for or an extension waits, another
/// epoch begins, with what waits to be added, and then that is answered.
///
/// # Errors
///
/// As `serve`.
fn end_serving<S: Alter, A: Archive, W: Out>(
    alloc: Global,
    store: Durable<S>,
    waiting: Option<Extension>,
    archive: &mut A,
    end: Option<Asked>,
    client: &mut Client<W>,
) -> (Durable<S>, Result<(), ServeFault>)
    requires sound { IsDurable S.Store store }
    requires out_takes { W.fault (under client.old.out) ≡ None }
    ensures renews { OnOk result.1 (EndsServing S.Store waiting end store result.0) }
    ensures told { OnOk result.1 (Appends (taken_by W.taken client.old.out) (taken_by W.taken client.new.out) (answers_text (last_answers (late_answer waiting store.store) end))) }
    ensures part { OnErr result.1 ((taken_by W.taken client.new.out ≡ taken_by W.taken client.old.out)
        ⊎ (EndsEpoch S.Store false waiting store result.0 × AppendsPart (taken_by W.taken client.old.out) (taken_by W.taken client.new.out) (answers_text (last_answers (late_answer waiting store.store) end)))) }
    ensures writes { OnOk result.1 (WritesEpochs S.Store store result.0 (A.kept archive.old) (A.kept archive.new)) }
    ensures shows { OnOk result.1 (ShowsCommit S.Store result.0.journal) }
    ensures sound { OnOk result.1 (IsDurable S.Store result.0) }
    ensures clean { Clean S.Store result.0.journal → Clean S.Store store.journal }
    ensures left { LeavesEnd S.Store false waiting store result.0 }
    ensures crash { LeavesEpochs S.Store store result.0 (A.kept archive.old) (A.kept archive.new) }
{
    if waiting.is_none() && end.is_none() {
        return stop_serving(alloc, store);
    }
    let (store, ended) = end_epoch(alloc, store, false, waiting, archive);
    match ended {
        Ok(late) => match client.tell_last(&store, late, end) {
            Ok(()) => (store, Ok(())),
            Err(fault) => (store, Err(ServeFault::Output(fault))),
        },
        Err(fault) => (store, Err(fault)),
    }
}

/// Ends what a client was served where its input has ended, in the same epoch.
///
/// # Errors
///
/// The file failed, or memory was refused.
fn stop_serving<S: Alter>(alloc: Global, store: Durable<S>) -> (Durable<S>, Result<(), ServeFault>)
    requires { IsDurable S.Store store }
    ensures goes_on { OnOk result.1 (EndsInEpoch S.Store store result.0) }
    ensures sound { OnOk result.1 (IsDurable S.Store result.0) }
    ensures shows { OnOk result.1 (ShowsCommit S.Store result.0.journal) }
    ensures writes { OnOk result.1 (WritesMore S.Store store result.0) }
    ensures clean { Clean S.Store result.0.journal → Clean S.Store store.journal }
    ensures left { LeavesClosed S.Store false store result.0 }
    ensures crash { LeavesMore S.Store store result.0 }
{
    let mut store = store;
    match stop_in_epoch(alloc, &mut store) {
        Ok(()) => (store, Ok(())),
        Err(error) => (store, Err(ServeFault::Journal(error))),
    }
}
