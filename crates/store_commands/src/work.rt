//! `work` and `stress`: workers at a store of their objects, and the audit of the history.

ghost use Rattle.std.specs.Prelude.{◌≡◌, None, map};
ghost use Rattle.command_files.specs.Answers.{ComesOr};
ghost use Rattle.jobs_text.specs.Jobs.{calls_in};
ghost use Rattle.object_types.specs.Types.{value_of};
ghost use Rattle.store_commands.specs.Works.{BeginsWork, BeginsWorkFile, HasWorkFault, IsWholeWorkText, TellsWork, WorksFile, WorksOf, WritesWorkFile, did_nothing};
ghost use Rattle.workers.specs.Worked.{Works};

use crate::limits::text_limits;
use crate::schedule::Schedule;
use crate::store_audit::audit_of;
use command_files::{Fault, Source, Verdict, put_answer, read_file};
use jobs_text::{Job, JobsFile};
use object_trait::Recovery;
use objects::new_objects;
use outputs::Out;
use std::alloc::Global;
use std::sync::{Arc, Wait};
use std::thread::Threads;
use store::Store;
use store_files::{JobsFormat, ObjectTypes, object_line, types_for};
use store_text::ObjectLine;
use table_checker::CheckedType;
use work_text::write_work;
use worker_turns::Report;
use workers::{NoGate, WorkFault, Worked, run_workers, stress};

/// What workers do, and how.
#[derive(Clone, Copy, Debug, PartialEq, Eq)]
pub struct Work {
    /// How many workers there are, 1 to 16.
    pub workers: u8,
    /// How often a job is tried at most, 1 to 100.
    pub tries: u8,
    /// Whose turn it is.
    pub schedule: Schedule,
}

/// `JOBS TYPE...`: yes with the text of what the workers did, whose audit is never a no; or no with the
/// line of the first object whose type isn't accepted.
///
/// # Errors
///
/// A file can't be read or its text has a fault, no TYPE word is at an object's place, an object of another
/// kind than escrow names a number, memory or a thread was refused, or the output failed. Where memory was
/// refused before the first turn no text is written; where a later thread couldn't be started, the whole
/// text is.
pub fn work_file<'a, H: AllocGlobal + Threads + Wait + Sync, S: Source, W: Out>(
    rt: &H,
    work: Work,
    jobs: &'a str,
    types: &[&'a str],
    source: &mut S,
    out: &mut W,
) -> Result<Verdict, Fault<'a>>
    requires { W.fault out.old ≡ None }
    ensures { let words = map (λ p. p.now) types.now in let holds = S.holds source.old in
        ComesOr (WritesWorkFile holds work.workers work.tries jobs.now words) (BeginsWorkFile holds work.workers work.tries jobs.now words) (WorksFile holds work.workers work.tries jobs.now words)
        (HasWorkFault holds work.workers jobs.now words) result (W.taken out.old) (W.taken out.new) }
{
    let alloc = rt.alloc();
    let format = JobsFormat {
        workers: work.workers,
    };
    let read = read_file(alloc, &format, jobs, source)?;
    match types_for(alloc, jobs, &read.objects, types, source)? {
        ObjectTypes::Accepted(types) => work_at(rt, work, read, &types, out),
        ObjectTypes::Refused { x, refusal } => {
            let line = object_line(alloc, x, refusal)?;
            put_answer(Verdict::No, line.as_bytes(), out)
        }
    }
}

/// Does the jobs of a text at a new store of these types, and writes what comes of it.
fn work_at<'a, H: AllocGlobal + Threads + Wait + Sync, W: Out>(
    rt: &H,
    work: Work,
    file: JobsFile,
    types: &[Arc<CheckedType>],
    out: &mut W,
) -> Result<Verdict, Fault<'a>>
    requires { W.fault out.old ≡ None }
    ensures { ComesOr (IsWholeWorkText file (map value_of types.now) work.tries) (BeginsWork file (map value_of types.now) work.tries) (WorksOf file (map value_of types.now) work.tries) ⊥ result (W.taken out.old) (W.taken out.new) }
{
    let alloc = rt.alloc();
    let objects = new_objects(alloc, types)?;
    let JobsFile {
        size,
        max,
        objects: lines,
        jobs,
    } = file;
    match Store::with_limits(alloc, objects, text_limits(size, max)) {
        Ok(store) => {
            let worked = do_jobs(rt, store, jobs, work);
            end_work(alloc, worked, types, &lines, out)
        }
        // the objects are new and as many as the text may have, and the limits are in their ranges
        Err(_) => Err(Fault::NoMemory),
    }
}

/// Runs the workers.
fn do_jobs<R: Recovery + Send, H: AllocGlobal + Threads + Wait + Sync>(
    rt: &H,
    store: Store<R>,
    jobs: Vec<Vec<Job>>,
    work: Work,
) -> Worked<R>
    ensures { Works (record { store = store; jobs = map calls_in jobs.items; tries = work.tries }) result.fault result.store result.reports.items }
{
    match work.schedule {
        Schedule::SideBySide => run_workers(rt, store, jobs, work.tries, &NoGate),
        Schedule::Drawn { seed } => stress(rt.alloc(), store, jobs, work.tries, seed),
    }
}

/// Writes what came back of workers at a store of these types, of whose history nothing is forgotten, and
/// closes it.
fn end_work<'a, R: Recovery, W: Out>(
    alloc: Global,
    worked: Worked<R>,
    types: &[Arc<CheckedType>],
    objects: &[ObjectLine],
    out: &mut W,
) -> Result<Verdict, Fault<'a>>
    requires out_takes { W.fault out.old ≡ None }
    requires types { worked.store.types ≡ map value_of types.now }
    requires whole { worked.store.forgotten ≡ 0 }
    ensures { TellsWork worked.store objects.now worked.reports.items worked.fault result (W.taken out.old) (W.taken out.new) }
{
    let Worked {
        store,
        reports,
        fault,
    } = worked;
    let told = tell_work(alloc, &store, types, objects, &reports, fault, out);
    let _ = store.close();
    told
}

/// Writes what workers did at a store of these types: nothing where they came to a fault before their first
/// turn.
///
/// # Errors
///
/// Memory or a thread was refused, or the output failed.
fn tell_work<'a, R: Recovery, W: Out>(
    alloc: Global,
    store: &Store<R>,
    types: &[Arc<CheckedType>],
    objects: &[ObjectLine],
    reports: &[Report],
    fault: Option<WorkFault>,
    out: &mut W,
) -> Result<Verdict, Fault<'a>>
    requires out_takes { W.fault out.old ≡ None }
    requires types { store.now.types ≡ map value_of types.now }
    requires whole { store.now.forgotten ≡ 0 }
    ensures { TellsWork store.now objects.now reports.now fault result (W.taken out.old) (W.taken out.new) }
{
    if did_nothing(fault, reports) {
        return Err(Fault::NoMemory);
    }
    let audit = audit_of(alloc, store, types);
    write_work(store, objects, &audit, reports, out)?;
    match (fault, audit) {
        (None, Ok(_)) => Ok(Verdict::Yes),
        _ => Err(Fault::NoMemory),
    }
}

/// Whether workers came to a fault before their first turn.
fn did_nothing(fault: Option<WorkFault>, reports: &[Report]) -> bool
    ensures { result ≡ did_nothing fault reports.now }
{
    fault.is_some() && reports.is_empty()
}
