//! The workers for some lists of jobs, and the room for their reports.

ghost use Rattle.std.specs.Prelude.{◌≡◌, ◌≤◌, [], true, false, length, map, IfOk, IfErr, vec_len, vec_capacity};
ghost use Rattle.jobs_text.specs.Jobs.{calls_in};
ghost use Rattle.workers.specs.SharedCalls.{IsTeam, IsNoTeam};
ghost use Rattle.workers.specs.Worked.{are_workers, are_tries};

use crate::fault::WorkFault;
use jobs_text::Job;
use std::alloc::{AllocError, Global};
use type_table::{MOST_TRIES, MOST_WORKERS};
use worker_turns::{Report, Worker};

/// The workers, and a list with room for the report of each.
#[derive(Drop)]
pub struct Team {
    pub workers: Vec<Worker>,
    pub reports: Vec<Report>,
}

/// A worker for each list of jobs, each job tried at most `tries` times.
///
/// # Errors
///
/// `BadWorkers` where there aren't 1 to 16 lists, else `BadTries` where there aren't 1 to 100 tries, or
/// `NoMemory`.
pub fn team_of(alloc: Global, jobs: Vec<Vec<Job>>, tries: u8) -> Result<Team, WorkFault>
    ensures team { IfOk result (λ team. IsTeam (map calls_in jobs.items) tries team) }
    ensures refused { IfErr result (λ fault. IsNoTeam (length jobs.items) tries fault) }
{
    if jobs.is_empty() || jobs.len() > MOST_WORKERS {
        return Err(WorkFault::BadWorkers);
    }
    if tries == 0 || tries > MOST_TRIES {
        return Err(WorkFault::BadTries);
    }
    match workers_of(alloc, jobs, tries) {
        Ok(team) => Ok(team),
        Err(_) => Err(WorkFault::NoMemory),
    }
}

/// The workers for lists of jobs and tries, whose numbers are in range.
fn workers_of(alloc: Global, jobs: Vec<Vec<Job>>, tries: u8) -> Result<Team, AllocError>
    requires lists { are_workers (length jobs.items) ≡ true }
    requires tries { are_tries tries ≡ true }
    ensures { IfOk result (λ team. IsTeam (map calls_in jobs.items) tries team) }
{
    let reports = Vec::with_capacity(alloc, jobs.len())?;
    let mut workers = Vec::with_capacity(alloc, jobs.len())?;
    for list in jobs {
        workers.push_reserved(Worker::new(alloc, list, tries)?);
    }
    Ok(Team { workers, reports })
}
