//! The jobs that the lines of an accepted text describe.

ghost use Rattle.std.specs.Prelude.{◌≡◌, ℕ, ◌<◌, true, [], length, IfOk, OnOk};
ghost use Rattle.std.specs.List.{AllByRecursion};
ghost use Rattle.jobs_text.specs.JobLines.{is_in_range};
ghost use Rattle.jobs_text.specs.Jobs.{calls_before_job, job_at, job_of_worker, AddJobs, AreJobsOf};

use crate::job_line::JobLine;
use crate::jobs_file::Job;
use std::alloc::{AllocError, Global};
use type_table::Name;

/// The jobs of each worker in the order of their lines.
pub fn jobs_of(alloc: Global, workers: u8, lines: &[JobLine]) -> Result<Vec<Vec<Job>>, AllocError>
    requires { (objects : ℕ) × AllByRecursion (λ line. is_in_range workers objects line ≡ true) lines.now }
    ensures { IfOk result (λ lists. AreJobsOf workers lines.now lists.items) }
{
    let mut lists = no_jobs(alloc, workers)?;
    for position in 0..lines.len() {
        add_job(alloc, &mut lists, lines[position], &lines[position + 1..])?;
    }
    Ok(lists)
}

/// An empty list for each worker.
fn no_jobs(alloc: Global, workers: u8) -> Result<Vec<Vec<Job>>, AllocError>
    ensures count { IfOk result (λ lists. length lists.items ≡ workers) }
    ensures empty { IfOk result (λ lists. AllByRecursion (λ list. list.items ≡ []) lists.items) }
{
    let mut lists = Vec::with_capacity(alloc, workers as usize)?;
    for _ in 0..workers {
        lists.push(Vec::new(alloc))?;
    }
    Ok(lists)
}

/// Puts the job that a line opens, if it opens one, after those of its worker.
fn add_job(
    alloc: Global,
    lists: &mut Vec<Vec<Job>>,
    line: JobLine,
    behind: &[JobLine],
) -> Result<(), AllocError>
    requires { (w : ℕ) → line ≡ JobLine.Job w → w < length lists.old.items }
    ensures { OnOk result (AddJobs lists.old.items lists.new.items (λ w. job_at w line behind.now)) }
{
    if let JobLine::Job(worker) = line {
        let calls = calls_of(alloc, behind)?;
        push_job(lists, worker as usize, Job { calls })?;
    }
    Ok(())
}

/// Puts a job after those of its worker.
fn push_job(lists: &mut Vec<Vec<Job>>, worker: usize, job: Job) -> Result<(), AllocError>
    requires { worker < length lists.old.items }
    ensures { OnOk result (AddJobs lists.old.items lists.new.items (λ w. job_of_worker worker w job.calls.items)) }
{
    lists[worker].push(job)?;
    Ok(())
}

/// The calls of the `do` lines before the next `job` line. There is room for just as many.
fn calls_of(alloc: Global, lines: &[JobLine]) -> Result<Vec<(u32, Name)>, AllocError>
    ensures { IfOk result (λ calls. calls.items ≡ calls_before_job lines.now) }
{
    let mut calls = Vec::with_capacity(alloc, call_count(lines))?;
    for line in lines {
        let JobLine::Do { x, call } = *line else {
            return Ok(calls);
        };
        calls.push((x, call))?;
    }
    Ok(calls)
}

/// How many `do` lines are before the next `job` line.
fn call_count(lines: &[JobLine]) -> usize
    ensures { result ≡ length (calls_before_job lines.now) }
{
    for position in 0..lines.len() {
        if let JobLine::Job(_) = lines[position] {
            return position;
        }
    }
    lines.len()
}
