//! The lines of the jobs.

ghost use Rattle.std.specs.Prelude.{◌≡◌, map};
ghost use Rattle.jobs_text.specs.JobLines.{jobs, job_line_of, job_of, do_of};

use crate::job_line::JobLine;
use line_text::{FaultKind, exactly, is_key, name_at, number_at};
use std::alloc::{AllocError, Global};
use store_text::Entries;

/// The jobs of this many workers.
#[derive(Clone, Copy)]
pub struct Jobs {
    pub workers: u8,
}

impl Entries for Jobs {
    type Entry = JobLine;

    type Kept = Vec<JobLine>;

    ghost body = { λ g. jobs g.workers };

    ghost said = { λ lines. lines.items };

    fn has_max(&self) -> bool {
        true
    }

    #[tactic(auto, unfolding(crate::specs::JobLines::job_line_of))]
    fn entry(&self, words: &[&[u8]]) -> Result<JobLine, FaultKind> {
        if is_key(words, "job") {
            job_of(words)
        } else if is_key(words, "do") {
            do_of(words)
        } else {
            Err(FaultKind::UnknownWord)
        }
    }

    fn nothing(&self, alloc: Global) -> Vec<JobLine> {
        Vec::new(alloc)
    }

    fn keep(
        &self,
        lines: &mut Vec<JobLine>,
        _objects: u32,
        entry: JobLine,
    ) -> Result<(), AllocError> {
        lines.push(entry)?;
        Ok(())
    }

    fn are_few(&self, lines: &Vec<JobLine>) {
        lines.as_slice();
    }

    fn is_in_range(&self, objects: u32, entry: JobLine) -> bool {
        match entry {
            JobLine::Job(w) => w < u32::from(self.workers),
            JobLine::Do { x, .. } => x < objects,
        }
    }

    fn wants_another(&self, entry: JobLine) -> bool {
        match entry {
            JobLine::Job(_) => false,
            JobLine::Do { .. } => true,
        }
    }
}

#[tactic(auto, unfolding(crate::specs::JobLines::job_of))]
fn job_of(words: &[&[u8]]) -> Result<JobLine, FaultKind>
    ensures { result ≡ job_of (map (λ w. w.now) words.now) }
{
    exactly(words, 2)?;
    let w = number_at(words, 1)?;
    Ok(JobLine::Job(w))
}

#[tactic(auto, unfolding(crate::specs::JobLines::do_of))]
fn do_of(words: &[&[u8]]) -> Result<JobLine, FaultKind>
    ensures { result ≡ do_of (map (λ w. w.now) words.now) }
{
    exactly(words, 3)?;
    let call = name_at(words, 2)?;
    let x = number_at(words, 1)?;
    Ok(JobLine::Do { x, call })
}
