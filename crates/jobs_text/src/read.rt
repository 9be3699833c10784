ghost use Rattle.std.specs.Prelude.{IfOk};
ghost use Rattle.store_text.specs.Parts.{ReadsStoreText};
ghost use Rattle.jobs_text.specs.JobLines.{jobs};
ghost use Rattle.jobs_text.specs.Jobs.{IsJobsOf, AreJobsFit};

use crate::build::jobs_of;
use crate::job_lines::Jobs;
use crate::jobs_file::JobsFile;
use line_text::{FaultKind, TextFault};
use std::alloc::Global;
use store_text::{Parts, read_parts};

/// The jobs of a text for this many workers, or the text's first fault.
///
/// `NoMemory` comes in place of either where memory was refused; its line is the one that was
/// being read, or the first where the lines were read and the jobs were being built.
pub fn read_jobs(alloc: Global, text: &[u8], workers: u8) -> Result<JobsFile, TextFault>
    ensures exact { ReadsStoreText (jobs workers) (IsJobsOf workers) result text.now }
    ensures fit { IfOk result AreJobsFit }
{
    let parts = read_parts(alloc, Jobs { workers }, text)?;
    let Parts {
        size,
        max,
        objects,
        entries: mut lines,
    } = parts;
    lines.shrink_to_fit();
    match jobs_of(alloc, workers, &lines) {
        Ok(jobs) => Ok(JobsFile {
            size,
            max,
            objects,
            jobs,
        }),
        Err(_) => Err(TextFault {
            line: 1,
            kind: FaultKind::NoMemory,
        }),
    }
}
