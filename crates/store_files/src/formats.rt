//! The formats of texts that name the objects of a store.

ghost use Rattle.script_text.specs.Script.{IsFit};
ghost use Rattle.store_files.specs.Scripts.{DescribesScript, IsFaultyScript};
ghost use Rattle.store_files.specs.Jobs.{AreJobsFor, DescribesJobs, IsFaultyJobs};
ghost use Rattle.store_files.specs.Histories.{DescribesHistory, IsFaultyHistory};
ghost use Rattle.std.specs.Prelude.{⊤};

use command_files::Format;
use history_text::{HistoryFile, read_history};
use jobs_text::{JobsFile, read_jobs};
use line_text::TextFault;
use script_text::{Script, read_script};
use std::alloc::Global;

/// The format of scripts.
#[derive(Clone, Copy)]
pub struct ScriptFormat;

impl Format for ScriptFormat {
    type Value = Script;

    ghost describes = { λ _ text script. DescribesScript text script };

    ghost is_fit = { λ _ script. IsFit script };

    ghost is_faulty = { λ _ text. IsFaultyScript text };

    fn read(&self, alloc: Global, text: &[u8]) -> Result<Script, TextFault> {
        read_script(alloc, text)
    }
}

/// The format of jobs for this many workers, 1 to 16.
#[derive(Clone, Copy)]
pub struct JobsFormat {
    pub workers: u8,
}

impl Format for JobsFormat {
    type Value = JobsFile;

    ghost describes = { λ format text file. DescribesJobs format.workers text file };

    ghost is_fit = { λ format file. AreJobsFor format.workers file };

    ghost is_faulty = { λ format text. IsFaultyJobs format.workers text };

    fn read(&self, alloc: Global, text: &[u8]) -> Result<JobsFile, TextFault> {
        read_jobs(alloc, text, self.workers)
    }
}

/// The format of histories.
#[derive(Clone, Copy)]
pub struct HistoryFormat;

impl Format for HistoryFormat {
    type Value = HistoryFile;

    ghost describes = { λ _ text file. DescribesHistory text file };

    ghost is_fit = { λ _ _. ⊤ };

    ghost is_faulty = { λ _ text. IsFaultyHistory text };

    fn read(&self, alloc: Global, text: &[u8]) -> Result<HistoryFile, TextFault> {
        read_history(alloc, text)
    }
}
