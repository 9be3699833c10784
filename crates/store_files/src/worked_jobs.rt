//! Worked examples of jobs: each function does nothing, and its contract is the example.
#![tactic(auto)]

ghost use Rattle.std.specs.Prelude.{◌≡◌, [], ◌∷◌};
ghost use Rattle.jobs_text.specs.Examples.{ended, jobs_text};
ghost use Rattle.jobs_text.specs.declared.jobs_file.JobsFile.{JobsFile as JobsValue};
ghost use Rattle.store_files.specs.Jobs.{DescribesJobs, IsFaultyJobs};
ghost use Rattle.store_files.specs.JobExamples.{HasJobs, both_lists, one_object};

use jobs_text::worked::{lines_say_their_jobs, texts_say_their_lines};

/// A text describes the jobs of its workers. For one worker it has a fault: a job is worker 1's.
pub fn a_text_describes_its_jobs()
    ensures described { (file : JobsValue) → HasJobs 1000000 one_object both_lists file → DescribesJobs 2 (ended jobs_text) file }
    ensures limit { (file : JobsValue) → file.max ≡ 2 → DescribesJobs 2 (ended jobs_text) file → ⊥ }
    ensures faultless { IsFaultyJobs 2 (ended jobs_text) → ⊥ }
    ensures one_worker { IsFaultyJobs 1 (ended jobs_text) }
{
    texts_say_their_lines();
    lines_say_their_jobs();
}
