//! Worked examples of the definitions: each function does nothing, and its contract is the example.
#![tactic(auto)]

ghost use Rattle.std.specs.Prelude.{◌≡◌, [], ◌∷◌, ◌++◌, take, None, codes};
ghost use Rattle.type_table.specs.declared.kind.Kind.TheVariants.{Undo};
ghost use Rattle.line_text.specs.declared.fault.FaultKind.TheVariants.{UnknownWord, BadNumber, OutOfRange, OutOfOrder, Missing, AfterEnd};
ghost use Rattle.store_text.specs.declared.line.Line.TheVariants.{Max, Object, End};
ghost use Rattle.store_text.specs.Said.{entries_of};
ghost use Rattle.jobs_text.specs.Jobs.{jobs_of};
ghost use Rattle.jobs_text.specs.Examples.{SaysJobs, RefusesJobs, jobs_text, job_lines, jobs_lines, jobs_with, sized_jobs_text, sized_jobs_lines, sized_jobs_with};

pub fn texts_say_their_lines()
    ensures jobs { SaysJobs jobs_text jobs_lines }
    ensures sized { SaysJobs sized_jobs_text sized_jobs_lines }
    ensures spaced { SaysJobs
        (codes "# note" ∷ codes " max  2" ∷ [] ∷ codes "object undo 0" ∷ codes "end" ∷ codes "#" ∷ [])
        (Max 2 ∷ Object Undo 0 None ∷ End ∷ []) }
{}

pub fn lines_say_their_jobs()
    ensures lines { entries_of jobs_lines ≡ job_lines }
    ensures first { jobs_of 0 job_lines ≡ [] ∷ [] }
    ensures second { jobs_of 1 job_lines ≡ ((0, codes "inc:1") ∷ (255, codes "dec:1") ∷ []) ∷ ((0, codes "dec:1") ∷ []) ∷ [] }
    ensures third { jobs_of 2 job_lines ≡ [] }
{}

pub fn faults_of_the_jobs()
    ensures no_job { RefusesJobs (jobs_with 2 (codes "do 0 inc:1")) 3 Missing }
    ensures high_worker { RefusesJobs (jobs_with 2 (codes "job 2")) 3 OutOfRange }
    ensures high_object { RefusesJobs (jobs_with 3 (codes "do 256 inc:1")) 4 OutOfRange }
    ensures missing_before_range { RefusesJobs (jobs_with 2 (codes "do 256 inc:1")) 3 Missing }
    ensures name_before_number { RefusesJobs (jobs_with 3 (codes "do 00 INC")) 4 UnknownWord }
    ensures leading_zero { RefusesJobs (jobs_with 3 (codes "do 00 inc:1")) 4 BadNumber }
    ensures late_object { RefusesJobs (jobs_with 5 (codes "object undo 0")) 6 OutOfOrder }
    ensures no_object { RefusesJobs (codes "max 20" ∷ codes "job 0" ∷ []) 2 Missing }
    ensures no_end { RefusesJobs (take 8 jobs_text) 9 Missing }
    ensures second_end { RefusesJobs (jobs_text ++ codes "end" ∷ []) 10 AfterEnd }
{}

pub fn faults_of_the_size()
    ensures high_object { RefusesJobs (sized_jobs_with 4 (codes "do 300 inc:1")) 5 OutOfRange }
    ensures high_file { RefusesJobs (sized_jobs_with 2 (codes "object undo 300")) 3 OutOfRange }
    ensures no_size { RefusesJobs (sized_jobs_with 0 (codes "objects 0")) 1 OutOfRange }
    ensures high_size { RefusesJobs (sized_jobs_with 0 (codes "objects 65537")) 1 OutOfRange }
    ensures no_limit { RefusesJobs (sized_jobs_with 1 (codes "# max 20")) 3 Missing }
    ensures late_size { RefusesJobs (jobs_with 1 (codes "objects 300")) 2 UnknownWord }
{}
