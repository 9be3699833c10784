//! Worked examples of the definitions: each function does nothing, and its contract is the example.
#![tactic(auto)]

ghost use Rattle.std.specs.Prelude.{◌≡◌, [], ◌∷◌, Ok, Err, codes};
ghost use Rattle.serial_order.specs.declared.refusal.Refusal.TheVariants.{NoObject, HistoryFull};
ghost use Rattle.history_judge.specs.declared.outcome.Audit.{Audit as AuditValue};
ghost use Rattle.history_judge.specs.declared.outcome.AuditFault.TheVariants.{NoMemory};
ghost use Rattle.worker_turns.specs.declared.outcome.Outcome.TheVariants.{Committed, GaveUp, Refused, NotRun};
ghost use Rattle.worker_turns.specs.declared.outcome.Report.{Report as ReportValue};
ghost use Rattle.work_text.specs.Examples.{ended, one_object_line, one_up_by_one, HasOutcomes, IsYesWith};
ghost use Rattle.work_text.specs.Lines.{kept_text, report_text, reports_text};
ghost use Rattle.work_text.specs.Text.{work_text};

/// A line for each object has its place and its kept state.
pub fn lines_of_kept_states()
    ensures two { kept_text (4 ∷ 1023 ∷ []) ≡ codes "# kept 0 4\n# kept 1 1023\n" }
    ensures none { kept_text [] ≡ [] }
{}

/// Each outcome has its line.
pub fn lines_of_a_report()
    ensures each { (r : ReportValue) → HasOutcomes (Committed 12 ∷ GaveUp ∷ Refused HistoryFull ∷ NotRun ∷ []) r
        → report_text (3, r) ≡ ended (codes "# job 3 0 committed 12" ∷ codes "# job 3 1 gaveup" ∷ codes "# job 3 2 refused 5 HistoryFull" ∷ codes "# job 3 3 notrun" ∷ []) }
    ensures none { (r : ReportValue) → HasOutcomes [] r → report_text (3, r) ≡ [] }
{}

/// The lines come in ascending order of the workers, whatever the transactions are. A worker without
/// jobs has none.
pub fn lines_of_workers()
    ensures { (a b c : ReportValue) → HasOutcomes (Committed 7 ∷ []) a → HasOutcomes [] b → HasOutcomes (Refused NoObject ∷ Committed 2 ∷ []) c
        → reports_text (a ∷ b ∷ c ∷ []) ≡ ended (codes "# job 0 0 committed 7" ∷ codes "# job 2 0 refused 2 NoObject" ∷ codes "# job 2 1 committed 2" ∷ []) }
{}

/// The whole text: the history, the kept states, the audit and the jobs.
pub fn text_of_work()
    ensures whole { (audit : AuditValue) (a b : ReportValue) → IsYesWith (0 ∷ []) (1 ∷ []) audit → HasOutcomes (NotRun ∷ []) a → HasOutcomes (Committed 0 ∷ []) b
        → work_text one_object_line one_up_by_one (1 ∷ []) (Ok audit) (a ∷ b ∷ []) ≡ ended
        (codes "object undo 0" ∷ codes "begin 1 0" ∷ codes "op 1 0 0 0" ∷ codes "commit 1 0" ∷ codes "end" ∷ codes "# kept 0 1"
        ∷ codes "# audit yes" ∷ codes "# commit 0" ∷ codes "# serial 0 1" ∷ codes "# job 0 0 notrun" ∷ codes "# job 1 0 committed 0" ∷ []) }
    ensures no_audit { (b : ReportValue) → HasOutcomes (Committed 0 ∷ []) b
        → work_text one_object_line [] (0 ∷ []) (Err NoMemory) (b ∷ []) ≡ ended (codes "object undo 0" ∷ codes "end" ∷ codes "# kept 0 0" ∷ codes "# job 0 0 committed 0" ∷ []) }
{}
