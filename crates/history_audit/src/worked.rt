//! Worked audits: each function does nothing, and its contract is what comes out of a small history.
#![tactic(auto, unfolding(type_table::specs::Table::next))]

ghost use Rattle.std.specs.Prelude.{◌≡◌, take, [], ◌∷◌, Some, None, Ok, Err, codes};
ghost use Rattle.type_table.specs.Run.{run};
ghost use Rattle.type_table.specs.Examples.{counter_table, one_way};
ghost use Rattle.type_table.specs.Table.{table_at};
ghost use Rattle.serial_order.specs.History.{commits, IsHistory};
ghost use Rattle.serial_order.specs.Examples.{one_way_history, unlocked_history, two_objects_history};
ghost use Rattle.history_judge.specs.Audit.{IsAudit, IsFirstBad, IsIllegalAt, IsFirstIllegal, ComesBefore, serial_up_to};
ghost use Rattle.history_audit.specs.Laws.{SaysAlike};
ghost use Rattle.history_audit.specs.Epochs.{AreAudits, AreHistories, serial_over_histories, tables_at};
ghost use Rattle.history_audit.specs.EpochText.{commit_line_in, epoch_fault_line, numbered_in};
ghost use Rattle.history_audit.specs.Text.{comment, committed_line, serial_line, audit_text};
ghost use Rattle.history_judge.specs.declared.outcome.Audit.{Audit as AuditValue};
ghost use Rattle.history_judge.specs.Examples.{two_counters, too_many_history, two_stops_history};
ghost use Rattle.history_audit.specs.Examples.{down_and_up, up_alone, two_histories};

use history_judge::AuditFault;

/// q is executed before p, whose transaction commits first: the audit has p before q, which leads to 4.
pub fn commit_order_is_audited()
    ensures history { IsHistory (one_way ∷ []) one_way_history }
    ensures audit { IsAudit (one_way ∷ []) one_way_history (1 ∷ 0 ∷ []) (4 ∷ []) }
{}

/// One counts up and another down, which commits first: its operation isn't legal in commit order.
pub fn legal_in_execution_order_alone()
    ensures history { IsHistory (counter_table ∷ []) unlocked_history }
    ensures first { IsFirstIllegal (counter_table ∷ []) unlocked_history (commits unlocked_history) 0 0 0 }
{}

/// A transaction takes two operations back, where it has one.
pub fn a_rollback_of_too_many()
    ensures { IsFirstBad (counter_table ∷ []) too_many_history 2 }
{}

/// What was struck isn't replayed: one up of three is left at the first object, and none at the second.
pub fn struck_operations_are_left_out()
    ensures { IsAudit two_counters two_objects_history (0 ∷ []) (1 ∷ 0 ∷ []) }
{}

/// Two operations aren't legal, at object 1 and then at object 0. The second comes first by its object; the two
/// before it there are legal.
pub fn the_least_object_comes_first()
    ensures executed_first { IsIllegalAt two_counters two_stops_history (commits two_stops_history) 0 1 0 }
    ensures first { IsIllegalAt two_counters two_stops_history (commits two_stops_history) 0 0 2 }
    ensures order { ComesBefore 0 0 2 0 1 0 }
    ensures legal { run counter_table (Some 0) (serial_up_to two_stops_history (commits two_stops_history) 0 0 0 1) ≡ Some 0 }
{}

/// The lines of audits.
pub fn lines_of_audits()
    ensures yes { comment (codes "audit" ∷ codes "yes" ∷ []) ≡ codes "# audit yes\n" }
    ensures committed { committed_line 12 ≡ codes "# commit 12\n" }
    ensures serial { serial_line (1, 4) ≡ codes "# serial 1 4\n" }
    ensures bad { audit_text (Err (AuditFault.BadEvent 2)) ≡ codes "# audit no BadEvent 2\n" }
    ensures illegal { audit_text (Err (AuditFault.IllegalOp 10 1 2)) ≡ codes "# audit no IllegalOp 10 1 2\n" }
    ensures nothing { audit_text (Err AuditFault.NoMemory) ≡ [] }
{}

/// Outcomes say the same exactly where the fault and its numbers are the same.
pub fn outcomes_say_alike()
    ensures same { SaysAlike (Err (AuditFault.IllegalOp 0 1 2)) (Err (AuditFault.IllegalOp 0 1 2)) }
    ensures another_number { SaysAlike (Err (AuditFault.BadEvent 2)) (Err (AuditFault.BadEvent 3)) → ⊥ }
    ensures a_yes { (a : AuditValue) → SaysAlike (Ok a) (Err (AuditFault.BadEvent 2)) → ⊥ }
{}

/// A counter is counted up in one history and down in the next: each has a yes, since the second begins where
/// the first ends, and the serial order is both. In the other order the first isn't legal. A counter that is
/// added between them begins at 0; in the first history it isn't there.
pub fn histories_follow_one_another()
    ensures begins { tables_at two_counters (1 ∷ []) ≡ table_at counter_table 1 ∷ counter_table ∷ [] }
    ensures all { AreHistories two_counters two_histories }
    ensures serial { serial_over_histories 0 two_histories ≡ 0 ∷ 1 ∷ [] }
    ensures added { serial_over_histories 1 two_histories ≡ 0 ∷ [] }
    ensures leads { run counter_table (Some 0) (serial_over_histories 0 two_histories) ≡ Some 0 }
    ensures audits { (a b : AuditValue) → a.order.items ≡ 0 ∷ [] → a.finals.items ≡ 1 ∷ [] → b.order.items ≡ 0 ∷ [] → b.finals.items ≡ 0 ∷ 1 ∷ []
        → AreAudits two_counters two_histories (a ∷ b ∷ []) }
    ensures turned { run counter_table (Some 0) (1 ∷ 0 ∷ []) ≡ None }
    ensures too_early { IsHistory (take up_alone.objects two_counters) down_and_up.events → ⊥ }
{}

/// The lines of an audit of several histories have the history's place before its numbers.
pub fn lines_of_histories()
    ensures number { numbered_in 2 40 ≡ codes "2.40" }
    ensures committed { commit_line_in 1 12 ≡ codes "# commit 1.12\n" }
    ensures bad { epoch_fault_line 1 (AuditFault.BadEvent 2) ≡ codes "# audit no BadEvent 1.2\n" }
    ensures illegal { epoch_fault_line 3 (AuditFault.IllegalOp 10 1 2) ≡ codes "# audit no IllegalOp 3.10 1 2\n" }
    ensures nothing { epoch_fault_line 3 AuditFault.NoMemory ≡ [] }
{}
