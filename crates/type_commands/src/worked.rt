//! Worked examples of the definitions: each function does nothing, and its contract is the example.
#![tactic(auto)]

ghost use Rattle.std.specs.Prelude.{◌≡◌, ◌∷◌, [], ◌++◌, ℕ, List, None, Some, Ok, Err, codes};
ghost use Rattle.std.specs.Borrow.{Bor};
ghost use Rattle.command_files.specs.declared.fault.Fault.{Fault as FaultValue};
ghost use Rattle.command_files.specs.declared.status.Verdict.{Verdict as VerdictValue};
ghost use Rattle.declared_text.specs.Examples.{credit_bytes};
ghost use Rattle.need_text.specs.Numeric.{bounds_line};
ghost use Rattle.line_text.specs.declared.fault.TextFault.{TextFault};
ghost use Rattle.number_types.specs.Examples.{purse};
ghost use Rattle.number_types.specs.Number.{Number, IsNumber};
ghost use Rattle.number_types.specs.Operations.{number_table};
ghost use Rattle.declared_types.specs.Declarations.{number_file, rows_of};
ghost use Rattle.declared_types.specs.declared.declared_type.Declaration.TheVariants.{Number as Numbers};
ghost use Rattle.type_commands.specs.Accepted.{IsFor, IsSaidStrongly};
ghost use Rattle.type_commands.specs.Explain.{asked_rows};
ghost use Rattle.type_commands.specs.Request.{counter, number, queue};
ghost use Rattle.type_commands.specs.Rows.{type_row_line, rows_text};
ghost use Rattle.type_commands.specs.Verdict.{CannotBeChecked, ChecksFile, IsToldEscrow, SaysOf};

use command_files::{Fault, Verdict};
use declared_text::worked::a_text_declares_the_credit;
use table_checker::{number_is_checked, one_answer, yes_covers};
use type_table::Kind;

/// Of a number the one answer for escrow is that it is a strong yes.
pub fn numbers_are_strong()
    ensures strong { (v : Number) → IsNumber v → SaysOf Kind.Escrow (number_file v) Verdict.Yes (codes "yes strong\n") }
    ensures one_way { (v : Number) → SaysOf Kind.Escrow (number_file v) Verdict.Yes (codes "yes one-way\n") → ⊥ }
    ensures no { (v : Number) → IsNumber v → (text : List ℕ) → SaysOf Kind.Escrow (number_file v) Verdict.No text → ⊥ }
{
    number_is_checked();
    yes_covers();
    one_answer();
}

/// The credit has an answer for escrow, and for update in place none.
pub fn the_credit_is_for_escrow()
    ensures escrow { ChecksFile (Some credit_bytes) Kind.Escrow Verdict.Yes (codes "yes strong\n") }
    ensures amiss { CannotBeChecked Kind.Undo credit_bytes }
    ensures no_answer { (verdict : VerdictValue) (text : List ℕ) → ChecksFile (Some credit_bytes) Kind.Undo verdict text → ⊥ }
{
    numbers_are_strong();
    a_text_declares_the_credit();
}

/// What `make` makes is for escrow where it is a counter, and not where it is a queue; a number is for nothing else.
pub fn a_queue_is_not_for_escrow()
    ensures counter { IsFor (counter 2 (1 ∷ [])) Kind.Escrow }
    ensures queue { IsFor (queue (codes "a" ∷ []) 2) Kind.Undo }
    ensures no_queue { IsFor (queue (codes "a" ∷ []) 2) Kind.Escrow → ⊥ }
    ensures number { IsFor (number 5 (1 ∷ [])) Kind.Undo → ⊥ }
    ensures strong { IsSaidStrongly Verdict.Yes (codes "yes strong\n") }
    ensures one_way { IsSaidStrongly Verdict.Yes (codes "yes one-way\n") → ⊥ }
{}

/// That a number needs escrow is told by no answer, and by no fault of a text.
pub fn a_number_is_told()
    ensures told { (path : Bor (List ℕ)) → IsToldEscrow {A = VerdictValue} path.now (Err (Fault.NeedsEscrow path)) }
    ensures text { (path : Bor (List ℕ)) (fault : TextFault) → IsToldEscrow {A = VerdictValue} path.now (Err (Fault.Text path fault)) → ⊥ }
    ensures answer { (path : List ℕ) → IsToldEscrow path (Ok Verdict.Yes) → ⊥ }
{}

/// The rows of the purse, of which 3 may be taken by a line of its own, and any other amount.
pub fn rows_of_the_purse()
    ensures listed { type_row_line (Numbers purse) 1 ≡ bounds_line (number_table purse) 1 }
    ensures any { rows_text (Numbers purse) (2 ∷ 3 ∷ 4 ∷ 5 ∷ 6 ∷ []) ≡
        codes "bounds take:any/ok N 9 -N\n"
        ++ codes "bounds take:any/short 0 N-1 0\n"
        ++ codes "bounds give:any/ok 0 9-N +N\n"
        ++ codes "bounds give:any/full 9-N+1 9 0\n"
        ++ codes "bounds value/n N N 0\n" }
    ensures named { asked_rows (rows_of (Numbers purse)) (Some (codes "take:any/short", codes "value/n")) ≡ Some (Some (3, 6)) }
    ensures numbered { asked_rows (rows_of (Numbers purse)) (Some (codes "1", codes "5")) ≡ Some (Some (1, 5)) }
    ensures past { asked_rows (rows_of (Numbers purse)) (Some (codes "0", codes "7")) ≡ None }
    ensures no_row { asked_rows (rows_of (Numbers purse)) (Some (codes "take:4/ok", codes "0")) ≡ None }
{}
