//! Worked examples of the definitions: each function does nothing, and its contract is the example.
#![tactic(auto)]

ghost use Rattle.std.specs.Prelude.{◌≡◌, [], None, Some, Ok, Err, codes};
ghost use Rattle.table_checker.specs.Examples.{counter_file};
ghost use Rattle.declared_types.specs.declared.declared_type.Declaration.TheVariants.{Table};
ghost use Rattle.command_files.specs.Answers.{Comes, IsThis};
ghost use Rattle.command_files.specs.Files.{Describes, IsDeclaredAt, IsFaulty, IsFaultyDeclaration, IsFileAt};
ghost use Rattle.command_files.specs.Refusals.{no_line};
ghost use Rattle.command_files.specs.Source.{source_fault};
ghost use Rattle.command_files.specs.Status.{status_code, status_of};
ghost use Rattle.command_files.specs.Examples.{counter_bytes, endless_bytes};

use crate::fault::Fault;
use crate::source::SourceFault;
use crate::status::{Status, Verdict};
use std::io::ErrorKind;
use table_checker::CheckRefusal;
use type_text::canonical_is_read;
use type_text::worked::faults_of_the_counter;

/// That memory was refused is kept apart from every other error of the system.
pub fn errors_of_the_system()
    ensures memory { source_fault ErrorKind.OutOfMemory ≡ SourceFault.NoMemory }
    ensures missing { source_fault ErrorKind.NotFound ≡ SourceFault.CannotRead }
    ensures denied { source_fault ErrorKind.PermissionDenied ≡ SourceFault.CannotRead }
{}

/// Each status has its number, and each fault its status.
pub fn statuses_of_faults()
    ensures parameters { status_code (status_of Fault.BadParameter) ≡ 2 }
    ensures memory { status_code (status_of Fault.NoMemory) ≡ 3 }
    ensures output { status_code (status_of Fault.Output) ≡ 3 }
{}

/// An answer comes with its text; where the output failed it took a beginning, and of a fault of what the
/// user gave nothing.
pub fn answers_come_with_their_texts()
    ensures written { Comes (IsThis Verdict.Yes (codes "ab\n")) ⊥ (Ok Verdict.Yes) (Some (codes "x")) (Some (codes "xab\n")) }
    ensures cut { Comes (IsThis Verdict.Yes (codes "ab\n")) ⊥ (Ok Verdict.Yes) (Some (codes "x")) (Some (codes "xa")) → ⊥ }
    ensures failed { Comes (IsThis Verdict.Yes (codes "ab\n")) ⊥ (Err Fault.Output) (Some (codes "x")) (Some (codes "xa")) }
    ensures other { Comes (IsThis Verdict.Yes (codes "ab\n")) ⊥ (Err Fault.Output) (Some (codes "x")) (Some (codes "xb")) → ⊥ }
    ensures no_other { Comes (IsThis Verdict.Yes (codes "ab\n")) ⊥ (Ok Verdict.No) (Some (codes "x")) (Some (codes "xab\n")) → ⊥ }
    ensures no_fault { Comes (IsThis Verdict.Yes (codes "ab\n")) ⊥ (Err Fault.BadParameter) (Some []) (Some []) → ⊥ }
{}

/// The line of a no has the numbers of its place, in their order.
pub fn lines_of_a_no()
    ensures initial { no_line CheckRefusal.InitialOutside ≡ codes "no InitialOutside\n" }
    ensures closed { no_line (CheckRefusal.NotClosed 12 3) ≡ codes "no NotClosed 12 3\n" }
    ensures simulation { no_line (CheckRefusal.NotSimulation 1023 0 63) ≡ codes "no NotSimulation 1023 0 63\n" }
    ensures commuting { no_line (CheckRefusal.NotCommuting 1 0 2) ≡ codes "no NotCommuting 1 0 2\n" }
    ensures numeric { no_line (CheckRefusal.NotNumeric 63 1023) ≡ codes "no NotNumeric 63 1023\n" }
{}

/// The text of the counter describes its file and declares it, and has no fault.
pub fn a_text_describes_its_file()
    ensures described { Describes counter_bytes counter_file }
    ensures declared { IsDeclaredAt (Some counter_bytes) (Table counter_file) }
    ensures faultless { IsFaulty counter_bytes → ⊥ }
{
    canonical_is_read();
}

/// Without its `end` it describes no file, and declares no type.
pub fn a_text_with_a_fault()
    ensures faulty { IsFaulty endless_bytes }
    ensures undeclared { IsFaultyDeclaration endless_bytes }
    ensures told { IsFileAt (Some endless_bytes) counter_file → ⊥ }
    ensures untold { IsFileAt None counter_file }
{
    faults_of_the_counter();
}
