//! Worked examples of histories: each function does nothing, and its contract is the example.
#![tactic(auto)]

ghost use Rattle.std.specs.Prelude.{◌≡◌, [], ◌∷◌, List};
ghost use Rattle.history_text.specs.declared.history_file.HistoryFile.{HistoryFile as HistoryValue};
ghost use Rattle.history_text.specs.Examples.{ended, two_objects_text, some_events, some_objects};
ghost use Rattle.store_files.specs.Histories.{DescribesHistory, IsFaultyHistory};
ghost use Rattle.store_files.specs.HistoryExamples.{HasHistory, endless_history};

use history_text::worked::{faults_of_the_history, lines_say_their_history, texts_say_their_lines};

/// A text describes its history, and without its `end` it has a fault.
pub fn a_text_describes_its_history()
    ensures described { (h : HistoryValue) → HasHistory some_objects some_events h → DescribesHistory (ended two_objects_text) h }
    ensures faultless { IsFaultyHistory (ended two_objects_text) → ⊥ }
    ensures other { (h : HistoryValue) → HasHistory some_objects [] h → DescribesHistory (ended two_objects_text) h → ⊥ }
    ensures faulty { IsFaultyHistory endless_history }
{
    texts_say_their_lines();
    lines_say_their_history();
    faults_of_the_history();
}
