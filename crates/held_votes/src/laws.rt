//! Laws: functions that do nothing, whose contracts are the laws.

ghost use Rattle.std.specs.Prelude.{List, ℕ, ◌++◌, Option};
ghost use Rattle.durable_store.specs.declared.durable.Durable.{Durable};
ghost use Rattle.held_votes.specs.VotesHeld.{DurableRowsBegan, RowsHadBegun, VotesAreHeld};
ghost use Rattle.request_text.specs.declared.request.Asked.{Asked};
ghost use Rattle.serving.specs.declared.answer_line.Answered.{Answered};
ghost use Rattle.serving.specs.Acknowledged.{AreLast};
ghost use Rattle.serving.specs.Left.{Began, Survives};
ghost use Rattle.serving.specs.Lines.{AreLines};

use sqlite_trees::store::Alter;

/// Where a crash leaves what was asked for, whatever file it leaves has each vote that was answered: its transaction is
/// prepared still, under the key and the name that were said, and what survives of it is what survived when it was
/// answered; or it was decided, and the file says what, where fewer outcomes were kept since than stay at least.
pub fn told_votes_are_held<S: Alter>()
    ensures { (b : Began) (all : List (List ℕ)) (ended : Option Asked) (given_now : Option (List ℕ)) (seen rest half : List ℕ) (lines : List (List ℕ)) (answers : List Answered) (now : Durable S)
        → RowsHadBegun b → AreLines seen lines half → Survives S.Store b (AreLast all ended given_now) (seen ++ rest) answers now → VotesAreHeld S.Store b (AreLast all ended given_now) lines answers now }
{}

/// Where serving begins over a durable store, each row of who was prepared is of a transaction that had begun.
pub fn rows_of_a_durable_store_began<S: Alter>()
    ensures { DurableRowsBegan S.Store }
{}
