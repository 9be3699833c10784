//! Laws: functions that do nothing, whose contracts are the laws.

ghost use Rattle.std.specs.Prelude.{◌≡◌, ◌≢◌, ◌<◌, List, ℕ, ◌++◌, length, true, Option, Some};
ghost use Rattle.durable_store.specs.declared.durable.Durable.{Durable};
ghost use Rattle.serving.specs.declared.answer_line.Answered.{Answered};
ghost use Rattle.journal.specs.Contents.{Contents};
ghost use Rattle.request_text.specs.declared.request.Asked.{Asked};
ghost use Rattle.request_text.specs.declared.request.TransactionName.{TransactionName};
ghost use Rattle.serving.specs.declared.answer_line.AnswerLine.{AnswerLine as Told};
ghost use Rattle.serving.specs.declared.extension.Extension.{Extension};
ghost use Rattle.serving.specs.Acknowledged.{AreLast};
ghost use Rattle.serving.specs.Does.{DoesBegin};
ghost use Rattle.serving.specs.NextEpoch.{begin_limit};
ghost use Rattle.store_laws.specs.Stored.{Stored};
ghost use Rattle.serving.specs.AnswersFound.{AnswersAreFound, TransactionsAreFound};
ghost use Rattle.serving.specs.CommitsFound.{CommitsAreFound};
ghost use Rattle.serving.specs.KeysFound.{KeysAreFound};
ghost use Rattle.serving.specs.Left.{Began, Survives};
ghost use Rattle.serving.specs.Lines.{AreLines};
ghost use Rattle.serving.specs.Names.{AreNamedApart, KnownNames, known_name, number_named};
ghost use Rattle.serving.specs.Served.{KnewNames};

use crate::answer_line::AnswerLine;
use sqlite_trees::store::Alter;

/// Where a crash leaves what was asked for, whatever file it leaves has each commit that was answered: it is one of the
/// events while the file is in the transaction's life, and a file of a later life began at states that a store with the
/// commit had kept.
pub fn told_commits_are_found<S: Alter>()
    ensures { (b : Began) (all : List (List ℕ)) (ended : Option Asked) (given_now : Option (List ℕ)) (seen rest half : List ℕ) (lines : List (List ℕ)) (answers : List Answered) (now : Durable S)
        → AreLines seen lines half → Survives S.Store b (AreLast all ended given_now) (seen ++ rest) answers now → CommitsAreFound S.Store b (AreLast all ended given_now) lines answers now }
{}

/// Each answer that no crash takes away is found so: whatever file a crash leaves goes on from the moment at which a line
/// was answered.
pub fn told_answers_are_found<S: Alter>()
    ensures { (b : Began) (all : List (List ℕ)) (ended : Option Asked) (given_now : Option (List ℕ)) (seen rest half : List ℕ) (lines : List (List ℕ)) (answers : List Answered) (now : Durable S)
        → AreLines seen lines half → Survives S.Store b (AreLast all ended given_now) (seen ++ rest) answers now → AnswersAreFound S.Store b (AreLast all ended given_now) lines answers now }
{}

/// So is each whole transaction that was answered as done, with its calls, its replies and its commit.
pub fn told_transactions_are_found<S: Alter>()
    ensures { (b : Began) (all : List (List ℕ)) (ended : Option Asked) (given_now : Option (List ℕ)) (seen rest half : List ℕ) (lines : List (List ℕ)) (answers : List Answered) (now : Durable S)
        → AreLines seen lines half → Survives S.Store b (AreLast all ended given_now) (seen ++ rest) answers now → TransactionsAreFound S.Store b (AreLast all ended given_now) lines answers now }
{}

/// So is what became of a transaction that has a key: whatever file a crash leaves knows each that was answered as committed under
/// a key, with the replies that were told, where fewer outcomes were kept since than stay at least.
pub fn told_keys_are_found<S: Alter>()
    ensures { (b : Began) (all : List (List ℕ)) (ended : Option Asked) (given_now : Option (List ℕ)) (seen rest half : List ℕ) (lines : List (List ℕ)) (answers : List Answered) (now : Durable S)
        → AreLines seen lines half → Survives S.Store b (AreLast all ended given_now) (seen ++ rest) answers now → KeysAreFound S.Store b (AreLast all ended given_now) lines answers now }
{}

/// Where all that is open goes over, no begin is told to wait for the end of an epoch, whether it is full or an extension waits.
pub fn no_begin_drains_where_all_goes_over()
    ensures { (waits : Option Extension) (most life : ℕ) (old new : Stored) (answer : Told) → length old.history < 4294967295
        → DoesBegin (begin_limit true waits most) life old answer new → answer ≢ AnswerLine.Draining }
{}

/// Each transaction is found by the name by which its client knows it, and by that name alone.
pub fn each_transaction_has_one_name()
    ensures found { (names : KnownNames) (n : ℕ) → AreNamedApart names → number_named names (known_name names n) ≡ Some n }
    ensures alone { (names : KnownNames) (t : TransactionName) (n : ℕ) → AreNamedApart names → number_named names t ≡ Some n → t ≡ known_name names n }
{}

/// Where who was carried is named apart as a session begins, it is so in each of its epochs.
pub fn names_stay_apart()
    ensures { (most : ℕ) (c : Contents) (first : KnownNames) (old : Stored) (names : KnownNames)
        → AreNamedApart first → KnewNames (Unit {0}) most c first old names → AreNamedApart names }
{}
