//! A store and the journal of what it does.

ghost use Rattle.std.specs.Prelude.{◌≡◌, ◌⊎◌, ◌<◌, [], ◌∷◌, length, Some, slice_get, IfErr, IfOk, OnOk, ℕ, ◌++◌, ◌&&◌, false, drop, take};
ghost use Rattle.sqlite_trees.specs.Tree.{Trees};
ghost use Rattle.event_text.specs.EventText.{AreShort, event_lines, events_of_kinds};
ghost use Rattle.journal.specs.Contents.{IsFile, contents_of};
ghost use Rattle.journal.specs.Journal.{Clean, IsAsWritten, ShowsCommit, durable, may_leave, written, IsNumbered, IsOpen, IsJournal};
ghost use Rattle.table_checker.specs.Checked.{Checked};
ghost use Rattle.durable_store.specs.Durable.{IsDurable, KeepsSettled, OutcomesStay, WritesSince, is_prepared, kinds, IsBehind, with_all};
ghost use Rattle.durable_store.specs.Held.{ArePrepared, prepared_numbers};
ghost use Rattle.durable_store.specs.NextStore.{GoOver};
ghost use Rattle.object_trait.specs.Orders.{Pairs};
ghost use Rattle.durable_store.specs.Epochs.{IsAhead, LeavesAhead, firsts, renewed, renewed_with, with_all_prepared};
ghost use Rattle.serial_order.specs.History.{begins, is_open, summary};
ghost use Rattle.store_laws.specs.Stored.{MayStep};
ghost use Rattle.store.specs.Ends.{closing_but};
ghost use Rattle.attempts.specs.Commands.{attempt_commands, asked_calls, is_memory_refused_at, commands_replayed};
ghost use Rattle.attempts.specs.Answers.{AttemptAnswers};
ghost use Rattle.durable_store.specs.Names.{find_named};
ghost use Rattle.durable_store.specs.Recovered.{Recovers, recovered};
ghost use Rattle.serial_order.specs.declared.command.Command.TheVariants as command;

use crate::held_list::{has_transaction, numbers_of};
use crate::next_store::going_over;
use crate::object_names::ObjectNames;
use crate::prepared::prepare_all;
use attempts::{Attempt, AttemptCall, attempt};
use journal::{FirstState, Header, Journal, JournalError, Prepared, TypeText};
use object_name::ObjectName;
use object_trait::{Event, EventKind};
use objects::Object;
use serial_order::Refusal;
use sqlite_trees::store::Alter;
use std::alloc::{AllocError, Global};
use store::{Store, steps_are_retraced};
use store_text::ObjectLine;

// the most objects whose states a journal writes anew
pub(crate) const MOST_STATES: usize = 65_536;

/// A store whose events are written into a file: what was settled survives a crash.
///
/// It works for one client, as worker 0. After a call at which the file failed it isn't to be used any more, but for
/// `into_trees`: an open says what of it is there. It can't be dropped, since its store can't.
pub struct Durable<S: Alter> {
    pub(crate) store: Store<Object>,
    pub(crate) journal: Journal<S>,
    pub(crate) names: ObjectNames,
    // Those that aren't decided, in the order in which they were prepared.
    pub(crate) prepared: Vec<Prepared>,
    // Whether the yes of each object's type is strong.
    pub(crate) strong: bool,
}

impl<S: Alter> Durable<S> {
    /// The store, to be read.
    pub fn store(&self) -> &Store<Object>
        ensures { result.now ≡ self.now.store }
    {
        &self.store
    }

    /// What its file says of itself.
    pub fn header(&self) -> &Header
        ensures { result.now ≡ self.now.journal.header }
    {
        self.journal.header()
    }

    /// The number of the present life: no other store over this file has had it or will have it.
    pub fn life(&self) -> u32
        ensures { result ≡ self.now.journal.header.life }
    {
        self.journal.life()
    }

    /// The names of its objects.
    pub fn names(&self) -> &ObjectNames
        ensures { result.now ≡ self.now.names }
    {
        &self.names
    }

    /// The number of the object that has this name.
    pub fn find(&self, name: ObjectName) -> Option<u32>
        requires { IsDurable S.Store self.now }
        ensures { Clean S.Store self.now.journal → result ≡ find_named (written S.Store self.now.journal).objects name }
    {
        // (counted since a number is below it)
        let _count = self.store.object_count();
        match self.names.find(&name) {
            Some(x) => u32::try_from(x).ok(),
            None => None,
        }
    }

    /// The transactions that are prepared and not decided, in the order in which they were prepared.
    pub fn prepared(&self) -> &[Prepared]
        ensures { result.now ≡ self.now.prepared.items }
    {
        self.prepared.as_slice()
    }

    /// Whether transaction t is prepared and not decided.
    pub fn is_prepared(&self, t: u32) -> bool
        ensures { result ≡ is_prepared self.now t }
    {
        has_transaction(&self.prepared, t)
    }

    /// Whether the yes of each object's type is strong, as `Store::is_strong`, without a search: then all that is open goes over
    /// into the next epoch.
    pub fn is_strong(&self) -> bool
        ensures { result ≡ self.now.strong }
    {
        self.strong
    }

    /// The numbers of the transactions that go over into the next epoch, in their order: of all that is open where each yes is
    /// strong, and else of what is prepared.
    ///
    /// # Errors
    ///
    /// Memory was refused.
    pub fn going_over(&self, alloc: Global) -> Result<Vec<u32>, AllocError>
        ensures going { IfOk result (λ those. GoOver self.now.strong self.now.store.history self.now.prepared.items those.items) }
        ensures ascend { IfOk result (λ those. Pairs (λ a b. a < b) those.items) }
    {
        going_over(alloc, &self.store, &self.prepared, self.strong)
    }

    /// Begins a transaction, as the store's `begin`. Its event is written, and a crash may still take it away.
    ///
    /// # Errors
    ///
    /// The file failed, or memory was refused for it. The store's own refusal is inside, and nothing has changed.
    pub fn begin(&mut self) -> Result<Result<u32, Refusal>, JournalError>
        requires { IsDurable S.Store self.old }
        ensures sound { OnOk result (IsDurable S.Store self.new) }
        ensures number { IfOk result (λ r. IfOk r (λ t. t ≡ begins self.old.store.history)) }
        ensures step { IfOk result (λ r. MayStep self.old.store 0 command.Begin r self.new.store) }
        ensures prepared { OnOk result (self.new.prepared ≡ self.old.prepared) }
        ensures life { self.new.journal.header ≡ self.old.journal.header }
        ensures written { OnOk result (WritesSince S.Store self.old self.new) }
        ensures settled { OnOk result (KeepsSettled S.Store self.old self.new) }
        ensures clean { Clean S.Store self.new.journal → Clean S.Store self.old.journal }
        ensures crash { OutcomesStay S.Store self.old self.new }
    {
        steps_are_retraced();
        let count = self.store.event_count();
        let begun = self.store.begin(0);
        self.write_since(count)?;
        Ok(begun)
    }

    /// A whole transaction, as `attempts::attempt`: it makes these calls in their order and commits, or aborts at the
    /// first that isn't replied to. Its events are written, and a crash may still take them away: the client is
    /// answered after `settle` only.
    ///
    /// # Errors
    ///
    /// As `begin`. Why no transaction began is inside, and nothing has changed.
    pub fn attempt(&mut self, alloc: Global, calls: &[AttemptCall]) -> Result<Attempt, JournalError>
        requires { IsDurable S.Store self.old }
        ensures sound { OnOk result (IsDurable S.Store self.new) }
        ensures replays { IfOk result (λ came. self.new.store ≡ commands_replayed self.old.store (is_memory_refused_at came) 0 (attempt_commands (begins self.old.store.history) (asked_calls calls.now) came)) }
        ensures answers { IfOk result (λ came. AttemptAnswers self.old.store 0 (asked_calls calls.now) came self.new.store) }
        ensures prepared { OnOk result (self.new.prepared ≡ self.old.prepared) }
        ensures life { self.new.journal.header ≡ self.old.journal.header }
        ensures written { OnOk result (WritesSince S.Store self.old self.new) }
        ensures settled { OnOk result (KeepsSettled S.Store self.old self.new) }
        ensures clean { Clean S.Store self.new.journal → Clean S.Store self.old.journal }
        ensures crash { OutcomesStay S.Store self.old self.new }
    {
        steps_are_retraced();
        let count = self.store.event_count();
        let came = attempt(&mut self.store, alloc, 0, calls);
        self.write_since(count)?;
        Ok(came)
    }

    /// Aborts each open transaction that isn't prepared, in the order in which they began. The events are written, and a crash
    /// may still take them away.
    ///
    /// # Errors
    ///
    /// As `begin`, or memory was refused.
    pub fn abort_unprepared(&mut self, alloc: Global) -> Result<(), JournalError>
        requires { IsDurable S.Store self.old }
        ensures sound { OnOk result (IsDurable S.Store self.new) }
        ensures store { OnOk result (self.new.store ≡ record self.old.store { history = self.old.store.history ++ closing_but (prepared_numbers self.old.prepared.items) self.old.store.history }) }
        ensures left { OnOk result ((t : ℕ) → is_open (summary self.new.store.history) t ≡ (is_prepared self.old t && is_open (summary self.old.store.history) t)) }
        ensures prepared { OnOk result (self.new.prepared ≡ self.old.prepared) }
        ensures life { self.new.journal.header ≡ self.old.journal.header }
        ensures written { OnOk result (WritesSince S.Store self.old self.new) }
        ensures settled { OnOk result (KeepsSettled S.Store self.old self.new) }
        ensures clean { Clean S.Store self.new.journal → Clean S.Store self.old.journal }
        ensures crash { OutcomesStay S.Store self.old self.new }
    {
        steps_are_retraced();
        let those = numbers_of(alloc, &self.prepared)?;
        let count = self.store.event_count();
        self.store.abort_all_but(&those);
        self.write_since(count)
    }

    /// The texts of types that the file has, in order.
    ///
    /// # Errors
    ///
    /// The file failed or isn't one of a store, or memory was refused for it: the store isn't to be used any
    /// more.
    pub fn types(&mut self, alloc: Global) -> Result<Vec<TypeText>, JournalError>
        requires sound { IsDurable S.Store self.old }
        requires shows { ShowsCommit S.Store self.old.journal }
        ensures said { IfOk result (λ types. Clean S.Store self.new.journal → types.items ≡ (written S.Store self.old.journal).types) }
        ensures sound { OnOk result (IsDurable S.Store self.new) }
        ensures store { self.new.store ≡ self.old.store }
        ensures prepared { self.new.prepared ≡ self.old.prepared }
        ensures life { self.new.journal.header ≡ self.old.journal.header }
        ensures written { OnOk result (Clean S.Store self.new.journal → written S.Store self.new.journal ≡ written S.Store self.old.journal) }
        ensures settled { OnOk result (KeepsSettled S.Store self.old self.new) }
        ensures shows { OnOk result (ShowsCommit S.Store self.new.journal) }
        ensures clean { Clean S.Store self.new.journal → Clean S.Store self.old.journal }
        ensures crash { OutcomesStay S.Store self.old self.new }
    {
        self.journal.types(alloc)
    }

    /// The objects with the places of their types, in order.
    ///
    /// # Errors
    ///
    /// As `types`.
    pub fn objects(&mut self, alloc: Global) -> Result<Vec<ObjectLine>, JournalError>
        requires sound { IsDurable S.Store self.old }
        requires shows { ShowsCommit S.Store self.old.journal }
        ensures said { IfOk result (λ objects. Clean S.Store self.new.journal → objects.items ≡ (written S.Store self.old.journal).objects) }
        ensures sound { OnOk result (IsDurable S.Store self.new) }
        ensures store { self.new.store ≡ self.old.store }
        ensures prepared { self.new.prepared ≡ self.old.prepared }
        ensures life { self.new.journal.header ≡ self.old.journal.header }
        ensures written { OnOk result (Clean S.Store self.new.journal → written S.Store self.new.journal ≡ written S.Store self.old.journal) }
        ensures settled { OnOk result (KeepsSettled S.Store self.old self.new) }
        ensures shows { OnOk result (ShowsCommit S.Store self.new.journal) }
        ensures clean { Clean S.Store self.new.journal → Clean S.Store self.old.journal }
        ensures crash { OutcomesStay S.Store self.old self.new }
    {
        self.journal.objects(alloc)
    }

    /// The states at which the objects began, in order.
    ///
    /// # Errors
    ///
    /// As `types`.
    pub fn states(&mut self, alloc: Global) -> Result<Vec<FirstState>, JournalError>
        requires sound { IsDurable S.Store self.old }
        requires shows { ShowsCommit S.Store self.old.journal }
        ensures said { IfOk result (λ states. Clean S.Store self.new.journal → states.items ≡ (written S.Store self.old.journal).states) }
        ensures sound { OnOk result (IsDurable S.Store self.new) }
        ensures store { self.new.store ≡ self.old.store }
        ensures prepared { self.new.prepared ≡ self.old.prepared }
        ensures life { self.new.journal.header ≡ self.old.journal.header }
        ensures written { OnOk result (Clean S.Store self.new.journal → written S.Store self.new.journal ≡ written S.Store self.old.journal) }
        ensures settled { OnOk result (KeepsSettled S.Store self.old self.new) }
        ensures shows { OnOk result (ShowsCommit S.Store self.new.journal) }
        ensures clean { Clean S.Store self.new.journal → Clean S.Store self.old.journal }
        ensures crash { OutcomesStay S.Store self.old self.new }
    {
        self.journal.states(alloc)
    }

    /// The events of the history from this place on, oldest first, and at most `count`: the file has them, also
    /// those of which the store has let go.
    ///
    /// # Errors
    ///
    /// As `types`.
    pub fn events(
        &mut self,
        alloc: Global,
        from: u64,
        count: usize,
    ) -> Result<Vec<EventKind>, JournalError>
        requires sound { IsDurable S.Store self.old }
        requires shows { ShowsCommit S.Store self.old.journal }
        ensures said { IfOk result (λ events. Clean S.Store self.new.journal → events.items ≡ take count (drop from (written S.Store self.old.journal).events)) }
        ensures happened { IfOk result (λ events. Clean S.Store self.new.journal → events.items ≡ take count (drop from (kinds self.old.store.history))) }
        ensures sound { OnOk result (IsDurable S.Store self.new) }
        ensures store { self.new.store ≡ self.old.store }
        ensures prepared { self.new.prepared ≡ self.old.prepared }
        ensures life { self.new.journal.header ≡ self.old.journal.header }
        ensures written { OnOk result (Clean S.Store self.new.journal → written S.Store self.new.journal ≡ written S.Store self.old.journal) }
        ensures settled { OnOk result (KeepsSettled S.Store self.old self.new) }
        ensures shows { OnOk result (ShowsCommit S.Store self.new.journal) }
        ensures clean { Clean S.Store self.new.journal → Clean S.Store self.old.journal }
        ensures crash { OutcomesStay S.Store self.old self.new }
    {
        self.journal.events(alloc, from, count)
    }

    /// The lines of all events of the history, oldest first, each with a LF, as the file has them: also of those of which the
    /// store has let go.
    ///
    /// # Errors
    ///
    /// As `types`.
    pub fn event_lines(&mut self, alloc: Global) -> Result<Vec<u8>, JournalError>
        requires sound { IsDurable S.Store self.old }
        requires shows { ShowsCommit S.Store self.old.journal }
        ensures said { IfOk result (λ lines. Clean S.Store self.new.journal → lines.items ≡ event_lines (written S.Store self.old.journal).events) }
        ensures happened { IfOk result (λ lines. Clean S.Store self.new.journal → lines.items ≡ event_lines (kinds self.old.store.history)) }
        ensures short { OnOk result (Clean S.Store self.new.journal → AreShort (written S.Store self.old.journal).events) }
        ensures sound { OnOk result (IsDurable S.Store self.new) }
        ensures store { self.new.store ≡ self.old.store }
        ensures prepared { self.new.prepared ≡ self.old.prepared }
        ensures life { self.new.journal.header ≡ self.old.journal.header }
        ensures written { OnOk result (Clean S.Store self.new.journal → written S.Store self.new.journal ≡ written S.Store self.old.journal) }
        ensures settled { OnOk result (KeepsSettled S.Store self.old self.new) }
        ensures shows { OnOk result (ShowsCommit S.Store self.new.journal) }
        ensures clean { Clean S.Store self.new.journal → Clean S.Store self.old.journal }
        ensures crash { OutcomesStay S.Store self.old self.new }
    {
        self.journal.event_lines(alloc)
    }

    /// Makes durable all that was written: after `Ok` no crash takes any of it away. The store lets go of the
    /// events, which the file has.
    ///
    /// # Errors
    ///
    /// The file failed, or memory was refused for it: only an open says whether what was written is there.
    pub fn settle(&mut self) -> Result<(), JournalError>
        requires { IsDurable S.Store self.old }
        ensures sound { OnOk result (IsDurable S.Store self.new) }
        ensures store { OnOk result (self.new.store ≡ record self.old.store { forgotten = length self.old.store.history }) }
        ensures types { self.new.store.types ≡ self.old.store.types }
        ensures prepared { self.new.prepared ≡ self.old.prepared }
        ensures life { self.new.journal.header ≡ self.old.journal.header }
        ensures written { OnOk result (Clean S.Store self.new.journal → written S.Store self.new.journal ≡ written S.Store self.old.journal) }
        ensures durable { OnOk result (Clean S.Store self.new.journal → durable S.Store self.new.journal ≡ written S.Store self.old.journal) }
        ensures history { OnOk result (Clean S.Store self.new.journal → self.new.store.history ≡ events_of_kinds (durable S.Store self.new.journal).events) }
        ensures is_open { OnOk result (Clean S.Store self.new.journal → IsOpen S.Store self.new.journal) }
        ensures shows { OnOk result (ShowsCommit S.Store self.new.journal) }
        ensures numbered { IsNumbered S.Store self.old.journal → IsNumbered S.Store self.new.journal }
        ensures clean { Clean S.Store self.new.journal → Clean S.Store self.old.journal }
        ensures crash { (db : Trees) → may_leave S.Store self.new.journal db → IsAsWritten S.Store self.old.journal db ⊎ may_leave S.Store self.old.journal db }
    {
        self.journal.commit()?;
        self.journal.is_settled();
        let remembered = self.store.history().len();
        self.store.forget(remembered);
        Ok(())
    }

    /// The trees. What was written since the last `settle` is let go, as at a crash.
    pub fn into_trees(self) -> S
        ensures { result ≡ self.journal.store }
    {
        let Durable {
            store,
            journal,
            names: _,
            prepared: _,
            strong: _,
        } = self;
        let _ = store.close();
        journal.into_store()
    }

    /// Aborts each open transaction that isn't prepared, begins the next life, and commits both at once.
    ///
    /// # Errors
    ///
    /// The file failed, or memory was refused.
    pub(crate) fn recover(&mut self, alloc: Global) -> Result<(), JournalError>
        requires { IsDurable S.Store self.old }
        ensures sound { OnOk result (IsDurable S.Store self.new) }
        ensures recovers { OnOk result (Recovers S.Store self.old self.new) }
        ensures crash { (db : Trees) → may_leave S.Store self.new.journal db
            → (Clean S.Store self.old.journal × IsFile db × (contents_of db ≡ recovered (written S.Store self.old.journal))) ⊎ may_leave S.Store self.old.journal db }
    {
        self.abort_unprepared(alloc)?;
        self.journal.begin_life()?;
        self.settle()
    }

    /// Writes the epoch that the store has begun, with what is prepared, and commits it.
    ///
    /// # Errors
    ///
    /// The file failed, or memory was refused for it.
    pub(crate) fn write_epoch(&mut self, alloc: Global) -> Result<(), JournalError>
        requires { IsAhead S.Store self.old }
        ensures sound { OnOk result (IsDurable S.Store self.new) }
        ensures store { OnOk result (self.new.store ≡ record self.old.store { forgotten = length self.old.store.history }) }
        ensures types { self.new.store.types ≡ self.old.store.types }
        ensures prepared { self.new.prepared ≡ self.old.prepared }
        ensures durable { OnOk result (Clean S.Store self.new.journal → durable S.Store self.new.journal ≡ renewed_with (written S.Store self.old.journal) self.old.store.types (kinds self.old.store.history) self.old.prepared.items) }
        ensures shows { OnOk result (ShowsCommit S.Store self.new.journal) }
        ensures last { OnOk result (Clean S.Store self.new.journal → (written S.Store self.old.journal).headers ≡ self.old.journal.header ∷ []) }
        ensures clean { Clean S.Store self.new.journal → Clean S.Store self.old.journal }
        ensures crash { LeavesAhead S.Store self.old self.new }
    {
        self.begin_epoch(alloc)?;
        self.write_first()
    }

    /// Begins the epoch in the file, which has no event of it yet. A crash may still take it away.
    ///
    /// # Errors
    ///
    /// The file failed, or memory was refused for it.
    fn begin_epoch(&mut self, alloc: Global) -> Result<(), JournalError>
        requires { IsAhead S.Store self.old }
        ensures behind { OnOk result (IsBehind S.Store self.new 0) }
        ensures store { self.new.store ≡ self.old.store }
        ensures prepared { self.new.prepared ≡ self.old.prepared }
        ensures written { OnOk result (Clean S.Store self.new.journal → written S.Store self.new.journal ≡ renewed (written S.Store self.old.journal) self.old.store.types) }
        ensures last { OnOk result (Clean S.Store self.new.journal → (written S.Store self.old.journal).headers ≡ self.old.journal.header ∷ []) }
        ensures clean { Clean S.Store self.new.journal → Clean S.Store self.old.journal }
        ensures crash { OutcomesStay S.Store self.old self.new }
    {
        let states = first_states(alloc, &self.store)?;
        if states.len() > MOST_STATES {
            return Err(JournalError::Full);
        }
        self.journal.begin_epoch(&states)?;
        Ok(())
    }

    /// Writes what is prepared in the epoch that the file has begun, and the events of the store, and commits it.
    ///
    /// # Errors
    ///
    /// The file failed, or memory was refused for it.
    pub(crate) fn write_first(&mut self) -> Result<(), JournalError>
        requires behind { IsBehind S.Store self.old 0 }
        requires prepared { Clean S.Store self.old.journal → ArePrepared self.old.store.history (with_all_prepared (written S.Store self.old.journal) self.old.prepared.items) self.old.prepared.items }
        ensures sound { OnOk result (IsDurable S.Store self.new) }
        ensures store { OnOk result (self.new.store ≡ record self.old.store { forgotten = length self.old.store.history }) }
        ensures types { self.new.store.types ≡ self.old.store.types }
        ensures prepared { self.new.prepared ≡ self.old.prepared }
        ensures durable { OnOk result (Clean S.Store self.new.journal → durable S.Store self.new.journal ≡ with_all (with_all_prepared (written S.Store self.old.journal) self.old.prepared.items) self.old.store.history) }
        ensures shows { OnOk result (ShowsCommit S.Store self.new.journal) }
        ensures clean { Clean S.Store self.new.journal → Clean S.Store self.old.journal }
        ensures crash { (db : Trees) → may_leave S.Store self.new.journal db
            → (Clean S.Store self.old.journal × IsFile db × (contents_of db ≡ with_all (with_all_prepared (written S.Store self.old.journal) self.old.prepared.items) self.old.store.history)) ⊎ may_leave S.Store self.old.journal db }
    {
        prepare_all(&mut self.journal, &self.prepared)?;
        self.write_since(0)?;
        self.settle()
    }

    /// Writes the events of the store after the first ones, as many as that.
    ///
    /// # Errors
    ///
    /// The file failed, or memory was refused for it.
    pub(crate) fn write_since(&mut self, count: u32) -> Result<(), JournalError>
        requires behind { IsBehind S.Store self.old count }
        requires prepared { Clean S.Store self.old.journal → ArePrepared self.old.store.history (written S.Store self.old.journal) self.old.prepared.items }
        ensures sound { OnOk result (IsDurable S.Store self.new) }
        ensures store { self.new.store ≡ self.old.store }
        ensures prepared { self.new.prepared ≡ self.old.prepared }
        ensures header { self.new.journal.header ≡ self.old.journal.header }
        ensures written { OnOk result (Clean S.Store self.new.journal → written S.Store self.new.journal ≡ with_all (written S.Store self.old.journal) (drop count self.old.store.history)) }
        ensures settled { OnOk result (KeepsSettled S.Store self.old self.new) }
        ensures clean { Clean S.Store self.new.journal → Clean S.Store self.old.journal }
        ensures crash { OutcomesStay S.Store self.old self.new }
    {
        let more = (self.store.event_count() - count) as usize;
        let remembered = self.store.history();
        append_all(&mut self.journal, &remembered[remembered.len() - more..])
    }
}

/// Writes these events after the others.
///
/// # Errors
///
/// The file failed, or memory was refused for it.
fn append_all<S: Alter>(journal: &mut Journal<S>, events: &[Event]) -> Result<(), JournalError>
    requires { IsJournal S.Store journal.old }
    ensures kept { OnOk result (IsJournal S.Store journal.new) }
    ensures written { OnOk result (Clean S.Store journal.new → written S.Store journal.new ≡ with_all (written S.Store journal.old) events.now) }
    ensures durable { OnOk result (Clean S.Store journal.new → durable S.Store journal.new ≡ durable S.Store journal.old) }
    ensures header { journal.new.header ≡ journal.old.header }
    ensures clean { Clean S.Store journal.new → Clean S.Store journal.old }
    ensures crash { (db : Trees) → may_leave S.Store journal.new db → may_leave S.Store journal.old db }
{
    for event in events {
        journal.append(event.kind)?;
    }
    Ok(())
}

/// The states at which the types of a store begin.
pub(crate) fn first_states(
    alloc: Global,
    store: &Store<Object>,
) -> Result<Vec<FirstState>, AllocError>
    ensures { IfOk result (λ states. states.items ≡ firsts store.now.types) }
{
    let mut states = Vec::new(alloc);
    for x in 0..store.object_count() {
        states.push(first_state(store, x))?;
    }
    Ok(states)
}

/// The state at which the type of the object at x begins.
fn first_state(store: &Store<Object>, x: u32) -> FirstState
    requires { x < length store.now.types }
    ensures { (c : Checked) → slice_get store.now.types x ≡ Some c → result.state ≡ c.file.table.initial }
{
    let checked = store.checked(x).unwrap();
    FirstState {
        state: checked.initial(),
    }
}
