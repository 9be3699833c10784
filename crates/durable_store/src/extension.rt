//! A store in a file gets more objects.

ghost use Rattle.std.specs.Prelude.{◌≡◌, ◌⊎◌, ◌+◌, ◌≤◌, ◌∷◌, ◌++◌, [], List, length, map, IfErr, IfOk, OnOk};
ghost use Rattle.sqlite_trees.specs.Tree.{Trees};
ghost use Rattle.table_checker.specs.Checked.{Checked};
ghost use Rattle.objects.specs.Object.{meaning_of};
ghost use Rattle.journal.specs.Contents.{IsFile, contents_of};
ghost use Rattle.journal.specs.Journal.{Clean, ShowsCommit, durable, may_leave, written};
ghost use Rattle.durable_store.specs.Epochs.{GoesOver};
ghost use Rattle.store_laws.specs.Stored.{types_of};
ghost use Rattle.durable_store.specs.Durable.{IsBehind, IsDurable, KeepsSettled, OutcomesStay, kinds};
ghost use Rattle.durable_store.specs.Growth.{AreAdded, Grows, IsAsBefore, IsRefusal, LeavesGrowth, RefusesGrowth, grown};
ghost use Rattle.durable_store.specs.GrowthParts.{IsAheadBy, LeavesGrown, RefusesObjects};
ghost use Rattle.durable_store.specs.Names.{IndexesNames, HaveNewNames, SaysTaken};

use crate::durable::{Durable, MOST_STATES, first_states};
use crate::growth::{Growth, Known, growth_of};
use crate::next_store::{moved_over, next_store, stays_strong};
use crate::object_names::ObjectNames;
use crate::open_error::OpenError;
use journal::{JournalError, TypeText};
use sqlite_trees::store::Alter;
use std::alloc::Global;
use store_text::ObjectLine;
use table_checker::at_is_strong;

impl<S: Alter> Durable<S> {
    /// Begins another epoch with more objects, in another life: objects of these lines, whose places are those of
    /// these texts, come after those that there are, at the initial states of their types. The same goes over as at `renew`, and
    /// the same outcomes are let go. All of it is in one commit, and no text that the file has is written again. The answer is the
    /// number of the first new object.
    ///
    /// # Errors
    ///
    /// `NameTaken`, `Text` or `Untyped`, by the place among what is added; `NotExtended` by the store's own refusal;
    /// `NoMemory`: and nothing has changed. `Journal` where the file failed, or would have more than 65,536 texts of
    /// types: the store isn't to be used any more, and an open says what of it is there.
    pub fn extend(
        self,
        alloc: Global,
        texts: &[TypeText],
        lines: &[ObjectLine],
    ) -> (Durable<S>, Result<u32, OpenError>)
        requires sound { IsDurable S.Store self }
        requires shows { ShowsCommit S.Store self.journal }
        ensures sound { OnOk result.1 (IsDurable S.Store result.0) }
        ensures first { IfOk result.1 (λ first. first ≡ length self.store.types) }
        ensures store { OnOk result.1 ((added : List Checked) × AreAdded texts.now lines.now added × GoesOver added self.store self.prepared.items result.0.store result.0.prepared.items) }
        ensures durable { OnOk result.1 (Clean S.Store result.0.journal → Grows texts.now lines.now self.store self.prepared.items result.0.store result.0.prepared.items (written S.Store self.journal) (durable S.Store result.0.journal)) }
        ensures shows { OnOk result.1 (ShowsCommit S.Store result.0.journal) }
        ensures last { OnOk result.1 (Clean S.Store result.0.journal → (written S.Store self.journal).headers ≡ self.journal.header ∷ []) }
        ensures refused { IfErr result.1 (λ error. IsRefusal error → IsAsBefore S.Store self result.0) }
        ensures why { IfErr result.1 (RefusesGrowth texts.now lines.now self.store self.prepared.items) }
        ensures named { OnOk result.1 (Clean S.Store result.0.journal → HaveNewNames (written S.Store self.journal).objects lines.now) }
        ensures taken { IfErr result.1 (λ error. Clean S.Store result.0.journal → SaysTaken (written S.Store self.journal).objects lines.now error) }
        ensures clean { Clean S.Store result.0.journal → Clean S.Store self.journal }
        ensures crash { LeavesGrowth S.Store texts.now lines.now self result.0 }
    {
        let mut durable = self;
        let known = match durable.known(alloc) {
            Ok(known) => known,
            Err(error) => return (durable, Err(OpenError::Journal(error))),
        };
        match growth_of(alloc, &known, texts, lines) {
            Ok(growth) => durable.grow_named(alloc, known, growth),
            Err(error) => (durable, Err(error)),
        }
    }

    /// What the file has of texts of types, and of objects.
    ///
    /// # Errors
    ///
    /// As `types`.
    fn known(&mut self, alloc: Global) -> Result<Known, JournalError>
        requires sound { IsDurable S.Store self.old }
        requires shows { ShowsCommit S.Store self.old.journal }
        ensures texts { IfOk result (λ known. Clean S.Store self.new.journal → known.texts.items ≡ (written S.Store self.old.journal).types) }
        ensures objects { IfOk result (λ known. Clean S.Store self.new.journal → known.objects.items ≡ (written S.Store self.old.journal).objects) }
        ensures sound { OnOk result (IsDurable S.Store self.new) }
        ensures store { self.new.store ≡ self.old.store }
        ensures prepared { self.new.prepared ≡ self.old.prepared }
        ensures life { self.new.journal.header ≡ self.old.journal.header }
        ensures written { OnOk result (Clean S.Store self.new.journal → written S.Store self.new.journal ≡ written S.Store self.old.journal) }
        ensures settled { OnOk result (KeepsSettled S.Store self.old self.new) }
        ensures shows { OnOk result (ShowsCommit S.Store self.new.journal) }
        ensures clean { Clean S.Store self.new.journal → Clean S.Store self.old.journal }
        ensures crash { OutcomesStay S.Store self.old self.new }
    {
        let texts = self.types(alloc)?;
        let objects = self.objects(alloc)?;
        Ok(Known { texts, objects })
    }

    /// The same of what was made for it, where the file has these texts of types and objects.
    ///
    /// # Errors
    ///
    /// `NotExtended` or `NoMemory`, and nothing has changed; or `Journal`.
    fn grow_named(
        self,
        alloc: Global,
        known: Known,
        growth: Growth,
    ) -> (Durable<S>, Result<u32, OpenError>)
        requires sound { IsDurable S.Store self }
        requires few { length known.texts.items + length growth.texts.items ≤ 65536 }
        requires known { Clean S.Store self.journal → known.texts.items ≡ (written S.Store self.journal).types }
        requires objects { Clean S.Store self.journal → known.objects.items ≡ (written S.Store self.journal).objects }
        requires as_many { length growth.lines.items ≡ length growth.objects.items }
        requires types { Clean S.Store self.journal → AreAdded ((written S.Store self.journal).types ++ growth.texts.items) growth.lines.items (types_of (map meaning_of growth.objects.items)) }
        ensures sound { OnOk result.1 (IsDurable S.Store result.0) }
        ensures first { IfOk result.1 (λ first. first ≡ length self.store.types) }
        ensures store { OnOk result.1 (GoesOver (types_of (map meaning_of growth.objects.items)) self.store self.prepared.items result.0.store result.0.prepared.items) }
        ensures durable { OnOk result.1 (Clean S.Store result.0.journal → durable S.Store result.0.journal ≡ grown (written S.Store self.journal) growth.texts.items growth.lines.items result.0.store.types (kinds result.0.store.history) result.0.prepared.items) }
        ensures shows { OnOk result.1 (ShowsCommit S.Store result.0.journal) }
        ensures last { OnOk result.1 (Clean S.Store result.0.journal → (written S.Store self.journal).headers ≡ self.journal.header ∷ []) }
        ensures refused { IfErr result.1 (λ error. IsRefusal error → result.0 ≡ self) }
        ensures why { IfErr result.1 (RefusesObjects (map meaning_of growth.objects.items) self.store self.prepared.items) }
        ensures clean { Clean S.Store result.0.journal → Clean S.Store self.journal }
        ensures crash { LeavesGrown S.Store growth.texts.items growth.lines.items (types_of (map meaning_of growth.objects.items)) self result.0 }
    {
        let Known { texts, objects } = known;
        match ObjectNames::of_more(alloc, objects, &growth.lines) {
            Ok(names) => self.grow(alloc, texts.len() as u64, names, growth),
            Err(_) => (self, Err(OpenError::NoMemory)),
        }
    }

    /// The same with the names of all objects, where the file has as many texts of types as that.
    ///
    /// # Errors
    ///
    /// `NotExtended` or `NoMemory`, and nothing has changed; or `Journal`.
    fn grow(
        self,
        alloc: Global,
        known: u64,
        names: ObjectNames,
        growth: Growth,
    ) -> (Durable<S>, Result<u32, OpenError>)
        requires sound { IsDurable S.Store self }
        requires few { known + length growth.texts.items ≤ 65536 }
        requires known { Clean S.Store self.journal → known ≡ length (written S.Store self.journal).types }
        requires named { Clean S.Store self.journal → IndexesNames ((written S.Store self.journal).objects ++ growth.lines.items) names }
        requires as_many { length growth.lines.items ≡ length growth.objects.items }
        requires types { Clean S.Store self.journal → AreAdded ((written S.Store self.journal).types ++ growth.texts.items) growth.lines.items (types_of (map meaning_of growth.objects.items)) }
        ensures sound { OnOk result.1 (IsDurable S.Store result.0) }
        ensures first { IfOk result.1 (λ first. first ≡ length self.store.types) }
        ensures store { OnOk result.1 (GoesOver (types_of (map meaning_of growth.objects.items)) self.store self.prepared.items result.0.store result.0.prepared.items) }
        ensures durable { OnOk result.1 (Clean S.Store result.0.journal → durable S.Store result.0.journal ≡ grown (written S.Store self.journal) growth.texts.items growth.lines.items result.0.store.types (kinds result.0.store.history) result.0.prepared.items) }
        ensures shows { OnOk result.1 (ShowsCommit S.Store result.0.journal) }
        ensures last { OnOk result.1 (Clean S.Store result.0.journal → (written S.Store self.journal).headers ≡ self.journal.header ∷ []) }
        ensures refused { IfErr result.1 (λ error. IsRefusal error → result.0 ≡ self) }
        ensures why { IfErr result.1 (RefusesObjects (map meaning_of growth.objects.items) self.store self.prepared.items) }
        ensures clean { Clean S.Store result.0.journal → Clean S.Store self.journal }
        ensures crash { LeavesGrown S.Store growth.texts.items growth.lines.items (types_of (map meaning_of growth.objects.items)) self result.0 }
    {
        at_is_strong();
        let moved = match moved_over(alloc, &self.store, &self.prepared, self.strong) {
            Ok(moved) => moved,
            Err(_) => return (self, Err(OpenError::NoMemory)),
        };
        let Durable {
            store,
            journal,
            names: former,
            prepared,
            strong,
        } = self;
        let Growth {
            texts,
            lines,
            objects,
        } = growth;
        let first = store.object_count();
        let still = stays_strong(strong, &objects);
        match next_store(alloc, store, strong, &moved.those, objects) {
            Ok(store) => {
                let mut ahead = Durable {
                    store,
                    journal,
                    names,
                    prepared: moved.prepared,
                    strong: still,
                };
                match ahead.write_growth(alloc, known, &texts, &lines) {
                    Ok(()) => (ahead, Ok(first)),
                    Err(error) => (ahead, Err(OpenError::Journal(error))),
                }
            }
            Err((store, refusal)) => {
                let durable = Durable {
                    store,
                    journal,
                    names: former,
                    prepared,
                    strong,
                };
                (durable, Err(OpenError::NotExtended(refusal)))
            }
        }
    }

    /// Writes the epoch that the store has begun with more objects, and commits it.
    ///
    /// # Errors
    ///
    /// The file failed, or memory was refused for it.
    fn write_growth(
        &mut self,
        alloc: Global,
        known: u64,
        texts: &[TypeText],
        lines: &[ObjectLine],
    ) -> Result<(), JournalError>
        requires ahead { IsAheadBy S.Store texts.now lines.now self.old }
        requires few { known + length texts.now ≤ 65536 }
        requires known { Clean S.Store self.old.journal → known ≡ length (written S.Store self.old.journal).types }
        ensures sound { OnOk result (IsDurable S.Store self.new) }
        ensures store { OnOk result (self.new.store ≡ record self.old.store { forgotten = length self.old.store.history }) }
        ensures types { self.new.store.types ≡ self.old.store.types }
        ensures prepared { self.new.prepared ≡ self.old.prepared }
        ensures durable { OnOk result (Clean S.Store self.new.journal → durable S.Store self.new.journal ≡ grown (written S.Store self.old.journal) texts.now lines.now self.old.store.types (kinds self.old.store.history) self.old.prepared.items) }
        ensures shows { OnOk result (ShowsCommit S.Store self.new.journal) }
        ensures last { OnOk result (Clean S.Store self.new.journal → (written S.Store self.old.journal).headers ≡ self.old.journal.header ∷ []) }
        ensures clean { Clean S.Store self.new.journal → Clean S.Store self.old.journal }
        ensures crash { (db : Trees) → may_leave S.Store self.new.journal db
            → (Clean S.Store self.old.journal × IsFile db × (contents_of db ≡ grown (written S.Store self.old.journal) texts.now lines.now self.old.store.types (kinds self.old.store.history) self.old.prepared.items)
            × ((written S.Store self.old.journal).headers ≡ self.old.journal.header ∷ [])) ⊎ may_leave S.Store self.old.journal db }
    {
        self.begin_growth(alloc, known, texts, lines)?;
        self.write_first()
    }

    /// Begins the epoch with more objects in the file, which has no event of it yet. A crash may still take it away.
    ///
    /// # Errors
    ///
    /// The file failed, or memory was refused for it.
    fn begin_growth(
        &mut self,
        alloc: Global,
        known: u64,
        texts: &[TypeText],
        lines: &[ObjectLine],
    ) -> Result<(), JournalError>
        requires ahead { IsAheadBy S.Store texts.now lines.now self.old }
        requires few { known + length texts.now ≤ 65536 }
        requires known { Clean S.Store self.old.journal → known ≡ length (written S.Store self.old.journal).types }
        ensures behind { OnOk result (IsBehind S.Store self.new 0) }
        ensures store { self.new.store ≡ self.old.store }
        ensures prepared { self.new.prepared ≡ self.old.prepared }
        ensures written { OnOk result (Clean S.Store self.new.journal → written S.Store self.new.journal ≡ grown (written S.Store self.old.journal) texts.now lines.now self.old.store.types [] []) }
        ensures last { OnOk result (Clean S.Store self.new.journal → (written S.Store self.old.journal).headers ≡ self.old.journal.header ∷ []) }
        ensures clean { Clean S.Store self.new.journal → Clean S.Store self.old.journal }
        ensures crash { OutcomesStay S.Store self.old self.new }
    {
        let states = first_states(alloc, &self.store)?;
        if states.len() > MOST_STATES {
            return Err(JournalError::Full);
        }
        self.journal.extend_epoch(known, texts, lines, &states)?;
        Ok(())
    }
}
