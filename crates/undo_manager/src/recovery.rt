//! What the object does at each call.

ghost use Rattle.std.specs.Prelude.{◌≡◌, [], length};
ghost use Rattle.object_trait.specs.Meaning.{open_of};
ghost use Rattle.object_trait.specs.Steps.{MayApply, applied, IsCommit};

use crate::log::{append, mark, settle};
use crate::opened::{count_fewer, take_count};
use crate::stepping::{committed_after, next_state, take_back};
use crate::undo_entry::UndoEntry;
use crate::undo_manager::UndoManager;
use declared_types::DeclaredType;
use object_trait::{
    LogEntry, Recovery, Renew, keeps_first, keeps_none, keeps_others, keeps_parts,
    opens_are_counted, sound_after_apply, sound_after_commit, sound_after_strike,
    sound_has_committed, struck_log_is_legal,
};
use std::alloc::{AllocError, Global};
use std::sync::Arc;
use table_checker::CheckedType;
use type_table::{Operation, TableKind, ends_within, runs_along, steps_within};

impl UndoManager {
    /// Executes operation k for t, which commits, where no transaction is open: base and state are the state after it.
    fn commit_alone(&mut self, t: u32, k: Operation)
        requires may { MayApply self.old t k }
        requires idle { self.old.log ≡ [] }
        ensures { IsCommit (applied self.old t k) t self.new }
    {
        sound_after_apply();
        sound_after_commit();
        steps_within();
        ends_within();
        let state = next_state(self.checked.table(), self.state, k);
        self.base = state;
        self.state = state;
    }
}

impl Recovery for UndoManager {
    ghost meaning = { λ m. m };

    fn declared(&self) -> &DeclaredType {
        self.checked.declared()
    }

    fn state(&self) -> u32 {
        u32::from(self.state)
    }

    fn committed(&self) -> u32 {
        sound_has_committed();
        let state = committed_after(self.checked.table(), self.base, &self.log);
        u32::from(state)
    }

    fn view(&self, _t: u32) -> u32 {
        u32::from(self.state)
    }

    fn legal(&self, _t: u32, k: Operation) -> bool {
        let table = self.checked.table();
        table.next(self.state, table.column(k)).is_some()
    }

    fn blocker(&self, t: u32, k: Operation) -> Option<u32> {
        steps_within();
        let column = self.checked.table().column(k);
        self.held
            .blocker(self.checked.conflicts(TableKind::Undo), t, column)
    }

    fn amount_kept(&self, _t: u32, _place: u8, _u: u32) -> Option<u32> {
        // (read for what is known of this object, that its type has a table, and so no amounts)
        let _state = self.state;
        None
    }

    #[inline(always)]
    fn apply(&mut self, t: u32, k: Operation) -> Result<(), AllocError> {
        sound_after_apply();
        steps_within();
        let table = self.checked.table();
        let column = table.column(k);
        let state = next_state(table, self.state, k);
        let entry = LogEntry {
            by: t,
            op: k,
            done: false,
        };
        let before = self.state;
        self.held.reserve()?;
        append(&mut self.log, &mut self.opened, UndoEntry { entry, before })?;
        self.state = state;
        self.held.hold(t, column);
        Ok(())
    }

    #[inline(always)]
    fn commit(&mut self, t: u32) {
        sound_after_commit();
        ends_within();
        let count = take_count(&mut self.opened, t);
        mark(&mut self.log, t, count);
        self.base = settle(&mut self.log, self.state);
        self.held.release(t);
    }

    #[inline(always)]
    fn apply_and_commit(&mut self, t: u32, k: Operation) -> Result<(), AllocError> {
        if self.log.is_empty() {
            self.commit_alone(t, k);
            return Ok(());
        }
        self.apply(t, k)?;
        self.commit(t);
        Ok(())
    }

    fn abort(&mut self, t: u32) {
        keeps_first::<LogEntry>();
        keeps_none::<LogEntry>();
        keeps_parts::<LogEntry>();
        keeps_others::<LogEntry>();
        runs_along();
        ends_within();
        struck_log_is_legal();
        sound_after_strike();
        let count = take_count(&mut self.opened, t);
        self.state = take_back(self.checked.table(), &mut self.log, t, count, self.state);
        self.base = settle(&mut self.log, self.state);
        self.held.release_behind(t, 0);
    }

    fn strike(&mut self, t: u32, m: u32) {
        keeps_first::<LogEntry>();
        keeps_none::<LogEntry>();
        keeps_parts::<LogEntry>();
        keeps_others::<LogEntry>();
        runs_along();
        ends_within();
        struck_log_is_legal();
        sound_after_strike();
        self.state = take_back(self.checked.table(), &mut self.log, t, m, self.state);
        let left = count_fewer(&mut self.opened, t, m);
        self.base = settle(&mut self.log, self.state);
        self.held.release_behind(t, left);
    }

    fn open_count(&self) -> u32 {
        opens_are_counted();
        self.opened.len() as u32
    }

    fn entry(&self, i: usize) -> Option<LogEntry> {
        let undo = self.log.get(i)?;
        Some(undo.entry)
    }

    fn is_fresh(&self) -> bool {
        u32::from(self.base) == self.checked.initial() && self.log.is_empty()
    }
}

impl Renew for UndoManager {
    fn checked(&self) -> &CheckedType {
        &self.checked
    }

    fn renewed(&self, alloc: Global, checked: Arc<CheckedType>) -> UndoManager {
        // (read for what is known of this object, that its type is for update in place)
        let _state = self.state;
        UndoManager::fresh(alloc, checked)
    }
}
