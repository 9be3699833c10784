//! An object of update in place whose log has room for one entry. It settles nothing, and says how many owners its type
//! had.

ghost use Rattle.std.specs.Prelude.{◌≡◌, ◌<◌, ◌==◌, ◌&&◌, not, nat_lt, true, Some, None};
ghost use Rattle.std.specs.List.{list_any};
ghost use Rattle.std.specs.Option.{option_to_list};
ghost use Rattle.type_table.specs.ConflictTable.{conflicts};
ghost use Rattle.type_table.specs.Operation.{place_of};
ghost use Rattle.type_table.specs.Run.{run};
ghost use Rattle.type_table.specs.declared.kind.Kind.TheVariants.{Undo};
ghost use Rattle.object_trait.specs.Meaning.{log_ops, is_open_of};
ghost use Rattle.object_trait.specs.Steps.{marked};
ghost use Rattle.object_trait.specs.Examples.{of_one_entry};

use declared_types::DeclaredType;
use object_trait::{LogEntry, Recovery, Renew};
use std::alloc::{AllocError, Global};
use std::sync::Arc;
use table_checker::CheckedType;
use type_table::{ConflictTable, Operation, TableKind};

/// Its checked type, the entry, and the state after it.
#[derive(Drop)]
pub struct OneEntry {
    checked: Arc<CheckedType>,
    entry: Option<LogEntry>,
    state: u16,
    /// How many owners its type had when the object was made of it, itself among them.
    pub owners: usize,
    ghost in_place: { checked.value.kind ≡ Undo },
    ghost reached: { run checked.value.file.table (Some checked.value.file.table.initial) (log_ops (option_to_list entry)) ≡ Some state },
    ghost inside: { state < checked.value.file.table.states },
}

impl OneEntry {
    /// As it is made, at the initial state.
    pub fn new(checked: Arc<CheckedType>) -> OneEntry
        requires { checked.value.kind ≡ Undo }
        ensures empty { result.entry ≡ None }
        ensures checked { result.checked ≡ checked }
    {
        let state = checked.table().initial();
        let owners = Arc::strong_count(&checked);
        OneEntry {
            checked,
            entry: None,
            state,
            owners,
        }
    }

    /// Takes out the entry, and goes back to the initial state.
    fn take_out(&mut self)
        ensures checked { self.new.checked ≡ self.old.checked }
        ensures empty { self.new.entry ≡ None }
    {
        let initial = self.checked.table().initial();
        self.entry = None;
        self.state = initial;
    }

    /// Whether the entry is an open one of t.
    fn is_open_of(&self, t: u32) -> bool
        ensures { result ≡ list_any (is_open_of t) (option_to_list self.now.entry) }
    {
        match &self.entry {
            Some(entry) => entry.by == t && !entry.done,
            None => false,
        }
    }
}

/// An entry after a commit of t.
fn marked(entry: &LogEntry, t: u32) -> LogEntry
    ensures { result ≡ marked t entry.now }
{
    LogEntry {
        done: entry.done || entry.by == t,
        ..*entry
    }
}

/// Whether operation k is one of a table with this many, whose operations have no amounts.
fn is_below(k: Operation, ops: u8) -> bool
    ensures below { result ≡ nat_lt k ops }
    ensures place { result ≡ true → place_of k ≡ k }
{
    k.amount().is_none() && k.place() < ops
}

/// Whether operation k, requested, conflicts with operation q, held: none does that the table doesn't
/// have.
fn conflict(table: &ConflictTable, k: Operation, q: Operation) -> bool
    ensures { result ≡ conflicts table.now k q }
{
    let ops = table.ops();
    is_below(k, ops) && is_below(q, ops) && table.conflicts(k.place(), q.place())
}

/// Whether an entry keeps t from operation k: it is an open one of another transaction, with which k
/// conflicts.
fn stops(entry: &LogEntry, table: &ConflictTable, t: u32, k: Operation) -> bool
    ensures { result ≡ (not entry.now.done && (not (entry.now.by == t) && conflicts table.now k entry.now.op)) }
{
    !entry.done && entry.by != t && conflict(table, k, entry.op)
}

impl Recovery for OneEntry {
    ghost meaning = { λ o. of_one_entry (o.checked.value) o.entry };

    fn declared(&self) -> &DeclaredType {
        self.checked.declared()
    }

    fn state(&self) -> u32 {
        u32::from(self.state)
    }

    fn committed(&self) -> u32 {
        match &self.entry {
            Some(entry) if entry.done => u32::from(self.state),
            _ => u32::from(self.checked.table().initial()),
        }
    }

    fn view(&self, _t: u32) -> u32 {
        u32::from(self.state)
    }

    fn legal(&self, _t: u32, k: Operation) -> bool {
        let table = self.checked.table();
        table.next(self.state, table.column(k)).is_some()
    }

    fn blocker(&self, t: u32, k: Operation) -> Option<u32> {
        let entry = self.entry.as_ref()?;
        stops(entry, self.checked.conflicts(TableKind::Undo), t, k).then_some(entry.by)
    }

    fn amount_kept(&self, _t: u32, _place: u8, _u: u32) -> Option<u32> {
        // (read for its clause on what is known of a table, whose operations have no amounts)
        let _file = self.checked.file();
        None
    }

    fn apply(&mut self, t: u32, k: Operation) -> Result<(), AllocError> {
        if self.entry.is_some() {
            return Err(AllocError);
        }
        let column = self.checked.table().column(k);
        let next = self.checked.table().next(self.state, column);
        let Some(state) = next else {
            return Err(AllocError);
        };
        self.entry = Some(LogEntry {
            by: t,
            op: k,
            done: false,
        });
        self.state = state;
        Ok(())
    }

    fn commit(&mut self, t: u32) {
        if let Some(entry) = &self.entry {
            self.entry = Some(marked(entry, t));
        }
    }

    fn abort(&mut self, t: u32) {
        if self.is_open_of(t) {
            self.take_out();
        }
    }

    fn strike(&mut self, t: u32, m: u32) {
        if m > 0 {
            self.abort(t);
        }
    }

    fn open_count(&self) -> u32 {
        match &self.entry {
            Some(entry) if !entry.done => 1,
            _ => 0,
        }
    }

    fn entry(&self, i: usize) -> Option<LogEntry> {
        if i > 0 {
            return None;
        }
        self.entry
    }

    fn is_fresh(&self) -> bool {
        self.entry.is_none()
    }
}

impl Renew for OneEntry {
    fn checked(&self) -> &CheckedType {
        &self.checked
    }

    fn renewed(&self, _alloc: Global, checked: Arc<CheckedType>) -> OneEntry {
        // (read for what is known of this object, that its type is for update in place)
        let _state = self.state;
        OneEntry::new(checked)
    }
}
