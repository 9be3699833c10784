//! The states to which lists of operations lead, and the first of the shortest lists to each.

ghost use Rattle.std.specs.Prelude.{◌<◌, ◌≤◌, ◌+◌, length, IfOk, OnOk};
ghost use Rattle.pair_needs.specs.Leads.{AreLeads, IsLedSet};
ghost use Rattle.pair_needs.specs.Search.{IsSearched};

use std::alloc::{AllocError, Global};
use type_table::{StateSet, TypeTable, runs_along, steps_within};

/// A state, and the first of the shortest lists that lead to it from the initial one.
#[derive(Drop)]
pub struct Lead {
    pub state: u16,
    pub list: Vec<u8>,
}

/// The states to which some list leads.
#[derive(Drop)]
pub struct Leads {
    /// A list to each of them.
    pub found: Vec<Lead>,
    /// Their set.
    pub set: StateSet,
}

impl Leads {
    /// Those of a table, found from the initial state on, breadth first.
    pub fn new(alloc: Global, table: &TypeTable) -> Result<Leads, AllocError>
        ensures lists { IfOk result (λ l. AreLeads table.now l.found.items) }
        ensures set { IfOk result (λ l. IsLedSet table.now l.set) }
    {
        let mut leads = Leads::first(alloc, table)?;
        for place in 0..usize::MAX {
            if place >= leads.found.len() {
                return Ok(leads);
            }
            leads.go_on(alloc, table, place)?;
        }
        Ok(leads)
    }

    /// The initial state alone, to which the empty list leads.
    fn first(alloc: Global, table: &TypeTable) -> Result<Leads, AllocError>
        ensures { IfOk result (λ l. IsSearched table.now 0 0 l) }
    {
        let state = table.initial();
        let mut set = StateSet::empty(table.states());
        set.add(state);
        let list = Vec::new(alloc);
        let mut found = Vec::new(alloc);
        found.push(Lead { state, list })?;
        Ok(Leads { found, set })
    }

    /// Adds the states to which an operation leads from the one at a place.
    fn go_on(&mut self, alloc: Global, table: &TypeTable, place: usize) -> Result<(), AllocError>
        requires searched { IsSearched table.now place 0 self.old }
        requires place { place < length self.old.found.items }
        ensures { OnOk result (IsSearched table.now (place + 1) 0 self.new) }
    {
        steps_within();
        for k in 0..table.op_count() {
            self.step(alloc, table, place, k)?;
        }
        Ok(())
    }

    /// Adds the state to which k leads from the one at a place, where there is one and it isn't there yet.
    fn step(
        &mut self,
        alloc: Global,
        table: &TypeTable,
        place: usize,
        k: u8,
    ) -> Result<(), AllocError>
        requires searched { IsSearched table.now place k self.old }
        requires place { place < length self.old.found.items }
        requires operation { k < length table.now.ops }
        ensures found { OnOk result (IsSearched table.now place (k + 1) self.new) }
        ensures more { OnOk result (length self.old.found.items ≤ length self.new.found.items) }
    {
        runs_along();
        let from = &self.found[place];
        let Some(state) = table.next(from.state, k) else {
            return Ok(());
        };
        if self.set.has(state) {
            return Ok(());
        }
        let mut list = Vec::from_slice(alloc, &from.list)?;
        list.push(k)?;
        self.found.push(Lead { state, list })?;
        self.set.add(state);
        Ok(())
    }
}
