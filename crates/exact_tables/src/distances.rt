ghost use Rattle.std.specs.Prelude.{◌≡◌, ◌*◌, ◌<◌, IfOk, length};
ghost use Rattle.equi_cert.specs.Relation.{relates};
ghost use Rattle.type_table.specs.ConflictTable.{IsSquare};
ghost use Rattle.exact_tables.specs.Exact.{IsExact};

use crate::rounds::all_rounds;
use equi_cert::Relation;
use std::alloc::{AllocError, Global};
use std::marker::Model;
use type_table::{TypeTable, steps_within};

/// How far each state of a table is from each other one: how many operations it takes to distinguish it
/// from the other, by a list that is legal from it and not from the other.
///
/// Contracts see the number of states, and a number for each two of them.
#[derive(Drop)]
pub struct Distances {
    /// The number of s and t is at `s * states + t`. It is 0 where s looks like t.
    cells: Vec<u32>,
    states: u16,
}

impl Model for Distances {
    ghost use Rattle.std.specs.Prelude.{◌≡◌, ◌*◌, length};
    ghost use Rattle.exact_tables.specs.Distances.{Cells};

    ghost Value = { Cells };

    ghost view = { λ a. record { states = a.states; cells = a.cells.items } };

    ghost invariant = { λ a. length a.cells.items ≡ a.states * a.states };
}

impl Distances {
    ghost use Rattle.exact_tables.specs.Distances.{AreDistances, AddsAlike, distance, number_at};

    /// The distances of the states of a table, found from the pairs that one operation distinguishes
    /// backward.
    pub fn new(alloc: Global, table: &TypeTable) -> Result<Distances, AllocError>
        ensures { IfOk result (λ d. AreDistances table.now d) }
    {
        steps_within();
        let states = table.states();
        let search = all_rounds(alloc, table)?;
        let cells = search.into_cells();
        Ok(Distances { cells, states })
    }

    /// The number of states.
    pub fn states(&self) -> u16
        ensures { result ≡ self.now.states }
    {
        self.states
    }

    /// How far s is from t, and None where s looks like t.
    pub fn between(&self, s: u16, t: u16) -> Option<u32>
        requires first { s < self.now.states }
        requires second { t < self.now.states }
        ensures { result ≡ distance self.now s t }
    {
        match self.number(s, t) {
            0 => None,
            number => Some(number),
        }
    }

    /// The number of two states.
    fn number(&self, s: u16, t: u16) -> u32
        requires first { s < self.now.states }
        requires second { t < self.now.states }
        ensures { result ≡ number_at self.now s t }
    {
        self.cells[s as usize * self.states as usize + t as usize]
    }

    /// The relation of a table's states that is exact: s is related to t exactly where s looks like t,
    /// over all lists of operations.
    pub fn relation(&self, alloc: Global, table: &TypeTable) -> Result<Relation, AllocError>
        requires { AreDistances table.now self.now }
        ensures square { IfOk result (IsSquare table.now.states) }
        ensures exact { IfOk result (λ r. IsExact table.now (relates r)) }
    {
        let states = table.states();
        let mut relation = Relation::new(alloc, states)?;
        for s in 0..states {
            self.add_alike(&mut relation, s);
        }
        Ok(relation)
    }

    /// Adds the pairs of a first state s that have no distance.
    fn add_alike(&self, relation: &mut Relation, s: u16)
        requires square { IsSquare self.now.states relation.old }
        requires state { s < self.now.states }
        ensures square { IsSquare self.now.states relation.new }
        ensures pairs { AddsAlike self.now s self.now.states relation.old relation.new }
    {
        for t in 0..self.states {
            if self.between(s, t).is_none() {
                relation.add(s, t);
            }
        }
    }
}
