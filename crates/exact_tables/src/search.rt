ghost use Rattle.std.specs.Prelude.{◌≡◌, ◌↔◌, ◌*◌, ◌<◌, [], true, length, IfOk, OnOk};

use std::alloc::{AllocError, Global};
use std::marker::Model;
use std::mem;

/// How far the search for distances has come: the numbers that are known, and the pairs that were
/// found in this round.
#[derive(Drop)]
pub struct Search {
    /// The number of s and t is at `s * states + t`, and 0 where none is known.
    cells: Vec<u32>,
    states: u16,
    found: Vec<(u16, u16)>,
}

impl Model for Search {
    ghost use Rattle.std.specs.Prelude.{◌≡◌, ◌*◌, length};
    ghost use Rattle.exact_tables.specs.Search.{Marked};

    ghost Value = { Marked };

    ghost view = { λ a. record { states = a.states; cells = a.cells.items; found = a.found.items } };

    ghost invariant = { λ a. length a.cells.items ≡ a.states * a.states };
}

impl Search {
    ghost use Rattle.exact_tables.specs.Search.{Strikes, none_marked, taken};

    /// No number is known.
    pub fn new(alloc: Global, states: u16) -> Result<Search, AllocError>
        ensures { IfOk result (λ m. m ≡ none_marked states) }
    {
        let cells = vec![in alloc; 0u32; states as usize * states as usize]?;
        let found = Vec::new(alloc);
        Ok(Search {
            cells,
            states,
            found,
        })
    }

    /// Whether no pair was found in this round.
    pub fn is_over(&self) -> bool
        ensures { (result ≡ true) ↔ (self.now.found ≡ []) }
    {
        self.found.is_empty()
    }

    /// Gives a pair of states the number n, where it has none.
    pub fn strike(&mut self, s: u16, t: u16, n: u32) -> Result<(), AllocError>
        requires first { s < self.old.states }
        requires second { t < self.old.states }
        requires some { 0 < n }
        ensures { OnOk result (Strikes n (λ a b. (a ≡ s) × (b ≡ t)) self.old self.new) }
    {
        let place = s as usize * self.states as usize + t as usize;
        if self.cells[place] != 0 {
            return Ok(());
        }
        self.found.push((s, t))?;
        self.cells[place] = n;
        Ok(())
    }

    /// Takes the pairs that were found out.
    pub fn take_found(&mut self, alloc: Global) -> Vec<(u16, u16)>
        ensures pairs { result.items ≡ self.old.found }
        ensures rest { self.new ≡ taken self.old }
    {
        mem::replace(&mut self.found, Vec::new(alloc))
    }

    /// The numbers.
    pub fn into_cells(self) -> Vec<u32>
        ensures exact { result.items ≡ self.cells }
        ensures whole { length result.items ≡ self.states * self.states }
    {
        self.cells
    }
}
