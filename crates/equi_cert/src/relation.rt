ghost use Rattle.std.specs.Prelude.{◌≡◌, ℕ, ◌+◌, ◌*◌, ◌<◌, ◌≤◌, ◌==◌, ◌&&◌, ◌||◌, true, length, IfOk};
ghost use Rattle.type_table.specs.ConflictTable.{IsSquare};

use crate::bits::{has_bit, set_bit};
use std::alloc::{AllocError, Global};
use std::marker::Model;

/// A relation between the states of a type, in which each state is related to itself.
///
/// Contracts see it as a row for each first state, with a cell for each second one.
#[derive(Drop)]
pub struct Relation {
    words: Vec<u64>,
    states: u16,
}

impl Model for Relation {
    ghost use Rattle.std.specs.Prelude.{Bool, List};
    ghost use Rattle.equi_cert.specs.Bits.{rows_of_bits, HaveCells};
    ghost use Rattle.equi_cert.specs.Relation.{IsRelation};

    ghost Value = { List (List Bool) };

    ghost view = { λ a. rows_of_bits a.states a.words.items };

    ghost invariant = { λ a. HaveCells a.states a.words.items × IsRelation (rows_of_bits a.states a.words.items) };
}

impl Relation {
    ghost use Rattle.equi_cert.specs.Relation.{relates, IsRelation};

    /// The relation of 1 to 1,024 states in which each state is related to itself alone.
    pub fn new(alloc: Global, states: u16) -> Result<Relation, AllocError>
        requires some_states { 0 < states }
        requires states_fit { states ≤ 1024 }
        ensures square { IfOk result (IsSquare states) }
        ensures pairs { IfOk result (λ r. (s t : ℕ) → s < states → t < states → relates r s t ≡ (s == t)) }
    {
        let cells = states as usize * states as usize;
        let mut words = vec![in alloc; 0u64; cells.div_ceil(64)]?;
        for s in 0..states {
            set_bit(&mut words, place_of(states, s, s));
        }
        Ok(Relation { words, states })
    }

    /// The number of states, 1 to 1,024, and what else is known of each relation.
    pub fn states(&self) -> u16
        ensures exact { result ≡ length self.now }
        ensures relation { IsRelation self.now }
    {
        self.states
    }

    /// Adds the pair of a first state s and a second state t. It takes no memory.
    pub fn add(&mut self, s: u16, t: u16)
        requires first { s < length self.old }
        requires second { t < length self.old }
        ensures square { IsSquare (length self.old) self.new }
        ensures pairs { (a b : ℕ) → relates self.new a b ≡ (relates self.old a b || (a == s && b == t)) }
    {
        set_bit(&mut self.words, place_of(self.states, s, t));
    }

    /// Whether s is related to t.
    pub fn has(&self, s: u16, t: u16) -> bool
        requires first { s < length self.now }
        requires second { t < length self.now }
        ensures { result ≡ relates self.now s t }
    {
        has_bit(&self.words, place_of(self.states, s, t))
    }

    /// An equal relation.
    pub fn copy(&self, alloc: Global) -> Result<Relation, AllocError>
        ensures { IfOk result (λ r. r ≡ self.now) }
    {
        let words = Vec::from_slice(alloc, &self.words)?;
        let states = self.states;
        Ok(Relation { words, states })
    }

    /// Whether it is the same relation as another, between as many states.
    pub fn is_same(&self, other: &Relation) -> bool
        ensures { result ≡ true → self.now ≡ other.now }
    {
        if self.states != other.states {
            return false;
        }
        self.words == other.words
    }
}

/// The place of the cell of two states.
fn place_of(states: u16, s: u16, t: u16) -> usize
    ensures { result ≡ s * states + t }
{
    s as usize * states as usize + t as usize
}
