ghost use Rattle.std.specs.Prelude.{◌≡◌, ◌≤◌, ◌<◌, true, false, length, replicate, slice_set};
ghost use Rattle.type_table.specs.Limits.{most_states};
ghost use Rattle.type_table.specs.StateSet.{has};

use crate::limits::MOST_STATES;
use std::marker::Model;

/// A set of states of a type of at most 1,024 states. It takes no memory.
///
/// Contracts see it as a list that says of each state whether it is a member.
#[derive(Clone, Copy)]
pub struct StateSet {
    members: [bool; MOST_STATES as usize],
    states: u16,
}

impl Model for StateSet {
    ghost use Rattle.std.specs.Prelude.{Bool, false, ◌-◌, List, ◌++◌, length, take, replicate};
    ghost use Rattle.type_table.specs.Limits.{most_states};
    ghost use Rattle.type_table.specs.Padded.{IsPadded, padded_again, length-padded};

    ghost Value = { List Bool };

    ghost view = { λ a. take a.states a.members };

    ghost invariant = { λ a. IsPadded most_states false a.members a.states };

    ghost inverse = { λ w. record { members = w ++ replicate (most_states - length w) false; states = length w } };

    ghost inverse_ok = { λ a h i. record {
      members = padded_again a.members a.states h i;
      states = length-padded a.members a.states h i;
    } };
}

impl StateSet {
    /// The most states of a type.
    pub const MOST: u16 = MOST_STATES;

    /// The set of all states. There are at most 1,024.
    pub fn all(states: u16) -> StateSet
        requires { states ≤ most_states }
        ensures { result ≡ replicate states true }
    {
        let mut set = StateSet::empty(states);
        for s in 0..states {
            set.add(s);
        }
        set
    }

    /// The set of no state. There are at most 1,024 states.
    pub fn empty(states: u16) -> StateSet
        requires { states ≤ most_states }
        ensures { result ≡ replicate states false }
    {
        let members = [false; MOST_STATES as usize];
        StateSet { members, states }
    }

    /// Adds a state, which is one of the states.
    pub fn add(&mut self, s: u16)
        requires { s < length self.old }
        ensures { self.new ≡ slice_set self.old s true }
    {
        self.members[s as usize] = true;
    }

    /// Whether a state, which is one of the states, is a member.
    pub fn has(&self, s: u16) -> bool
        requires { s < length self.now }
        ensures { result ≡ has self.now s }
    {
        self.members[s as usize]
    }

    /// Whether it is the same set as another, of a type of as many states.
    pub fn is_same(&self, other: &StateSet) -> bool
        ensures { result ≡ true → self.now ≡ other.now }
    {
        if self.states != other.states {
            return false;
        }
        self.members == other.members
    }
}
