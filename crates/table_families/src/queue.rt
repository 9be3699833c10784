//! Queues: items of several elements, of which a dequeue gives the one that is longest there.

ghost use Rattle.std.specs.Prelude.{◌≡◌, ◌+◌, ◌^◌, ◌<◌, ◌≤◌, suc, length, min};
ghost use Rattle.table_maker.specs.Made.{Makes};
ghost use Rattle.table_families.specs.Semiqueue.{AreSemiqueueParameters};
ghost use Rattle.table_families.specs.Queue.{queue, enq_step, deq_step, length_at, shorter, ListsInOrder, QueueFits};

use crate::semiqueue::{are_semiqueue_parameters, queue_ops};
use declared_types::TypeFile;
use std::alloc::Global;
use table_maker::{FamilyRules, MakeError, make_file, named, where_legal};
use type_table::Name;

/// The states of a queue are numbered by the lengths of their lists, and among those of one length
/// lexicographically.
pub fn lists_in_order()
    ensures { ListsInOrder }
{}

/// The file of the queue of these elements and this capacity, with the set of all states.
///
/// `elements` are 1 or more distinct names of at most 28 bytes, and `capacity` is 1 to 1,023 items. A
/// state is a list of at most so many elements, the head first; states are numbered by the law
/// `lists_in_order`, so that state 0 is empty. Operations are `enq:E ok` for each element E, legal where
/// there is room, which puts E after the others, and then `deq E` for each, legal where E is the head,
/// which takes it off.
///
/// # Errors
///
/// The first that holds of `BadParameter`, `TooLarge` and `NoMemory`.
pub fn make_queue(alloc: Global, elements: &[Name], capacity: u16) -> Result<TypeFile, MakeError>
    ensures { Makes result (AreSemiqueueParameters elements.now capacity) (QueueFits elements.now capacity) (queue elements.now capacity) }
{
    if !are_semiqueue_parameters(elements, capacity) {
        return Err(MakeError::BadParameter);
    }
    if 32 < elements.len() {
        return Err(MakeError::TooLarge);
    }
    let states = lists_within(elements.len() as u16, capacity);
    if 1024 < states {
        return Err(MakeError::TooLarge);
    }
    let ops = queue_ops(alloc, elements)?;
    let rules = Queue {
        elements,
        capacity,
        states,
    };
    make_file(alloc, &rules, named(b"queue"), states, ops)
}

/// How many lists of at most `most` of n elements there are, or 1,025 where there are more than 1,024.
fn lists_within(n: u16, most: u16) -> u16
    requires some { 0 < n }
    requires few { n ≤ 32 }
    requires short { most ≤ 1023 }
    ensures { result ≡ min (shorter n (suc most)) 1025 }
{
    let mut count = 0;
    for _len in 0..most + 1 {
        count = (count * n + 1).min(1025);
    }
    count
}

/// A queue, and how many states it has.
#[derive(Clone, Copy)]
struct Queue<'a> {
    elements: &'a [Name],
    capacity: u16,
    states: u16,
    ghost exact: { states ≡ shorter (length elements.now) (suc capacity) },
    ghost some: { 0 < length elements.now },
    ghost few: { length elements.now ≤ 32 },
    ghost fits: { states ≤ 1024 },
}

impl FamilyRules for Queue<'_> {
    ghost family = { λ rules. queue rules.elements.now rules.capacity };

    fn step(&self, s: u16, k: u8) -> Option<u16> {
        let n = self.elements.len() as u16;
        let k = k as u16;
        if k < n {
            self.enqueued(k, s)
        } else {
            self.dequeued(k - n, s)
        }
    }
}

/// The lists of one length: the state of the first, and how many there are.
#[derive(Clone, Copy)]
struct OneLength {
    first: u16,
    count: u16,
}

impl Queue<'_> {
    /// The state after element e is put in, where there is room. The lists that begin with a list and have
    /// one element more come after those that begin with an earlier one, n for each.
    fn enqueued(&self, e: u16, s: u16) -> Option<u16>
        requires element { e < length self.now.elements.now }
        requires state { s < self.now.states }
        ensures { result ≡ enq_step (length self.now.elements.now) self.now.capacity e s }
    {
        let longer = s * self.elements.len() as u16 + 1 + e;
        where_legal(longer < self.states, longer)
    }

    /// The state after element e is taken off a list, where it is the head.
    fn dequeued(&self, e: u16, s: u16) -> Option<u16>
        requires element { e < length self.now.elements.now }
        requires state { s < self.now.states }
        ensures { result ≡ deq_step (length self.now.elements.now) self.now.capacity e s }
    {
        let lists = self.as_long(s);
        if lists.first == 0 {
            return None;
        }
        let place = s - lists.first;
        let of_each_head = lists.count / self.elements.len() as u16;
        let rest = lists.first - of_each_head + place % of_each_head;
        where_legal(place / of_each_head == e, rest)
    }

    /// The lists that are as long as a state's.
    fn as_long(&self, s: u16) -> OneLength
        requires { s < self.now.states }
        ensures first { result.first ≡ shorter (length self.now.elements.now) (length_at (length self.now.elements.now) self.now.capacity s) }
        ensures count { result.count ≡ length self.now.elements.now ^ length_at (length self.now.elements.now) self.now.capacity s }
    {
        let mut first = 0;
        let mut count = 1;
        for _len in 0..self.capacity {
            if s < first + count {
                return OneLength { first, count };
            }
            first += count;
            count *= self.elements.len() as u16;
        }
        OneLength { first, count }
    }
}
