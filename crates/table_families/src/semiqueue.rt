//! Semiqueues: items of several elements, of which a dequeue gives any that is held.

ghost use Rattle.std.specs.Prelude.{◌≡◌, ℕ, ◌+◌, ◌*◌, ◌^◌, ◌<◌, ◌≤◌, ◌++◌, ◌↔◌, List, map, length, sum, IsTrue, IfOk, OnOk, slice_set};
ghost use Rattle.std.specs.List.{position};
ghost use Rattle.std.specs.Str.{bytes_eq};
ghost use Rattle.table_families.specs.Elements.{element_at};
ghost use Rattle.table_maker.specs.Made.{Family, Makes};
ghost use Rattle.table_families.specs.Semiqueue.{semiqueue, semiqueue_states, counts_at, semiqueue_state, semiqueue_enq, semiqueue_deq, enq_op, deq_op, AreSemiqueueParameters, SemiqueueFits};

use crate::counts::{counts_within, number_within};
use crate::elements::are_elements;
use declared_types::TypeFile;
use std::alloc::{AllocError, Global};
use table_maker::{FamilyRules, MakeError, make_file, named, prefixed};
use type_table::{Name, Op};

/// The file of the semiqueue of these elements and this capacity, with the set of all states.
///
/// `elements` are 1 or more distinct names of at most 28 bytes, and `capacity` is 1 to 1,023 items.
/// A state is a count of each element, in all at most the capacity; states are numbered in
/// lexicographic order, so that state 0 is empty. Operations are `enq:E ok` for each element E, legal
/// where there is room, to one E more, and then `deq E` for each, legal where an E is held, to one less.
///
/// # Errors
///
/// `BadParameter` where the elements or the capacity aren't such. Otherwise `TooLarge` where there
/// are more than 64 operations or more than 1,024 states, and takes no memory to say so. Otherwise
/// `NoMemory` where memory is refused.
pub fn make_semiqueue(
    alloc: Global,
    elements: &[Name],
    capacity: u16,
) -> Result<TypeFile, MakeError>
    ensures { Makes result (AreSemiqueueParameters elements.now capacity) (SemiqueueFits elements.now capacity) (semiqueue elements.now capacity) }
{
    if !are_semiqueue_parameters(elements, capacity) {
        return Err(MakeError::BadParameter);
    }
    if 32 < elements.len() || 1024 < number_within(elements.len(), capacity) {
        return Err(MakeError::TooLarge);
    }
    let ops = queue_ops(alloc, elements)?;
    let states = counts_within(alloc, elements.len(), capacity)?;
    let count = states.len() as u16;
    let rules = Semiqueue {
        elements,
        capacity,
        states,
    };
    make_file(alloc, &rules, named(b"semiqueue"), count, ops)
}

/// Whether the elements are 1 or more distinct names of at most 28 bytes, and the capacity is 1 to
/// 1,023.
pub fn are_semiqueue_parameters(elements: &[Name], capacity: u16) -> bool
    ensures { IsTrue result ↔ AreSemiqueueParameters elements.now capacity }
{
    if capacity < 1 || 1023 < capacity {
        return false;
    }
    are_elements(28, elements)
}

/// A semiqueue with its states.
#[derive(Drop)]
struct Semiqueue<'a> {
    elements: &'a [Name],
    capacity: u16,
    states: Vec<Vec<u16>>,
    ghost exact: { map (λ counts. counts.items) states.items ≡ semiqueue_states elements.now capacity },
    ghost few: { length (semiqueue_states elements.now capacity) ≤ 1024 },
    ghost small: { capacity ≤ 1023 },
}

impl FamilyRules for Semiqueue<'_> {
    ghost family = { λ rules. semiqueue rules.elements.now rules.capacity };

    fn step(&self, s: u16, k: u8) -> Option<u16> {
        let i = k as usize;
        if i < self.elements.len() {
            self.enqueued(i, s)
        } else {
            self.dequeued(i - self.elements.len(), s)
        }
    }
}

impl Semiqueue<'_> {
    /// The state after element i is put in, where there is room.
    fn enqueued(&self, i: usize, s: u16) -> Option<u16>
        requires element { i < length self.now.elements.now }
        requires state { s < length (semiqueue_states self.now.elements.now self.now.capacity) }
        ensures { result ≡ semiqueue_enq (semiqueue_states self.now.elements.now self.now.capacity) self.now.capacity i s }
    {
        let counts = self.counts_at(s);
        if total(counts) < self.capacity {
            self.state_with(counts, i, counts[i] + 1)
        } else {
            None
        }
    }

    /// The state after element i is taken out, where one is held.
    fn dequeued(&self, i: usize, s: u16) -> Option<u16>
        requires element { i < length self.now.elements.now }
        requires state { s < length (semiqueue_states self.now.elements.now self.now.capacity) }
        ensures { result ≡ semiqueue_deq (semiqueue_states self.now.elements.now self.now.capacity) i s }
    {
        let counts = self.counts_at(s);
        if 1 <= counts[i] {
            self.state_with(counts, i, counts[i] - 1)
        } else {
            None
        }
    }

    /// How many of each element a state holds.
    fn counts_at(&self, s: u16) -> &[u16]
        requires { s < length (semiqueue_states self.now.elements.now self.now.capacity) }
        ensures exact { result.now ≡ counts_at (semiqueue_states self.now.elements.now self.now.capacity) s }
        ensures whole { length result.now ≡ length self.now.elements.now }
        ensures fits { sum result.now ≤ self.now.capacity }
    {
        &self.states[s as usize]
    }

    /// The state that holds these counts but with this count of element i.
    fn state_with(&self, counts: &[u16], i: usize, count: u16) -> Option<u16>
        requires { i < length counts.now }
        ensures { result ≡ semiqueue_state (semiqueue_states self.now.elements.now self.now.capacity) (slice_set counts.now i count) }
    {
        let place = place_with(&self.states, counts, i, count)?;
        Some(place as u16)
    }
}

/// The place of these counts but with this count of element i among lists.
fn place_with(lists: &[Vec<u16>], counts: &[u16], i: usize, count: u16) -> Option<usize>
    requires { i < length counts.now }
    ensures { result ≡ position (λ other. bytes_eq other.items (slice_set counts.now i count)) lists.now }
{
    lists
        .iter()
        .position(|other| is_changed(other, counts, i, count))
}

/// The sum of the counts.
fn total(counts: &[u16]) -> u16
    requires { sum counts.now < 2 ^ 16 }
    ensures { result ≡ sum counts.now }
{
    counts.iter().sum()
}

/// Whether a list is another with this count of element i.
fn is_changed(other: &[u16], counts: &[u16], i: usize, count: u16) -> bool
    requires { i < length counts.now }
    ensures { result ≡ bytes_eq other.now (slice_set counts.now i count) }
{
    if other.len() != counts.len() {
        return false;
    }
    if other[i] != count {
        return false;
    }
    if other[..i] != counts[..i] {
        return false;
    }
    other[i + 1..] == counts[i + 1..]
}

/// The enqueues of the elements, and then the dequeues.
pub fn queue_ops(alloc: Global, elements: &[Name]) -> Result<Vec<Op>, AllocError>
    requires { (i : ℕ) → i < length elements.now → length (element_at elements.now i) ≤ 28 }
    ensures { IfOk result (λ ops. ops.items ≡ map enq_op elements.now ++ map deq_op elements.now) }
{
    let mut ops = Vec::new(alloc);
    push_enqueues(&mut ops, elements)?;
    push_dequeues(&mut ops, elements)?;
    Ok(ops)
}

/// Pushes an enqueue of each element.
fn push_enqueues(ops: &mut Vec<Op>, elements: &[Name]) -> Result<(), AllocError>
    requires { (i : ℕ) → i < length elements.now → length (element_at elements.now i) ≤ 28 }
    ensures { OnOk result (ops.new.items ≡ ops.old.items ++ map enq_op elements.now) }
{
    for e in elements {
        ops.push(Op {
            call: prefixed(b"enq:", *e),
            reply: named(b"ok"),
        })?;
    }
    Ok(())
}

/// Pushes a dequeue of each element.
fn push_dequeues(ops: &mut Vec<Op>, elements: &[Name]) -> Result<(), AllocError>
    ensures { OnOk result (ops.new.items ≡ ops.old.items ++ map deq_op elements.now) }
{
    for e in elements {
        ops.push(Op {
            call: named(b"deq"),
            reply: *e,
        })?;
    }
    Ok(())
}
