//! A store that begins anew while transactions are open.

ghost use Rattle.std.specs.Prelude.{◌≡◌, ◌↔◌, ◌≤◌, ◌+◌, ◌∷◌, ◌++◌, [], true, None, All, drop, length, map, IfErr, IfOk, IsTrue, OnErr, OnOk};
ghost use Rattle.std.specs.List.{AllByRecursion};
ghost use Rattle.std.specs.List.Sorted.{IsStrictlyIncreasing};
ghost use Rattle.serial_order.specs.History.{is_open, summary};
ghost use Rattle.serial_order.specs.Machine.{IsRun};
ghost use Rattle.serial_order.specs.Replay.{open_count};
ghost use Rattle.serial_order.specs.declared.command.Command.TheVariants as command;
ghost use Rattle.carried_runs.specs.Redo.{begins_or_works};
ghost use Rattle.store_laws.specs.Stored.{objects, refusal_of, stored_after, types_of};
ghost use Rattle.store_laws.specs.Events.{room_taken};
ghost use Rattle.store.specs.Carries.{Carries, MayBeCarried, RefusesCarry};
ghost use Rattle.store.specs.Retraces.{IsRetraced, IsTracedHistory};

use crate::held_parts::are_fresh;
use crate::refusals::CarryRefusal;
use crate::renewed_objects::committed_objects;
use crate::store::{Store, add_all};
use carried_runs::{
    carried_events, carried_fits, carried_in_any_order, carried_works, logs_tell_order,
};
use committed_states::committed_is_there;
use object_trait::{Event, EventKind, Recovery, Renew, checked_is_covered};
use serial_order::{Refusal, logs_are_counted};
use std::alloc::{AllocError, Global};
use store_laws::{room_after, rows_say_who_is_open};

impl<R: Renew> Store<R> {
    /// Begins an epoch: a store of the same types at the committed states, with the same limits, in which these open
    /// transactions, whose numbers ascend, begin by worker w, and what survives of them is done again. It comes beside the
    /// events of this one that weren't forgotten. What else is open is let go, as by an abort. The objects of `added`, none
    /// or more, come behind those that there are.
    ///
    /// # Errors
    ///
    /// `NotOpen` where one of these isn't open or isn't greater than the one before it, `TooManyObjects`, `NotFresh` or
    /// `NoMemory`, the first that holds. The store comes back as it was, and what was to be added is let go.
    pub fn carry(
        self,
        alloc: Global,
        w: u8,
        those: &[u32],
        added: Vec<R>,
    ) -> Result<(Store<R>, Vec<Event>), (Store<R>, CarryRefusal)>
        ensures carried { IfOk result (λ p. Carries self w those.now (types_of (map R.meaning added.items)) p.0) }
        ensures traced { IfOk result (λ p. IsTracedHistory p.0) }
        ensures history { IfOk result (λ p. p.1.items ≡ drop self.forgotten self.history) }
        ensures back { IfErr result (λ e. e.0 ≡ self) }
        ensures refused { IfErr result (λ e. RefusesCarry self those.now (map R.meaning added.items) e.1) }
    {
        if !self.may_carry(those) {
            return Err((self, CarryRefusal::NotOpen));
        }
        match self.carried(alloc, w, those, added) {
            Ok(store) => Ok((store, self.into_history())),
            Err(refusal) => Err((self, refusal)),
        }
    }

    /// A store of the same types at the committed states and of what is added, in which these are carried.
    ///
    /// # Errors
    ///
    /// `TooManyObjects`, `NotFresh` or `NoMemory`, the first that holds.
    fn carried(
        &self,
        alloc: Global,
        w: u8,
        those: &[u32],
        added: Vec<R>,
    ) -> Result<Store<R>, CarryRefusal>
        requires { MayBeCarried those.now self.now }
        ensures carried { IfOk result (λ store. Carries self.now w those.now (types_of (map R.meaning added.items)) store) }
        ensures traced { IfOk result (λ store. IsTracedHistory store) }
        ensures refused { IfErr result (λ why. RefusesCarry self.now those.now (map R.meaning added.items) why) }
    {
        if !self.has_place_for(added.len()) {
            return Err(CarryRefusal::TooManyObjects);
        }
        if !are_fresh(&added) {
            return Err(CarryRefusal::NotFresh);
        }
        match self.carried_with(alloc, w, those, added) {
            Ok(store) => Ok(store),
            Err(AllocError) => Err(CarryRefusal::NoMemory),
        }
    }

    /// Such a store, where the limits let there be one.
    ///
    /// # Errors
    ///
    /// Memory was refused, or the limits forbid it.
    fn carried_with(
        &self,
        alloc: Global,
        w: u8,
        those: &[u32],
        added: Vec<R>,
    ) -> Result<Store<R>, AllocError>
        requires { MayBeCarried those.now self.now }
        ensures carried { IfOk result (λ store. Carries self.now w those.now (types_of (map R.meaning added.items)) store) }
        ensures traced { IfOk result (λ store. IsTracedHistory store) }
    {
        checked_is_covered();
        committed_is_there();
        logs_are_counted();
        logs_tell_order();
        carried_in_any_order();
        carried_works();
        carried_fits();
        // (read for its range, which the history is within)
        let _most = self.limits.events;
        let mut objects = committed_objects(alloc, &self.objects)?;
        add_all(&mut objects, added)?;
        let events = carried_events(alloc, &self.objects, those, w)?;
        let run = events.as_slice();
        match Store::with_limits(alloc, objects, self.limits) {
            Ok(store) => store.redone(run),
            Err(_) => Err(AllocError),
        }
    }
}

impl<R: Recovery> Store<R> {
    /// Whether these are open, each greater than the one before it.
    fn may_carry(&self, those: &[u32]) -> bool
        ensures yes { IsTrue result → MayBeCarried those.now self.now }
        ensures no { MayBeCarried those.now self.now → IsTrue result }
    {
        if !ascend(those) {
            return false;
        }
        self.are_open(those)
    }

    /// Whether transaction t is open.
    pub fn is_open(&self, t: u32) -> bool
        ensures { result ≡ is_open (summary self.now.history) t }
    {
        rows_say_who_is_open();
        self.transactions.is_open(t)
    }

    /// Whether all of these are open.
    fn are_open(&self, those: &[u32]) -> bool
        ensures { IsTrue result ↔ All (λ t. is_open (summary self.now.history) t ≡ true) those.now }
    {
        those.iter().all(|t| self.is_open(*t))
    }

    /// Hands out the events that weren't forgotten, and lets go of the rest: what is open isn't aborted.
    pub(crate) fn into_history(self) -> Vec<Event>
        ensures { result.items ≡ drop self.forgotten self.history }
    {
        let Store {
            objects: _,
            calls: _,
            transactions: _,
            past: _,
            forgotten: _,
            history,
            committed: _,
            limits: _,
            counts: _,
        } = self;
        history
    }

    /// The store after a run that only begins transactions and executes operations, done again.
    ///
    /// # Errors
    ///
    /// Memory was refused.
    pub(crate) fn redone(mut self, events: &[Event]) -> Result<Store<R>, AllocError>
        requires run { IsRun (objects self) events.now }
        requires works { AllByRecursion (λ e. begins_or_works e.kind ≡ true) events.now }
        requires new { self.history ≡ [] }
        requires room { length events.now + open_count (summary events.now) ≤ self.limits.events }
        requires few { open_count (summary events.now) ≤ self.limits.open }
        ensures done { IfOk result (λ store. store ≡ record self { history = events.now }) }
        ensures traced { IfOk result (λ store. IsTracedHistory store) }
    {
        room_after();
        for event in events {
            if self.redo(event).is_err() {
                let _ = self.into_history();
                return Err(AllocError);
            }
        }
        Ok(self)
    }

    /// Does an event again that begins a transaction or executes an operation, though the store would perhaps answer
    /// another one first.
    ///
    /// # Errors
    ///
    /// Memory was refused, and the store is as it was.
    pub fn redo(&mut self, event: &Event) -> Result<(), AllocError>
        requires run { IsRun (objects self.old) (self.old.history ++ event.now ∷ []) }
        requires works { begins_or_works event.now.kind ≡ true }
        requires room { length self.old.history + open_count (summary self.old.history) + room_taken event.now.kind ≤ self.old.limits.events }
        requires few { open_count (summary (self.old.history ++ event.now ∷ [])) ≤ self.old.limits.open }
        ensures done { OnOk result (self.new ≡ record self.old { history = self.old.history ++ event.now ∷ [] }) }
        ensures traced { OnOk result (IsRetraced self.old event.now) }
        ensures back { OnErr result (self.new ≡ self.old) }
    {
        room_after();
        let w = event.worker;
        match event.kind {
            EventKind::Begin { t: _ } => self.begin_again(w),
            EventKind::Op { t, x, k } => self.execute_again(w, t, x, k),
            // nothing else is done again
            _ => unreachable!(),
        }
    }

    /// Begins a transaction, as worker w, where that isn't refused.
    ///
    /// # Errors
    ///
    /// Memory was refused, and the store is as it was.
    fn begin_again(&mut self, w: u8) -> Result<(), AllocError>
        requires { refusal_of self.old command.Begin ≡ None }
        ensures done { OnOk result (self.new ≡ stored_after self.old w command.Begin) }
        ensures back { OnErr result (self.new ≡ self.old) }
    {
        match self.begin(w) {
            Ok(_) => Ok(()),
            Err(Refusal::NoMemory) => Err(AllocError),
            // it isn't refused
            Err(_) => unreachable!(),
        }
    }
}

/// Whether each is greater than the one before it.
fn ascend(numbers: &[u32]) -> bool
    ensures { IsTrue result ↔ IsStrictlyIncreasing numbers.now }
{
    for i in 1..numbers.len() {
        if numbers[i] <= numbers[i - 1] {
            return false;
        }
    }
    true
}
