//! The store: what is read of it, how its transactions begin and end, its own end, and the epoch after it.

ghost use Rattle.std.specs.Prelude.{◌≡◌, ◌≤◌, [], map, length, drop, nat_lt, slice_get, is_some, Some, IfOk, IfErr, IfSome, OnOk, ◌+◌, ◌-◌, min, vec_len, vec_capacity, ℕ, ◌∷◌, ◌++◌, true, false, ◌&&◌};
ghost use Rattle.serial_order.specs.History.{begins, summary, is_open};
ghost use Rattle.serial_order.specs.Laws.{AreChecked};
ghost use Rattle.serial_order.specs.Machine.{IsRun};
ghost use Rattle.serial_order.specs.Replay.{open_count};
ghost use Rattle.serial_order.specs.Serial.{IsSerial};
ghost use Rattle.store_laws.specs.Stored.{objects, types_of, MayStep, Steps};
ghost use Rattle.store_limits.specs.Standard.{standard_with};
ghost use Rattle.type_table.specs.Limits.{most_events, longest_history};
ghost use Rattle.store.specs.Ends.{MayBegin, RefusesNew, begun, end_command, closing, closing_abort, closing_but, is_other, IsHandedOut};
ghost use Rattle.store.specs.KeptState.{IsKeptState};
ghost use Rattle.store_laws.specs.Events.{end_event};
ghost use Rattle.object_trait.specs.Meaning.{Meaning};
ghost use Rattle.serial_order.specs.Operations.{is_among};
ghost use Rattle.store.specs.Renews.{Extends, RefusesExtend, RefusesRenew, Renews};
ghost use Rattle.serial_order.specs.declared.command.Command.TheVariants as command;

use crate::commit_count::commits_of;
use crate::held_parts::{HeldParts, are_fresh, held_for};
use crate::past::Past;
use crate::refusals::{ExtendRefusal, NewRefusal, RenewRefusal};
use crate::renewed_objects::renewed_objects;
use crate::room::has_room;
use object_calls::{CallTable, End, PlaceCounts, end_at, strike_at};
use object_trait::{Event, EventKind, Recovery, Renew};
use open_transactions::OpenTransactions;
use serial_order::{
    Refusal, beginners_after, checked_headline, closed_is_epoch, idle_is_closed, opens_after,
    run_goes_on, states_are_inside, summary_after, transactions_in_run,
};
use std::alloc::{AllocError, Global};
use std::marker::Model;
use store_laws::{
    begin_moves, end_moves, has_what_is_struck, new_is_kept, places_are_counted, places_are_few,
    places_are_inside, rollback_moves, room_after, rows_are_counted, rows_are_few,
    rows_say_who_is_open, stays_kept, types_stay,
};
use store_limits::Limits;
use table_checker::CheckedType;
use type_table::{LONGEST_HISTORY, MOST_EVENTS, limits_agree, runs_along};

/// Transactions over shared objects, each of which has a checked type and a way of recovering from
/// aborts.
///
/// Contracts see the objects' types, the history, the store's limits, and how many of the events
/// were forgotten. That a store is as it was, after a call that was refused, says that these are: they
/// determine the state of an object in place, and that of a deferred one up to equieffectiveness, as
/// `kept` says it. A store can't be dropped: `close` is its one end.
pub struct Store<R: Recovery> {
    pub(crate) objects: Vec<R>,
    // The calls of each object's type; those of a number that no line names are worked out.
    pub(crate) calls: Vec<CallTable>,
    pub(crate) transactions: OpenTransactions,
    // The events that were forgotten, which only contracts read, and how many they are.
    pub(crate) past: Past,
    pub(crate) forgotten: u32,
    // The events since.
    pub(crate) history: Vec<Event>,
    // How many of all events are commits.
    pub(crate) committed: u32,
    pub(crate) limits: Limits,
    // Room for the places of a transaction that ends.
    pub(crate) counts: PlaceCounts,
}

impl<R: Recovery> Model for Store<R> {
    ghost use Rattle.std.specs.Prelude.{◌≡◌, ◌+◌, ◌++◌, map, length, vec_capacity};
    ghost use Rattle.serial_order.specs.History.{commits};
    ghost use Rattle.store_laws.specs.Stored.{Stored, types_of};
    ghost use Rattle.store.specs.Whole.{IsWholeStore};

    ghost Value = { Stored };

    ghost view = { λ s. record {
      types = types_of (map R.meaning s.objects.items);
      history = s.past.items ++ s.history.items;
      limits = s.limits;
      forgotten = s.forgotten;
    } };

    ghost invariant = { λ s. (s.forgotten ≡ length s.past.items) × IsWholeStore (map R.meaning s.objects.items) s.calls.items s.transactions.rows (s.past.items ++ s.history.items) (s.forgotten + vec_capacity s.history) s.limits s.counts × (s.committed ≡ length (commits (s.past.items ++ s.history.items))) };
}

impl<R: Recovery> Store<R> {
    /// A store of these objects with the standard limits, but for its history, which will have at most `max_events` events, from
    /// 2 to 1,000,000: then its text can be read.
    ///
    /// # Errors
    ///
    /// `NoObjects`, `TooManyObjects`, `NotFresh`, `BadMax` or `NoMemory`, the first that holds. The
    /// objects come back.
    pub fn new(
        alloc: Global,
        objects: Vec<R>,
        max_events: u32,
    ) -> Result<Store<R>, (Vec<R>, NewRefusal)>
        ensures made { IfOk result (λ s. MayBegin most_events (map R.meaning objects.items) (standard_with max_events) × (s ≡ begun (map R.meaning objects.items) (standard_with max_events))) }
        ensures refused { IfErr result (λ e. RefusesNew most_events (map R.meaning objects.items) (standard_with max_events) e.1) }
        ensures back { IfErr result (λ e. e.0.items ≡ objects.items) }
    {
        limits_agree();
        Store::within(
            alloc,
            objects,
            Limits::standard_with(max_events),
            MOST_EVENTS,
        )
    }

    /// A store of these objects with limits of its own: from 2 to 4,294,967,295 events, from 1 to 65,536 open transactions, and
    /// from 1 to 65,536 objects. Who forgets events needs no more memory for them.
    ///
    /// # Errors
    ///
    /// As `new`, with `BadMax` where a limit is out of its range.
    pub fn with_limits(
        alloc: Global,
        objects: Vec<R>,
        limits: Limits,
    ) -> Result<Store<R>, (Vec<R>, NewRefusal)>
        ensures made { IfOk result (λ s. MayBegin longest_history (map R.meaning objects.items) limits × (s ≡ begun (map R.meaning objects.items) limits)) }
        ensures refused { IfErr result (λ e. RefusesNew longest_history (map R.meaning objects.items) limits e.1) }
        ensures checked { IfOk result (λ s. AreChecked s.types) }
        ensures back { IfErr result (λ e. e.0.items ≡ objects.items) }
    {
        limits_agree();
        Store::within(alloc, objects, limits, LONGEST_HISTORY)
    }

    /// A store of these objects, with a limit of at most `greatest` events.
    fn within(
        alloc: Global,
        objects: Vec<R>,
        limits: Limits,
        greatest: u32,
    ) -> Result<Store<R>, (Vec<R>, NewRefusal)>
        ensures made { IfOk result (λ s. MayBegin greatest (map R.meaning objects.items) limits × (s ≡ begun (map R.meaning objects.items) limits)) }
        ensures refused { IfErr result (λ e. RefusesNew greatest (map R.meaning objects.items) limits e.1) }
        ensures checked { IfOk result (λ s. AreChecked s.types) }
        ensures back { IfErr result (λ e. e.0.items ≡ objects.items) }
    {
        new_is_kept();
        let HeldParts { calls, counts } = match held_for(alloc, &objects, limits, greatest) {
            Ok(held) => held,
            Err(refusal) => return Err((objects, refusal)),
        };
        Ok(Store {
            objects,
            calls,
            transactions: OpenTransactions::new(alloc),
            past: Past::new(),
            forgotten: 0,
            history: Vec::new(alloc),
            committed: 0,
            limits,
            counts,
        })
    }

    /// What it may have.
    pub fn limits(&self) -> Limits
        ensures { result ≡ self.now.limits }
    {
        self.limits
    }

    /// The events so far that weren't forgotten, oldest first. All that there were are a run of the
    /// machine, whose committed transactions, run one after another in commit order, give the same
    /// replies. The checker said yes for the type of each object.
    pub fn history(&self) -> &[Event]
        ensures exact { result.now ≡ drop self.now.forgotten self.now.history }
        ensures whole { self.now.forgotten ≡ 0 → result.now ≡ self.now.history }
        ensures run { IsRun (objects self.now) self.now.history }
        ensures serial { IsSerial (objects self.now) self.now.history }
        ensures room { length self.now.history ≤ self.now.limits.events }
        ensures checked { AreChecked self.now.types }
    {
        checked_headline();
        &self.history
    }

    /// How many transactions began.
    pub fn begun(&self) -> u32
        ensures { result ≡ begins self.now.history }
    {
        self.transactions.begun()
    }

    /// How many transactions are open.
    pub fn open_count(&self) -> u32
        ensures { result ≡ open_count (summary self.now.history) }
    {
        rows_are_counted();
        self.transactions.open_count()
    }

    /// How many objects there are.
    pub fn object_count(&self) -> u32
        ensures { result ≡ length (objects self.now) }
    {
        self.objects.len() as u32
    }

    /// The state of the object at x, None where there is none. It agrees with the serial state.
    ///
    /// With update in place the history determines it. In escrow it is the serial state. With deferred
    /// update it is equieffective to that: of a type whose states 3 and 4 no operation distinguishes, 4 may be
    /// kept where the serial state is 3.
    pub fn kept(&self, x: u32) -> Option<u32>
        ensures there { is_some result ≡ nat_lt x (length (objects self.now)) }
        ensures kept { IfSome result (λ state. IsKeptState self.now x state) }
    {
        checked_headline();
        runs_along();
        let object = self.objects.get(x as usize)?;
        Some(object.state())
    }

    /// How many events there were, forgotten ones too.
    pub fn event_count(&self) -> u32
        ensures exact { result ≡ length self.now.history }
        ensures within { self.now.forgotten ≤ result }
    {
        // (read for its range, which the sum is within)
        let _most = self.limits.events;
        self.forgotten + self.history.len() as u32
    }

    /// Lets go of the first n events that are in memory, or of all where there are fewer: contracts go on
    /// to speak of them, but `history` doesn't have them. It takes no memory.
    pub fn forget(&mut self, n: usize)
        ensures { self.new ≡ record self.old { forgotten = min (self.old.forgotten + n) (length self.old.history) } }
    {
        let count = n.min(self.history.len());
        self.past.add(&self.history[..count]);
        self.forgotten += count as u32;
        remove_front(&mut self.history, count);
    }

    /// Begins a transaction, as worker w. Its number is the number of transactions before it.
    ///
    /// # Errors
    ///
    /// `TooManyOpen`, `HistoryFull`, or `NoMemory`, and the store is as it was.
    #[inline(always)]
    pub fn begin(&mut self, w: u8) -> Result<u32, Refusal>
        ensures number { IfOk result (λ t. t ≡ begins self.old.history) }
        ensures step { MayStep self.old w command.Begin result self.new }
    {
        rows_are_counted();
        rows_are_few();
        begin_moves();
        stays_kept();
        room_after();
        types_stay();
        let opened = self.transactions.open_count();
        if opened >= self.limits.open {
            return Err(Refusal::TooManyOpen);
        }
        if !has_room(self.forgotten, &self.history, opened, 2, self.limits.events) {
            return Err(Refusal::HistoryFull);
        }
        if self.history.reserve(opened as usize + 2).is_err() {
            return Err(Refusal::NoMemory);
        }
        if self.transactions.reserve_begin().is_err() {
            return Err(Refusal::NoMemory);
        }
        let t = self.transactions.begin(w);
        self.history.push_reserved(Event {
            worker: w,
            kind: EventKind::Begin { t },
        });
        Ok(t)
    }

    /// Strikes the last n surviving operations of transaction t, over all objects together, as worker w.
    /// The transaction stays open.
    ///
    /// # Errors
    ///
    /// `NotOpen`, `BadRollback`, `HistoryFull`, or `NoMemory`, and the store is as it was.
    pub fn rollback(&mut self, w: u8, t: u32, n: u32) -> Result<(), Refusal>
        ensures { MayStep self.old w (command.Rollback t n) result self.new }
    {
        rows_say_who_is_open();
        rows_are_counted();
        places_are_counted();
        places_are_few();
        places_are_inside();
        has_what_is_struck();
        rollback_moves();
        stays_kept();
        room_after();
        types_stay();
        if !self.transactions.is_open(t) {
            return Err(Refusal::NotOpen);
        }
        let places = self.transactions.places(t);
        let living = places.len() as u32;
        if n == 0 || n > living {
            return Err(Refusal::BadRollback);
        }
        let opened = self.transactions.open_count();
        if !has_room(self.forgotten, &self.history, opened, 1, self.limits.events) {
            return Err(Refusal::HistoryFull);
        }
        if self.history.reserve(opened as usize + 1).is_err() {
            return Err(Refusal::NoMemory);
        }
        let left = living - n;
        strike_at(
            &mut self.objects,
            &mut self.counts,
            &places[left as usize..],
            t,
        );
        self.transactions.keep_places(t, left);
        self.history.push_reserved(Event {
            worker: w,
            kind: EventKind::Rollback { t, n },
        });
        Ok(())
    }

    /// Commits transaction t, as worker w. It takes no memory, and always succeeds where t is open.
    ///
    /// # Errors
    ///
    /// `NotOpen`, and the store is as it was.
    #[inline(always)]
    pub fn commit(&mut self, w: u8, t: u32) -> Result<(), Refusal>
        ensures { Steps self.old w (command.Commit t) result self.new }
    {
        self.end(w, t, End::Commit)
    }

    /// Aborts transaction t, as worker w: all its operations are struck. It takes no memory, and
    /// always succeeds where t is open.
    ///
    /// # Errors
    ///
    /// `NotOpen`, and the store is as it was.
    pub fn abort(&mut self, w: u8, t: u32) -> Result<(), Refusal>
        ensures { Steps self.old w (command.Abort t) result self.new }
    {
        self.end(w, t, End::Abort)
    }

    /// Ends transaction t, as worker w.
    #[inline(always)]
    fn end(&mut self, w: u8, t: u32, how: End) -> Result<(), Refusal>
        ensures { Steps self.old w (end_command how t) result self.new }
    {
        rows_say_who_is_open();
        rows_are_counted();
        places_are_few();
        places_are_inside();
        end_moves();
        stays_kept();
        room_after();
        types_stay();
        if !self.transactions.is_open(t) {
            return Err(Refusal::NotOpen);
        }
        let places = self.transactions.places(t);
        end_at(&mut self.objects, &mut self.counts, places, t, how);
        self.transactions.end(t);
        // (read for its range, which the count is within)
        let _most = self.limits.events;
        self.committed += commits_of(how);
        let kind = kind_of_end(how, t);
        self.history.push_reserved(Event { worker: w, kind });
        Ok(())
    }

    /// Aborts each open transaction, in ascending order of numbers, as the worker that began it, and
    /// hands out the history and the objects, in their order. None of them has an open entry.
    pub fn close(mut self) -> (Vec<Event>, Vec<R>)
        ensures history { result.0.items ≡ drop self.forgotten (self.history ++ closing self.history) }
        ensures run { IsRun (objects self) (self.history ++ closing self.history) }
        ensures types { types_of (map R.meaning result.1.items) ≡ self.types }
        ensures objects { (x : ℕ) (m : Meaning) → slice_get (map R.meaning result.1.items) x ≡ Some m → IsHandedOut m x (self.history ++ closing self.history) }
    {
        idle_is_closed();
        self.abort_all();
        let Store {
            objects,
            calls: _,
            transactions: _,
            past: _,
            forgotten: _,
            history,
            committed: _,
            limits: _,
            counts: _,
        } = self;
        (history, objects)
    }

    /// Aborts each open transaction, in ascending order of numbers, as the worker that began it. It
    /// takes no memory.
    pub fn abort_all(&mut self)
        ensures aborts { self.new ≡ record self.old { history = self.old.history ++ closing self.old.history } }
        ensures none { (t : ℕ) → is_open (summary self.new.history) t ≡ false }
    {
        self.abort_all_but(&[]);
    }

    /// Aborts each open transaction but those, in ascending order of numbers, as the worker that began
    /// it. It takes no memory.
    pub fn abort_all_but(&mut self, those: &[u32])
        ensures aborts { self.new ≡ record self.old { history = self.old.history ++ closing_but those.now self.old.history } }
        ensures left { (t : ℕ) → is_open (summary self.new.history) t ≡ (is_among those.now t && is_open (summary self.old.history) t) }
    {
        rows_say_who_is_open();
        run_goes_on();
        summary_after();
        transactions_in_run();
        opens_after();
        beginners_after();
        for t in self.transactions.oldest()..self.transactions.begun() {
            self.abort_other(those, t);
        }
    }

    /// Aborts t where it is open and none of those.
    fn abort_other(&mut self, those: &[u32], t: u32)
        ensures aborts { is_other those.now (summary self.old.history) t ≡ true → self.new ≡ record self.old { history = self.old.history ++ closing_abort self.old.history t ∷ [] } }
        ensures stays { is_other those.now (summary self.old.history) t ≡ false → self.new ≡ self.old }
    {
        if !is_among(those, t) {
            self.abort_open(t);
        }
    }

    /// Aborts t where it is open, as the worker that began it.
    fn abort_open(&mut self, t: u32)
        ensures aborts { is_open (summary self.old.history) t ≡ true → self.new ≡ record self.old { history = self.old.history ++ closing_abort self.old.history t ∷ [] } }
        ensures stays { is_open (summary self.old.history) t ≡ false → self.new ≡ self.old }
    {
        rows_say_who_is_open();
        if self.transactions.is_open(t) {
            let w = self.transactions.worker(t);
            // t is open, so it isn't refused
            let _ = self.abort(w, t);
        }
    }

    /// Whether a transaction is open.
    pub(crate) fn has_open(&self) -> bool
        ensures some { result ≡ true → (t : ℕ) × (is_open (summary self.now.history) t ≡ true) }
        ensures none { result ≡ false → (t : ℕ) → is_open (summary self.now.history) t ≡ false }
        ensures closed { result ≡ false → self.now.history ++ closing self.now.history ≡ self.now.history }
    {
        rows_say_who_is_open();
        run_goes_on();
        summary_after();
        transactions_in_run();
        opens_after();
        beginners_after();
        self.transactions.oldest() < self.transactions.begun()
    }
}

impl<R: Renew> Store<R> {
    /// The type of the object at x, at the state where its history begins; None where there is none.
    pub fn checked(&self, x: u32) -> Option<&CheckedType>
        ensures there { is_some result ≡ nat_lt x (length self.now.types) }
        ensures checked { IfSome result (λ c. slice_get self.now.types x ≡ Some (c.now)) }
    {
        let object = self.objects.get(x as usize)?;
        Some(object.checked())
    }

    /// Begins an epoch: a store of the same types at the states that were kept, with no event yet and the
    /// same limits, beside the events of this one that weren't forgotten. The objects of this one are let go.
    ///
    /// # Errors
    ///
    /// `StillOpen` where a transaction is open, or `NoMemory`, and the store comes back as it was.
    pub fn renew(self, alloc: Global) -> Result<(Store<R>, Vec<Event>), (Store<R>, RenewRefusal)>
        ensures renewed { IfOk result (λ p. Renews self p.0) }
        ensures history { IfOk result (λ p. p.1.items ≡ drop self.forgotten self.history) }
        ensures back { IfErr result (λ e. e.0 ≡ self) }
        ensures refused { IfErr result (λ e. RefusesRenew self e.1) }
    {
        if self.has_open() {
            return Err((self, RenewRefusal::StillOpen));
        }
        match self.renewed(alloc) {
            Ok(store) => {
                let (history, _objects) = self.close();
                Ok((store, history))
            }
            Err(AllocError) => Err((self, RenewRefusal::NoMemory)),
        }
    }

    /// Begins an epoch with more objects, which come after those that there are: else it does as `renew`.
    ///
    /// # Errors
    ///
    /// `StillOpen`, `TooManyObjects`, `NotFresh` or `NoMemory`, the first that holds. The store comes back as it was, and what
    /// was to be added is let go.
    pub fn renew_with(
        self,
        alloc: Global,
        added: Vec<R>,
    ) -> Result<(Store<R>, Vec<Event>), (Store<R>, ExtendRefusal)>
        ensures extended { IfOk result (λ p. Extends self (types_of (map R.meaning added.items)) p.0) }
        ensures history { IfOk result (λ p. p.1.items ≡ drop self.forgotten self.history) }
        ensures back { IfErr result (λ e. e.0 ≡ self) }
        ensures refused { IfErr result (λ e. RefusesExtend self (map R.meaning added.items) e.1) }
    {
        if self.has_open() {
            return Err((self, ExtendRefusal::StillOpen));
        }
        match self.extended(alloc, added) {
            Ok(store) => {
                let (history, _objects) = self.close();
                Ok((store, history))
            }
            Err(refusal) => Err((self, refusal)),
        }
    }

    /// A store of the same types at the states that this one keeps, in which no transaction is open, and of what is added.
    ///
    /// # Errors
    ///
    /// `TooManyObjects`, `NotFresh` or `NoMemory`.
    fn extended(&self, alloc: Global, added: Vec<R>) -> Result<Store<R>, ExtendRefusal>
        requires { (t : ℕ) → is_open (summary self.now.history) t ≡ false }
        ensures extended { IfOk result (Extends self.now (types_of (map R.meaning added.items))) }
        ensures refused { IfErr result (RefusesExtend self.now (map R.meaning added.items)) }
    {
        checked_headline();
        runs_along();
        closed_is_epoch();
        states_are_inside();
        if !self.has_place_for(added.len()) {
            return Err(ExtendRefusal::TooManyObjects);
        }
        if !are_fresh(&added) {
            return Err(ExtendRefusal::NotFresh);
        }
        let Ok(mut all) = renewed_objects(alloc, &self.objects) else {
            return Err(ExtendRefusal::NoMemory);
        };
        if add_all(&mut all, added).is_err() {
            return Err(ExtendRefusal::NoMemory);
        }
        match Store::with_limits(alloc, all, self.limits) {
            Ok(store) => Ok(store),
            Err(_) => Err(ExtendRefusal::NoMemory),
        }
    }

    /// A store of the same types at the states that this one keeps, in which no transaction is open.
    ///
    /// # Errors
    ///
    /// Memory was refused.
    fn renewed(&self, alloc: Global) -> Result<Store<R>, AllocError>
        requires { (t : ℕ) → is_open (summary self.now.history) t ≡ false }
        ensures { IfOk result (λ store. Renews self.now store) }
    {
        checked_headline();
        runs_along();
        closed_is_epoch();
        states_are_inside();
        let objects = renewed_objects(alloc, &self.objects)?;
        match Store::with_limits(alloc, objects, self.limits) {
            Ok(store) => Ok(store),
            Err(_) => Err(AllocError),
        }
    }
}

/// Puts objects after others.
pub(crate) fn add_all<R: Recovery>(
    objects: &mut Vec<R>,
    mut added: Vec<R>,
) -> Result<(), AllocError>
    ensures { OnOk result (objects.new.items ≡ objects.old.items ++ added.items) }
{
    objects.append(&mut added)
}

/// Takes out the first n events.
fn remove_front(history: &mut Vec<Event>, n: usize)
    requires { n ≤ length history.old.items }
    ensures items { history.new.items ≡ drop n history.old.items }
    ensures capacity { vec_capacity history.new ≡ vec_capacity history.old }
{
    let len = history.len();
    history.copy_within(n..len, 0);
    history.truncate(len - n);
}

/// The event of an end of t.
fn kind_of_end(how: End, t: u32) -> EventKind
    ensures { result ≡ end_event how t }
{
    match how {
        End::Commit => EventKind::Commit { t },
        End::Abort => EventKind::Abort { t },
    }
}

/// Whether t is one of those.
fn is_among(those: &[u32], t: u32) -> bool
    ensures { result ≡ is_among those.now t }
{
    those.contains(&t)
}
