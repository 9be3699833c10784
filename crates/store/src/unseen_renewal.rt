//! A store that begins anew while transactions are open, perhaps with objects more, so that no answer can tell it.

ghost use Rattle.std.specs.Prelude.{◌≡◌, ◌↔◌, ◌++◌, ◌∷◌, [], drop, filter, map, IfErr, IfOk, true, OnOk};
ghost use Rattle.serial_order.specs.History.{is_open, summary};
ghost use Rattle.carried_orders.specs.Orders.{AreStrong};
ghost use Rattle.store_laws.specs.Stored.{types_of};
ghost use Rattle.store.specs.CarriesAll.{CarriesAll, RenewsAll, IsUnseen, RefusesAll, StaysBehind, open_ones};
ghost use Rattle.store.specs.Retraces.{IsTracedHistory};

use crate::held_parts::are_fresh;
use crate::refusals::{CarryRefusal, RenewRefusal};
use crate::renewed_objects::committed_objects;
use crate::store::{Store, add_all};
use crate::strong_types::are_strong;
use carried_orders::{merged_events, merged_keeps_orders, ordered_is_unseen};
use carried_runs::{carried_fits, carried_in_any_order, carried_works};
use committed_states::committed_is_there;
use object_trait::{Event, Renew, checked_is_covered};
use serial_order::logs_are_counted;
use std::alloc::{AllocError, Global};
use store_laws::{places_are_inside, rows_say_who_is_open};

impl<R: Renew> Store<R> {
    /// Begins an epoch with the same limits, beside the events of this one that weren't forgotten. Where no transaction is
    /// open it does as `renew`. Where one is, and each yes is strong, all of them are carried: they begin, each by the worker
    /// that began it, with the numbers 0, 1, 2, .. in the order of their old ones, and do again what survives of them. No
    /// later answer can tell that.
    ///
    /// # Errors
    ///
    /// `StillOpen` where a transaction is open and some yes is one-way, or `NoMemory`, and the store comes back as it was.
    pub fn renew_unseen(
        self,
        alloc: Global,
    ) -> Result<(Store<R>, Vec<Event>), (Store<R>, RenewRefusal)>
        ensures over { IfOk result (λ p. RenewsAll self p.0) }
        ensures history { IfOk result (λ p. p.1.items ≡ drop self.forgotten self.history) }
        ensures back { IfErr result (λ e. e.0 ≡ self) }
        ensures refused { IfErr result (λ e. StaysBehind self e.1) }
    {
        if !self.has_open() {
            return self.renew(alloc);
        }
        if !self.is_strong() {
            return Err((self, RenewRefusal::StillOpen));
        }
        match self.carried_all(alloc, Vec::new(alloc)) {
            Ok(store) => Ok((store, self.into_history())),
            Err(AllocError) => Err((self, RenewRefusal::NoMemory)),
        }
    }

    /// Begins an epoch beside the events of this one that weren't forgotten: a store of the same types at the committed
    /// states, with the same limits, in which all that is open goes on. The open transactions begin, each by the worker that
    /// began it, with the numbers 0, 1, 2, .. in the order of their old ones, and do again what survives of them. The objects
    /// of `added`, none or more, come behind those that there are. Where each yes is strong, that of what is added too, no
    /// later answer can tell it.
    ///
    /// # Errors
    ///
    /// `TooManyObjects`, `NotFresh` or `NoMemory`, the first that holds. The store comes back as it was, and what was to be
    /// added is let go.
    pub fn carry_all(
        self,
        alloc: Global,
        added: Vec<R>,
    ) -> Result<(Store<R>, Vec<Event>), (Store<R>, CarryRefusal)>
        ensures carried { IfOk result (λ p. CarriesAll self (types_of (map R.meaning added.items)) p.0) }
        ensures unseen { IfOk result (λ p. AreStrong (self.types ++ types_of (map R.meaning added.items)) → IsUnseen self (types_of (map R.meaning added.items)) p.0) }
        ensures traced { IfOk result (λ p. IsTracedHistory p.0) }
        ensures history { IfOk result (λ p. p.1.items ≡ drop self.forgotten self.history) }
        ensures back { IfErr result (λ e. e.0 ≡ self) }
        ensures refused { IfErr result (λ e. RefusesAll self (map R.meaning added.items) e.1) }
    {
        match self.all_carried(alloc, added) {
            Ok(store) => Ok((store, self.into_history())),
            Err(refusal) => Err((self, refusal)),
        }
    }

    /// Whether the yes of each object's type is strong. For update in place a type is searched, though not again for an
    /// object that comes after another one of it.
    pub fn is_strong(&self) -> bool
        ensures { (result ≡ true) ↔ AreStrong self.now.types }
    {
        are_strong(&self.objects)
    }

    /// A store of the same types at the committed states and of what is added, in which all that is open is carried.
    ///
    /// # Errors
    ///
    /// `TooManyObjects`, `NotFresh` or `NoMemory`, the first that holds.
    fn all_carried(&self, alloc: Global, added: Vec<R>) -> Result<Store<R>, CarryRefusal>
        ensures carried { IfOk result (λ store. CarriesAll self.now (types_of (map R.meaning added.items)) store) }
        ensures unseen { IfOk result (λ store. AreStrong (self.now.types ++ types_of (map R.meaning added.items)) → IsUnseen self.now (types_of (map R.meaning added.items)) store) }
        ensures traced { IfOk result (λ store. IsTracedHistory store) }
        ensures refused { IfErr result (λ why. RefusesAll self.now (map R.meaning added.items) why) }
    {
        if !self.has_place_for(added.len()) {
            return Err(CarryRefusal::TooManyObjects);
        }
        if !are_fresh(&added) {
            return Err(CarryRefusal::NotFresh);
        }
        match self.carried_all(alloc, added) {
            Ok(store) => Ok(store),
            Err(AllocError) => Err(CarryRefusal::NoMemory),
        }
    }

    /// Such a store, where the limits let there be one.
    ///
    /// # Errors
    ///
    /// Memory was refused, or the limits forbid it.
    fn carried_all(&self, alloc: Global, added: Vec<R>) -> Result<Store<R>, AllocError>
        ensures carried { IfOk result (λ store. CarriesAll self.now (types_of (map R.meaning added.items)) store) }
        ensures unseen { IfOk result (λ store. AreStrong (self.now.types ++ types_of (map R.meaning added.items)) → IsUnseen self.now (types_of (map R.meaning added.items)) store) }
        ensures traced { IfOk result (λ store. IsTracedHistory store) }
    {
        checked_is_covered();
        committed_is_there();
        logs_are_counted();
        rows_say_who_is_open();
        places_are_inside();
        carried_in_any_order();
        carried_works();
        carried_fits();
        merged_keeps_orders();
        ordered_is_unseen();
        // (read for its range, which the history is within)
        let _most = self.limits.events;
        let those = self.open_ones(alloc)?;
        let mut objects = committed_objects(alloc, &self.objects)?;
        add_all(&mut objects, added)?;
        let events = merged_events(alloc, &self.objects, &self.transactions, &those)?;
        let run = events.as_slice();
        match Store::with_limits(alloc, objects, self.limits) {
            Ok(store) => store.redone(run),
            Err(_) => Err(AllocError),
        }
    }

    /// The open transactions, in the order of their numbers: those that `carry_all` carries.
    ///
    /// # Errors
    ///
    /// Memory was refused.
    pub fn open_ones(&self, alloc: Global) -> Result<Vec<u32>, AllocError>
        ensures { IfOk result (λ those. those.items ≡ open_ones self.now.history) }
    {
        rows_say_who_is_open();
        let mut those = Vec::new(alloc);
        for t in self.transactions.oldest()..self.transactions.begun() {
            self.push_open(&mut those, t)?;
        }
        Ok(those)
    }

    /// Puts t behind those, where it is open.
    fn push_open(&self, those: &mut Vec<u32>, t: u32) -> Result<(), AllocError>
        ensures { OnOk result (those.new.items ≡ those.old.items ++ filter (is_open (summary self.now.history)) (t ∷ [])) }
    {
        if self.is_open(t) {
            those.push(t)?;
        }
        Ok(())
    }
}
