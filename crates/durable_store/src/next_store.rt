//! The store of the next epoch, in which what goes over begins.

ghost use Rattle.std.specs.Prelude.{◌≡◌, ◌↔◌, ◌<◌, IfErr, IfOk, map, true};
ghost use Rattle.object_trait.specs.Orders.{Pairs};
ghost use Rattle.carried_orders.specs.Orders.{AreStrong};
ghost use Rattle.store_laws.specs.Stored.{types_of};
ghost use Rattle.store.specs.Retraces.{IsTracedHistory};
ghost use Rattle.objects.specs.Object.{meaning_of};
ghost use Rattle.durable_store.specs.Held.{moved_among};
ghost use Rattle.durable_store.specs.NextStore.{BeginsNext, GoOver, RefusesNext};

use crate::held_list::{in_order, renumbered};
use journal::Prepared;
use objects::Object;
use std::alloc::{AllocError, Global};
use store::{CarryRefusal, Store, are_strong};

/// What goes over into the next epoch.
#[derive(Drop)]
pub(crate) struct Moved {
    /// The numbers of the transactions, in their order.
    pub(crate) those: Vec<u32>,
    /// What is prepared, with the numbers that it has there.
    pub(crate) prepared: Vec<Prepared>,
}

/// All that is open goes over where each yes is strong, and else what is prepared.
///
/// # Errors
///
/// Memory was refused. Or one that is prepared isn't open, which is so only after the file failed.
pub(crate) fn moved_over(
    alloc: Global,
    store: &Store<Object>,
    prepared: &[Prepared],
    strong: bool,
) -> Result<Moved, AllocError>
    ensures going { IfOk result (λ moved. GoOver strong store.now.history prepared.now moved.those.items) }
    ensures renumbers { IfOk result (λ moved. moved.prepared.items ≡ map (moved_among moved.those.items) prepared.now) }
{
    let those = going_over(alloc, store, prepared, strong)?;
    let prepared = renumbered(alloc, prepared, &those)?;
    Ok(Moved { those, prepared })
}

/// The numbers of what goes over, in their order.
///
/// # Errors
///
/// Memory was refused.
pub(crate) fn going_over(
    alloc: Global,
    store: &Store<Object>,
    prepared: &[Prepared],
    strong: bool,
) -> Result<Vec<u32>, AllocError>
    ensures going { IfOk result (λ those. GoOver strong store.now.history prepared.now those.items) }
    ensures ascend { IfOk result (λ those. Pairs (λ a b. a < b) those.items) }
{
    if strong {
        return store.open_ones(alloc);
    }
    in_order(alloc, prepared)
}

/// The store of the next epoch, with these objects more, in which those go on: all that is open where each yes is strong.
///
/// # Errors
///
/// The store's own refusal, and it comes back as it was. What was to be added is let go.
pub(crate) fn next_store(
    alloc: Global,
    store: Store<Object>,
    strong: bool,
    those: &[u32],
    added: Vec<Object>,
) -> Result<Store<Object>, (Store<Object>, CarryRefusal)>
    ensures begins { IfOk result (λ next. BeginsNext strong store those.now (types_of (map meaning_of added.items)) next) }
    ensures traced { IfOk result (λ next. IsTracedHistory next) }
    ensures back { IfErr result (λ e. e.0 ≡ store) }
    ensures refused { IfErr result (λ e. RefusesNext strong store those.now (map meaning_of added.items) e.1) }
{
    if strong {
        match store.carry_all(alloc, added) {
            Ok((next, _)) => Ok(next),
            Err((back, why)) => Err((back, why)),
        }
    } else {
        match store.carry(alloc, 0, those, added) {
            Ok((next, _)) => Ok(next),
            Err((back, why)) => Err((back, why)),
        }
    }
}

/// Whether each yes is strong, where objects are added to some of whose types that is known.
pub(crate) fn stays_strong(strong: bool, added: &[Object]) -> bool
    ensures { (result ≡ true) ↔ ((strong ≡ true) × AreStrong (types_of (map meaning_of added.now))) }
{
    strong && are_strong(added)
}
