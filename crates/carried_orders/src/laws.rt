//! Laws of orders: each is a function that does nothing, whose contract is the law.

ghost use Rattle.carried_orders.specs.Orders.{MergedKeepsOrders, OrderedIsUnseen};

use carried_runs::{carried_is_run, logs_tell_carried, renewal_is_unseen};

/// Where each yes is strong, a renewal that carries all open transactions in an order that keeps that at each
/// object and that of each transaction is unseen: what the next epoch does, the old one might have done,
/// had it had the objects that are added.
pub fn ordered_is_unseen()
    ensures { OrderedIsUnseen }
{
    carried_is_run();
    renewal_is_unseen();
}

/// The logs of objects and the places of transactions tell such an order. No event of the history is needed.
pub fn merged_keeps_orders()
    ensures { MergedKeepsOrders }
{
    logs_tell_carried();
}
