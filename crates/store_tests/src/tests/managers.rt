//! Objects of either kind of recovery, by their managers.

pub mod driven;

use self::driven::apply_next;
use crate::tests::checked_types::checked_of;
use escrow_manager::EscrowManager;
use intentions_manager::IntentionsManager;
use object_calls::call_unreplied;
use object_trait::Recovery;
use std::process::Abort;
use std::test::Fail;
use test_support::printed::are_printed;
use test_support::type_texts::{COUNTER, PURSE};
use type_table::{Kind, Operation};
use undo_manager::UndoManager;

/// A new object with update in place.
pub fn in_place(rt: &(impl Abort + AllocGlobal), text: &str) -> UndoManager {
    let checked = checked_of(rt.alloc(), text, Kind::Undo).expect(rt, "no type");
    UndoManager::new(rt.alloc(), checked)
        .ok()
        .expect(rt, "wrong kind")
}

/// A new object with deferred update.
pub fn deferred(rt: &(impl Abort + AllocGlobal), text: &str) -> IntentionsManager {
    let checked = checked_of(rt.alloc(), text, Kind::Intentions).expect(rt, "no type");
    IntentionsManager::new(rt.alloc(), checked)
        .ok()
        .expect(rt, "wrong kind")
}

#[test]
fn the_wrong_kind_comes_back(rt: HostRuntime) -> Result<(), Fail> {
    let checked = checked_of(rt.alloc(), COUNTER, Kind::Intentions).expect(&rt, "no type");
    let told = UndoManager::new(rt.alloc(), checked).err();
    let (back, why) = told.expect(&rt, "taken");
    assert!(rt; back.kind() == Kind::Intentions);
    let checked = checked_of(rt.alloc(), COUNTER, Kind::Undo).expect(&rt, "no type");
    let told = IntentionsManager::new(rt.alloc(), checked).err();
    let (back, other) = told.expect(&rt, "taken");
    assert!(rt; back.kind() == Kind::Undo);
    are_printed(rt.alloc(), &[(why, "WrongKind"), (other, "WrongKind")])
}

/// The log's length in place: a done entry after an open one stays until that ends.
#[test]
fn a_done_entry_waits_for_an_open_one(rt: HostRuntime) {
    let mut object = in_place(&rt, COUNTER);
    assert!(rt; object.log_len() == 0);
    let mut log = Vec::new(rt.alloc());
    apply_next(&rt, &mut object, &mut log, 0, Operation::listed(0));
    apply_next(&rt, &mut object, &mut log, 1, Operation::listed(0));
    object.commit(1);
    assert!(rt; (object.log_len() == 2) & (object.state() == 2));
    object.abort(0);
    assert!(rt; (object.log_len() == 0) & (object.state() == 1));
}

/// A transaction comes alone, executes operation k, and commits: the log is short, and the state is this one.
fn comes_alone(
    rt: &(impl Abort + AllocGlobal),
    object: &mut UndoManager,
    t: u32,
    k: Operation,
    state: u32,
) {
    assert!(rt; object.log_len() == 0);
    let mut log = Vec::new(rt.alloc());
    apply_next(rt, object, &mut log, t, k);
    assert!(rt; object.log_len() == 1);
    object.commit(t);
    assert!(rt; (object.log_len() == 0) & (object.state() == state));
}

/// Ten thousand transactions one after another, of which each second one takes back what the one before it did.
#[test]
fn a_log_in_place_stays_short(rt: HostRuntime) {
    let mut object = in_place(&rt, COUNTER);
    for pair in 0..5_000 {
        comes_alone(&rt, &mut object, 2 * pair, Operation::listed(0), 1);
        comes_alone(&rt, &mut object, 2 * pair + 1, Operation::listed(1), 0);
    }
}

/// The first place of a line of the purse, who may keep transaction 1 from it, and the least and the greatest amount
/// that is told, both 0 where none is: from 21 to 29 a take is short now, and isn't after the gift; from 72 to 80 a gift
/// has room now, and hasn't after it. The value is 20.
static AMOUNTS: [(u8, u32, u32, u32); 5] = [
    (0, 0, 21, 29),
    (4, 0, 72, 80),
    (8, 0, 20, 20),
    (2, 0, 0, 0),
    (0, 2, 0, 0),
];

/// Transaction 0 gives nine to a purse of 20, up to 100, and 1 asks.
#[test]
fn an_amount_is_kept(rt: HostRuntime) {
    let checked = checked_of(rt.alloc(), PURSE, Kind::Escrow).expect(&rt, "no type");
    let purse = EscrowManager::new(rt.alloc(), checked).ok();
    let mut purse = purse.expect(&rt, "wrong kind");
    assert!(rt; purse.is_fresh());
    let mut log = Vec::new(rt.alloc());
    apply_next(&rt, &mut purse, &mut log, 0, Operation::with(4, 9));
    let gift = purse.entry(0).expect(&rt, "no entry");
    assert!(rt; (gift.by == 0) & (gift.op == Operation::with(4, 9)) & !gift.done);
    assert!(rt; (purse.view(0) == 29) & (purse.view(1) == 20) & (purse.state() == 20));
    for (place, u, least, greatest) in &AMOUNTS {
        assert!(rt; place % 2 == 0);
        let told = purse.amount_kept(1, *place, *u);
        assert!(rt; told.is_none() == (*greatest == 0));
        let amount = told.unwrap_or(0);
        assert!(rt; (*least <= amount) & (amount <= *greatest));
    }
    let value = call_unreplied(&purse, 1, 8, Some(0));
    assert!(rt; value == Some(Operation::with(8, 0)));
}

/// That the log has one entry, which is open, of this operation by transaction 3.
fn has_one_entry<R: Recovery>(rt: &impl Abort, object: &R, k: Operation) {
    let entry = object.entry(0).expect(rt, "no entry");
    assert!(rt; (entry.by == 3) & (entry.op == k) & !entry.done & object.entry(1).is_none());
}

#[test]
fn an_entry_in_place_is_told(rt: HostRuntime) {
    let up = Operation::listed(0);
    let mut object = in_place(&rt, COUNTER);
    assert!(rt; object.is_fresh());
    let mut log = Vec::new(rt.alloc());
    apply_next(&rt, &mut object, &mut log, 3, up);
    has_one_entry(&rt, &object, up);
}

#[test]
fn a_deferred_entry_is_told(rt: HostRuntime) {
    let up = Operation::listed(0);
    let mut object = deferred(&rt, COUNTER);
    assert!(rt; object.is_fresh());
    let mut log = Vec::new(rt.alloc());
    apply_next(&rt, &mut object, &mut log, 3, up);
    has_one_entry(&rt, &object, up);
}
