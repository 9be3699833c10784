//! An object in a box, by each call.

ghost use Rattle.std.specs.Prelude.{◌≡◌, ◌<◌, true, length};
ghost use Rattle.object_trait.specs.Meaning.{open_of};
ghost use Rattle.object_trait.specs.Steps.{IsLegalFor};

use crate::tests::any_objects::one_entry::OneEntry;
use crate::tests::checked_types::checked_of;
use crate::tests::managers::driven::has;
use object_trait::{AnyObject, Recovery};
use std::process::Abort;
use test_support::type_texts::COUNTER;
use type_table::{Kind, Operation};

/// An object of the counter, as it is made.
pub fn made(rt: &(impl Abort + AllocGlobal)) -> OneEntry {
    let checked = checked_of(rt.alloc(), COUNTER, Kind::Undo).expect(rt, "no type");
    assert!(rt; checked.kind() == Kind::Undo);
    OneEntry::new(checked)
}

/// Whether operation k, if it is one, is legal for transaction t.
fn is_legal<R: Recovery>(object: &R, t: u32, k: Operation) -> bool
    ensures operation { result ≡ true → k < length (R.meaning object.now).checked.file.table.ops }
    ensures legal { result ≡ true → IsLegalFor (R.meaning object.now) t k }
{
    has(object, k) && object.legal(t, k)
}

/// Who keeps transaction t from operation k, if that is one and legal for it.
fn blocker<R: Recovery>(object: &R, t: u32, k: Operation) -> Option<u32> {
    if is_legal(object, t, k) {
        object.blocker(t, k)
    } else {
        None
    }
}

/// Executes operation k for transaction t at an object that is as it was made.
pub fn apply_first<R: Recovery>(rt: &impl Abort, object: &mut R, t: u32, k: Operation)
    ensures { length (open_of t (R.meaning object.new).log) ≡ 1 }
{
    assert!(rt; has(object, k));
    assert!(rt; object.legal(t, k));
    assert!(rt; object.is_fresh());
    object.apply(t, k).expect(rt, "no memory");
}

/// What an object answers: its state, how many transactions are open, and whether it is as it was made.
type Seen = (u32, u32, bool);

const MADE: Seen = (0, 0, true);

const COUNTED: Seen = (1, 1, false);

const COMMITTED: Seen = (1, 0, false);

/// That an object answers this.
fn shows<R: Recovery>(rt: &impl Abort, object: &R, seen: Seen) {
    let (state, open, is_fresh) = seen;
    assert!(rt; (object.state() == state) & (object.open_count() == open));
    assert!(rt; object.is_fresh() == is_fresh);
}

/// That the calls that take nothing out of an object, and then an abort, do as they say.
fn aborts<R: Recovery>(rt: &impl Abort, object: &mut R) {
    let (up, down) = (Operation::listed(0), Operation::listed(1));
    shows(rt, object, MADE);
    assert!(rt; is_legal(object, 1, up) & !is_legal(object, 1, down));
    apply_first(rt, object, 1, up);
    shows(rt, object, COUNTED);
    assert!(rt; is_legal(object, 2, up) & is_legal(object, 2, down) & is_legal(object, 1, down));
    assert!(rt; blocker(object, 2, down) == Some(1));
    assert!(rt; blocker(object, 2, up).is_none() & blocker(object, 1, down).is_none());
    object.strike(1, 0);
    object.abort(2);
    object.commit(2);
    shows(rt, object, COUNTED);
    object.abort(1);
    shows(rt, object, MADE);
}

/// That the calls of an object do as they say, one after another: those above, a strike of the one entry, and a commit.
fn is_called<R: Recovery>(rt: &impl Abort, object: &mut R) {
    assert!(rt; object.declared().rows().len() == 2);
    assert!(rt; (object.view(1) == 0) & object.amount_kept(1, 0, 2).is_none());
    aborts(rt, object);
    apply_first(rt, object, 1, Operation::listed(0));
    object.strike(1, 1);
    shows(rt, object, MADE);
    apply_first(rt, object, 2, Operation::listed(0));
    object.commit(2);
    shows(rt, object, COMMITTED);
}

#[test]
fn a_boxed_object_is_called(rt: HostRuntime) {
    let object = made(&rt);
    let object = Box::new(rt.alloc(), object).ok().expect(&rt, "no memory");
    let mut object = AnyObject::new(object);
    is_called(&rt, &mut object);
    assert!(rt; object.into_inner().state() == 1);
}
