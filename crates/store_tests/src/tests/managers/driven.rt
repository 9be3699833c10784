//! Operations at an object whose log is known.

ghost use Rattle.std.specs.Prelude.{◌≡◌, ◌<◌, true, length};
ghost use Rattle.object_trait.specs.Steps.{MayApply};

use object_trait::{LogEntry, Recovery};
use std::process::Abort;
use type_table::Operation;

/// More entries than any log of these tests has.
const MOST_ENTRIES: usize = 1000;

/// Whether k is an operation of an object's type.
pub fn has<R: Recovery>(object: &R, k: Operation) -> bool
    ensures { result ≡ true → k < length (R.meaning object.now).checked.file.table.ops }
{
    object.declared().has_op(k)
}

/// Whether t may execute operation k at an object with this log.
fn may_apply<R: Recovery>(object: &R, log: &Vec<LogEntry>, t: u32, k: Operation) -> bool
    requires { (R.meaning object.now).log ≡ log.now.items }
    ensures { result ≡ true → MayApply (R.meaning object.now) t k }
{
    if !has(object, k) || log.len() >= MOST_ENTRIES {
        return false;
    }
    object.legal(t, k) && object.blocker(t, k).is_none()
}

/// Executes operation k for t at an object with this log, and adds its entry to the log.
pub fn apply_next<R: Recovery>(
    rt: &impl Abort,
    object: &mut R,
    log: &mut Vec<LogEntry>,
    t: u32,
    k: Operation,
)
    requires { (R.meaning object.old).log ≡ log.old.items }
    ensures { (R.meaning object.new).log ≡ log.new.items }
{
    let may = may_apply(object, log, t, k);
    assert!(rt; may);
    log.reserve(1).expect(rt, "no room");
    object.apply(t, k).expect(rt, "no memory");
    log.push_reserved(LogEntry {
        by: t,
        op: k,
        done: false,
    });
}
