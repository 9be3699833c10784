//! What a run did is done again, memory aside.

ghost use Rattle.std.specs.Prelude.{◌≡◌, ◌<◌, [], true, map, length, OnOk};
ghost use Rattle.std.specs.List.{AllByRecursion};
ghost use Rattle.serial_order.specs.Machine.{IsRun};
ghost use Rattle.carried_runs.specs.Objects.{AreRepresenting, objects_meant};
ghost use Rattle.carried_runs.specs.Redo.{AreRedone, MayRedo, Redoes, begins_or_works};

use object_trait::{Event, EventKind, Recovery};
use serial_order::{logs_are_counted, machine_may_apply, represents_on};
use std::alloc::AllocError;

/// Does again, at new objects, the operations of a run that only began transactions and executed operations.
///
/// # Errors
///
/// Memory was refused.
pub fn redo<R: Recovery>(objects: &mut Vec<R>, events: &[Event]) -> Result<(), AllocError>
    requires run { IsRun (objects_meant (map R.meaning objects.old.items)) events.now }
    requires works { AllByRecursion (λ e. begins_or_works e.kind ≡ true) events.now }
    requires new { AreRepresenting (map R.meaning objects.old.items) [] }
    requires room { length events.now < 4294967295 }
    ensures redone { OnOk result (AreRedone (map R.meaning objects.old.items) (map R.meaning objects.new.items) events.now (length events.now)) }
{
    machine_may_apply();
    logs_are_counted();
    represents_on();
    for event in events {
        redo_one(objects, event.kind)?;
    }
    Ok(())
}

/// Does one of them.
fn redo_one<R: Recovery>(objects: &mut Vec<R>, kind: EventKind) -> Result<(), AllocError>
    requires { MayRedo (map R.meaning objects.old.items) kind }
    ensures { OnOk result (Redoes (map R.meaning objects.old.items) kind (map R.meaning objects.new.items)) }
{
    match kind {
        EventKind::Op { t, x, k } => objects[x as usize].apply(t, k),
        _ => Ok(()),
    }
}
