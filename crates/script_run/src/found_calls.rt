//! Which calls the names of a script are at its objects, so that each is looked up once.

ghost use Rattle.std.specs.Prelude.{◌≡◌, ◌<◌, [], List, ℕ, IfSome, slice_get, slice_index_or, Some};
ghost use Rattle.object_trait.specs.Object.{Object};
ghost use Rattle.serial_order.specs.Replay.{call_at};
ghost use Rattle.script_run.specs.Found.{AreRemembered};

use type_table::Operation;

/// How many calls are remembered at once.
pub(crate) const PLACES: usize = 4_096;

/// The number of the call by a name at an object. The name is told by its position.
#[derive(Clone, Copy)]
pub(crate) struct FoundCall {
    pub x: u32,
    pub name: u32,
    pub call: Operation,
}

/// Nothing is remembered.
#[inline(always)]
pub(crate) fn nothing_found() -> [Option<FoundCall>; PLACES]
    ensures { (objects : List Object) (names : List (List ℕ)) → AreRemembered objects names result }
{
    [None; PLACES]
}

/// The call by this name at object x, where it is remembered.
#[inline(always)]
pub(crate) fn remembered(
    found: &[Option<FoundCall>; PLACES],
    x: u32,
    name: u32,
) -> Option<Operation>
    ensures { (objects : List Object) (names : List (List ℕ)) → AreRemembered objects names found.now
        → IfSome result (λ call. call_at (slice_get objects x) (slice_index_or names name []) ≡ Some call) }
{
    match found[place_of(x, name)] {
        Some(it) => {
            if it.x == x && it.name == name {
                Some(it.call)
            } else {
                None
            }
        }
        None => None,
    }
}

/// Remembers the call by this name at object x, in place of another.
pub(crate) fn remember(found: &mut [Option<FoundCall>; PLACES], x: u32, name: u32, call: Operation)
    ensures { (objects : List Object) (names : List (List ℕ)) → AreRemembered objects names found.old
        → call_at (slice_get objects x) (slice_index_or names name []) ≡ Some call
        → AreRemembered objects names found.new }
{
    found[place_of(x, name)] = Some(FoundCall { x, name, call });
}

/// Where the call by a name at object x is remembered. Those of 256 objects and 16 names have places of their own.
#[inline(always)]
fn place_of(x: u32, name: u32) -> usize
    ensures { result < 4096 }
{
    name.wrapping_mul(256).wrapping_add(x) as usize % PLACES
}
