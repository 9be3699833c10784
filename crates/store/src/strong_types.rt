//! Whether the yes of each object's type is strong.

ghost use Rattle.std.specs.Prelude.{◌≡◌, ◌↔◌, ◌<◌, ℕ, Some, map, length, true, slice_get};
ghost use Rattle.table_checker.specs.Checked.{Checked, IsStrong};
ghost use Rattle.carried_orders.specs.Orders.{AreStrong};
ghost use Rattle.store_laws.specs.Stored.{types_of};

use object_trait::Renew;
use table_checker::at_is_strong;

/// Whether the yes of each is strong. An object of the type of the one before it is known by that.
pub fn are_strong<R: Renew>(objects: &[R]) -> bool
    ensures { (result ≡ true) ↔ AreStrong (types_of (map R.meaning objects.now)) }
{
    for x in 0..objects.len() {
        if !is_strong_at(objects, x) {
            return false;
        }
    }
    true
}

/// Whether the yes of the object at x is strong, where those before it are.
fn is_strong_at<R: Renew>(objects: &[R], x: usize) -> bool
    requires there { x < length objects.now }
    requires before { (y : ℕ) (c : Checked) → y < x → slice_get (types_of (map R.meaning objects.now)) y ≡ Some c → IsStrong c }
    ensures { (c : Checked) → slice_get (types_of (map R.meaning objects.now)) x ≡ Some c → (result ≡ true) ↔ IsStrong c }
{
    at_is_strong();
    let checked = objects[x].checked();
    if x == 0 {
        return checked.is_strong();
    }
    // the same type at another state
    if checked.is_at(objects[x - 1].checked(), checked.initial()) {
        return true;
    }
    checked.is_strong()
}
