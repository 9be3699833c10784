//! An attempt of one call, all at once. It takes no memory but for its events.

ghost use Rattle.std.specs.Prelude.{◌≡◌, ◌≤◌, [], ◌∷◌, length, true, false};
ghost use Rattle.line_text.specs.Text.{words_of};
ghost use Rattle.store_laws.specs.Stored.{objects};
ghost use Rattle.attempts.specs.Numbered.{named_call};
ghost use Rattle.library_calls.specs.Attempts.{IsAttemptOf, done_words, one_filled};

use crate::operations::{number_of, operation_of};
use crate::words::ColockOutcome;
use attempts::{AttemptCall, do_call, do_call_op};
use objects::Object;
use store::Store;
use type_table::Operation;

/// Attempts the call of this name at object x, and puts its operation into the first place of a room: whether it is done.
/// If not, nothing has changed.
pub(crate) fn do_name(
    store: &mut Store<Object>,
    worker: u8,
    x: u32,
    name: &[u8],
    room: &mut [u64],
    outcome: &mut ColockOutcome,
) -> bool
    requires { 1 ≤ length room.old }
    ensures done { result ≡ true → IsAttemptOf store.old worker ((x, name.now) ∷ []) room.old 0 room.new outcome.new store.new }
    ensures none { result ≡ false → (store.new ≡ store.old) × (room.new ≡ room.old) × (outcome.new ≡ outcome.old) }
{
    match do_call(store, worker, &AttemptCall { at: x, name }) {
        Some(k) => {
            tell_done(k, room, outcome);
            true
        }
        None => false,
    }
}

/// The same of the call with this number at object x.
pub(crate) fn do_number(
    store: &mut Store<Object>,
    worker: u8,
    x: u32,
    c: u64,
    room: &mut [u64],
    outcome: &mut ColockOutcome,
) -> bool
    requires { 1 ≤ length room.old }
    ensures done { result ≡ true → IsAttemptOf store.old worker (named_call (objects store.old) x c ∷ []) room.old 0 room.new outcome.new store.new }
    ensures none { result ≡ false → (store.new ≡ store.old) × (room.new ≡ room.old) × (outcome.new ≡ outcome.old) }
{
    let Some(c) = operation_of(c) else {
        return false;
    };
    match do_call_op(store, worker, x, c) {
        Some(k) => {
            tell_done(k, room, outcome);
            true
        }
        None => false,
    }
}

/// Tells that a call had this operation, in the first place of the room.
fn tell_done(k: Operation, room: &mut [u64], outcome: &mut ColockOutcome)
    requires { 1 ≤ length room.old }
    ensures operation { room.new ≡ one_filled k room.old }
    ensures told { outcome.new ≡ done_words }
{
    room[0] = number_of(k);
    *outcome = ColockOutcome {
        kind: 0,
        at: 0,
        number: 0,
    };
}

/// Whether a text is one word, from its first byte to its last.
pub(crate) fn is_word(text: &[u8]) -> bool
    ensures { result ≡ true → words_of text.now ≡ text.now ∷ [] }
{
    !text.is_empty() && !text.contains(&b' ')
}
