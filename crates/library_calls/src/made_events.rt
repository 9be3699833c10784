//! Events of the caller, which a store makes again.

ghost use Rattle.library_calls.specs.Codes.{number};
ghost use Rattle.library_calls.specs.Histories.{IsFollowed, MakesOne};

use crate::code::{Code, stray_code};
use crate::event_words::{ColockEvent, event_at};
use objects::Object;
use store::{Store, follow};

/// Makes the events of these words again, one after another, and says how many were made.
pub fn follow_words(store: &mut Store<Object>, events: &[ColockEvent], made: &mut u64) -> Code
    ensures { IsFollowed store.old events.now (number result) made.new store.new }
{
    for at in 0..events.len() {
        if let Err(code) = follow_one(store, events[at]) {
            *made = at as u64;
            return code;
        }
    }
    *made = events.len() as u64;
    Code::Done
}

/// Makes the event of these words again.
///
/// # Errors
///
/// `NotMade` where they are of none, or none that is made now, or `NoMemory`, and the store is as it was.
fn follow_one(store: &mut Store<Object>, words: ColockEvent) -> Result<(), Code>
    ensures { MakesOne store.old words result store.new }
{
    let Some(event) = event_at(words) else {
        return Err(Code::NotMade);
    };
    match follow(store, &event) {
        Ok(()) => Ok(()),
        Err(stray) => Err(stray_code(stray)),
    }
}
