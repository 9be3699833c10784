//! What an object of any kind of recovery means, what its calls do, and the events of a history.
#![tactic(auto)]

mod admission;
mod any_object;
mod bits;
mod event;
mod laws;
mod log_entry;
mod recovery;
mod renew;
mod wrong_kind;

pub use admission::{Admission, admitted_by};
pub use any_object::AnyObject;
pub use bits::with_bit;
pub use event::{Event, EventKind};
pub use laws::{
    all_done_is_committed, checked_is_covered, committed_is_left, fresh_is_sound, keeps_first,
    keeps_none, keeps_others, keeps_parts, opens_are_counted, opens_commute, parts_sort,
    sorts_equi, sorts_look, sound_after_apply, sound_after_commit, sound_after_strike,
    sound_has_committed, struck_log_is_legal, struck_part, untouched_shows_the_same,
    untouched_stays,
};
pub use log_entry::LogEntry;
pub use recovery::Recovery;
pub use renew::Renew;
pub use wrong_kind::WrongKind;

pub mod worked;
