//! Open transactions that are carried into the next epoch: laws, and the loop that does their operations
//! again.
#![tactic(auto)]

mod first_events;
mod laws;
mod redoing;

pub use first_events::carried_events;
pub use laws::{
    carried_applies, carried_fits, carried_in_any_order, carried_is_run, carried_sees,
    carried_shows, carried_works, logs_tell_carried, logs_tell_order, open_epochs_are_serial,
    renew_carries, renewal_is_unseen,
};
pub use redoing::redo;

pub mod worked;
