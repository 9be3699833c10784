//! Stores: what they answer, what they keep, and how they end.

mod amounts;
mod boxed;
mod calls;
mod carried;
mod followed;
mod made;
mod run_scripts;
pub mod scripts;
mod shared;
mod unseen;
mod whole_transactions;

use crate::tests::checked_types::{Sort, checked_of};
use objects::Object;
use std::process::Abort;

/// New objects of these sorts.
pub fn objects_of(rt: &(impl Abort + AllocGlobal), sorts: &[Sort]) -> Vec<Object> {
    let mut objects = Vec::new(rt.alloc());
    for (kind, text) in sorts {
        let checked = checked_of(rt.alloc(), text, *kind).expect(rt, "no checked type");
        let object = Object::new(rt.alloc(), checked);
        objects.push(object).ok().expect(rt, "no room");
    }
    objects
}
