use crate::fault::WorkFault;
use object_trait::Recovery;
use store::Store;
use worker_turns::Report;

/// What comes back of workers: the store, a report of each, and why some or all did nothing, where they
/// did. It has no drop, as the store has none: take it apart and close the store.
pub struct Worked<R: Recovery> {
    pub store: Store<R>,
    pub reports: Vec<Report>,
    pub fault: Option<WorkFault>,
}
