use object_trait::Event;
use std::mem::size_of;
use store_text::ObjectLine;

/// The objects of a store and the events of its history in order.
#[derive(Drop)]
pub struct HistoryFile {
    /// How many objects the text says that it may have; `None` where it doesn't say it, and may have 256.
    pub size: Option<u32>,
    pub objects: Vec<ObjectLine>,
    pub events: Vec<Event>,
}

// Bytes for each line: at most 64 of the value, and at most 160 while it is read. The list of events
// doubles as it grows, so three times as much as they take may be there at once; at its end it is cut to
// its length, beside a list of at most twice as much.
const _: () = prove!(size_of::<Event>() == 20 && 3 * size_of::<Event>() <= 160);
