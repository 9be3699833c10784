use crate::job_line::JobLine;
use std::mem::size_of;
use store_text::ObjectLine;
use type_table::Name;

/// A transaction that a worker is to run: its calls in order, each at an object by its place.
#[derive(Drop)]
pub struct Job {
    pub calls: Vec<(u32, Name)>,
}

/// The objects of a store, the most events of its history, and the jobs of each worker in order.
#[derive(Drop)]
pub struct JobsFile {
    /// How many objects the text says that it may have; `None` where it doesn't say it, and may have 256.
    pub size: Option<u32>,
    pub max: u32,
    pub objects: Vec<ObjectLine>,
    pub jobs: Vec<Vec<Job>>,
}

// Bytes for each line: at most 64 of the value, and at most 160 while it is read. The list of the
// jobs' lines doubles as it grows, so three times as much as they take may be there at once; at its end
// it is cut to its length, and the jobs are made beside it. The list of a worker's jobs doubles too, and
// that of a job's calls doesn't grow.
const _: () = prove!(2 * size_of::<Job>() <= 64 && size_of::<(u32, Name)>() <= 64);

const _: () = prove!(3 * size_of::<JobLine>() <= 160);

const _: () = prove!(size_of::<JobLine>() + size_of::<(u32, Name)>() <= 160);

const _: () = prove!(size_of::<JobLine>() + 3 * size_of::<Job>() <= 160);
