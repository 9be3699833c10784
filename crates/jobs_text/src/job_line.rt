use type_table::Name;

/// What a line says of a job.
#[derive(Clone, Copy)]
pub enum JobLine {
    /// `job W`: a new job of worker w.
    Job(u32),
    /// `do X CALL`: one more call of that job.
    Do { x: u32, call: Name },
}
