//! What a command answers, and how the program ends.

ghost use Rattle.std.specs.Prelude.{◌≡◌};
ghost use Rattle.command_files.specs.Status.{status_code, status_of_verdict};

/// What a command answers.
#[derive(Clone, Copy, Debug, PartialEq, Eq)]
pub enum Verdict {
    /// Yes, or what was asked for is done.
    Yes,
    /// No.
    No,
}

/// How the program ends.
#[derive(Clone, Copy, Debug, PartialEq, Eq)]
pub enum Status {
    /// A yes, or it is done: 0.
    Yes,
    /// A no: 1.
    No,
    /// The command line or a text has a fault: 2.
    BadInput,
    /// A file can't be read, memory was refused, or the output failed: 3.
    Failed,
}

impl Verdict {
    /// The status with which the program ends at this answer.
    pub fn status(self) -> Status
        ensures { result ≡ status_of_verdict self }
    {
        match self {
            Verdict::Yes => Status::Yes,
            Verdict::No => Status::No,
        }
    }
}

impl Status {
    /// The number that the process ends with, from 0 to 3.
    pub fn code(self) -> u8
        ensures { result ≡ status_code self }
    {
        match self {
            Status::Yes => 0,
            Status::No => 1,
            Status::BadInput => 2,
            Status::Failed => 3,
        }
    }
}
