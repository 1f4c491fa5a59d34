//! Exit statuses.
ghost use Rattle.std.specs.Prelude.{◌≡◌};
ghost use Rattle.run_ends.specs.Stops as spec;

/// How a run ended.
#[derive(Clone, Copy, Debug, PartialEq, Eq)]
pub enum Status {
    /// The text is written; each selector is `used` or `skipped`, and each statement `live`.
    Complete,
    /// The text is written; a selector is `unused` or a statement dead, and none is `maybe`, `used-unshown`, `live-unshown` or
    /// `spent`.
    Unused,
    /// The words aren't of the grammar.
    Words,
    /// A file is refused, or judging is.
    Refused,
    /// A file couldn't be loaded.
    ReadFault,
    /// Standard output or standard error took no more.
    WriteFault,
    /// There was no memory.
    NoMemory,
    /// The text is written; a selector or a statement is `maybe`, `used-unshown`, `live-unshown` or `spent`.
    Budget,
}

impl Status {
    /// The number that the process ends with.
    pub fn code(self) -> u8
        ensures { result ≡ spec.code_of self }
    {
        match self {
            Status::Complete => 0,
            Status::Unused => 1,
            Status::Words => 2,
            Status::Refused => 3,
            Status::ReadFault => 4,
            Status::WriteFault => 5,
            Status::NoMemory => 6,
            Status::Budget => 7,
        }
    }
}
