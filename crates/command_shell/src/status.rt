//! The status of a call.
ghost use Rattle.std.specs.Prelude.{◌≡◌};
ghost use Rattle.command_shell.specs.Statuses.{code_of};

/// The status with which a call of `pool` or `explore` ends.
#[derive(Clone, Copy)]
pub enum Status {
    /// The run ended quiet, the text was written, the record is a run, no run leads to what a search looks for, all
    /// outcomes are listed, or the outcome that was asked for is shown.
    Done,
    /// The run ended quiet after a run-time error, the record is not a run, the output has a run that a search looks
    /// for, or there is no outcome at the place that was asked for.
    DoneFaulted,
    /// An input was rejected. `err` has the line with its name and its fault.
    Refused,
    /// The schedule ended before the run was quiet, or a search met its bound.
    ScheduleOver,
    /// A node met its limit of objects, frames or cells.
    Full,
    /// An input could not be opened, or a read failed.
    ReadFault,
    /// A write failed.
    WriteFault,
    /// Out of memory. `explore` and `pool check` report it too if an object would have more than 1,000,000 methods
    /// under way. No command but `follow` has written to `out` before.
    Memory,
    /// The arguments are not a command.
    Usage,
}

impl Status {
    /// The exit status of the process.
    pub fn code(&self) -> u8
        ensures { result ≡ code_of self.now }
    {
        match self {
            Status::Done => 0,
            Status::DoneFaulted => 1,
            Status::Refused => 2,
            Status::ScheduleOver => 3,
            Status::Full => 4,
            Status::ReadFault => 5,
            Status::WriteFault => 6,
            Status::Memory => 7,
            Status::Usage => 64,
        }
    }
}
