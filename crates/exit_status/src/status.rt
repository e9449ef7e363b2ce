//! The status that a command ends with.
ghost use Rattle.std.specs.Prelude.{◌≡◌};
ghost use Rattle.exit_status.specs.Status.{number_of, status_with};

/// How a command ends. The number of each is the status that the program ends with.
#[derive(Clone, Copy)]
pub enum ExitStatus {
    Done = 0,
    /// Some path failed.
    DoneWithFailures = 1,
    /// The words are not a command.
    Usage = 2,
    /// The repository can't be checked out: a line says why.
    Refused = 3,
    OutputNotWritten = 4,
    OutOfMemory = 5,
    ReadFault = 6,
    /// The worktree isn't empty.
    NotEmpty = 7,
}

impl ExitStatus {
    /// The status with this number, if one has it.
    pub fn of(number: u8) -> Option<ExitStatus>
        ensures { result ≡ status_with number }
    {
        match number {
            0 => Some(ExitStatus::Done),
            1 => Some(ExitStatus::DoneWithFailures),
            2 => Some(ExitStatus::Usage),
            3 => Some(ExitStatus::Refused),
            4 => Some(ExitStatus::OutputNotWritten),
            5 => Some(ExitStatus::OutOfMemory),
            6 => Some(ExitStatus::ReadFault),
            7 => Some(ExitStatus::NotEmpty),
            _ => None,
        }
    }

    /// The number that the program ends with.
    pub fn number(self) -> u8
        ensures { result ≡ number_of self }
    {
        self as u8
    }
}
