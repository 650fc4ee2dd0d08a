ghost use Rattle.std.specs.Prelude.{◌≡◌};
ghost use Rattle.zl_cli.specs.StatusNumber.{number_of};

/// What the program ends with.
#[derive(Clone, Copy, Debug, PartialEq, Eq)]
pub enum Status {
    /// The job is done; a run came to its horizon.
    Done,
    /// The file breaks a rule.
    RefusedFile,
    /// The script breaks a rule.
    RefusedScript,
    /// The run ended with a fault.
    ArithFault,
    /// The run ended since as many steps were made as may be.
    Bound,
    /// The words have none of the forms of a command.
    Usage,
    /// A file could not be read.
    ReadFault,
    /// The output could not be written.
    WriteFault,
    /// There was no memory.
    NoMemory,
    /// The run of a code had no value where one was asked for.
    Empty,
}

impl Status {
    /// The number with which the process ends.
    pub fn number(self) -> u8
        ensures { result ≡ number_of self }
    {
        self as u8
    }
}
