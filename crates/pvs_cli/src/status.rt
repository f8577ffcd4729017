//! How a run ends.

ghost use Rattle.std.specs.Prelude.{◌≡◌};
ghost use Rattle.pvs_cli.specs.ExitCodes.{exit_code};

/// How a run ended.
#[derive(Clone, Copy, Debug, PartialEq, Eq)]
pub enum Status {
    /// The whole report was written. Nothing was refused, and every lemma is complete.
    Clean,
    /// The whole report was written. Something was refused, or a lemma is not complete.
    Unfinished,
    /// The program has no such command line. The usage line was written.
    BadWords,
    /// The input failed. Nothing was written.
    InputFault,
    /// The output failed. A proper prefix of the output was written.
    OutputFault,
    /// The input is not a list of commands. The program does not end so yet.
    BadStream,
    /// The input is longer than a session may be. The program does not end so yet.
    TooMuchInput,
    /// Memory ran out. A proper prefix of the output was written.
    Memory,
}

impl Status {
    /// The exit code of the program, from 0 to 7 in the order above. This takes no memory.
    pub fn code(self) -> u8
        ensures { result ≡ exit_code self }
    {
        match self {
            Status::Clean => 0,
            Status::Unfinished => 1,
            Status::BadWords => 2,
            Status::InputFault => 3,
            Status::OutputFault => 4,
            Status::BadStream => 5,
            Status::TooMuchInput => 6,
            Status::Memory => 7,
        }
    }
}
