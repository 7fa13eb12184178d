ghost use Rattle.std.specs.Prelude.{◌≡◌};
ghost use Rattle.rf_cli.specs.Status.{code_of};

/// How a run ended. The program ends with the code of its status.
#[derive(Clone, Copy, Debug, PartialEq, Eq)]
pub enum Status {
    /// The changed files are written, and the report is put; or the print of a rule file is put.
    Ok,
    /// The change is refused: nothing is written.
    Refused,
    /// The words are no command.
    BadWords,
    /// A rule file has no reading, or a kind fault.
    BadRules,
    /// A file or a folder could not be read.
    ReadFault,
    /// A file or the output could not be written.
    WriteFault,
    /// Want of memory.
    Memory,
    /// A rule file has too many bytes.
    TooLarge,
    /// What is asked is not built yet.
    NotYet,
}

impl Status {
    /// The exit status of the program.
    pub fn code(self) -> u8
        ensures { result ≡ code_of self }
    {
        match self {
            Status::Ok => 0,
            Status::Refused => 1,
            Status::BadWords => 3,
            Status::BadRules => 6,
            Status::ReadFault => 7,
            Status::WriteFault => 8,
            Status::Memory => 9,
            Status::TooLarge => 10,
            Status::NotYet => 12,
        }
    }
}
