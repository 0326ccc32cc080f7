// How the program's work ended.
ghost use Rattle.std.specs.Prelude.{◌≡◌};
ghost use Rattle.exo_cli.specs.Statuses.{number_of};

/// How the work ended. Its number is the program's exit status.
#[derive(Clone, Copy, PartialEq, Eq)]
pub enum Status {
    /// All was accepted and written.
    Ok = 0,
    /// A file was refused; the message says why.
    Refused = 1,
    /// The words are no command.
    Usage = 2,
    /// A file could not be read.
    ReadFault = 3,
    /// A sink failed.
    WriteFault = 4,
    /// Memory ran out; nothing was written.
    Memory = 5,
}

impl Status {
    /// The exit status, from 0 to 5.
    pub fn number(self) -> u8
        ensures { result ≡ number_of self }
    {
        self as u8
    }
}
