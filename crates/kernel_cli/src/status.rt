//! How the program ends.

ghost use Rattle.std.specs.Prelude.{◌≡◌};
ghost use Rattle.kernel_cli.specs.Statuses.{number_of};

/// How a call of the program ended.
#[derive(Clone, Copy, Debug, PartialEq, Eq)]
pub enum Status {
    /// The text of the command is written. The input was read to its end, but by `gen` and `drill`, which don't read.
    Fine,
    /// The input was read to its end, and the line is written that says why its task isn't certified, two worlds take different courses or a
    /// latch write tells something of the secret, or which rule its routine breaks, and where.
    Verdict,
    /// The words are no command.
    BadWords,
    /// The input is too large, or can't be read as a bundle, or as code.
    BadInput,
    /// The source counted a fault, of a command that reads; nothing is written.
    ReadFault,
    /// The sink counted a fault; what is written is a front of the text.
    WriteFault,
    /// Want of memory; nothing is written.
    Memory,
    /// The input was read to its end, and its log would have too many entries; the line that says so is written.
    LogFull,
}

/// The number that the program ends with.
pub fn status_number(status: Status) -> u8
    ensures number { result ≡ number_of status }
{
    match status {
        Status::Fine => 0,
        Status::Verdict => 1,
        Status::BadWords => 2,
        Status::BadInput => 3,
        Status::ReadFault => 4,
        Status::WriteFault => 5,
        Status::Memory => 6,
        Status::LogFull => 7,
    }
}
