//! The answers to commands.

ghost use Rattle.std.specs.Prelude.{◌≡◌, option_map, IfOk};
ghost use Rattle.kernel_cli.specs.Answer.{done, answer_of_text};
ghost use Rattle.kernel_cli.specs.Outcome.{status_of, IsAnswer};

use crate::status::Status;
use std::alloc::{AllocError, Global};

/// What came of a command.
#[derive(Clone, Copy, Debug, PartialEq, Eq)]
pub(crate) enum Outcome {
    /// The command was done.
    Fine,
    /// The task isn't certified, or the routine isn't accepted.
    Verdict,
    /// The input was refused.
    BadInput,
    /// The log has no room.
    LogFull,
}

/// The status of what came of a command.
pub(crate) fn status_of(outcome: Outcome) -> Status
    ensures status { result ≡ status_of outcome }
{
    match outcome {
        Outcome::Fine => Status::Fine,
        Outcome::Verdict => Status::Verdict,
        Outcome::BadInput => Status::BadInput,
        Outcome::LogFull => Status::LogFull,
    }
}

/// The answer to a command, with all of its text.
#[derive(Debug, Drop)]
pub(crate) struct Response {
    pub(crate) outcome: Outcome,
    pub(crate) text: Vec<u8>,
}

/// The command is done, with this text.
pub(crate) fn done(text: Vec<u8>) -> Response
    ensures answer { IsAnswer result (done text.items) }
{
    Response {
        outcome: Outcome::Fine,
        text,
    }
}

/// The answer of a text that a log was kept for, or that the log has no room.
pub(crate) fn logged(alloc: Global, text: Option<Vec<u8>>) -> Result<Response, AllocError>
    ensures answer { IfOk result (λ response. IsAnswer response (answer_of_text (option_map (λ text. text.items) text))) }
{
    match text {
        Some(text) => Ok(done(text)),
        None => Ok(Response {
            outcome: Outcome::LogFull,
            text: b"log full\n".to_vec(alloc)?,
        }),
    }
}
