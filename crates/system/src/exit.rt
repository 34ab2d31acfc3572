// The exit status.
ghost use Rattle.std.specs.Prelude.{◌≡◌};
ghost use Rattle.system.specs.Outcome.{status_of};

use crate::{Failure, Refused};

// A refused job's is the number of the limit.
pub fn status(outcome: Result<(), Failure>) -> u8
    ensures { result ≡ status_of outcome }
{
    match outcome {
        Ok(()) => 0,
        Err(Failure::Refused(Refused { why })) => why as u8,
        Err(Failure::Usage) => 64,
        Err(Failure::NoInput) => 66,
        Err(Failure::NoOutput) => 73,
        Err(Failure::NotWritten) => 74,
    }
}
