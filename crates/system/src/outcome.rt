// How a command ends where it is not done.
ghost use Rattle.std.specs.Prelude.{◌≡◌, true};
ghost use Rattle.limits.specs.Limits.{number_of};
ghost use Rattle.system.specs.Status.{is_status};

use limits::Refusal;

// A limit that is broken, with a number that the help names.
#[derive(Clone, Copy, Debug, PartialEq, Eq)]
pub struct Refused {
    pub why: Refusal,
    pub ghost in_help: { is_status (number_of why) ≡ true },
}

// Each is an error: that all is done is `Ok`.
#[derive(Clone, Copy, Debug, PartialEq, Eq)]
pub enum Failure {
    Refused(Refused),
    Usage,
    NoInput,
    NoOutput,
    NotWritten,
}
