// The two lines of a refusal, where the outcome is one.
ghost use Rattle.std.specs.Prelude.{◌≡◌, true, Ok, Err, MatchResult};
ghost use Rattle.limits.specs.Limits.{number_of};
ghost use Rattle.system.specs.Status.{ends_as};
ghost use Rattle.system.specs.Outcome.{status_of};

use decimal::Page;
use limits::Refusal;
use system::{Failure, Io, Refused};

// As the answer of `check`.
pub(crate) fn reported<R, O, E, F>(
    io: &Io<R, O, E>,
    outcome: Result<(), Refused>,
    lines: F,
) -> Result<(), Failure>
where
    O: Print,
    E: Print,
    F: FnOnce(Refusal, &mut Page),
    requires { F.IsAlwaysCallable lines }
    ensures { MatchResult outcome (λ x. result ≡ Ok x)
        (λ limit. ends_as (number_of limit.why) (status_of result) ≡ true) }
{
    let Err(limit) = outcome else {
        return Ok(());
    };
    let mut bytes = [0u8; 65536];
    let mut page = Page::new(&mut bytes);
    lines(limit.why, &mut page);
    io.print(page.written())?;
    Err(Failure::Refused(limit))
}

// As an error.
pub(crate) fn complained<R, O, E, F>(
    io: &Io<R, O, E>,
    outcome: Result<(), Refused>,
    lines: F,
) -> Result<(), Failure>
where
    E: Print,
    F: FnOnce(Refusal, &mut Page),
    requires { F.IsAlwaysCallable lines }
    ensures { MatchResult outcome (λ x. result ≡ Ok x)
        (λ limit. result ≡ Err (Failure.Refused limit)) }
{
    let Err(limit) = outcome else {
        return Ok(());
    };
    let mut bytes = [0u8; 65536];
    let mut page = Page::new(&mut bytes);
    page.text(b"ray: ");
    lines(limit.why, &mut page);
    let _ = io.err.write_all(page.written());
    Err(Failure::Refused(limit))
}
