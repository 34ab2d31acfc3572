// `ask`: the same tables with another frequency, hop or minimum angle, as a job.
ghost use Rattle.std.specs.Prelude.{◌≡◌, true, ◌<◌, fold};
ghost use Rattle.system.specs.Status.{ends_as};
ghost use Rattle.system.specs.Outcome.{status_of};
ghost use Rattle.job.specs.Job.{answer_bytes, refusal_of};
ghost use Rattle.command.specs.Ask.{put_of};

use crate::refused::complained;
use command::{Change, PairError, count, twice, word};
use job::layout;
use std::rt::Files;
use system::{Failure, Io, shown};

pub(crate) fn ask<R: Files + Input + Eprint, O: Print, E: Print>(
    io: &Io<R, O, E>,
    line: &[u8],
) -> Result<(), Failure> {
    let n = count(line);
    if (n != 5) & (n != 7) & (n != 9) {
        return Err(io.wrong(
            b"ask takes JOB, FILE and one or more of freq MHZ, hop KM, min DEG; 'ray help' says more\n",
            b"",
            b"",
        ));
    }
    let pairs = [pair(io, line, 3)?, pair(io, line, 5)?, pair(io, line, 7)?];
    // The first that changes a word which one before it changes.
    for (i, pair) in pairs.iter().enumerate() {
        if pairs[..i].iter().any(|before| twice(*before, *pair)) {
            return Err(again(io, word(line, 3 + 2 * i)));
        }
    }
    changed(io, line, &pairs)
}

// The pair whose name is word i, where the line has it; what is wrong with it is said.
fn pair<R, O, E: Print>(io: &Io<R, O, E>, line: &[u8], i: usize) -> Result<Option<Change>, Failure>
    requires { i < 9 }
{
    if i >= count(line) {
        return Ok(None);
    }
    let name = word(line, i);
    let number = word(line, i + 1);
    match command::pair_of(name, number) {
        Ok(change) => Ok(Some(change)),
        Err(PairError::NoName) => Err(io.wrong(
            b"ask takes freq, hop or min, and not '",
            name,
            b"'; 'ray help' says more\n",
        )),
        Err(PairError::NoNumber) => Err(io.wrong(
            b"'",
            number,
            b"' is not a number such as 14, 14.2 or 14.235, below a million\n",
        )),
    }
}

fn again<R, O, E: Print>(io: &Io<R, O, E>, name: &[u8]) -> Failure {
    io.wrong(b"ask has '", name, b"' twice; 'ray help' says more\n")
}

// The job that is read, with the words that the pairs change.
fn changed<R: Files + Input + Eprint, O: Print, E: Print>(
    io: &Io<R, O, E>,
    line: &[u8],
    pairs: &[Option<Change>; 3],
) -> Result<(), Failure> {
    let name = word(line, 1);
    let mut bytes = [0u8; layout::JOB_BYTES + 1];
    let job = io.read(name, &mut bytes)?;
    put_all(job, pairs);
    written(io, shown(name), job, word(line, 2))
}

// One after the other.
fn put_all(job: &mut [u8], pairs: &[Option<Change>])
    ensures { job.new ≡ fold (λ bytes pair. put_of pair bytes) job.old pairs.now }
{
    for pair in pairs {
        command::put(job, *pair);
    }
}

// The changed job goes out where the library accepts it.
fn written<R: Files + Eprint, O: Print, E: Print>(
    io: &Io<R, O, E>,
    name: &[u8],
    job: &[u8],
    file: &[u8],
) -> Result<(), Failure>
    ensures { ends_as (refusal_of job.now answer_bytes) (status_of result) ≡ true }
{
    let mut answer = [0u8; layout::ANSWER_BYTES];
    let outcome = page::numbered(job, &mut answer);
    complained(io, outcome, |broken, page| {
        refusal::refusal(name, job, broken.into(), page)
    })?;
    io.write(job, file)
}
