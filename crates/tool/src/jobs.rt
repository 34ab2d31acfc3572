// The commands that read a job and show what the library answers.
ghost use Rattle.std.specs.Prelude.{◌≡◌, true};
ghost use Rattle.job.specs.Job.{answer_bytes, refusal_of};
ghost use Rattle.system.specs.Status.{ends_as};
ghost use Rattle.system.specs.Outcome.{status_of};

use crate::refused::{complained, reported};
use command::{Verb, count, word};
use decimal::Page;
use job::layout;
use limits::Refusal;
use std::rt::Files;
use system::{Failure, Io, shown};
use view::View;

// A command of at most so many words: its own, JOB, and perhaps FILE.
pub(crate) fn of_job<R: Files + Input + Eprint, O: Print, E: Print>(
    io: &Io<R, O, E>,
    line: &[u8],
    verb: Verb,
    most: usize,
    usage: &[u8],
) -> Result<(), Failure> {
    let n = count(line);
    if (n < 2) | (n > most) {
        return Err(io.wrong(b"", word(line, 0), usage));
    }
    let name = word(line, 1);
    let file = if n == 3 { Some(word(line, 2)) } else { None };
    let mut bytes = [0u8; layout::JOB_BYTES + 1];
    let job = io.read(name, &mut bytes)?;
    answered(io, shown(name), job, verb, file)
}

// All the work is done before the output is opened.
fn answered<R: Files + Eprint, O: Print, E: Print>(
    io: &Io<R, O, E>,
    name: &[u8],
    job: &[u8],
    verb: Verb,
    file: Option<&[u8]>,
) -> Result<(), Failure>
    ensures { ends_as (refusal_of job.now answer_bytes) (status_of result) ≡ true }
{
    let mut answer = [0u8; layout::ANSWER_BYTES];
    let outcome = page::numbered(job, &mut answer);
    let lines = |broken: Refusal, page: &mut Page| refusal::refusal(name, job, broken.into(), page);
    if verb == Verb::Check {
        reported(io, outcome, lines)?;
    } else {
        complained(io, outcome, lines)?;
    }
    let mut bytes = [0u8; 65536];
    let mut text = Page::new(&mut bytes);
    let view = View {
        job,
        answer: &answer,
    };
    page::page(verb, name, view, &mut text);
    match file {
        Some(file) => io.write(text.written(), file),
        None => io.print(text.written()),
    }
}
