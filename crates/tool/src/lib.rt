// The tool `ray`: reads a job, has the library answer it, and prints or writes what a command asks for. What is answered is the exit status. There is no heap: jobs, answers and pages are arrays on the stack.
#![tactic(auto)]

mod ask;
mod es;
mod help;
mod jobs;
mod refused;

ghost use Rattle.std.specs.Prelude.{◌≡◌, true};
ghost use Rattle.system.specs.Status.{is_status};

use command::{Verb, count, verb_of, word};
use decimal::Page;
use std::rt::{Env, Files};
use system::{Failure, Io};

// The tool over the program's own arguments.
pub fn run<R: Files + Env + Input + Eprint, O: Print, E: Print>(io: &Io<R, O, E>) -> u8
    ensures { is_status result ≡ true }
{
    let mut bytes = [0u8; 65536];
    let mut line = Page::new(&mut bytes);
    match system::gather(io.rt, &mut line) {
        Ok(()) => serve(io, line.written()),
        Err(_) => {
            let failure = io.wrong(b"a word on the command line is too long\n", b"", b"");
            system::status(Err(failure))
        }
    }
}

// The tool over a command line: words, each with a byte 0 behind it.
pub fn serve<R: Files + Input + Eprint, O: Print, E: Print>(io: &Io<R, O, E>, line: &[u8]) -> u8
    ensures { is_status result ≡ true }
{
    system::status(done(io, line))
}

fn done<R: Files + Input + Eprint, O: Print, E: Print>(
    io: &Io<R, O, E>,
    line: &[u8],
) -> Result<(), Failure> {
    if count(line) == 0 {
        return Err(io.wrong(b"no command; 'ray help' lists them\n", b"", b""));
    }
    let first = word(line, 0);
    let Some(verb) = verb_of(first) else {
        return Err(io.wrong(b"no command '", first, b"'; 'ray help' lists them\n"));
    };
    match verb {
        Verb::Help => help::help(io, line),
        Verb::Ask => ask::ask(io, line),
        Verb::Es => es::es(io, line),
        Verb::Draw | Verb::Job => jobs::of_job(
            io,
            line,
            verb,
            3,
            b" takes JOB and perhaps FILE; 'ray help' says more\n",
        ),
        Verb::Show | Verb::Check | Verb::Words => {
            jobs::of_job(io, line, verb, 2, b" takes JOB; 'ray help' says more\n")
        }
    }
}
