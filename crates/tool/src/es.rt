// `es`: what the library answers on sporadic E.
ghost use Rattle.std.specs.Prelude.{◌≡◌, true};
ghost use Rattle.es_file.specs.File.{number_of};
ghost use Rattle.system.specs.Status.{ends_as};
ghost use Rattle.system.specs.Outcome.{status_of, refusal_number};

use crate::refused::complained;
use command::{count, word};
use decimal::Page;
use std::rt::Files;
use system::{Failure, Io, Refused, shown};

pub(crate) fn es<R: Files + Input + Eprint, O: Print, E: Print>(
    io: &Io<R, O, E>,
    line: &[u8],
) -> Result<(), Failure> {
    if count(line) != 2 {
        return Err(io.wrong(b"es takes FILE; 'ray help' says more\n", b"", b""));
    }
    let name = word(line, 1);
    let mut bytes = [0u8; es_file::BYTES + 1];
    let file = io.read(name, &mut bytes)?;
    answered(io, shown(name), file)
}

fn answered<R, O: Print, E: Print>(
    io: &Io<R, O, E>,
    name: &[u8],
    file: &[u8],
) -> Result<(), Failure>
    ensures { ends_as (number_of file.now) (status_of result) ≡ true }
{
    complained(io, held(file), |broken, page| {
        es_sheet::refusal(name, file, broken.into(), page)
    })?;
    let mut bytes = [0u8; 65536];
    let mut page = Page::new(&mut bytes);
    es_sheet::page(name, file, &mut page);
    io.print(page.written())
}

// The file's first limit broken.
fn held(file: &[u8]) -> Result<(), Refused>
    ensures { refusal_number result ≡ number_of file.now }
{
    match es_file::check(file) {
        Ok(()) => Ok(()),
        Err(why) => Err(Refused { why }),
    }
}
