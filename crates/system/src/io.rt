// The handles that a command works with.
ghost use Rattle.std.specs.Prelude.{◌≡◌, true, ◌≤◌, length, IfOk, IfErr, IsOkUnless};
ghost use Rattle.system.specs.Status.{ends_as};
ghost use Rattle.system.specs.Outcome.{status_of};
ghost use Rattle.system.specs.Input.{shown_of};

use crate::{Failure, errors, files};
use std::rt::Files;

// What is printed goes to `out`, errors to `err`; `rt` has the files, and the system's own words go to its standard error.
#[derive(Drop)]
pub struct Io<'a, R, O, E> {
    pub rt: &'a R,
    pub out: &'a O,
    pub err: &'a E,
}

impl<R, O, E: Print> Io<'_, R, O, E> {
    // Wrong use, and what is wrong: a word stands in the line as it was given.
    pub fn wrong(&self, before: &[u8], word: &[u8], after: &[u8]) -> Failure
        ensures { result ≡ Failure.Usage }
    {
        errors::say(self.err, before, word, after);
        Failure::Usage
    }

    fn unwritten(&self, name: &[u8]) -> Failure
        ensures { result ≡ Failure.NotWritten }
    {
        errors::say(self.err, b"", name, b": not all could be written\n");
        Failure::NotWritten
    }
}

impl<R: Files + Input + Eprint, O, E> Io<'_, R, O, E> {
    // What comes of the named job, or of standard input, until the buffer is full; a failure is said.
    pub fn read<'b>(&self, name: &[u8], buf: &'b mut [u8]) -> Result<&'b mut [u8], Failure>
        ensures within { IfOk result (λ bytes. length bytes.now ≤ length buf.old) }
        ensures failure { IfErr result (λ why. why ≡ Failure.NoInput) }
    {
        match files::fill(self.rt, name, buf) {
            Ok(count) => Ok(&mut buf[..count]),
            Err(error) => {
                errors::failed(self.rt, shown(name), error);
                Err(Failure::NoInput)
            }
        }
    }
}

impl<R, O: Print, E: Print> Io<'_, R, O, E> {
    pub fn print(&self, bytes: &[u8]) -> Result<(), Failure>
        ensures { IsOkUnless result Failure.NotWritten }
    {
        if self.out.write_all(bytes).is_ok() {
            return Ok(());
        }
        Err(self.unwritten(b"standard output"))
    }
}

impl<R: Files + Eprint, O: Print, E: Print> Io<'_, R, O, E> {
    // To the named file, or to standard output.
    pub fn write(&self, bytes: &[u8], name: &[u8]) -> Result<(), Failure>
        ensures { ends_as 0 (status_of result) ≡ true }
    {
        if matches!(name, b"-") {
            return self.print(bytes);
        }
        match files::create(self.rt, name) {
            Ok(file) => {
                if files::is_put(file, bytes) {
                    Ok(())
                } else {
                    Err(self.unwritten(name))
                }
            }
            Err(error) => {
                errors::failed(self.rt, name, error);
                Err(Failure::NoOutput)
            }
        }
    }
}

// An input's name as it is printed.
pub fn shown(name: &[u8]) -> &[u8]
    ensures { result.now ≡ shown_of name.now }
{
    match name {
        b"-" => b"standard input",
        _ => name,
    }
}
