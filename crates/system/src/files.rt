// Files, and the bytes of an input.
ghost use Rattle.std.specs.Prelude.{◌≤◌, length, IfOk};

use std::fs::File;
use std::io;
use std::io::{ErrorKind, Read, Write};
use std::rt::Files;

// Reads until the buffer is full, so that an endless input ends, or to the end of the input. (std's `read_to_end` allocates.)
fn read_all<F: Read>(input: &mut F, buf: &mut [u8]) -> io::Result<usize>
    ensures { IfOk result (λ n. n ≤ length buf.old) }
{
    let mut n = 0usize;
    while n < buf.len() {
        let more = input.read(&mut buf[n..])?;
        if more == 0 {
            return Ok(n);
        }
        n += more;
    }
    Ok(n)
}

// A name that is not UTF-8 is not one that std can open.
fn path(name: &[u8]) -> io::Result<&str> {
    str::from_utf8(name).map_err(|_| io::Error::from(ErrorKind::InvalidFilename))
}

// The named input, or standard input.
pub(crate) fn fill<R: Files + Input>(rt: &R, name: &[u8], buf: &mut [u8]) -> io::Result<usize>
    ensures { IfOk result (λ n. n ≤ length buf.old) }
{
    if matches!(name, b"-") {
        return read_all(&mut rt.reader(), buf);
    }
    let mut file = File::open(rt, path(name)?)?;
    read_all(&mut file, buf)
}

pub(crate) fn create<R: Files>(rt: &R, name: &[u8]) -> io::Result<R::File> {
    File::create(rt, path(name)?)
}

// Whether all could be written. The file is closed.
pub(crate) fn is_put<F: Write + Drop>(mut file: F, bytes: &[u8]) -> bool {
    file.write_all(bytes).is_ok()
}
