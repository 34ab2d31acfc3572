// Files of records, read one by one to the end.
use super::tally::Tally;
use std::io;

// Reads one record, as long as the slice; false where none is left. A part of a record is an error.
pub(crate) fn next<F: io::Read>(file: &mut F, record: &mut [u8]) -> io::Result<bool> {
    let n = file.read(record)?;
    if n == 0 {
        return Ok(false);
    }
    file.read_exact(&mut record[n..])?;
    Ok(true)
}

// A proved loop has to end, and nothing says that a file does: no more records are read than these.
const MOST: u64 = 1_000_000;

pub(crate) fn tally_of<F: io::Read, A: Fn(&[u8]) -> bool>(
    file: &mut F,
    r: &mut [u8],
    agrees: A,
) -> Tally
    requires { (state : A) (x : _) → A.pre state x }
{
    let mut t = Tally::default();
    for _ in 0..MOST {
        match next(file, r) {
            Ok(true) => t += Tally::of_record(agrees(r)),
            Ok(false) => return t,
            Err(_) => break,
        }
    }
    t += Tally::unread();
    t
}
