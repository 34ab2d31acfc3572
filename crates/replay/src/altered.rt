// A record whose answer has one word changed must not agree.
ghost use Rattle.std.specs.Prelude.{◌<◌, length};

use super::files;
use super::tally::Tally;
use std::io;

// Whether a record agrees while its byte at `at` is another.
fn agrees_changed<A: Fn(&[u8]) -> bool>(r: &mut [u8], at: usize, agrees: A) -> bool
    requires inside { at < length r.old }
    requires callable { (state : A) (x : _) → A.pre state x }
{
    let was = r[at];
    r[at] = was.checked_sub(1).unwrap_or(1);
    let same = agrees(r);
    r[at] = was;
    same
}

// A record as it is, and with each word of its answer changed in its turn.
fn each_word<A: Fn(&[u8]) -> bool>(r: &mut [u8], answer: usize, agrees: A) -> Tally
    requires { (state : A) (x : _) → A.pre state x }
{
    let mut t = Tally::of_record(agrees(r));
    for at in (answer..r.len()).step_by(4) {
        t += Tally::of_altered(agrees_changed(r, at, &agrees));
    }
    t
}

// The file's first record, whose answer begins at `answer`.
pub(crate) fn first<F: io::Read, A: Fn(&[u8]) -> bool>(
    file: &mut F,
    r: &mut [u8],
    answer: usize,
    agrees: A,
) -> Tally
    requires { (state : A) (x : _) → A.pre state x }
{
    match files::next(file, r) {
        Ok(true) => each_word(r, answer, agrees),
        Ok(false) => Tally::default(),
        Err(_) => Tally::unread(),
    }
}
