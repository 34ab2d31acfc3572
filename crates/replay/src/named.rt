// Document 01's cases that are not proved: "All-zero tables otherwise; freq 2, fi third 1, ghop 0.5".
ghost use Rattle.std.specs.Prelude.{◌≤◌};

use super::tally::Tally;
use super::{files, jobs, record};
use job::layout;
use std::fs::File;
use std::io;
use std::rt::Files;

const JOB: usize = layout::JOB_BYTES;

const ANSWER: usize = layout::ANSWER_BYTES;

// What is stored: the number and the answer.
const STORED: usize = record::WORD + ANSWER;

// The sheet's job and a byte more: nang 40, fi's third number 1 at each point.
fn sheet(job: &mut [u8]) {
    let one = words::bits(1.0);
    words::put_word(job, 4, 40);
    words::put_word(job, 8, words::bits(2.0));
    words::put_word(job, 16, words::bits(0.5));
    words::put_word(job, 28, one);
    words::put_word(job, 40, one);
    words::put_word(job, 52, one);
    words::put_word(job, 64, one);
    words::put_word(job, 76, one);
}

// Whether a call gave this number and left this answer.
fn is_stored(number: u32, answer: [u8; ANSWER + 1], stored: [u8; STORED]) -> bool {
    let left = &answer[0..ANSWER];
    (number == words::word(&stored, 0)) & (left == &stored[record::WORD..])
}

fn told<P: Print>(out: &P, name: &str, number: u32, agrees: bool) {
    let end = if agrees { "" } else { ", and not as stored" };
    let _ = if number == 0 {
        println!(out; "{name}: accepted{end}")
    } else {
        println!(out; "{name}: refused as {number}{end}")
    };
}

// Runs the sheet's job, with another word and cut to a length, on an answer of a length, and holds it against what is stored next.
fn case<F: io::Read, P: Print>(
    out: &P,
    file: &mut F,
    name: &str,
    at: usize,
    w: u32,
    length: usize,
    room: usize,
) -> Tally
    requires { (length ≤ 5361) × (room ≤ 1641) }
{
    let mut stored = [0u8; STORED];
    let _ = files::next(file, &mut stored);
    let mut job = [0u8; JOB + 1];
    sheet(&mut job);
    words::put_word(&mut job, at, w);
    let mut answer = [jobs::UNWRITTEN; ANSWER + 1];
    let number = job::run(&job[..length], &mut answer[..room]);
    let agrees = is_stored(number, answer, stored);
    told(out, name, number, agrees);
    Tally::of_record(agrees)
}

fn limits<F: io::Read, P: Print>(out: &P, file: &mut F) -> Tally {
    let mut t = case(out, file, "nang 40", 4, 40, JOB, ANSWER);
    t += case(out, file, "nang 41", 4, 41, JOB, ANSWER);
    t += case(out, file, "k 4", 0, 4, JOB, ANSWER);
    t += case(out, file, "k 5", 0, 5, JOB, ANSWER);
    t += case(out, file, "ifob 99999", 560, 99999, JOB, ANSWER);
    t += case(out, file, "ifob 100000", 560, 100000, JOB, ANSWER);
    t
}

fn lengths<F: io::Read, P: Print>(out: &P, file: &mut F) -> Tally {
    let mut t = case(out, file, "job of 5,359 bytes", 0, 0, JOB - 1, ANSWER);
    t += case(out, file, "job of 5,360 bytes", 0, 0, JOB, ANSWER);
    t += case(out, file, "job of 5,361 bytes", 0, 0, JOB + 1, ANSWER);
    t += case(out, file, "answer of 1,639 bytes", 0, 0, JOB, ANSWER - 1);
    t += case(out, file, "answer of 1,641 bytes", 0, 0, JOB, ANSWER + 1);
    t
}

fn root_of_4<P: Print>(out: &P) -> Tally {
    let agrees = words::bits(root::sqrt(4.0)) == words::bits(2.0);
    let root = if agrees { "2" } else { "not 2" };
    let _ = println!(out; "root of 4: {root}");
    Tally::of_record(agrees)
}

// A file that cannot be read shows in each case: noughts are no answer.
pub(crate) fn cases<R: Files + Print>(rt: &R, path: &str) -> Tally {
    let mut t = match File::open(rt, path) {
        Ok(mut file) => of_sheet(rt, &mut file),
        Err(_) => of_sheet(rt, &mut io::empty()),
    };
    t += root_of_4(rt);
    t
}

fn of_sheet<F: io::Read, P: Print>(out: &P, file: &mut F) -> Tally {
    let mut t = limits(out, file);
    t += lengths(out, file);
    t
}
