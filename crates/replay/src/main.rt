// Replays the oracle's stored answers and says how many agree (docs/REPLAY.md).
#![tactic(auto)]

ghost use Rattle.std.specs.Prelude.{◌≤◌};

mod altered;
mod chances;
mod es;
mod files;
mod jobs;
mod modes;
mod named;
mod record;
mod searches;
mod tally;
mod walks;

use std::fs::File;
use std::rt::Files;
use tally::Tally;

// The longest record's bytes.
const LONGEST: usize = 9216;

// A file of records of `size` bytes, whose answers begin at `answer`: the first record, as it is and altered, then the others. One that cannot be opened cannot be read.
fn file<R: Files + Print, A: Fn(&[u8]) -> bool>(
    rt: &R,
    path: &str,
    size: usize,
    answer: usize,
    agrees: A,
) -> Tally
    requires fits { size ≤ 9216 }
    requires callable { (state : A) (x : _) → A.pre state x }
{
    let t = match File::open(rt, path) {
        Ok(mut file) => {
            let mut record = [0u8; LONGEST];
            let r = &mut record[..size];
            let mut t = altered::first(&mut file, r, answer, &agrees);
            t += files::tally_of(&mut file, r, &agrees);
            t
        }
        Err(_) => Tally::unread(),
    };
    let _ = println!(rt; "{path}: {t}");
    t
}

// A function of one number: its argument, then its value.
fn function<R: Files + Print, F: Fn(f32) -> f32>(rt: &R, path: &str, f: F) -> Tally
    requires { (state : F) (x : _) → F.pre state x }
{
    file(
        rt,
        path,
        8,
        4,
        |r: &[u8]| record::has(r, 4, f(record::float(r, 0))),
    )
}

fn main(rt: HostRuntime) {
    let mut t = Tally::default();
    t += file(
        &rt,
        "jobs_realistic",
        jobs::SIZE,
        jobs::ANSWER,
        jobs::agrees,
    );
    t += file(
        &rt,
        "jobs_adversarial",
        jobs::SIZE,
        jobs::ANSWER,
        jobs::agrees,
    );
    t += file(&rt, "jobs_limits", jobs::SIZE, jobs::ANSWER, jobs::agrees);
    t += file(&rt, "findf", walks::SIZE, walks::ANSWER, walks::agrees);
    t += file(
        &rt,
        "fdist",
        searches::SIZE,
        searches::ANSWER,
        searches::agrees,
    );
    t += file(&rt, "esmod", es::SIZE, es::ANSWER, es::agrees);
    t += function(&rt, "sqrt", root::sqrt);
    t += function(&rt, "sin", |x| angles::sin(x));
    t += function(&rt, "cos", |x| angles::cos(x));
    t += function(&rt, "asin", |x| angles::asin(x));
    t += function(&rt, "acos", |x| angles::acos(x));
    t += function(&rt, "atan", |x| angles::atan(x));
    t += function(&rt, "fnorml", fnorml::fnorml);
    t += file(
        &rt,
        "prbmuf",
        chances::SIZE,
        chances::ANSWER,
        chances::agrees,
    );
    t += file(
        &rt,
        "reset",
        modes::RESET_SIZE,
        modes::RESET_ANSWER,
        modes::reset_agrees,
    );
    t += file(
        &rt,
        "accumulate",
        modes::ACCUMULATE_SIZE,
        modes::ACCUMULATE_ANSWER,
        modes::accumulate_agrees,
    );
    t += named::cases(&rt, "named");
    let _ = println!(rt; "total: {t}");
}
