// The file of `ray es`: its words, esmod's answer to them, and the first number that is out of its range.
#![tactic(auto)]

ghost use Rattle.std.specs.Prelude.{◌≡◌, ◌+◌, ◌*◌, ◌<◌, min};
ghost use Rattle.limits.specs.Limits.{within, broken, code_of, outcome_of};
ghost use Rattle.job.specs.Parts.{points, point_numbers, number_at, numbers_at};
ghost use Rattle.es_file.specs.File.{of_file, fs_of, hs_of, job_of, chosen_of, modes_of, number_of, point_tests, points_tests, last_tests, found_by, found_of, counted};

use esmod::{EsJob, EsModes};
use job::layout;
use limits::{Range, Refusal};
use std::array;
use view::{number, word};

// Where the parts stand, in words.
pub const KM: usize = 0;

pub const FS: usize = KM + 1;

pub const HS: usize = FS + layout::POINTS * layout::POINT_NUMBERS;

pub const GCD: usize = HS + layout::POINTS;

pub const GCDKM: usize = GCD + 1;

pub const AMIND: usize = GCDKM + 1;

pub const FREQ: usize = AMIND + 1;

pub const FSDEAD: usize = FREQ + 1;

pub const BYTES: usize = 4 * (FSDEAD + 1);

// Each point's three fs.
fn fs(file: &[u8]) -> [[f32; 3]; 5]
    ensures { result ≡ fs_of file.now }
{
    array::from_fn(
        |point|
            requires { point < points }
            ensures { result ≡ numbers_at file.entry.now (of_file "fs" + point_numbers * point) point_numbers }
        { words::array_at(file, 4 * (FS + layout::POINT_NUMBERS * point)) },
    )
}

fn hs(file: &[u8]) -> [f32; 5]
    ensures { result ≡ hs_of file.now }
{
    words::array_at(file, 4 * HS)
}

// What esmod is asked.
fn job(file: &[u8]) -> EsJob
    ensures { result ≡ job_of file.now }
{
    EsJob {
        km: word(file, KM) as usize,
        fs: fs(file),
        hs: hs(file),
        gcd: number(file, GCD),
        gcdkm: number(file, GCDKM),
        amind: number(file, AMIND),
        freq: number(file, FREQ),
        fsdead: number(file, FSDEAD),
    }
}

// esmod's answer.
#[tactic(auto, unfolding(crate::specs::File::modes_of))]
pub fn modes(file: &[u8]) -> EsModes
    ensures { result ≡ modes_of file.now }
{
    job(file).esmod()
}

// The point that governs, counted from 0.
pub fn chosen(file: &[u8]) -> usize
    ensures value { result ≡ chosen_of file.now }
    ensures upper_bound { result < 5 }
{
    job(file).point()
}

// The first limit broken: the length, or one of esmod's.
pub fn check(file: &[u8]) -> Result<(), Refusal>
    ensures { code_of result ≡ number_of file.now }
{
    limits::check(file.len() == BYTES, Refusal::Job)?;
    job(file).check()
}

// Word i is within its range, or else it is the one that is found.
fn in_range(file: &[u8], i: usize, range: Range) -> Result<(), usize>
    ensures { result ≡ outcome_of (within range.0 range.1 (number_at file.now i)) i }
{
    limits::check(range.holds(number(file, i)), i)
}

#[tactic(auto, using(crate::proofs::FoundLaws::places))]
fn in_point(file: &[u8], i: usize) -> Result<(), usize>
    requires { i < 5 }
    ensures { found_by result ≡ broken (point_tests file.now i) }
{
    let at = FS + layout::POINT_NUMBERS * i;
    in_range(file, HS + i, limits::HS)?;
    in_range(file, at, limits::FS)?;
    in_range(file, at + 1, limits::FS)?;
    in_range(file, at + 2, limits::FS)
}

// In the first km points, at most 5.
fn in_points(file: &[u8], km: usize) -> Result<(), usize>
    ensures { found_by result ≡ broken (points_tests file.now (min km points)) }
{
    (0..km.min(layout::POINTS)).try_for_each(|i| in_point(file, i))
}

#[tactic(auto, using(crate::proofs::FoundLaws::places), unfolding(crate::specs::File::last_tests))]
fn in_last(file: &[u8]) -> Result<(), usize>
    ensures { found_by result ≡ broken (last_tests file.now) }
{
    in_range(file, GCD, limits::GCD)?;
    in_range(file, GCDKM, limits::GCDKM)?;
    in_range(file, FSDEAD, limits::FS)
}

// In the order in which esmod's limits are tested.
#[tactic(auto, using(crate::proofs::FoundLaws::places, crate::proofs::FoundLaws::then_last, crate::proofs::FoundLaws::before_last), unfolding(crate::specs::File::found_of))]
fn in_all(file: &[u8]) -> Result<(), usize>
    ensures { found_by result ≡ found_of file.now }
{
    let km = word(file, KM) as usize;
    in_range(file, FREQ, limits::FREQ)?;
    in_range(file, AMIND, limits::AMIND)?;
    limits::check(limits::km_within(km), KM)?;
    in_points(file, km)?;
    in_last(file)
}

// The word of the first number that is out of its range.
pub fn found(file: &[u8]) -> Option<usize>
    ensures { counted result ≡ found_of file.now }
{
    in_all(file).err()
}
