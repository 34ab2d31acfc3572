// The ranges that a job, `accumulate`, `prbmuf` and `esmod` are held to, each with the number of its refusal (document 01, "The bytes of a job"; document 02, order 1). Limits 1 and 2 are lengths: a call's own layout has them, and here are their numbers.
#![tactic(auto)]

ghost use Rattle.std.specs.Prelude.{◌≡◌, ◌≤◌};
ghost use Rattle.limits.specs.Limits.{within, k_within, nang_within, fi_within, entries_within, slots_within, count_within, layer_within, km_within, point_within, points_within, es_within};
ghost use Rattle.limits.specs.Limits.{number_of, code_of, outcome_of, Decodes};

// The limits that a job or a call may break, in the order of document 01: as u32 it is the limit's number.
#[derive(Clone, Copy, Debug, PartialEq, Eq)]
pub enum Refusal {
    Job = 1,
    Answer,
    K,
    Nang,
    Freq,
    Amind,
    Ghop,
    Fi,
    Table,
    Ifob,
    Slots,
    Count,
    Layer,
    Es,
}

impl From<Refusal> for u32 {
    ghost from_gives = { λ refusal n. n ≡ number_of refusal };

    fn from(refusal: Refusal) -> u32 {
        refusal as u32
    }
}

// A number that no limit has.
#[derive(Clone, Copy, Debug, PartialEq, Eq)]
pub struct NoRefusal(pub u32);

impl TryFrom<u32> for Refusal {
    type Error = NoRefusal;

    ghost try_from_gives = { Decodes };

    fn try_from(number: u32) -> Result<Self, NoRefusal> {
        match number {
            1 => Ok(Refusal::Job),
            2 => Ok(Refusal::Answer),
            3 => Ok(Refusal::K),
            4 => Ok(Refusal::Nang),
            5 => Ok(Refusal::Freq),
            6 => Ok(Refusal::Amind),
            7 => Ok(Refusal::Ghop),
            8 => Ok(Refusal::Fi),
            9 => Ok(Refusal::Table),
            10 => Ok(Refusal::Ifob),
            11 => Ok(Refusal::Slots),
            12 => Ok(Refusal::Count),
            13 => Ok(Refusal::Layer),
            14 => Ok(Refusal::Es),
            _ => Err(NoRefusal(number)),
        }
    }
}

// The limit's number, 0 where none is broken.
pub fn code<T: Drop>(outcome: Result<T, Refusal>) -> u32
    ensures { result ≡ code_of outcome }
{
    match outcome {
        Ok(_) => 0,
        Err(refusal) => refusal.into(),
    }
}

// One limit of a group, for a chain of `?`.
pub fn check<E: Drop>(holds: bool, broken: E) -> Result<(), E>
    ensures { result ≡ outcome_of holds broken }
{
    if holds { Ok(()) } else { Err(broken) }
}

// From the first number to the second, ends included; NaN is within no range.
#[derive(Clone, Copy, Debug, PartialEq)]
pub struct Range(pub f32, pub f32);

pub const FREQ: Range = Range(2.0, 30.0);

pub const AMIND: Range = Range(0.0, 90.0);

pub const GHOP: Range = Range(0.0, 4.0);

// fi's second and third.
pub const FI_2: Range = Range(0.0, 100.0);

pub const FI_3: Range = Range(0.1, 100.0);

pub const FVERT: Range = Range(0.0, 100.0);

pub const HPRIM: Range = Range(0.0, 10000.0);

pub const HTRUE: Range = Range(0.0, 2000.0);

pub const AFAC: Range = Range(-1000000.0, 1000000.0);

pub const HS: Range = Range(80.0, 200.0);

pub const GCD: Range = Range(0.001, 3.2);

pub const GCDKM: Range = Range(0.0, 20100.0);

// Of each of a point's three, and of fsdead.
pub const FS: Range = Range(0.0, 100.0);

impl Range {
    pub fn holds(&self, x: f32) -> bool
        ensures { result ≡ within self.now.0 self.now.1 x }
    {
        (self.0 <= x) & (x <= self.1)
    }
}

// A count, and so no Range, which is of floats; likewise nang.
pub fn k_within(k: usize) -> bool
    ensures { result ≡ k_within k }
{
    k <= 4
}

pub fn nang_within(nang: usize) -> bool
    ensures { result ≡ nang_within nang }
{
    nang <= 40
}

// Of the point that the job names; its first number may be anything. Two numbers, each in a range of its own.
pub fn fi_within(second: f32, third: f32) -> bool
    ensures { result ≡ fi_within second third }
{
    FI_2.holds(second) & FI_3.holds(third)
}

// All 1,200 entries of ifob, without an early exit: no branch in the loop. The bits of all of them together tell whether one is below 0.
pub fn entries_within(ifob: &[i32; 1200]) -> bool
    ensures { result ≡ entries_within ifob.now 1200 }
{
    let mut bits = 0;
    let mut above = false;
    for entry in ifob {
        bits |= entry;
        above |= *entry > 99999;
    }
    (0 <= bits) & !above
}

// Each has one bound, and a Range has two.
pub fn slots_within(ist: usize, lst: usize) -> bool
    ensures { result ≡ slots_within ist lst }
{
    (1 <= ist) & (lst <= 7)
}

// A sum, with an upper bound alone. One that saturates is above 20 too.
pub fn count_within(before: usize, added: usize) -> bool
    ensures { result ≡ count_within before added }
{
    before.saturating_add(added) <= 20
}

pub fn layer_within(layer: usize) -> bool
    ensures { result ≡ layer_within layer }
{
    (1..=4).contains(&layer)
}

pub fn km_within(km: usize) -> bool
    ensures { result ≡ km_within km }
{
    (1..=5).contains(&km)
}

fn point_within(fs: &[f32; 3], hs: f32) -> bool
    ensures { result ≡ point_within fs.now hs }
{
    HS.holds(hs) & (FS.holds(fs[0]) & (FS.holds(fs[1]) & FS.holds(fs[2])))
}

// The first km points. Those that are not counted may be anything.
fn points_within(fs: &[[f32; 3]; 5], hs: &[f32; 5], km: usize) -> bool
    requires { km ≤ 5 }
    ensures { result ≡ points_within fs.now hs.now km }
{
    (0..km).all(|i| point_within(&fs[i], hs[i]))
}

// Its one caller's struct stands in a crate above; one of these six here would be filled field by field for this call alone.
#[tactic(auto, unfolding(crate::specs::Limits::es_within))]
pub fn es_within(
    km: usize,
    fs: &[[f32; 3]; 5],
    hs: &[f32; 5],
    gcd: f32,
    gcdkm: f32,
    fsdead: f32,
) -> bool
    ensures { result ≡ es_within km fs.now hs.now gcd gcdkm fsdead }
{
    km_within(km)
        && (points_within(fs, hs, km) & (GCD.holds(gcd) & (GCDKM.holds(gcdkm) & FS.holds(fsdead))))
}
