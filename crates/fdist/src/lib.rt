// Translated from hfcast-engine (commit bf34e8f9f3), src/voacap/modes.rs lines 195 to 206 and 909 to 1040, and changed.
#![tactic(auto)]

ghost use Rattle.std.specs.Prelude.{◌≡◌};
ghost use Rattle.limits.specs.Limits.{broken, code_of};
ghost use Rattle.fdist.specs.Fdist.{limits_of, searched_by, fdist_of};

use findf::Reflectrix;
use limits::Refusal;

mod pairs;
mod rays;
mod search;

pub use pairs::gives_spot;

// The layer of an empty slot.
pub const NO_LAYER: u32 = 5;

// Up to six rays of one hop length, as arrays: C has them so.
#[repr(C)]
#[derive(Clone, Copy)]
pub struct HopModes {
    pub delmod: [f32; 6],
    pub hpmod: [f32; 6],
    pub htmod: [f32; 6],
    pub fvmod: [f32; 6],
    pub itmod: [u32; 6],
    pub afmod: [f32; 6],
}

// The pairs tried; the rays, that is the slots that were accepted; the slots.
#[derive(Clone, Copy)]
pub struct Found {
    pub pairs: u32,
    pub rays: u32,
    pub m: HopModes,
}

// An outcome as C gets it: the refusal's number, 0 where there is none, and slots that a refusal leaves as they came.
#[repr(C)]
#[derive(Drop)]
pub struct Searched {
    pub refusal: u32,
    pub pairs: u32,
    pub rays: u32,
    pub m: HopModes,
}

// Limits 5 to 7.
#[tactic(auto, using(limits::proofs::ChainLaws::chain), unfolding(crate::specs::Fdist::limits_of))]
fn numbers_of(ghop: f32, amind: f32, freq: f32) -> Result<(), Refusal>
    ensures { code_of result ≡ broken (limits_of ghop amind freq) }
{
    limits::check(limits::FREQ.holds(freq), Refusal::Freq)?;
    limits::check(limits::AMIND.holds(amind), Refusal::Amind)?;
    limits::check(limits::GHOP.holds(ghop), Refusal::Ghop)
}

// The rays of the hop length ghop, an angle at the Earth's centre in radians, over a lent reflectrix.
pub fn fdist_over(rfx: &Reflectrix, ghop: f32, amind: f32, freq: f32) -> Result<Found, Refusal>
    ensures { (m : HopModes) → searched_by result m ≡ fdist_of m rfx.now ghop amind freq }
{
    numbers_of(ghop, amind, freq)?;
    let dhopkm = ghop * arith::RZ;
    if dhopkm >= rfx.dmaxkm {
        return Ok(search::none());
    }
    Ok(search::search(rfx, dhopkm, amind, freq))
}

// By value: the same over its own copy of the reflectrix.
pub fn fdist(rfx: Reflectrix, ghop: f32, amind: f32, freq: f32) -> Result<Found, Refusal>
    ensures { (m : HopModes) → searched_by result m ≡ fdist_of m rfx ghop amind freq }
{
    fdist_over(&rfx, ghop, amind, freq)
}
