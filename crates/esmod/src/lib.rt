// Translated from hfcast-engine (commit bf34e8f9f3), src/voacap/modes.rs lines 1441 to 1561, and changed: the geometry alone, without what makes a loss.
// The rays of up to two hops by sporadic E.
#![tactic(auto)]

ghost use Rattle.std.specs.Prelude.{◌≡◌, ◌<◌, true, min};
ghost use Rattle.angles.specs.SinCos.{sin_of};
ghost use Rattle.limits.specs.Limits.{broken, code_of, hs_within, gcdkm_within};
ghost use Rattle.esmod.specs.Esmod.{point_of, empty_hop, del_of, hop_of, no_hops, sdmax_of, hops_of, modes_of, limits_of, esmod_of};

use arith::{PIO2, R2D, RZ, VOFL};
use limits::Refusal;

// What is asked: km points, each with its three fs and its hs; the path as an angle at the earth's centre and in km, which need not agree; the minimum angle, the frequency and the cutoff.
#[derive(Clone, Copy)]
pub struct EsJob {
    pub km: usize,
    pub fs: [[f32; 3]; 5],
    pub hs: [f32; 5],
    pub gcd: f32,
    pub gcdkm: f32,
    pub amind: f32,
    pub freq: f32,
    pub fsdead: f32,
}

// A slot: the take-off angle in degrees, the number of hops, the height of the layer in km, the delay in ms. -1 in all four where it is empty.
#[repr(C)]
#[derive(Clone, Copy)]
pub struct EsHop {
    pub b: f32,
    pub hn: f32,
    pub hp: f32,
    pub timed: f32,
}

// What C is answered, where there is no Result: the refusal's number, 0 where there is none, and the slots; both are empty where it is refused.
#[repr(C)]
#[derive(Drop)]
pub struct EsModes {
    pub refusal: u32,
    pub slot4: EsHop,
    pub slot5: EsHop,
}

fn empty() -> EsHop
    ensures { result ≡ empty_hop }
{
    EsHop {
        b: -1.0,
        hn: -1.0,
        hp: -1.0,
        timed: -1.0,
    }
}

// The take-off angle in radians.
#[tactic(auto, unfolding(crate::specs::Esmod::del_of))]
fn del(hs: f32, thet: f32, sine: f32) -> f32
    requires { sine ≡ sin_of thet }
    ensures { result ≡ del_of hs thet }
{
    let psi = angles::atan(sine / (1.0 - angles::cos(thet) + hs / RZ));
    PIO2 - thet - psi
}

// `gp` is the number of hops. One sine serves the angle and the path.
fn hop(hs: f32, gcd: f32, amind: f32, gp: f32) -> EsHop
    ensures { result ≡ hop_of hs gcd amind gp }
{
    let thet = 0.5 * (gcd / gp);
    let sine = angles::sin(thet);
    let del = del(hs, thet, sine);
    let b = del * R2D;
    if b < amind {
        return empty();
    }
    let path = gp * (2.0 * sine * (RZ + hs) / angles::cos(del));
    EsHop {
        b,
        hn: gp,
        hp: hs,
        timed: path / VOFL,
    }
}

// Both slots empty, with the number of a refusal or 0.
fn no_hops(refusal: u32) -> EsModes
    ensures { result ≡ no_hops refusal }
{
    EsModes {
        refusal,
        slot4: empty(),
        slot5: empty(),
    }
}

fn sdmax(hs: f32) -> f32
    ensures { result ≡ sdmax_of hs }
{
    2.0 * RZ * (PIO2 - angles::asin(1.0 / (1.0 + hs / RZ)))
}

// The first number of hops that can reach is cut by comparison: within the limits it is at least 1.
fn hops(hs: f32, gcd: f32, gcdkm: f32, amind: f32) -> EsModes
    requires { (hs_within hs ≡ true) × (gcdkm_within gcdkm ≡ true) }
    ensures { result ≡ hops_of hs gcd gcdkm amind }
{
    let first = gcdkm / sdmax(hs) + 1.0;
    if first >= 3.0 {
        return no_hops(0);
    }
    let two = hop(hs, gcd, amind, 2.0);
    if first >= 2.0 {
        return EsModes {
            refusal: 0,
            slot4: two,
            slot5: empty(),
        };
    }
    EsModes {
        refusal: 0,
        slot4: hop(hs, gcd, amind, 1.0),
        slot5: two,
    }
}

impl EsJob {
    // The point with the smallest middle fs, the first of equals, of the first km, at most 5: the point that governs.
    pub fn point(&self) -> usize
        ensures value { result ≡ point_of self.now.fs (min self.now.km 5) }
        ensures upper_bound { result < 5 }
    {
        (0..self.km.min(5)).fold(0, |k, is| {
            if self.fs[k][1] - self.fs[is][1] > 0.0 {
                is
            } else {
                k
            }
        })
    }

    // The limits, in their order.
    #[tactic(auto, using(limits::proofs::ChainLaws::chain), unfolding(crate::specs::Esmod::limits_of))]
    pub fn check(&self) -> Result<(), Refusal>
        ensures { code_of result ≡ broken (limits_of self.now.km self.now.fs self.now.hs self.now.gcd self.now.gcdkm self.now.amind self.now.freq self.now.fsdead) }
    {
        limits::check(limits::FREQ.holds(self.freq), Refusal::Freq)?;
        limits::check(limits::AMIND.holds(self.amind), Refusal::Amind)?;
        let es = limits::es_within(
            self.km,
            &self.fs,
            &self.hs,
            self.gcd,
            self.gcdkm,
            self.fsdead,
        );
        limits::check(es, Refusal::Es)
    }

    // By the chosen point's middle fs and hs.
    fn modes(&self, fs: f32, hs: f32) -> EsModes
        requires { (hs_within hs ≡ true) × (gcdkm_within self.now.gcdkm ≡ true) }
        ensures { result ≡ modes_of fs hs self.now.gcd self.now.gcdkm self.now.amind self.now.freq self.now.fsdead }
    {
        if self.freq <= self.fsdead {
            return no_hops(0);
        }
        if fs <= 0.0 {
            return no_hops(0);
        }
        hops(hs, self.gcd, self.gcdkm, self.amind)
    }

    pub fn esmod(&self) -> EsModes
        ensures { result ≡ esmod_of self.now.km self.now.fs self.now.hs self.now.gcd self.now.gcdkm self.now.amind self.now.freq self.now.fsdead }
    {
        let checked = self.check();
        let Ok(()) = checked else {
            return no_hops(limits::code(checked));
        };
        let k = self.point();
        self.modes(self.fs[k][1], self.hs[k])
    }
}
