// Translated from hfcast-engine (commit bf34e8f9f3), src/voacap/modes.rs lines 983 to 1028, and changed.
ghost use Rattle.std.specs.Prelude.{◌≡◌, ◌<◌};
ghost use Rattle.fdist.specs.Rays.{row_of, spot_of, given_of};
ghost use Rattle.fdist.specs.Requires.{Within};

use crate::pairs::Pair;
use findf::Reflectrix;

// Angle, virtual height, true height, vertical frequency, absorption factor and layer.
#[derive(Drop)]
pub(crate) struct Ray {
    pub(crate) del: f32,
    pub(crate) hp: f32,
    pub(crate) ht: f32,
    pub(crate) fv: f32,
    pub(crate) af: f32,
    pub(crate) layer: u32,
}

fn row_ray(rfx: &Reflectrix, i: usize) -> Ray
    requires { i < 45 }
    ensures { result ≡ row_of rfx.now i }
{
    Ray {
        del: rfx.delfx[i],
        hp: rfx.hpflx[i],
        ht: rfx.htflx[i],
        fv: rfx.fvflx[i],
        af: rfx.afflx[i],
        layer: rfx.imode[i],
    }
}

// The spot between rows a and b that lies dth of dth2 from a, by the geometry of the hop and Snell's law.
fn spot_ray(a: Ray, b: Ray, dth: f32, dth2: f32, d: f32, freq: f32) -> Ray
    ensures { result ≡ spot_of a b dth dth2 d freq }
{
    let thet = 0.5 * d / arith::RZ;
    let hp = a.hp + (b.hp - a.hp) * dth / dth2;
    let ht = a.ht + (b.ht - a.ht) * dth / dth2;
    let af = a.af + (b.af - a.af) * dth / dth2;
    let st = angles::sin(thet);
    let tanp = st / (1.0 - angles::cos(thet) + hp / arith::RZ);
    let phe = angles::atan(tanp);
    let del = (arith::PIO2 - phe - thet) * arith::R2D;
    let sphi = arith::RZ * angles::cos(del * arith::D2R) / (arith::RZ + ht);
    let cphi2 = arith::max(1.0 - sphi * sphi, 0.000001);
    let fv = freq * root::sqrt(cphi2);
    Ray {
        del,
        hp,
        ht,
        fv,
        af,
        layer: a.layer,
    }
}

// The ray that a tried pair gives, if it gives one.
pub(crate) fn ray_given(rfx: &Reflectrix, d: f32, freq: f32, i: usize, pair: Pair) -> Option<Ray>
    requires { (i < 44) × Within i pair }
    ensures { result ≡ given_of (row_of rfx.now) d freq i pair }
{
    match pair {
        Pair::Nothing => None,
        Pair::Row(k) => Some(row_ray(rfx, k)),
        Pair::Spot(dth, dth2) => {
            let a = row_ray(rfx, i);
            let b = row_ray(rfx, i + 1);
            Some(spot_ray(a, b, dth, dth2, d, freq))
        }
    }
}
