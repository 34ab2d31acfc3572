// Translated from hfcast-engine (commit bf34e8f9f3), src/voacap/modes.rs lines 601 to 668, and changed.
// The penetration angles of the three layers.
#![tactic(auto)]

ghost use Rattle.std.specs.Prelude.{◌≡◌, true, false, MatchOption};
ghost use Rattle.std.specs.Float.Ieee.{le};
ghost use Rattle.arith.specs.Floats.{◌⊗◌};
ghost use Rattle.angles.specs.Arccosine.{acos_of};
ghost use Rattle.penang.specs.Penang.{frat_of, cusp_of, xm_of, cdel_of, f2_of, penang_of};

use arith::{R2D, RZ};

// The cosine up to which an angle is taken.
const COS_CAP: f32 = 0.999999;

// The three angles, and `dead` where the Rust sets dskpkm and dmaxkm to -1. No Option: the angles are read where dead too.
#[derive(Drop)]
pub struct Penetration {
    pub delpen: [f32; 3],
    pub dead: bool,
}

fn frat(fv: f32, freq: f32) -> f32
    ensures { result ≡ frat_of fv freq }
{
    let frat = fv / freq;
    frat * frat
}

// The angle with this cosine, in degrees; none where it is above the cap, or NaN.
fn angle(cos: f32) -> Option<f32>
    ensures { MatchOption result (le cos COS_CAP ≡ false) (λ a. (le cos COS_CAP ≡ true) × (a ≡ acos_of cos ⊗ R2D)) }
{
    if cos <= COS_CAP {
        Some(angles::acos(cos) * R2D)
    } else {
        None
    }
}

fn cusp(ht: f32, frat: f32) -> f32
    ensures { result ≡ cusp_of ht frat }
{
    angle((RZ + ht) * root::sqrt(1.0 - frat) / RZ).unwrap_or(0.0)
}

fn xm(fv: f32, ht: f32, freq: f32) -> f32
    ensures { result ≡ xm_of fv ht freq }
{
    (RZ + ht) * root::sqrt(1.0 - frat(fv, freq))
}

// Not a maximum: a NaN among the three goes by the branches.
fn cdel(xm28: f32, xm29: f32, xm30: f32) -> f32
    ensures { result ≡ cdel_of xm28 xm29 xm30 }
{
    if xm30 >= xm29 {
        if xm30 >= xm28 { xm30 / RZ } else { xm28 / RZ }
    } else if xm29 >= xm28 {
        xm29 / RZ
    } else {
        xm28 / RZ
    }
}

fn f2(fvert: &[f32; 30], htrue: &[f32; 30], freq: f32, e: f32, f1: f32) -> Penetration
    ensures { result ≡ f2_of fvert.now htrue.now freq e f1 }
{
    if fvert[29] - freq + 0.0001 >= 0.0 {
        return Penetration {
            delpen: [e, f1, 89.9],
            dead: false,
        };
    }
    let cdel = cdel(
        xm(fvert[27], htrue[27], freq),
        xm(fvert[28], htrue[28], freq),
        xm(fvert[29], htrue[29], freq),
    );
    match angle(cdel) {
        Some(f2) => Penetration {
            delpen: [e, f1, f2],
            dead: false,
        },
        None => Penetration {
            delpen: [e, f1, 0.0],
            dead: true,
        },
    }
}

// `second` is the point's second number: above 0 where there is an F1 layer.
pub fn penang(fvert: &[f32; 30], htrue: &[f32; 30], second: f32, freq: f32) -> Penetration
    ensures { result ≡ penang_of fvert.now htrue.now second freq }
{
    let frat_e = frat(fvert[9], freq);
    if frat_e >= 0.9999 {
        return Penetration {
            delpen: [89.9, 90.0, 90.0],
            dead: false,
        };
    }
    let e = cusp(htrue[9], frat_e);
    if second > 0.0 {
        let frat_f1 = frat(fvert[19], freq);
        if frat_f1 >= 0.9999 {
            return Penetration {
                delpen: [e, 89.9, 90.0],
                dead: false,
            };
        }
        return f2(fvert, htrue, freq, e, cusp(htrue[19], frat_f1));
    }
    f2(fvert, htrue, freq, e, e)
}
