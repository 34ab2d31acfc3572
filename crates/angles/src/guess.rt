// Guesses, in f64. Nothing is promised of them: a wrong one costs time and changes no answer. The coefficients are those of the host's program fit (host/src/fit.rs).
ghost use Rattle.std.specs.Prelude.{not, T, is_nan};

// A quarter turn in steps of 2^-22.
pub(crate) const QUARTER: f64 = 6588397.31666114207;

// |x|
pub(crate) fn magnitude(x: f32) -> f64
    requires { T (not (is_nan x)) }
{
    let w = x as f64;
    if w < 0.0 { -w } else { w }
}

// About 1/√u, to 7 in 10,000, for u from 0 to 2.
fn rough_root(u: f64) -> f64 {
    if u >= 0.0 {
        let b = f64::to_bits(u) >> 1;
        let v = f64::from_bits(6909647724535087104 - (b & 0x3fff_ffff_ffff_ffff));
        v * (1.6819139086872308 - 0.7039520091048295 * u * v * v)
    } else {
        0.0
    }
}

// g in 256ths.
pub(crate) fn in_256ths(g: f64) -> u32 {
    let h = g + 17592186044416.0;
    if h >= 0.0 {
        (f64::to_bits(h) & 0xffff_ffff) as u32
    } else {
        0
    }
}

// About the arccosine of a, from 63/64 to 1, in steps of 2^-22.
fn small_cosine_arc(a: f64) -> f64 {
    let u = 1.0 - a;
    let y = rough_root(u);
    let r = u * y;
    let e = 1.0 - r * y;
    let s = r * (5931641.615482469 + u * (494296.3273821581 + u * 112129.77964890505));
    s + s * e * (0.5 + 0.375 * e)
}

// About the arcsine of a, from 0 to 1, in steps of 2^-22.
pub(crate) fn sine_arc(a: f64) -> f64 {
    if a <= 0.984375 {
        let y = a * a;
        let y2 = y * y;
        let y4 = y2 * y2;
        let n0 = 4194304.043639123 - y * 16877672.350174814;
        let n1 = 26890874.316913847 - y * 21292824.844725385;
        let n2 = 8525790.775293903 - y * 1510245.1850721387 + y2 * 69795.57905814007;
        let d0 = 1.0 - y * 4.190616922041411;
        let d1 = 7.034715134186466 - y * 5.979373743933756;
        let d2 = 2.6582631147843845 - y * 0.5635648867126002 + y2 * 0.04058075200399934;
        a * (n0 + y2 * n1 + y4 * n2) / (d0 + y2 * d1 + y4 * d2)
    } else {
        QUARTER - small_cosine_arc(a)
    }
}

// About the arctangent of r, from 0 to 1, in steps of 2^-22.
pub(crate) fn tangent_arc(r: f64) -> f64 {
    let y = r * r;
    let y2 = y * y;
    let y4 = y2 * y2;
    let q0 = 4194303.918464103 - y * 1398094.9178771153;
    let q1 = 838711.3491123046 - y * 597571.8306523422;
    let q2 = 456256.8053667094 - y * 344510.1349205852;
    let q3 = 230804.5836844592 - y * 119498.97572151874;
    let q4 = 40128.33346134576 - y * 6330.476336318059;
    r * ((q0 + y2 * q1) + y4 * ((q2 + y2 * q3) + y4 * q4))
}
