// Translated from hfcast-engine (commit bf34e8f9f3), src/voacap/modes.rs lines 584 to 596, and changed.
#![tactic(auto)]

ghost use Rattle.std.specs.Prelude.{◌≡◌};
ghost use Rattle.fnorml.specs.Fnorml.{tail_of, size_of, fnorml_of};

const C: [f32; 4] = [0.196854, 0.115194, 0.000344, 0.019527];

// The part of the normal curve beyond x.
pub fn tail(x: f32) -> f32
    ensures { result ≡ tail_of x }
{
    let q = 1.0 + x * (C[0] + x * (C[1] + x * (C[2] + x * C[3])));
    0.5 * (1.0 / (q * q * q * q))
}

// The size of y, clamped at 5.
pub fn size(y: f32) -> f32
    ensures { result ≡ size_of y }
{
    arith::min(arith::abs(y), 5.0)
}

// The cumulative normal distribution.
pub fn fnorml(ypx: f32) -> f32
    ensures { result ≡ fnorml_of ypx }
{
    let qx = tail(size(ypx));
    if ypx < 0.0 { qx } else { 1.0 - qx }
}
