// An f32 against a bound, and as a whole number of small units.
ghost use Rattle.std.specs.Prelude.{◌≡◌, ◌^◌, ◌<◌, ◌≤◌, T};
ghost use Rattle.std.specs.Float.Ieee.Scale.{finite};
ghost use Rattle.arith.specs.Floats.{scaled};
ghost use Rattle.angles.specs.Grid.{within};

// |x| <= w; false at NaN.
pub(crate) fn is_within(x: f32, w: f32) -> bool
    ensures { result ≡ within w x }
{
    -w <= x && x <= w
}

// |x| * 2^k, cut. The 24 digits of x are put at the top of 64 bits and shifted down once.
pub(crate) fn scaled_by(k: u64, x: f32) -> u64
    requires fact_1 { k ≤ 100 }
    requires fact_2 { T (finite x) }
    requires fact_3 { scaled k x < 2 ^ 64 }
    ensures { result ≡ scaled k x }
{
    let b = (f32::to_bits(x) & 0x7fff_ffff) as u64;
    // It does not wrap. Where a plain difference stood, the shift waited for the call before, by a partial register: 7 ns.
    let s = std::num::wrapping_sub_u64(190 - k, b >> 23);
    if s < 64 {
        let d = (b & 0x7f_ffff) + 0x80_0000;
        (d * 1099511627776) >> s
    } else {
        0
    }
}
