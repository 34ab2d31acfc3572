// The arctangent.
ghost use Rattle.std.specs.Prelude.{◌≡◌, ◌^◌, ◌≤◌, not, T, is_nan};
ghost use Rattle.angles.specs.Requires.{Steep};
ghost use Rattle.angles.specs.Arctangent.{atan_top, atan_low, atan_high, atan_steps, atan_units, atan_of};

use super::grid::in_steps;
use super::guess::{QUARTER, in_256ths, magnitude, tangent_arc};
use super::scale::{is_within, scaled_by};
use super::search;
use super::search::{Arc, Check, HALF_STEP, Sides};
use super::series::{cos_parts, high_product, sin_parts};

#[derive(Clone, Copy)]
struct Tangent;

// min(|x|, 2^23) * 2^40, cut.
fn units(x: f32) -> u64
    ensures { (result ≡ atan_units x) × (result ≤ 2 ^ 63) }
{
    if is_within(x, 8388608.0) {
        scaled_by(40, x)
    } else {
        9223372036854775808
    }
}

// What the test's sides part by at the least, from j - 1 to j + 1: by the sine's rise and by the cosine's fall, less what the evaluation can have lost; 0 where no line says it.
fn slack(t: u64, j: u64) -> u64
    requires { t ≤ 2 ^ 63 }
    ensures { (result ≤ 2 ^ 60) × Steep (atan_low t) (atan_high t) atan_top result j }
{
    if j > 6588396 {
        0
    } else {
        let rise = 6586998u64.saturating_sub(j);
        let fall = high_product(t, j.saturating_sub(1) * 16777216);
        (5120 * (rise + fall) / 16777216).saturating_sub(64)
    }
}

impl Arc for Tangent {
    ghost top = { atan_top };

    ghost largest = { 2 ^ 63 };

    ghost low = { λ a t k. atan_low t k };

    ghost high = { λ a t k. atan_high t k };

    fn top() -> u64 {
        6588397
    }

    fn sides(self, k: u64, t: u64) -> Sides {
        let n = (2 * k + 1) * HALF_STEP;
        let s = sin_parts(n);
        let c = cos_parts(n);
        let down = high_product(t, c.minus);
        let up = high_product(t, c.plus);
        Sides {
            low: (s.plus >> 24) + down + 16,
            high: up + (s.minus >> 24),
        }
    }

    fn check(self, j: u64, t: u64) -> Option<Check> {
        Some(Check {
            sides: self.sides(j, t),
            lack: 0,
            slack: slack(t, j),
        })
    }
}

// The arctangent of t * 2^-40, in steps of 2^-22, by the guess h.
fn steps(t: u64, h: u32) -> u64
    requires { t ≤ 2 ^ 63 }
    ensures { result ≡ atan_steps t }
{
    if t <= 131072 {
        0
    } else {
        search::steps(Tangent, t, h)
    }
}

// By the argument's size.
fn guess(size: f64) -> u32 {
    if size > 1.0 {
        // Past 2^23 the recipe's argument is 2^23.
        let c = if size < 8388608.0 { size } else { 8388608.0 };
        in_256ths(QUARTER - tangent_arc(1.0 / c))
    } else {
        in_256ths(tangent_arc(size))
    }
}

pub fn atan(x: f32) -> f32
    ensures { result ≡ atan_of x }
{
    // NaN alone is not equal to itself.
    if x == x {
        in_steps(steps(units(x), guess(magnitude(x))), x < 0.0)
    } else {
        0.0 / 0.0
    }
}
