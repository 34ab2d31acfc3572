// The arcsine.
ghost use Rattle.std.specs.Prelude.{◌≡◌, ◌+◌, ◌^◌, ◌<◌, ◌≤◌};
ghost use Rattle.angles.specs.Arcsine.{asin_top, asin_low, asin_high, asin_steps, asin_of};

use super::grid::in_steps;
use super::guess::{in_256ths, magnitude, sine_arc};
use super::scale::{is_within, scaled_by};
use super::search;
use super::search::{Arc, Check, HALF_STEP, Sides};
use super::series::{Parts, short_sin_parts, sin_parts};

#[derive(Clone, Copy)]
struct Sine;

// The sine's sides, by its parts at the half step.
fn sides_of(p: Parts, t: u64) -> Sides
    requires { (p.plus ≤ 2 ^ 63) × ((p.minus ≤ 2 ^ 63) × (t ≤ 2 ^ 57)) }
    ensures { (result.low ≡ p.plus + 64) × (result.high ≡ t + p.minus) }
{
    Sides {
        low: p.plus + 64,
        high: t + p.minus,
    }
}

impl Arc for Sine {
    ghost top = { asin_top };

    ghost largest = { 2 ^ 57 };

    ghost low = { λ a t k. asin_low k };

    ghost high = { λ a t k. asin_high t k };

    fn top() -> u64 {
        6588397
    }

    fn sides(self, k: u64, t: u64) -> Sides {
        sides_of(sin_parts((2 * k + 1) * HALF_STEP), t)
    }

    // By the short evaluation: each side lacks at most 2^20. Exact ones part by at least 5120 * (6588394 - j), and past 6586998 no line says by how much.
    fn check(self, j: u64, t: u64) -> Option<Check> {
        if j > 6586998 {
            None
        } else {
            Some(Check {
                sides: sides_of(short_sin_parts((2 * j + 1) * HALF_STEP), t),
                lack: 1048576,
                slack: 5120 * (6588394 - j),
            })
        }
    }
}

// The arcsine of t * 2^-57, in steps of 2^-22, by the guess h.
fn steps(t: u64, h: u32) -> u64
    requires { t ≤ 2 ^ 57 }
    ensures { result ≡ asin_steps t }
{
    if t < 17179869184 {
        0
    } else {
        search::steps(Sine, t, h)
    }
}

// By the argument's size.
fn guess(size: f64) -> u32 {
    in_256ths(sine_arc(size))
}

pub fn asin(x: f32) -> f32
    ensures { result ≡ asin_of x }
{
    if is_within(x, 1.0) {
        in_steps(steps(scaled_by(57, x), guess(magnitude(x))), x < 0.0)
    } else {
        0.0 / 0.0
    }
}
