// The arccosine.
ghost use Rattle.std.specs.Prelude.{◌≡◌, ℕ, ◌^◌, ◌≤◌};
ghost use Rattle.angles.specs.Requires.{Steep};
ghost use Rattle.angles.specs.Arccosine.{acos_top, acos_low, acos_high, acos_steps, acos_of};

use super::grid::in_steps;
use super::guess::{QUARTER, in_256ths, magnitude, sine_arc};
use super::scale::{is_within, scaled_by};
use super::search;
use super::search::{Arc, Check, HALF_STEP, Sides};
use super::series::cos_parts;

// The cosine's arc at an argument not below 0, or below it where `neg`.
#[derive(Clone, Copy)]
struct Cosine {
    neg: bool,
}

// What the test's sides part by at the least, from j - 1 to j + 1; 0 where no line says it.
fn slack(neg: bool, j: u64) -> u64
    ensures { (result ≤ 2 ^ 40) × ((t : ℕ) → Steep (acos_low neg t) (acos_high neg t) acos_top result j) }
{
    match (neg, j) {
        (false, 1..=6588998) => 5120 * (j - 1),
        (true, 6588251..=13175442) => 5120 * (13176793 - j),
        _ => 0,
    }
}

impl Arc for Cosine {
    ghost top = { acos_top };

    ghost largest = { 2 ^ 57 };

    ghost low = { λ a t k. acos_low a.neg t k };

    ghost high = { λ a t k. acos_high a.neg t k };

    fn top() -> u64 {
        13176794
    }

    fn sides(self, k: u64, t: u64) -> Sides {
        let p = cos_parts((2 * k + 1) * HALF_STEP);
        if self.neg {
            Sides {
                low: p.minus + 64,
                high: p.plus + t,
            }
        } else {
            Sides {
                low: t + 65 + p.minus,
                high: p.plus,
            }
        }
    }

    fn check(self, j: u64, t: u64) -> Option<Check> {
        Some(Check {
            sides: self.sides(j, t),
            lack: 0,
            slack: slack(self.neg, j),
        })
    }
}

// The arccosine of t * 2^-57, negated where neg is true, in steps of 2^-22, by the guess h.
fn steps(neg: bool, t: u64, h: u32) -> u64
    requires { t ≤ 2 ^ 57 }
    ensures { result ≡ acos_steps neg t }
{
    search::steps(Cosine { neg }, t, h)
}

// By the argument's size.
fn guess(neg: bool, size: f64) -> u32 {
    let g = sine_arc(size);
    if neg {
        in_256ths(QUARTER + g)
    } else {
        in_256ths(QUARTER - g)
    }
}

pub fn acos(x: f32) -> f32
    ensures { result ≡ acos_of x }
{
    if is_within(x, 1.0) {
        let neg = x < 0.0;
        in_steps(
            steps(neg, scaled_by(57, x), guess(neg, magnitude(x))),
            false,
        )
    } else {
        0.0 / 0.0
    }
}
