// The constants of the source, and the methods of Rust's f32 that it uses, written out.
#![tactic(auto)]

ghost use Rattle.std.specs.Prelude.{◌≡◌};
ghost use Rattle.arith.specs.Floats.{abs_of, min_of, max_of};

// The Earth's radius in km, degrees to radians and back, a right angle (document 01, "Constants").
pub const RZ: f32 = 6370.0;

pub const D2R: f32 = 0.01745329251;

pub const R2D: f32 = 57.295779513;

pub const PIO2: f32 = 1.570796326;

// The speed of light, in km a millisecond.
pub const VOFL: f32 = 299.79246;

// x.abs()
pub fn abs(x: f32) -> f32
    ensures { result ≡ abs_of x }
{
    x.abs()
}

// a.min(b). Std's leaves open which of two zeros it gives, and the definition does not; so does its max.
pub fn min(a: f32, b: f32) -> f32
    ensures { result ≡ min_of a b }
{
    if b < a {
        b
    } else if a == a {
        a
    } else {
        b
    }
}

// a.max(b)
pub fn max(a: f32, b: f32) -> f32
    ensures { result ≡ max_of a b }
{
    if a < b {
        b
    } else if a == a {
        a
    } else {
        b
    }
}
