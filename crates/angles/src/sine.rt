// The sine.
ghost use Rattle.std.specs.Prelude.{◌≡◌};
ghost use Rattle.angles.specs.SinCos.{sin_of};

use super::difference::difference_of;
use super::scale::{is_within, scaled_by};
use super::series::sin_parts;

// Like cos but for the series and the sign: one function of both would take them as closures, for these two lines.
pub fn sin(x: f32) -> f32
    ensures { result ≡ sin_of x }
{
    if is_within(x, 4.0) {
        let p = sin_parts(scaled_by(61, x));
        difference_of(p.plus, p.minus, x < 0.0)
    } else {
        0.0 / 0.0
    }
}
