// The cosine.
ghost use Rattle.std.specs.Prelude.{◌≡◌};
ghost use Rattle.angles.specs.SinCos.{cos_of};

use super::difference::difference_of;
use super::scale::{is_within, scaled_by};
use super::series::cos_parts;

// Like sin, which says why it stands alone.
pub fn cos(x: f32) -> f32
    ensures { result ≡ cos_of x }
{
    if is_within(x, 4.0) {
        let p = cos_parts(scaled_by(61, x));
        difference_of(p.plus, p.minus, false)
    } else {
        0.0 / 0.0
    }
}
