// prbmuf.
ghost use Rattle.std.specs.Prelude.{◌≤◌};

use super::record;
use sigdis::{LayerMuf, MufHour};

pub(crate) const ANSWER: usize = 52;

pub(crate) const SIZE: usize = 60;

fn layer(r: &[u8], at: usize) -> LayerMuf
    requires { at ≤ 10000 }
{
    LayerMuf {
        sigl: record::float(r, at),
        sigu: record::float(r, at + 16),
    }
}

// The four lower deciles, the four upper ones, fmhz, fgo, fset, il; then the number and the chance, 0 where it is refused.
pub(crate) fn agrees(r: &[u8]) -> bool {
    let hour = MufHour {
        layers: [layer(r, 0), layer(r, 4), layer(r, 8), layer(r, 12)],
    };
    let p = sigdis::prbmuf(
        hour,
        record::float(r, 32),
        record::float(r, 36),
        record::float(r, 40),
        record::count(r, 44),
    );
    (words::word(r, ANSWER) == limits::code(p)) & record::has(r, 56, p.unwrap_or(0.0))
}
