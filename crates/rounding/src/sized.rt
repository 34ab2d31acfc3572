// The size of a float as a whole number of tenths or thousandths.
ghost use Rattle.std.specs.Prelude.{◌≡◌, ◌<◌, ◌^◌, min};
ghost use Rattle.rounding.specs.Decimals.{units_of};

use crate::Magnitude;

fn sized(w: u32, t: u64, most: u32) -> u32
    requires t_nonzero { 0 < t }
    requires t_bound { t < 2 ^ 10 }
    ensures { result ≡ min (units_of w t) most }
{
    match Magnitude::of(w) {
        Some(x) => x.units(t).min(most as u64) as u32,
        None => most,
    }
}

// In tenths, to the nearest; `most` where it is more, or no number. This and the next are `sized` at one number each: a public `sized` would have to require that t fits.
pub fn tenths_of(w: u32, most: u32) -> u32
    ensures { result ≡ min (units_of w 10) most }
{
    sized(w, 10, most)
}

// In thousandths.
pub fn thousandths_of(w: u32, most: u32) -> u32
    ensures { result ≡ min (units_of w 1000) most }
{
    sized(w, 1000, most)
}
