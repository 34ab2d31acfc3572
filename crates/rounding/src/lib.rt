// A float as a whole number of decimal units, rounded, and how many columns its text takes: all by value.
#![tactic(auto)]

mod sized;

ghost use Rattle.std.specs.Prelude.{◌≡◌, ◌<◌, ◌≤◌, ◌^◌, min, length, IfSome, MatchOption};
ghost use Rattle.rounding.specs.Decimals.{signed, size_of, shown_in, float_text, text_of, fraction_of, exponent_of, significand, field};
ghost use Rattle.rounding.specs.Decimals as meant;

pub use sized::{tenths_of, thousandths_of};

// What is to be shown of a float: a name; a bound, since it is too long; or so many units of 10 ^ -places. `below` says that it is below 0.
#[derive(Clone, Copy, Debug, PartialEq, Eq)]
pub enum Shown {
    Nan,
    Infinity {
        below: bool,
    },
    Bound {
        below: bool,
    },
    Number {
        below: bool,
        units: u64,
        places: usize,
    },
}

// The size of a float below 2 ^ 49, significand * 2 ^ (field - 150): a subnormal has the exponent's field 1.
#[derive(Clone, Copy)]
pub(crate) struct Magnitude {
    significand: u64,
    field: u64,
    ghost significand_bound: { significand < 2 ^ 24 },
    ghost field_bound: { field < 176 },
}

// n / p, to the nearest, ties to even; 0 where p is 0.
pub fn nearest(n: u64, p: u64) -> u64
    ensures value { 0 < p → result ≡ meant.nearest n p }
    ensures zero { p ≡ 0 → result ≡ 0 }
{
    if p == 0 {
        return 0;
    }
    let q = n / p;
    let r = n % p;
    if p - r < r + q % 2 {
        return q + 1;
    }
    q
}

impl Magnitude {
    // By the float's bits: none of an infinity, of NaN, and from 2 ^ 49 on.
    pub(crate) fn of(w: u32) -> Option<Magnitude>
        ensures near { MatchOption result (175 < exponent_of w) (λ x. exponent_of w ≤ 175) }
        ensures significand { IfSome result (λ x. x.significand ≡ significand (fraction_of w) (exponent_of w)) }
        ensures field { IfSome result (λ x. x.field ≡ field (exponent_of w)) }
    {
        let f = (w % 0x80_0000) as u64;
        let e = (w / 0x80_0000 % 0x100) as u64;
        if e > 175 {
            None
        } else if e == 0 {
            Some(Magnitude {
                significand: f,
                field: 1,
            })
        } else {
            Some(Magnitude {
                significand: f + 0x80_0000,
                field: e,
            })
        }
    }

    // Times t, to the nearest whole number.
    pub(crate) fn units(self, t: u64) -> u64
        requires { t < 2 ^ 10 }
        ensures { result ≡ meant.units self.significand self.field t }
    {
        let n = self.significand * t;
        if self.field < 100 {
            0
        } else if self.field < 150 {
            nearest(n, 1 << (150 - self.field))
        } else {
            n << (self.field - 150)
        }
    }

    // With as many decimals as fit, `places` at most.
    fn fitting(self, below: bool, width: usize, places: usize) -> Shown
        requires { places ≤ 3 }
        ensures { text_of width result ≡ shown_in below self.significand self.field width places }
    {
        // A loop: `find_map` would take the same lines as a closure, and a default behind it.
        for left in (0..places + 1).rev() {
            let units = self.units(power(left));
            if columns(below, units, left) <= width {
                return Shown::Number {
                    below,
                    units,
                    places: left,
                };
            }
        }
        Shown::Bound { below }
    }
}

// 10 to the power of `places`, 3 at most.
pub fn power(places: usize) -> u64
    ensures value { result ≡ 10 ^ min places 3 }
    ensures result_nonzero { 0 < result }
    ensures upper_bound { result < 2 ^ 10 }
{
    10u64.pow(places.min(3) as u32)
}

// How many digits n has.
pub fn size(n: u64) -> usize
    ensures { result ≡ size_of n }
{
    n.max(1).ilog10() as usize + 1
}

// The columns of a point and `places` digits, 3 at most.
fn point(places: usize) -> usize
    ensures value { result ≡ length (meant.point (min places 3) 0) }
    ensures upper_bound { result ≤ 4 }
{
    if places == 0 { 0 } else { places.min(3) + 1 }
}

// The columns of n units of 10 ^ -places, with a minus where it is below 0.
pub fn columns(below: bool, n: u64, places: usize) -> usize
    ensures { result ≡ length (signed below (min places 3) n) }
{
    let all = size(n / power(places)) + point(places);
    if below && n > 0 { all + 1 } else { all }
}

// What is to be shown of a float by its bits, with at most `places` decimals in at most `width` columns.
pub fn rounded(w: u32, places: usize, width: usize) -> Shown
    ensures { text_of width result ≡ float_text w places width }
{
    let below = w >= 0x8000_0000;
    if let Some(x) = Magnitude::of(w) {
        return x.fitting(below, width, places.min(3));
    }
    if w / 0x80_0000 % 0x100 < 255 {
        Shown::Bound { below }
    } else if w % 0x80_0000 > 0 {
        Shown::Nan
    } else {
        Shown::Infinity { below }
    }
}
