// The square root of an f32: the nearest f32, by whole-number squares.
#![tactic(auto)]

ghost use Rattle.std.specs.Prelude.{◌≡◌, false, ◌+◌, ◌*◌, ◌^◌, ◌≤◌, ◌<◌};
ghost use Rattle.std.specs.Float.{binary32};
ghost use Rattle.std.specs.Float.Ieee.{of_bits, units};
ghost use Rattle.root.specs.Root.{nearest_root, sqrt_of};
ghost use Rattle.root.specs.Requires.{Apart};

// The bits of infinity.
const INFINITY: u32 = 0x7f80_0000;

// The f32 s * 2^(e - 298), with all of s's 24 digits in use.
#[derive(Drop)]
struct Parts {
    s: u64,
    e: u64,
}

// The finite f32 above 0 that has the bits b, taken apart. Above the written digits stands a 1, unless the exponent's field is 0.
fn take_apart(b: u32) -> Parts
    requires fact_1 { 0 < b }
    requires fact_2 { b < 0x7f800000 }
    ensures { Apart (of_bits binary32 b) result.s result.e }
{
    let field = (b >> 23) as u64;
    let digits = (b % 0x80_0000) as u64;
    if field == 0 {
        let zeros = (u64::leading_zeros(digits) - 40) as u64;
        Parts {
            s: digits << zeros,
            e: 149 - zeros,
        }
    } else {
        Parts {
            s: digits + 0x80_0000,
            e: field + 148,
        }
    }
}

// The f32 of r * 2^k smallest values.
fn put_together(r: u64, k: u64) -> f32
    requires fact_1 { 2 ^ 23 ≤ r }
    requires fact_2 { r ≤ 2 ^ 24 }
    requires fact_3 { k < 200 }
    ensures { result ≡ units binary32 false r k }
{
    f32::from_bits(((k << 23) + r) as u32)
}

// The bits of a number near 1/√w are these less half of w's.
const INVERSE: u64 = 0x5fe3_ffff_2000_0000;

// About 1/√w, to 7 in 10,000. Nothing is promised of it, nor of the guess but its size.
fn rough_inverse(w: f64) -> f64 {
    if w > 0.0 {
        let b = f64::to_bits(w);
        if b <= INVERSE {
            let y = f64::from_bits(INVERSE - (b >> 1));
            y * (1.68191391 - 0.703952009 * w * y * y)
        } else {
            0.0
        }
    } else {
        0.0
    }
}

// The last 25 binary digits of the whole number nearest to g: of g + 2^52 they are the last bits.
fn last_digits(g: f64) -> u64
    ensures { result < 2 ^ 25 }
{
    let h = g + 4503599627370496.0;
    if h > 0.0 {
        f64::to_bits(h) % 0x200_0000
    } else {
        0
    }
}

// A whole number above 0, of 48 binary digits at most.
#[derive(Clone, Copy)]
struct Radicand {
    w: u64,
    ghost above_zero: { 0 < w },
    ghost digits: { w < 2 ^ 48 },
}

impl Radicand {
    // About √w.
    fn guess(self) -> u64
        ensures { result < 2 ^ 25 }
    {
        let f = (self.w as i64) as f64;
        let y = rough_inverse(f);
        let g = f * y;
        let e = 1.0 - g * y;
        last_digits(g + g * e * (0.5 + 0.375 * e))
    }

    // The first r from the guess downward with (r - 1/2)² below w. A search for a number: there is no index to count.
    fn lower(self) -> u64
        ensures fact_1 { result * result < self.w + result }
        ensures fact_2 { result < 2 ^ 25 }
    {
        let mut r = self.guess();
        while self.w + r <= r * r {
            r -= 1;
        }
        r
    }

    // The whole number nearest to √w, whatever the guess: the first r from there upward with (r + 1/2)² above w. No index here either.
    fn nearest_root(self) -> u64
        ensures { result ≡ nearest_root self.w }
    {
        let mut r = self.lower();
        while r * r + r < self.w {
            r += 1;
        }
        r
    }
}

// The root of the finite f32 above 0 that has the bits b.
fn root_of_bits(b: u32) -> f32
    requires fact_1 { 0 < b }
    requires fact_2 { b < 0x7f800000 }
    ensures { result ≡ sqrt_of (of_bits binary32 b) }
{
    let p = take_apart(b);
    let radicand = Radicand {
        w: (p.s << 24) >> (p.e % 2),
    };
    put_together(radicand.nearest_root(), (p.e - 23) / 2)
}

// The square root of x: the nearest f32. NaN for NaN and below 0; -0, +0 and infinity are their own.
pub fn sqrt(x: f32) -> f32
    ensures { result ≡ sqrt_of x }
{
    if x > 0.0 {
        let b = f32::to_bits(x);
        if b == INFINITY { x } else { root_of_bits(b) }
    } else if x == 0.0 {
        x
    } else {
        0.0 / 0.0
    }
}
