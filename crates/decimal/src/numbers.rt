// Numbers on a page. std's `fmt` has no form for as many decimals as fit the columns, nor for `>999`.
#![tactic(auto, using(crate::proofs::PageLaws::pages, rounding::proofs::DecimalsLaws::length_digits), unfolding(rounding::specs::Decimals::digits, rounding::specs::Decimals::fixed, rounding::specs::Decimals::signed, rounding::specs::Decimals::bound_text, rounding::specs::Decimals::tenths_text))]

ghost use Rattle.std.specs.Prelude.{◌≡◌, cond, ◌<◌, ◌≤◌, min};
ghost use Rattle.rounding.specs.Decimals as meant;
ghost use Rattle.rounding.specs.Decimals.{bound_text, signed, text_of, float_text, tenths_text, right_in};
ghost use Rattle.decimal.specs.Page.{added, hex_text};

use crate::Page;
use rounding::Shown;

fn glyph(d: u64) -> u8
    requires { d < 16 }
    ensures { result ≡ meant.glyph d }
{
    if d < 10 {
        return b'0' + d as u8;
    }
    b'A' - 10 + d as u8
}

fn least(width: usize, pad: bool) -> usize
    ensures value { result ≡ cond pad width 0 }
    ensures upper_bound { result ≤ width }
{
    if pad { width } else { 0 }
}

impl<'a> Page<'a> {
    // The last k digits of n.
    fn digits(&mut self, base: u64, k: usize, n: u64)
        requires base_nonzero { 0 < base }
        requires base_bound { base ≤ 16 }
        ensures { self.new ≡ added self.old (meant.digits base k n) }
    {
        if k > 0 {
            self.digits(base, k - 1, n / base);
            self.put(glyph(n % base));
        }
    }

    fn minus(&mut self, below: bool, n: u64)
        ensures { self.new ≡ added self.old (meant.minus below n) }
    {
        if below && n > 0 {
            self.put(b'-');
        }
    }

    // A point and the last `places` digits of n, 3 at most.
    fn point(&mut self, places: usize, n: u64)
        ensures { self.new ≡ added self.old (meant.point (min places 3) n) }
    {
        if places > 0 {
            self.put(b'.');
            self.digits(10, places.min(3), n);
        }
    }

    // n units of 10 ^ -places, 3 places at most.
    fn fixed(&mut self, places: usize, n: u64)
        ensures { self.new ≡ added self.old (meant.fixed (min places 3) n) }
    {
        let whole = n / rounding::power(places);
        self.digits(10, rounding::size(whole), whole);
        self.point(places, n);
    }

    fn number(&mut self, below: bool, n: u64, places: usize, least: usize)
        ensures { self.new ≡ added self.old (right_in least (signed below (min places 3) n)) }
    {
        self.fill(
            b' ',
            least.saturating_sub(rounding::columns(below, n, places)),
        );
        self.minus(below, n);
        self.fixed(places, n);
    }

    // `>` or `<-` and nines to the width: what is too long for its columns.
    fn bound(&mut self, below: bool, width: usize)
        ensures { self.new ≡ added self.old (bound_text below width) }
    {
        if below {
            self.text(b"<-");
            self.fill(b'9', width.saturating_sub(2));
        } else {
            self.put(b'>');
            self.fill(b'9', width.saturating_sub(1));
        }
    }

    // What is to be shown of a float, right in the `least` columns.
    fn show(&mut self, s: Shown, width: usize, least: usize)
        requires { least ≤ width }
        ensures { self.new ≡ added self.old (right_in least (text_of width s)) }
    {
        match s {
            Shown::Nan => self.right(b"NaN", least),
            Shown::Infinity { below: true } => self.right(b"-inf", least),
            Shown::Infinity { below: false } => self.right(b"inf", least),
            Shown::Bound { below } => self.bound(below, width),
            Shown::Number {
                below,
                units,
                places,
            } => self.number(below, units, places, least),
        }
    }

    // A float by its bits, with `places` decimals (3 at most) or as many as fit, in at most `width` columns; right in them where `pad`.
    pub fn float(&mut self, w: u32, places: usize, width: usize, pad: bool)
        ensures { self.new ≡ added self.old (right_in (cond pad width 0) (float_text w places width)) }
    {
        self.show(
            rounding::rounded(w, places, width),
            width,
            least(width, pad),
        );
    }

    // A whole number, right in width columns.
    pub fn whole(&mut self, n: usize, width: usize)
        ensures { self.new ≡ added self.old (right_in width (meant.decimal n)) }
    {
        let k = rounding::size(n as u64);
        self.fill(b' ', width.saturating_sub(k));
        self.digits(10, k, n as u64);
    }

    // A whole number of tenths, with its decimal where that is not 0.
    pub fn tenths(&mut self, n: u32)
        ensures { self.new ≡ added self.old (tenths_text n) }
    {
        if n % 10 == 0 {
            let t = (n / 10) as u64;
            self.digits(10, rounding::size(t), t);
        } else {
            self.fixed(1, n as u64);
        }
    }

    // The eight hex digits of a word.
    pub fn hex(&mut self, w: u32)
        ensures { self.new ≡ added self.old (hex_text w) }
    {
        self.digits(16, 8, w as u64);
    }
}
