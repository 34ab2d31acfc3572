// What a word of four bytes stands for, and arrays of it.
ghost use Rattle.std.specs.Prelude.{◌≡◌, ℕ, ◌+◌, ◌-◌, ◌*◌, ◌^◌, ◌<◌, min, map, pos, refl};
ghost use Rattle.std.specs.Float.{binary32, nan};
ghost use Rattle.std.specs.Float.Ieee.{of_bits, to_bits};
ghost use Rattle.std.specs.Int.{w32};
ghost use Rattle.std.proofs.Common.{of_z, to_z, ap};
ghost use Rattle.std.proofs.lemmas.Int.{of_z-to_z};
ghost use lib.Ieee.Bits.{of_bits-to_bits, of_bits-fits};
ghost use Rattle.words.specs.Lists.{tab, put_at};
ghost use Rattle.words.specs.Words.{word_at, bytes_of};

use std::array;

// A type of which each value is one word.
pub trait Word: Copy {
    // The value of a word, the word of a value, and what a list of values has past its end.
    ghost from_word: { ℕ → Self };

    ghost to_word: { Self → ℕ };

    ghost past: { Self };

    fn from_word(w: u32) -> Self
        ensures { result ≡ from_word w };

    fn to_word(self) -> u32
        ensures { result ≡ to_word self };

    // What was read is read again from its own word.
    ghost back: { (w : ℕ) → w < 2 ^ 32 → from_word (to_word (from_word w)) ≡ from_word w };
}

impl Word for u32 {
    ghost from_word = { λ w. w };

    ghost to_word = { λ n. n };

    ghost past = { 0 };

    ghost back = { λ w h. refl };

    fn from_word(w: u32) -> u32 {
        w
    }

    fn to_word(self) -> u32 {
        self
    }
}

// In two's complement.
impl Word for i32 {
    ghost from_word = { to_z w32 };

    ghost to_word = { of_z w32 };

    ghost past = { pos 0 };

    ghost back = { λ w h. ap (to_z w32) (of_z-to_z w32 w h) };

    fn from_word(w: u32) -> i32 {
        super::int(w)
    }

    fn to_word(self) -> u32 {
        super::bits_of_int(self)
    }
}

// By its bits.
impl Word for f32 {
    ghost from_word = { of_bits binary32 };

    ghost to_word = { to_bits binary32 };

    ghost past = { nan };

    ghost back = { λ w h. of_bits-to_bits binary32 (of_bits binary32 w) (of_bits-fits binary32 w) };

    fn from_word(w: u32) -> f32 {
        super::float(w)
    }

    fn to_word(self) -> u32 {
        super::bits(self)
    }
}

// The first byte of word i from `at` on; where that is no usize, past every slice.
fn place(at: usize, i: usize) -> usize
    ensures { result ≡ min (at + 4 * i) (2 ^ 64 - 1) }
{
    i.saturating_mul(4).saturating_add(at)
}

// The N words from `at` on.
pub fn array_at<W: Word, const N: usize>(s: &[u8], at: usize) -> [W; N]
    ensures { result ≡ tab N (λ i. W.from_word (word_at s.now (at + 4 * i))) }
{
    array::from_fn(|i| W::from_word(super::word(s, place(at, i))))
}

// Writes one word after the other from `at` on.
pub fn put_all<W: Word>(out: &mut [u8], at: usize, xs: &[W])
    ensures { out.new ≡ put_at out.old at (bytes_of (map W.to_word xs.now)) }
{
    for (i, x) in xs.iter().enumerate() {
        super::put_word(out, place(at, i), x.to_word());
    }
}
