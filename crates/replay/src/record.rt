// The words of a record, least byte first. `at` counts bytes; what lies past the record's end reads as 0. It is a sum of constants at each call, so where something is added to it its bound is asked for, and no value holds it.
ghost use Rattle.std.specs.Prelude.{◌≡◌, ◌≤◌, ◌==◌, length};
ghost use Rattle.words.specs.Words.{word_at};
ghost use Rattle.replay.specs.Stored.{Stand, Tells};

use words::Word;

// The bytes of a word, and of a count: its two words, the low one first.
pub(crate) const WORD: usize = 4;

pub(crate) const COUNT: usize = 2 * WORD;

pub(crate) fn float(r: &[u8], at: usize) -> f32 {
    words::float(words::word(r, at))
}

pub(crate) fn count(r: &[u8], at: usize) -> usize
    requires { at ≤ 10000 }
{
    (words::word(r, at) as usize) + 0x1_0000_0000 * (words::word(r, at + 4) as usize)
}

// Whether the word at `at` is that of x.
pub(crate) fn has<W: Word>(r: &[u8], at: usize, x: W) -> bool
    ensures { result ≡ (W.to_word x == word_at r.now at) }
{
    x.to_word() == words::word(r, at)
}

// Whether the words from `at` on are those of xs. A loop: to the closure of `all` its i has no bound, and the sum would need one of its own.
pub(crate) fn has_all<W: Word>(r: &[u8], at: usize, xs: &[W]) -> bool
    requires at_le { at ≤ 10000 }
    requires few { length xs.now ≤ 10000 }
    ensures { Tells result (Stand W.to_word W.past xs.now r.now at) }
{
    for (i, x) in xs.iter().enumerate() {
        if x.to_word() != words::word(r, at + 4 * i) {
            return false;
        }
    }
    true
}
