// A page of text: lent bytes, and how many of them are written. What does not fit is dropped.
#![tactic(auto, using(crate::proofs::PageLaws::pages))]

ghost use Rattle.std.specs.Prelude.{◌≡◌, [], ◌∷◌, replicate};
ghost use Rattle.rounding.specs.Decimals.{right_in};
ghost use Rattle.decimal.specs.Page.{added, blank, bytes_of, shortened};

use std::marker::Model;

#[derive(Drop)]
pub struct Page<'a> {
    bytes: &'a mut [u8],
    end: usize,
}

impl<'a> Model for Page<'a> {
    ghost use Rattle.std.specs.Prelude.{◌≤◌, length, take, drop};
    ghost use Rattle.decimal.specs.Page.{Written};

    ghost Value = { Written };

    ghost view = { λ p. record { text = take p.end p.bytes.now; rest = drop p.end p.bytes.now; loan = p.bytes.ghost_name } };

    ghost invariant = { λ p. p.end ≤ length p.bytes.now };
}

impl<'a> Page<'a> {
    pub fn new(bytes: &'a mut [u8]) -> Page<'a>
        ensures { result ≡ blank bytes.old bytes.entry.ghost_name }
    {
        Page { bytes, end: 0 }
    }

    pub fn written(&self) -> &[u8]
        ensures { result.now ≡ self.now.text }
    {
        &self.bytes[..self.end]
    }

    // The lent bytes back: what is written, and those behind it as they were.
    pub fn into_bytes(self) -> &'a mut [u8]
        ensures loan { result.ghost_name ≡ self.entry.loan }
        ensures bytes { result.now ≡ bytes_of self.entry }
    {
        let Page { bytes, .. } = self;
        bytes
    }

    #[tactic(auto, unfolding(crate::specs::Page::added))]
    pub fn put(&mut self, b: u8)
        ensures { self.new ≡ added self.old (b ∷ []) }
    {
        if self.end < self.bytes.len() {
            self.bytes[self.end] = b;
            self.end += 1;
        }
    }

    pub fn text(&mut self, s: &[u8])
        ensures { self.new ≡ added self.old s.now }
    {
        let n = s.len().min(self.bytes.len() - self.end);
        self.bytes[self.end..self.end + n].copy_from_slice(&s[..n]);
        self.end += n;
    }

    // No more than its first `len` bytes.
    #[tactic(auto, unfolding(crate::specs::Page::shortened))]
    pub fn truncate(&mut self, len: usize)
        ensures { self.new ≡ shortened self.old len }
    {
        self.end = self.end.min(len);
    }

    // n times the byte b.
    pub fn fill(&mut self, b: u8, n: usize)
        ensures { self.new ≡ added self.old (replicate n b) }
    {
        for _ in 0..n {
            self.put(b);
        }
    }

    // s with spaces before it, up to width columns in all.
    pub fn right(&mut self, s: &[u8], width: usize)
        ensures { self.new ≡ added self.old (right_in width s.now) }
    {
        self.fill(b' ', width.saturating_sub(s.len()));
        self.text(s);
    }
}
