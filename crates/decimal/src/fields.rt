// A text with fields: `@`, a letter for the value (A the first), how it is shown, and the columns.
// How: a digit for the decimals of a float; w a whole number; t a whole number of tenths, `12` or `12.3`; x eight hex digits.
// Columns: 0 to 9, `:` for 10 and so on, the number right in them; a to i for at most 1 to 9 and no spaces. With t and x any byte stands there.
#![tactic(auto, using(crate::proofs::PageLaws::pages), unfolding(crate::specs::Filled::field_text))]

ghost use Rattle.std.specs.Prelude.{◌≡◌};
ghost use Rattle.decimal.specs.Page.{added};
ghost use Rattle.decimal.specs.Filled.{count_of, value_of, field_text, filled_text};
ghost use Rattle.decimal.specs.Requires.{Plain, RunOf};

use crate::Page;

// How far b is above `low`, or 0; 31 at most.
fn count(b: u8, low: u8) -> usize
    ensures { result ≡ count_of b low }
{
    b.saturating_sub(low).min(31) as usize
}

// Value number b, or 0.
fn value(v: &[u32], b: u8) -> u32
    ensures { result ≡ value_of v.now b }
{
    match b.checked_sub(b'A') {
        Some(i) => v.get(i as usize).copied().unwrap_or(0),
        None => 0,
    }
}

// How many bytes stand for themselves, of a text that begins with no field: up to the next `@`.
fn plain(t: &[u8]) -> usize
    requires { Plain t.now }
    ensures { RunOf t.now result }
{
    match t[1..].iter().position(|b| *b == b'@') {
        Some(i) => i + 1,
        None => t.len(),
    }
}

impl<'a> Page<'a> {
    fn field(&mut self, v: &[u32], which: u8, how: u8, wide: u8)
        ensures { self.new ≡ added self.old (field_text v.now which how wide) }
    {
        let w = value(v, which);
        match how {
            b't' => self.tenths(w),
            b'x' => self.hex(w),
            b'w' => self.whole(w as usize, count(wide, b'0')),
            _ if wide >= b'a' => self.float(w, count(how, b'0'), count(wide, b'`'), false),
            _ => self.float(w, count(how, b'0'), count(wide, b'0'), true),
        }
    }

    // The text t with the values v in its fields.
    #[tactic(auto, using(crate::proofs::PageLaws::pages, crate::proofs::FieldLaws::fields), unfolding(crate::specs::Filled::filled_text))]
    pub fn filled(&mut self, t: &[u8], v: &[u32])
        ensures { self.new ≡ added self.old (filled_text v.now t.now) }
    {
        let mut rest = t;
        loop {
            match rest {
                [b'@', which, how, wide, after @ ..] => {
                    self.field(v, *which, *how, *wide);
                    rest = after;
                }
                [] => return,
                _ => {
                    let n = plain(rest);
                    self.text(&rest[..n]);
                    rest = &rest[n..];
                }
            }
        }
    }
}
