// What the sheet and the drawing read of the bytes of a job and of its answer, by name.
#![tactic(auto)]

ghost use Rattle.std.specs.Prelude.{◌≡◌, ◌+◌, ◌≤◌, min};
ghost use Rattle.std.specs.Float.Ieee.{lt, le};
ghost use Rattle.arith.specs.Floats.{f32};
ghost use Rattle.job.specs.Layout as meant;
ghost use Rattle.job.specs.Parts.{number_at};
ghost use Rattle.job.specs.Answer.{column_rows, slots};
ghost use Rattle.view.specs.View.{asked_of, critical_of, slot_of, ray_at, rays_before, rows_of, row_kind_by, row_kind_of, is_cusp, is_after_cusp, layer_number, layer_by};

pub use findf::RowKind;
use job::layout;

// Words of the job that its points share, counted from the job's first.
pub const NANG: usize = layout::SHARED + layout::NANG;

pub const FREQ: usize = layout::SHARED + layout::FREQ;

pub const AMIND: usize = layout::SHARED + layout::AMIND;

pub const GHOP: usize = layout::SHARED + layout::GHOP;

pub const FI: usize = layout::SHARED + layout::FI;

// A layer: as u32 it is its number in the answer.
#[derive(Clone, Copy, Debug, PartialEq, Eq)]
pub enum Layer {
    E = 1,
    F1,
    F2,
}

impl From<Layer> for u32 {
    ghost from_gives = { λ layer n. n ≡ layer_number layer };

    fn from(layer: Layer) -> u32 {
        layer as u32
    }
}

// A number that is none of theirs is F2's, as the pages show it.
impl From<u32> for Layer {
    ghost from_gives = { λ n layer. layer ≡ layer_by n };

    #[tactic(auto, using(std::proofs::lemmas::Bool::Decides::nat_tests))]
    fn from(n: u32) -> Layer {
        match n {
            1 => Layer::E,
            2 => Layer::F1,
            _ => Layer::F2,
        }
    }
}

// A slot of the answer: it has no layer, its angle is at or above the minimum angle, or below it.
#[derive(Clone, Copy, Debug, PartialEq, Eq)]
pub enum State {
    Empty,
    Ray,
    TooLow,
}

// The bytes of a job and of its answer.
#[derive(Clone, Copy)]
pub struct View<'a> {
    pub job: &'a [u8],
    pub answer: &'a [u8],
}

impl View<'_> {
    // The bits of the asked length, in km: one product.
    pub fn asked(self) -> u32
        ensures { result ≡ asked_of self.entry.job.now }
    {
        words::bits(words::float(word(self.job, GHOP)) * arith::RZ)
    }

    // The bits of the critical frequency of layer l (0 E, 1 F1, 2 F2) at the job's point; 0 past the last. A place among a point's numbers, which any caller may ask for, and no `Layer`.
    #[tactic(auto, using(crate::proofs::ViewLaws::critical_is, crate::proofs::ViewLaws::no_point, crate::proofs::ViewLaws::no_layer))]
    pub fn critical(self, l: usize) -> u32
        ensures { result ≡ critical_of self.entry.job.now l }
    {
        let k = word(self.job, layout::K) as usize;
        if k <= 4 && l <= 2 {
            return word(self.job, FI + layout::POINT_NUMBERS * k + l);
        }
        0
    }

    // Slot s, counted from 0.
    pub fn slot(self, s: usize) -> State
        ensures { result ≡ slot_of self.entry.job.now self.entry.answer.now s }
    {
        if s >= layout::SLOTS {
            return State::Empty;
        }
        if word(self.answer, layout::ITMOD + s) == fdist::NO_LAYER {
            return State::Empty;
        }
        if at_least(word(self.answer, layout::DELMOD + s), word(self.job, AMIND)) {
            return State::Ray;
        }
        State::TooLow
    }

    // Whether slot s is a ray.
    pub fn is_ray(self, s: usize) -> bool
        ensures { result ≡ ray_at self.entry.job.now self.entry.answer.now s }
    {
        self.slot(s) == State::Ray
    }

    // How many of the first n slots are rays.
    pub fn rays_before(self, n: usize) -> usize
        ensures value { result ≡ rays_before self.entry.job.now self.entry.answer.now (min n slots) }
        ensures upper_bound { result ≤ slots }
    {
        (0..n.min(layout::SLOTS))
            .filter(|s| self.is_ray(*s))
            .count()
    }

    // How many rows there are, at most as many as have room.
    pub fn rows(self) -> usize
        ensures value { result ≡ rows_of self.entry.answer.now }
        ensures upper_bound { result ≤ column_rows }
    {
        (word(self.answer, layout::ROWS) as usize).min(layout::COLUMN_ROWS)
    }

    // How row r, counted from 0, was made; none where it was not written.
    #[tactic(auto, using(std::proofs::lemmas::Bool::Decides::nat_tests), unfolding(crate::specs::View::row_kind_of))]
    pub fn row_kind(self, r: usize) -> Option<RowKind>
        ensures { result ≡ row_kind_of self.entry.answer.now r }
    {
        if r < layout::COLUMN_ROWS {
            return kind_of(word(self.answer, layout::KIND + r));
        }
        None
    }

    // Whether row r is a cusp, and whether it is the row after one.
    pub fn is_cusp(self, r: usize) -> bool
        ensures { result ≡ is_cusp (row_kind_of self.entry.answer.now r) }
    {
        self.row_kind(r) == Some(RowKind::Cusp)
    }

    pub fn is_after_cusp(self, r: usize) -> bool
        ensures { result ≡ is_after_cusp (row_kind_of self.entry.answer.now r) }
    {
        self.row_kind(r) == Some(RowKind::NextCusp)
    }
}

// How a row of a kind's number was made.
fn kind_of(number: u32) -> Option<RowKind>
    ensures { result ≡ row_kind_by number }
{
    RowKind::try_from(number).ok()
}

// Word i; past the end 0.
pub fn word(s: &[u8], i: usize) -> u32
    ensures { result ≡ meant.word s.now i }
{
    if i > s.len() / 4 {
        return 0;
    }
    words::word(s, 4 * i)
}

// Word i as a float.
pub fn number(s: &[u8], i: usize) -> f32
    ensures { result ≡ number_at s.now i }
{
    words::float(word(s, i))
}

// a >= b and a > b, of floats by their bits.
pub fn at_least(a: u32, b: u32) -> bool
    ensures { result ≡ le (f32 b) (f32 a) }
{
    words::float(b) <= words::float(a)
}

pub fn above(a: u32, b: u32) -> bool
    ensures { result ≡ lt (f32 b) (f32 a) }
{
    words::float(b) < words::float(a)
}
