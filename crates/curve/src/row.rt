// What is drawn of a row: lengths in 0.1 km, angles in 0.001 deg.
ghost use Rattle.std.specs.Prelude.{◌≡◌, ℕ, Bool, not, ◌==◌, ◌+◌, ◌≤◌, ◌<◌};
ghost use Rattle.view.specs.View.{rows_of};
ghost use Rattle.job.specs.Layout.{word as meant·word};
ghost use Rattle.curve.specs.Rows.{number_of, shown_of, hop_of, angle_of, drawn_of, layer_of, below_of, far_of, high_of, count_of, largest};

use job::layout;
use view::View;

// Neither NaN nor infinite.
pub fn is_number(w: u32) -> bool
    ensures { result ≡ number_of w }
{
    w / 0x80_0000 % 0x100 != 255
}

// A length in 0.1 km; 0 below 0.
pub fn in_tenths(w: u32) -> u32
    ensures { result ≡ shown_of w 10 }
{
    if w < 0x8000_0000 {
        return rounding::tenths_of(w, scale::LONGEST);
    }
    0
}

// An angle in 0.001 deg; 0 below 0. One function for both would take rounding's as a closure and require what it gives, which is longer.
pub fn in_thousandths(w: u32) -> u32
    ensures { result ≡ shown_of w 1000 }
{
    if w < 0x8000_0000 {
        return rounding::thousandths_of(w, scale::LONGEST);
    }
    0
}

// A row for which the answer has room, counted from 0.
#[derive(Clone, Copy)]
pub(crate) struct Row<'a> {
    pub(crate) view: View<'a>,
    pub(crate) r: usize,
    ghost has_room: { r < 45 },
}

impl Row<'_> {
    // Its word of a column.
    fn bits(self, column: usize) -> u32
        requires { column < 1000 }
        ensures { result ≡ meant·word self.entry.view.answer.now (column + self.entry.r) }
    {
        view::word(self.view.answer, column + self.r)
    }

    // Its layer's number, which may be none of the three: rows of one number are joined and counted.
    pub(crate) fn layer(self) -> u32
        ensures { result ≡ layer_of self.entry.view.answer.now self.entry.r }
    {
        self.bits(layout::IMODE)
    }

    pub(crate) fn hop(self) -> u32
        ensures { result ≡ shown_of (hop_of self.entry.view.answer.now self.entry.r) 10 }
    {
        in_tenths(self.bits(layout::GDFLX))
    }

    pub(crate) fn angle(self) -> u32
        ensures { result ≡ shown_of (angle_of self.entry.view.answer.now self.entry.r) 1000 }
    {
        in_thousandths(self.bits(layout::DELFX))
    }

    // Whether the answer has it, and it has a hop length.
    pub(crate) fn drawn(self) -> bool
        ensures { result ≡ drawn_of self.entry.view.answer.now self.entry.r }
    {
        self.r < self.view.rows() && is_number(self.bits(layout::GDFLX))
    }

    // Whether it has a hop length below 0, rounded.
    #[tactic(auto, using(std::proofs::lemmas::Bool::Decides::nat_tests), unfolding(crate::specs::Rows::below_of))]
    pub(crate) fn below(self) -> bool
        ensures { result ≡ below_of self.entry.view.answer.now self.entry.r }
    {
        let w = self.bits(layout::GDFLX);
        self.drawn() && w >= 0x8000_0000 && rounding::tenths_of(w, 1) > 0
    }

    #[tactic(auto, unfolding(crate::specs::Rows::far_of))]
    fn far(self) -> u32
        ensures { result ≡ far_of self.entry.view.answer.now self.entry.r }
    {
        if self.drawn() { self.hop() } else { 0 }
    }

    #[tactic(auto, using(std::proofs::lemmas::Bool::Decides::nat_tests), unfolding(crate::specs::Rows::high_of))]
    fn high(self) -> u32
        ensures { result ≡ high_of self.entry.view.answer.now self.entry.r }
    {
        if self.r < self.view.rows() {
            self.angle()
        } else {
            0
        }
    }
}

// The largest of what the rows give; 0 where none gives more. A loop: a chain's closure would call `of`, and would have to require again what is required here, and it cannot name `f`.
#[tactic(auto, using(crate::proofs::RowLaws::largest_steps))]
fn largest<F: Fn(Row) -> u32>(view: View, of: F) -> u32
    ghost f: { ℕ → ℕ }
    requires callable { F.IsAlwaysCallable of }
    requires gives { (row : _) (n : _) → row.view.answer.now ≡ view.answer.now → F.post of row n → n ≡ f row.r }
    ensures { result ≡ largest f 45 }
{
    let mut top = 0;
    for r in 0..layout::COLUMN_ROWS {
        top = top.max(of(Row { view, r }));
    }
    top
}

// The longest row's hop length; 0 where none is longer.
pub fn farthest(view: View) -> u32
    ensures { result ≡ largest (far_of view.entry.answer.now) 45 }
{
    largest(
        view,
        |row|
            ensures { result ≡ far_of row.entry.view.answer.now row.entry.r }
        { row.far() },
    )
}

// The highest row's angle.
pub fn highest(view: View) -> u32
    ensures { result ≡ largest (high_of view.entry.answer.now) 45 }
{
    largest(
        view,
        |row|
            ensures { result ≡ high_of row.entry.view.answer.now row.entry.r }
        { row.high() },
    )
}

// How many of the answer's rows are so. A loop for the same reason.
#[tactic(auto, using(crate::proofs::RowLaws::count_steps))]
fn count<F: Fn(Row) -> bool>(view: View, is_so: F) -> u32
    ghost so: { ℕ → Bool }
    requires callable { F.IsAlwaysCallable is_so }
    requires gives { (row : _) (b : _) → row.view.answer.now ≡ view.answer.now → F.post is_so row b → b ≡ so row.r }
    ensures value { result ≡ count_of so (rows_of view.entry.answer.now) }
    ensures upper_bound { result ≤ 45 }
{
    let mut n = 0;
    for r in 0..view.rows() {
        n += u32::from(is_so(Row { view, r }));
    }
    n
}

// Of those that have this layer's number.
pub fn count_of_layer(view: View, layer: u32) -> u32
    ensures value { result ≡ count_of (λ r. layer_of view.entry.answer.now r == layer) (rows_of view.entry.answer.now) }
    ensures upper_bound { result ≤ 45 }
{
    count(
        view,
        |row|
            ensures { result ≡ (layer_of row.entry.view.answer.now row.entry.r == layer) }
        { row.layer() == layer },
    )
}

pub fn count_without_length(view: View) -> u32
    ensures value { result ≡ count_of (λ r. not (drawn_of view.entry.answer.now r)) (rows_of view.entry.answer.now) }
    ensures upper_bound { result ≤ 45 }
{
    count(
        view,
        |row|
            ensures { result ≡ not (drawn_of row.entry.view.answer.now row.entry.r) }
        { !row.drawn() },
    )
}

pub fn count_below(view: View) -> u32
    ensures value { result ≡ count_of (below_of view.entry.answer.now) (rows_of view.entry.answer.now) }
    ensures upper_bound { result ≤ 45 }
{
    count(
        view,
        |row|
            ensures { result ≡ below_of row.entry.view.answer.now row.entry.r }
        { row.below() },
    )
}
