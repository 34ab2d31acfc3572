// The rays from the lowest up, by rank: on which side of the line a ring stands, and how high.
ghost use Rattle.std.specs.Prelude.{◌≡◌, ◌≤◌, ◌<◌};
ghost use Rattle.view.specs.View.{ray_at};
ghost use Rattle.curve.specs.Rows.{largest};
ghost use Rattle.rays.specs.Rays.{angle_of, high_of};

use job::layout;
use std::array;
use view::{State, View};

// A slot of the answer, counted from 0.
#[derive(Clone, Copy)]
pub(crate) struct Slot<'a> {
    pub(crate) view: View<'a>,
    pub(crate) s: usize,
    ghost is_one: { s < 6 },
}

impl Slot<'_> {
    // Its angle by its bits, and in 0.001 deg.
    pub(crate) fn bits(self) -> u32 {
        view::word(self.view.answer, layout::DELMOD + self.s)
    }

    #[tactic(auto, unfolding(crate::specs::Rays::angle_of))]
    pub(crate) fn angle(self) -> u32
        ensures { result ≡ angle_of self.entry.view.answer.now self.entry.s }
    {
        curve::in_thousandths(view::word(self.view.answer, layout::DELMOD + self.s))
    }

    pub(crate) fn is_ray(self) -> bool
        ensures { result ≡ ray_at self.entry.view.job.now self.entry.view.answer.now self.entry.s }
    {
        self.view.is_ray(self.s)
    }

    pub(crate) fn is_low(self) -> bool {
        curve::is_number(self.bits()) && self.view.slot(self.s) == State::TooLow
    }

    // Whether it holds a ray that comes before that of slot s, which has this angle: it is lower, or as high and its slot is the earlier one.
    fn is_before(self, angle: u32, s: usize) -> bool {
        self.is_ray() && (self.angle(), self.s) < (angle, s)
    }

    // How many rays come before its own.
    fn rank(self) -> usize
        ensures { result ≤ 6 }
    {
        let Slot { view, s: own, .. } = self;
        let angle = self.angle();
        (0..layout::SLOTS)
            .filter(
                |s|
                    requires { s.now < 6 }
                { Slot { view, s: *s }.is_before(angle, own) },
            )
            .count()
    }

    #[tactic(auto, unfolding(crate::specs::Rays::high_of))]
    fn high(self) -> u32
        ensures { result ≡ high_of self.entry.view.job.now self.entry.view.answer.now self.entry.s }
    {
        if self.is_ray() { self.angle() } else { 0 }
    }
}

// The answer's slots.
pub(crate) fn slots<'a>(view: View<'a>) -> [Slot<'a>; layout::SLOTS] {
    array::from_fn(
        |s|
            requires { s < 6 }
        { Slot { view, s } },
    )
}

// The slot of the ray of rank i.
pub(crate) fn at_rank<'a>(view: View<'a>, i: usize) -> Option<Slot<'a>> {
    (0..layout::SLOTS)
        .map(
            |s|
                requires { s < 6 }
            { Slot { view, s } },
        )
        .find(|slot| slot.is_ray() && slot.rank() == i)
}

// The place of its dot.
fn dot(view: View, up: u32, i: usize) -> u32
    ensures { (1260 ≤ result) × (result ≤ 5440) }
{
    match at_rank(view, i) {
        Some(slot) => scale::ay(slot.angle(), up),
        None => scale::BOTTOM,
    }
}

// Where the line stands close to an edge all rings stand on its other side.
const CLOSE: u32 = 400;

fn at_left(x: u32) -> bool {
    x < scale::LEFT + CLOSE
}

fn at_right(x: u32) -> bool {
    x > scale::RIGHT - CLOSE
}

// Whether the ring of rank i stands on the left of the line at x: "right and left by turns from the lowest up".
pub(crate) fn leftward(x: u32, i: usize) -> bool {
    !at_left(x) && (at_right(x) || i % 2 == 1)
}

fn one_side(x: u32) -> bool {
    at_left(x) || at_right(x)
}

// How high the ring of rank i stands above those below it on its side.
pub(crate) fn raised(view: View, x: u32, up: u32, i: usize) -> u32 {
    (0..=i).filter(|j| one_side(x) || i % 2 == *j % 2).fold(
        scale::LOWEST_RING + scale::APART,
        |y, j| scale::lifted(y, dot(view, up, j)),
    )
}

// How many rings stand above that of rank i on its side.
pub(crate) fn above(view: View, x: u32, i: usize) -> u32 {
    let left = view
        .rays_before(layout::SLOTS)
        .saturating_sub(i)
        .saturating_sub(1) as u32;
    if one_side(x) { left } else { left / 2 }
}

// The highest ray's angle; 0 where there is none. A fold is longer: its closure has to say which slots it takes, and what it gives. Nor does curve's `largest` serve: a public one would have to require what its closure does, and no public function requires anything.
#[tactic(auto, using(curve::proofs::RowLaws::largest_steps))]
pub fn highest(view: View) -> u32
    ensures { result ≡ largest (high_of view.entry.job.now view.entry.answer.now) 6 }
{
    let mut top = 0;
    for s in 0..layout::SLOTS {
        top = top.max(Slot { view, s }.high());
    }
    top
}
