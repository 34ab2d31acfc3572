// The scales of the drawing: where a length and an angle stand, and the steps at which an axis is marked.
// Lengths in 0.1 km, angles in 0.001 deg, places in 0.1 px.
#![tactic(auto)]

ghost use Rattle.std.specs.Prelude.{◌≡◌, ◌+◌, ◌*◌, ◌/◌, ◌<◌, ◌≤◌, min, max};
ghost use Rattle.scale.specs.Scale.{Least, Marked, beyond_of, across_of, up_of, part_of, ax_of, ay_of, lifted_of, ring_of};

// The plot's edges.
pub const LEFT: u32 = 640;

pub const RIGHT: u32 = 6400;

pub const TOP: u32 = 1260;

pub const BOTTOM: u32 = 5440;

// The largest length that an axis is made for, 10,000,000 km.
pub const LONGEST: u32 = 100_000_000;

// A marked axis: its step in km or deg, how many steps, and the length or angle at which it ends.
#[derive(Clone, Copy)]
pub struct Axis {
    pub step: u32,
    pub count: u32,
    pub end: u32,
}

const STEPS: [u32; 21] = [
    1, 2, 5, 10, 20, 50, 100, 200, 500, 1_000, 2_000, 5_000, 10_000, 20_000, 50_000, 100_000,
    200_000, 500_000, 1_000_000, 2_000_000, 5_000_000,
];

// How an axis is marked: the unit of its steps, and how many of them it takes at most.
#[derive(Clone, Copy)]
struct Marking {
    unit: u32,
    most: u32,
    ghost unit_bound: { (10 ≤ unit) × (unit ≤ 1000) },
    ghost most_bound: { (8 ≤ most) × (most ≤ 10) },
}

// Steps of 1 km, and of 1 deg.
const ACROSS: Marking = Marking { unit: 10, most: 8 };

const UP: Marking = Marking {
    unit: 1000,
    most: 10,
};

// a * b: it always fits.
fn product(a: u32, b: u32) -> u64
    ensures { result ≡ a * b }
{
    (a as u64) * (b as u64)
}

// The least step of which `most` reach the top.
fn step_for(top: u32, most: u32) -> u32
    requires top_bound { top ≤ 102000000 }
    requires most_bound { 80 ≤ most }
    ensures least { Least top most result }
    ensures result_nonzero { 1 ≤ result }
{
    match STEPS
        .iter()
        .find(|step| (top as u64) <= product(most, **step))
    {
        Some(step) => *step,
        // The last reaches every top.
        None => STEPS[20],
    }
}

impl Marking {
    // The axis up to the top.
    fn up_to(self, top: u32) -> Axis
        requires { top ≤ 102000000 }
        ensures { Marked self.unit self.most top result }
    {
        let step = step_for(top, self.unit * self.most);
        let one = product(self.unit, step);
        let count = (top as u64).div_ceil(one);
        Axis {
            step,
            count: count as u32,
            end: (one * count) as u32,
        }
    }
}

fn over(far: u32) -> u32
    requires { far ≤ 100000000 }
    ensures value { result ≡ max far 10 + far / 50 }
    ensures upper_bound { result ≤ 102000000 }
{
    far.max(10) + far / 50
}

// Whether the asked length is put at the right edge.
pub fn beyond(far: u32, asked: u32) -> bool
    ensures { result ≡ beyond_of far asked }
{
    0 < far && 3 * (far as u64) < 2 * (asked as u64)
}

// The axis of lengths: `far` is the longest row's, `asked` the asked one.
pub fn across(far: u32, asked: u32) -> Axis
    ensures { Marked 10 8 (across_of (min far 100000000) (min asked 100000000)) result }
{
    let far = far.min(LONGEST);
    let asked = asked.min(LONGEST);
    if beyond(far, asked) {
        return ACROSS.up_to(over(far));
    }
    ACROSS.up_to(over(far.max(asked)))
}

// The axis of angles: `high` is the highest to be shown.
pub fn up(high: u32) -> Axis
    ensures { Marked 1000 10 (up_of (min high 90000)) result }
{
    let top = high.min(90_000).max(9_500) + 500;
    UP.up_to(top.min(90_000))
}

// width * g / end, to the nearest; g is at most the end.
fn part(width: u32, g: u32, end: u32) -> u32
    requires { width ≤ 5760 }
    ensures value { result ≡ part_of width g end }
    ensures upper_bound { result ≤ width }
{
    if end == 0 {
        return 0;
    }
    let n = 2 * product(width, g.min(end)) + (end as u64);
    (n / (2 * (end as u64))) as u32
}

// The place of a length on an axis that ends at `end`.
pub fn ax(g: u32, end: u32) -> u32
    ensures value { result ≡ ax_of g end }
    ensures lower_bound { (640 ≤ result) × (result ≤ 6400) }
{
    LEFT + part(RIGHT - LEFT, g, end)
}

// The place of an angle.
pub fn ay(t: u32, end: u32) -> u32
    ensures value { result ≡ ay_of t end }
    ensures lower_bound { (1260 ≤ result) × (result ≤ 5440) }
{
    BOTTOM - part(BOTTOM - TOP, t, end)
}

// Where the line of the asked length stands: at its place, or at the right edge where that lies beyond.
pub fn asked_line(far: u32, asked: u32) -> u32
    ensures { (640 ≤ result) × (result ≤ 6400) }
{
    if beyond(far, asked) {
        return RIGHT;
    }
    ax(asked, across(far, asked).end)
}

// A ring's radius is 9 px: the lowest place of one, the highest, and how far two are apart.
pub const LOWEST_RING: u32 = BOTTOM - 90;

pub const HIGHEST_RING: u32 = TOP + 90;

pub const APART: u32 = 190;

// The place of a ring before there is room above it: `last` is that of the one below it on its side.
pub fn lifted(last: u32, y: u32) -> u32
    ensures { result ≡ lifted_of last y }
{
    y.min(last.saturating_sub(APART))
}

// The place of a ring that has so many above it on its side.
pub fn ring(y: u32, above: u32) -> u32
    ensures { result ≡ ring_of y above }
{
    y.max(HIGHEST_RING + APART * above.min(5))
}
