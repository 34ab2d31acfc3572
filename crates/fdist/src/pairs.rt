// Translated from hfcast-engine (commit bf34e8f9f3), src/voacap/modes.rs lines 934 to 986 and 996 to 1005, and changed.
ghost use Rattle.std.specs.Prelude.{◌≡◌, ◌<◌};
ghost use Rattle.fdist.specs.Pairs.{between_of, rising_of, equal_of, falling_of, pair_of, next_of, is_spot};
ghost use Rattle.fdist.specs.Requires.{Within};

// What the rule gives of rows i and i + 1: nothing, a row as it is, or a spot between with its two distances dth and dth2. No Option of two: document 01 names these three.
#[derive(Clone, Copy)]
pub(crate) enum Pair {
    Nothing,
    Row(usize),
    Spot(f32, f32),
}

fn between(i: usize, g1: f32, g2: f32, d: f32) -> Pair
    ensures { result ≡ between_of i g1 g2 d }
{
    let dth2 = g2 - g1;
    if arith::abs(dth2) <= 0.001 {
        return Pair::Row(i);
    }
    Pair::Spot(d - g1, dth2)
}

fn rising(i: usize, g1: f32, g2: f32, d: f32) -> Pair
    requires { i < 44 }
    ensures { result ≡ rising_of i g1 g2 d }
{
    if g1 < d {
        if d < g2 {
            return between(i, g1, g2, d);
        }
        if d == g2 {
            return Pair::Row(i + 1);
        }
        return Pair::Nothing;
    }
    if g1 == d {
        return Pair::Row(i);
    }
    Pair::Nothing
}

// Equal lengths: the first row, except where d lies within 0.001 of them.
fn equal(i: usize, g: f32, d: f32) -> Pair
    ensures { result ≡ equal_of i g d }
{
    if arith::abs(d - g) <= 0.001 {
        return Pair::Nothing;
    }
    Pair::Row(i)
}

fn falling(i: usize, g1: f32, g2: f32, d: f32) -> Pair
    requires { i < 44 }
    ensures { result ≡ falling_of i g1 g2 d }
{
    if g1 < d {
        return Pair::Nothing;
    }
    if g1 == d {
        return Pair::Row(i);
    }
    if d < g2 {
        return Pair::Nothing;
    }
    if d == g2 {
        return Pair::Row(i + 1);
    }
    between(i, g1, g2, d)
}

// The rule of rows i and i + 1, whose hop lengths are g1 and g2.
pub(crate) fn try_pair(i: usize, g1: f32, g2: f32, d: f32) -> Pair
    requires { i < 44 }
    ensures { result ≡ pair_of i g1 g2 d }
{
    if g1 < g2 {
        return rising(i, g1, g2, d);
    }
    if g1 == g2 {
        return equal(i, g1, d);
    }
    falling(i, g1, g2, d)
}

// The pair that is tried after pair i.
pub(crate) fn next_pair(i: usize, pair: Pair) -> usize
    requires { (i < 44) × Within i pair }
    ensures { result ≡ next_of i pair }
{
    match pair {
        Pair::Nothing => i + 1,
        Pair::Row(k) => k + 1,
        Pair::Spot(_, _) => i + 1,
    }
}

// Whether rows whose hop lengths are g1 and g2 give a spot between them: for those who show a ray. Which rows they are has no bearing on it.
pub fn gives_spot(g1: f32, g2: f32, d: f32) -> bool
    ensures { result ≡ is_spot (pair_of 0 g1 g2 d) }
{
    let pair = try_pair(0, g1, g2, d);
    match pair {
        Pair::Nothing => false,
        Pair::Row(_) => false,
        Pair::Spot(_, _) => true,
    }
}
