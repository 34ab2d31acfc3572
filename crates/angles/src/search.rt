// The arcs' tests, and the least step at which one fails: by halving, or by a guess that one evaluation confirms.
ghost use Rattle.std.specs.Prelude.{◌≡◌, ℕ, ◌+◌, ◌^◌, ◌<◌, ◌≤◌, true, IfSome};
ghost use Rattle.angles.specs.Least.{least};
ghost use Rattle.angles.specs.Requires.{Agrees, Close, Steep, Falls, holds};

// Half a step, 2^-23, in units of 2^-61: the half step k is the angle (2k + 1) of them.
pub(crate) const HALF_STEP: u64 = 274877906944;

// The two sides of a test at one step: it holds where low <= high.
#[derive(Clone, Copy)]
pub(crate) struct Sides {
    pub(crate) low: u64,
    pub(crate) high: u64,
    ghost high_bound: { high ≤ 2 ^ 63 + 2 ^ 62 },
}

// What a guess is checked by: the sides at its step, each of which may lack up to `lack` of the exact one, and what exact ones part by at the least, from the step before to the one after; 0 where no line says it.
#[derive(Clone, Copy)]
pub(crate) struct Check {
    pub(crate) sides: Sides,
    pub(crate) lack: u64,
    pub(crate) slack: u64,
    ghost lack_bound: { lack ≤ 2 ^ 60 },
    ghost slack_bound: { slack ≤ 2 ^ 60 },
}

// An arc's test, at each argument t: it holds up to one step of the grid, and fails from there on.
pub(crate) trait Arc: Copy {
    // The last step, the largest argument, and the sides at t and k.
    ghost top: { ℕ };

    ghost largest: { ℕ };

    ghost low: { Self → ℕ → ℕ → ℕ };

    ghost high: { Self → ℕ → ℕ → ℕ };

    fn top() -> u64
        ensures value { result ≡ top }
        ensures bound { result ≤ 13176794 };

    fn sides(self, k: u64, t: u64) -> Sides
        requires step { k < 2 ^ 24 }
        requires argument { t ≤ largest }
        ensures low { result.low ≡ low self t k }
        ensures high { result.high ≡ high self t k };

    // None where no line says how steep the sides are.
    fn check(self, j: u64, t: u64) -> Option<Check>
        requires step { j < 2 ^ 24 }
        requires argument { t ≤ largest }
        ensures low { IfSome result (λ c. Close c.sides.low (low self t j) c.lack) }
        ensures high { IfSome result (λ c. Close c.sides.high (high self t j) c.lack) }
        ensures steep { IfSome result (λ c. Steep (low self t) (high self t) top c.slack j) };
}

impl Check {
    // Whether the sides are as a guess says, by no more than the slack: the test fails there (e is 0), or holds (e is 1).
    fn agrees(self, e: u64) -> bool
        requires { e ≤ 1 }
        ensures { result ≡ true → (low high : ℕ) → Close self.sides.low low self.lack → Close self.sides.high high self.lack → Agrees low high self.slack e }
    {
        let far = self.sides.high + self.slack * (1 - e);
        if self.sides.low <= far {
            let d = far - self.sides.low;
            self.lack <= d && d + self.lack < self.slack
        } else {
            false
        }
    }
}

// The arc of t, in steps of 2^-22, by halving: both ends move, so there is no index.
fn search<A: Arc>(arc: A, t: u64) -> u64
    requires argument { t ≤ A.largest }
    requires falls { Falls (holds (A.low arc t) (A.high arc t)) A.top }
    ensures { result ≡ least (holds (A.low arc t) (A.high arc t)) A.top }
{
    let mut lo = 0u64;
    let mut hi = A::top();
    while lo < hi {
        let mid = (lo + hi) / 2;
        let s = arc.sides(mid, t);
        if s.low <= s.high {
            lo = mid + 1;
        } else {
            hi = mid;
        }
    }
    lo
}

// The same, where the guess h, in 256ths of a step, says where to look first.
pub(crate) fn steps<A: Arc>(arc: A, t: u64, h: u32) -> u64
    requires argument { t ≤ A.largest }
    requires falls { Falls (holds (A.low arc t) (A.high arc t)) A.top }
    ensures { result ≡ least (holds (A.low arc t) (A.high arc t)) A.top }
{
    let j = (h / 256) as u64;
    let e = (h / 128 % 2) as u64;
    if let Some(c) = arc.check(j, t) {
        if c.agrees(e) {
            return j + e;
        }
        if c.agrees(1 - e) {
            // The guess was off by a little beside a half step.
            return j + (1 - e);
        }
    }
    search(arc, t)
}
