// The sine and cosine series in fixed point: the terms that are added and those that are taken away.
ghost use Rattle.std.specs.Prelude.{◌≡◌, ◌+◌, ◌*◌, ◌/◌, ◌^◌, ◌<◌, ◌≤◌, take};
ghost use Rattle.angles.specs.Series.{mh, d25, sin_plus_terms, sin_minus_terms, square, cube, power, sin_plus, sin_minus, cos_plus, cos_minus};
ghost use Rattle.angles.specs.Grid.{half};
ghost use Rattle.angles.specs.Arcsine.{asin_top};
ghost use Rattle.angles.specs.Requires.{Close, over, short_by};

// A series at an angle, times 2^57, is plus - minus.
#[derive(Drop)]
pub(crate) struct Parts {
    pub(crate) plus: u64,
    pub(crate) minus: u64,
}

// The upper 64 bits of u * v.
pub(crate) fn high_product(u: u64, v: u64) -> u64
    ensures { result ≡ u * v / 2 ^ 64 }
{
    let u0 = u & 0xffff_ffff;
    let u1 = u >> 32;
    let v0 = v & 0xffff_ffff;
    let v1 = v >> 32;
    let w0 = u0 * v0;
    let t = u1 * v0 + (w0 >> 32);
    let w1 = (t & 0xffff_ffff) + u0 * v1;
    u1 * v1 + (t >> 32) + (w1 >> 32)
}

// c + v * h / 2^64: one step of the evaluation.
fn term(c: u64, v: u64, h: u64) -> u64
    requires fact_1 { c < 2 ^ 63 }
    requires fact_2 { v ≤ 2 ^ 63 }
    ensures { result ≡ c + v * h / 2 ^ 64 }
{
    c + high_product(v, h)
}

// Powers of n * 2^-61: the second times 2^58, the third times 2^57, the fourth times 2^55.
#[derive(Clone, Copy)]
struct Powers {
    second: u64,
    third: u64,
    fourth: u64,
    ghost fourth_bound: { fourth ≤ 2 ^ 63 },
}

impl Powers {
    // The sine's added terms at n: the first three, over h for the later ones.
    fn sin_plus(self, n: u64, h: u64) -> u64
        ensures { result ≡ mh n (over d25 (2 ^ 60) (take 3 sin_plus_terms) self.fourth h) }
    {
        let v = self.fourth;
        let a = term(832868868230977991, v, h);
        let b = term(4919131752989213764, v, a);
        let c = term(1152921504606846976, v, b);
        high_product(n, c)
    }

    // Those taken away, likewise.
    fn sin_minus(self, h: u64) -> u64
        ensures { result ≡ mh self.third (over d25 (2 ^ 64) (take 3 sin_minus_terms) self.fourth h) }
    {
        let v = self.fourth;
        let a = term(121144562651778616, v, h);
        let b = term(1873954953519700481, v, a);
        let c = term(3074457345618258602, v, b);
        high_product(self.third, c)
    }

    fn cos_plus(self) -> u64
        ensures { result ≡ cos_plus self.fourth }
    {
        let v = self.fourth;
        let a = term(2084178640928, v, 4184309963);
        let b = term(473336508529537, v, a);
        let c = term(40381520883926205, v, b);
        let d = term(936977476759850240, v, c);
        let e = term(3074457345618258602, v, d);
        term(144115188075855872, v, e)
    }

    fn cos_minus(self) -> u64
        ensures { result ≡ cos_minus self.second self.fourth }
    {
        let v = self.fourth;
        let a = term(98998485444086, v, 288717387487);
        let b = term(14200095255886138, v, a);
        let c = term(666295094584782393, v, b);
        let d = term(6558842337318951685, v, c);
        let e = term(4611686018427387904, v, d);
        high_product(self.second, e)
    }
}

// n's bound stands in sin_parts and cos_parts too: a struct that holds it would be made at each of their callers, to be read here once.
fn powers_at(n: u64) -> Powers
    requires { n ≤ 2 ^ 63 }
    ensures { (result.second ≡ square n) × ((result.third ≡ cube n) × (result.fourth ≡ power n)) }
{
    let z = high_product(n, n);
    Powers {
        second: z,
        third: high_product(n, z) * 4,
        fourth: high_product(z, z) * 8,
    }
}

// The sine series at n * 2^-61.
pub(crate) fn sin_parts(n: u64) -> Parts
    requires { n ≤ 2 ^ 63 }
    ensures { ((result.plus ≡ sin_plus n) × (result.minus ≡ sin_minus n)) × ((result.plus ≤ 2 ^ 63) × (result.minus ≤ 2 ^ 63)) }
{
    let p = powers_at(n);
    let v = p.fourth;
    let a = term(793972815591, v, 1338979188);
    let b = term(222746592249194, v, a);
    let c = term(24850166697800741, v, b);
    let d = term(10420893204640, v, 25105859781);
    let e = term(1893346034118151, v, d);
    Parts {
        plus: p.sin_plus(n, c),
        minus: p.sin_minus(e),
    }
}

// The same by four terms of each sign, at an angle up to a quarter turn.
pub(crate) fn short_sin_parts(n: u64) -> Parts
    requires { n ≤ half asin_top }
    ensures { (Close result.plus (sin_plus n) short_by × Close result.minus (sin_minus n) short_by) × ((result.plus ≤ 2 ^ 63) × (result.minus ≤ 2 ^ 63)) }
{
    let p = powers_at(n);
    Parts {
        plus: p.sin_plus(n, 24850166697800741),
        minus: p.sin_minus(1893346034118151),
    }
}

// The cosine series at n * 2^-61.
pub(crate) fn cos_parts(n: u64) -> Parts
    requires { n ≤ 2 ^ 63 }
    ensures { ((result.plus ≡ cos_plus (power n)) × (result.minus ≡ cos_minus (square n) (power n))) × ((result.plus ≤ 2 ^ 57 + 2 ^ 63) × (result.minus ≤ 2 ^ 63)) }
{
    let p = powers_at(n);
    Parts {
        plus: p.cos_plus(),
        minus: p.cos_minus(),
    }
}
