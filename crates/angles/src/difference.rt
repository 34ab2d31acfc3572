// The difference of a series' two parts, as an f32.
ghost use Rattle.std.specs.Prelude.{◌≡◌, ◌+◌, ◌^◌, ◌<◌};
ghost use Rattle.angles.specs.SinCos.{from_units, difference};

// d * 2^-57, cut to 30 binary places and rounded; negated where neg is true. Beside `in_steps`, which says why.
fn from_units(d: u64, neg: bool) -> f32
    requires { d < 2 ^ 59 }
    ensures { result ≡ from_units neg d }
{
    let r = std::num::nearest_u32_to_f32((d / 134217728) as u32) * 0.000000000931322574615478515625;
    if neg { -r } else { r }
}

// (plus - minus) * 2^-57, negated where flip is true.
pub(crate) fn difference_of(plus: u64, minus: u64, flip: bool) -> f32
    requires fact_1 { plus < minus + 2 ^ 59 }
    requires fact_2 { minus < plus + 2 ^ 59 }
    ensures { result ≡ difference flip plus minus }
{
    if plus < minus {
        from_units(minus - plus, !flip)
    } else {
        from_units(plus - minus, flip)
    }
}
