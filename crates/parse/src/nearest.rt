// The f32 nearest to a quotient of whole numbers, by its bits.
ghost use Rattle.std.specs.Prelude.{◌≡◌, ◌*◌, ◌^◌, ◌<◌, ◌≤◌};
ghost use Rattle.parse.specs.Nearest.{nearest_of, in_units, in_radians};

// A number doubled so often.
struct Doubled {
    x: u64,
    times: u64,
}

// n thousandths.
pub fn unit(n: u32) -> u32
    ensures { result ≡ in_units n }
{
    over(n as u64, 1000)
}

// n metres on the ground, as an angle at the Earth's centre.
pub fn radian(n: u32) -> u32
    ensures { result ≡ in_radians n }
{
    over(n as u64, 6_370_000)
}

// n / d. Doubled until its quotient by d has 24 digits, that quotient rounded is the significand, and the count of doublings gives the exponent.
fn over(n: u64, d: u64) -> u32
    requires n_bound { n < 2 ^ 32 }
    requires bound { 2 ^ 8 < d }
    requires d_bound { d < 2 ^ 23 }
    ensures { result ≡ nearest_of n d }
{
    if n == 0 {
        return 0;
    }
    let Doubled { x, times } = doubled_to(n, d * 0x80_0000);
    ((149 - times) * 0x80_0000 + rounding::nearest(x, d)) as u32
}

// n doubled until it is not below `least`. A loop, since the number itself grows: there is no index to run over.
fn doubled_to(n: u64, least: u64) -> Doubled
    requires n_nonzero { 0 < n }
    requires n_bound { n < 2 * least }
    requires least_bound { least < 2 ^ 46 }
    ensures x_value { result.x ≡ n * 2 ^ result.times }
    ensures least_le_x { least ≤ result.x }
    ensures x_bound { result.x < 2 * least }
    ensures times_bound { result.times < 47 }
{
    let mut x = n;
    let mut times = 0u64;
    while x < least {
        x = 2 * x;
        times += 1;
    }
    Doubled { x, times }
}
