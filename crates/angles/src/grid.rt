// The arcs' answer as an f32.
ghost use Rattle.std.specs.Prelude.{◌≡◌, ◌^◌, ◌≤◌};
ghost use Rattle.angles.specs.Grid.{in_steps};

// k * 2^-22, negated where neg is true. `from_units` shares the last line alone: its cast and its unit are others.
pub(crate) fn in_steps(k: u64, neg: bool) -> f32
    requires { k ≤ 2 ^ 24 }
    ensures { result ≡ in_steps neg k }
{
    let r = (k as f32) * 0.0000002384185791015625;
    if neg { -r } else { r }
}
