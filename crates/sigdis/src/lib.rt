// Translated from hfcast-engine (commit bf34e8f9f3), src/voacap/sigdis.rs lines 52 to 79, and changed.
#![tactic(auto)]

ghost use Rattle.std.specs.Prelude.{◌≡◌};
ghost use Rattle.sigdis.specs.Prbmuf.{spread_of, side_of, chance_of, prbmuf_of};

use limits::Refusal;

// What prbmuf reads of a layer's distribution: the lower and the upper decile (muf.rs, lines 673 to 675).
#[derive(Clone, Copy)]
pub struct LayerMuf {
    pub sigl: f32,
    pub sigu: f32,
}

// E, F1, F2, Es (muf.rs, line 710).
#[derive(Drop)]
pub struct MufHour {
    pub layers: [LayerMuf; 4],
}

// The distribution's width on the side where z lies, at least 0.001.
fn spread(layer: LayerMuf, z: f32, fgo: f32, fset: f32) -> f32
    ensures { result ≡ spread_of layer z fgo fset }
{
    if z <= 0.0 {
        arith::max(fgo * layer.sigl / fset, 0.001)
    } else {
        arith::max(fgo * layer.sigu / fset, 0.001)
    }
}

// The part of the normal curve above z.
fn side(z: f32) -> f32
    ensures { result ≡ side_of z }
{
    let qx = fnorml::tail(fnorml::size(z));
    if z < 0.0 { 1.0 - qx } else { qx }
}

// The probability that fmhz is usable against one layer's distribution.
fn chance(layer: LayerMuf, fmhz: f32, fgo: f32, fset: f32) -> f32
    ensures { result ≡ chance_of layer fmhz fgo fset }
{
    let z = fmhz - fgo;
    if fset <= 0.0 {
        if z <= 0.0 { 1.0 } else { 0.0 }
    } else {
        side(z / spread(layer, z, fgo, fset))
    }
}

// The same for layer il, counted from 1; another is refused before anything else.
#[tactic(auto, using(limits::proofs::LimitsLaws::layer_within_lem), unfolding(crate::specs::Prbmuf::prbmuf_of))]
pub fn prbmuf(hour: MufHour, fmhz: f32, fgo: f32, fset: f32, il: usize) -> Result<f32, Refusal>
    ensures { result ≡ prbmuf_of hour fmhz fgo fset il }
{
    limits::check(limits::layer_within(il), Refusal::Layer)?;
    Ok(chance(hour.layers[il - 1], fmhz, fgo, fset))
}
