// Translated from hfcast-engine (commit bf34e8f9f3), src/voacap/modes.rs lines 863 to 876, and changed.
// A row's height correction and hop length.
ghost use Rattle.std.specs.Prelude.{◌≡◌, ◌<◌};
ghost use Rattle.findf.specs.Rows.{rcosd_of, corrected_of, hop_of, correction_of, row_by};
ghost use Rattle.arith.specs.Floats.{◌⊗◌, D2R};
ghost use Rattle.findf.specs.Requires.{tabled_of, Angled, Foreseen};

use super::rows::Raw;
use super::walk::{ANGLES, Fill};
use arith::{D2R, PIO2, RZ};

// The corrected virtual height, and the sine of phe.
#[derive(Clone, Copy)]
pub(crate) struct Corrected {
    pub hp: f32,
    pub sphe: f32,
}

// RZ times the cosine of ANG's angle ia, worked out before its row.
#[derive(Clone, Copy)]
pub(crate) struct Ahead {
    pub ia: usize,
    pub rcosd: f32,
}

// A row as it is written.
#[derive(Clone, Copy)]
pub(crate) struct Row {
    pub del: f32,
    pub hp: f32,
    pub ht: f32,
    pub gdr: f32,
    pub fv: f32,
    pub af: f32,
    pub mode: u32,
    pub kind: u32,
}

// The number of a row's angle in ANG, 0 where it is none of ANG's.
fn tabled(fill: Fill, ia: usize) -> usize
    ensures { result ≡ tabled_of fill ia }
{
    match fill {
        Fill::Exact | Fill::Interp => ia,
        Fill::Cusp | Fill::NextCusp360 => 0,
    }
}

// RZ times the cosine of a row's angle.
fn rcosd(label: Fill, ia: usize, del: f32) -> f32
    requires { Angled (tabled_of label ia) del }
    ensures { result ≡ rcosd_of del }
{
    RZ * angles::cos(del)
}

// The same, as worked out ahead where that was of the row's angle.
fn rcosd_of(ahead: Ahead, label: Fill, ia: usize, del: f32) -> f32
    requires { Foreseen ahead × Angled (tabled_of label ia) del }
    ensures { result ≡ rcosd_of del }
{
    if tabled(label, ia) == ahead.ia {
        return ahead.rcosd;
    }
    rcosd(label, ia, del)
}

// The place of the angle after angle ia; after the last, of the first. No more is promised: another place costs time and changes no answer.
fn place_after(ia: usize) -> usize
    ensures { result < 40 }
{
    if ia < 40 { ia } else { 0 }
}

// RZ times the cosine of the angle after angle ia.
pub(crate) fn ahead_of(ia: usize) -> Ahead
    ensures { Foreseen result }
{
    let i = place_after(ia);
    let after = i + 1;
    Ahead {
        ia: after,
        rcosd: rcosd(Fill::Exact, after, ANGLES[i] * D2R),
    }
}

// The Martyn correction for a spherical ionosphere: it takes rcosd's answer.
fn martyn(freq: f32, fc2: f32, rcosd: f32, ht: f32, fv: f32, hp: f32) -> Corrected
    ensures { result ≡ corrected_of freq fc2 rcosd ht fv hp }
{
    let xfsq = freq * freq / fc2;
    let xmut = 1.0 - fv * fv / (freq * freq);
    let xhp = (hp - ht) / RZ;
    let sph = xfsq * xmut * xhp * (ht + 2.0 * (RZ + ht) * xhp);
    let high = hp + sph;
    Corrected {
        hp: high,
        sphe: rcosd / (RZ + high),
    }
}

// The hop length.
fn hop(del: f32, sphe: f32) -> f32
    ensures { result ≡ hop_of del sphe }
{
    let phe = angles::asin(sphe);
    2.0 * RZ * (PIO2 - del - phe)
}

// The correction of a row.
pub(crate) fn correction_of(
    a: Raw,
    freq: f32,
    fc2: f32,
    fill: Fill,
    ia: usize,
    ahead: Ahead,
) -> Corrected
    requires { Foreseen ahead × Angled (tabled_of fill ia) (a.del ⊗ D2R) }
    ensures { result ≡ correction_of freq fc2 a }
{
    martyn(
        freq,
        fc2,
        rcosd_of(ahead, fill, ia, a.del * D2R),
        a.ht,
        a.fv,
        a.hp,
    )
}

// The row with its correction.
pub(crate) fn row_of(a: Raw, m: Corrected, mode: u32, kind: u32) -> Row
    ensures { result ≡ row_by a m mode kind }
{
    let gdr = hop(a.del * D2R, m.sphe);
    Row {
        del: a.del,
        hp: m.hp,
        ht: a.ht,
        gdr,
        fv: a.fv,
        af: a.af,
        mode,
        kind,
    }
}
