// Translated from hfcast-engine (commit bf34e8f9f3), src/voacap/modes.rs lines 810 to 862, and changed.
// The row of a fill, read off the tables.
ghost use Rattle.std.specs.Prelude.{◌≡◌, ◌+◌, ◌<◌, ◌≤◌};
ghost use Rattle.findf.specs.Walk.{back_of, after_of};
ghost use Rattle.findf.specs.Rows.{gap_of, slope_of, raw_at, between, raw_between, next_mode_of, mode_of, kind_of, raw_of};
ghost use Rattle.findf.specs.Requires.{Entries, Safe};

use super::walk::{ANGLES, Fill, Label, Setup, Walk};
use super::{RowKind, Tables, look};

#[derive(Clone, Copy)]
pub(crate) struct Raw {
    pub del: f32,
    pub ht: f32,
    pub fv: f32,
    pub hp: f32,
    pub af: f32,
}

// A fill: its row before the correction, the row's layer and kind, and how the walk goes on, with the angles given back. The kind is its number, a constant in each arm of `filling_of`: kept as a RowKind it slows the walk by some 5 %.
#[derive(Drop)]
pub(crate) struct Filling {
    pub raw: Raw,
    pub mode: u32,
    pub kind: u32,
    pub back: usize,
    pub after: Label,
}

// a - b as a float.
#[tactic(auto, using(std::proofs::lemmas::Bool::Decides::nat_tests), unfolding(crate::specs::Rows::gap_of))]
fn gap(a: u32, b: u32) -> f32
    requires { (a ≤ 99999) × (b ≤ 99999) }
    ensures { result ≡ gap_of a b }
{
    if a >= b {
        (a - b) as f32
    } else {
        -((b - a) as f32)
    }
}

#[tactic(auto, unfolding(crate::specs::Rows::slope_of))]
fn slope(lo: u32, hi: u32, jfhz: u32) -> f32
    requires { (lo ≤ 99999) × ((hi ≤ 99999) × (jfhz ≤ 99999)) }
    ensures { result ≡ slope_of lo hi jfhz }
{
    let slopd = arith::max(gap(hi, lo), 1.0);
    gap(jfhz, lo) / slopd
}

fn raw_at(tables: &Tables, h: usize, del: f32) -> Raw
    requires { h < 30 }
    ensures { result ≡ raw_at tables.now h del }
{
    Raw {
        del,
        ht: tables.htrue[h],
        fv: tables.fvert[h],
        hp: tables.hprim[h],
        af: tables.afac[h],
    }
}

// From entry h of a table towards the next.
fn between(xs: &[f32; 30], h: usize, slope: f32) -> f32
    requires { h + 1 < 30 }
    ensures { result ≡ between xs.now h slope }
{
    xs[h] + slope * (xs[h + 1] - xs[h])
}

fn raw_between(tables: &Tables, h: usize, del: f32, slope: f32) -> Raw
    requires { h + 1 < 30 }
    ensures { result ≡ raw_between tables.now h del slope }
{
    Raw {
        del,
        ht: between(&tables.htrue, h, slope),
        fv: between(&tables.fvert, h, slope),
        hp: between(&tables.hprim, h, slope),
        af: between(&tables.afac, h, slope),
    }
}

// The layer after a cusp.
#[tactic(auto, unfolding(crate::specs::Rows::next_mode_of))]
fn next_mode(il: u32, second: f32) -> u32
    requires { il ≤ 3 }
    ensures { result ≡ next_mode_of il second }
{
    if second <= 0.0 { 3 } else { il + 1 }
}

// One match for all that a fill's kind decides: apart, each would be worked out at every turn of the walk.
pub(crate) fn filling_of(
    e: &Setup,
    tables: &Tables,
    delfx: &[f32; 45],
    fill: Fill,
    w: Walk,
) -> Filling
    requires { Entries tables.now.ifob × ((e.now.jfhz ≤ 99999) × Safe (Label.Fill fill) w) }
    ensures { (result.raw ≡ raw_of tables.now e.now.delpen delfx.now e.now.jfhz fill w)
        × ((result.mode ≡ mode_of fill w.il e.now.second) × ((result.kind ≡ kind_of fill) × ((result.back ≡ back_of fill) × (result.after ≡ after_of fill)))) }
{
    let ia = w.ia;
    let ih = w.ih;
    let il = w.il;
    let i = w.rows;
    match fill {
        Fill::Exact => Filling {
            raw: raw_at(tables, ih - 1, ANGLES[ia - 1]),
            mode: il as u32,
            kind: RowKind::Exact.into(),
            back: 0,
            after: Label::Search,
        },
        Fill::Interp => {
            let at = (ia - 1) * 30 + ih;
            let s = slope(
                look::entry(&tables.ifob, at - 1),
                look::entry(&tables.ifob, at),
                e.jfhz,
            );
            Filling {
                raw: raw_between(tables, ih - 1, ANGLES[ia - 1], s),
                mode: il as u32,
                kind: RowKind::Interp.into(),
                back: 0,
                after: Label::Search,
            }
        }
        Fill::Cusp => Filling {
            raw: raw_at(tables, w.ihigh - 1, e.delpen[il - 1]),
            mode: il as u32,
            kind: RowKind::Cusp.into(),
            back: 1,
            after: Label::NextCusp,
        },
        Fill::NextCusp360 => Filling {
            raw: raw_at(tables, w.ihigh, delfx[i - 1] + 0.001),
            mode: next_mode(il as u32, e.second),
            kind: RowKind::NextCusp.into(),
            back: 0,
            after: Label::NextLayer,
        },
    }
}
