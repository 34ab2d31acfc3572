// Translated from hfcast-engine (commit bf34e8f9f3), src/voacap/modes.rs lines 699 to 904, and ionogram.rs lines 23 to 28, and changed.
// The walk of findf: its labels, its state, its steps, and the loop that takes them and writes the rows.
ghost use Rattle.std.specs.Prelude.{◌≡◌, ◌<◌, ◌≤◌};
ghost use Rattle.findf.specs.Walk.{with_label, looked_at, layer, search_of, next_layer_of, next_cusp_of, after_of, back_of, filled_of};
ghost use Rattle.findf.specs.Requires.{Entries, Safe};
ghost use Rattle.findf.specs.Rows.{put_of};
ghost use Rattle.findf.specs.Inputs.{inputs_of};
ghost use Rattle.findf.specs.Findf.{answered, walked_of};

use super::correction::Row;
use super::look::Looked;
use super::skip::Skip;
use super::{Reflectrix, Tables, correction, look, rows, skip};

// The 40 take-off angles, in degrees.
const ANG: [f32; 40] = [
    0.0, 0.5, 1.0, 2.0, 3.0, 4.0, 5.0, 6.0, 8.0, 10.0, 12.0, 14.0, 16.0, 18.0, 20.0, 22.0, 24.0,
    26.0, 28.0, 30.0, 32.0, 34.0, 36.0, 38.0, 40.0, 42.0, 44.0, 46.0, 48.0, 50.0, 52.0, 54.0, 56.0,
    60.0, 65.0, 70.0, 75.0, 80.0, 85.0, 89.99,
];

// The copy that is indexed: a constant array is written onto the stack wherever it is.
pub(crate) static ANGLES: [f32; 40] = ANG;

// The row to write: from row ih at the angle, between rows ih and ih + 1, at the layer's cusp, or as the next layer's first.
#[derive(Clone, Copy)]
pub(crate) enum Fill {
    Exact,
    Interp,
    Cusp,
    NextCusp360,
}

#[derive(Clone, Copy)]
pub(crate) enum Label {
    Search,
    NextLayer,
    Fill(Fill),
    NextCusp,
    Done,
}

#[derive(Clone, Copy)]
pub(crate) struct Walk {
    pub label: Label,
    pub ia: usize,
    pub il: usize,
    pub ih: usize,
    pub ilow: usize,
    pub ihigh: usize,
    pub rows: usize,
    pub looks: u32,
}

// What the walk reads beside the tables: the job's numbers, jfhz, fi's second number, the square of its third, and the penetration angles.
#[derive(Clone, Copy)]
pub(crate) struct Setup {
    pub nang: usize,
    pub freq: f32,
    pub amind: f32,
    pub jfhz: u32,
    pub second: f32,
    pub fc2: f32,
    pub delpen: [f32; 3],
}

fn with_label(w: Walk, l: Label) -> Walk
    ensures { result ≡ with_label w l }
{
    Walk { label: l, ..w }
}

// An angle is taken, and the looks end at row l.ih.
fn looked_at(w: Walk, l: Looked) -> Walk
    requires { w.ia < 40 }
    ensures { result ≡ looked_at w l }
{
    Walk {
        label: l.label,
        ia: w.ia + 1,
        ih: l.ih,
        looks: l.looks,
        ..w
    }
}

// The search of a layer begins at row ih of the range ilow to ihigh.
fn layer(w: Walk, il: usize, ih: usize, ilow: usize, ihigh: usize) -> Walk
    ensures { result ≡ layer w il ih ilow ihigh }
{
    Walk {
        label: Label::Search,
        il,
        ih,
        ilow,
        ihigh,
        ..w
    }
}

pub(crate) fn search(e: &Setup, ifob: &[i32; 1200], w: Walk) -> Walk
    requires { Entries ifob.now × ((e.now.nang ≤ 40) × Safe w.label w) }
    ensures { result ≡ search_of ifob.now e.now.delpen e.now.jfhz e.now.nang w }
{
    let il = w.il;
    let del = e.delpen[il - 1];
    if del <= 0.0 {
        return with_label(w, Label::NextLayer);
    }
    if del > 89.99 {
        return with_label(w, Label::Done);
    }
    let ia = w.ia;
    if ia >= e.nang {
        return with_label(w, Label::Done);
    }
    if del - ANGLES[ia] <= 0.0 {
        return looked_at(
            w,
            Looked {
                label: Label::Fill(Fill::Cusp),
                ih: w.ih,
                looks: w.looks,
            },
        );
    }
    looked_at(
        w,
        look::looks(ifob, e.jfhz, ia * 30, w.ilow, w.ihigh, w.ih, w.looks),
    )
}

pub(crate) fn next_layer(second: f32, w: Walk) -> Walk
    requires { Safe w.label w }
    ensures { result ≡ next_layer_of second w }
{
    let il = w.il;
    if il == 1 {
        if second > 0.0 {
            return layer(w, 2, 11, 11, 20);
        }
        return layer(w, 3, 11, 11, 30);
    }
    if il == 2 {
        return layer(w, 3, 21, w.ihigh + 1, 30);
    }
    with_label(w, Label::Done)
}

#[tactic(auto, using(std::proofs::lemmas::Bool::Decides::nat_tests), unfolding(crate::specs::Walk::next_cusp_of, crate::specs::Walk::next_cusp_by))]
pub(crate) fn next_cusp(delpen: &[f32; 3], w: Walk) -> Walk
    requires { Safe w.label w }
    ensures { result ≡ next_cusp_of delpen.now w }
{
    let il = w.il;
    if il >= 3 {
        return with_label(w, Label::Done);
    }
    if delpen[il - 1] >= 89.9 {
        return with_label(w, Label::Done);
    }
    with_label(w, Label::Fill(Fill::NextCusp360))
}

// The state once the row is written: b angles are given back, and the walk goes on at l.
#[tactic(auto, using(std::proofs::lemmas::Bool::Decides::nat_tests), unfolding(crate::specs::Walk::filled_of, crate::specs::Walk::filled_by))]
pub(crate) fn filled(fill: Fill, b: usize, l: Label, w: Walk) -> Walk
    requires { ((b ≡ back_of fill) × (l ≡ after_of fill)) × Safe (Label.Fill fill) w }
    ensures { result ≡ filled_of fill w }
{
    let n = w.rows + 1;
    let after = if n >= 45 { Label::Done } else { l };
    Walk {
        label: after,
        ia: w.ia - b,
        rows: n,
        ..w
    }
}

// Row i written, with the skip figures and the farthest hop after it.
fn put_row(rfx: &mut Reflectrix, i: usize, t: Row, s: Skip, dmaxkm: f32)
    requires { i < 45 }
    ensures { rfx.new ≡ put_of rfx.old i t s dmaxkm }
{
    rfx.delfx[i] = t.del;
    rfx.hpflx[i] = t.hp;
    rfx.htflx[i] = t.ht;
    rfx.gdflx[i] = t.gdr;
    rfx.fvflx[i] = t.fv;
    rfx.afflx[i] = t.af;
    rfx.imode[i] = t.mode;
    rfx.kind[i] = t.kind;
    rfx.dskpkm = s.dskpkm;
    rfx.delskp = s.delskp;
    rfx.hpskp = s.hpskp;
    rfx.htskp = s.htskp;
    rfx.dmaxkm = dmaxkm;
    rfx.fvskp = s.fvskp;
    rfx.iskp = s.iskp;
    rfx.iaftxr = i + 1;
    rfx.rows_this_call = i + 1;
}

// The walk from its start to Done, a row written in place at each fill; its looks.
pub(crate) fn walk_rows(rfx: &mut Reflectrix, e: &Setup, tables: &Tables) -> u32
    requires { Entries tables.now.ifob × ((e.now.nang ≤ 40) × (e.now.jfhz ≤ 99999)) }
    ensures { answered result rfx.new ≡ walked_of (inputs_of e.now tables.now) rfx.old }
{
    let mut ahead = correction::ahead_of(0);
    let mut w = Walk {
        label: Label::Search,
        ia: 0,
        il: 1,
        ih: 1,
        ilow: 1,
        ihigh: 10,
        rows: 0,
        looks: 0,
    };
    // Each turn is a step by the state's label: there is no index to range over.
    loop {
        match w.label {
            Label::Search => {
                w = search(e, &tables.ifob, w);
            }
            Label::NextLayer => {
                w = next_layer(e.second, w);
            }
            Label::NextCusp => {
                w = next_cusp(&e.delpen, w);
            }
            Label::Fill(fill) => {
                let q = rows::filling_of(e, tables, &rfx.delfx, fill, w);
                let m = correction::correction_of(q.raw, e.freq, e.fc2, fill, w.ia, ahead);
                // Before the arcsine, whose answer takes long: the processor works at both.
                ahead = correction::ahead_of(w.ia);
                let t = correction::row_of(q.raw, m, q.mode, q.kind);
                let s = skip::skip_of(skip::skip_in(rfx), t, w.il as u32);
                let d = skip::far(rfx.dmaxkm, t.gdr, t.del, e.amind);
                put_row(rfx, w.rows, t, s, d);
                w = filled(fill, q.back, q.after, w);
            }
            Label::Done => return w.looks,
        }
    }
}
