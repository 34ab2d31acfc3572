// findf by reference, on a reflectrix that was used before: what the call leaves in it is compared, refused or not.
ghost use Rattle.std.specs.Prelude.{◌<◌};

use super::record;
use findf::{Reflectrix, Tables};
use std::array;

// A reflectrix has 374 words, in the order of its fields. Here is where each of them stands, in bytes.
const DELFX: usize = 0;

const HPFLX: usize = DELFX + COLUMN;

const HTFLX: usize = HPFLX + COLUMN;

const GDFLX: usize = HTFLX + COLUMN;

const FVFLX: usize = GDFLX + COLUMN;

const AFFLX: usize = FVFLX + COLUMN;

const IMODE: usize = AFFLX + COLUMN;

const KIND: usize = IMODE + COLUMN;

const DSKPKM: usize = KIND + COLUMN;

const DELSKP: usize = DSKPKM + record::WORD;

const HPSKP: usize = DELSKP + record::WORD;

const HTSKP: usize = HPSKP + record::WORD;

const DMAXKM: usize = HTSKP + record::WORD;

const FVSKP: usize = DMAXKM + record::WORD;

const ISKP: usize = FVSKP + record::WORD;

const DELPEN: usize = ISKP + record::WORD;

const IAFTXR: usize = DELPEN + THREE;

const ROWS: usize = IAFTXR + record::COUNT;

pub(crate) const REFLECTRIX: usize = ROWS + record::COUNT;

// Of a record: the reflectrix; k, nang, freq, amind, fi, the four tables, ifob; then the number, the looks and the reflectrix.
const K: usize = REFLECTRIX;

const NANG: usize = K + record::COUNT;

const FREQ: usize = NANG + record::COUNT;

const AMIND: usize = FREQ + record::WORD;

const FI: usize = AMIND + record::WORD;

const FVERT: usize = FI + 5 * THREE;

const HPRIM: usize = FVERT + TABLE;

const HTRUE: usize = HPRIM + TABLE;

const AFAC: usize = HTRUE + TABLE;

const IFOB: usize = AFAC + TABLE;

pub(crate) const ANSWER: usize = IFOB + 1200 * record::WORD;

const LOOKS: usize = ANSWER + record::WORD;

const LEFT: usize = LOOKS + record::WORD;

pub(crate) const SIZE: usize = LEFT + REFLECTRIX;

const COLUMN: usize = 45 * record::WORD;

const TABLE: usize = 30 * record::WORD;

const THREE: usize = 3 * record::WORD;

// The five points' critical frequencies.
fn points(r: &[u8]) -> [[f32; 3]; 5] {
    array::from_fn(
        |point|
            requires { point < 5 }
        { words::array_at(r, FI + THREE * point) },
    )
}

fn tables(r: &[u8]) -> Tables {
    Tables {
        fvert: words::array_at(r, FVERT),
        hprim: words::array_at(r, HPRIM),
        htrue: words::array_at(r, HTRUE),
        afac: words::array_at(r, AFAC),
        ifob: words::array_at(r, IFOB),
    }
}

pub(crate) fn reflectrix(r: &[u8]) -> Reflectrix {
    Reflectrix {
        delfx: words::array_at(r, DELFX),
        hpflx: words::array_at(r, HPFLX),
        htflx: words::array_at(r, HTFLX),
        gdflx: words::array_at(r, GDFLX),
        fvflx: words::array_at(r, FVFLX),
        afflx: words::array_at(r, AFFLX),
        imode: words::array_at(r, IMODE),
        kind: words::array_at(r, KIND),
        dskpkm: record::float(r, DSKPKM),
        delskp: record::float(r, DELSKP),
        hpskp: record::float(r, HPSKP),
        htskp: record::float(r, HTSKP),
        dmaxkm: record::float(r, DMAXKM),
        fvskp: record::float(r, FVSKP),
        iskp: words::word(r, ISKP),
        delpen: words::array_at(r, DELPEN),
        iaftxr: record::count(r, IAFTXR),
        rows_this_call: record::count(r, ROWS),
    }
}

fn are_columns(r: &[u8], rfx: &Reflectrix) -> bool {
    record::has_all(r, DELFX, &rfx.delfx)
        & record::has_all(r, HPFLX, &rfx.hpflx)
        & record::has_all(r, HTFLX, &rfx.htflx)
        & record::has_all(r, GDFLX, &rfx.gdflx)
        & record::has_all(r, FVFLX, &rfx.fvflx)
        & record::has_all(r, AFFLX, &rfx.afflx)
        & record::has_all(r, IMODE, &rfx.imode)
        & record::has_all(r, KIND, &rfx.kind)
}

fn are_figures(r: &[u8], rfx: &Reflectrix) -> bool {
    record::has(r, DSKPKM, rfx.dskpkm)
        & record::has(r, DELSKP, rfx.delskp)
        & record::has(r, HPSKP, rfx.hpskp)
        & record::has(r, HTSKP, rfx.htskp)
        & record::has(r, DMAXKM, rfx.dmaxkm)
        & record::has(r, FVSKP, rfx.fvskp)
        & (words::word(r, ISKP) == rfx.iskp)
        & record::has_all(r, DELPEN, &rfx.delpen)
        & (record::count(r, IAFTXR) == rfx.iaftxr)
        & (record::count(r, ROWS) == rfx.rows_this_call)
}

pub(crate) fn agrees(r: &[u8]) -> bool {
    if r.len() < SIZE {
        return false;
    }
    let left = &r[LEFT..];
    let mut rfx = reflectrix(r);
    let outcome = by_reference::findf(
        &mut rfx,
        record::count(r, K),
        record::count(r, NANG),
        record::float(r, FREQ),
        record::float(r, AMIND),
        points(r),
        tables(r),
    );
    (words::word(r, ANSWER) == limits::code(outcome))
        & (words::word(r, LOOKS) == outcome.unwrap_or(0))
        & are_columns(left, &rfx)
        & are_figures(left, &rfx)
}
