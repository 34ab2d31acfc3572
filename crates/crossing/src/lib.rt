// Whether the ray of a slot lies across a cusp: between the cusp row and the row after it.
// The search copies a row's layer and never reads it. So a search over the same columns with the rows' numbers for their layers leaves, in each slot, the number of the row that its ray begins at.
#![tactic(auto)]

ghost use Rattle.std.specs.Prelude.{◌≡◌, ◌≤◌, ◌<◌};
ghost use Rattle.job.specs.Parts.{number_at, numbers_at};
ghost use Rattle.job.specs.Answer.{column_rows};
ghost use Rattle.crossing.specs.Crossing.{row_numbers, numbered_rows, numbered_of, first_row_of, spot_at, crossed_at, across_cusp};

use fdist::HopModes;
use findf::Reflectrix;
use job::layout;
use std::array;
use view::{View, number};

// A column of the answer's numbers.
fn column(answer: &[u8], at: usize) -> [f32; 45]
    requires { at ≤ 1000 }
    ensures { result ≡ numbers_at answer.now at column_rows }
{
    words::array_at(answer, 4 * at)
}

fn row_numbers() -> [u32; 45]
    ensures { result ≡ row_numbers }
{
    array::from_fn(
        |i|
            requires { i < column_rows }
            ensures { result ≡ i }
        { i as u32 },
    )
}

// What a search reads of the answer, with the rows' numbers for their layers.
fn numbered_rows(answer: &[u8]) -> Reflectrix
    ensures { result ≡ numbered_rows answer.now }
{
    Reflectrix {
        delfx: column(answer, layout::DELFX),
        hpflx: column(answer, layout::HPFLX),
        htflx: column(answer, layout::HTFLX),
        gdflx: column(answer, layout::GDFLX),
        fvflx: column(answer, layout::FVFLX),
        afflx: column(answer, layout::AFFLX),
        imode: row_numbers(),
        dmaxkm: number(answer, layout::DMAXKM),
        ..job::all_zero()
    }
}

// The slots that a search over them leaves.
fn numbered(view: View) -> HopModes
    ensures { result ≡ (numbered_of view.entry.job.now view.entry.answer.now).m }
{
    let rfx = numbered_rows(view.answer);
    let found = fdist::fdist_over(
        &rfx,
        number(view.job, view::GHOP),
        number(view.job, view::AMIND),
        number(view.job, view::FREQ),
    );
    match found {
        Ok(found) => found.m,
        Err(_) => job::no_slots(),
    }
}

// The row that the ray of slot s begins at.
fn first_row(view: View, s: usize) -> usize
    requires { s < 6 }
    ensures { result ≡ first_row_of view.entry.job.now view.entry.answer.now s }
{
    numbered(view).itmod[s] as usize
}

// Whether rows i and i + 1 give a spot between them.
fn spot(view: View, i: usize) -> bool
    requires { i < column_rows }
    ensures { result ≡ spot_at view.entry.job.now view.entry.answer.now i }
{
    fdist::gives_spot(
        number(view.answer, layout::GDFLX + i),
        number(view.answer, layout::GDFLX + (i + 1)),
        number(view.job, view::GHOP) * arith::RZ,
    )
}

// Whether row i is a cusp, row i + 1 the row after it, and the two give a spot.
fn crossed(view: View, i: usize) -> bool
    ensures { result ≡ crossed_at view.entry.job.now view.entry.answer.now i }
{
    if i < layout::COLUMN_ROWS {
        return view.is_cusp(i) & view.is_after_cusp(i + 1) & spot(view, i);
    }
    false
}

// Whether slot s, counted from 0, is a ray across a cusp.
pub fn across_cusp(view: View, s: usize) -> bool
    ensures { result ≡ across_cusp view.entry.job.now view.entry.answer.now s }
{
    let ray = view.is_ray(s);
    if ray {
        if s < layout::SLOTS {
            return crossed(view, first_row(view, s));
        }
    }
    false
}
