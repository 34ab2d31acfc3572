// The verdict in words, two lines. Neither has an indent nor a line end.
#![tactic(auto, using(decimal::proofs::PageLaws::extends))]

ghost use Rattle.decimal.specs.Page.{Extends};

use crate::{Case, verdict};
use decimal::Page;
use job::layout;
use view::{View, word};

// What stands before a ray's angle.
fn between(before: usize, all: usize, page: &mut Page)
    ensures { Extends page.old page.new }
{
    if before == 0 {
        return;
    }
    if before == all.saturating_sub(1) {
        page.text(b" or ");
    } else {
        page.text(b", ");
    }
}

fn angles(view: View, page: &mut Page)
    ensures { Extends page.old page.new }
{
    let all = view.rays_before(layout::SLOTS);
    for s in 0..layout::SLOTS {
        if view.is_ray(s) {
            between(view.rays_before(s), all, page);
            page.filled(b"@A3i", &[word(view.answer, layout::DELMOD + s)]);
        }
    }
}

fn found(view: View, page: &mut Page)
    ensures { Extends page.old page.new }
{
    let v = [view.asked()];
    match view.rays_before(layout::SLOTS) {
        1 => page.filled(b"1 ray found for the asked hop of @A1i km.", &v),
        n => {
            page.whole(n, 0);
            page.filled(b" rays found for the asked hop of @A1i km.", &v);
        }
    }
}

pub fn first(view: View, page: &mut Page)
    ensures { Extends page.old page.new }
{
    let v = [view.asked()];
    match verdict(view) {
        Case::Rays => {
            page.text(b"TILT to ");
            angles(view, page);
            page.text(b" deg.");
        }
        Case::NoRows => page.text(b"STAY PARKED. No ray, because the reflectrix has no rows:"),
        Case::TooLong => page.filled(
            b"STAY PARKED. No ray, because the asked hop of @A1i km is too long:",
            &v,
        ),
        Case::NoLength => page.text(
            b"STAY PARKED. No ray, because no row at or above the minimum angle of",
        ),
        Case::TooShort => page.filled(
            b"STAY PARKED. No ray, because the asked hop of @A1i km is too short:",
            &v,
        ),
        Case::NoPair => page.text(b"STAY PARKED. No ray, because no two neighbouring rows"),
        Case::BelowMinimum => page.text(
            b"STAY PARKED. No ray, because each one found is below the minimum angle:",
        ),
    }
}

pub fn second(view: View, page: &mut Page)
    ensures { Extends page.old page.new }
{
    let v = [
        view.asked(),
        word(view.answer, layout::DMAXKM),
        word(view.job, view::AMIND),
        word(view.answer, layout::DSKPKM),
        word(view.answer, layout::DELMOD),
    ];
    match verdict(view) {
        Case::Rays => found(view, page),
        Case::NoRows => page.text(b"no layer sends this frequency back."),
        Case::TooLong => page.filled(
            b"the farthest one at or above the minimum angle is @B1i km.",
            &v,
        ),
        Case::NoLength => page.filled(b"@C3i deg has a hop length above 0.", &v),
        Case::TooShort => page.filled(b"the nearest ground reached is at @D1i km.", &v),
        Case::NoPair => page.filled(b"have the asked hop of @A1i km between them.", &v),
        Case::BelowMinimum => page.filled(
            b"the last is at @E3i deg, and the minimum is @C3i deg.",
            &v,
        ),
    }
}
