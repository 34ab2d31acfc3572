// The rays in the drawing, in SVG: a dot on the line of the asked length, its number in a ring beside it, and the list of angles and layers.
#![tactic(auto, using(decimal::proofs::PageLaws::extends))]

ghost use Rattle.std.specs.Prelude.{◌≤◌};
ghost use Rattle.decimal.specs.Page.{Extends};

use decimal::Page;
use job::layout;
use view::View;

mod order;

pub use order::highest;
use order::{Slot, above, at_rank, leftward, raised, slots};

// How far a ring stands from the line.
const ASIDE: u32 = 280;

fn ring_x(x: u32, i: usize) -> u32
    requires le_x { 640 ≤ x }
    requires x_bound { x ≤ 6400 }
    ensures { result ≤ 6680 }
{
    if leftward(x, i) { x - ASIDE } else { x + ASIDE }
}

fn ring_y(view: View, x: u32, up: u32, i: usize) -> u32
    ensures { result ≤ 5350 }
{
    scale::ring(raised(view, x, up, i), above(view, x, i)).min(scale::LOWEST_RING)
}

// The places of the dot and the ring of rank i, that of the ring's number, and the number.
fn places(slot: Slot, up: u32, i: usize) -> [u32; 6] {
    let x = curve::asked_line(slot.view);
    let y = ring_y(slot.view, x, up, i);
    [
        x,
        scale::ay(slot.angle(), up),
        ring_x(x, i),
        y,
        y + 45,
        slot.s as u32 + 1,
    ]
}

fn leader(view: View, up: u32, i: usize, page: &mut Page)
    ensures { Extends page.old page.new }
{
    if let Some(slot) = at_rank(view, i) {
        page.filled(
            b"<path d=\"M@At0 @Bt0L@Ct0 @Dt0\" stroke=\"#000\"/>\n",
            &places(slot, up, i),
        );
    }
}

fn ringed(view: View, up: u32, i: usize, page: &mut Page)
    ensures { Extends page.old page.new }
{
    if let Some(slot) = at_rank(view, i) {
        let v = places(slot, up, i);
        if slot.angle() <= up {
            page.filled(
                b"<circle cx=\"@At0\" cy=\"@Bt0\" r=\"4\" stroke=\"#fff\"/>\n",
                &v,
            );
        } else {
            page.filled(
                b"<circle cx=\"@At0\" cy=\"@Bt0\" r=\"4\" fill=\"#fff\" stroke=\"#000\" stroke-width=\"1.5\"/>\n",
                &v,
            );
        }
        page.filled(
            b"<circle cx=\"@Ct0\" cy=\"@Dt0\" r=\"9\" fill=\"#fff\" stroke=\"#000\" stroke-width=\"1.3\"/>\n<text x=\"@Ct0\" y=\"@Et0\" text-anchor=\"middle\" font-weight=\"bold\">@Fw0</text>\n",
            &v,
        );
    }
}

// A slot that is too low: a hollow dot.
fn low(slot: Slot, up: u32, page: &mut Page)
    ensures { Extends page.old page.new }
{
    if !slot.is_low() {
        return;
    }
    let x = curve::asked_line(slot.view);
    let y = scale::ay(slot.angle(), up);
    page.filled(
        b"<circle cx=\"@At0\" cy=\"@Bt0\" r=\"4.5\" fill=\"#fff\" stroke=\"#000\" stroke-width=\"1.5\"/>\n",
        &[x, y],
    );
    if x < scale::RIGHT - 600 {
        page.filled(
            b"<text x=\"@At0\" y=\"@Bt0\" font-size=\"12\">too low</text>\n",
            &[x + 90, y - 50],
        );
    } else {
        page.filled(
            b"<text x=\"@At0\" y=\"@Bt0\" font-size=\"12\" text-anchor=\"end\">too low</text>\n",
            &[x - 90, y - 50],
        );
    }
}

// Each rank in turn. Each crate that draws has its own `each`: a public one would have to require what its closure does, and no public function requires anything.
fn each<F: Fn(usize, &mut Page)>(page: &mut Page, draw: F)
    requires callable { F.IsAlwaysCallable draw }
    requires extends { (i : _) (p : _) (q : _) → F.post draw i p tt q → Extends p.now q.now }
    ensures { Extends page.old page.new }
{
    for i in 0..layout::SLOTS {
        draw(i, page);
    }
}

// The rays and the slots that are too low, where the axis of angles ends at `up`.
pub fn rays(view: View, up: u32, page: &mut Page)
    ensures { Extends page.old page.new }
{
    each(page, |i, page| leader(view, up, i, page));
    each(page, |i, page| ringed(view, up, i, page));
    for slot in slots(view) {
        low(slot, up, page);
    }
}

// The list's line of a slot, where it holds a ray.
fn listed(slot: Slot, page: &mut Page)
    ensures { Extends page.old page.new }
{
    if !slot.is_ray() {
        return;
    }
    let y = 3220 + 240 * (slot.view.rays_before(slot.s) as u32);
    page.filled(
        b"<circle cx=\"673\" cy=\"@At0\" r=\"9\" fill=\"#fff\" stroke=\"#000\" stroke-width=\"1.3\"/><text x=\"673\" y=\"@Bt0\" text-anchor=\"middle\" font-weight=\"bold\">@Cw0</text><text x=\"752\" y=\"@Bt0\" text-anchor=\"end\">@D3i</text><text x=\"758\" y=\"@Bt0\">deg</text><text x=\"796\" y=\"@Bt0\">",
        &[y, y + 40, slot.s as u32 + 1, slot.bits()],
    );
    names::layer(view::word(slot.view.answer, layout::ITMOD + slot.s), page);
    page.text(b"</text>\n");
}

// The list of the rays, in the order of the slots.
pub fn list(view: View, page: &mut Page)
    ensures { Extends page.old page.new }
{
    for slot in slots(view) {
        listed(slot, page);
    }
}
