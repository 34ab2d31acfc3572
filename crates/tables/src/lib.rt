// The sheet's tables: the six slots, the rows of the reflectrix, the lines under them.
#![tactic(auto, using(decimal::proofs::PageLaws::extends))]

ghost use Rattle.std.specs.Prelude.{◌<◌};
ghost use Rattle.decimal.specs.Page.{Extends};

use decimal::Page;
use job::layout;
use view::{Layer, State, View, above, word};

mod reflectrix;

pub use reflectrix::rows;

// The bits of 10000 km, the skip distance where no row is nearer.
const FARTHEST_SKIP: u32 = 0x461c_4000;

// A layer's name, in two columns.
fn letters(layer: Layer, page: &mut Page)
    ensures { Extends page.old page.new }
{
    names::layer(layer.into(), page);
    if layer == Layer::E {
        page.put(b' ');
    }
}

// The values of slot s. The last is the virtual height without its minus, which in a slot that is too low is the slot's mark.
fn slot_values(answer: &[u8], s: usize) -> [u32; 7]
    requires { s < 6 }
{
    [
        (s + 1) as u32,
        word(answer, layout::DELMOD + s),
        word(answer, layout::HPMOD + s),
        word(answer, layout::HTMOD + s),
        word(answer, layout::FVMOD + s),
        word(answer, layout::AFMOD + s),
        word(answer, layout::HPMOD + s) % 0x8000_0000,
    ]
}

fn slot(view: View, s: usize, page: &mut Page)
    requires { s < 6 }
    ensures { Extends page.old page.new }
{
    let v = slot_values(view.answer, s);
    let state = view.slot(s);
    page.filled(b"  @Aw1   ", &v);
    if state == State::Empty {
        page.text(b"empty\n");
        return;
    }
    letters(word(view.answer, layout::ITMOD + s).into(), page);
    angle(&v, state, crossing::across_cusp(view, s), page);
}

// What follows the layer. A ray across a cusp is marked: its angle lies on no row.
fn angle(v: &[u32; 7], state: State, across: bool, page: &mut Page)
    ensures { Extends page.old page.new }
{
    if across {
        page.filled(b"     @B39 across a cusp @C16 @D19  @E39  @F2:\n", v);
    } else if state == State::Ray {
        page.filled(b"     @B39            @C19 @D19  @E39  @F2:\n", v);
    } else {
        page.filled(b"     @B39  too low   @G19 @D19  @E39  @F2:\n", v);
    }
}

// The six slots.
pub fn slots(view: View, page: &mut Page)
    ensures { Extends page.old page.new }
{
    page.filled(
        b"\nRAYS for the asked hop of @A1i km\nslot  layer   take-off               virtual      true   vertical  absorption\n                 angle                height    height  frequency      factor\n                   deg                    km        km        MHz\n",
        &[view.asked()],
    );
    for s in 0..layout::SLOTS {
        slot(view, s, page);
    }
}

// Whether some row has this very length.
fn some_length(view: View, w: u32) -> bool {
    (0..view.rows()).any(|r| word(view.answer, layout::GDFLX + r) == w)
}

fn nearest(view: View, page: &mut Page)
    ensures { Extends page.old page.new }
{
    let v = [
        word(view.answer, layout::DSKPKM),
        word(view.answer, layout::DELSKP),
    ];
    if word(view.answer, layout::ROWS) == 0 {
        page.text(b"none\n");
    } else if word(view.answer, layout::DELPEN + 2) == 0 {
        page.text(b"not given: F2 is always pierced\n");
    } else if v[0] == FARTHEST_SKIP && !some_length(view, v[0]) {
        page.text(b"none below 10000 km\n");
    } else {
        page.filled(b"@A1i km at @B3i deg, layer ", &v);
        names::layer(word(view.answer, layout::ISKP), page);
        page.text(b"\n");
    }
}

fn farthest(answer: &[u8], page: &mut Page)
    ensures { Extends page.old page.new }
{
    let dmaxkm = word(answer, layout::DMAXKM);
    if above(dmaxkm, 0) {
        page.filled(b"@A1i km\n", &[dmaxkm]);
    } else {
        page.text(b"none\n");
    }
}

// Nearest, farthest, work.
pub fn last(view: View, page: &mut Page)
    ensures { Extends page.old page.new }
{
    page.text(b"Nearest ground reached (skip distance): ");
    nearest(view, page);
    page.text(b"Farthest hop at or above the minimum angle: ");
    farthest(view.answer, page);
    let v = [
        word(view.answer, layout::LOOKS),
        word(view.answer, layout::ROWS),
        word(view.answer, layout::PAIRS),
    ];
    page.filled(b"Work: @Aw1 looks, @Bw1 rows, @Cw1 pairs\n", &v);
}
