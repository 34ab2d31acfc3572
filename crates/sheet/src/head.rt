// The title, the verdict, and what was asked.
#![tactic(auto, using(decimal::proofs::PageLaws::extends))]

ghost use Rattle.std.specs.Prelude.{◌<◌, ◌≤◌};
ghost use Rattle.decimal.specs.Page.{Extends};

use decimal::Page;
use job::layout;
use view::{Layer, View, above, word};

// The columns of a line.
const LINE: usize = 78;

// The bits of the angles that findf gives a layer that is never pierced, 89.9, or not met, 90; 0 is that of one always pierced.
const NEVER: u32 = 0x42b3_cccd;

const NOT_MET: u32 = 0x42b4_0000;

// The name right in so many columns.
fn named(columns: usize, name: &[u8], page: &mut Page)
    ensures { Extends page.old page.new }
{
    page.fill(b' ', columns.saturating_sub(names::width(name)));
    names::shown(name, page);
}

fn rule(page: &mut Page)
    ensures { Extends page.old page.new }
{
    page.fill(b'-', LINE);
    page.text(b"\n");
}

// Where the text ends without the spaces at its end, the first `kept` bytes aside.
fn trimmed(text: &[u8], kept: usize) -> usize
    ensures { kept ≤ result }
{
    match text.iter().rposition(|b| *b != b' ') {
        Some(i) => kept.max(i + 1),
        None => kept,
    }
}

// The heading and the name. No line ends in spaces, so a name's own are dropped there.
pub(crate) fn title(heading: &[u8], name: &[u8], page: &mut Page)
    ensures { Extends page.old page.new }
{
    let start = page.written().len();
    page.text(heading);
    named(LINE.saturating_sub(heading.len()), name, page);
    let end = trimmed(page.written(), start);
    page.truncate(end);
    page.text(b"\n");
    rule(page);
}

// The verdict's two lines, and the rule under them.
pub(crate) fn said(view: View, page: &mut Page)
    ensures { Extends page.old page.new }
{
    page.text(b"  ");
    verdict::first(view, page);
    page.text(b"\n  ");
    verdict::second(view, page);
    page.text(b"\n");
    rule(page);
}

// A layer's critical frequency and the angle above which it is pierced.
fn pierced(v: &[u32; 2], page: &mut Page)
    ensures { Extends page.old page.new }
{
    match v[1] {
        NEVER => page.filled(b"@A39           never\n", v),
        NOT_MET => page.filled(b"@A39         not met\n", v),
        0 => page.filled(b"@A39          always\n", v),
        _ => page.filled(b"@A39   @B3=\n", v),
    }
}

fn layer(view: View, layer: Layer, page: &mut Page)
    ensures { Extends page.old page.new }
{
    let l = layer as usize - 1;
    let v = [view.critical(l), word(view.answer, layout::DELPEN + l)];
    if layer == Layer::F1 && !above(v[0], 0) {
        page.text(b"     none     no F1 layer\n");
    } else {
        pierced(&v, page);
    }
}

// What was asked, and the layers at the point.
pub(crate) fn asked(view: View, page: &mut Page)
    ensures { Extends page.old page.new }
{
    let v = [
        word(view.job, view::FREQ),
        view.asked(),
        word(view.job, view::AMIND),
        word(view.job, view::NANG),
        word(view.job, layout::K),
    ];
    page.filled(
        b"\n  Frequency     @A39 MHz          Layer     Critical   Pierced above\n  Asked hop     @B19 km                          MHz             deg\n  Minimum angle @C39 deg          E        ",
        &v,
    );
    layer(view, Layer::E, page);
    page.filled(b"  Table angles  @Dw9 of 40        F1       ", &v);
    layer(view, Layer::F1, page);
    page.filled(b"  Point         @Ew9 of 0 to 4    F2       ", &v);
    layer(view, Layer::F2, page);
}
