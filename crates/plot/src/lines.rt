// The lines of the nearest, the farthest and the asked length and of the minimum angle, and the labels above the plot.
ghost use Rattle.decimal.specs.Page.{Extends};

use decimal::Page;
use job::layout;
use view::View;

// 10,000 km, by its bits.
const NONE_BELOW: u32 = 0x461c_4000;

// The bits of the nearest ground reached, where there is one to be shown.
fn nearest(view: View) -> Option<u32> {
    let w = view::word(view.answer, layout::DSKPKM);
    let shown = view.rows() > 0
        && view::word(view.answer, layout::DELPEN + 2) % 0x8000_0000 != 0
        && view::above(NONE_BELOW, w)
        && view::at_least(w, 0);
    shown.then_some(w)
}

// Those of the farthest.
fn farthest(view: View) -> Option<u32> {
    let w = view::word(view.answer, layout::DMAXKM);
    view::above(w, 0).then_some(w)
}

// The place of a length by its bits.
fn place(w: u32, across: u32) -> u32 {
    scale::ax(curve::in_tenths(w), across)
}

// A length's line from `top` down.
fn dots(w: u32, top: u32, across: u32, page: &mut Page)
    ensures { Extends page.old page.new }
{
    page.filled(
        b"<path d=\"M@At0 @Bt0V544\" stroke=\"#555\" stroke-dasharray=\"2 3\"/>\n",
        &[place(w, across), top],
    );
}

pub fn dotted(view: View, across: u32, page: &mut Page)
    ensures { Extends page.old page.new }
{
    if let Some(w) = nearest(view) {
        dots(w, 930, across, page);
    }
    if let Some(w) = farthest(view) {
        dots(w, 1080, across, page);
    }
}

// Whether the asked length lies beyond the right edge.
fn beyond(view: View) -> bool {
    scale::beyond(curve::farthest(view), curve::in_tenths(view.asked()))
}

// The minimum angle, the asked length, and the plot's edges.
pub fn asked(view: View, up: u32, page: &mut Page)
    ensures { Extends page.old page.new }
{
    let minimum = curve::in_thousandths(view::word(view.job, view::AMIND));
    page.filled(
        b"<path d=\"M64 @At0H640\" stroke=\"#000\" stroke-width=\"1.5\" stroke-dasharray=\"10 3 2 3\"/>\n<path d=\"M@Bt0 123V544\" stroke=\"#000\" stroke-width=\"2\"/>\n<path d=\"M64 126V544H640\" fill=\"none\" stroke=\"#000\" stroke-width=\"1.5\"/>\n",
        &[scale::ay(minimum, up), curve::asked_line(view)],
    );
}

// A length's label: where it stands, the length by its bits, and the words round it.
#[derive(Clone, Copy)]
struct Label<'a> {
    x: u32,
    foot: u32,
    length: u32,
    weight: &'a [u8],
    name: &'a [u8],
    note: &'a [u8],
}

// Which end of a label stands at its line.
fn anchor(x: u32, page: &mut Page)
    ensures { Extends page.old page.new }
{
    if x < scale::LEFT + 900 {
        page.text(b"start");
    } else if x > scale::RIGHT - 900 {
        page.text(b"end");
    } else {
        page.text(b"middle");
    }
}

fn words(l: Label, edge: &[u8], page: &mut Page)
    ensures { Extends page.old page.new }
{
    page.filled(
        b"<text x=\"@At0\" y=\"@Bt0\" text-anchor=\"",
        &[l.x, l.foot],
    );
    anchor(l.x, page);
    page.text(b"\" font-size=\"12\"");
    page.text(l.weight);
    page.text(edge);
    page.text(b">");
    page.text(l.name);
    page.filled(b" @A1i km", &[l.length]);
    page.text(l.note);
    page.text(b"</text>\n");
}

// A label twice: its white edge, and itself.
fn twice(l: Label, page: &mut Page)
    ensures { Extends page.old page.new }
{
    words(
        l,
        b" fill=\"none\" stroke=\"#fff\" stroke-width=\"4\"",
        page,
    );
    words(l, b"", page);
}

fn ground_label(w: u32, foot: u32, name: &[u8], across: u32, page: &mut Page)
    ensures { Extends page.old page.new }
{
    let l = Label {
        x: place(w, across),
        foot,
        length: w,
        weight: b"",
        name,
        note: b"",
    };
    twice(l, page);
}

fn asked_label(view: View, page: &mut Page)
    ensures { Extends page.old page.new }
{
    let note: &[u8] = if beyond(view) {
        b" (beyond this edge)"
    } else {
        b""
    };
    let l = Label {
        x: curve::asked_line(view),
        foot: 1200,
        length: view.asked(),
        weight: b" font-weight=\"bold\"",
        name: b"asked",
        note,
    };
    twice(l, page);
}

pub fn labels(view: View, across: u32, page: &mut Page)
    ensures { Extends page.old page.new }
{
    if let Some(w) = nearest(view) {
        ground_label(w, 900, b"nearest", across, page);
    }
    if let Some(w) = farthest(view) {
        ground_label(w, 1050, b"farthest", across, page);
    }
    asked_label(view, page);
}
