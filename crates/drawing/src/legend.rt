// The legend, the list of the rays, and the notes below the plot.
ghost use Rattle.decimal.specs.Page.{Extends};

use decimal::Page;
use job::layout;
use view::{Layer, View};

// A number of rows in words, for one and for another number.
fn counted(n: u32, one: &[u8], more: &[u8], page: &mut Page)
    ensures { Extends page.old page.new }
{
    if n == 1 {
        page.text(one);
    } else {
        page.filled(more, &[n]);
    }
}

// One layer: its mark at height y, its name at height foot, how many rows.
fn row(view: View, layer: Layer, y: u32, foot: u32, page: &mut Page)
    ensures { Extends page.old page.new }
{
    curve::mark(layer.into(), 6700, y, false, page);
    page.filled(b"<text x=\"692\" y=\"@At0\">", &[foot]);
    names::layer(layer.into(), page);
    counted(
        curve::count_of_layer(view, layer.into()),
        b", 1 row</text>\n",
        b", @Aw0 rows</text>\n",
        page,
    );
}

fn layers(view: View, page: &mut Page)
    ensures { Extends page.old page.new }
{
    page.text(
        b"<g stroke-width=\"2.2\"><path d=\"M656 146h28\" stroke=\"#c04a00\"/><path d=\"M656 168h28\" stroke=\"#00805a\"/><path d=\"M656 190h28\" stroke=\"#0060a8\"/></g>\n",
    );
    for (layer, y, foot) in [
        (Layer::E, 1460, 1510),
        (Layer::F1, 1680, 1730),
        (Layer::F2, 1900, 1950),
    ] {
        row(view, layer, y, foot, page);
    }
}

// The jump at a cusp, and the hollow marks of the rows there.
fn cusps(page: &mut Page)
    ensures { Extends page.old page.new }
{
    page.text(
        b"<path d=\"M656 212h28\" stroke=\"#000\" stroke-width=\"1.2\" stroke-dasharray=\"5 4\"/><text x=\"692\" y=\"217\">jump at a cusp</text>\n",
    );
    for (layer, x) in [(Layer::E, 6590), (Layer::F1, 6700), (Layer::F2, 6810)] {
        curve::mark(layer.into(), x, 2340, true, page);
    }
    page.text(b"<text x=\"692\" y=\"239\">made at a cusp</text>\n");
}

fn key(view: View, page: &mut Page)
    ensures { Extends page.old page.new }
{
    page.filled(
        b"<rect x=\"656\" y=\"255\" width=\"28\" height=\"9\" fill=\"#ececec\"/><path d=\"M656 255h28\" stroke=\"#000\" stroke-width=\"1.5\" stroke-dasharray=\"10 3 2 3\"/><text x=\"692\" y=\"260\">minimum @A3i deg</text>\n<text x=\"656\" y=\"298\" font-weight=\"bold\">",
        &[view::word(view.job, view::AMIND)],
    );
    if view.rays_before(layout::SLOTS) == 0 {
        page.text(b"No ray</text>\n");
    } else {
        page.text(b"Rays: angle, layer</text>\n");
        rays::list(view, page);
    }
}

// What is not drawn as it is.
fn notes(view: View, page: &mut Page)
    ensures { Extends page.old page.new }
{
    let missing = curve::count_without_length(view);
    let below = curve::count_below(view);
    if missing == 0 && below == 0 {
        return;
    }
    page.text(b"<text x=\"64\" y=\"608\" font-size=\"12\">");
    if missing > 0 {
        counted(
            missing,
            b"1 row without a hop length is not drawn.",
            b"@Aw0 rows without a hop length are not drawn.",
            page,
        );
    }
    if missing > 0 && below > 0 {
        page.text(b" ");
    }
    if below > 0 {
        counted(
            below,
            b"1 row below 0 km: hollow, at the edge.",
            b"@Aw0 rows below 0 km: hollow, at the edge.",
            page,
        );
    }
    page.text(b"</text>\n");
}

fn no_rows(view: View, page: &mut Page)
    ensures { Extends page.old page.new }
{
    if view.rows() == 0 {
        page.text(
            b"<text x=\"352\" y=\"335\" text-anchor=\"middle\" font-size=\"16\">no rows</text>\n",
        );
    }
}

pub(crate) fn legend(view: View, page: &mut Page)
    ensures { Extends page.old page.new }
{
    layers(view, page);
    cusps(page);
    key(view, page);
    notes(view, page);
    no_rows(view, page);
}
