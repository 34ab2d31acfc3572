// The rows of a reflectrix as a drawn curve, in SVG: a line for each layer, a dashed one where the layer changes, a mark for each row.
#![tactic(auto, using(decimal::proofs::PageLaws::extends))]

ghost use Rattle.std.specs.Prelude.{◌≤◌};
ghost use Rattle.decimal.specs.Page.{Extends};

use decimal::Page;
use job::layout;
use view::{Layer, View};

mod row;

use row::Row;
pub use row::{
    count_below, count_of_layer, count_without_length, farthest, highest, in_tenths,
    in_thousandths, is_number,
};

// Where the axes end: in 0.1 km and in 0.001 deg. What is drawn by one end alone takes that one.
#[derive(Clone, Copy)]
pub struct Ends {
    pub across: u32,
    pub up: u32,
}

// Where the line of the asked length stands.
pub fn asked_line(view: View) -> u32
    ensures { (640 ≤ result) × (result ≤ 6400) }
{
    scale::asked_line(farthest(view), in_tenths(view.asked()))
}

// The places of a row.
fn places(row: Row, ends: Ends) -> [u32; 2] {
    [
        scale::ax(row.hop(), ends.across),
        scale::ay(row.angle(), ends.up),
    ]
}

// The row before it.
fn previous(row: Row) -> Option<Row> {
    let r = row.r.checked_sub(1)?;
    Some(Row { view: row.view, r })
}

// The row after it.
fn next(row: Row) -> Option<Row> {
    if row.r < layout::COLUMN_ROWS - 1 {
        return Some(Row {
            view: row.view,
            r: row.r + 1,
        });
    }
    None
}

// Whether the line of one layer goes on from a row to the next.
fn joined(from: Row, to: Row) -> bool {
    from.drawn() && to.drawn() && from.layer() == to.layer()
}

// Whether another layer begins there.
fn jumps(from: Row, to: Row) -> bool {
    from.drawn() && to.drawn() && from.layer() != to.layer()
}

fn colour(layer: Layer, page: &mut Page)
    ensures { Extends page.old page.new }
{
    match layer {
        Layer::E => page.text(b"#c04a00"),
        Layer::F1 => page.text(b"#00805a"),
        Layer::F2 => page.text(b"#0060a8"),
    }
}

// The end of a layer's line.
fn stroke(layer: Layer, page: &mut Page)
    ensures { Extends page.old page.new }
{
    page.text(b"\" stroke=\"");
    colour(layer, page);
    page.text(b"\"/>\n");
}

// A row's part of its layer's line.
fn line(row: Row, ends: Ends, page: &mut Page)
    ensures { Extends page.old page.new }
{
    let v = places(row, ends);
    let goes_on = next(row).is_some_and(|to| joined(row, to));
    if previous(row).is_some_and(|from| joined(from, row)) {
        page.filled(b"L@At0 @Bt0", &v);
        if !goes_on {
            stroke(row.layer().into(), page);
        }
    } else if goes_on {
        page.filled(b"<path d=\"M@At0 @Bt0", &v);
    }
}

fn jump(row: Row, ends: Ends, page: &mut Page)
    ensures { Extends page.old page.new }
{
    if let Some(from) = previous(row)
        && jumps(from, row)
    {
        let [a, b] = places(from, ends);
        let [c, d] = places(row, ends);
        page.filled(
            b"<path d=\"M@At0 @Bt0L@Ct0 @Dt0\" stroke=\"#000\" stroke-width=\"1.2\" stroke-dasharray=\"5 4\"/>\n",
            &[a, b, c, d],
        );
    }
}

// The outline of a layer's mark: dot, square, triangle.
fn outline(layer: Layer, x: u32, y: u32, page: &mut Page)
    ensures { Extends page.old page.new }
{
    let v = [
        x,
        y,
        x.saturating_sub(40),
        y.saturating_sub(40),
        y.saturating_sub(52),
    ];
    match layer {
        Layer::E => page.filled(b"<circle cx=\"@At0\" cy=\"@Bt0\" r=\"4.2\" ", &v),
        Layer::F1 => page.filled(b"<path d=\"M@Ct0 @Dt0h8v8h-8z\" ", &v),
        Layer::F2 => page.filled(b"<path d=\"M@At0 @Et0l5 9.2h-10z\" ", &v),
    }
}

// A layer's mark at a place, by the layer's number.
pub fn mark(n: u32, x: u32, y: u32, hollow: bool, page: &mut Page)
    ensures { Extends page.old page.new }
{
    let layer = Layer::from(n);
    outline(layer, x, y, page);
    if hollow {
        page.text(b"fill=\"#fff\" stroke=\"");
        colour(layer, page);
        page.text(b"\" stroke-width=\"1.5\"/>");
    } else {
        page.text(b"fill=\"");
        colour(layer, page);
        page.text(b"\" stroke=\"#fff\" stroke-width=\".8\"/>");
    }
}

// Whether a row's mark is hollow: a row below 0 km, or one made at a cusp or after it.
fn hollow(row: Row) -> bool {
    row.below() || row.view.is_cusp(row.r) || row.view.is_after_cusp(row.r)
}

fn row_mark(row: Row, ends: Ends, page: &mut Page)
    ensures { Extends page.old page.new }
{
    if row.drawn() {
        let [x, y] = places(row, ends);
        mark(row.layer(), x, y, hollow(row), page);
        page.text(b"\n");
    }
}

// Each crate that draws has its own `each`: a public one would have to require what its closure does, and no public function requires anything.
fn each<F: Fn(Row, &mut Page)>(view: View, page: &mut Page, draw: F)
    requires callable { F.IsAlwaysCallable draw }
    requires extends { (row : _) (p : _) (q : _) → F.post draw row p tt q → Extends p.now q.now }
    ensures { Extends page.old page.new }
{
    for r in 0..layout::COLUMN_ROWS {
        draw(Row { view, r }, page);
    }
}

// The curve: each layer's line, the jumps between them, and the marks.
pub fn curve(view: View, ends: Ends, page: &mut Page)
    ensures { Extends page.old page.new }
{
    page.text(b"<g fill=\"none\" stroke-width=\"2.2\" stroke-linejoin=\"round\">\n");
    each(view, page, |row, page| line(row, ends, page));
    page.text(b"</g>\n");
    each(view, page, |row, page| jump(row, ends, page));
    each(view, page, |row, page| row_mark(row, ends, page));
}
