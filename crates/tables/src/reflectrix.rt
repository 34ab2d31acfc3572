// The rows of the reflectrix.
#![tactic(auto, using(decimal::proofs::PageLaws::extends))]

ghost use Rattle.std.specs.Prelude.{◌≡◌, ◌<◌};
ghost use Rattle.decimal.specs.Page.{Extends};
ghost use Rattle.tables.specs.Letters.{letter_of};

use crate::letters;
use decimal::Page;
use job::layout;
use std::cmp::Ordering;
use view::{RowKind, View, word};

// How a row's length stands to the asked one, of floats by their bits.
fn mark(length: u32, asked: u32) -> u8 {
    match words::float(length).partial_cmp(&words::float(asked)) {
        Some(Ordering::Less) => b'<',
        Some(Ordering::Greater) => b'>',
        Some(Ordering::Equal) => b'=',
        None => b'?',
    }
}

// How a row was made.
fn kind_letter(k: Option<RowKind>) -> u8
    ensures { result ≡ letter_of k }
{
    match k {
        None => b'?',
        Some(RowKind::Exact) => b't',
        Some(RowKind::Interp) => b'b',
        Some(RowKind::Cusp) => b'c',
        Some(RowKind::NextCusp) => b'a',
    }
}

// A row for which the answer has room, counted from 0. `curve` has one of its own: what is done with a row is an impl, and an impl stands in its type's crate.
#[derive(Clone, Copy)]
struct Row<'a> {
    view: View<'a>,
    r: usize,
    ghost has_room: { r < 45 },
}

impl Row<'_> {
    fn values(self) -> [u32; 7] {
        let Row { view, r } = self;
        [
            (r + 1) as u32,
            word(view.answer, layout::DELFX + r),
            word(view.answer, layout::GDFLX + r),
            word(view.answer, layout::HPFLX + r),
            word(view.answer, layout::HTFLX + r),
            word(view.answer, layout::FVFLX + r),
            word(view.answer, layout::AFFLX + r),
        ]
    }

    // Its layer and the letter of its kind.
    fn layer_and_kind(self, page: &mut Page)
        ensures { Extends page.old page.new }
    {
        let Row { view, r } = self;
        letters(word(view.answer, layout::IMODE + r).into(), page);
        page.put(b' ');
        page.put(kind_letter(view.row_kind(r)));
    }

    fn line(self, page: &mut Page)
        ensures { Extends page.old page.new }
    {
        let v = self.values();
        page.filled(b"  @Aw2  ", &v);
        self.layer_and_kind(page);
        page.filled(b"   @B39   @C18 ", &v);
        page.put(mark(v[2], self.view.asked()));
        page.filled(b"@D18 @E19  @F39  @G2:\n", &v);
    }
}

fn heading(n: u32, page: &mut Page)
    ensures { Extends page.old page.new }
{
    if n == 1 {
        page.text(b"\nREFLECTRIX, 1 row\n");
    } else {
        page.filled(b"\nREFLECTRIX, @Aw1 rows\n", &[n]);
    }
}

// The table of rows with its heading.
pub fn rows(view: View, page: &mut Page)
    ensures { Extends page.old page.new }
{
    let n = word(view.answer, layout::ROWS);
    heading(n, page);
    if n == 0 {
        page.text(b"\n");
        return;
    }
    page.text(
        b" row  layer   take-off         hop   virtual      true   vertical  absorption\n                 angle      length    height    height  frequency      factor\n                   deg          km        km        km        MHz\n",
    );
    for r in 0..view.rows() {
        Row { view, r }.line(page);
    }
    page.text(
        b"      hop: < shorter than the asked one, > longer, = the same, ? not a number\n      row: t from the table, b between two entries, c cusp, a after a cusp\n\n",
    );
}
