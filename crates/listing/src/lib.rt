// All words of an answer: number, name, value, bits, a line each.
#![tactic(auto, using(decimal::proofs::PageLaws::extends))]

ghost use Rattle.decimal.specs.Page.{Extends};

use decimal::Page;
use job::layout;

// The parts: the first word, how many there are, and the line of each. A part's name stands here and nowhere else.
// In a line A is the word's number, B the place in its part, counted from 1, and C the word.
const PARTS: [(usize, usize, &[u8]); 26] = [
    (layout::ROWS, 1, b"@Aw4  rows       @Cw;         @Cx0\n"),
    (layout::LOOKS, 1, b"@Aw4  looks      @Cw;         @Cx0\n"),
    (layout::PAIRS, 1, b"@Aw4  pairs      @Cw;         @Cx0\n"),
    (
        layout::DELPEN,
        layout::LAYERS,
        b"@Aw4  delpen @Bw2  @C3; deg     @Cx0\n",
    ),
    (layout::DSKPKM, 1, b"@Aw4  dskpkm     @C1; km      @Cx0\n"),
    (layout::DELSKP, 1, b"@Aw4  delskp     @C3; deg     @Cx0\n"),
    (layout::HPSKP, 1, b"@Aw4  hpskp      @C1; km      @Cx0\n"),
    (layout::HTSKP, 1, b"@Aw4  htskp      @C1; km      @Cx0\n"),
    (layout::DMAXKM, 1, b"@Aw4  dmaxkm     @C1; km      @Cx0\n"),
    (layout::FVSKP, 1, b"@Aw4  fvskp      @C3; MHz     @Cx0\n"),
    (layout::ISKP, 1, b"@Aw4  iskp       @Cw;         @Cx0\n"),
    (layout::IAFTXR, 1, b"@Aw4  iaftxr     @Cw;         @Cx0\n"),
    (
        layout::DELFX,
        layout::COLUMN_ROWS,
        b"@Aw4  delfx @Bw2   @C3; deg     @Cx0\n",
    ),
    (
        layout::HPFLX,
        layout::COLUMN_ROWS,
        b"@Aw4  hpflx @Bw2   @C1; km      @Cx0\n",
    ),
    (
        layout::HTFLX,
        layout::COLUMN_ROWS,
        b"@Aw4  htflx @Bw2   @C1; km      @Cx0\n",
    ),
    (
        layout::GDFLX,
        layout::COLUMN_ROWS,
        b"@Aw4  gdflx @Bw2   @C1; km      @Cx0\n",
    ),
    (
        layout::FVFLX,
        layout::COLUMN_ROWS,
        b"@Aw4  fvflx @Bw2   @C3; MHz     @Cx0\n",
    ),
    (
        layout::AFFLX,
        layout::COLUMN_ROWS,
        b"@Aw4  afflx @Bw2   @C2;         @Cx0\n",
    ),
    (
        layout::IMODE,
        layout::COLUMN_ROWS,
        b"@Aw4  imode @Bw2   @Cw;         @Cx0\n",
    ),
    (
        layout::KIND,
        layout::COLUMN_ROWS,
        b"@Aw4  kind @Bw2    @Cw;         @Cx0\n",
    ),
    (
        layout::DELMOD,
        layout::SLOTS,
        b"@Aw4  delmod @Bw2  @C3; deg     @Cx0\n",
    ),
    (
        layout::HPMOD,
        layout::SLOTS,
        b"@Aw4  hpmod @Bw2   @C1; km      @Cx0\n",
    ),
    (
        layout::HTMOD,
        layout::SLOTS,
        b"@Aw4  htmod @Bw2   @C1; km      @Cx0\n",
    ),
    (
        layout::FVMOD,
        layout::SLOTS,
        b"@Aw4  fvmod @Bw2   @C3; MHz     @Cx0\n",
    ),
    (
        layout::ITMOD,
        layout::SLOTS,
        b"@Aw4  itmod @Bw2   @Cw;         @Cx0\n",
    ),
    (
        layout::AFMOD,
        layout::SLOTS,
        b"@Aw4  afmod @Bw2   @C2;         @Cx0\n",
    ),
];

pub fn listing(answer: &[u8], page: &mut Page)
    ensures { Extends page.old page.new }
{
    page.text(b"word  name             value         bits\n");
    for (first, count, line) in PARTS {
        part(answer, first, count, line, page);
    }
}

fn part(answer: &[u8], first: usize, count: usize, line: &[u8], page: &mut Page)
    ensures { Extends page.old page.new }
{
    for i in 0..count {
        word(answer, first, i, line, page);
    }
}

// Word i of a part.
fn word(answer: &[u8], first: usize, i: usize, line: &[u8], page: &mut Page)
    ensures { Extends page.old page.new }
{
    if first >= layout::ANSWER_BYTES || i >= layout::COLUMN_ROWS {
        return;
    }
    let n = first + i;
    let w = words::word(answer, 4 * n);
    page.filled(line, &[n as u32, i as u32 + 1, w]);
}
