// Names as the sheet and the drawing show them: a job's and a layer's.
#![tactic(auto, using(decimal::proofs::PageLaws::pages))]

ghost use Rattle.std.specs.Prelude.{◌≡◌};
ghost use Rattle.decimal.specs.Page.{added};
ghost use Rattle.names.specs.Names.{plain_of, plains_of, last_of, cut_of, shown_of, width_of, layer_of};

use decimal::Page;
use view::Layer;

// The most characters, and how many are left where there are more.
const MOST: usize = 48;

const LEFT: usize = 45;

// A byte outside 32 to 126 is `?`.
fn plain(b: u8) -> u8
    ensures { result ≡ plain_of b }
{
    match b {
        32..=126 => b,
        _ => b'?',
    }
}

// A text with each byte outside 32 to 126 as `?`.
#[tactic(auto, using(decimal::proofs::PageLaws::pages, crate::proofs::NamesLaws::plains_next))]
pub fn plains(s: &[u8], page: &mut Page)
    ensures { page.new ≡ added page.old (plains_of s.now) }
{
    for b in s {
        page.put(plain(*b));
    }
}

// The last part, after the last `/`.
fn last(name: &[u8]) -> &[u8]
    ensures { result.now ≡ last_of name.now }
{
    match name.iter().rposition(|b| *b == b'/') {
        Some(i) => &name[i + 1..],
        None => name,
    }
}

#[tactic(auto, using(decimal::proofs::PageLaws::pages, crate::proofs::NamesLaws::to_end), unfolding(crate::specs::Names::cut_of))]
fn cut(part: &[u8], page: &mut Page)
    ensures { page.new ≡ added page.old (cut_of part.now) }
{
    if part.len() > MOST {
        page.text(b"...");
        plains(&part[part.len() - LEFT..], page);
    } else {
        plains(part, page);
    }
}

// How many characters are shown of a name.
pub fn width(name: &[u8]) -> usize
    ensures { result ≡ width_of name.now }
{
    last(name).len().min(MOST)
}

// The name's last part, cut from the left to `...` and 45 characters where it has more than 48.
pub fn shown(name: &[u8], page: &mut Page)
    ensures { page.new ≡ added page.old (shown_of name.now) }
{
    cut(last(name), page);
}

// A layer's name, by its number: 1 E, 2 F1, else F2.
pub fn layer(n: u32, page: &mut Page)
    ensures { page.new ≡ added page.old (layer_of n) }
{
    match Layer::from(n) {
        Layer::E => page.text(b"E"),
        Layer::F1 => page.text(b"F1"),
        Layer::F2 => page.text(b"F2"),
    }
}
