// The service sheet of a job and its answer, as text.
#![tactic(auto, using(decimal::proofs::PageLaws::extends))]

ghost use Rattle.decimal.specs.Page.{Extends};

mod head;

use decimal::Page;
use view::View;

// The sheet with this heading. Order 3 has a heading for each point.
fn page(heading: &[u8], name: &[u8], view: View, page: &mut Page)
    ensures { Extends page.old page.new }
{
    head::title(heading, name, page);
    head::said(view, page);
    head::asked(view, page);
    tables::slots(view, page);
    tables::rows(view, page);
    tables::last(view, page);
}

pub fn sheet(name: &[u8], view: View, page: &mut Page)
    ensures { Extends page.old page.new }
{
    self::page(b"SERVICE SHEET", name, view, page);
}
