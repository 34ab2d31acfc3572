// The drawing of a reflectrix, in SVG: hop length across, take-off angle up, the rows, the asked length, the rays.
#![tactic(auto, using(decimal::proofs::PageLaws::extends))]

ghost use Rattle.decimal.specs.Page.{Extends};

use curve::Ends;
use decimal::Page;
use view::View;

mod head;
mod legend;

// The highest angle to be shown: a row's, a ray's or the minimum; 90 deg where there are no rows.
fn highest(view: View) -> u32 {
    if view.rows() == 0 {
        return 90_000;
    }
    curve::highest(view)
        .max(rays::highest(view))
        .max(curve::in_thousandths(view::word(view.job, view::AMIND)))
}

// What stands inside the plot.
fn plotted(view: View, ends: Ends, page: &mut Page)
    ensures { Extends page.old page.new }
{
    plot::dotted(view, ends.across, page);
    curve::curve(view, ends, page);
    plot::asked(view, ends.up, page);
    plot::labels(view, ends.across, page);
    rays::rays(view, ends.up, page);
}

// The drawing, behind what the page has.
pub fn drawing(name: &[u8], view: View, page: &mut Page)
    ensures { Extends page.old page.new }
{
    let across = scale::across(curve::farthest(view), curve::in_tenths(view.asked()));
    let up = scale::up(highest(view));
    head::head(name, view, page);
    plot::grid(view, across, up, page);
    let ends = Ends {
        across: across.end,
        up: up.end,
    };
    plotted(view, ends, page);
    legend::legend(view, page);
    page.text(b"</svg>\n");
}
