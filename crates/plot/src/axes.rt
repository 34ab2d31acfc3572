// The ground below the minimum angle, the grid, and the marked axes.
ghost use Rattle.decimal.specs.Page.{Extends};

use decimal::Page;
use scale::Axis;
use view::View;

// No axis has more marks, with that at 0.
const MARKS: u32 = 11;

// The units of an axis in its numbers' unit: 0.1 km and 0.001 deg.
const ACROSS: u32 = 10;

const UP: u32 = 1000;

// The place of mark i, and its number.
fn mark_across(a: Axis, i: u32) -> [u32; 2] {
    let n = a.step.saturating_mul(i);
    [scale::ax(n.saturating_mul(ACROSS), a.end), n]
}

// The same, and the place of the number's foot.
fn mark_up(a: Axis, i: u32) -> [u32; 3] {
    let n = a.step.saturating_mul(i);
    let y = scale::ay(n.saturating_mul(UP), a.end);
    [y, n, y + 45]
}

// Below the minimum angle.
fn ground(view: View, up: u32, page: &mut Page)
    ensures { Extends page.old page.new }
{
    let minimum = curve::in_thousandths(view::word(view.job, view::AMIND));
    if minimum > 0 {
        let y = scale::ay(minimum, up);
        let v = [y, scale::BOTTOM - y];
        page.filled(
            b"<rect x=\"64\" y=\"@At0\" width=\"576\" height=\"@Bt0\" fill=\"#ececec\"/>\n",
            &v,
        );
    }
}

// Each mark of an axis from one on; that at 0 is its first. Each crate that draws has its own `each`: a public one would have to require what its closure does, and no public function requires anything.
fn each<F: Fn(u32, &mut Page)>(from: u32, axis: Axis, page: &mut Page, draw: F)
    requires callable { F.IsAlwaysCallable draw }
    requires extends { (i : _) (p : _) (q : _) → F.post draw i p tt q → Extends p.now q.now }
    ensures { Extends page.old page.new }
{
    for i in from..=axis.count.min(MARKS - 1) {
        draw(i, page);
    }
}

// The two axes stay apart: each line and number is of one of them.
fn lines(across: Axis, up: Axis, page: &mut Page)
    ensures { Extends page.old page.new }
{
    page.text(b"<g stroke=\"#d8d8d8\">\n");
    each(1, across, page, |i, page| {
        page.filled(b"<path d=\"M@At0 126V544\"/>\n", &mark_across(across, i))
    });
    each(1, up, page, |i, page| {
        page.filled(b"<path d=\"M64 @At0H640\"/>\n", &mark_up(up, i))
    });
}

fn numbers(across: Axis, up: Axis, page: &mut Page)
    ensures { Extends page.old page.new }
{
    page.text(b"</g>\n<g text-anchor=\"middle\">\n");
    each(0, across, page, |i, page| {
        page.filled(
            b"<text x=\"@At0\" y=\"562\">@Bw0</text>\n",
            &mark_across(across, i),
        )
    });
    page.text(b"<text x=\"352\" y=\"586\">hop length, km</text></g>\n<g text-anchor=\"end\">\n");
    each(0, up, page, |i, page| {
        page.filled(b"<text x=\"56\" y=\"@Ct0\">@Bw0</text>\n", &mark_up(up, i))
    });
    page.text(
        b"</g><text transform=\"translate(20 335) rotate(-90)\" text-anchor=\"middle\">take-off angle, deg</text>\n",
    );
}

pub fn grid(view: View, across: Axis, up: Axis, page: &mut Page)
    ensures { Extends page.old page.new }
{
    ground(view, up.end, page);
    lines(across, up, page);
    numbers(across, up, page);
}
