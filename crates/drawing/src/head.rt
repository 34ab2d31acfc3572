// The head: the name, the frequency and the verdict.
ghost use Rattle.decimal.specs.Page.{Extends};

use decimal::Page;
use view::View;

// A byte of text in XML.
fn escaped_byte(b: u8, page: &mut Page)
    ensures { Extends page.old page.new }
{
    match b {
        b'&' => page.text(b"&amp;"),
        b'<' => page.text(b"&lt;"),
        b'>' => page.text(b"&gt;"),
        _ => page.put(b),
    }
}

// A line, its first 128 bytes, as text in XML.
fn escaped<F: FnOnce(&mut Page)>(page: &mut Page, write: F)
    requires { F.IsAlwaysCallable write }
    ensures { Extends page.old page.new }
{
    let mut bytes = [0; 128];
    let mut line = Page::new(&mut bytes);
    write(&mut line);
    for b in line.written() {
        escaped_byte(*b, page);
    }
}

// More characters than this do not fit beside the frequency at the title's size.
const SHORT: usize = 28;

fn titled(name: &[u8], page: &mut Page)
    ensures { Extends page.old page.new }
{
    if names::width(name) > SHORT {
        page.text(b"<text x=\"64\" y=\"28\" font-size=\"12\" font-weight=\"bold\">Reflectrix: ");
    } else {
        page.text(b"<text x=\"64\" y=\"28\" font-size=\"18\" font-weight=\"bold\">Reflectrix: ");
    }
    escaped(page, |line| names::shown(name, line));
}

// <title> and <desc>.
fn described(name: &[u8], view: View, page: &mut Page)
    ensures { Extends page.old page.new }
{
    escaped(page, |line| names::shown(name, line));
    page.text(b"</title>\n<desc>");
    escaped(page, |line| verdict::first(view, line));
    page.text(b" ");
    escaped(page, |line| verdict::second(view, line));
    page.text(b"</desc>\n<rect width=\"840\" height=\"620\" fill=\"#fff\"/>\n");
}

fn verdict_lines(view: View, page: &mut Page)
    ensures { Extends page.old page.new }
{
    escaped(page, |line| verdict::first(view, line));
    page.text(b"</text>\n<text x=\"64\" y=\"68\" font-size=\"14\">");
    escaped(page, |line| verdict::second(view, line));
    page.text(b"</text>\n");
}

pub(crate) fn head(name: &[u8], view: View, page: &mut Page)
    ensures { Extends page.old page.new }
{
    page.text(
        b"<svg xmlns=\"http://www.w3.org/2000/svg\" viewBox=\"0 0 840 620\" width=\"840\" height=\"620\" font-family=\"Helvetica,Arial,sans-serif\" font-size=\"13\" fill=\"#000\">\n<title>Reflectrix, ",
    );
    described(name, view, page);
    titled(name, page);
    page.filled(
        b"</text>\n<text x=\"824\" y=\"28\" text-anchor=\"end\" font-size=\"18\" font-weight=\"bold\">@A3i MHz</text>\n<text x=\"64\" y=\"50\" font-size=\"14\">",
        &[view::word(view.job, view::FREQ)],
    );
    verdict_lines(view, page);
}
