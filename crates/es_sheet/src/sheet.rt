// The page: the point that governs, what was asked, slots 4 and 5.
#![tactic(auto, using(decimal::proofs::PageLaws::pages), unfolding(words::specs::Lists::tab))]

ghost use Rattle.std.specs.Prelude.{◌≡◌};
ghost use Rattle.decimal.specs.Page.{added};
ghost use Rattle.es_file.specs.File.{governing_fs};
ghost use Rattle.es_sheet.specs.Page.{head_values, head_text, is_empty, slot_text, why_text, slots_text, page_of};

use decimal::Page;
use esmod::{EsHop, EsModes};
use job::layout;
use view::word;

// The bits of the middle fs of the point that governs.
fn middle(file: &[u8]) -> u32
    ensures { result ≡ governing_fs file.now }
{
    let k = es_file::chosen(file);
    word(file, es_file::FS + layout::POINT_NUMBERS * k + 1)
}

fn head_values(file: &[u8]) -> [u32; 9]
    ensures { result ≡ head_values file.now }
{
    let k = es_file::chosen(file);
    [
        k as u32,
        word(file, es_file::KM),
        middle(file),
        word(file, es_file::HS + k),
        word(file, es_file::FREQ),
        word(file, es_file::AMIND),
        word(file, es_file::GCDKM),
        word(file, es_file::FSDEAD),
        word(file, es_file::GCD),
    ]
}

fn head(file: &[u8], page: &mut Page)
    ensures { page.new ≡ added page.old (head_text file.now) }
{
    page.filled(
        b": slots 4 and 5\n------------------------------------------------------------------------------\n  Point @Aw1 of the @Bw1, counted from 0, governs: the smallest middle fs.\n\n  Frequency     @E39 MHz          Middle fs     @C39 MHz\n  Path, gcdkm   @G19 km           Height, hs    @D19 km\n  Path, gcd     @I39 rad          Cutoff, fsdead@H39 MHz\n  Minimum angle @F39 deg\n\nRAYS by sporadic E\nslot  hops    take-off      height       delay\n                 angle\n                   deg          km          ms\n",
        &head_values(file),
    );
}

// An empty slot has -1 hops.
fn empty(h: EsHop) -> bool
    ensures { result ≡ is_empty h }
{
    h.hn < 0.0
}

fn slot(s: u32, h: EsHop, page: &mut Page)
    ensures { page.new ≡ added page.old (slot_text s h) }
{
    if empty(h) {
        page.filled(b"  @Aw1   empty\n", &[s]);
        return;
    }
    let v = [
        s,
        words::bits(h.hn),
        words::bits(h.b),
        words::bits(h.hp),
        words::bits(h.timed),
    ];
    page.filled(b"  @Aw1   @B01      @C39   @D19   @E39\n", &v);
}

// Why both slots are empty.
fn why(file: &[u8], page: &mut Page)
    ensures { page.new ≡ added page.old (why_text file.now) }
{
    if view::at_least(word(file, es_file::FSDEAD), word(file, es_file::FREQ)) {
        page.text(b"No ray: the frequency is not above the cutoff, fsdead.\n");
    } else if view::at_least(0, middle(file)) {
        page.text(b"No ray: the middle fs is not above 0.\n");
    } else {
        page.text(b"No ray: by one or two hops the path is too long, or the angle too low.\n");
    }
}

fn slots(file: &[u8], m: EsModes, page: &mut Page)
    ensures { page.new ≡ added page.old (slots_text file.now m) }
{
    slot(4, m.slot4, page);
    slot(5, m.slot5, page);
    if empty(m.slot4) & empty(m.slot5) {
        why(file, page);
    }
}

#[tactic(auto, using(decimal::proofs::PageLaws::pages), unfolding(words::specs::Lists::tab, crate::specs::Page::page_of))]
pub fn page(name: &[u8], file: &[u8], page: &mut Page)
    ensures { page.new ≡ added page.old (page_of name.now file.now) }
{
    page.text(b"SPORADIC E of ");
    names::shown(name, page);
    head(file, page);
    slots(file, es_file::modes(file), page);
}
