// The two lines of a file that is refused.
#![tactic(auto, using(decimal::proofs::PageLaws::pages, std::proofs::lemmas::Bool::Decides::nat_tests), unfolding(words::specs::Lists::tab, crate::specs::Refusal::single_text, crate::specs::Refusal::word_text))]

ghost use Rattle.std.specs.Prelude.{◌≡◌};
ghost use Rattle.decimal.specs.Page.{added};
ghost use Rattle.limits.specs.Limits.{number_of};
ghost use Rattle.es_file.specs.File.{counted};
ghost use Rattle.es_sheet.specs.Refusal.{sentence_of, single_text, word_text, line_of, length_text, found_text, refusal_text};

use decimal::Page;
use job::layout;
use limits::Refusal;
use view::word;

fn sentence(broken: Refusal, page: &mut Page)
    ensures { page.new ≡ added page.old (sentence_of (number_of broken)) }
{
    match broken {
        Refusal::Job => page.text(b"the file is not 104 bytes long\n"),
        Refusal::Freq => page.text(b"the frequency, freq, is not within 2 to 30 MHz\n"),
        Refusal::Amind => page.text(b"the minimum angle, amind, is not within 0 to 90 deg\n"),
        _ => page.text(b"km, fs, hs, gcd, gcdkm or fsdead is not within its range\n"),
    }
}

// A number that is none of a point's.
fn single(w: u32, i: usize, page: &mut Page)
    ensures { page.new ≡ added page.old (single_text w i) }
{
    match i {
        es_file::GCD => page.filled(
            b"  found: gcd @A3l (@Ax0), which has to be 0.001 to 3.2 radians\n",
            &[w],
        ),
        es_file::GCDKM => page.filled(
            b"  found: gcdkm @A3l (@Ax0), which has to be 0 to 20100 km\n",
            &[w],
        ),
        es_file::AMIND => page.filled(b"  found: amind @A3l (@Ax0)\n", &[w]),
        es_file::FREQ => page.filled(b"  found: freq @A3l (@Ax0)\n", &[w]),
        _ => page.filled(
            b"  found: fsdead @A3l (@Ax0), which has to be 0 to 100 MHz\n",
            &[w],
        ),
    }
}

// Word i of the file, whose bits are w.
fn word_line(w: u32, i: usize, page: &mut Page)
    ensures { page.new ≡ added page.old (word_text w i) }
{
    match i {
        es_file::KM => page.filled(b"  found: km @Aw0, which has to be 1 to 5\n", &[w]),
        es_file::FS..es_file::HS => {
            let fs = i - es_file::FS;
            let which = (fs % layout::POINT_NUMBERS + 1) as u32;
            let point = (fs / layout::POINT_NUMBERS) as u32;
            page.filled(
                b"  found: fs @Aw0, point @Bw0: @C3l (@Cx0), which has to be 0 to 100 MHz\n",
                &[which, point, w],
            );
        }
        es_file::HS..es_file::GCD => {
            let point = (i - es_file::HS) as u32;
            page.filled(
                b"  found: hs, point @Aw0: @B3l (@Bx0), which has to be 80 to 200 km\n",
                &[point, w],
            );
        }
        _ => single(w, i, page),
    }
}

// The word that is found.
fn line(file: &[u8], found: Option<usize>, page: &mut Page)
    ensures { page.new ≡ added page.old (line_of file.now (counted found)) }
{
    if let Some(i) = found {
        word_line(word(file, i), i, page);
    }
}

// Of a file of n bytes, of which no more are read than one too many.
fn bytes(n: usize, page: &mut Page)
    ensures { page.new ≡ added page.old (length_text n) }
{
    if n > es_file::BYTES {
        page.text(b"  found: more than 104 bytes\n");
    } else {
        page.filled(b"  found: @Aw0 bytes\n", &[n as u32]);
    }
}

fn found(file: &[u8], page: &mut Page)
    ensures { page.new ≡ added page.old (found_text file.now) }
{
    if file.len() == es_file::BYTES {
        line(file, es_file::found(file), page);
    } else {
        bytes(file.len(), page);
    }
}

// Of a file whose first broken limit is `number`. One that no limit has is told as Es.
#[tactic(auto, using(decimal::proofs::PageLaws::pages), unfolding(words::specs::Lists::tab, crate::specs::Refusal::refusal_text))]
pub fn refusal(name: &[u8], file: &[u8], number: u32, page: &mut Page)
    ensures { page.new ≡ added page.old (refusal_text name.now file.now number) }
{
    let broken = Refusal::try_from(number).unwrap_or(Refusal::Es);
    names::plains(name, page);
    page.filled(b": refused, limit @Aw0: ", &[number]);
    sentence(broken, page);
    found(file, page);
}
