// What was found in the job where the limit is broken. The place is looked for here; where none is found there is no line.
// A place is the number of a word, as in `job::layout`: the job is lent bytes, of any length, and has no fields to name.
#![tactic(auto, using(decimal::proofs::PageLaws::extends))]

ghost use Rattle.std.specs.Prelude.{◌<◌};
ghost use Rattle.decimal.specs.Page.{Extends};

use decimal::Page;
use job::layout;
use limits::Refusal;

// Word i of the job.
fn word(job: &[u8], i: usize) -> u32 {
    if i < layout::TABLES + layout::TABLES_WORDS {
        return words::word(job, 4 * i);
    }
    0
}

// Shared word i of the job.
fn shared(job: &[u8], i: usize) -> u32
    requires { i < 64 }
{
    word(job, layout::SHARED + i)
}

pub(crate) fn found(job: &[u8], broken: Refusal, page: &mut Page)
    ensures { Extends page.old page.new }
{
    match broken {
        Refusal::Job => bytes(job, page),
        Refusal::Fi => critical(job, page),
        Refusal::Table => value(job, page),
        Refusal::Ifob => entry(job, page),
        _ => first(job, broken, page),
    }
}

// es_sheet says the same of a file, each text in its contract; here none is, and one function for both would stand in a crate below, for these two lines.
fn bytes(job: &[u8], page: &mut Page)
    ensures { Extends page.old page.new }
{
    let n = job.len();
    if n > layout::JOB_BYTES {
        page.text(b"  found: more than 5360 bytes\n");
        return;
    }
    page.filled(b"  found: @Aw0 bytes\n", &[n as u32]);
}

// One of the first words.
fn first(job: &[u8], broken: Refusal, page: &mut Page)
    ensures { Extends page.old page.new }
{
    match broken {
        Refusal::K => page.filled(b"  found: k @Aw0\n", &[word(job, layout::K)]),
        Refusal::Nang => page.filled(b"  found: nang @Aw0\n", &[shared(job, layout::NANG)]),
        Refusal::Freq => page.filled(b"  found: freq @A3l (@Ax0)\n", &[shared(job, layout::FREQ)]),
        Refusal::Amind => page.filled(
            b"  found: amind @A3l (@Ax0)\n",
            &[shared(job, layout::AMIND)],
        ),
        _ => page.filled(b"  found: ghop @A3l (@Ax0)\n", &[shared(job, layout::GHOP)]),
    }
}

// The first of the two critical frequencies of the point that is out of its range.
fn critical(job: &[u8], page: &mut Page)
    ensures { Extends page.old page.new }
{
    let k = word(job, layout::K);
    if k > 4 {
        return;
    }
    let f1 = shared(job, layout::FI + layout::POINT_NUMBERS * (k as usize) + 1);
    let f2 = shared(job, layout::FI + layout::POINT_NUMBERS * (k as usize) + 2);
    if limits::FI_2.holds(words::float(f1)) {
        page.filled(
            b"  found: F2 at point @Aw0: @B3l (@Bx0), which has to be 0.1 to 100 MHz\n",
            &[k, f2],
        );
    } else {
        page.filled(
            b"  found: F1 at point @Aw0: @B3l (@Bx0), which has to be 0 to 100 MHz\n",
            &[k, f1],
        );
    }
}

// Value i of the four tables, counted from 0 through all of them.
fn tabled(job: &[u8], i: usize) -> u32 {
    if i < layout::IFOB {
        return word(job, layout::TABLES + i);
    }
    0
}

fn value_within(job: &[u8], i: usize) -> bool {
    let x = words::float(tabled(job, i));
    if i < layout::HPRIM {
        return limits::FVERT.holds(x);
    }
    if i < layout::HTRUE {
        return limits::HPRIM.holds(x);
    }
    if i < layout::AFAC {
        return limits::HTRUE.holds(x);
    }
    limits::AFAC.holds(x)
}

// The first value of the tables that is out of its range.
fn value(job: &[u8], page: &mut Page)
    ensures { Extends page.old page.new }
{
    let Some(i) = (0..layout::IFOB).find(|i| !value_within(job, *i)) else {
        return;
    };
    let v = [(i % layout::TABLE_ROWS + 1) as u32, tabled(job, i)];
    if i < layout::HPRIM {
        page.filled(
            b"  found: fvert, row @Aw0: @B3l (@Bx0), which has to be 0 to 100 MHz\n",
            &v,
        );
    } else if i < layout::HTRUE {
        page.filled(
            b"  found: hprim, row @Aw0: @B3l (@Bx0), which has to be 0 to 10000 km\n",
            &v,
        );
    } else if i < layout::AFAC {
        page.filled(
            b"  found: htrue, row @Aw0: @B3l (@Bx0), which has to be 0 to 2000 km\n",
            &v,
        );
    } else {
        page.filled(
            b"  found: afac, row @Aw0: @B3l (@Bx0), which has to be -1000000 to 1000000\n",
            &v,
        );
    }
}

const ROWS: u32 = layout::TABLE_ROWS as u32;

// Entry i of ifob.
fn listed(job: &[u8], i: usize) -> u32 {
    if i < layout::ENTRIES {
        return word(job, layout::TABLES + layout::IFOB + i);
    }
    0
}

// The first entry out of its range: as a word one below 0 is above every one within.
fn entry(job: &[u8], page: &mut Page)
    ensures { Extends page.old page.new }
{
    let Some(i) = (0..layout::ENTRIES as u32).find(|i| listed(job, *i as usize) > 99999) else {
        return;
    };
    let angle = i / ROWS + 1;
    let row = i % ROWS + 1;
    let w = listed(job, i as usize);
    if w < 0x8000_0000 {
        page.filled(
            b"  found: ifob, angle @Aw0, row @Bw0: @Cw0\n",
            &[angle, row, w],
        );
    } else {
        // As far below 0 as the entry is.
        let below = w.wrapping_neg();
        page.filled(
            b"  found: ifob, angle @Aw0, row @Bw0: -@Cw0\n",
            &[angle, row, below],
        );
    }
}
