// Runs findf and fdist over a reflectrix and slots that are lent, and were used before: one accepted call and one refused call of each.
#![tactic(auto)]

mod say;

use fdist::HopModes;
use findf::{Reflectrix, Tables};
use limits::Refusal;
use std::io;

// No number is 0. The first hop lengths lie below the asked one, at it, above it and below it again.
fn used_reflectrix() -> Reflectrix {
    let mut gdflx = [2500.0; 45];
    gdflx[0] = 1000.0;
    gdflx[1] = 3185.0;
    gdflx[2] = 4000.0;
    let mut delfx = [10.0; 45];
    delfx[2] = 12.0;
    Reflectrix {
        delfx,
        hpflx: [300.0; 45],
        htflx: [150.0; 45],
        gdflx,
        fvflx: [4.5; 45],
        afflx: [0.25; 45],
        imode: [7; 45],
        kind: [10; 45],
        dskpkm: 1.0,
        delskp: 2.0,
        hpskp: 3.0,
        htskp: 4.0,
        dmaxkm: 5000.0,
        fvskp: 6.0,
        iskp: 8,
        delpen: [11.0, 12.0, 13.0],
        iaftxr: 9,
        rows_this_call: 14,
    }
}

fn used_slots() -> HopModes {
    HopModes {
        delmod: [1.0; 6],
        hpmod: [2.0; 6],
        htmod: [3.0; 6],
        fvmod: [4.0; 6],
        itmod: [6; 6],
        afmod: [7.0; 6],
    }
}

fn reflectrix(rt: &impl Print, r: &Reflectrix) -> io::Result<()> {
    say::floats(rt, "delfx", &r.delfx)?;
    say::floats(rt, "hpflx", &r.hpflx)?;
    say::floats(rt, "htflx", &r.htflx)?;
    say::floats(rt, "gdflx", &r.gdflx)?;
    say::floats(rt, "fvflx", &r.fvflx)?;
    say::floats(rt, "afflx", &r.afflx)?;
    say::numbers(rt, "imode", &r.imode)?;
    say::numbers(rt, "kind", &r.kind)?;
    say::floats(rt, "dskpkm", &[r.dskpkm])?;
    say::floats(rt, "delskp", &[r.delskp])?;
    say::floats(rt, "hpskp", &[r.hpskp])?;
    say::floats(rt, "htskp", &[r.htskp])?;
    say::floats(rt, "dmaxkm", &[r.dmaxkm])?;
    say::floats(rt, "fvskp", &[r.fvskp])?;
    say::numbers(rt, "iskp", &[r.iskp])?;
    say::floats(rt, "delpen", &r.delpen)?;
    say::count(rt, "iaftxr", r.iaftxr)?;
    say::count(rt, "rows_this_call", r.rows_this_call)
}

fn slots(rt: &impl Print, m: &HopModes) -> io::Result<()> {
    say::floats(rt, "delmod", &m.delmod)?;
    say::floats(rt, "hpmod", &m.hpmod)?;
    say::floats(rt, "htmod", &m.htmod)?;
    say::floats(rt, "fvmod", &m.fvmod)?;
    say::numbers(rt, "itmod", &m.itmod)?;
    say::floats(rt, "afmod", &m.afmod)
}

// A walk over layers E and F2 at 5 MHz, of nang angles.
fn walk(rfx: &mut Reflectrix, nang: usize) -> Result<u32, Refusal> {
    let mut fvert = [7.0; 30];
    fvert[9] = 3.0;
    let tables = Tables {
        fvert,
        hprim: [300.0; 30],
        htrue: [190.0; 30],
        afac: [0.5; 30],
        ifob: [6000; 1200],
    };
    let fi = [[4.0, 0.0, 7.0]; 5];
    by_reference::findf(rfx, 2, nang, 5.0, 3.0, fi, tables)
}

fn walked(rt: &impl Print, title: &str, nang: usize) -> io::Result<()> {
    let mut rfx = used_reflectrix();
    let looks = walk(&mut rfx, nang);
    println!(rt; "{title}")?;
    say::numbers(rt, "refusal", &[limits::code(looks)])?;
    say::numbers(rt, "looks", &[looks.unwrap_or(0)])?;
    reflectrix(rt, &rfx)
}

fn searched(rt: &impl Print, title: &str, ghop: f32) -> io::Result<()> {
    let mut m = used_slots();
    let counts = by_reference::fdist(&mut m, &used_reflectrix(), ghop, 3.0, 5.0);
    println!(rt; "{title}")?;
    say::numbers(rt, "refusal", &[limits::code(counts)])?;
    let (pairs, rays) = match counts {
        Ok(counts) => (counts.pairs, counts.rays),
        Err(_) => (0, 0),
    };
    say::numbers(rt, "pairs", &[pairs])?;
    say::numbers(rt, "rays", &[rays])?;
    slots(rt, &m)
}

fn main(rt: HostRuntime) -> io::Result<()> {
    walked(&rt, "findf, nang 30", 30)?;
    walked(&rt, "findf, nang 41", 41)?;
    searched(&rt, "fdist, ghop 0.5", 0.5)?;
    searched(&rt, "fdist, ghop 5", 5.0)
}
