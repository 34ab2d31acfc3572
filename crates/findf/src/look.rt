// Translated from hfcast-engine (commit bf34e8f9f3), src/voacap/modes.rs lines 746 to 770, and changed.
// The looks of one angle: the inner loop of findf.
ghost use Rattle.std.specs.Prelude.{◌≡◌, ◌<◌, ◌≤◌, unsigned_abs};
ghost use Rattle.findf.specs.Look.{entry_of, looks_of};
ghost use Rattle.findf.specs.Requires.{Entry, Entries};

use super::walk::{Fill, Label};

fn unsigned(v: i32) -> u32
    requires { Entry v }
    ensures { result ≡ unsigned_abs v }
{
    v as u32
}

// The one place where the walk reads a signed number.
pub(crate) fn entry(ifob: &[i32; 1200], i: usize) -> u32
    requires { (i < 1200) × Entries ifob.now }
    ensures { result ≡ entry_of ifob.now i }
{
    unsigned(ifob[i])
}

#[derive(Drop)]
pub(crate) struct Looked {
    pub label: Label,
    pub ih: usize,
    pub looks: u32,
}

// Rows count from 1; the entries of the angle start at `column`.
pub(crate) fn looks(
    ifob: &[i32; 1200],
    jfhz: u32,
    column: usize,
    ilow: usize,
    ihigh: usize,
    ih: usize,
    looks: u32,
) -> Looked
    requires { Entries ifob.now × ((column ≤ 1170) × ((1 ≤ ilow) × ((ilow ≤ 30) × ((1 ≤ ih) × ((ih ≤ ihigh) × ((ihigh ≤ 30) × (looks ≤ 100000))))))) }
    ensures { result ≡ looks_of ifob.now jfhz column ilow ihigh ih looks }
{
    let mut at = ih;
    let mut n = looks;
    // Each turn is a look, which stays at its row or moves on: there is no range.
    loop {
        n += 1;
        if entry(ifob, column + ilow - 1) >= jfhz {
            return Looked {
                label: Label::Fill(Fill::Exact),
                ih: at,
                looks: n,
            };
        }
        if at >= ihigh {
            return Looked {
                label: Label::Search,
                ih: at,
                looks: n,
            };
        }
        let v = entry(ifob, column + at - 1);
        if v == jfhz {
            return Looked {
                label: Label::Fill(Fill::Exact),
                ih: at,
                looks: n,
            };
        }
        if v > jfhz {
            at += 1;
            continue;
        }
        if entry(ifob, column + at) < jfhz {
            at += 1;
            continue;
        }
        return Looked {
            label: Label::Fill(Fill::Interp),
            ih: at,
            looks: n,
        };
    }
}
