// findf and fdist as the Rust has them, over a reflectrix and slots that the caller lends. A refusal leaves what was lent as it was. The arguments are those of findf and fdist, one by one.
#![tactic(auto)]

ghost use Rattle.std.specs.Prelude.{◌≡◌};
ghost use Rattle.findf.specs.Inputs.{job_by};
ghost use Rattle.findf.specs.Findf.{walked_with, findf_of};
ghost use Rattle.fdist.specs.Fdist.{fdist_of};
ghost use Rattle.by_reference.specs.ByReference.{searched_with};

use fdist::HopModes;
use findf::{Reflectrix, Tables};
use limits::Refusal;

pub mod lending;

// The pairs tried, and the rays.
#[derive(Clone, Copy)]
pub struct Counts {
    pub pairs: u32,
    pub rays: u32,
}

// The turns of the inner loop.
pub fn findf(
    rfx: &mut Reflectrix,
    k: usize,
    nang: usize,
    freq: f32,
    amind: f32,
    fi: [[f32; 3]; 5],
    tables: Tables,
) -> Result<u32, Refusal>
    ensures { walked_with result rfx.new ≡ findf_of rfx.old (job_by k nang freq amind fi tables) }
{
    let walked = findf::findf(*rfx, k, nang, freq, amind, fi, tables)?;
    *rfx = walked.rfx;
    Ok(walked.looks)
}

pub fn fdist(
    m: &mut HopModes,
    rfx: &Reflectrix,
    ghop: f32,
    amind: f32,
    freq: f32,
) -> Result<Counts, Refusal>
    ensures { searched_with result m.new ≡ fdist_of m.old rfx.now ghop amind freq }
{
    let found = fdist::fdist(*rfx, ghop, amind, freq)?;
    *m = found.m;
    Ok(Counts {
        pairs: found.pairs,
        rays: found.rays,
    })
}
