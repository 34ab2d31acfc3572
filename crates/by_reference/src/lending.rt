// By value: a local is lent. Code that has no reference to a struct calls these.
ghost use Rattle.std.specs.Prelude.{◌≡◌};
ghost use Rattle.findf.specs.Inputs.{job_by};
ghost use Rattle.findf.specs.Findf.{walked_by, findf_of};
ghost use Rattle.fdist.specs.Fdist.{searched_by, fdist_of};

use fdist::{Found, HopModes};
use findf::{Reflected, Reflectrix, Tables};
use limits::Refusal;

pub fn findf(
    rfx: Reflectrix,
    k: usize,
    nang: usize,
    freq: f32,
    amind: f32,
    fi: [[f32; 3]; 5],
    tables: Tables,
) -> Result<Reflected, Refusal>
    ensures { walked_by result rfx ≡ findf_of rfx (job_by k nang freq amind fi tables) }
{
    let mut lent = rfx;
    let looks = super::findf(&mut lent, k, nang, freq, amind, fi, tables)?;
    Ok(Reflected { looks, rfx: lent })
}

pub fn fdist(
    m: HopModes,
    rfx: Reflectrix,
    ghop: f32,
    amind: f32,
    freq: f32,
) -> Result<Found, Refusal>
    ensures { searched_by result m ≡ fdist_of m rfx ghop amind freq }
{
    let mut lent = m;
    let counts = super::fdist(&mut lent, &rfx, ghop, amind, freq)?;
    Ok(Found {
        pairs: counts.pairs,
        rays: counts.rays,
        m: lent,
    })
}
