// findf and fdist by reference, over locals that are lent. The arguments are C's, the same as by value.
ghost use Rattle.std.specs.Prelude.{◌≡◌};
ghost use Rattle.findf.specs.Inputs.{job_by, tables_by};
ghost use Rattle.findf.specs.Findf.{findf_of};
ghost use Rattle.fdist.specs.Fdist.{fdist_of};

use super::{searched, tables_of, walked};
use by_reference::lending;
use fdist::{HopModes, Searched};
use findf::{Reflectrix, Walked};

#[unsafe(no_mangle)]
pub extern "C" fn ray_findf_by_reference(
    rfx: Reflectrix,
    k: usize,
    nang: usize,
    freq: f32,
    amind: f32,
    fi: &[[f32; 3]; 5],
    fvert: &[f32; 30],
    hprim: &[f32; 30],
    htrue: &[f32; 30],
    afac: &[f32; 30],
    ifob: &[i32; 1200],
) -> Walked
    ensures { result ≡ findf_of rfx (job_by k nang freq amind fi.now (tables_by fvert.now hprim.now htrue.now afac.now ifob.now)) }
{
    let tables = tables_of(fvert, hprim, htrue, afac, ifob);
    let outcome = lending::findf(rfx, k, nang, freq, amind, *fi, tables);
    walked(outcome, rfx)
}

#[unsafe(no_mangle)]
pub extern "C" fn ray_fdist_by_reference(
    m: HopModes,
    rfx: Reflectrix,
    ghop: f32,
    amind: f32,
    freq: f32,
) -> Searched
    ensures { result ≡ fdist_of m rfx ghop amind freq }
{
    searched(lending::fdist(m, rfx, ghop, amind, freq), m)
}
