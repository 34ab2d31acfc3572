// C entries for the test host alone: what the product's own library has no entry for.
#![tactic(auto)]

ghost use Rattle.std.specs.Prelude.{◌≡◌};
ghost use Rattle.root.specs.Root.{sqrt_of};
ghost use Rattle.fnorml.specs.Fnorml.{fnorml_of};
ghost use Rattle.sigdis.specs.Prbmuf.{prbmuf_of, refusal_of, left_of};
ghost use Rattle.allmodes.specs.AllModes.{reset_of, accumulate_of};
ghost use Rattle.findf.specs.Inputs.{job_by, tables_by};
ghost use Rattle.findf.specs.Findf.{walked_by, findf_of};
ghost use Rattle.fdist.specs.Fdist.{searched_by, fdist_of};
ghost use Rattle.test_entries.specs.Entries.{hour_of};

use allmodes::{Accumulated, AllModes, Zon};
use fdist::{Found, HopModes, Searched};
use findf::{Reflected, Reflectrix, Tables, Walked};
use limits::Refusal;
use sigdis::{LayerMuf, MufHour};

mod lent;

#[unsafe(no_mangle)]
pub extern "C" fn ray_sqrt(x: f32) -> f32
    ensures { result ≡ sqrt_of x }
{
    root::sqrt(x)
}

#[unsafe(no_mangle)]
pub extern "C" fn ray_fnorml(ypx: f32) -> f32
    ensures { result ≡ fnorml_of ypx }
{
    fnorml::fnorml(ypx)
}

// The refusal's number, with out untouched, or 0 and the chance in out.
#[unsafe(no_mangle)]
pub extern "C" fn ray_prbmuf(
    deciles: &[f32; 8],
    fmhz: f32,
    fgo: f32,
    fset: f32,
    il: usize,
    out: &mut f32,
) -> u32
    ensures { (result ≡ refusal_of (prbmuf_of (hour_of deciles.now) fmhz fgo fset il))
        × (out.new ≡ left_of (prbmuf_of (hour_of deciles.now) fmhz fgo fset il) out.old) }
{
    let hour = MufHour {
        layers: [
            LayerMuf {
                sigl: deciles[0],
                sigu: deciles[4],
            },
            LayerMuf {
                sigl: deciles[1],
                sigu: deciles[5],
            },
            LayerMuf {
                sigl: deciles[2],
                sigu: deciles[6],
            },
            LayerMuf {
                sigl: deciles[3],
                sigu: deciles[7],
            },
        ],
    };
    let answer = sigdis::prbmuf(hour, fmhz, fgo, fset, il);
    if let Ok(p) = answer {
        *out = p;
    }
    limits::code(answer)
}

#[unsafe(no_mangle)]
pub extern "C" fn ray_reset(m: AllModes) -> AllModes
    ensures { result ≡ reset_of m }
{
    let mut m = m;
    m.reset();
    m
}

#[unsafe(no_mangle)]
pub extern "C" fn ray_accumulate(m: AllModes, zon: Zon, ist: usize, lst: usize) -> Accumulated
    ensures { result ≡ accumulate_of m zon ist lst }
{
    let mut modes = m;
    let refusal = limits::code(modes.accumulate(&zon, ist, lst));
    Accumulated { refusal, modes }
}

// C passes no array by value: its tables are lent one by one, and copied.
pub(crate) fn tables_of(
    fvert: &[f32; 30],
    hprim: &[f32; 30],
    htrue: &[f32; 30],
    afac: &[f32; 30],
    ifob: &[i32; 1200],
) -> Tables
    ensures { result ≡ tables_by fvert.now hprim.now htrue.now afac.now ifob.now }
{
    Tables {
        fvert: *fvert,
        hprim: *hprim,
        htrue: *htrue,
        afac: *afac,
        ifob: *ifob,
    }
}

// An outcome as C gets it; where it is refused, what came.
pub(crate) fn walked(outcome: Result<Reflected, Refusal>, rfx: Reflectrix) -> Walked
    ensures { result ≡ walked_by outcome rfx }
{
    match outcome {
        Ok(left) => Walked {
            refusal: 0,
            looks: left.looks,
            rfx: left.rfx,
        },
        Err(refusal) => Walked {
            refusal: refusal.into(),
            looks: 0,
            rfx,
        },
    }
}

pub(crate) fn searched(outcome: Result<Found, Refusal>, m: HopModes) -> Searched
    ensures { result ≡ searched_by outcome m }
{
    match outcome {
        Ok(found) => Searched {
            refusal: 0,
            pairs: found.pairs,
            rays: found.rays,
            m: found.m,
        },
        Err(refusal) => Searched {
            refusal: refusal.into(),
            pairs: 0,
            rays: 0,
            m,
        },
    }
}

#[unsafe(no_mangle)]
pub extern "C" fn ray_findf(
    rfx: Reflectrix,
    k: usize,
    nang: usize,
    freq: f32,
    amind: f32,
    fi: &[[f32; 3]; 5],
    fvert: &[f32; 30],
    hprim: &[f32; 30],
    htrue: &[f32; 30],
    afac: &[f32; 30],
    ifob: &[i32; 1200],
) -> Walked
    ensures { result ≡ findf_of rfx (job_by k nang freq amind fi.now (tables_by fvert.now hprim.now htrue.now afac.now ifob.now)) }
{
    let tables = tables_of(fvert, hprim, htrue, afac, ifob);
    let outcome = findf::findf(rfx, k, nang, freq, amind, *fi, tables);
    walked(outcome, rfx)
}

#[unsafe(no_mangle)]
pub extern "C" fn ray_fdist(
    m: HopModes,
    rfx: Reflectrix,
    ghop: f32,
    amind: f32,
    freq: f32,
) -> Searched
    ensures { result ≡ fdist_of m rfx ghop amind freq }
{
    searched(fdist::fdist(rfx, ghop, amind, freq), m)
}
