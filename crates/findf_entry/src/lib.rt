// C entries of findf into a lent reflectrix and into lent columns, for the test host alone. It is a library of its own, in which findf_into is called from one place, as a product calls it.
#![tactic(auto)]

ghost use Rattle.std.specs.Prelude.{◌≡◌};
ghost use Rattle.findf.specs.Inputs.{job_by};
ghost use Rattle.findf.specs.Findf.{findf_of};
ghost use Rattle.findf_entry.specs.Entry.{left_with};

use findf::{Reflectrix, Tables};

pub mod columns;

// The refusal's number, 0 where there is none; the turns of the inner loop. C gets it as it is, so it is no Result.
#[repr(C)]
#[derive(Drop)]
pub struct Outcome {
    pub refusal: u32,
    pub looks: u32,
}

#[unsafe(no_mangle)]
pub extern "C" fn ray_findf_over(
    rfx: &mut Reflectrix,
    k: usize,
    nang: usize,
    freq: f32,
    amind: f32,
    fi: &[[f32; 3]; 5],
    tables: &Tables,
) -> Outcome
    ensures { left_with result rfx.new ≡ findf_of rfx.old (job_by k nang freq amind fi.now tables.now) }
{
    match findf::findf_into(rfx, k, nang, freq, amind, *fi, tables) {
        Ok(looks) => Outcome { refusal: 0, looks },
        Err(refusal) => Outcome {
            refusal: refusal.into(),
            looks: 0,
        },
    }
}
