// The checks of findf: one answer for the limits of document 01, "The bytes of a job", 3 to 6 and 8 to 10.
ghost use Rattle.std.specs.Prelude.{◌≡◌, IfOk};
ghost use Rattle.limits.specs.Limits.{broken, code_of};
ghost use Rattle.findf.specs.Checks.{row_within, rows_within};
ghost use Rattle.findf.specs.Inputs.{job_by, second_of, third_of};
ghost use Rattle.findf.specs.Findf.{limits_of};

use super::Tables;
use limits::{Refusal, check};

#[tactic(auto, using(limits::proofs::RangeLaws::afac))]
fn row_within(fvert: f32, hprim: f32, htrue: f32, afac: f32) -> bool
    ensures { result ≡ row_within fvert hprim htrue afac }
{
    limits::FVERT.holds(fvert)
        & limits::HPRIM.holds(hprim)
        & limits::HTRUE.holds(htrue)
        & limits::AFAC.holds(afac)
}

#[tactic(auto, unfolding(crate::specs::Checks::rows_within))]
fn rows_within(t: &Tables) -> bool
    ensures { result ≡ rows_within t.now.fvert t.now.hprim t.now.htrue t.now.afac 30 }
{
    let mut ok = true;
    // Not `all`, which ends at the first that fails: here the loop has no branch.
    for i in 0..30 {
        ok &= row_within(t.fvert[i], t.hprim[i], t.htrue[i], t.afac[i]);
    }
    ok
}

// The second and the third number of the job's point, or the first limit broken.
#[tactic(auto, using(limits::proofs::ChainLaws::chain), unfolding(crate::specs::Findf::limits_of))]
pub(crate) fn admission_of(
    k: usize,
    nang: usize,
    freq: f32,
    amind: f32,
    fi: &[[f32; 3]; 5],
    tables: &Tables,
) -> Result<(f32, f32), Refusal>
    ensures number { code_of result ≡ broken (limits_of (job_by k nang freq amind fi.now tables.now)) }
    ensures point { IfOk result (λ p. (p.0 ≡ second_of (job_by k nang freq amind fi.now tables.now)) × (p.1 ≡ third_of (job_by k nang freq amind fi.now tables.now))) }
{
    check(limits::k_within(k), Refusal::K)?;
    check(limits::nang_within(nang), Refusal::Nang)?;
    check(limits::FREQ.holds(freq), Refusal::Freq)?;
    check(limits::AMIND.holds(amind), Refusal::Amind)?;
    let [_, second, third] = fi[k];
    check(limits::fi_within(second, third), Refusal::Fi)?;
    check(rows_within(tables), Refusal::Table)?;
    check(limits::entries_within(&tables.ifob), Refusal::Ifob)?;
    Ok((second, third))
}
