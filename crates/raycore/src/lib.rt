// The product's library: the C entry points that document 01 and the orders of document 02 name, and no others.
#![tactic(auto)]

ghost use Rattle.std.specs.Prelude.{◌≡◌, length};
ghost use Rattle.angles.specs.SinCos.{sin_of, cos_of};
ghost use Rattle.angles.specs.Arcsine.{asin_of};
ghost use Rattle.angles.specs.Arccosine.{acos_of};
ghost use Rattle.angles.specs.Arctangent.{atan_of};
ghost use Rattle.job.specs.Job.{refusal_of, left_of};
ghost use Rattle.esmod.specs.Esmod.{esmod_of};

use esmod::{EsJob, EsModes};

#[unsafe(no_mangle)]
pub extern "C" fn ray_sin(x: f32) -> f32
    ensures { result ≡ sin_of x }
{
    angles::sin(x)
}

#[unsafe(no_mangle)]
pub extern "C" fn ray_cos(x: f32) -> f32
    ensures { result ≡ cos_of x }
{
    angles::cos(x)
}

#[unsafe(no_mangle)]
pub extern "C" fn ray_asin(x: f32) -> f32
    ensures { result ≡ asin_of x }
{
    angles::asin(x)
}

#[unsafe(no_mangle)]
pub extern "C" fn ray_acos(x: f32) -> f32
    ensures { result ≡ acos_of x }
{
    angles::acos(x)
}

#[unsafe(no_mangle)]
pub extern "C" fn ray_atan(x: f32) -> f32
    ensures { result ≡ atan_of x }
{
    angles::atan(x)
}

#[unsafe(no_mangle)]
pub extern "C" fn ray_job(job: &[u8], answer: &mut [u8]) -> u32
    ensures { (result ≡ refusal_of job.now (length answer.old)) × (answer.new ≡ left_of job.now answer.old) }
{
    job::run(job, answer)
}

#[unsafe(no_mangle)]
pub extern "C" fn ray_esmod(
    km: usize,
    fs: &[[f32; 3]; 5],
    hs: &[f32; 5],
    gcd: f32,
    gcdkm: f32,
    amind: f32,
    freq: f32,
    fsdead: f32,
) -> EsModes
    ensures { result ≡ esmod_of km fs.now hs.now gcd gcdkm amind freq fsdead }
{
    let job = EsJob {
        km,
        fs: *fs,
        hs: *hs,
        gcd,
        gcdkm,
        amind,
        freq,
        fsdead,
    };
    job.esmod()
}
