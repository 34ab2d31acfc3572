// Translated from hfcast-engine (commit bf34e8f9f3), src/voacap/modes.rs lines 130 to 153 and 670 to 904, and changed.
// findf: the reflectrix of one frequency in one area, into a lent one or by value.
#![tactic(auto)]

ghost use Rattle.std.specs.Prelude.{◌≡◌, ◌≤◌, true};
ghost use Rattle.limits.specs.Limits.{freq_within};
ghost use Rattle.findf.specs.Requires.{Entries, started_of};
ghost use Rattle.findf.specs.Inputs.{job_by};
ghost use Rattle.findf.specs.Kinds.{number_of, Decodes};
ghost use Rattle.findf.specs.Findf.{answered, walked_with, walked_by, jfhz_of, unless_of, findf_of};

mod checks;
mod correction;
mod look;
mod rows;
mod skip;
mod walk;

use limits::Refusal;
use walk::Setup;

// How a row was made: read off a row of the tables, between two of them, at a cusp, after it. As u32 it is the row's number in the column `kind`, where a row that was not written in the last call has 0.
#[derive(Clone, Copy, Debug, PartialEq, Eq)]
pub enum RowKind {
    Exact = 1,
    Interp,
    Cusp,
    NextCusp,
}

impl From<RowKind> for u32 {
    ghost from_gives = { λ kind n. n ≡ number_of kind };

    fn from(kind: RowKind) -> u32 {
        kind as u32
    }
}

// A number that no kind has.
#[derive(Clone, Copy, Debug, PartialEq, Eq)]
pub struct NoRowKind(pub u32);

impl TryFrom<u32> for RowKind {
    type Error = NoRowKind;

    ghost try_from_gives = { Decodes };

    fn try_from(number: u32) -> Result<Self, NoRowKind> {
        match number {
            1 => Ok(RowKind::Exact),
            2 => Ok(RowKind::Interp),
            3 => Ok(RowKind::Cusp),
            4 => Ok(RowKind::NextCusp),
            _ => Err(NoRowKind(number)),
        }
    }
}

// The rows and figures of a walk. C has the same columns, and the answer's bytes too: so they are arrays, and an imode or a kind is a number.
#[repr(C)]
#[derive(Clone, Copy)]
pub struct Reflectrix {
    pub delfx: [f32; 45],
    pub hpflx: [f32; 45],
    pub htflx: [f32; 45],
    pub gdflx: [f32; 45],
    pub fvflx: [f32; 45],
    pub afflx: [f32; 45],
    pub imode: [u32; 45],
    pub kind: [u32; 45],
    pub dskpkm: f32,
    pub delskp: f32,
    pub hpskp: f32,
    pub htskp: f32,
    pub dmaxkm: f32,
    pub fvskp: f32,
    pub iskp: u32,
    pub delpen: [f32; 3],
    pub iaftxr: usize,
    pub rows_this_call: usize,
}

// The tables of one point: the vertical frequency, virtual height, true height and absorption factor of 30 rows, and the entries of 30 rows at each of 40 angles. Arrays side by side, as document 01 and C have them.
#[repr(C)]
#[derive(Clone, Copy)]
pub struct Tables {
    pub fvert: [f32; 30],
    pub hprim: [f32; 30],
    pub htrue: [f32; 30],
    pub afac: [f32; 30],
    pub ifob: [i32; 1200],
}

// The turns of the inner loop, and the reflectrix as the walk leaves it.
#[derive(Clone, Copy)]
pub struct Reflected {
    pub looks: u32,
    pub rfx: Reflectrix,
}

// An outcome as C gets it: the refusal's number, 0 where there is none, and a reflectrix that a refusal leaves as it came.
#[repr(C)]
#[derive(Drop)]
pub struct Walked {
    pub refusal: u32,
    pub looks: u32,
    pub rfx: Reflectrix,
}

// 1000 * freq cut towards zero.
fn jfhz(freq: f32) -> u32
    requires { freq_within freq ≡ true }
    ensures { (result ≡ jfhz_of freq) × (result ≤ 30000) }
{
    std::num::truncating_f32_to_u64(1000.0 * freq) as u32
}

fn unless(dead: bool, x: f32) -> f32
    ensures { result ≡ unless_of dead x }
{
    if dead { -1.0 } else { x }
}

// The start's contents and the penetration angles, then the walk.
fn started(
    rfx: &mut Reflectrix,
    nang: usize,
    freq: f32,
    amind: f32,
    second: f32,
    third: f32,
    tables: &Tables,
) -> u32
    requires { Entries tables.now.ifob × ((nang ≤ 40) × (freq_within freq ≡ true)) }
    ensures { answered result rfx.new ≡ started_of rfx.old nang freq amind second third tables.now }
{
    // Apart from the column behind it: cleared together, the two would be one call of memset.
    rfx.delfx = [0.0; 45];
    let p = penang::penang(&tables.fvert, &tables.htrue, second, freq);
    let delpen = p.delpen;
    rfx.hpflx = [0.0; 45];
    rfx.gdflx = [0.0; 45];
    rfx.kind = [0; 45];
    rfx.rows_this_call = 0;
    rfx.dmaxkm = unless(p.dead, 0.0);
    rfx.dskpkm = unless(p.dead, 10000.0);
    rfx.delpen = delpen;
    let e = Setup {
        nang,
        freq,
        amind,
        jfhz: jfhz(freq),
        second,
        fc2: third * third,
        delpen,
    };
    walk::walk_rows(rfx, &e, tables)
}

// A walk of one frequency, written into the reflectrix; its looks. A refusal leaves the reflectrix as it came.
// The numbers come one by one, and fi with all its points, as in document 01 and at each C entry: a struct of them would be made for one call. What the walk reads of them is one value, `Setup`.
pub fn findf_into(
    rfx: &mut Reflectrix,
    k: usize,
    nang: usize,
    freq: f32,
    amind: f32,
    fi: [[f32; 3]; 5],
    tables: &Tables,
) -> Result<u32, Refusal>
    ensures { walked_with result rfx.new ≡ findf_of rfx.old (job_by k nang freq amind fi tables.now) }
{
    let (second, third) = checks::admission_of(k, nang, freq, amind, &fi, tables)?;
    Ok(started(rfx, nang, freq, amind, second, third, tables))
}

// By value: the same over its own copy of the reflectrix.
pub fn findf(
    rfx: Reflectrix,
    k: usize,
    nang: usize,
    freq: f32,
    amind: f32,
    fi: [[f32; 3]; 5],
    tables: Tables,
) -> Result<Reflected, Refusal>
    ensures { walked_by result rfx ≡ findf_of rfx (job_by k nang freq amind fi tables) }
{
    let mut left = rfx;
    let looks = findf_into(&mut left, k, nang, freq, amind, fi, &tables)?;
    Ok(Reflected { looks, rfx: left })
}
