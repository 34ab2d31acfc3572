// findf into columns that C lends one by one, its figures by value, its tables lent one by one: the entry over one of each, made here, and the columns written back.
ghost use Rattle.std.specs.Prelude.{◌≡◌};
ghost use Rattle.findf.specs.Inputs.{job_by, tables_by};
ghost use Rattle.findf.specs.Findf.{findf_of};
ghost use Rattle.findf_entry.specs.Columns.{reflectrix_from, walked_from};

use findf::{Reflectrix, Tables};

// The numbers of a reflectrix beside its columns.
#[repr(C)]
#[derive(Drop)]
pub struct Figures {
    pub dskpkm: f32,
    pub delskp: f32,
    pub hpskp: f32,
    pub htskp: f32,
    pub dmaxkm: f32,
    pub fvskp: f32,
    pub iskp: u32,
    pub delpen: [f32; 3],
    pub iaftxr: usize,
    pub rows_this_call: usize,
}

// The refusal's number, 0 where there is none; the turns of the inner loop; the figures, as they came where it is refused.
#[repr(C)]
#[derive(Drop)]
pub struct Outcome {
    pub refusal: u32,
    pub looks: u32,
    pub figures: Figures,
}

// A refusal leaves the columns and the figures as they came.
#[unsafe(no_mangle)]
pub extern "C" fn ray_findf_into(
    delfx: &mut [f32; 45],
    hpflx: &mut [f32; 45],
    htflx: &mut [f32; 45],
    gdflx: &mut [f32; 45],
    fvflx: &mut [f32; 45],
    afflx: &mut [f32; 45],
    imode: &mut [u32; 45],
    kind: &mut [u32; 45],
    figures: Figures,
    k: usize,
    nang: usize,
    freq: f32,
    amind: f32,
    fi: &[[f32; 3]; 5],
    fvert: &[f32; 30],
    hprim: &[f32; 30],
    htrue: &[f32; 30],
    afac: &[f32; 30],
    ifob: &[i32; 1200],
) -> Outcome
    ensures { walked_from delfx.new hpflx.new htflx.new gdflx.new fvflx.new afflx.new imode.new kind.new result
        ≡ findf_of (reflectrix_from delfx.old hpflx.old htflx.old gdflx.old fvflx.old afflx.old imode.old kind.old figures) (job_by k nang freq amind fi.now (tables_by fvert.now hprim.now htrue.now afac.now ifob.now)) }
{
    let delpen = figures.delpen;
    let mut rfx = Reflectrix {
        delfx: *delfx,
        hpflx: *hpflx,
        htflx: *htflx,
        gdflx: *gdflx,
        fvflx: *fvflx,
        afflx: *afflx,
        imode: *imode,
        kind: *kind,
        dskpkm: figures.dskpkm,
        delskp: figures.delskp,
        hpskp: figures.hpskp,
        htskp: figures.htskp,
        dmaxkm: figures.dmaxkm,
        fvskp: figures.fvskp,
        iskp: figures.iskp,
        delpen,
        iaftxr: figures.iaftxr,
        rows_this_call: figures.rows_this_call,
    };
    let tables = Tables {
        fvert: *fvert,
        hprim: *hprim,
        htrue: *htrue,
        afac: *afac,
        ifob: *ifob,
    };
    let over = super::ray_findf_over(&mut rfx, k, nang, freq, amind, fi, &tables);
    *delfx = rfx.delfx;
    *hpflx = rfx.hpflx;
    *htflx = rfx.htflx;
    *gdflx = rfx.gdflx;
    *fvflx = rfx.fvflx;
    *afflx = rfx.afflx;
    *imode = rfx.imode;
    *kind = rfx.kind;
    let delpen = rfx.delpen;
    Outcome {
        refusal: over.refusal,
        looks: over.looks,
        figures: Figures {
            dskpkm: rfx.dskpkm,
            delskp: rfx.delskp,
            hpskp: rfx.hpskp,
            htskp: rfx.htskp,
            dmaxkm: rfx.dmaxkm,
            fvskp: rfx.fvskp,
            iskp: rfx.iskp,
            delpen,
            iaftxr: rfx.iaftxr,
            rows_this_call: rfx.rows_this_call,
        },
    }
}
