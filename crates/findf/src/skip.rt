// Translated from hfcast-engine (commit bf34e8f9f3), src/voacap/modes.rs lines 877 to 887, and changed.
// The skip figures and the farthest hop after a row.
ghost use Rattle.std.specs.Prelude.{◌≡◌};
ghost use Rattle.findf.specs.Rows.{skip_in, skip_of, far_of};

use super::Reflectrix;
use super::correction::Row;

#[derive(Clone, Copy)]
pub(crate) struct Skip {
    pub dskpkm: f32,
    pub delskp: f32,
    pub hpskp: f32,
    pub htskp: f32,
    pub fvskp: f32,
    pub iskp: u32,
}

// The skip figures that a reflectrix holds.
pub(crate) fn skip_in(rfx: &Reflectrix) -> Skip
    ensures { result ≡ skip_in rfx.now }
{
    Skip {
        dskpkm: rfx.dskpkm,
        delskp: rfx.delskp,
        hpskp: rfx.hpskp,
        htskp: rfx.htskp,
        fvskp: rfx.fvskp,
        iskp: rfx.iskp,
    }
}

// The skip figures after a row; `il` is the layer of the walk, also at a row of the next one.
pub(crate) fn skip_of(s: Skip, t: Row, il: u32) -> Skip
    ensures { result ≡ skip_of s t il }
{
    if s.dskpkm > t.gdr {
        return Skip {
            dskpkm: t.gdr,
            delskp: t.del,
            hpskp: t.hp,
            htskp: t.ht,
            fvskp: t.fv,
            iskp: il,
        };
    }
    s
}

// The farthest hop after a row.
#[tactic(auto, unfolding(crate::specs::Rows::far_of))]
pub(crate) fn far(dmaxkm: f32, gdr: f32, del: f32, amind: f32) -> f32
    ensures { result ≡ far_of dmaxkm gdr del amind }
{
    if dmaxkm <= gdr {
        if del >= amind {
            return gdr;
        }
    }
    dmaxkm
}
