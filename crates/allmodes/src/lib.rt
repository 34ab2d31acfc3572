// Translated from hfcast-engine (commit bf34e8f9f3), src/voacap/modes.rs lines 209 to 345, and changed.
#![tactic(auto)]

ghost use Rattle.std.specs.Prelude.{◌≡◌, ◌+◌, ◌-◌, ◌<◌, ◌≤◌, get_or, length, set, pos};
ghost use mathlib.Core.List.{foldl};
ghost use Rattle.limits.specs.Limits.{code_of};
ghost use Rattle.allmodes.specs.AllModes.{reset_of, accumulated, accumulate_of, add_slot, held};

use limits::Refusal;

// The seven mode slots of one hop: an array a column, as the source has it and C passes it.
#[repr(C)]
#[derive(Drop)]
pub struct Zon {
    pub abps: [f32; 7],
    pub crel: [f32; 7],
    pub eff: [f32; 7],
    pub fldst: [f32; 7],
    pub grlos: [f32; 7],
    pub hn: [f32; 7],
    pub hp: [f32; 7],
    pub prob: [f32; 7],
    pub rely: [f32; 7],
    pub rgain: [f32; 7],
    pub sigpow: [f32; 7],
    pub sn: [f32; 7],
    pub spro: [f32; 7],
    pub tgain: [f32; 7],
    pub timed: [f32; 7],
    pub tloss: [f32; 7],
    pub b: [f32; 7],
    pub fslos: [f32; 7],
    pub adv: [f32; 7],
    pub obf: [f32; 7],
    pub nmode: [i32; 7],
    pub tllow: [f32; 7],
    pub tlhgh: [f32; 7],
}

// The accumulated mode list of one frequency, 20 slots: an array a column, as the source has it and C passes it.
#[repr(C)]
#[derive(Clone, Copy)]
pub struct AllModes {
    pub abps: [f32; 20],
    pub crel: [f32; 20],
    pub fldst: [f32; 20],
    pub hn: [f32; 20],
    pub hp: [f32; 20],
    pub prob: [f32; 20],
    pub rely: [f32; 20],
    pub rgain: [f32; 20],
    pub sigpow: [f32; 20],
    pub sn: [f32; 20],
    pub spro: [f32; 20],
    pub tgain: [f32; 20],
    pub timed: [f32; 20],
    pub tloss: [f32; 20],
    pub b: [f32; 20],
    pub fslos: [f32; 20],
    pub grlos: [f32; 20],
    pub adv: [f32; 20],
    pub obf: [f32; 20],
    pub nmode: [i32; 20],
    pub tllow: [f32; 20],
    pub tlhgh: [f32; 20],
    pub eff: [f32; 20],
    // Most reliable mode, counted from 1.
    pub nrel: usize,
    pub nmmod: usize,
}

// What C is answered, where there is no Result: the list, and 0 or the number of the limit that refuses.
#[repr(C)]
#[derive(Drop)]
pub struct Accumulated {
    pub refusal: u32,
    pub modes: AllModes,
}

// Slot i at place n, in the one column of whole numbers.
fn put_nmode(to: &mut [i32; 20], n: usize, from: &[i32; 7], i: usize)
    requires { (i < 7) × (n < 20) }
    ensures { to.new ≡ set to.old n (get_or from.now i (pos 0)) }
{
    to[n] = from[i];
}

impl Zon {
    // How many of the slots from..to hold a mode, counted from 0.
    fn held_count(&self, from: usize, to: usize) -> usize
        requires { to ≤ 7 }
        ensures { result ≡ length (held self.now.hp from (to - from)) }
    {
        (from..to).filter(|i| self.hp[*i] > 0.0).count()
    }
}

impl AllModes {
    // For a new frequency: the listed columns are cleared, the rest keep their contents.
    pub fn reset(&mut self)
        ensures { self.new ≡ reset_of self.old }
    {
        self.nmmod = 0;
        self.tloss = [99999.0; 20];
        self.tllow = [999.0; 20];
        self.tlhgh = [999.0; 20];
        self.hp = [-1.0; 20];
    }

    // Slot i of zon, at the list's next free place. nmode, the one signed column, goes last.
    fn add_slot(&mut self, zon: &Zon, i: usize)
        requires { (i < 7) × (self.old.nmmod < 20) }
        ensures { self.new ≡ add_slot zon.now self.old i }
    {
        let n = self.nmmod;
        self.nmmod = n + 1;
        self.tloss[n] = zon.tloss[i];
        self.tllow[n] = zon.tllow[i];
        self.tlhgh[n] = zon.tlhgh[i];
        self.hp[n] = zon.hp[i];
        self.crel[n] = zon.crel[i];
        self.rely[n] = zon.rely[i];
        self.hn[n] = zon.hn[i];
        self.sn[n] = zon.sn[i];
        self.fldst[n] = zon.fldst[i];
        self.sigpow[n] = zon.sigpow[i];
        self.b[n] = zon.b[i];
        self.timed[n] = zon.timed[i];
        self.abps[n] = zon.abps[i];
        self.prob[n] = zon.prob[i];
        self.rgain[n] = zon.rgain[i];
        self.tgain[n] = zon.tgain[i];
        self.fslos[n] = zon.fslos[i];
        self.spro[n] = zon.spro[i];
        self.eff[n] = zon.eff[i];
        self.grlos[n] = zon.grlos[i];
        self.adv[n] = zon.adv[i];
        self.obf[n] = zon.obf[i];
        put_nmode(&mut self.nmode, n, &zon.nmode, i);
    }

    // Those of the slots from..to that hold a mode, added in order.
    fn add_held(&mut self, zon: &Zon, from: usize, to: usize)
        requires { (to ≤ 7) × (self.old.nmmod + length (held zon.now.hp from (to - from)) ≤ 20) }
        ensures { self.new ≡ foldl (add_slot zon.now) self.old (held zon.now.hp from (to - from)) }
    {
        for i in from..to {
            if zon.hp[i] > 0.0 {
                self.add_slot(zon, i);
            }
        }
    }

    #[tactic(auto, using(limits::proofs::LimitsLaws::slots_within_lem, limits::proofs::LimitsLaws::count_within_lem), unfolding(crate::specs::AllModes::accumulate_of))]
    // Slots ist to lst of zon, counted from 1. They are counted first, so that a refusal finds the list untouched.
    pub fn accumulate(&mut self, zon: &Zon, ist: usize, lst: usize) -> Result<(), Refusal>
        ensures { accumulated (code_of result) self.new ≡ accumulate_of self.old zon.now ist lst }
    {
        limits::check(limits::slots_within(ist, lst), Refusal::Slots)?;
        let from = ist - 1;
        let added = zon.held_count(from, lst);
        limits::check(limits::count_within(self.nmmod, added), Refusal::Count)?;
        self.add_held(zon, from, lst);
        Ok(())
    }
}
