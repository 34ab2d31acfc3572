// The mode list: reset and accumulate.
use super::record;
use allmodes::{AllModes, Zon};

// The bytes of a list, and of a hop's slots.
const LIST: usize = 464 * record::WORD;

const ZON: usize = 161 * record::WORD;

// Of a record of reset: the list; then the list.
pub(crate) const RESET_ANSWER: usize = LIST;

pub(crate) const RESET_SIZE: usize = RESET_ANSWER + LIST;

// Of a record of accumulate: the list, the hop's slots, ist, lst; then the number and the list.
const IST: usize = LIST + ZON;

const LST: usize = IST + record::COUNT;

pub(crate) const ACCUMULATE_ANSWER: usize = LST + record::COUNT;

const LEFT: usize = ACCUMULATE_ANSWER + record::WORD;

pub(crate) const ACCUMULATE_SIZE: usize = LEFT + LIST;

// A list has 464 words, in the order of its fields.
fn list(r: &[u8]) -> AllModes {
    AllModes {
        abps: words::array_at(r, 0),
        crel: words::array_at(r, 80),
        fldst: words::array_at(r, 160),
        hn: words::array_at(r, 240),
        hp: words::array_at(r, 320),
        prob: words::array_at(r, 400),
        rely: words::array_at(r, 480),
        rgain: words::array_at(r, 560),
        sigpow: words::array_at(r, 640),
        sn: words::array_at(r, 720),
        spro: words::array_at(r, 800),
        tgain: words::array_at(r, 880),
        timed: words::array_at(r, 960),
        tloss: words::array_at(r, 1040),
        b: words::array_at(r, 1120),
        fslos: words::array_at(r, 1200),
        grlos: words::array_at(r, 1280),
        adv: words::array_at(r, 1360),
        obf: words::array_at(r, 1440),
        nmode: words::array_at(r, 1520),
        tllow: words::array_at(r, 1600),
        tlhgh: words::array_at(r, 1680),
        eff: words::array_at(r, 1760),
        nrel: record::count(r, 1840),
        nmmod: record::count(r, 1848),
    }
}

// The seven slots of a hop have 161 words, in the order of their fields.
fn zon(r: &[u8]) -> Zon {
    Zon {
        abps: words::array_at(r, 0),
        crel: words::array_at(r, 28),
        eff: words::array_at(r, 56),
        fldst: words::array_at(r, 84),
        grlos: words::array_at(r, 112),
        hn: words::array_at(r, 140),
        hp: words::array_at(r, 168),
        prob: words::array_at(r, 196),
        rely: words::array_at(r, 224),
        rgain: words::array_at(r, 252),
        sigpow: words::array_at(r, 280),
        sn: words::array_at(r, 308),
        spro: words::array_at(r, 336),
        tgain: words::array_at(r, 364),
        timed: words::array_at(r, 392),
        tloss: words::array_at(r, 420),
        b: words::array_at(r, 448),
        fslos: words::array_at(r, 476),
        adv: words::array_at(r, 504),
        obf: words::array_at(r, 532),
        nmode: words::array_at(r, 560),
        tllow: words::array_at(r, 588),
        tlhgh: words::array_at(r, 616),
    }
}

fn are_early(r: &[u8], m: &AllModes) -> bool {
    record::has_all(r, 0, &m.abps)
        & record::has_all(r, 80, &m.crel)
        & record::has_all(r, 160, &m.fldst)
        & record::has_all(r, 240, &m.hn)
        & record::has_all(r, 320, &m.hp)
        & record::has_all(r, 400, &m.prob)
        & record::has_all(r, 480, &m.rely)
        & record::has_all(r, 560, &m.rgain)
        & record::has_all(r, 640, &m.sigpow)
        & record::has_all(r, 720, &m.sn)
        & record::has_all(r, 800, &m.spro)
        & record::has_all(r, 880, &m.tgain)
}

fn are_late(r: &[u8], m: &AllModes) -> bool {
    record::has_all(r, 960, &m.timed)
        & record::has_all(r, 1040, &m.tloss)
        & record::has_all(r, 1120, &m.b)
        & record::has_all(r, 1200, &m.fslos)
        & record::has_all(r, 1280, &m.grlos)
        & record::has_all(r, 1360, &m.adv)
        & record::has_all(r, 1440, &m.obf)
        & record::has_all(r, 1520, &m.nmode)
        & record::has_all(r, 1600, &m.tllow)
        & record::has_all(r, 1680, &m.tlhgh)
        & record::has_all(r, 1760, &m.eff)
}

fn is_list(r: &[u8], m: &AllModes) -> bool {
    are_early(r, m)
        & are_late(r, m)
        & (record::count(r, 1840) == m.nrel)
        & (record::count(r, 1848) == m.nmmod)
}

pub(crate) fn reset_agrees(r: &[u8]) -> bool {
    if r.len() < RESET_SIZE {
        return false;
    }
    let mut m = list(r);
    m.reset();
    is_list(&r[RESET_ANSWER..], &m)
}

pub(crate) fn accumulate_agrees(r: &[u8]) -> bool {
    if r.len() < ACCUMULATE_SIZE {
        return false;
    }
    let mut m = list(r);
    let outcome = m.accumulate(
        &zon(&r[LIST..]),
        record::count(r, IST),
        record::count(r, LST),
    );
    (words::word(r, ACCUMULATE_ANSWER) == limits::code(outcome)) & is_list(&r[LEFT..], &m)
}
