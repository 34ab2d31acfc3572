// fdist by reference, on slots that were used before and any reflectrix: what the call leaves in the slots is compared, refused or not.
use super::{record, walks};
use fdist::HopModes;

// The slots have 36 words, in the order of their fields. Here is where each of them stands, in bytes.
const DELMOD: usize = 0;

const HPMOD: usize = DELMOD + SIX;

const HTMOD: usize = HPMOD + SIX;

const FVMOD: usize = HTMOD + SIX;

const ITMOD: usize = FVMOD + SIX;

const AFMOD: usize = ITMOD + SIX;

const SLOTS: usize = AFMOD + SIX;

// Of a record: the slots, the reflectrix, ghop, amind, freq; then the number, the pairs, the rays and the slots.
const ROWS: usize = SLOTS;

const GHOP: usize = ROWS + walks::REFLECTRIX;

const AMIND: usize = GHOP + record::WORD;

const FREQ: usize = AMIND + record::WORD;

pub(crate) const ANSWER: usize = FREQ + record::WORD;

const PAIRS: usize = ANSWER + record::WORD;

const RAYS: usize = PAIRS + record::WORD;

const LEFT: usize = RAYS + record::WORD;

pub(crate) const SIZE: usize = LEFT + SLOTS;

const SIX: usize = 6 * record::WORD;

fn slots(r: &[u8]) -> HopModes {
    HopModes {
        delmod: words::array_at(r, DELMOD),
        hpmod: words::array_at(r, HPMOD),
        htmod: words::array_at(r, HTMOD),
        fvmod: words::array_at(r, FVMOD),
        itmod: words::array_at(r, ITMOD),
        afmod: words::array_at(r, AFMOD),
    }
}

fn are_slots(r: &[u8], m: &HopModes) -> bool {
    record::has_all(r, DELMOD, &m.delmod)
        & record::has_all(r, HPMOD, &m.hpmod)
        & record::has_all(r, HTMOD, &m.htmod)
        & record::has_all(r, FVMOD, &m.fvmod)
        & record::has_all(r, ITMOD, &m.itmod)
        & record::has_all(r, AFMOD, &m.afmod)
}

pub(crate) fn agrees(r: &[u8]) -> bool {
    if r.len() < SIZE {
        return false;
    }
    let rows = &r[ROWS..];
    let left = &r[LEFT..];
    let mut m = slots(r);
    let outcome = by_reference::fdist(
        &mut m,
        &walks::reflectrix(rows),
        record::float(r, GHOP),
        record::float(r, AMIND),
        record::float(r, FREQ),
    );
    let (pairs, rays) = match outcome {
        Ok(counts) => (counts.pairs, counts.rays),
        Err(_) => (0, 0),
    };
    (words::word(r, ANSWER) == limits::code(outcome))
        & (words::word(r, PAIRS) == pairs)
        & (words::word(r, RAYS) == rays)
        & are_slots(left, &m)
}
