// The verdict on a job and its answer: its case, and its two lines of text.
#![tactic(auto)]

mod lines;

ghost use Rattle.std.specs.Prelude.{◌≡◌};
ghost use Rattle.verdict.specs.Verdict.{verdict_of};

use job::layout;
pub use lines::{first, second};
use view::{State, View, above, at_least, word};

// Why the drive tilts or stays parked, in the order in which the cases are tried.
#[derive(Clone, Copy, Debug, PartialEq, Eq)]
pub enum Case {
    Rays,
    NoRows,
    TooLong,
    NoLength,
    TooShort,
    NoPair,
    BelowMinimum,
}

#[tactic(auto, using(crate::proofs::VerdictLaws::some_ray, crate::proofs::VerdictLaws::no_rows, crate::proofs::VerdictLaws::too_long, crate::proofs::VerdictLaws::no_length, crate::proofs::VerdictLaws::below_minimum, crate::proofs::VerdictLaws::too_short, crate::proofs::VerdictLaws::no_pair))]
pub fn verdict(view: View) -> Case
    ensures { result ≡ verdict_of view.entry.job.now view.entry.answer.now }
{
    if view.rays_before(layout::SLOTS) > 0 {
        return Case::Rays;
    }
    if word(view.answer, layout::ROWS) == 0 {
        return Case::NoRows;
    }
    let d = view.asked();
    let dmaxkm = word(view.answer, layout::DMAXKM);
    if at_least(d, dmaxkm) {
        if above(dmaxkm, 0) {
            return Case::TooLong;
        }
        return Case::NoLength;
    }
    if view.slot(0) == State::Empty {
        if above(word(view.answer, layout::DSKPKM), d) {
            return Case::TooShort;
        }
        return Case::NoPair;
    }
    Case::BelowMinimum
}
