// esmod, on the words of a file of `ray es`.
ghost use Rattle.es_file.specs.File.{modes_of};
ghost use Rattle.replay.specs.Stored.{Tells, EsStored};

use super::record;

pub(crate) const ANSWER: usize = es_file::BYTES;

pub(crate) const SIZE: usize = ANSWER + 9 * record::WORD;

// The file's words; then the number, and b, hn, hp and timed of slot 4 and of slot 5.
pub(crate) fn agrees(r: &[u8]) -> bool
    ensures { Tells result (EsStored (modes_of r.now) r.now) }
{
    let m = es_file::modes(r);
    let four = m.slot4;
    let five = m.slot5;
    let slots = [
        four.b, four.hn, four.hp, four.timed, five.b, five.hn, five.hp, five.timed,
    ];
    (words::word(r, ANSWER) == m.refusal) & record::has_all(r, 108, &slots)
}
