// The job call. The answer is lent full of a pattern, which a refusal must leave.
use super::record;
use job::layout;

// Of a record: the job; then the number and the answer.
pub(crate) const ANSWER: usize = layout::JOB_BYTES;

const LEFT: usize = ANSWER + record::WORD;

pub(crate) const SIZE: usize = LEFT + layout::ANSWER_BYTES;

// Each byte of an answer that nothing was written to.
pub(crate) const UNWRITTEN: u8 = 0xa5;

pub(crate) fn agrees(r: &[u8]) -> bool {
    if r.len() < SIZE {
        return false;
    }
    let mut answer = [UNWRITTEN; layout::ANSWER_BYTES];
    let number = job::run(&r[0..ANSWER], &mut answer);
    (number == words::word(r, ANSWER)) & (answer[..] == r[LEFT..SIZE])
}
