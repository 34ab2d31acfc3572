// Each limit of a job in words.
use limits::Refusal;

pub(crate) fn sentence(broken: Refusal) -> &'static [u8] {
    match broken {
        Refusal::Job => b"the job is not 5360 bytes long",
        Refusal::K => b"the point k is not within 0 to 4",
        Refusal::Nang => b"the number of table angles, nang, is not within 0 to 40",
        Refusal::Freq => b"the frequency, freq, is not within 2 to 30 MHz",
        Refusal::Amind => b"the minimum angle, amind, is not within 0 to 90 deg",
        Refusal::Ghop => b"the asked hop, ghop, is not within 0 to 4 radians",
        Refusal::Fi => b"a critical frequency of the point is not within its range",
        Refusal::Table => b"a value of the tables is not within its range",
        _ => b"an entry of the oblique table, ifob, is not within 0 to 99999 kHz",
    }
}
