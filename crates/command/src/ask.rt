// `ask`: a pair of a name and a number, and the word of the job that it changes.
ghost use Rattle.std.specs.Prelude.{◌≡◌};
ghost use Rattle.parse.specs.Number.{number_of};
ghost use Rattle.command.specs.Ask.{pair_of, twice_of, put_of};

use job::layout;

// The bits that are put at a byte of the job.
#[derive(Clone, Copy, Debug, PartialEq, Eq)]
pub struct Change {
    pub at: usize,
    pub bits: u32,
}

// What is wrong with a pair. That there is no pair is the caller's `None`.
#[derive(Clone, Copy, Debug, PartialEq, Eq)]
pub enum PairError {
    NoName,
    NoNumber,
}

const FREQ: usize = 4 * (layout::SHARED + layout::FREQ);

const AMIND: usize = 4 * (layout::SHARED + layout::AMIND);

const GHOP: usize = 4 * (layout::SHARED + layout::GHOP);

pub fn pair_of(name: &[u8], number: &[u8]) -> Result<Change, PairError>
    ensures { result ≡ pair_of name.now (number_of number.now) }
{
    let said = parse::thousandths(number).ok_or(PairError::NoNumber);
    match name {
        b"freq" => Ok(Change {
            at: FREQ,
            bits: parse::unit(said?),
        }),
        b"hop" => Ok(Change {
            at: GHOP,
            bits: parse::radian(said?),
        }),
        b"min" => Ok(Change {
            at: AMIND,
            bits: parse::unit(said?),
        }),
        _ => Err(PairError::NoName),
    }
}

// Whether both change the same word, whatever becomes of it: the derived `==` asks for the same bits too.
pub fn twice(p: Option<Change>, q: Option<Change>) -> bool
    ensures { result ≡ twice_of p q }
{
    match (p, q) {
        (Some(p), Some(q)) => p.at == q.at,
        _ => false,
    }
}

// The job with the word that the pair changes, where there is one.
pub fn put(job: &mut [u8], p: Option<Change>)
    ensures { job.new ≡ put_of p job.old }
{
    if let Some(p) = p {
        words::put_word(job, p.at, p.bits);
    }
}
