// A number as text: digits, and perhaps a point and one to three digits more.
ghost use Rattle.std.specs.Prelude.{◌≡◌, ◌<◌};
ghost use Rattle.parse.specs.Number.{point_of, digit_of, behind, step_of, below_of, value_of, number_of};

// The digits read so far, as one number, by how many of them are decimals. Each case is a state of the reading; `Nothing` too, since a digit may follow.
#[derive(Drop)]
pub(crate) enum Read {
    Nothing,
    Whole(u32),
    Point(u32),
    Tenths(u32),
    Hundredths(u32),
    Thousandths(u32),
}

// So many thousandths, where the text is a number.
#[tactic(auto, unfolding(crate::specs::Number::read_from))]
pub fn thousandths(text: &[u8]) -> Option<u32>
    ensures { result ≡ number_of text.now }
{
    let mut read = Read::Nothing;
    for b in text {
        read = step(read, *b)?;
    }
    value(read)
}

// One byte more.
fn step(read: Read, b: u8) -> Option<Read>
    ensures { result ≡ step_of read b }
{
    match b {
        b'.' => pointed(read),
        b'0'..=b'9' => longer(read, (b - b'0') as u32),
        _ => None,
    }
}

// A point: it stands behind the whole part, once.
fn pointed(read: Read) -> Option<Read>
    ensures { result ≡ point_of read }
{
    match read {
        Read::Whole(n) => Some(Read::Point(n)),
        _ => None,
    }
}

// A digit: it goes behind those read.
fn longer(read: Read, d: u32) -> Option<Read>
    requires { d < 10 }
    ensures { result ≡ digit_of read d }
{
    match read {
        Read::Nothing => Some(Read::Whole(d)),
        Read::Whole(n) => Some(Read::Whole(behind(n, d)?)),
        Read::Point(n) => Some(Read::Tenths(behind(n, d)?)),
        Read::Tenths(n) => Some(Read::Hundredths(behind(n, d)?)),
        Read::Hundredths(n) => Some(Read::Thousandths(behind(n, d)?)),
        Read::Thousandths(_) => None,
    }
}

// The digits n and one more, nine at most.
fn behind(n: u32, d: u32) -> Option<u32>
    requires { d < 10 }
    ensures { result ≡ behind n d }
{
    if n < 100_000_000 {
        Some(10 * n + d)
    } else {
        None
    }
}

// So many thousandths, where that is below a million.
fn below(n: u64) -> Option<u32>
    ensures { result ≡ below_of n }
{
    if n < 1_000_000_000 {
        Some(n as u32)
    } else {
        None
    }
}

fn value(read: Read) -> Option<u32>
    ensures { result ≡ value_of read }
{
    match read {
        Read::Whole(n) => below(1000 * n as u64),
        Read::Tenths(n) => below(100 * n as u64),
        Read::Hundredths(n) => below(10 * n as u64),
        Read::Thousandths(n) => below(n as u64),
        Read::Nothing | Read::Point(_) => None,
    }
}
