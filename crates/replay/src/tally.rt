// How many records agree.
use std::fmt;
use std::fmt::{Display, Formatter};
use std::ops::AddAssign;

// Records that agree, of how many; altered ones that agree all the same, of how many; and, added as they are, whether a file could not be read to its end.
#[derive(Clone, Copy, Default)]
pub(crate) struct Tally {
    pub(crate) agree: u64,
    pub(crate) records: u64,
    pub(crate) missed: u64,
    pub(crate) altered: u64,
    pub(crate) broken: bool,
}

impl Tally {
    pub(crate) fn of_record(agrees: bool) -> Tally {
        Tally {
            agree: agrees as u64,
            records: 1,
            ..Tally::default()
        }
    }

    pub(crate) fn of_altered(agrees: bool) -> Tally {
        Tally {
            missed: agrees as u64,
            altered: 1,
            ..Tally::default()
        }
    }

    pub(crate) fn unread() -> Tally {
        Tally {
            broken: true,
            ..Tally::default()
        }
    }
}

// No sum is cut off, since no file counts more than a million.
impl AddAssign for Tally {
    fn add_assign(&mut self, other: Tally) {
        self.agree = self.agree.saturating_add(other.agree);
        self.records = self.records.saturating_add(other.records);
        self.missed = self.missed.saturating_add(other.missed);
        self.altered = self.altered.saturating_add(other.altered);
        self.broken |= other.broken;
    }
}

impl Display for Tally {
    fn fmt<W: fmt::Write>(&self, f: &mut Formatter<W>) -> fmt::Result {
        write!(f, "{} of {} agree", self.agree, self.records)?;
        write!(f, ", and {} of {} altered", self.missed, self.altered)?;
        if self.broken {
            f.write_str(", the rest cannot be read")?;
        }
        Ok(())
    }
}
