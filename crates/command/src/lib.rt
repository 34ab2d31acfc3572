// The command line, as one text: words, each with a byte 0 behind it.
#![tactic(auto)]

mod ask;
mod line;

pub use ask::{Change, PairError, pair_of, put, twice};
pub use line::{Verb, count, verb_of, word};
