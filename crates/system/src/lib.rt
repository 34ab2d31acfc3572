// What the tool has of the system: its arguments, files to read and write, a place for errors; and how a command ends.
#![tactic(auto)]

mod arguments;
mod errors;
mod exit;
mod files;
mod io;
mod outcome;

pub use arguments::gather;
pub use exit::status;
pub use io::{Io, shown};
pub use outcome::{Failure, Refused};
