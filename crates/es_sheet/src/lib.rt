// What `ray es` prints of its file: the page, or the two lines of one that is refused.
#![tactic(auto)]

mod refused;
mod sheet;

pub use refused::refusal;
pub use sheet::page;
