// A number as text, and the f32 nearest to it.
#![tactic(auto)]

mod nearest;
mod text;

pub use nearest::{radian, unit};
pub use text::thousandths;
