// Sine, cosine, arcsine, arccosine and arctangent of an f32, each equal to one exact recipe over scaled whole numbers (docs/ANGLES.md).
#![tactic(auto)]

mod arccosine;
mod arcsine;
mod arctangent;
mod cosine;
mod difference;
mod grid;
mod guess;
mod scale;
mod search;
mod series;
mod sine;

pub use arccosine::acos;
pub use arcsine::asin;
pub use arctangent::atan;
pub use cosine::cos;
pub use sine::sin;
