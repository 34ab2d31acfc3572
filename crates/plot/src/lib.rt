// The plot of the drawing, in SVG: its ground, grid and axes, the lines of the lengths and the minimum angle, and their labels.
#![tactic(auto, using(decimal::proofs::PageLaws::extends))]

mod axes;
mod lines;

pub use axes::grid;
pub use lines::{asked, dotted, labels};
