// Texts and numbers on a page: lent bytes, and how many of them are written.
#![tactic(auto)]

mod fields;
mod numbers;
mod page;

pub use page::Page;
