//! Where and why a text is no JSON, or has a number that isn't whole.
//!
//! [`break_of`] tells where a text breaks, [`Break::words`] why; [`first_fraction`] tells the first number that isn't whole,
//! and [`refused_at`] both in one, for a text that is refused as a tree.
#![tactic(auto)]

mod breaks;
mod words;

pub use breaks::{Break, Reason, break_of, first_fraction};
pub use words::refused_at;
