//! The trace of a run: a line for each entry of its history.
//!
//! [`Lines`] takes entries as they come and has their lines as text: each an object in one line of compact JSON, its names in
//! byte order, ended by a line break (U+000A).
#![tactic(auto)]

mod entries;
mod lines;
mod shown;
mod written;

pub use lines::Lines;
