//! What people are told of shapes, paths and texts alone, with no look at a machine or a certificate.
//!
//! [`noted`], [`example_text`] and [`cut`] tell a shape, a tree and a text, each cut where there is much of it. [`difference`]
//! tells where a value of one shape may lack another, and [`stop_of`] where a path may stop that may name nothing, and why;
//! [`part_at`] and [`front_of`] tell of the front of a path what it names and how it is written, and [`stretch_of`] how a
//! stretch of it is. [`push_line`] and [`push_all`] put what is told behind a text.
#![tactic(auto)]

mod differences;
mod stops;
mod words;

pub use differences::{Apart, Lack, Piece, difference};
pub use stops::{Stop, front_of, part_at, stop_of, stretch_of};
pub use words::{counted, cut, example_text, noted, push_all, push_line};
