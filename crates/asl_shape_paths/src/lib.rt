//! Shapes and paths: what a path finds in a shape, what becomes of the shape where something is placed at the path, and a
//! tree in which the path names nothing (States Language, "Paths", "Reference Paths").
//!
//! [`look`] gives the shape of what a path names in every tree of a shape, and [`find_shape`] lends it; [`put`] gives the
//! shape of the trees with another placed in them. [`look_at`] and [`put_at`] give the same by the numbers of a table of
//! shapes. [`find_at`] tells a path that may name nothing as a [`DoubtfulPath`], of which [`missing_at`] makes a tree that
//! shows it, as [`missing`] does of a shape without a number.
//!
//! The crates above, for rules and for templates and states, stand on the same steps: [`numbers`] are shapes of a table whose
//! numbers are known to be in it, [`kinds`] what one takes of each kind of tree, [`parts`] what a path finds in one that some
//! tree has, [`composing`] those that are made of parts.
#![tactic(auto)]

mod alone;
pub mod composing;
mod counterexamples;
mod doubts;
pub mod kinds;
mod looking;
pub mod numbers;
pub mod parts;
mod putting;
mod replacing;

pub use counterexamples::{counterexample_at, missing, missing_at};
pub use doubts::{DoubtfulPath, Found};
pub use kinds::{is_only_integers, is_only_texts};
pub use looking::{LookRefusal, find_at, find_shape, look, look_at};
pub use putting::{PutRefusal, put, put_at};
pub use replacing::{put_field, put_place};
