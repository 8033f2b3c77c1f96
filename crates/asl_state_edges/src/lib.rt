//! What flows out of a state, and where to (States Language, "Input and Output Processing"): the steps of the walk through
//! a state, each an edge, with the number of the shape that flows there and the finding where that isn't inside what
//! stands there, or a rule that is broken on the way to one.
//!
//! [`edges_of`] walks through a state with given shapes and lists its steps in order: behind a broken rule the walk goes on
//! with what doesn't hang on it. A checker compares what flows at each edge with the shape that stands there; an inferrer
//! takes it in there. Of a path that may name nothing a step has the path and the number of the shape that it goes into; no
//! tree is made here.
#![tactic(auto)]

mod catching;
mod choosing;
mod faults;
mod found;
mod items;
mod pushing;
mod walking;
mod working;

pub use faults::{Broken, FindingFault};
pub use found::{Destination, Edge, Entry, Step, edges_of};
