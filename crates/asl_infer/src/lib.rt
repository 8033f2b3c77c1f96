//! Inferring certificates: from a machine and its declared shapes, the certificate on which the rounds settle. It is
//! closed. Where rules are broken there is one, too, by which each of them can be told.
#![tactic(auto)]

mod declarations;
mod inferring;
mod lenient;
mod rounds;
mod tasks;
mod telling;

pub use inferring::{InferRefusal, infer, infer_numbered};
pub use lenient::infer_leniently;
