//! Diagnostics of a definition: from its text and that of declared shapes to what is wrong, and where.
//!
//! [`lint`] tells every complaint of a text that is refused, and every broken rule of a machine that is read, each with its
//! place. Where declared shapes are given it tells no error exactly where [`asl_tool::verify_inferred`] says yes.
#![tactic(auto)]

mod inferring;
mod linting;
mod reading;
mod texts;

pub use asl_problems::File;
pub use linting::{Linted, lint};
