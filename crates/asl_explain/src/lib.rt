//! Explanations for people: why a rule is broken, by which way data comes there, and what usually helps; or what is known of
//! one state.
//!
//! [`explain_texts`] takes a definition and declared shapes as texts. There is nothing to explain exactly where
//! [`asl_tool::verify_inferred`] says yes.
#![tactic(auto)]

mod explaining;

pub use explaining::{Explained, explain_texts};
