//! Payload templates (States Language, "Payload Template"): reading them, and their values.
//!
//! [`from_value`] reads the [`Template`] that a JSON value spells, [`from_tree`] the one that a tree spells; [`eval`] gives
//! its value for an input and the item that a Map takes at hand.
#![tactic(auto)]

mod evaluating;
mod paths;
mod reading;
mod refusal;
mod template;

pub use evaluating::eval;
pub use reading::{from_tree, from_value};
pub use refusal::{SpellingRefusal, TemplateRefusal};
pub use template::Template;
