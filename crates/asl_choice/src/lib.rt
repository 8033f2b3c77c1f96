//! The rules of a Choice (States Language, "Choice State"): reading them, and whether their tests are true.
//!
//! [`from_value`] reads the [`Rule`] that a JSON value spells, [`from_tree`] the one that a tree spells; [`holds`] says
//! whether a [`Test`] is true of an input.
#![tactic(auto)]

mod comparing;
mod deciding;
mod matching;
mod operators;
mod patterns;
mod reading;
mod refusal;
mod rule;
mod values;
mod variables;

pub use deciding::{NamesNothing, holds};
pub use reading::{from_tree, from_value};
pub use refusal::RuleRefusal;
pub use rule::{Comparison, Operand, PatternPart, Relation, Rule, Test, ValueKind};
