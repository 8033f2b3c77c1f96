//! Shapes and the rules of a Choice: the shape of the trees for which a rule is true, and whether some rule is true of each
//! tree (States Language, "Choice State").
//!
//! [`rule_shape`] gives the shape of the trees for which a rule is true, [`rule_shape_at`] the same by the numbers of a table
//! of shapes, and [`let_through_at`] tells a path that may name nothing as a doubtful one. [`settles_at`] tells whether a
//! Choice needs no `Default`.
#![tactic(auto)]

mod kind_tests;
mod narrowing;
mod rules;
mod settling;

pub use rules::{RuleShapeRefusal, let_through_at, rule_shape, rule_shape_at};
pub use settling::settles_at;
