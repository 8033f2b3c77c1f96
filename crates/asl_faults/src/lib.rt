//! Where in the values of a definition, and of declared shapes, something is wrong.
//!
//! An [`Index`] finds members and elements in a text. [`Paths`] are those that stand in a value, in whichever spelling;
//! [`faults_of_shape`] and [`fault_of_rule`] look into a shape, and a rule of a Choice, that is refused for what in it is
//! wrong, and [`Kinds`] for values of another kind than their fields want. [`isnt_path`], [`isnt_reference`]
//! and [`isnt_call`] say of a text why it isn't read.
#![tactic(auto)]

mod calls;
mod found;
mod index;
mod kinds;
mod paths;
mod placed;
mod rule_faults;
mod shape_faults;
mod sources;
mod sure;
mod templates;
mod unread;

pub use found::{Found, Words};
pub use index::Index;
pub use kinds::{Kinds, Misfit, sentence_of_kind, whole_at};
pub use paths::{Paths, values_within};
pub use rule_faults::fault_of_rule;
pub use shape_faults::faults_of_shape;
pub use sources::{string_at, text_at, text_from};
pub use templates::{SUFFIX, refusal_of};
pub use unread::{goes_into_item, isnt_call, isnt_path, isnt_reference};
