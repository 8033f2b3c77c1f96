//! The fields of the objects of a definition: what each has to be, what is wrong with them, and what they say (States
//! Language, "Top-level fields", "State Types", "Errors").
//!
//! [`rows`] are the tables of fields, a table an object. [`check_fields`] stops at the first broken rule, [`tell_fields`]
//! tells all of them; a [`Complaint`] is told at the [`Place`] of its object. The others read what a field says: a text, a
//! number, a path, a template, rules. Nothing here looks at the states of a scope together.
#![tactic(auto)]

mod choices;
mod field_checking;
mod field_telling;
mod fields;
mod places;
mod refusals;
pub mod rows;
mod telling;
mod value_checking;

pub use choices::{read_choices, read_rule};
pub use field_checking::{check_fields, check_rows};
pub use field_telling::{tell_fields, tell_rows};
pub use fields::{
    build_target, build_text, build_text_or, build_text_or_empty, build_tree, elements_of,
    is_given, natural_of, number_of, optional_natural_of, path_of, path_or_null_of, template_of,
    text_of, text_or_empty,
};
pub use places::{Complaint, Place};
pub use refusals::{DefFault, DefRefusal};
pub use telling::{tell, tell_found};
pub use value_checking::wrong_kind;
