//! What is wrong with a definition and with declared shapes, or hardly meant, and where.
//!
//! A [`Problem`] is one thing that is wrong or odd, before it has a place. [`problems_of_value`] has the complaints of a
//! definition, [`problems_of_declared`] those of declared shapes, [`problems_of_findings`] the broken rules of a machine,
//! [`add_warnings`] what is odd in one, [`add_repeats`] the names in a text that stand again in their object, [`add_misspelt`] the
//! texts in a definition that are hardly meant as they stand. [`diagnostics_of`] gives problems their places in the texts, and
//! their messages.
#![tactic(auto)]

mod between_fields;
mod complaint_places;
mod complaints;
mod declared_places;
mod definition_places;
mod files;
mod findings;
mod found;
mod groups;
mod messages;
mod misspelt;
mod nested;
mod problems;
mod repeats;
mod scopes;
mod slips;
mod sources;
mod telling;
mod template_places;
mod warnings;

pub use complaints::{problems_of_declared, problems_of_value};
pub use files::File;
pub use findings::problems_of_findings;
pub use misspelt::add_misspelt;
pub use problems::{Problem, Which};
pub use repeats::add_repeats;
pub use telling::diagnostics_of;
pub use warnings::add_warnings;
