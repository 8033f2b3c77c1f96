//! What is known of a machine by a certificate, told for people: why rules are broken, by which ways data comes there, and
//! what usually helps; or what is known of one state.
//!
//! [`Known::find`] takes a machine under declared shapes and a certificate, and finds the broken rules and the ways of data.
//! [`Known::findings_text`] tells every broken rule, [`Known::state_text`] one state. [`finding_text_alone`] tells a finding
//! of which nothing else is known.
#![tactic(auto)]

mod by_state;
mod calls;
mod causes;
mod flows;
mod heads;
mod helping;
mod idle_tests;
mod known;
mod lookups;
mod making;
mod misfits;
mod origins;
mod places;
mod results;
mod sources;
mod state_text;
mod telling;
mod tests_of_rules;
mod there;
mod unsure;
mod walking;

pub use known::{Known, finding_text_alone};
