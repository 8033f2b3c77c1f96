//! State machines: a definition, as a JSON value, read as a machine (States Language, "Structure of a State Machine",
//! "State Types").
//!
//! One recursion over the scopes checks each rule, reads each path, template and list of rules where it stands, and adds
//! each state that is in order; then the states get their numbers. What the fields of one object have to be, and what they
//! say, is the crate below.
#![tactic(auto)]

mod building;
mod complaining;
mod kinds;
mod numbering;
mod reading;
mod repeating;
mod scope_reading;
mod scope_telling;
mod scopes;
mod settings;
mod state_checking;
mod state_telling;
mod trouble_reading;

pub use asl_fields::{DefFault, DefRefusal};
pub use asl_machine_table::Machine;
pub use asl_states::{Catcher, ChoiceRule, Delay, Kind, Retrier, Scope, Settings, State, Target};
pub use complaining::complaints;
pub use reading::read;
