//! Machines: all states of one in a table, by number and by name (States Language, "Structure of a State Machine").
#![tactic(auto)]

mod machine;

pub use machine::Machine;
