//! Places in a JSON text: the line and the column of a byte, and the bytes at which values begin.
//!
//! [`Places`] tell the line and the column of a byte, [`fault_in`] where and why a text is no JSON. An [`Outline`] has a
//! text's tokens with their bytes; a [`Spot`] is a value in it or a member's name, found from the text's own value by names
//! and indices. [`States`] has the states of a state machine's definition by name.
#![tactic(auto)]

mod cursors;
mod faults;
mod lexemes;
mod outline;
mod place;
mod states;

pub use cursors::{Items, Members};
pub use faults::{Fault, FaultKind, MAX_DEPTH, Wanted, fault_in};
pub use outline::{Member, Outline, OutlineRefusal, Spot};
pub use place::{Place, Places};
pub use states::{States, members_by_name};
