//! The states of machines, and the numbers of the states that their fields name (States Language, "State Types").
#![tactic(auto)]

mod finding;
mod kinds;
mod states;
mod target;

pub use finding::find_all;
pub use states::{Catcher, ChoiceRule, Delay, Kind, Retrier, Scope, Settings, State};
pub use target::Target;
