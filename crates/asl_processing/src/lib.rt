//! What one state makes of its data, of its failures and of its work (States Language, "Input and Output Processing",
//! "Errors", "State Types").
#![tactic(auto)]

mod activities;
mod choosing;
mod data;
mod delays;
mod faults;
mod flowing;
mod items;
mod troubles;
mod working;

pub use activities::Visit;
pub use data::{Data, Datum};
pub use faults::{DataFlowError, Fault, Stop};
pub use flowing::{at_output_path, output_of};
pub use troubles::{Trouble, trouble_of};
pub use working::{Work, first_move};
