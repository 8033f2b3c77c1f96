//! Runs of machines: what happens at each move and each answer of a task (States Language, "State Types", "Errors"). What one
//! state makes of its data and of its errors is the crate below.
#![tactic(auto)]

mod acting;
mod answers;
mod changing;
mod driving;
mod enabling;
mod entering;
mod entries;
mod failing;
mod joining;
mod leaving;
mod nodes;
mod orders;
mod planning;
mod running;
mod standing;
mod stepping;
mod waiting;

pub use answers::{Answers, ListAnswers};
pub use asl_processing::{DataFlowError, Datum, Fault};
pub use driving::{DriveRefusal, Stop, drive};
pub use entries::{Answer, Entry, Event, Outcome, Place, Want};
pub use orders::{First, Last, Order};
pub use running::{Run, start};
pub use stepping::StepRefusal;
